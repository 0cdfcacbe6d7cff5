//! The calls on timers by themselves, and the writes of the clock.
ghost use Rattle.std.specs.Prelude.{◌≡◌, ◌≤◌, ◌<◌, [], IfOk, length};
ghost use Rattle.lane_notes.specs.Called.{CallsCancel, CallsStart, CallsWrite, LeavesLane, LooksAtTimer, ReadsClock, cancel_told, lane_of, start_told};
ghost use Rattle.lane_notes.specs.Worlds.{ArePassesOf};

use crate::world::World;
use hr_timers::{Log, StartAnswer};
use ktime::{ClockFault, Reading, Write};
use lane_notes::{Lane, note_receipts};
use record_text::{Answer, ClockLine};
use script_text::StartRequest;
use seq_timer::{Asked, CancelAnswer, Peek};
use std::alloc::{AllocError, Global};
use std::sync::Wait;

/// A log with room for what a call makes of one timer: a cancel, or a start with an Out to each base that it is sent to.
fn make_log(alloc: Global) -> Result<Log, AllocError>
    ensures empty { IfOk result (λ l. l.receipts ≡ []) }
    ensures room { IfOk result (λ l. 65 ≤ l.spare) }
{
    let mut log = Log::make(alloc);
    log.reserve(65)?;
    Ok(log)
}

/// A start.
pub(crate) fn start<R: Wait>(
    rt: &R,
    alloc: Global,
    world: &World,
    lane: &mut Lane,
    timer: u32,
    request: StartRequest,
    reading: Reading,
) -> Result<Answer, AllocError>
    requires pass { ArePassesOf world.now lane.old.pass }
    requires reading { ReadsClock lane.old.pass lane.old.pass reading }
    requires timer { timer < length world.now.timers.about.timers }
    requires base { request.base < world.now.timers.about.bases }
    ensures leaves { LeavesLane world.now lane.old lane.new }
    ensures call { IfOk result (λ a. CallsStart world.now (lane_of lane.old) (lane_of lane.new) a timer request) }
{
    let mut log = make_log(alloc)?;
    let StartRequest { mode, ns, base, .. } = request;
    let asked = Asked {
        mode,
        ns,
        slack: request.slack.unwrap_or(0),
        reading,
        base,
    };
    let pass = &mut lane.pass.timers;
    let answer = world.timers.start_logged(rt, pass, &mut log, timer, &asked);
    note_receipts(&mut lane.notes, lane.label, log.receipts())?;
    Ok(start_answer(answer))
}

/// What a start answers.
fn start_answer(answer: StartAnswer) -> Answer
    ensures { result ≡ start_told answer }
{
    match answer {
        StartAnswer::Spent { stamp } => Answer::Spent { stamp },
        StartAnswer::Started {
            was_armed,
            generation,
            placement,
            ..
        } => Answer::Started {
            generation,
            base: placement.base,
            was_armed,
        },
    }
}

/// A try to cancel.
pub(crate) fn cancel<R: Wait>(
    rt: &R,
    alloc: Global,
    world: &World,
    lane: &mut Lane,
    timer: u32,
) -> Result<Answer, AllocError>
    requires pass { ArePassesOf world.now lane.old.pass }
    requires timer { timer < length world.now.timers.about.timers }
    ensures leaves { LeavesLane world.now lane.old lane.new }
    ensures call { IfOk result (λ a. CallsCancel world.now (lane_of lane.old) (lane_of lane.new) a timer) }
{
    let mut log = make_log(alloc)?;
    let pass = &mut lane.pass.timers;
    let answer = world.timers.try_to_cancel_logged(rt, pass, &mut log, timer);
    note_receipts(&mut lane.notes, lane.label, log.receipts())?;
    Ok(cancel_answer(answer))
}

/// What a try to cancel answers.
fn cancel_answer(answer: CancelAnswer) -> Answer
    ensures { result ≡ cancel_told answer }
{
    match answer {
        CancelAnswer::Idle { stamp } => Answer::Idle { stamp },
        CancelAnswer::Running { generation, stamp } => Answer::Running { generation, stamp },
        CancelAnswer::Cancelled { generation, .. } => Answer::Cancelled { generation },
    }
}

/// A look at a timer.
pub(crate) fn look(world: &World, lane: &mut Lane, timer: u32) -> Peek
    requires pass { ArePassesOf world.now lane.old.pass }
    requires timer { timer < length world.now.timers.about.timers }
    ensures leaves { LeavesLane world.now lane.old lane.new }
    ensures looks { LooksAtTimer world.now (lane_of lane.old) (lane_of lane.new) timer result }
{
    world.timers.peek(&mut lane.pass.timers, timer)
}

/// A write of the clock.
pub(crate) fn write<R: Wait>(
    rt: &R,
    world: &World,
    lane: &mut Lane,
    write: Write,
) -> Result<Answer, AllocError>
    requires pass { ArePassesOf world.now lane.old.pass }
    ensures leaves { LeavesLane world.now lane.old lane.new }
    ensures call { IfOk result (λ a. CallsWrite world.now (lane_of lane.old) (lane_of lane.new) a write) }
{
    let pass = &mut lane.pass;
    let answer = ordered_clock::write(
        rt,
        &world.timers,
        &mut pass.timers,
        &world.clock,
        &mut pass.clock,
        write,
    );
    match answer {
        Ok(after) => {
            let line = ClockLine {
                label: lane.label,
                write,
                mono: after.mono,
                real: after.real,
                boot: after.boot,
                changes: after.changes,
            };
            lane.notes.note_write(after.stamp, line)?;
            Ok(Answer::Clock { stamp: after.stamp })
        }
        Err(ClockFault::ClockRange { would_be }) => Ok(Answer::Range { would_be }),
        Err(ClockFault::ClockSpent) => Ok(Answer::ClockSpent),
    }
}
