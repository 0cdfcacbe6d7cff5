//! A lane in a round: its calls in their order, each with its answer and with notes of what it did.
ghost use Rattle.std.specs.Prelude.{◌≡◌, ◌≤◌, ◌<◌, ◌∷◌, [], false, IfOk, OnOk};
ghost use Rattle.std.specs.List.{AllByRecursion};
ghost use Rattle.lane_notes.specs.Called.{Called, CalledThen, CallsReading, LeavesLane, ReadsClock, ReadsClockFirst, lane_of, CanCall};
ghost use Rattle.lane_notes.specs.Rounds.{AnswersCall, CanRun, MakesCalls, RunsLane};
ghost use Rattle.lane_notes.specs.Worlds.{ArePassesOf, KeepPasses, LeadsByName};

use crate::base_calls::{offline, online};
use crate::expiring::expire;
use crate::gate::{Gate, Point};
use crate::object_calls::{
    accept, gettime, interrupt, overrun, read, readable, settime, sleep, slept,
};
use crate::reading::read_clock;
use crate::signals::sigwait;
use crate::timer_calls::{cancel, look, start, write};
use crate::world::World;
use ktime::Reading;
use lane_notes::Lane;
use record_text::Answer;
use script_text::{Call, Round};
use std::alloc::{AllocError, Global};
use std::sync::Wait;

/// Makes the lane's calls of a round.
pub(crate) fn run_lane<R: Wait, G: Gate>(
    rt: &R,
    alloc: Global,
    world: &World,
    gate: &G,
    round: &Round,
    lane: &mut Lane,
)
    requires lane { CanRun world.now lane.old }
    requires calls { AllByRecursion (λ c. CanCall world.now c.lane c.call) round.now.calls }
    ensures ran { RunsLane world.now round.now lane.old lane.new }
{
    for line in round.calls.as_slice() {
        if line.lane == lane.label.lane {
            make_next(rt, alloc, world, gate, lane, line.call);
        }
    }
}

/// Makes the lane's next call, with the gate's points before and after it.
fn make_next<R: Wait, G: Gate>(
    rt: &R,
    alloc: Global,
    world: &World,
    gate: &G,
    lane: &mut Lane,
    call: Call,
)
    requires pass { ArePassesOf world.now lane.old.pass }
    requires first { LeadsByName lane.old.label.lane lane.old.pass }
    requires call { CanCall world.now lane.old.label.lane call }
    ensures pass { ArePassesOf world.now lane.new.pass }
    ensures keeps { KeepPasses lane.old.pass lane.new.pass }
    ensures lane { lane.new.label.lane ≡ lane.old.label.lane }
    ensures before { lane.new.wants_memory ≡ false → lane.old.wants_memory ≡ false }
    ensures calls { lane.new.wants_memory ≡ false → MakesCalls world.now lane.old lane.new (call ∷ []) }
{
    if lane.wants_memory {
        return;
    }
    let label = lane.label;
    gate.at(label.lane, label.call, Point::Call);
    let done = make_noted(rt, alloc, world, gate, lane, call);
    gate.at(label.lane, label.call, Point::After);
    lane.wants_memory = done.is_err();
    lane.label.call = label.call.saturating_add(1);
}

/// Makes a call, and keeps its answer.
fn make_noted<R: Wait, G: Gate>(
    rt: &R,
    alloc: Global,
    world: &World,
    gate: &G,
    lane: &mut Lane,
    call: Call,
) -> Result<(), AllocError>
    requires pass { ArePassesOf world.now lane.old.pass }
    requires first { LeadsByName lane.old.label.lane lane.old.pass }
    requires call { CanCall world.now lane.old.label.lane call }
    ensures pass { ArePassesOf world.now lane.new.pass }
    ensures keeps { KeepPasses lane.old.pass lane.new.pass }
    ensures label { lane.new.label ≡ lane.old.label }
    ensures call { OnOk result (AnswersCall world.now lane.old call lane.new) }
{
    lane.answers.reserve(1)?;
    let answer = make(rt, alloc, world, gate, lane, call)?;
    lane.answers.push(answer)?;
    Ok(())
}

/// Makes a call, behind its reading of the clock where it takes one.
fn make<R: Wait, G: Gate>(
    rt: &R,
    alloc: Global,
    world: &World,
    gate: &G,
    lane: &mut Lane,
    call: Call,
) -> Result<Answer, AllocError>
    requires pass { ArePassesOf world.now lane.old.pass }
    requires first { LeadsByName lane.old.label.lane lane.old.pass }
    requires call { CanCall world.now lane.old.label.lane call }
    ensures leaves { LeavesLane world.now lane.old lane.new }
    ensures call { IfOk result (λ a. Called world.now (lane_of lane.old) call a (lane_of lane.new)) }
{
    match call {
        Call::Cancel { timer } => cancel(rt, alloc, world, lane, timer),
        Call::Peek { timer } => {
            let seen = look(world, lane, timer);
            Ok(Answer::Peek {
                stamp: seen.stamp,
                base: seen.base,
                enqueued: seen.enqueued,
                running: seen.running,
                moving: seen.moving,
            })
        }
        Call::Overrun { timer } => Ok(overrun(rt, alloc, world, lane, timer)),
        Call::Slept { timer } => Ok(slept(rt, alloc, world, lane, timer)),
        Call::Online { base } => online(rt, world, lane, base),
        Call::Clock { write: wanted } => write(rt, world, lane, wanted),
        Call::Start { .. }
        | Call::Expire { .. }
        | Call::Settime { .. }
        | Call::Gettime { .. }
        | Call::Accept { .. }
        | Call::Read { .. }
        | Call::Readable { .. }
        | Call::Sleep { .. }
        | Call::Interrupt { .. }
        | Call::Sigwait
        | Call::Offline { .. } => make_reading(rt, alloc, world, gate, lane, call),
    }
}

/// Reads the clock, and makes a call by this reading.
fn make_reading<R: Wait, G: Gate>(
    rt: &R,
    alloc: Global,
    world: &World,
    gate: &G,
    lane: &mut Lane,
    call: Call,
) -> Result<Answer, AllocError>
    requires pass { ArePassesOf world.now lane.old.pass }
    requires first { LeadsByName lane.old.label.lane lane.old.pass }
    requires call { CanCall world.now lane.old.label.lane call }
    requires reads { ReadsClockFirst call }
    ensures leaves { LeavesLane world.now lane.old lane.new }
    ensures call { IfOk result (λ a. CallsReading world.now (lane_of lane.old) (lane_of lane.new) call a) }
{
    let reading = read_clock(rt, world, lane);
    let answer = make_then(rt, alloc, world, gate, lane, call, reading)?;
    Ok(answer)
}

/// Makes a call by a reading that the lane has just taken.
fn make_then<R: Wait, G: Gate>(
    rt: &R,
    alloc: Global,
    world: &World,
    gate: &G,
    lane: &mut Lane,
    call: Call,
    reading: Reading,
) -> Result<Answer, AllocError>
    requires pass { ArePassesOf world.now lane.old.pass }
    requires first { LeadsByName lane.old.label.lane lane.old.pass }
    requires call { CanCall world.now lane.old.label.lane call }
    requires reads { ReadsClockFirst call }
    requires reading { ReadsClock lane.old.pass lane.old.pass reading }
    ensures leaves { LeavesLane world.now lane.old lane.new }
    ensures call { IfOk result (λ a. CalledThen world.now (lane_of lane.old) call a (lane_of lane.new)) }
{
    match call {
        Call::Start { timer, request } => start(rt, alloc, world, lane, timer, request, reading),
        Call::Expire {
            context,
            base,
            budget,
        } => expire(rt, alloc, world, gate, lane, context, base, budget, reading),
        Call::Settime {
            timer,
            flags,
            value,
            interval,
        } => settime(
            rt, alloc, world, lane, timer, flags, value, interval, reading,
        ),
        Call::Gettime { timer } => gettime(rt, alloc, world, lane, timer, reading),
        Call::Accept { timer } => accept(rt, alloc, world, lane, timer, reading),
        Call::Read { timer, len } => read(rt, alloc, world, lane, timer, len, reading),
        Call::Readable { timer } => Ok(readable(rt, alloc, world, lane, timer, reading)),
        Call::Sleep { timer, flags, time } => {
            sleep(rt, alloc, world, lane, timer, flags, time, reading)
        }
        Call::Interrupt { timer } => interrupt(rt, alloc, world, lane, timer, reading),
        Call::Sigwait => sigwait(rt, alloc, world, lane, reading),
        Call::Offline { base, heir, budget } => {
            offline(rt, alloc, world, lane, base, heir, budget, reading)
        }
        Call::Cancel { .. }
        | Call::Peek { .. }
        | Call::Overrun { .. }
        | Call::Slept { .. }
        | Call::Online { .. }
        | Call::Clock { .. } => unreachable!(),
    }
}
