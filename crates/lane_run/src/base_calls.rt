//! The calls that take bases off line and on line again. The first lane makes them, by the first passes.
ghost use Rattle.std.specs.Prelude.{◌≡◌, ◌≤◌, ◌<◌, [], IfOk, OnOk};
ghost use Rattle.hr_timers.specs.Known.{IsEvacuable};
ghost use Rattle.script_text.specs.CallLines.{most_budget};
ghost use Rattle.lane_notes.specs.Called.{CallsOffline, CallsOnline, LeavesLane, LeavesRest, ReadsClock, lane_of, offline_told, online_told, with_shift};
ghost use Rattle.lane_notes.specs.Worlds.{ArePassesOf};

use crate::world::World;
use hr_timers::{Log, OfflineAnswer, OnlineAnswer};
use ktime::Reading;
use lane_notes::{BaseNote, Lane, note_receipts};
use record_text::Answer;
use seq_timer::BaseEvent;
use std::alloc::{AllocError, Global};
use std::sync::Wait;

/// Takes a base off line: at most so many timers are moved to the heir, by one reading of the clock.
pub(crate) fn offline<R: Wait>(
    rt: &R,
    alloc: Global,
    world: &World,
    lane: &mut Lane,
    base: u32,
    heir: u32,
    budget: u64,
    reading: Reading,
) -> Result<Answer, AllocError>
    requires pass { ArePassesOf world.now lane.old.pass }
    requires reading { ReadsClock lane.old.pass lane.old.pass reading }
    requires first { lane.old.pass.timers.known.id.name ≡ [] }
    requires evacuable { IsEvacuable world.now.timers.about }
    requires base { (base < world.now.timers.about.bases) × (heir < base) }
    requires budget { budget ≤ most_budget }
    ensures leaves { LeavesLane world.now lane.old lane.new }
    ensures call { IfOk result (λ a. CallsOffline world.now (lane_of lane.old) (lane_of lane.new) a base heir budget) }
{
    let mut log = Log::make(alloc);
    log.reserve(2 * budget as usize)?;
    let most = budget as u32;
    let pass = &mut lane.pass.timers;
    let answer = world
        .timers
        .offline_logged(rt, pass, &mut log, base, heir, most, reading);
    note_receipts(&mut lane.notes, lane.label, log.receipts())?;
    if let OfflineAnswer::Offline { stamp, .. } = answer {
        note_shift(lane, base, stamp, BaseEvent::Offline { heir })?;
    }
    Ok(offline_answer(answer))
}

/// Brings a base on line again.
pub(crate) fn online<R: Wait>(
    rt: &R,
    world: &World,
    lane: &mut Lane,
    base: u32,
) -> Result<Answer, AllocError>
    requires pass { ArePassesOf world.now lane.old.pass }
    requires first { lane.old.pass.timers.known.id.name ≡ [] }
    requires evacuable { IsEvacuable world.now.timers.about }
    requires base { base < world.now.timers.about.bases }
    ensures leaves { LeavesLane world.now lane.old lane.new }
    ensures call { IfOk result (λ a. CallsOnline world.now (lane_of lane.old) (lane_of lane.new) a base) }
{
    let pass = &mut lane.pass.timers;
    let answer = world.timers.online(rt, pass, base);
    if let OnlineAnswer::Online { stamp } = answer {
        note_shift(lane, base, stamp, BaseEvent::Online)?;
    }
    Ok(online_answer(answer))
}

/// Notes an entry of a base.
fn note_shift(lane: &mut Lane, base: u32, number: u64, event: BaseEvent) -> Result<(), AllocError>
    ensures rest { LeavesRest lane.old lane.new }
    ensures notes { OnOk result (lane.new.notes ≡ with_shift lane.old.notes lane.old.label base number event) }
{
    let label = lane.label;
    lane.notes.note_base(BaseNote {
        label,
        base,
        number,
        event,
    })
}

/// What taking a base off line answers.
fn offline_answer(answer: OfflineAnswer) -> Answer
    ensures { result ≡ offline_told answer }
{
    match answer {
        OfflineAnswer::AlreadyOffline { stamp } => Answer::Already { stamp },
        OfflineAnswer::HeirOffline { stamp } => Answer::HeirOffline { stamp },
        OfflineAnswer::BaseSpent { stamp } => Answer::BaseSpent { stamp },
        OfflineAnswer::Busy {
            moved,
            timer,
            generation,
        } => Answer::OfflineBusy {
            moved: u64::from(moved),
            timer,
            generation,
        },
        OfflineAnswer::Offline { moved, stamp } => Answer::Offline {
            moved: u64::from(moved),
            stamp,
        },
        OfflineAnswer::More { moved } => Answer::OfflineMore {
            moved: u64::from(moved),
        },
        OfflineAnswer::Spent {
            moved,
            timer,
            stamp,
        } => Answer::OfflineSpent {
            moved: u64::from(moved),
            timer,
            stamp,
        },
    }
}

/// What bringing a base on line answers.
fn online_answer(answer: OnlineAnswer) -> Answer
    ensures { result ≡ online_told answer }
{
    match answer {
        OnlineAnswer::Online { stamp } => Answer::Online { stamp },
        OnlineAnswer::AlreadyOnline { stamp } => Answer::Already { stamp },
    }
}
