//! The script's calls, made by the calls of `hr_timers` that log, and noted as a lane's.
ghost use Rattle.std.specs.Prelude.{◌≡◌};

use hr_timers::{Log, StartAnswer, Timers};
use ktime::{ClockId, Mode, Reading};
use lane_notes::{Notes, note_receipts, record_of};
use record_text::{Answer, ItemList, Label, RunRecord, Version};
use seq_timer::{Asked, CancelAnswer};
use std::alloc::{AllocError, Global};
use std::sync::Wait;

/// Starts timer 0 and cancels it, and makes the record of one lane that does so.
pub fn record_by_hand<R: Wait>(rt: &R, alloc: Global) -> Result<RunRecord, AllocError> {
    let mut started = Log::make(alloc);
    let mut cancelled = Log::make(alloc);
    started.reserve(2)?;
    cancelled.reserve(1)?;
    let asked = Asked {
        mode: Mode::Rel,
        ns: 100,
        slack: 0,
        reading: Reading::at(0),
        base: 0,
    };
    let (timers, mut pass) = Timers::make(alloc, 1, &[ClockId::Monotonic], 100)?;
    let start = timers.start_logged(rt, &mut pass, &mut started, 0, &asked);
    let cancel = timers.try_to_cancel_logged(rt, &mut pass, &mut cancelled, 0);
    timers.close(pass);

    let mut notes = Notes::new(alloc);
    note_receipts(&mut notes, Label { lane: 0, call: 0 }, started.receipts())?;
    note_receipts(&mut notes, Label { lane: 0, call: 1 }, cancelled.receipts())?;
    let mut answers = ItemList::new(alloc);
    answers.push(start_answer(start))?;
    answers.push(cancel_answer(cancel))?;
    record_of(alloc, Version::One, notes, 1, 1, vec![in alloc; answers]?)
}

fn start_answer(answer: StartAnswer) -> Answer {
    match answer {
        StartAnswer::Started {
            was_armed,
            generation,
            placement,
            ..
        } => Answer::Started {
            generation,
            base: placement.base,
            was_armed,
        },
        StartAnswer::Spent { stamp } => Answer::Spent { stamp },
    }
}

fn cancel_answer(answer: CancelAnswer) -> Answer {
    match answer {
        CancelAnswer::Cancelled { generation, .. } => Answer::Cancelled { generation },
        CancelAnswer::Idle { stamp } => Answer::Idle { stamp },
        CancelAnswer::Running { generation, stamp } => Answer::Running { generation, stamp },
    }
}
