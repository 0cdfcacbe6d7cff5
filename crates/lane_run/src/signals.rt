//! The next signal of queued timers as a call of a lane.
ghost use Rattle.std.specs.Prelude.{◌≡◌, IfOk};
ghost use Rattle.lane_notes.specs.Called.{CallsSigwait, LeavesLane, ReadsClock, lane_of, next_told};
ghost use Rattle.lane_notes.specs.Worlds.{ArePassesOf};

use crate::object_calls::{make_logs, note_logs};
use crate::world::World;
use ktime::Reading;
use lane_notes::Lane;
use record_text::Answer;
use std::alloc::{AllocError, Global};
use std::sync::Wait;
use timer_objects::NextSignal;

/// Takes the next signal.
pub(crate) fn sigwait<R: Wait>(
    rt: &R,
    alloc: Global,
    world: &World,
    lane: &mut Lane,
    reading: Reading,
) -> Result<Answer, AllocError>
    requires pass { ArePassesOf world.now lane.old.pass }
    requires reading { ReadsClock lane.old.pass lane.old.pass reading }
    ensures leaves { LeavesLane world.now lane.old lane.new }
    ensures call { IfOk result (λ a. CallsSigwait world.now (lane_of lane.old) (lane_of lane.new) a) }
{
    let mut logs = make_logs(alloc)?;
    let next = world.objects.next_signal(
        rt,
        &world.timers,
        &mut lane.pass.timers,
        &mut lane.pass.objects,
        &mut lane.pass.signals,
        &mut logs.timers,
        &mut logs.objects,
        reading,
    );
    note_logs(lane, &logs)?;
    Ok(next_answer(next))
}

/// What a call for the next signal answers.
fn next_answer(next: NextSignal) -> Answer
    ensures { result ≡ next_told next }
{
    match next {
        NextSignal::NoneQueued => Answer::NoneQueued,
        NextSignal::Spent {
            timer,
            number,
            stamp: _,
        } => Answer::SpentSignal { timer, number },
        NextSignal::Stale { timer, number } => Answer::StaleSignal { timer, number },
        NextSignal::Accepted {
            timer,
            number,
            overrun,
        } => Answer::Signal {
            timer,
            number,
            overrun,
        },
    }
}
