//! A timer that expires at every interval.
ghost use Rattle.std.specs.Prelude.{◌≡◌, ◌<◌, ℕ, IfSome, IsNone, Some, None, length};
ghost use Rattle.ktime.specs.Times.{next_after, passed};
ghost use Rattle.seq_timer.specs.Steps.{now_of};
ghost use Rattle.seq_timer.specs.declared.context.Context.TheVariants as contexts;
ghost use Rattle.seq_timer.specs.Contents.{first_due, running_in};
ghost use Rattle.timer_core.specs.Kept.{IsSameSize, IsSpent, content_at, timer_in};

use ktime::Reading;
use seq_timer::ForwardAnswer;
use timer_core::{ClaimAnswer, Core};
use timer_queue::Queue;

/// A tick of a periodic timer: how many intervals have passed since the last one.
#[derive(Clone, Copy, Debug, PartialEq, Eq)]
pub struct Tick {
    pub timer: u32,
    pub count: u64,
}

/// Runs the timer that is next to expire on a base, if one is, moves its expiry past the reading by whole intervals, and arms it again. It
/// answers nothing where none is, or where the timer's history is full.
pub fn expire_periodic<Q: Queue>(
    core: &mut Core<Q>,
    base: u32,
    reading: Reading,
    interval: u64,
) -> Option<Tick>
    requires base { base < length core.old.bases }
    ensures full { (expires id : ℕ) → running_in contexts.Hard (content_at core.old base) ≡ None → first_due contexts.Hard (timer_in core.old) (content_at core.old base) reading ≡ Some (expires, id) → IsNone result → IsSpent (timer_in core.new id) }
    ensures count { IfSome result (λ tick. tick.count ≡ passed (timer_in core.old tick.timer).expires (now_of (timer_in core.old tick.timer) reading) interval) }
    ensures expires { IfSome result (λ tick. (timer_in core.new tick.timer).expires ≡ next_after (timer_in core.old tick.timer).expires (now_of (timer_in core.old tick.timer) reading) interval) }
    ensures sizes { IsSameSize core.old core.new }
{
    let timer = match core.claim_next(base, reading) {
        ClaimAnswer::Claimed { timer, .. } => timer,
        ClaimAnswer::NoneDue | ClaimAnswer::BaseBusy { .. } => return None,
    };
    let forwarded = core.forward(timer, reading, interval);
    core.finish(timer, true);
    match forwarded {
        ForwardAnswer::Forwarded { moved, .. } => Some(Tick {
            timer,
            count: moved.count,
        }),
        ForwardAnswer::Spent { .. } | ForwardAnswer::Armed { .. } => None,
    }
}
