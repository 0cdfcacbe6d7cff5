//! A timer that expires once.
ghost use Rattle.std.specs.Prelude.{◌≡◌, ◌+◌, ◌<◌, ℕ, IfNone, IfSome, Some, None, true, length};
ghost use Rattle.ktime.specs.Times.{sat};
ghost use Rattle.seq_timer.specs.Steps.{now_of};
ghost use Rattle.seq_timer.specs.Tables.{is_due_on};
ghost use Rattle.seq_timer.specs.declared.context.Context.TheVariants as contexts;
ghost use Rattle.seq_timer.specs.Contents.{first_due, running_in};
ghost use Rattle.timer_core.specs.Kept.{IsSameSize, IsSpent, content_at, timer_in};

use ktime::{Mode, Reading};
use timer_core::{ClaimAnswer, Core, StartAnswer};
use timer_queue::Queue;

/// Arms a timer to expire so many nanoseconds after the reading. It answers the generation that is armed, or nothing where the timer's
/// history is full.
pub fn start_once<Q: Queue>(
    core: &mut Core<Q>,
    id: u32,
    ns: u64,
    base: u32,
    reading: Reading,
) -> Option<u64>
    requires timer { id < length core.old.timers }
    requires base { base < length core.old.bases }
    ensures armed { IfSome result (λ generation. (timer_in core.new id).armed ≡ Some generation) }
    ensures full { IfNone result (IsSpent (timer_in core.old id) × (core.new ≡ core.old)) }
    ensures expires { IfSome result (λ generation. (timer_in core.new id).expires ≡ sat (now_of (timer_in core.new id) reading + ns)) }
    ensures sizes { IsSameSize core.old core.new }
{
    match core.start(id, Mode::Rel, ns, base, reading) {
        StartAnswer::Started { generation, .. } => Some(generation),
        StartAnswer::Spent { .. } => None,
    }
}

/// Runs the timer that is next to expire on a base, if one is, and lets it rest. It answers which one that was.
pub fn expire_once<Q: Queue>(core: &mut Core<Q>, base: u32, reading: Reading) -> Option<u32>
    requires base { base < length core.old.bases }
    ensures none { IfNone result (core.new ≡ core.old) }
    ensures next { (expires id : ℕ) → running_in contexts.Hard (content_at core.old base) ≡ None → first_due contexts.Hard (timer_in core.old) (content_at core.old base) reading ≡ Some (expires, id) → result ≡ Some id }
    ensures due { IfSome result (λ id. is_due_on base reading (timer_in core.old id) ≡ true) }
    ensures rests { IfSome result (λ id. ((timer_in core.new id).armed ≡ None) × ((timer_in core.new id).running ≡ None)) }
    ensures sizes { IsSameSize core.old core.new }
{
    match core.claim_next(base, reading) {
        ClaimAnswer::Claimed { timer, .. } => {
            core.finish(timer, false);
            Some(timer)
        }
        ClaimAnswer::NoneDue | ClaimAnswer::BaseBusy { .. } => None,
    }
}
