//! A timer descriptor over its high-resolution timer, and a read of its expiries.
ghost use Rattle.std.specs.Prelude.{◌≡◌, ◌<◌, ◌≤◌, ◌↔◌, ◌⊎◌, IfNone, IfSome, IsTrue, Some, None, length};
ghost use Rattle.timer_setting.specs.Phases.{is_expiry_of};
ghost use Rattle.timer_setting.specs.declared.object_call.ObjectReply.{ObjectReply};
ghost use Rattle.timer_setting.specs.declared.object_call.ObjectReply.TheVariants as replies;
ghost use Rattle.timer_core.specs.Kept.{IsSameSize};
ghost use Rattle.timer_fd.specs.Steps.{fd_read_answer, fd_settime_refusal, total_in};

use crate::starts::make_start;
use ktime::{Reading, TimeSpec};
use timer_core::Core;
use timer_fd::{FdState, ReadAnswer, SettimeAnswer, TriggerAnswer};
use timer_queue::Queue;

/// Arms the timer of a descriptor that isn't armed, to expire so long after the reading and at every interval after that.
pub fn set_descriptor<Q: Queue>(
    core: &mut Core<Q>,
    descriptor: &mut FdState,
    id: u32,
    value: TimeSpec,
    interval: TimeSpec,
    reading: Reading,
) -> SettimeAnswer
    requires timer { id < length core.old.timers }
    requires base { descriptor.old.base < length core.old.bases }
    ensures refused { (reply : ObjectReply) → fd_settime_refusal descriptor.old 0 value interval ≡ Some reply → (replies.Settime result ≡ reply) × (descriptor.new ≡ descriptor.old) }
    ensures count { fd_settime_refusal descriptor.old 0 value interval ≡ None → descriptor.new.count ≡ 0 }
    ensures kept { (descriptor.new.base ≡ descriptor.old.base) × (descriptor.new.limit ≡ descriptor.old.limit) }
    ensures sizes { IsSameSize core.old core.new }
{
    let wanted = descriptor.settime_wants(0, value, interval, reading);
    let arm = make_start(core, id, wanted, descriptor.timer().base, reading);
    descriptor.settime(0, value, interval, reading, arm)
}

/// The timer's function has run for this generation. Whether that is one more expiry to be read.
pub fn descriptor_expired(descriptor: &mut FdState, generation: u64, reading: Reading) -> bool
    ensures expired { IsTrue result ↔ ((descriptor.old.stamp < descriptor.old.limit) × IsTrue (is_expiry_of descriptor.old.phase generation reading)) }
    ensures count { IsTrue result → 0 < descriptor.new.count }
    ensures kept { (descriptor.new.base ≡ descriptor.old.base) × (descriptor.new.limit ≡ descriptor.old.limit) }
{
    matches!(
        descriptor.trigger(generation, reading),
        TriggerAnswer::Counted
    )
}

/// Reads how often the timer has expired, and arms it for its next expiry. It answers nothing where the read would block.
pub fn read_count<Q: Queue>(
    core: &mut Core<Q>,
    descriptor: &mut FdState,
    id: u32,
    reading: Reading,
) -> Option<u64>
    requires timer { id < length core.old.timers }
    requires base { descriptor.old.base < length core.old.bases }
    ensures none { IfNone result ((descriptor.old.limit ≤ descriptor.old.stamp) ⊎ (fd_read_answer descriptor.old reading ≡ ReadAnswer.Again) ⊎ (fd_read_answer descriptor.old reading ≡ ReadAnswer.Canceled)) }
    ensures total { IfSome result (λ total. (total ≡ total_in descriptor.old reading) × (0 < total)) }
    ensures read { IfSome result (λ total. descriptor.new.count ≡ 0) }
    ensures sizes { IsSameSize core.old core.new }
{
    let wanted = descriptor.read_wants(8, reading);
    let arm = make_start(core, id, wanted, descriptor.timer().base, reading);
    match descriptor.read(8, reading, arm) {
        ReadAnswer::Count { total } => Some(total),
        ReadAnswer::Again | ReadAnswer::Canceled | ReadAnswer::Spent { .. } => None,
        ReadAnswer::ShortBuffer => unreachable!(),
    }
}
