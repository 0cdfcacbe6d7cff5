//! A periodic POSIX timer over its high-resolution timer.
ghost use Rattle.std.specs.Prelude.{◌≡◌, ◌<◌, ◌↔◌, ℕ, IfSome, IsSome, IsTrue, Some, None, true, false, length};
ghost use Rattle.timer_setting.specs.Arguments.{abstime, time_of};
ghost use Rattle.timer_setting.specs.Phases.{is_expiry_of, periods_in};
ghost use Rattle.timer_core.specs.Kept.{IsSameSize, timer_in};
ghost use Rattle.ktime.specs.declared.clock_id.ClockId.{ClockId};
ghost use Rattle.timer_setting.specs.declared.phase.Phase.TheVariants as phases;
ghost use Rattle.timer_setting.specs.declared.object_call.ObjectReply.{ObjectReply};
ghost use Rattle.timer_setting.specs.declared.object_call.ObjectReply.TheVariants as replies;
ghost use Rattle.posix_timer.specs.Steps.{overrun_of, posix_settime_refusal};

use crate::starts::make_start;
use ktime::{Reading, TimeSpec};
use posix_timer::{AcceptAnswer, PosixState, SettimeAnswer, TIMER_ABSTIME, TriggerAnswer};
use timer_core::Core;
use timer_queue::Queue;

/// Arms a POSIX timer that isn't armed, to expire at this time of its clock and at every interval after it.
pub fn arm_periodic<Q: Queue>(
    core: &mut Core<Q>,
    timer: &mut PosixState,
    id: u32,
    at: TimeSpec,
    interval: TimeSpec,
    reading: Reading,
) -> SettimeAnswer
    requires timer { id < length core.old.timers }
    requires base { timer.old.base < length core.old.bases }
    ensures refused { (reply : ObjectReply) → posix_settime_refusal timer.old abstime at interval ≡ Some reply → (replies.Settime result ≡ reply) × (timer.new ≡ timer.old) }
    ensures armed { (generation expires : ℕ) (clock : ClockId) → posix_settime_refusal timer.old abstime at interval ≡ None → timer.new.phase ≡ phases.Armed generation clock expires → ((timer_in core.new id).armed ≡ Some generation) × (expires ≡ time_of at) }
    ensures cleared { posix_settime_refusal timer.old abstime at interval ≡ None → (timer.new.pending ≡ false) × (timer.new.overrun ≡ 0) }
    ensures kept { (timer.new.base ≡ timer.old.base) × (timer.new.limit ≡ timer.old.limit) }
    ensures sizes { IsSameSize core.old core.new }
{
    let wanted = timer.settime_wants(TIMER_ABSTIME, at, interval, reading);
    let arm = make_start(core, id, wanted, timer.timer().base, reading);
    timer.settime(TIMER_ABSTIME, at, interval, reading, arm)
}

/// The timer's function has run for this generation. Whether that makes a signal pending.
pub fn signal_expired(timer: &mut PosixState, generation: u64, reading: Reading) -> bool
    ensures expired { IsTrue result ↔ ((timer.old.stamp < timer.old.limit) × IsTrue (is_expiry_of timer.old.phase generation reading)) }
    ensures pending { IsTrue result → timer.new.pending ≡ true }
    ensures kept { (timer.new.base ≡ timer.old.base) × (timer.new.limit ≡ timer.old.limit) }
{
    matches!(timer.trigger(generation, reading), TriggerAnswer::Counted)
}

/// Accepts the pending signal, and arms the timer for its next expiry. It answers the overrun, or nothing where no signal is pending.
pub fn accept_signal<Q: Queue>(
    core: &mut Core<Q>,
    timer: &mut PosixState,
    id: u32,
    reading: Reading,
) -> Option<u64>
    requires timer { id < length core.old.timers }
    requires base { timer.old.base < length core.old.bases }
    ensures some { IsSome result ↔ ((timer.old.stamp < timer.old.limit) × (timer.old.pending ≡ true)) }
    ensures overrun { IfSome result (λ n. n ≡ overrun_of (periods_in timer.old.phase timer.old.interval reading)) }
    ensures accepted { IfSome result (λ n. (timer.new.pending ≡ false) × (timer.new.overrun ≡ n)) }
    ensures sizes { IsSameSize core.old core.new }
{
    let wanted = timer.accept_wants(reading);
    let arm = make_start(core, id, wanted, timer.timer().base, reading);
    match timer.accept(reading, arm) {
        AcceptAnswer::Accepted { overrun } => Some(overrun),
        AcceptAnswer::NoSignal | AcceptAnswer::Spent { .. } => None,
    }
}
