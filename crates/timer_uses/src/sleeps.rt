//! Sleeps over a high-resolution timer, on one thread.
ghost use Rattle.std.specs.Prelude.{◌≡◌, ◌<◌, ◌↔◌, ℕ, IfNone, IfSome, IsSome, IsTrue, Some, None, true, length};
ghost use Rattle.ktime.specs.declared.clock_id.ClockId.{ClockId};
ghost use Rattle.timer_setting.specs.Arguments.{time_of};
ghost use Rattle.timer_setting.specs.declared.phase.Phase.TheVariants as phases;
ghost use Rattle.timer_setting.specs.Phases.{clock_by, expiry_by, is_expiry_of};
ghost use Rattle.timer_setting.specs.StepTables.{IsAnswered};
ghost use Rattle.seq_timer.specs.Tables.{is_due_on};
ghost use Rattle.timer_core.specs.Kept.{IsSameSize, timer_in};
ghost use Rattle.timer_setting.specs.declared.object_call.ObjectCall.TheVariants as calls;
ghost use Rattle.timer_setting.specs.declared.object_call.ObjectReply.{ObjectReply};
ghost use Rattle.timer_setting.specs.declared.object_call.ObjectReply.TheVariants as replies;
ghost use Rattle.sleeper.specs.States.{is_sleeping};
ghost use Rattle.sleeper.specs.Steps.{interrupt_refusal, sleep_refusal, sleeper_table};

use ktime::{Reading, TimeSpec};
use seq_timer::CancelAnswer;
use sleeper::{Arm, InterruptAnswer, Sleep, SleepAnswer, SleeperState, SleptAnswer, TriggerAnswer};
use timer_core::{ClaimAnswer, Core, StartAnswer};
use timer_queue::Queue;

/// Begins a sleep of so long or, with `TIMER_ABSTIME`, up to a time of the sleeper's clock.
pub fn begin_sleep<Q: Queue>(
    core: &mut Core<Q>,
    sleeper: &mut SleeperState,
    id: u32,
    flags: u64,
    time: TimeSpec,
    reading: Reading,
) -> SleepAnswer
    requires timer { id < length core.old.timers }
    requires base { sleeper.old.base < length core.old.bases }
    ensures refused { (reply : ObjectReply) → sleep_refusal sleeper.old flags time ≡ Some reply → (replies.Sleep result ≡ reply) × (sleeper.new ≡ sleeper.old) × (core.new ≡ core.old) }
    ensures slept { result ≡ SleepAnswer.Slept → (sleeper.new.sleep ≡ Sleep.Free) × (core.new ≡ core.old) }
    ensures asleep { (generation expires : ℕ) (clock : ClockId) → result ≡ SleepAnswer.Asleep → sleeper.new.phase ≡ phases.Armed generation clock expires → (timer_in core.new id).armed ≡ Some generation }
    ensures time { (generation expires : ℕ) (clock : ClockId) → result ≡ SleepAnswer.Asleep → sleeper.new.phase ≡ phases.Armed generation clock expires → (clock ≡ clock_by sleeper.old.clock flags) × (expires ≡ expiry_by sleeper.old.clock flags (time_of time) reading) }
    ensures kept { (sleeper.new.base ≡ sleeper.old.base) × (sleeper.new.limit ≡ sleeper.old.limit) }
    ensures sizes { IsSameSize core.old core.new }
{
    let Some(wanted) = sleeper.sleep_wants(flags, time, reading) else {
        return sleeper.sleep(flags, time, reading, Arm::NotAsked);
    };
    let base = sleeper.timer().base;
    let arm = match core.start(id, wanted.mode, wanted.ns, base, reading) {
        StartAnswer::Started { generation, .. } => Arm::Armed(generation),
        StartAnswer::Spent { stamp } => Arm::Unarmed(stamp),
    };
    sleeper.sleep(flags, time, reading, arm)
}

/// The timer's function has run for this generation. Whether that wakes the sleeper.
pub fn wake(sleeper: &mut SleeperState, generation: u64, reading: Reading) -> bool
    ensures expired { IsTrue result ↔ ((sleeper.old.stamp < sleeper.old.limit) × IsTrue (is_expiry_of sleeper.old.phase generation reading)) }
    ensures woken { IsTrue result → sleeper.new.sleep ≡ Sleep.Woken }
    ensures kept { (sleeper.new.base ≡ sleeper.old.base) × (sleeper.new.limit ≡ sleeper.old.limit) }
{
    matches!(sleeper.trigger(generation, reading), TriggerAnswer::Counted)
}

/// Runs the timer that is next to expire on a base, if one is, and lets it rest. Whether that was the sleeper's, and woke it.
pub fn expire_sleep<Q: Queue>(
    core: &mut Core<Q>,
    sleeper: &mut SleeperState,
    id: u32,
    base: u32,
    reading: Reading,
) -> bool
    requires base { base < length core.old.bases }
    ensures due { IsTrue result → IsTrue (is_due_on base reading (timer_in core.old id)) }
    ensures woken { IsTrue result → sleeper.new.sleep ≡ Sleep.Woken }
    ensures rests { IsTrue result → ((timer_in core.new id).armed ≡ None) × ((timer_in core.new id).running ≡ None) }
    ensures kept { (sleeper.new.base ≡ sleeper.old.base) × (sleeper.new.limit ≡ sleeper.old.limit) }
    ensures sizes { IsSameSize core.old core.new }
{
    let ClaimAnswer::Claimed {
        timer,
        generation,
        ..
    } = core.claim_next(base, reading)
    else {
        return false;
    };
    let woken = timer == id && wake(sleeper, generation, reading);
    core.finish(timer, false);
    woken
}

/// Ends a sleep, as a signal does, and disarms its timer first. It answers nothing where the timer's function runs: that function is to
/// return, and to wake the sleeper, before anyone asks again.
pub fn end_sleep<Q: Queue>(
    core: &mut Core<Q>,
    sleeper: &mut SleeperState,
    id: u32,
    reading: Reading,
) -> Option<InterruptAnswer>
    requires timer { id < length core.old.timers }
    ensures runs { IfNone result (IsSome (timer_in core.old id).running × (sleeper.new ≡ sleeper.old) × (core.new ≡ core.old)) }
    ensures answered { IfSome result (λ answer. IsAnswered sleeper_table (interrupt_refusal sleeper.old) sleeper.old (calls.Interrupt reading) (replies.Interrupt answer) sleeper.new) }
    ensures disarmed { IfSome result (λ answer. interrupt_refusal sleeper.old ≡ None → is_sleeping sleeper.old.sleep ≡ true → (timer_in core.new id).armed ≡ None) }
    ensures sizes { IsSameSize core.old core.new }
{
    if sleeper.timer().spent().is_some() || sleeper.slept() != SleptAnswer::Sleeping {
        return Some(sleeper.interrupt(reading));
    }
    if let CancelAnswer::Running { .. } = core.try_to_cancel(id) {
        return None;
    }
    Some(sleeper.interrupt(reading))
}
