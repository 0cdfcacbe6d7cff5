//! Tests of `posix_timer`: a POSIX timer's calls, a worked history, and the greatest overrun.
ghost use Rattle.std.specs.Prelude.{◌≡◌, Some};
ghost use Rattle.ktime.specs.declared.clock_id.ClockId.TheVariants as clocks;
ghost use Rattle.posix_timer.specs.Histories.{IsPosixHistory};
ghost use Rattle.posix_timer.specs.Steps.{overrun_of};
ghost use Rattle.timer_uses.specs.PosixEntries.{stale_and_cleared};

use super::{assert_equal, ns, wanted};
use ktime::{ClockId, Mode, Reading};
use posix_timer::{
    AcceptAnswer, Arm, ObjectCall, ObjectReply, PosixState, Setting, TriggerAnswer, few_entries,
    one_more_entry, posix_timers_are_a_kind,
};

#[test]
fn periods_that_passed_before_the_acceptance_are_overruns(rt: HostRuntime) {
    let mut timer = PosixState::make(ClockId::Monotonic, 0, 100);
    timer.settime(1, ns(100), ns(10), Reading::at(0), Arm::Armed(1));
    let setting = Setting {
        left: 60,
        interval: 10,
    };
    assert_equal(&rt, timer.gettime(Reading::at(40)), setting);
    let call = ObjectCall::Trigger {
        generation: 1,
        reading: Reading::at(100),
    };
    let counted = ObjectReply::Trigger(TriggerAnswer::Counted);
    assert_equal(&rt, timer.apply(call), counted);
    assert!(rt; timer.is_pending());
    let start = timer.accept_wants(Reading::at(135));
    assert_equal(&rt, start, wanted(Mode::Keep, 140));
    let accepted = timer.accept(Reading::at(135), Arm::Armed(4));
    assert_equal(&rt, accepted, AcceptAnswer::Accepted { overrun: 3 });
    assert_equal(&rt, timer.getoverrun(), 3);
    posix_timers_are_a_kind();
    few_entries();
    one_more_entry();
}

/// DELAYTIMER_MAX is answered where more periods have passed.
fn the_overrun_stops_at_its_greatest_value()
    ensures { overrun_of (Some 4294967297) ≡ 2147483647 }
{}

/// Only the armed expiry counts, in its time, and a settime clears it.
#[tactic(auto, unfolding(ktime::specs::Times::passed))]
fn stale_expiries_are_not_counted()
    ensures { IsPosixHistory clocks.Monotonic 0 100 stale_and_cleared }
{}
