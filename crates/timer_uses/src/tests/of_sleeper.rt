//! Tests of `sleeper`: a sleeper's calls, and a history of sleeps that each end in another way.
ghost use Rattle.ktime.specs.declared.clock_id.ClockId.TheVariants as clocks;
ghost use Rattle.sleeper.specs.Histories.{IsSleeperHistory};
ghost use Rattle.timer_uses.specs.Sleeps.{sleeps};

use super::assert_equal;
use ktime::{ClockId, Reading};
use sleeper::{
    Arm, InterruptAnswer, ObjectCall, ObjectReply, Phase, SleepAnswer, SleepCall, SleeperState,
    TriggerAnswer, few_entries, no_sleep_ends_early, one_end_of_each_sleep, one_more_entry,
};

#[test]
fn a_relative_sleep_on_the_real_clock_is_kept_on_the_monotonic_one(rt: HostRuntime) {
    let mut sleeper = SleeperState::make(ClockId::Realtime, 0, 100);
    let reading = Reading {
        stamp: 2,
        mono: 5,
        real: 1000,
        boot: 5,
        changes: 1,
    };
    let sleep = ObjectCall::Sleep(SleepCall {
        flags: 0,
        time: 10,
        reading,
        arm: Arm::Armed(1),
    });
    let asleep = ObjectReply::Sleep(SleepAnswer::Asleep);
    assert_equal(&rt, sleeper.apply(sleep), asleep);
    let phase = Phase::Armed {
        generation: 1,
        clock: ClockId::Monotonic,
        expires: 15,
    };
    assert_equal(&rt, sleeper.timer().phase, phase);
    let woken = sleeper.trigger(1, Reading::at(15));
    assert_equal(&rt, woken, TriggerAnswer::Counted);
    let ended = sleeper.interrupt(Reading::at(15));
    assert_equal(&rt, ended, InterruptAnswer::Slept);
}

/// A sleeper may sleep so, one sleep behind the other.
fn each_sleep_ends_once()
    ensures { IsSleeperHistory clocks.Monotonic 0 100 sleeps }
{}

#[test]
fn the_laws_can_be_cited() {
    few_entries();
    one_more_entry();
    one_end_of_each_sleep();
    no_sleep_ends_early();
    each_sleep_ends_once();
}
