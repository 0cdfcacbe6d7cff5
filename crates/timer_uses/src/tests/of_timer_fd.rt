//! Tests of `timer_fd`: a descriptor's calls, and a worked history.
ghost use Rattle.ktime.specs.declared.clock_id.ClockId.TheVariants as clocks;
ghost use Rattle.timer_fd.specs.Histories.{IsFdHistory};
ghost use Rattle.timer_uses.specs.FdEntries.{stale_and_counted};

use super::{assert_equal, ns, wanted};
use ktime::{ClockId, Mode, Reading};
use timer_fd::{
    Arm, FdState, GettimeAnswer, ObjectCall, ObjectReply, ReadAnswer, TriggerAnswer,
    descriptors_are_a_kind, few_entries, one_more_entry,
};

#[test]
fn periods_that_passed_are_counted_and_read_once(rt: HostRuntime) {
    let mut descriptor = FdState::make(ClockId::Monotonic, 0, 100);
    descriptor.settime(1, ns(100), ns(10), Reading::at(0), Arm::Armed(1));
    let expired = descriptor.trigger(1, Reading::at(100));
    assert_equal(&rt, expired, TriggerAnswer::Counted);
    let now = Reading::at(125);
    let start = descriptor.gettime_wants(now);
    assert_equal(&rt, start, wanted(Mode::Keep, 130));
    let left = GettimeAnswer::Left {
        left: 5,
        interval: 10,
    };
    assert_equal(&rt, descriptor.gettime(now, Arm::Armed(4)), left);
    assert_equal(&rt, descriptor.count(), 3);
    let three = descriptor.read(8, now, Arm::NotAsked);
    assert_equal(&rt, three, ReadAnswer::Count { total: 3 });
    assert_equal(&rt, three.bytes(), Some([3, 0, 0, 0, 0, 0, 0, 0]));
    let call = ObjectCall::Read {
        reading: now,
        arm: Arm::NotAsked,
    };
    let again = ObjectReply::Read(ReadAnswer::Again);
    assert_equal(&rt, descriptor.apply(call), again);
    descriptors_are_a_kind();
    few_entries();
    one_more_entry();
}

/// Only the armed expiry counts, in its time, and what was counted is read.
#[tactic(auto, unfolding(ktime::specs::Times::passed))]
fn stale_expiries_are_not_counted()
    ensures { IsFdHistory clocks.Boottime 0 100 stale_and_counted }
{}
