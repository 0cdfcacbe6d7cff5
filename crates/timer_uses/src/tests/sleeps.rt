//! The callers of `sleeper`, run.
use super::{MONOTONIC, assert_equal, ns};
use crate::{begin_sleep, end_sleep, expire_sleep, wake};
use ktime::{ClockId, Reading};
use sleeper::{InterruptAnswer, SleepAnswer, SleeperState, SleptAnswer, TIMER_ABSTIME};
use std::alloc::AllocError;
use timer_core::{ClaimAnswer, Core};
use timer_queue::ListQueue;

#[test]
fn a_signal_ends_a_sleep(rt: HostRuntime) -> Result<(), AllocError> {
    let mut core = Core::<ListQueue>::make_full(rt.alloc(), 1, &[MONOTONIC], 100)?;
    let mut sleeper = SleeperState::make(ClockId::Monotonic, 0, 100);
    let now = Reading::at(30);
    let begun = begin_sleep(&mut core, &mut sleeper, 0, 0, ns(100), Reading::at(0));
    assert_equal(&rt, begun, SleepAnswer::Asleep);
    let ended = end_sleep(&mut core, &mut sleeper, 0, now);
    assert_equal(&rt, ended, Some(InterruptAnswer::Left { ns: 70 }));
    let until = TIMER_ABSTIME;
    let begun = begin_sleep(&mut core, &mut sleeper, 0, until, ns(30), now);
    assert_equal(&rt, begun, SleepAnswer::Slept);
    let none = core.claim_next(0, Reading::at(200));
    assert_equal(&rt, none, ClaimAnswer::NoneDue);
    Ok(())
}

#[test]
fn a_sleep_lasts_until_its_time(rt: HostRuntime) -> Result<(), AllocError> {
    let mut core = Core::<ListQueue>::make_full(rt.alloc(), 1, &[MONOTONIC], 100)?;
    let mut sleeper = SleeperState::make(ClockId::Monotonic, 0, 100);
    begin_sleep(&mut core, &mut sleeper, 0, 0, ns(10), Reading::at(0));
    let early = expire_sleep(&mut core, &mut sleeper, 0, 0, Reading::at(9));
    assert!(rt; !early);
    let woken = expire_sleep(&mut core, &mut sleeper, 0, 0, Reading::at(10));
    assert!(rt; woken);
    assert_equal(&rt, sleeper.slept(), SleptAnswer::Slept);
    Ok(())
}

#[test]
fn a_sleep_is_not_ended_while_its_function_runs(rt: HostRuntime) -> Result<(), AllocError> {
    let mut core = Core::<ListQueue>::make_full(rt.alloc(), 1, &[MONOTONIC], 100)?;
    let mut sleeper = SleeperState::make(ClockId::Monotonic, 0, 100);
    let now = Reading::at(10);
    begin_sleep(&mut core, &mut sleeper, 0, 0, ns(10), Reading::at(0));
    core.claim_next(0, now);
    assert_equal(&rt, end_sleep(&mut core, &mut sleeper, 0, now), None);
    assert!(rt; wake(&mut sleeper, 1, now));
    let ended = end_sleep(&mut core, &mut sleeper, 0, now);
    assert_equal(&rt, ended, Some(InterruptAnswer::Slept));
    Ok(())
}
