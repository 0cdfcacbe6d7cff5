//! Tests of `timer_core`: each call on its happy path.
use super::{MONOTONIC, SOFT, assert_equal};
use ktime::{ClockId, Mode, Reading};
use seq_timer::{CancelAnswer, Context};
use std::alloc::AllocError;
use timer_core::{ClaimAnswer, Core, calls_keep_histories_legal, the_wait_is_one};
use timer_queue::ListQueue;

/// What a claim answers, as the entry after the one that armed the timer.
fn claimed(timer: u32, generation: u64, number: u64) -> ClaimAnswer {
    ClaimAnswer::Claimed {
        timer,
        generation,
        number,
    }
}

#[test]
fn each_call_is_answered(rt: HostRuntime) -> Result<(), AllocError> {
    let mut core = Core::<ListQueue>::make_full(rt.alloc(), 1, &[MONOTONIC, SOFT], 100)?;
    let now = Reading::at(0);
    core.start_range(0, Mode::Rel, 0, 20, 0, now);
    assert_equal(&rt, core.state(0).armed(), Some(1));
    let next = core.next(Context::Hard, 0, ClockId::Monotonic);
    assert_equal(&rt, next, Some((20, 0)));
    assert_equal(&rt, core.next_wait(0, Reading::at(5)), Some(15));
    let cancelled = CancelAnswer::Cancelled {
        generation: 1,
        number: 2,
    };
    assert_equal(&rt, core.try_to_cancel(0), cancelled);
    core.start(0, Mode::Rel, 0, 0, now);
    core.start(1, Mode::Rel, 0, 0, now);
    assert_equal(&rt, core.first(Context::Soft, 0, now), Some((0, 1)));
    assert_equal(&rt, core.claim_next_soft(0, now), claimed(1, 1, 2));
    let hard = core.claim_in(Context::Hard, 0, now);
    assert_equal(&rt, hard, claimed(0, 3, 4));
    assert_equal(&rt, core.running(Context::Hard, 0), Some((0, 3)));
    assert!(rt; core.peek(1).running);
    core.agree();
    calls_keep_histories_legal();
    the_wait_is_one();
    Ok(())
}
