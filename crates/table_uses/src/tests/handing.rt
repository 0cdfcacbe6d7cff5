//! The caller of `handoff`, run.
use super::assert_equal;
use crate::add_to_all;
use std::alloc::{AllocError, Global};
use std::sync::Wait;
use std::test::Fail;
use std::thread::{Threads, map_indices};

/// So many numbers, each given once the one before has come back.
fn give_and_take_back<R: Threads + Wait + Sync>(
    rt: &R,
    alloc: Global,
    many: u32,
) -> Result<usize, AllocError> {
    let mut numbers = Vec::with_capacity(alloc, many as usize)?;
    for number in 0..many {
        numbers.push(number)?;
    }
    let sums = add_to_all(rt, alloc, &numbers, 3)?;
    Ok(sums.len())
}

/// No wake is lost between two threads: else both would sleep for ever, and the test's time would run out.
#[test]
fn two_threads_lose_no_wake(rt: HostRuntime) -> Result<(), Fail> {
    let done = give_and_take_back(&rt, rt.alloc(), 1_000_000)?;
    assert_equal(&rt, done, 1_000_000);
    Ok(())
}

/// The same between the two of each pair, eight of which are at it at once.
#[test]
fn sixteen_threads_lose_no_wake(rt: HostRuntime) -> Result<(), Fail> {
    let counts = map_indices(
        &rt,
        rt.alloc(),
        8,
        &|_| give_and_take_back(&rt, rt.alloc(), 100_000),
    )?;
    for count in &counts {
        assert_equal(&rt, *count, Ok(100_000));
    }
    Ok(())
}
