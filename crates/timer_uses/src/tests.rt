//! The callers, run; and the tests of the crates below, one module each.
ghost use Rattle.std.specs.Prelude.{◌≡◌};

mod of_posix_timer;
mod of_seq_timer;
mod of_sleeper;
mod of_timer_core;
mod of_timer_fd;
mod of_timer_setting;
mod of_timer_tree;
mod sleeps;

use crate::{
    Tick, accept_signal, arm_periodic, descriptor_expired, expire_once, expire_periodic,
    read_count, set_descriptor, signal_expired, start_once,
};
use ktime::{ClockId, Mode, Reading, TimeSpec};
use posix_timer::PosixState;
use seq_timer::{Context, Declared, Placement};
use std::alloc::AllocError;
use std::fmt::Debug;
use std::process::Abort;
use timer_core::Core;
use timer_fd::FdState;
use timer_queue::ListQueue;
use timer_setting::Wanted;

/// Fails the test where these differ, and shows both. This is proved once; an `assert_eq!` is proved in each test that has it.
fn assert_equal<T: PartialEq + Debug + Drop>(rt: &impl Abort, got: T, wanted: T) {
    assert_eq!(rt; got, wanted);
}

/// A timer of the hard context on the monotonic clock.
const MONOTONIC: Declared = Declared {
    clock: ClockId::Monotonic,
    context: Context::Hard,
};

fn ns(nsec: u64) -> TimeSpec
    ensures { result ≡ record { sec = 0; nsec = nsec } }
{
    TimeSpec { sec: 0, nsec }
}

/// The start that a step wants.
fn wanted(mode: Mode, ns: u64) -> Option<Wanted> {
    Some(Wanted { mode, ns })
}

/// A timer of the soft context on the same clock.
const SOFT: Declared = Declared {
    clock: ClockId::Monotonic,
    context: Context::Soft,
};

/// A timer without slack, kept on the monotonic clock of a base.
fn kept(base: u32, expires: u64) -> Placement {
    Placement {
        base,
        clock: ClockId::Monotonic,
        soft: expires,
        expires,
    }
}

#[test]
fn a_timer_expires_once(rt: HostRuntime) -> Result<(), AllocError> {
    let mut core = Core::<ListQueue>::make_full(rt.alloc(), 1, &[MONOTONIC], 100)?;
    let started = start_once(&mut core, 0, 100, 0, Reading::at(5));
    assert_equal(&rt, started, Some(1));
    assert_equal(&rt, expire_once(&mut core, 0, Reading::at(105)), Some(0));
    Ok(())
}

#[test]
fn a_periodic_timer_ticks(rt: HostRuntime) -> Result<(), AllocError> {
    let mut core = Core::<ListQueue>::make_full(rt.alloc(), 1, &[MONOTONIC], 100)?;
    start_once(&mut core, 0, 100, 0, Reading::at(0));
    let late = expire_periodic(&mut core, 0, Reading::at(135), 10);
    assert_equal(&rt, late, Some(Tick { timer: 0, count: 4 }));
    Ok(())
}

#[test]
fn a_posix_timer_counts_its_overrun(rt: HostRuntime) -> Result<(), AllocError> {
    let mut core = Core::<ListQueue>::make_full(rt.alloc(), 1, &[MONOTONIC], 100)?;
    let mut timer = PosixState::make(ClockId::Monotonic, 0, 100);
    arm_periodic(&mut core, &mut timer, 0, ns(100), ns(10), Reading::at(0));
    assert_equal(&rt, expire_once(&mut core, 0, Reading::at(100)), Some(0));
    assert!(rt; signal_expired(&mut timer, 1, Reading::at(100)));
    let overrun = accept_signal(&mut core, &mut timer, 0, Reading::at(135));
    assert_equal(&rt, overrun, Some(3));
    Ok(())
}

#[test]
fn a_descriptor_is_read(rt: HostRuntime) -> Result<(), AllocError> {
    let mut core = Core::<ListQueue>::make_full(rt.alloc(), 1, &[MONOTONIC], 100)?;
    let mut file = FdState::make(ClockId::Monotonic, 0, 100);
    let now = Reading::at(100);
    set_descriptor(&mut core, &mut file, 0, ns(100), ns(10), Reading::at(0));
    assert_equal(&rt, expire_once(&mut core, 0, now), Some(0));
    assert!(rt; descriptor_expired(&mut file, 1, now));
    assert!(rt; file.readable(now));
    let four = read_count(&mut core, &mut file, 0, Reading::at(135));
    assert_equal(&rt, four, Some(4));
    Ok(())
}
