//! Callers of `ordered_clock`, and of the counters under it: each call on its happy path, and two threads that write.
ghost use Rattle.std.specs.Prelude.{◌≡◌, ◌+◌, ◌<◌, ◌≤◌, ◌^◌, IfOk, length, []};
ghost use Rattle.clock_cell.specs.Views.{IsPassOfClock};
ghost use Rattle.hr_timers.specs.Known.{IsPassOf};
ghost use Rattle.ordered_clock.specs.Moments.{clock_counter};
ghost use Rattle.pass_names.specs.Names.{IsLast, first_pass_id};

use super::of_hr_timers::{claim, finish};
use super::{HARD, assert_equal};
use crate::start_after;
use base_row::Unlogged;
use clock_cell::{ClockPass, SharedClock};
use hr_timers::{Pass, StartAnswer, Timers};
use ktime::{Mode, Reading, Write};
use ordered_clock::{read, settle, write};
use seq_timer::{CancelAnswer, Terms};
use std::alloc::{AllocError, Global};
use std::sync::Wait;
use std::test::Fail;
use std::thread::{Threads, join_mut};

/// How often each thread writes.
const TIMES: u32 = 10_000;

/// One timer on one base, with two counters.
fn counting_timers(alloc: Global) -> Result<(Timers, Pass), AllocError>
    ensures pass { IfOk result (λ r. IsPassOf r.0 r.1 × IsLast r.1.known.id × (r.1.known.claims ≡ [])) }
    ensures size { IfOk result (λ r. (length r.0.about.timers ≡ 1) × (r.0.about.bases ≡ 1) × (r.0.about.counters ≡ 2)) }
{
    let timers = vec![in alloc; HARD; 1]?;
    Timers::make_counting(alloc, 1, &timers, Terms::limited(100), 2)
}

/// The same with a clock.
fn timers_and_clock(alloc: Global) -> Result<(Timers, Pass, SharedClock, ClockPass), AllocError>
    ensures pass { IfOk result (λ r. IsPassOf r.0 r.1 × IsLast r.1.known.id × (r.1.known.claims ≡ [])) }
    ensures size { IfOk result (λ r. (length r.0.about.timers ≡ 1) × (r.0.about.bases ≡ 1) × (r.0.about.counters ≡ 2)) }
    ensures clock { IfOk result (λ r. IsPassOfClock r.2 r.3 × (r.3.knows.pass.id ≡ first_pass_id)) }
{
    let (clock, clock_pass) = SharedClock::make(alloc)?;
    match counting_timers(alloc) {
        Ok((timers, pass)) => Ok((timers, pass, clock, clock_pass)),
        Err(fault) => {
            clock.close(clock_pass);
            Err(fault)
        }
    }
}

/// Tries to cancel the timer behind a rise of counter 1.
fn cancel_behind<R: Wait>(
    rt: &R,
    timers: &Timers,
    pass: &mut Pass,
    from: u64,
) -> Option<CancelAnswer>
    requires pass { IsPassOf timers.now pass.old }
    requires size { (length timers.now.about.timers ≡ 1) × (timers.now.about.counters ≡ 2) }
    requires small { from + 1 < 2 ^ 64 }
    ensures pass { IsPassOf timers.now pass.new }
    ensures id { pass.new.known.id ≡ pass.old.known.id }
    ensures claims { pass.new.known.claims ≡ pass.old.known.claims }
{
    let answer = timers.try_to_cancel_behind(rt, pass, &mut Unlogged, 0, 1, from)?;
    match answer {
        CancelAnswer::Idle { stamp } => Some(CancelAnswer::Idle { stamp }),
        CancelAnswer::Cancelled { generation, number } => {
            Some(CancelAnswer::Cancelled { generation, number })
        }
        CancelAnswer::Running { generation, stamp } => {
            Some(CancelAnswer::Running { generation, stamp })
        }
    }
}

/// Writes the clock so often, with a reading after each write, and answers how often a reading was older than the one before.
fn write_often<R: Wait>(
    rt: &R,
    timers: &Timers,
    pass: &mut Pass,
    clock: &SharedClock,
    clock_pass: &mut ClockPass,
    times: u32,
) -> u32
    requires pass { IsPassOf timers.now pass.old }
    requires counter { clock_counter < timers.now.about.counters }
    requires clock { IsPassOfClock clock.now clock_pass.old }
    ensures pass { IsPassOf timers.now pass.new }
    ensures keeps { (pass.new.known.id ≡ pass.old.known.id) × (pass.new.known.claims ≡ pass.old.known.claims) }
    ensures clock { IsPassOfClock clock.now clock_pass.new }
    ensures id { clock_pass.new.knows.pass.id ≡ clock_pass.old.knows.pass.id }
{
    let mut older = 0u32;
    let mut last = 0;
    for _ in 0..times {
        let _ = write(
            rt,
            timers,
            pass,
            clock,
            clock_pass,
            Write::Advance { by: 1 },
        );
        let now = read(rt, timers, pass, clock, clock_pass);
        if now.stamp < last {
            older = older.saturating_add(1);
        }
        last = now.stamp;
    }
    older
}

/// Two threads, each with passes of its own, write and read the clock.
fn write_by_two<R: Threads + Wait + Sync>(
    rt: &R,
    timers: &Timers,
    pass: &mut Pass,
    other: &mut Pass,
    clock: &SharedClock,
    clock_pass: &mut ClockPass,
    other_clock: &mut ClockPass,
) -> (u32, u32)
    requires counter { clock_counter < timers.now.about.counters }
    requires pass { IsPassOf timers.now pass.old × IsPassOf timers.now other.old }
    requires clock { IsPassOfClock clock.now clock_pass.old × IsPassOfClock clock.now other_clock.old }
    ensures pass { IsPassOf timers.now pass.new × IsPassOf timers.now other.new }
    ensures clock { IsPassOfClock clock.now clock_pass.new × IsPassOfClock clock.now other_clock.new }
    ensures names { (pass.new.known.id ≡ pass.old.known.id) × (other.new.known.id ≡ other.old.known.id) }
    ensures claims { (pass.new.known.claims ≡ pass.old.known.claims) × (other.new.known.claims ≡ other.old.known.claims) }
    ensures ids { (clock_pass.new.knows.pass.id ≡ clock_pass.old.knows.pass.id) × (other_clock.new.knows.pass.id ≡ other_clock.old.knows.pass.id) }
{
    join_mut(
        rt,
        &mut || write_often(rt, timers, pass, clock, clock_pass, TIMES),
        &mut || write_often(rt, timers, other, clock, other_clock, TIMES),
    )
}

#[test]
fn two_threads_write_and_read_the_clock_in_one_order(rt: HostRuntime) -> Result<(), Fail> {
    let (timers, mut pass, clock, mut clock_pass) = timers_and_clock(rt.alloc())?;
    let mut other = timers.split(&mut pass);
    let mut other_clock = clock.split(&mut clock_pass);
    let older = write_by_two(
        &rt,
        &timers,
        &mut pass,
        &mut other,
        &clock,
        &mut clock_pass,
        &mut other_clock,
    );
    timers.retire(&mut pass, other);
    clock.join(&mut clock_pass, other_clock);
    let end = settle(&rt, &timers, &mut pass, &clock, &mut clock_pass);
    let told = timers.counter(&mut pass, 0);
    timers.close(pass);
    clock.close(clock_pass);
    assert_equal(&rt, older, (0, 0));
    assert_equal(&rt, (end.stamp, end.mono, told), (20_000, 20_000, 20_000));
    Ok(())
}

#[test]
fn a_start_is_by_a_reading_with_its_place(rt: HostRuntime) -> Result<(), Fail> {
    let (timers, mut pass, clock, mut clock_pass) = timers_and_clock(rt.alloc())?;
    let by = Write::Advance { by: 30 };
    let written = write(&rt, &timers, &mut pass, &clock, &mut clock_pass, by);
    let started = start_after(&rt, &timers, &mut pass, &clock, &mut clock_pass, 0, 12, 0);
    timers.close(pass);
    clock.close(clock_pass);
    assert_equal(&rt, written.map(|r| r.stamp), Ok(1));
    let expires = match started {
        StartAnswer::Started { placement, .. } => placement.expires,
        StartAnswer::Spent { .. } => 0,
    };
    assert_equal(&rt, expires, 42);
    Ok(())
}

#[test]
fn a_counter_rises_before_a_cancel(rt: HostRuntime) -> Result<(), Fail> {
    let (timers, mut pass) = counting_timers(rt.alloc())?;
    timers.start(&rt, &mut pass, 0, Mode::Rel, 7, 0, Reading::at(0));
    timers.raise_counter(&mut pass, 0, 0, 5);
    let hit = timers.step_counter(&mut pass, 1, 0);
    let cancelled = cancel_behind(&rt, &timers, &mut pass, 1);
    let counts = (timers.counter(&mut pass, 0), timers.counter(&mut pass, 1));
    timers.close(pass);
    let entry = CancelAnswer::Cancelled {
        generation: 1,
        number: 2,
    };
    assert_equal(&rt, hit, true);
    assert_equal(&rt, cancelled, Some(entry));
    assert_equal(&rt, counts, (5, 2));
    Ok(())
}

/// A cancel that finds the timer's function running raises no counter: one by which turns are told would say for ever that a turn goes on.
#[test]
fn a_cancel_of_a_running_timer_raises_no_counter(rt: HostRuntime) -> Result<(), Fail> {
    let (timers, mut pass) = counting_timers(rt.alloc())?;
    timers.start(&rt, &mut pass, 0, Mode::Rel, 7, 0, Reading::at(0));
    let Some(claim) = claim(&rt, &timers, &mut pass, 0, Reading::at(7)) else {
        assert!(rt; false);
        timers.close(pass);
        return Ok(());
    };
    let told = cancel_behind(&rt, &timers, &mut pass, 0);
    let count = timers.counter(&mut pass, 1);
    finish(&rt, &timers, &mut pass, claim, false);
    timers.close(pass);
    let running = CancelAnswer::Running {
        generation: 1,
        stamp: 2,
    };
    assert_equal(&rt, told, Some(running));
    assert_equal(&rt, count, 0);
    Ok(())
}
