//! Two threads: one that waits for the end of a function that runs in the other, and two on one base.
ghost use Rattle.std.specs.Prelude.{◌≡◌, ◌<◌, ◌≤◌, length};
ghost use Rattle.hr_timers.specs.Known.{IsPassOf};
ghost use Rattle.hr_timers.specs.Handlers.{KeepsPass};

use super::{TURNS, assert_equal, retire, some_timers};
use crate::{OneShot, expire_and_stop, start_anew, start_counted, start_once, stop_and_wait};
use hr_timers::{Claim, ExpireAnswer, Handler, Log, Pass, Restart, Timers, expire};
use ktime::Reading;
use seq_timer::CancelAnswer;
use std::sync::Wait;
use std::test::Fail;
use std::thread::{Threads, join_mut};

/// Its function runs until the timer before its own is armed, or gives up.
#[derive(Drop)]
struct Waiting {
    met: bool,
}

impl Handler for Waiting {
    ghost meaning = { record { did = λ o h h' k k' c reading restart. Unit; ready = λ h. 18446744073709551616; timers = λ h. 65536; bases = λ h. 0; counters = λ h. 0 } };

    fn fire<R: Wait>(
        &mut self,
        _rt: &R,
        timers: &Timers,
        pass: &mut Pass,
        claim: &Claim,
        _reading: Reading,
    ) -> Restart {
        self.met = meet(timers, pass, claim.timer().saturating_sub(1));
        Restart::Stop
    }
}

/// Whether a timer is armed before it was looked at too often.
fn meet(timers: &Timers, pass: &mut Pass, timer: u32) -> bool
    requires pass { IsPassOf timers.now pass.old }
    requires timer { timer < length timers.now.about.timers }
    ensures pass { IsPassOf timers.now pass.new }
    ensures keeps { KeepsPass pass.old.known pass.new.known }
{
    for _ in 0..TURNS {
        if timers.peek(pass, timer).enqueued {
            return true;
        }
    }
    false
}

#[test]
fn two_threads_lose_no_entry_of_a_timer(rt: HostRuntime) -> Result<(), Fail> {
    let counts = start_anew(&rt, rt.alloc(), 1000)?;
    assert!(rt; counts.first >= 1000 && counts.second >= 1000);
    assert_equal(&rt, counts.first.wrapping_add(counts.second), counts.stamp);
    Ok(())
}

/// What a thread was told of timer 1 while its function ran in the other one, and whether that was armed when it was stopped.
fn stop_running<R: Wait>(rt: &R, timers: &Timers, pass: &mut Pass) -> Option<(CancelAnswer, bool)>
    requires pass { IsPassOf timers.now pass.old }
    requires size { (length timers.now.about.timers ≡ 2) × (timers.now.about.bases ≡ 1) }
    ensures pass { IsPassOf timers.now pass.new }
    ensures keeps { KeepsPass pass.old.known pass.new.known }
{
    for _ in 0..TURNS {
        if timers.peek(pass, 1).running {
            return Some(stop_now_running(rt, timers, pass));
        }
    }
    None
}

/// Tries to cancel timer 1, lets its function end by a start of timer 0, and waits for that.
fn stop_now_running<R: Wait>(rt: &R, timers: &Timers, pass: &mut Pass) -> (CancelAnswer, bool)
    requires pass { IsPassOf timers.now pass.old }
    requires size { (length timers.now.about.timers ≡ 2) × (timers.now.about.bases ≡ 1) }
    ensures pass { IsPassOf timers.now pass.new }
    ensures keeps { KeepsPass pass.old.known pass.new.known }
{
    let told = timers.try_to_cancel(rt, pass, 1);
    start_once(rt, timers, pass, 0, 1000, 0, Reading::at(0));
    let armed = stop_and_wait(rt, timers, pass, 1);
    (told, armed)
}

/// Runs the function of one due timer.
fn run_one<R: Wait>(
    rt: &R,
    timers: &Timers,
    pass: &mut Pass,
    function: &mut Waiting,
    log: &mut Log,
) -> ExpireAnswer
    requires pass { IsPassOf timers.now pass.old }
    requires size { (length timers.now.about.timers ≡ 2) × (timers.now.about.bases ≡ 1) }
    requires room { 2 ≤ log.old.spare }
    ensures pass { IsPassOf timers.now pass.new }
    ensures keeps { KeepsPass pass.old.known pass.new.known }
{
    expire(rt, timers, pass, 0, Reading::at(0), 1, function, log)
}

/// One thread runs the function of timer 1, the other stops that timer meanwhile.
fn run_and_stop<R: Threads + Wait + Sync>(
    rt: &R,
    timers: &Timers,
    runner: &mut Pass,
    stopper: &mut Pass,
    function: &mut Waiting,
    log: &mut Log,
) -> (ExpireAnswer, Option<(CancelAnswer, bool)>)
    requires pass { IsPassOf timers.now runner.old × IsPassOf timers.now stopper.old }
    requires size { (length timers.now.about.timers ≡ 2) × (timers.now.about.bases ≡ 1) }
    requires room { 2 ≤ log.old.spare }
    ensures pass { IsPassOf timers.now runner.new × IsPassOf timers.now stopper.new }
    ensures keeps { KeepsPass runner.old.known runner.new.known × KeepsPass stopper.old.known stopper.new.known }
{
    join_mut(
        rt,
        &mut || run_one(rt, timers, runner, function, log),
        &mut || stop_running(rt, timers, stopper),
    )
}

#[test]
fn a_stop_waits_for_the_function_in_another_thread(rt: HostRuntime) -> Result<(), Fail> {
    let (timers, mut pass, mut log) = some_timers(rt.alloc(), 1, 2)?;
    start_once(&rt, &timers, &mut pass, 1, 0, 0, Reading::at(0));
    let mut other = timers.split(&mut pass);
    let mut function = Waiting { met: false };
    let (ran, told) = run_and_stop(&rt, &timers, &mut pass, &mut other, &mut function, &mut log);
    retire(&timers, &mut pass, other);
    assert!(rt; function.met);
    assert_equal(&rt, ran, ExpireAnswer::More { fired: 1 });
    let running = CancelAnswer::Running {
        generation: 1,
        stamp: 2,
    };
    assert_equal(&rt, told, Some((running, false)));
    assert_equal(&rt, timers.peek(&mut pass, 1).stamp, 3);
    timers.close(pass);
    Ok(())
}

#[test]
fn a_timer_expires_or_is_stopped_and_not_both(rt: HostRuntime) -> Result<(), Fail> {
    let (timers, mut pass, mut log) = some_timers(rt.alloc(), 1, 1)?;
    start_once(&rt, &timers, &mut pass, 0, 0, 0, Reading::at(0));
    let mut other = timers.split(&mut pass);
    let now = Reading::at(0);
    let (ran, armed) = expire_and_stop(&rt, &timers, &mut pass, &mut other, 0, 0, now, &mut log);
    retire(&timers, &mut pass, other);
    assert_equal(&rt, ran.is_some(), !armed);
    let peek = timers.peek(&mut pass, 0);
    assert!(rt; !peek.enqueued && !peek.running);
    assert_equal(&rt, peek.stamp, if armed { 2 } else { 3 });
    timers.close(pass);
    Ok(())
}

/// Starts a timer on base 0 and runs functions there, five hundred times. It answers how many entries the starts made.
fn turns<R: Wait>(rt: &R, timers: &Timers, pass: &mut Pass, timer: u32, log: &mut Log) -> u64
    requires pass { IsPassOf timers.now pass.old }
    requires timer { timer < length timers.now.about.timers }
    requires size { (length timers.now.about.timers ≡ 2) × (timers.now.about.bases ≡ 1) }
    requires room { 2000 ≤ log.old.spare }
    ensures pass { IsPassOf timers.now pass.new }
    ensures keeps { KeepsPass pass.old.known pass.new.known }
    ensures few { result ≤ 1000 }
{
    let now = Reading::at(0);
    let mut function = OneShot { ran: None };
    let mut made = 0;
    for _ in 0..500u32 {
        made += start_counted(rt, timers, pass, timer, 0, now);
        expire(rt, timers, pass, 0, now, 2, &mut function, log);
    }
    made
}

/// Two threads with a timer each, on one base.
fn turns_of_two<R: Threads + Wait + Sync>(
    rt: &R,
    timers: &Timers,
    first: &mut Pass,
    second: &mut Pass,
    first_log: &mut Log,
    second_log: &mut Log,
) -> (u64, u64)
    requires pass { IsPassOf timers.now first.old × IsPassOf timers.now second.old }
    requires size { (length timers.now.about.timers ≡ 2) × (timers.now.about.bases ≡ 1) }
    requires room { (2000 ≤ first_log.old.spare) × (2000 ≤ second_log.old.spare) }
    ensures pass { IsPassOf timers.now first.new × IsPassOf timers.now second.new }
    ensures keeps { KeepsPass first.old.known first.new.known × KeepsPass second.old.known second.new.known }
    ensures few { (result.0 ≤ 1000) × (result.1 ≤ 1000) }
{
    join_mut(
        rt,
        &mut || turns(rt, timers, first, 0, first_log),
        &mut || turns(rt, timers, second, 1, second_log),
    )
}

#[test]
fn two_threads_on_one_base_lose_no_entry(rt: HostRuntime) -> Result<(), Fail> {
    let mut first_log = Log::make(rt.alloc());
    first_log.reserve(2000)?;
    let mut log = Log::make(rt.alloc());
    log.reserve(2000)?;
    let (timers, mut pass, _log) = some_timers(rt.alloc(), 1, 2)?;
    let mut other = timers.split(&mut pass);
    let (first, second) = turns_of_two(
        &rt,
        &timers,
        &mut pass,
        &mut other,
        &mut first_log,
        &mut log,
    );
    retire(&timers, &mut pass, other);
    let noted = first_log.receipts().len() as u64 + log.receipts().len() as u64;
    let stamps = timers
        .peek(&mut pass, 0)
        .stamp
        .wrapping_add(timers.peek(&mut pass, 1).stamp);
    assert_equal(&rt, stamps, noted.wrapping_add(first + second));
    assert!(rt; noted >= 2);
    timers.close(pass);
    Ok(())
}
