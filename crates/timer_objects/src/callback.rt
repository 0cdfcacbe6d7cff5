//! The callbacks of timers by themselves.
ghost use Rattle.std.specs.Prelude.{◌≤◌, ◌<◌, ◌+◌};
ghost use Rattle.hr_timers.specs.Known.{IsPassOf, OwnsClaim};
ghost use Rattle.hr_timers.specs.Handlers.{KeepsPass};
ghost use Rattle.timer_objects.specs.Callbacks.{RunsCallback, RunsCancel, RunsForward, RunsStart, bases_for};

use hr_timers::{Claim, Log, Pass, Restart, StartAnswer, Timers};
use ktime::{Mode, Reading};
use seq_timer::{Asked, CancelAnswer, Event, ForwardAnswer, Observation};
use std::sync::Wait;

/// What the function of a timer by itself does.
#[derive(Clone, Copy, Debug, PartialEq, Eq)]
pub enum Callback {
    /// Nothing. The timer expires once.
    Once,
    /// It moves the timer's expiry past the reading by whole intervals of so many nanoseconds, and asks for a restart.
    Every(u64),
    /// It tries to cancel its own timer, which can't be while the function runs.
    Cancels,
    /// It starts its own timer, to expire so many nanoseconds after the reading, and asks for that base. It asks for a restart too.
    Starts(u64, u32),
}

/// Runs the callback of a claim.
pub(crate) fn run<R: Wait>(
    rt: &R,
    timers: &Timers,
    pass: &mut Pass,
    log: &mut Log,
    callback: Callback,
    claim: &Claim,
    reading: Reading,
) -> Restart
    requires pass { IsPassOf timers.now pass.old }
    requires claim { OwnsClaim timers.now.about pass.old.known claim.now }
    requires bases { bases_for callback ≤ timers.now.about.bases }
    requires room { 0 < log.old.spare }
    ensures pass { IsPassOf timers.now pass.new }
    ensures keeps { KeepsPass pass.old.known pass.new.known }
    ensures runs { RunsCallback timers.now.about pass.old.known pass.new.known claim.now reading log.old.receipts log.new.receipts callback result }
    ensures spare { log.old.spare ≤ log.new.spare + 1 }
{
    match callback {
        Callback::Once => Restart::Stop,
        Callback::Every(interval) => {
            forward(rt, timers, pass, log, interval, claim, reading);
            Restart::Again
        }
        Callback::Cancels => {
            cancel(rt, timers, pass, log, claim);
            Restart::Stop
        }
        Callback::Starts(ns, base) => {
            start(rt, timers, pass, log, ns, base, claim, reading);
            Restart::Again
        }
    }
}

/// Forwards the timer of a claim, or notes the look in place of an entry.
fn forward<R: Wait>(
    rt: &R,
    timers: &Timers,
    pass: &mut Pass,
    log: &mut Log,
    interval: u64,
    claim: &Claim,
    reading: Reading,
)
    requires pass { IsPassOf timers.now pass.old }
    requires claim { OwnsClaim timers.now.about pass.old.known claim.now }
    requires room { 0 < log.old.spare }
    ensures pass { IsPassOf timers.now pass.new }
    ensures keeps { KeepsPass pass.old.known pass.new.known }
    ensures runs { RunsForward timers.now.about pass.old.known pass.new.known claim.now reading log.old.receipts log.new.receipts interval }
    ensures spare { log.old.spare ≤ log.new.spare + 1 }
{
    let timer = claim.timer();
    let event = Event::Forward { reading, interval };
    match timers.forward_logged(rt, pass, log, claim, reading, interval) {
        ForwardAnswer::Forwarded { .. } => {}
        ForwardAnswer::Spent { stamp } => log.note_look(timer, stamp, event, Observation::Spent),
        ForwardAnswer::Armed { generation, stamp } => {
            log.note_look(timer, stamp, event, Observation::Armed { generation });
        }
    }
}

/// Tries to cancel the timer of a claim. Its function is running, so it is seen to run.
fn cancel<R: Wait>(rt: &R, timers: &Timers, pass: &mut Pass, log: &mut Log, claim: &Claim)
    requires pass { IsPassOf timers.now pass.old }
    requires claim { OwnsClaim timers.now.about pass.old.known claim.now }
    requires room { 0 < log.old.spare }
    ensures pass { IsPassOf timers.now pass.new }
    ensures keeps { KeepsPass pass.old.known pass.new.known }
    ensures runs { RunsCancel timers.now.about pass.old.known pass.new.known claim.now log.old.receipts log.new.receipts }
    ensures spare { log.old.spare ≤ log.new.spare + 1 }
{
    let timer = claim.timer();
    let CancelAnswer::Running { generation, stamp } = timers.try_to_cancel(rt, pass, timer) else {
        unreachable!()
    };
    let seen = Observation::Running { generation };
    log.note_look(timer, stamp, Event::Cancel, seen);
}

/// Starts the timer of a claim, or notes the look in place of an entry. Its function is running, so it keeps its base.
fn start<R: Wait>(
    rt: &R,
    timers: &Timers,
    pass: &mut Pass,
    log: &mut Log,
    ns: u64,
    base: u32,
    claim: &Claim,
    reading: Reading,
)
    requires pass { IsPassOf timers.now pass.old }
    requires claim { OwnsClaim timers.now.about pass.old.known claim.now }
    requires base { base < timers.now.about.bases }
    requires room { 0 < log.old.spare }
    ensures pass { IsPassOf timers.now pass.new }
    ensures keeps { KeepsPass pass.old.known pass.new.known }
    ensures runs { RunsStart timers.now.about pass.old.known pass.new.known claim.now reading log.old.receipts log.new.receipts ns base }
    ensures spare { log.old.spare ≤ log.new.spare + 1 }
{
    let timer = claim.timer();
    let asked = Asked {
        mode: Mode::Rel,
        ns,
        slack: 0,
        reading,
        base,
    };
    if let StartAnswer::Spent { stamp } = timers.start_logged(rt, pass, log, timer, &asked) {
        log.note_look(timer, stamp, Event::Start(asked), Observation::Spent);
    }
}
