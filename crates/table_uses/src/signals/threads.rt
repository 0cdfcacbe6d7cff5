//! Two threads: one sends, the other takes.
ghost use Rattle.std.specs.Prelude.{◌≡◌, ◌<◌};
ghost use Rattle.signal_queue.specs.Views.{IsPassOfQueue};

use crate::signals::draining::send;
use pass_names::Retries;
use signal_queue::{Signal, SignalPass, Signals};
use std::alloc::{AllocError, Global};
use std::sync::Wait;
use std::thread::{Threads, join_mut};

/// Sends so many signals of a timer, numbered from 0, each once there is room for it.
pub(crate) fn send_all<R: Wait>(
    rt: &R,
    signals: &Signals,
    pass: &mut SignalPass,
    timer: u32,
    count: u64,
)
    requires pass { IsPassOfQueue signals.now pass.old }
    ensures pass { IsPassOfQueue signals.now pass.new }
    ensures id { pass.new.knows.pass.id ≡ pass.old.knows.pass.id }
{
    for number in 0..count {
        send(rt, signals, pass, Signal { timer, number });
    }
}

/// Takes the next signal, once one waits.
fn take<R: Wait>(rt: &R, signals: &Signals, pass: &mut SignalPass) -> Signal
    requires pass { IsPassOfQueue signals.now pass.old }
    ensures pass { IsPassOfQueue signals.now pass.new }
    ensures id { pass.new.knows.pass.id ≡ pass.old.knows.pass.id }
{
    for _ in Retries::new(rt) {
        if let Some(signal) = signals.pop(rt, pass) {
            return signal;
        }
    }
    unreachable!()
}

/// Takes so many signals, and answers how many of them came in the order of their numbers, from 0.
fn take_all<R: Wait>(rt: &R, signals: &Signals, pass: &mut SignalPass, count: u64) -> u64
    requires pass { IsPassOfQueue signals.now pass.old }
    ensures pass { IsPassOfQueue signals.now pass.new }
    ensures id { pass.new.knows.pass.id ≡ pass.old.knows.pass.id }
{
    let mut in_order = 0u64;
    for number in 0..count {
        if take(rt, signals, pass).number == number {
            in_order = in_order.saturating_add(1);
        }
    }
    in_order
}

/// Two threads with a pass each: one sends, the other takes.
fn send_and_take<R: Threads + Wait + Sync>(
    rt: &R,
    signals: &Signals,
    sender: &mut SignalPass,
    taker: &mut SignalPass,
    count: u64,
) -> u64
    requires pass { IsPassOfQueue signals.now sender.old × IsPassOfQueue signals.now taker.old }
    ensures pass { IsPassOfQueue signals.now sender.new × IsPassOfQueue signals.now taker.new }
    ensures id { (sender.new.knows.pass.id ≡ sender.old.knows.pass.id) × (taker.new.knows.pass.id ≡ taker.old.knows.pass.id) }
{
    let (_, in_order) = join_mut(
        rt,
        &mut || send_all(rt, signals, sender, 0, count),
        &mut || take_all(rt, signals, taker, count),
    );
    in_order
}

/// Hands so many signals from one thread to another through a queue with this much room. It answers how many came in order.
pub fn hand_over<R: Threads + Wait + Sync>(
    rt: &R,
    alloc: Global,
    room: usize,
    count: u64,
) -> Result<u64, AllocError>
    requires { 0 < room }
{
    let (signals, mut sender) = Signals::make(alloc, room)?;
    let mut taker = signals.split(&mut sender);
    let in_order = send_and_take(rt, &signals, &mut sender, &mut taker, count);
    signals.join(&mut sender, taker);
    signals.close(sender);
    Ok(in_order)
}

/// Sends a signal and takes one, not always its own, so many times. It answers the sum of the numbers that it took.
fn trade_all<R: Wait>(
    rt: &R,
    signals: &Signals,
    pass: &mut SignalPass,
    timer: u32,
    count: u64,
) -> u64
    requires pass { IsPassOfQueue signals.now pass.old }
    ensures pass { IsPassOfQueue signals.now pass.new }
    ensures id { pass.new.knows.pass.id ≡ pass.old.knows.pass.id }
{
    let mut sum = 0u64;
    for number in 0..count {
        send(rt, signals, pass, Signal { timer, number });
        sum = sum.saturating_add(take(rt, signals, pass).number);
    }
    sum
}

/// Two threads that both send and take, each with a pass.
fn trade_both<R: Threads + Wait + Sync>(
    rt: &R,
    signals: &Signals,
    first: &mut SignalPass,
    second: &mut SignalPass,
    count: u64,
) -> (u64, u64)
    requires pass { IsPassOfQueue signals.now first.old × IsPassOfQueue signals.now second.old }
    ensures pass { IsPassOfQueue signals.now first.new × IsPassOfQueue signals.now second.new }
    ensures id { (first.new.knows.pass.id ≡ first.old.knows.pass.id) × (second.new.knows.pass.id ≡ second.old.knows.pass.id) }
{
    join_mut(
        rt,
        &mut || trade_all(rt, signals, first, 0, count),
        &mut || trade_all(rt, signals, second, 1, count),
    )
}

/// Two threads send so many signals each, numbered from 0, and take as many: both want both ends. It answers the sum of the numbers that were taken.
pub fn trade<R: Threads + Wait + Sync>(
    rt: &R,
    alloc: Global,
    room: usize,
    count: u64,
) -> Result<u64, AllocError>
    requires { 1 < room }
{
    let (signals, mut first) = Signals::make(alloc, room)?;
    let mut second = signals.split(&mut first);
    let (a, b) = trade_both(rt, &signals, &mut first, &mut second, count);
    signals.join(&mut first, second);
    signals.close(first);
    Ok(a.saturating_add(b))
}
