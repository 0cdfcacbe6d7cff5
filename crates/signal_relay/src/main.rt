//! Signals that one thread sends to another, through a queue with room for four.
#![tactic(auto)]

ghost use Rattle.std.specs.Prelude.{◌≡◌};
ghost use Rattle.signal_queue.specs.Views.{IsPassOfQueue};

use pass_names::Retries;
use signal_queue::{Push, Signal, SignalPass, Signals};
use std::alloc::{AllocError, Global};
use std::io;
use std::sync::Wait;
use std::thread::{Threads, join_mut};

/// How many signals are sent.
const COUNT: u64 = 1000;

/// Sends all signals, numbered from 0, each as soon as there is room for it.
fn send<R: Wait>(rt: &R, signals: &Signals, pass: &mut SignalPass)
    requires pass { IsPassOfQueue signals.now pass.old }
    ensures pass { IsPassOfQueue signals.now pass.new }
    ensures id { pass.new.knows.pass.id ≡ pass.old.knows.pass.id }
{
    let mut number = 0u64;
    for _ in Retries::new(rt) {
        if number >= COUNT {
            return;
        }
        if let Push::Queued = signals.push(rt, pass, Signal { timer: 0, number }) {
            number += 1;
        }
    }
}

/// Takes as many signals, and answers how many came in the order in which they were sent.
fn take<R: Wait>(rt: &R, signals: &Signals, pass: &mut SignalPass) -> u64
    requires pass { IsPassOfQueue signals.now pass.old }
    ensures pass { IsPassOfQueue signals.now pass.new }
    ensures id { pass.new.knows.pass.id ≡ pass.old.knows.pass.id }
{
    let mut taken = 0u64;
    let mut in_order = 0u64;
    for _ in Retries::new(rt) {
        if taken >= COUNT {
            return in_order;
        }
        if let Some(signal) = signals.pop(rt, pass) {
            if signal.number == taken {
                in_order = in_order.saturating_add(1);
            }
            taken += 1;
        }
    }
    unreachable!()
}

/// Both at once, each thread with a pass of its own.
fn send_and_take<R: Threads + Wait + Sync>(
    rt: &R,
    signals: &Signals,
    sender: &mut SignalPass,
    taker: &mut SignalPass,
) -> u64
    requires pass { IsPassOfQueue signals.now sender.old × IsPassOfQueue signals.now taker.old }
    ensures pass { IsPassOfQueue signals.now sender.new × IsPassOfQueue signals.now taker.new }
    ensures id { (sender.new.knows.pass.id ≡ sender.old.knows.pass.id) × (taker.new.knows.pass.id ≡ taker.old.knows.pass.id) }
{
    let ((), in_order) = join_mut(
        rt,
        &mut || send(rt, signals, sender),
        &mut || take(rt, signals, taker),
    );
    in_order
}

/// Makes the queue, has both threads at it, and ends it with its last pass.
fn relay<R: Threads + Wait + Sync>(rt: &R, alloc: Global) -> Result<u64, AllocError> {
    let (signals, mut sender) = Signals::make(alloc, 4)?;
    let mut taker = signals.split(&mut sender);
    let in_order = send_and_take(rt, &signals, &mut sender, &mut taker);
    signals.join(&mut sender, taker);
    signals.close(sender);
    Ok(in_order)
}

fn main(rt: HostRuntime) -> io::Result<()> {
    let in_order = relay(&rt, rt.alloc())?;
    println!(rt; "{in_order} signals of {COUNT} came in order")?;
    Ok(())
}
