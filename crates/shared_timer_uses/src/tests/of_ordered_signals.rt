//! Callers of `ordered_signals`: a push and a pop of each outcome, and two threads that hand signals over, whose counts come out.
ghost use Rattle.std.specs.Prelude.{◌≡◌, IfOk, [], length};
ghost use Rattle.hr_timers.specs.Known.{IsPassOf};
ghost use Rattle.ordered_signals.specs.Places.{HasSignalRing};
ghost use Rattle.pass_names.specs.Names.{IsLast};
ghost use Rattle.signal_queue.specs.Views.{IsPassOfQueue};

use super::{HARD, assert_equal};
use hr_timers::{Pass, Timers};
use ordered_signals::{
    a_pop_stands_behind_its_push, a_push_stands_where_there_is_room, look, pop, push,
};
use pass_names::Retries;
use seq_timer::Terms;
use signal_queue::{Push, Signal, SignalPass, Signals};
use std::alloc::{AllocError, Global};
use std::sync::Wait;
use std::test::Fail;
use std::thread::{Threads, join_mut};

/// How many signals a thread hands over.
const TIMES: u64 = 200;

/// One timer on one base, and a ring with room for two.
fn ringed_timers(alloc: Global) -> Result<(Timers, Pass), AllocError>
    ensures pass { IfOk result (λ r. IsPassOf r.0 r.1 × IsLast r.1.known.id × (r.1.known.claims ≡ [])) }
    ensures ring { IfOk result (λ r. HasSignalRing r.0.about.rings 2) }
{
    let timers = vec![in alloc; HARD; 1]?;
    let rings = vec![in alloc; 2u64; 1]?;
    Timers::make_ringed(alloc, 1, &timers, Terms::limited(100), 0, &rings)
}

fn signal(number: u64) -> Signal {
    Signal { timer: 0, number }
}

/// A queue for two is full with two and empty with none, in the order in which signals came.
#[test]
fn signals_are_pushed_and_popped_in_their_places(rt: HostRuntime) -> Result<(), Fail> {
    let (signals, mut queue) = Signals::make(rt.alloc(), 2)?;
    let Ok((timers, mut pass)) = ringed_timers(rt.alloc()) else {
        signals.close(queue);
        return Err(AllocError)?;
    };
    let none = pop(&rt, &timers, &mut pass, &signals, &mut queue);
    let first = push(&rt, &timers, &mut pass, &signals, &mut queue, signal(1));
    let second = push(&rt, &timers, &mut pass, &signals, &mut queue, signal(2));
    let third = push(&rt, &timers, &mut pass, &signals, &mut queue, signal(3));
    let oldest = pop(&rt, &timers, &mut pass, &signals, &mut queue);
    let counts = (
        timers.put_count(&mut pass, 0),
        timers.taken_count(&mut pass, 0),
    );
    signals.close(queue);
    timers.close(pass);
    assert_equal(&rt, none, None);
    assert_equal(&rt, (first, second), (Push::Queued, Push::Queued));
    assert_equal(&rt, third, Push::Full { room: 2 });
    assert_equal(&rt, oldest, Some(signal(1)));
    assert_equal(&rt, counts, (2, 1));
    a_pop_stands_behind_its_push();
    a_push_stands_where_there_is_room();
    Ok(())
}

/// A pass looks that made neither the push nor the pop; then it pops what was pushed since.
#[test]
fn a_look_sees_a_push_and_a_pop_of_another_pass(rt: HostRuntime) -> Result<(), Fail> {
    let (signals, mut queue) = Signals::make(rt.alloc(), 2)?;
    let Ok((timers, mut pass)) = ringed_timers(rt.alloc()) else {
        signals.close(queue);
        return Err(AllocError)?;
    };
    let mut other = signals.split(&mut queue);
    push(&rt, &timers, &mut pass, &signals, &mut queue, signal(1));
    pop(&rt, &timers, &mut pass, &signals, &mut queue);
    look(&rt, &timers, &mut pass, &signals, &mut other);
    let counts = (
        timers.put_count(&mut pass, 0),
        timers.taken_count(&mut pass, 0),
    );
    push(&rt, &timers, &mut pass, &signals, &mut queue, signal(2));
    let next = pop(&rt, &timers, &mut pass, &signals, &mut other);
    signals.join(&mut queue, other);
    signals.close(queue);
    timers.close(pass);
    assert_equal(&rt, counts, (1, 1));
    assert_equal(&rt, next, Some(signal(2)));
    Ok(())
}

/// Sends all signals, each once there is room for it.
fn send<R: Wait>(
    rt: &R,
    timers: &Timers,
    pass: &mut Pass,
    signals: &Signals,
    queue: &mut SignalPass,
)
    requires pass { IsPassOf timers.now pass.old }
    requires ring { HasSignalRing timers.now.about.rings signals.now.room }
    requires queue { IsPassOfQueue signals.now queue.old }
    ensures pass { IsPassOf timers.now pass.new }
    ensures id { pass.new.known.id ≡ pass.old.known.id }
    ensures unclaimed { pass.new.known.claims ≡ pass.old.known.claims }
    ensures queue { IsPassOfQueue signals.now queue.new }
    ensures queue_id { queue.new.knows.pass.id ≡ queue.old.knows.pass.id }
{
    let mut number = 0u64;
    for _ in Retries::new(rt) {
        if number >= TIMES {
            return;
        }
        if let Push::Queued = push(rt, timers, pass, signals, queue, signal(number)) {
            number += 1;
        }
    }
}

/// Takes as many, and answers how many came in order.
fn take<R: Wait>(
    rt: &R,
    timers: &Timers,
    pass: &mut Pass,
    signals: &Signals,
    queue: &mut SignalPass,
) -> u64
    requires pass { IsPassOf timers.now pass.old }
    requires ring { HasSignalRing timers.now.about.rings signals.now.room }
    requires queue { IsPassOfQueue signals.now queue.old }
    ensures pass { IsPassOf timers.now pass.new }
    ensures id { pass.new.known.id ≡ pass.old.known.id }
    ensures unclaimed { pass.new.known.claims ≡ pass.old.known.claims }
    ensures queue { IsPassOfQueue signals.now queue.new }
    ensures queue_id { queue.new.knows.pass.id ≡ queue.old.knows.pass.id }
{
    let mut taken = 0u64;
    let mut in_order = 0u64;
    for _ in Retries::new(rt) {
        if taken >= TIMES {
            return in_order;
        }
        if let Some(signal) = pop(rt, timers, pass, signals, queue) {
            if signal.number == taken {
                in_order = in_order.saturating_add(1);
            }
            taken += 1;
        }
    }
    unreachable!()
}

/// Both at once, on a thread each: how many came in order.
fn send_and_take<R: Threads + Wait + Sync>(
    rt: &R,
    timers: &Timers,
    sender: &mut Pass,
    taker: &mut Pass,
    signals: &Signals,
    sends: &mut SignalPass,
    takes: &mut SignalPass,
) -> u64
    requires pass { IsPassOf timers.now sender.old × IsPassOf timers.now taker.old }
    requires ring { HasSignalRing timers.now.about.rings signals.now.room }
    requires queue { IsPassOfQueue signals.now sends.old × IsPassOfQueue signals.now takes.old }
    ensures pass { IsPassOf timers.now sender.new × IsPassOf timers.now taker.new }
    ensures id { (sender.new.known.id ≡ sender.old.known.id) × (taker.new.known.id ≡ taker.old.known.id) }
    ensures unclaimed { (sender.new.known.claims ≡ sender.old.known.claims) × (taker.new.known.claims ≡ taker.old.known.claims) }
    ensures queue { IsPassOfQueue signals.now sends.new × IsPassOfQueue signals.now takes.new }
    ensures queue_id { (sends.new.knows.pass.id ≡ sends.old.knows.pass.id) × (takes.new.knows.pass.id ≡ takes.old.knows.pass.id) }
{
    let ((), in_order) = join_mut(
        rt,
        &mut || send(rt, timers, sender, signals, sends),
        &mut || take(rt, timers, taker, signals, takes),
    );
    in_order
}

/// The same with passes that are split off, and taken in again; and how far the ring's counts have come.
fn hand_over<R: Threads + Wait + Sync>(
    rt: &R,
    timers: &Timers,
    pass: &mut Pass,
    signals: &Signals,
    queue: &mut SignalPass,
) -> (u64, u64, u64)
    requires pass { IsPassOf timers.now pass.old × IsLast pass.old.known.id }
    requires ring { HasSignalRing timers.now.about.rings signals.now.room }
    requires unclaimed { pass.old.known.claims ≡ [] }
    requires queue { IsPassOfQueue signals.now queue.old × IsLast queue.old.knows.pass.id }
    ensures pass { IsPassOf timers.now pass.new × IsLast pass.new.known.id }
    ensures unclaimed { pass.new.known.claims ≡ [] }
    ensures queue { IsPassOfQueue signals.now queue.new × IsLast queue.new.knows.pass.id }
{
    let mut other = timers.split(pass);
    let mut other_queue = signals.split(queue);
    let in_order = send_and_take(
        rt,
        timers,
        pass,
        &mut other,
        signals,
        queue,
        &mut other_queue,
    );
    timers.retire(pass, other);
    signals.join(queue, other_queue);
    let put = timers.put_count(pass, 0);
    let taken = timers.taken_count(pass, 0);
    (in_order, put, taken)
}

/// Each push and each pop of two threads is counted once.
#[test]
fn two_threads_hand_signals_over(rt: HostRuntime) -> Result<(), Fail> {
    let (signals, mut queue) = Signals::make(rt.alloc(), 2)?;
    let Ok((timers, mut pass)) = ringed_timers(rt.alloc()) else {
        signals.close(queue);
        return Err(AllocError)?;
    };
    let told = hand_over(&rt, &timers, &mut pass, &signals, &mut queue);
    signals.close(queue);
    timers.close(pass);
    assert_equal(&rt, told, (TIMES, TIMES, TIMES));
    Ok(())
}
