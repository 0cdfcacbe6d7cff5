//! Tests of `signal_queue`: each call of a queue.
use super::assert_equal;
use super::signals::signal;
use crate::signals::threads::send_all;
use signal_queue::{Push, Signals, each_pop_takes_the_oldest};
use std::test::Fail;

#[test]
fn signals_leave_in_the_order_in_which_they_came(rt: HostRuntime) -> Result<(), Fail> {
    let (signals, mut pass) = Signals::make(rt.alloc(), 3)?;
    assert_equal(&rt, signals.pop(&rt, &mut pass), None);
    assert_equal(&rt, signals.push(&rt, &mut pass, signal(1)), Push::Queued);
    assert_equal(&rt, signals.push(&rt, &mut pass, signal(2)), Push::Queued);
    assert_equal(&rt, signals.pop(&rt, &mut pass), Some(signal(1)));
    assert_equal(&rt, signals.push(&rt, &mut pass, signal(3)), Push::Queued);
    assert_equal(&rt, signals.pop(&rt, &mut pass), Some(signal(2)));
    assert_equal(&rt, signals.pop(&rt, &mut pass), Some(signal(3)));
    assert_equal(&rt, signals.pop(&rt, &mut pass), None);
    signals.close(pass);
    each_pop_takes_the_oldest();
    Ok(())
}

#[test]
fn a_queue_with_room_for_one_is_full_with_one(rt: HostRuntime) -> Result<(), Fail> {
    let (signals, mut pass) = Signals::make(rt.alloc(), 1)?;
    assert_equal(&rt, signals.push(&rt, &mut pass, signal(1)), Push::Queued);
    let second = signals.push(&rt, &mut pass, signal(2));
    assert_equal(&rt, second, Push::Full { room: 1 });
    assert_equal(&rt, signals.pop(&rt, &mut pass), Some(signal(1)));
    assert_equal(&rt, signals.pop(&rt, &mut pass), None);
    assert_equal(&rt, signals.push(&rt, &mut pass, signal(2)), Push::Queued);
    signals.close(pass);
    Ok(())
}

#[test]
fn the_sixty_fifth_signal_finds_no_room(rt: HostRuntime) -> Result<(), Fail> {
    let (signals, mut pass) = Signals::make(rt.alloc(), 64)?;
    send_all(&rt, &signals, &mut pass, 7, 64);
    let last = signals.push(&rt, &mut pass, signal(64));
    assert_equal(&rt, last, Push::Full { room: 64 });
    signals.close(pass);
    Ok(())
}

#[test]
fn passes_that_were_split_off_push_and_pop(rt: HostRuntime) -> Result<(), Fail> {
    let (signals, mut first) = Signals::make(rt.alloc(), 2)?;
    let mut second = signals.split(&mut first);
    signals.push(&rt, &mut second, signal(1));
    assert_equal(&rt, signals.pop(&rt, &mut first), Some(signal(1)));
    assert_equal(&rt, signals.pop(&rt, &mut second), None);
    signals.join(&mut first, second);
    signals.close(first);
    Ok(())
}

#[test]
fn a_look_by_each_end_sees_its_turns(rt: HostRuntime) -> Result<(), Fail> {
    let (signals, mut first) = Signals::make(rt.alloc(), 2)?;
    let mut second = signals.split(&mut first);
    signals.push(&rt, &mut second, signal(1));
    signals.push(&rt, &mut second, signal(2));
    signals.pop(&rt, &mut second);
    let pushing = signals.lend_push(&rt).look(&mut first);
    let popping = signals.lend_pop(&rt).look(&mut first);
    let counts = (pushing.count(), popping.count());
    pushing.give_back();
    popping.give_back();
    let next = signals.pop(&rt, &mut first);
    signals.join(&mut first, second);
    signals.close(first);
    assert_equal(&rt, counts, (2, 1));
    assert_equal(&rt, next, Some(signal(2)));
    Ok(())
}
