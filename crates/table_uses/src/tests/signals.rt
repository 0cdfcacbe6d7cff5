//! The callers of `signal_queue`, run.
ghost use Rattle.std.specs.Prelude.{◌≡◌, ◌<◌, IfOk};
ghost use Rattle.pass_names.specs.Names.{IsLast};
ghost use Rattle.signal_queue.specs.Views.{IsPassOfQueue};

use super::assert_equal;
use crate::{drain, hand_over, send, trade};
use signal_queue::{Signal, Signals};
use std::test::Fail;

/// A signal of timer 7.
pub fn signal(number: u64) -> Signal {
    Signal { timer: 7, number }
}

#[test]
fn two_threads_hand_signals_over_in_order(rt: HostRuntime) -> Result<(), Fail> {
    let in_order = hand_over(&rt, rt.alloc(), 8, 10_000)?;
    assert_equal(&rt, in_order, 10_000);
    Ok(())
}

#[test]
fn two_threads_hand_signals_over_in_room_for_one(rt: HostRuntime) -> Result<(), Fail> {
    let in_order = hand_over(&rt, rt.alloc(), 1, 1_000)?;
    assert_equal(&rt, in_order, 1_000);
    Ok(())
}

#[test]
fn two_threads_that_want_both_ends_take_each_signal_once(rt: HostRuntime) -> Result<(), Fail> {
    let sum = trade(&rt, rt.alloc(), 2, 10_000)?;
    assert_equal(&rt, sum, 99_990_000);
    Ok(())
}

#[test]
fn what_was_sent_is_drained(rt: HostRuntime) -> Result<(), Fail> {
    let (signals, mut pass) = Signals::make(rt.alloc(), 4)?;
    send(&rt, &signals, &mut pass, signal(1));
    send(&rt, &signals, &mut pass, signal(2));
    assert_equal(&rt, drain(&rt, &signals, &mut pass), 2);
    assert_equal(&rt, drain(&rt, &signals, &mut pass), 0);
    signals.close(pass);
    Ok(())
}
