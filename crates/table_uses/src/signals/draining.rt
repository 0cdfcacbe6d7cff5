//! Signals that are sent and taken.
ghost use Rattle.std.specs.Prelude.{◌≡◌, []};
ghost use Rattle.pass_names.specs.Passes.{Looks};
ghost use Rattle.signal_queue.specs.Calls.{TakesTurn};
ghost use Rattle.signal_queue.specs.Rules.{turns};
ghost use Rattle.signal_queue.specs.Turns.{waiting_after};
ghost use Rattle.signal_queue.specs.Views.{IsPassOfQueue, KnowsQueue};
ghost use Rattle.signal_queue.specs.declared.signal.Turn.TheVariants.{Pushed};

use pass_names::Retries;
use signal_queue::{Push, Signal, SignalPass, Signals};
use std::sync::Wait;

/// Puts a signal last, once there is room.
pub fn send<R: Wait>(rt: &R, signals: &Signals, pass: &mut SignalPass, signal: Signal)
    requires pass { IsPassOfQueue signals.now pass.old }
    ensures pass { IsPassOfQueue signals.now pass.new }
    ensures id { pass.new.knows.pass.id ≡ pass.old.knows.pass.id }
{
    for _ in Retries::new(rt) {
        if let Push::Queued = signals.push(rt, pass, signal) {
            return;
        }
    }
    unreachable!()
}

/// Takes signals until none waits, and answers how many it took.
pub fn drain<R: Wait>(rt: &R, signals: &Signals, pass: &mut SignalPass) -> u64
    requires pass { IsPassOfQueue signals.now pass.old }
    ensures pass { IsPassOfQueue signals.now pass.new }
    ensures empty { waiting_after [] (turns pass.new.knows) ≡ [] }
    ensures id { pass.new.knows.pass.id ≡ pass.old.knows.pass.id }
{
    let mut taken = 0u64;
    for _ in rt.forever() {
        match signals.pop(rt, pass) {
            Some(_) => taken = taken.saturating_add(1),
            None => return taken,
        }
    }
    unreachable!()
}
