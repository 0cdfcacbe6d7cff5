//! Pushes and pops of the queue of signals. Where the timers' first ring has just the queue's room, each has its place among the entries of the timers.
ghost use Rattle.std.specs.Prelude.{◌≡◌, true, false};
ghost use Rattle.hr_timers.specs.Known.{IsPassOf};
ghost use Rattle.ordered_signals.specs.Places.{HasSignalRing, PopStands, PushStands};
ghost use Rattle.pass_names.specs.SharedHistory.{LooksOn};
ghost use Rattle.signal_queue.specs.Calls.{PopsSignal, PushesSignal};
ghost use Rattle.signal_queue.specs.Views.{IsPassOfQueue, KnowsQueue};

use hr_timers::{Pass, Timers};
use signal_queue::{Push, Signal, SignalPass, Signals};
use std::sync::Wait;

/// Puts a signal last, if there is room.
pub(crate) fn push<R: Wait>(
    rt: &R,
    timers: &Timers,
    pass: &mut Pass,
    signals: &Signals,
    signal_pass: &mut SignalPass,
    signal: Signal,
) -> Push
    requires pass { IsPassOf timers.now pass.old }
    requires signals { IsPassOfQueue signals.now signal_pass.old }
    ensures pass { IsPassOf timers.now pass.new }
    ensures looks { LooksOn pass.old.known pass.new.known }
    ensures signals { IsPassOfQueue signals.now signal_pass.new }
    ensures pushes { PushesSignal signals.now.room signal_pass.old.knows signal_pass.new.knows signal result }
    ensures known { KnowsQueue signal_pass.new.knows }
    ensures stands { HasSignalRing timers.now.about.rings signals.now.room → PushStands timers.now.about pass.old.known pass.new.known signal_pass.new.knows result }
{
    if !has_ring(timers, signals) {
        return signals.push(rt, signal_pass, signal);
    }
    ordered_signals::push(rt, timers, pass, signals, signal_pass, signal)
}

/// Takes the oldest signal, if one waits.
pub(crate) fn pop<R: Wait>(
    rt: &R,
    timers: &Timers,
    pass: &mut Pass,
    signals: &Signals,
    signal_pass: &mut SignalPass,
) -> Option<Signal>
    requires pass { IsPassOf timers.now pass.old }
    requires signals { IsPassOfQueue signals.now signal_pass.old }
    ensures pass { IsPassOf timers.now pass.new }
    ensures looks { LooksOn pass.old.known pass.new.known }
    ensures signals { IsPassOfQueue signals.now signal_pass.new }
    ensures pops { PopsSignal signal_pass.old.knows signal_pass.new.knows result }
    ensures known { KnowsQueue signal_pass.new.knows }
    ensures stands { HasSignalRing timers.now.about.rings signals.now.room → PopStands timers.now.about pass.old.known pass.new.known signal_pass.new.knows result }
    ensures alone { (HasSignalRing timers.now.about.rings signals.now.room → ⊥) → pass.new ≡ pass.old }
{
    if !has_ring(timers, signals) {
        return signals.pop(rt, signal_pass);
    }
    ordered_signals::pop(rt, timers, pass, signals, signal_pass)
}

/// Whether the timers' first ring has just the queue's room.
fn has_ring(timers: &Timers, signals: &Signals) -> bool
    ensures yes { result ≡ true → HasSignalRing timers.now.about.rings signals.now.room }
    ensures no { result ≡ false → HasSignalRing timers.now.about.rings signals.now.room → ⊥ }
{
    timers.first_ring() == Some(signals.room() as u64)
}
