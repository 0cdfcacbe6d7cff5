//! A pop, whose place is the rise of the timers' count of pops.
ghost use Rattle.std.specs.Prelude.{◌≡◌, ◌≤◌, ◌<◌, ◌+◌, ℕ, true, false, IfNone, IfSome};
ghost use Rattle.hr_timers.specs.Known.{IsPassOf, KeepsLocks};
ghost use Rattle.ordered_signals.specs.Places.{HasSignalRing, PopStands, PopsDiffer, RingStandsAt, pops_told, pushes_told};
ghost use Rattle.pass_names.specs.Passes.{Looks};
ghost use Rattle.pass_names.specs.SharedHistory.{LooksOn};
ghost use Rattle.signal_queue.specs.Calls.{PopsSignal};
ghost use Rattle.signal_queue.specs.Views.{IsPassOfQueue, KnowsQueue};

use crate::RING;
use hr_timers::{Pass, Timers};
use signal_queue::{LentEnd, Popping, Signal, SignalPass, Signals};
use std::sync::Wait;

/// Takes the oldest signal, if one waits, as `Signals::pop` does. It waits for whoever pops.
pub fn pop<R: Wait>(
    rt: &R,
    timers: &Timers,
    pass: &mut Pass,
    signals: &Signals,
    signal_pass: &mut SignalPass,
) -> Option<Signal>
    requires pass { IsPassOf timers.now pass.old }
    requires ring { HasSignalRing timers.now.about.rings signals.now.room }
    requires signals { IsPassOfQueue signals.now signal_pass.old }
    ensures pass { IsPassOf timers.now pass.new }
    ensures looks { LooksOn pass.old.known pass.new.known }
    ensures locks { KeepsLocks pass.old pass.new }
    ensures signals { IsPassOfQueue signals.now signal_pass.new }
    ensures pops { PopsSignal signal_pass.old.knows signal_pass.new.knows result }
    ensures id { signal_pass.new.knows.pass.id ≡ signal_pass.old.knows.pass.id }
    ensures known { KnowsQueue signal_pass.new.knows }
    ensures stands { PopStands timers.now.about pass.old.known pass.new.known signal_pass.new.knows result }
{
    let mut end = signals.lend_pop(rt);
    for _ in rt.forever() {
        let (answer, lent) = pop_in_turn(rt, timers, pass, end, signal_pass);
        end = lent;
        if let Some(answer) = answer {
            end.give_back();
            return answer;
        }
    }
    unreachable!()
}

/// One turn of a pop by the end for it: `None` where the timers are told of other pushes and pops than the end knows. In fact they never are: who had the end
/// before told them.
fn pop_in_turn<'a, R: Wait>(
    rt: &R,
    timers: &Timers,
    pass: &mut Pass,
    end: LentEnd<'a, Popping>,
    signal_pass: &mut SignalPass,
) -> (Option<Option<Signal>>, LentEnd<'a, Popping>)
    requires pass { IsPassOf timers.now pass.old }
    requires ring { HasSignalRing timers.now.about.rings end.queue.room }
    requires signals { IsPassOfQueue end.queue signal_pass.old }
    ensures pass { IsPassOf timers.now pass.new }
    ensures looks { LooksOn pass.old.known pass.new.known }
    ensures locks { KeepsLocks pass.old pass.new }
    ensures signals { IsPassOfQueue end.entry.queue signal_pass.new }
    ensures end { result.1.queue ≡ end.entry.queue }
    ensures id { signal_pass.new.knows.pass.id ≡ signal_pass.old.knows.pass.id }
    ensures pops { IfSome result.0 (λ a. PopsSignal signal_pass.old.knows signal_pass.new.knows a) }
    ensures known { IfSome result.0 (λ a. KnowsQueue signal_pass.new.knows) }
    ensures stands { IfSome result.0 (λ a. PopStands timers.now.about pass.old.known pass.new.known signal_pass.new.knows a) }
    ensures again { IfNone result.0 (Looks signal_pass.old.knows.pass signal_pass.new.knows.pass) }
    ensures why { IfNone result.0 (PopsDiffer timers.now.about end.entry.count pass.new.known.seen) }
{
    let count = end.count();
    if timers.taken_count(pass, RING) != count {
        return (None, end);
    }
    let put = timers.put_count(pass, RING);
    let (answer, end) = end.pop(rt, signal_pass);
    match answer {
        Some(signal) => {
            tell_of_pop(timers, pass, end.count());
            (Some(Some(signal)), end)
        }
        None => {
            if !is_empty(timers, pass, count, put) {
                return (None, end);
            }
            (Some(None), end)
        }
    }
}

/// Tells the timers of a pop that found a signal: so many pushes were made before that it did.
fn tell_of_pop(timers: &Timers, pass: &mut Pass, number: u64)
    requires pass { IsPassOf timers.now pass.old }
    requires ring { (room : ℕ) × (HasSignalRing timers.now.about.rings room × (0 < room)) }
    requires next { number ≤ pops_told timers.now.about pass.old.known.seen + 1 }
    ensures pass { IsPassOf timers.now pass.new }
    ensures looks { LooksOn pass.old.known pass.new.known }
    ensures locks { KeepsLocks pass.old pass.new }
    ensures told { number ≤ pops_told timers.now.about pass.new.known.seen }
{
    timers.raise_put(pass, RING, number);
    timers.raise_taken(pass, RING, number);
}

/// Whether, since the timers were looked at, there was a moment with just so many pops, and as many pushes.
fn is_empty(timers: &Timers, pass: &mut Pass, count: u64, put: u64) -> bool
    requires pass { IsPassOf timers.now pass.old }
    requires ring { (room : ℕ) × HasSignalRing timers.now.about.rings room }
    requires pops { count ≤ pops_told timers.now.about pass.old.known.seen }
    requires pushes { put ≡ pushes_told timers.now.about pass.old.known.seen }
    ensures pass { IsPassOf timers.now pass.new }
    ensures looks { LooksOn pass.old.known pass.new.known }
    ensures locks { KeepsLocks pass.old pass.new }
    ensures stands { result ≡ true → RingStandsAt timers.now.about pass.old.known.seen pass.new.known.seen count count }
    ensures why { result ≡ false → PopsDiffer timers.now.about count pass.new.known.seen }
{
    if put > count {
        return false;
    }
    timers.raise_put(pass, RING, count);
    timers.taken_count(pass, RING) == count
}
