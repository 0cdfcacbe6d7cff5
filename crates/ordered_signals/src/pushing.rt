//! A push, whose place is the rise of the timers' count of pushes.
ghost use Rattle.std.specs.Prelude.{◌≡◌, ◌≤◌, ◌<◌, ◌+◌, ℕ, true, false, IfNone, IfSome};
ghost use Rattle.hr_timers.specs.Known.{IsPassOf, KeepsLocks};
ghost use Rattle.ordered_signals.specs.Places.{HasSignalRing, PushStands, PushesDiffer, RingStandsAt, pops_told, pushes_told};
ghost use Rattle.pass_names.specs.Passes.{Looks};
ghost use Rattle.pass_names.specs.SharedHistory.{LooksOn};
ghost use Rattle.signal_queue.specs.Calls.{PushesSignal};
ghost use Rattle.signal_queue.specs.Views.{IsPassOfQueue, KnowsQueue};

use crate::RING;
use hr_timers::{Pass, Timers};
use signal_queue::{LentEnd, Push, Pushing, Signal, SignalPass, Signals};
use std::sync::Wait;

/// Puts a signal last, if there is room, as `Signals::push` does. It waits for whoever pushes.
pub fn push<R: Wait>(
    rt: &R,
    timers: &Timers,
    pass: &mut Pass,
    signals: &Signals,
    signal_pass: &mut SignalPass,
    signal: Signal,
) -> Push
    requires pass { IsPassOf timers.now pass.old }
    requires ring { HasSignalRing timers.now.about.rings signals.now.room }
    requires signals { IsPassOfQueue signals.now signal_pass.old }
    ensures pass { IsPassOf timers.now pass.new }
    ensures looks { LooksOn pass.old.known pass.new.known }
    ensures locks { KeepsLocks pass.old pass.new }
    ensures signals { IsPassOfQueue signals.now signal_pass.new }
    ensures pushes { PushesSignal signals.now.room signal_pass.old.knows signal_pass.new.knows signal result }
    ensures id { signal_pass.new.knows.pass.id ≡ signal_pass.old.knows.pass.id }
    ensures known { KnowsQueue signal_pass.new.knows }
    ensures stands { PushStands timers.now.about pass.old.known pass.new.known signal_pass.new.knows result }
{
    let mut end = signals.lend_push(rt);
    for _ in rt.forever() {
        let (answer, lent) = push_in_turn(rt, timers, pass, end, signal_pass, signal);
        end = lent;
        if let Some(answer) = answer {
            end.give_back();
            return answer;
        }
    }
    unreachable!()
}

/// One turn of a push by the end for it: `None` where the timers are told of other pushes and pops than the end knows. In fact they never are: who had the end
/// before told them.
fn push_in_turn<'a, R: Wait>(
    rt: &R,
    timers: &Timers,
    pass: &mut Pass,
    end: LentEnd<'a, Pushing>,
    signal_pass: &mut SignalPass,
    signal: Signal,
) -> (Option<Push>, LentEnd<'a, Pushing>)
    requires pass { IsPassOf timers.now pass.old }
    requires ring { HasSignalRing timers.now.about.rings end.queue.room }
    requires signals { IsPassOfQueue end.queue signal_pass.old }
    ensures pass { IsPassOf timers.now pass.new }
    ensures looks { LooksOn pass.old.known pass.new.known }
    ensures locks { KeepsLocks pass.old pass.new }
    ensures signals { IsPassOfQueue end.entry.queue signal_pass.new }
    ensures end { result.1.queue ≡ end.entry.queue }
    ensures id { signal_pass.new.knows.pass.id ≡ signal_pass.old.knows.pass.id }
    ensures pushes { IfSome result.0 (λ a. PushesSignal end.entry.queue.room signal_pass.old.knows signal_pass.new.knows signal a) }
    ensures known { IfSome result.0 (λ a. KnowsQueue signal_pass.new.knows) }
    ensures stands { IfSome result.0 (λ a. PushStands timers.now.about pass.old.known pass.new.known signal_pass.new.knows a) }
    ensures again { IfNone result.0 (Looks signal_pass.old.knows.pass signal_pass.new.knows.pass) }
    ensures why { IfNone result.0 (PushesDiffer timers.now.about end.entry.queue.room end.entry.count pass.new.known.seen) }
{
    let count = end.count();
    if timers.put_count(pass, RING) != count {
        return (None, end);
    }
    let taken = timers.taken_count(pass, RING);
    let (answer, end) = end.push(rt, signal_pass, signal);
    match answer {
        Push::Queued => {
            tell_of_push(timers, pass, end.count(), end.room() as u64);
            (Some(Push::Queued), end)
        }
        Push::Full { room } => {
            if !is_full(timers, pass, count, taken, room as u64) {
                return (None, end);
            }
            (Some(Push::Full { room }), end)
        }
    }
}

/// Tells the timers of a push that found room: so many pops were made before that it did.
fn tell_of_push(timers: &Timers, pass: &mut Pass, number: u64, room: u64)
    requires pass { IsPassOf timers.now pass.old }
    requires ring { HasSignalRing timers.now.about.rings room }
    requires some { 0 < room }
    requires next { number ≤ pushes_told timers.now.about pass.old.known.seen + 1 }
    ensures pass { IsPassOf timers.now pass.new }
    ensures looks { LooksOn pass.old.known pass.new.known }
    ensures locks { KeepsLocks pass.old pass.new }
    ensures told { number ≤ pushes_told timers.now.about pass.new.known.seen }
{
    timers.raise_taken(pass, RING, number.saturating_sub(room));
    timers.raise_put(pass, RING, number);
}

/// Whether, since the timers were looked at, there was a moment with just so many pushes, and so many pops that none of them left room.
fn is_full(timers: &Timers, pass: &mut Pass, count: u64, taken: u64, room: u64) -> bool
    requires pass { IsPassOf timers.now pass.old }
    requires ring { HasSignalRing timers.now.about.rings room }
    requires pushes { count ≤ pushes_told timers.now.about pass.old.known.seen }
    requires pops { taken ≡ pops_told timers.now.about pass.old.known.seen }
    ensures pass { IsPassOf timers.now pass.new }
    ensures looks { LooksOn pass.old.known pass.new.known }
    ensures locks { KeepsLocks pass.old pass.new }
    ensures stands { result ≡ true → (popped : ℕ) → popped + room ≡ count → RingStandsAt timers.now.about pass.old.known.seen pass.new.known.seen count popped }
    ensures why { result ≡ false → PushesDiffer timers.now.about room count pass.new.known.seen }
{
    let Some(popped) = count.checked_sub(room) else {
        return false;
    };
    if taken > popped {
        return false;
    }
    timers.raise_taken(pass, RING, popped);
    timers.put_count(pass, RING) == count
}
