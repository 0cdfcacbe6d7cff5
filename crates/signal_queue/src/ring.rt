//! The ring of a queue, and its steps: a seat is lent an end, pushes or pops, and gives the end back; seats are split off and taken in.
ghost use Rattle.std.specs.Prelude.{◌≡◌, ◌+◌, ℕ, Bool, true, false, length};
ghost use Rattle.crossbeam_queue.specs.Passes.{IsPassOf, IsSamePass, ruled_capacity, view};
ghost use Rattle.pass_names.specs.Names.{AnswersFor};
ghost use Rattle.pass_names.specs.Passes.{Looks, Retires};
ghost use Rattle.signal_queue.specs.Calls.{CountsPops, CountsPushes, PopsLent, PopsSignal, PushesLent, PushesSignal, count_put, count_taken};
ghost use Rattle.signal_queue.specs.Rules.{turns};
ghost use Rattle.signal_queue.specs.Turns.{popped, pushed};
ghost use Rattle.signal_queue.specs.Views.{IsEndView, IsRestingQueueView, end_queue_view, first_queue_view, lent_queue_view, opened_end, opened_view, rid_queue_view};

use crate::ends::End;
use crate::pass::QueueSeat;
use crate::plays::{Child, Loan, Opens, Puts, QueueRule, Room, Takes};
use crate::signal::Signal;
use crate::signals::Push;
use crate::view::QueueView;
use crossbeam_queue::RuledArrayQueue;
use std::sync::Wait;

/// The kit's bounded ring, under the rule of a queue.
pub type Ring = RuledArrayQueue<Signal, QueueView, QueueRule>;

/// The first seat learns how many signals may wait, and gives the end for pops up.
pub fn open<B: Room>(ring: &Ring, seat: &mut QueueSeat) -> QueueSeat
    requires queue { IsPassOf ring.now seat.old }
    requires first { view seat.old ≡ first_queue_view }
    ensures queue { IsSamePass seat.old seat.new × IsPassOf ring.now result }
    ensures rule { (view seat.new ≡ opened_view B.room first_queue_view) × (view result ≡ opened_end B.room first_queue_view) }
{
    ring.another::<Opens<B>>(seat)
}

/// Lends an end to a seat.
fn lend(ring: &Ring, seat: &mut QueueSeat, end: QueueSeat)
    requires queue { IsPassOf ring.now seat.old × IsPassOf ring.now end }
    requires rests { IsRestingQueueView (view seat.old) }
    requires end { (pushing : Bool) × ((popping : Bool) × ((made : ℕ) × IsEndView (view seat.old).room pushing popping made (view end))) }
    ensures queue { IsSamePass seat.old seat.new }
    ensures lent { view seat.new ≡ lent_queue_view (view seat.old) (view end) }
{
    ring.absorb::<Loan>(seat, end);
}

/// A seat gives back what it was lent.
pub fn give_back(ring: &Ring, seat: &mut QueueSeat) -> QueueSeat
    requires queue { IsPassOf ring.now seat.old }
    ensures queue { IsSamePass seat.old seat.new × IsPassOf ring.now result }
    ensures rid { view seat.new ≡ rid_queue_view (view seat.old) }
    ensures end { view result ≡ end_queue_view (view seat.old) }
{
    ring.another::<Loan>(seat)
}

/// Pushes with a seat that has the end for it, and not the other one.
fn push_lent<R: Wait>(rt: &R, ring: &Ring, seat: &mut QueueSeat, signal: Signal) -> Push
    requires queue { IsPassOf ring.now seat.old }
    requires live { (view seat.old).pass.id.live ≡ true }
    requires end { ((view seat.old).pushes ≡ true) × ((view seat.old).pops ≡ false) }
    requires room { (view seat.old).room ≡ ruled_capacity ring.now }
    ensures queue { IsSamePass seat.old seat.new }
    ensures pushes { PushesLent (ruled_capacity ring.now) (view seat.old) (view seat.new) signal result }
{
    match ring.push_as::<Puts, R>(rt, seat, signal) {
        Ok(()) => Push::Queued,
        Err(_) => Push::Full {
            room: ring.capacity(),
        },
    }
}

/// Pops with a seat that has the end for it, and not the other one.
fn pop_lent<R: Wait>(rt: &R, ring: &Ring, seat: &mut QueueSeat) -> Option<Signal>
    requires queue { IsPassOf ring.now seat.old }
    requires live { (view seat.old).pass.id.live ≡ true }
    requires end { ((view seat.old).pops ≡ true) × ((view seat.old).pushes ≡ false) }
    ensures queue { IsSamePass seat.old seat.new }
    ensures pops { PopsLent (view seat.old) (view seat.new) result }
{
    ring.pop_as::<Takes, R>(rt, seat)
}

/// One more than so many, if that is a number that there is; else it waits for ever.
fn next_count<R: Wait>(rt: &R, count: u64) -> u64
    ensures { result ≡ count + 1 }
{
    for _ in rt.forever() {
        if let Some(next) = count.checked_add(1) {
            return next;
        }
    }
    unreachable!()
}

/// How many pushes there were after one that came to this.
fn count_of_pushes(answer: &Push, count: u64, next: u64) -> u64
    requires next { next ≡ count + 1 }
    ensures { result ≡ count + count_put answer.now }
{
    match answer {
        Push::Queued => next,
        Push::Full { .. } => count,
    }
}

/// Pushes with an end that is lent for it, and answers the end too.
pub fn push_by<R: Wait>(
    rt: &R,
    ring: &Ring,
    seat: &mut QueueSeat,
    end: End,
    signal: Signal,
) -> (Push, End)
    requires queue { IsPassOf ring.now seat.old × IsPassOf ring.now end.seat }
    requires rests { IsRestingQueueView (view seat.old) }
    requires room { (view seat.old).room ≡ ruled_capacity ring.now }
    requires end { IsEndView (view seat.old).room true false end.count (view end.seat) }
    ensures queue { IsSamePass seat.old seat.new × IsPassOf ring.now result.1.seat }
    ensures rests { IsRestingQueueView (view seat.new) }
    ensures room { (view seat.new).room ≡ (view seat.old).room }
    ensures end { IsEndView (view seat.old).room true false result.1.count (view result.1.seat) }
    ensures pushes { PushesSignal (ruled_capacity ring.now) (view seat.old) (view seat.new) signal result.0 }
    ensures counts { CountsPushes end.count (count_put result.0) (view seat.new) result.1.count }
    ensures id { (view seat.new).pass.id ≡ (view seat.old).pass.id }
{
    let End { seat: lent, count } = end;
    let next = next_count(rt, count);
    lend(ring, seat, lent);
    let answer = push_lent(rt, ring, seat, signal);
    let count = count_of_pushes(&answer, count, next);
    let seat = give_back(ring, seat);
    (answer, End { seat, count })
}

/// How many pops there were after one that came to this.
fn count_of_pops(answer: &Option<Signal>, count: u64, next: u64) -> u64
    requires next { next ≡ count + 1 }
    ensures { result ≡ count + count_taken answer.now }
{
    match answer {
        Some(_) => next,
        None => count,
    }
}

/// Pops with an end that is lent for it, and answers the end too.
pub fn pop_by<R: Wait>(rt: &R, ring: &Ring, seat: &mut QueueSeat, end: End) -> (Option<Signal>, End)
    requires queue { IsPassOf ring.now seat.old × IsPassOf ring.now end.seat }
    requires rests { IsRestingQueueView (view seat.old) }
    requires end { IsEndView (view seat.old).room false true end.count (view end.seat) }
    ensures queue { IsSamePass seat.old seat.new × IsPassOf ring.now result.1.seat }
    ensures rests { IsRestingQueueView (view seat.new) }
    ensures room { (view seat.new).room ≡ (view seat.old).room }
    ensures end { IsEndView (view seat.old).room false true result.1.count (view result.1.seat) }
    ensures pops { PopsSignal (view seat.old) (view seat.new) result.0 }
    ensures counts { CountsPops end.count (count_taken result.0) (view seat.new) result.1.count }
    ensures id { (view seat.new).pass.id ≡ (view seat.old).pass.id }
{
    let End { seat: lent, count } = end;
    let next = next_count(rt, count);
    lend(ring, seat, lent);
    let answer = pop_lent(rt, ring, seat);
    let count = count_of_pops(&answer, count, next);
    let seat = give_back(ring, seat);
    (answer, End { seat, count })
}

/// Makes nothing with an end that is lent, and answers the end too. The seat sees all pushes, or pops, that were made by it.
pub fn look_by(ring: &Ring, seat: &mut QueueSeat, end: End) -> End
    requires queue { IsPassOf ring.now seat.old × IsPassOf ring.now end.seat }
    requires rests { IsRestingQueueView (view seat.old) }
    requires end { IsEndView (view seat.old).room (view end.seat).pushes (view end.seat).pops end.count (view end.seat) }
    ensures queue { IsSamePass seat.old seat.new × IsPassOf ring.now result.seat }
    ensures rests { IsRestingQueueView (view seat.new) }
    ensures room { (view seat.new).room ≡ (view seat.old).room }
    ensures end { IsEndView (view seat.old).room (view end.seat).pushes (view end.seat).pops end.count (view result.seat) }
    ensures count { result.count ≡ end.count }
    ensures looks { Looks (view seat.old).pass (view seat.new).pass }
    ensures pushes { (view end.seat).pushes ≡ true → length (pushed (turns (view seat.new))) ≡ end.count }
    ensures pops { (view end.seat).pops ≡ true → length (popped (turns (view seat.new))) ≡ end.count }
{
    let End { seat: lent, count } = end;
    lend(ring, seat, lent);
    ring.learn_as::<Puts>(seat);
    let seat = give_back(ring, seat);
    End { seat, count }
}

/// A seat takes in another, and learns what both had seen.
pub fn merge(ring: &Ring, seat: &mut QueueSeat, other: QueueSeat)
    requires queue { IsPassOf ring.now seat.old × IsPassOf ring.now other }
    requires rests { IsRestingQueueView (view seat.old) × IsRestingQueueView (view other) }
    requires answers { AnswersFor (view seat.old).pass.id (view other).pass.id }
    ensures queue { IsSamePass seat.old seat.new }
    ensures rests { IsRestingQueueView (view seat.new) }
    ensures retires { Retires (view seat.old).pass (view other).pass (view seat.new).pass }
    ensures room { (view seat.new).room ≡ (view seat.old).room }
{
    ring.absorb::<Child>(seat, other);
    ring.learn_as::<Puts>(seat);
}
