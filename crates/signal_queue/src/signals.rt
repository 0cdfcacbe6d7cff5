//! The queue that threads share.
ghost use Rattle.std.specs.Prelude.{◌≡◌, ◌<◌, IfOk};
ghost use Rattle.pass_names.specs.Names.{AnswersFor, IsLast};
ghost use Rattle.pass_names.specs.Passes.{Begins, HasEach, Retires};
ghost use Rattle.signal_queue.specs.Calls.{PopsSignal, PushesSignal};
ghost use Rattle.signal_queue.specs.Rules.{turns};
ghost use Rattle.signal_queue.specs.Turns.{popped, pushed};
ghost use Rattle.signal_queue.specs.Views.{IsPassOfQueue, KnowsQueue, first_queue_view, new_queue_view, split_queue_view};

use crate::ends::{End, Popping, Pushing};
use crate::lending::LentEnd;
use crate::lock::EndLock;
use crate::pass::SignalPass;
use crate::plays::Child;
use crate::ring::{Ring, give_back, merge, open};
use crate::signal::Signal;
use crossbeam_queue::RuledArrayQueue;
use std::alloc::{AllocError, Global};
use std::marker::{Brand, Model};
use std::sync::Wait;

/// What a push comes to.
#[derive(Clone, Copy, Debug, PartialEq, Eq)]
pub enum Push {
    Queued,
    /// As many signals wait as there is room for.
    Full { room: usize },
}

/// A queue of signals that many threads share. A call waits for the threads that have its end, and for one that is at its signal's place.
#[derive(Drop)]
pub struct Signals {
    ring: Ring,
    pushing: EndLock<Pushing>,
    popping: EndLock<Popping>,
}

impl Model for Signals {
    ghost use Rattle.std.specs.Prelude.{◌≡◌, ◌<◌};
    ghost use Rattle.crossbeam_queue.specs.Passes.{ruled_capacity};
    ghost use Rattle.signal_queue.specs.Views.{QueueOf};

    ghost Value = { QueueOf };

    ghost view = { λ s. record { id = s.ring.table.shared.table_id; room = ruled_capacity s.ring } };

    // The seats that the locks were made with are of the ring, and knew its room; there is some.
    ghost invariant = { λ s. (s.pushing.of.table_id ≡ s.ring.table.shared.table_id) × (s.popping.of.table_id ≡ s.ring.table.shared.table_id) × (s.pushing.of.me.0.client.room ≡ ruled_capacity s.ring) × (s.popping.of.me.0.client.room ≡ ruled_capacity s.ring) × (0 < ruled_capacity s.ring) };
}

impl Signals {
    /// A queue in which so many signals may wait, and the first pass. It takes memory for them all.
    pub fn make(alloc: Global, room: usize) -> Result<(Signals, SignalPass), AllocError>
        requires room { 0 < room }
        ensures room { IfOk result (λ r. r.0.room ≡ room) }
        ensures pass { IfOk result (λ r. IsPassOfQueue r.0 r.1) }
        ensures first { IfOk result (λ r. r.1.knows.pass ≡ first_queue_view.pass) }
        ensures known { IfOk result (λ r. KnowsQueue r.1.knows) }
    {
        let (ring, mut seat) = RuledArrayQueue::ruled(alloc, room)?;
        let pops = open::<Brand>(&ring, &mut seat);
        let pushes = give_back(&ring, &mut seat);
        let pushing = EndLock::<Pushing>::make(alloc, End::new(pushes), &seat)?;
        let popping = EndLock::<Popping>::make(alloc, End::new(pops), &seat)?;
        let signals = Signals {
            ring,
            pushing,
            popping,
        };
        Ok((signals, SignalPass { seat }))
    }

    /// How many signals may wait.
    pub fn room(&self) -> usize
        ensures { result ≡ self.now.room }
    {
        self.ring.capacity()
    }

    /// Lends the end for pushes, once nobody else has it.
    pub fn lend_push<'a, R: Wait>(&'a self, rt: &R) -> LentEnd<'a, Pushing>
        ensures { result.queue ≡ self.now }
    {
        let (end, hold) = self.pushing.take(rt);
        LentEnd::new(&self.ring, &self.pushing, end, hold)
    }

    /// Lends the end for pops, once nobody else has it.
    pub fn lend_pop<'a, R: Wait>(&'a self, rt: &R) -> LentEnd<'a, Popping>
        ensures { result.queue ≡ self.now }
    {
        let (end, hold) = self.popping.take(rt);
        LentEnd::new(&self.ring, &self.popping, end, hold)
    }

    /// Puts a signal last, if there is room.
    pub fn push<R: Wait>(&self, rt: &R, pass: &mut SignalPass, signal: Signal) -> Push
        requires pass { IsPassOfQueue self.now pass.old }
        ensures pass { IsPassOfQueue self.now pass.new }
        ensures pushes { PushesSignal self.now.room pass.old.knows pass.new.knows signal result }
        ensures id { pass.new.knows.pass.id ≡ pass.old.knows.pass.id }
        ensures known { KnowsQueue pass.new.knows }
    {
        let (answer, end) = self.lend_push(rt).push(rt, pass, signal);
        end.give_back();
        answer
    }

    /// Takes the oldest signal, if one waits.
    pub fn pop<R: Wait>(&self, rt: &R, pass: &mut SignalPass) -> Option<Signal>
        requires pass { IsPassOfQueue self.now pass.old }
        ensures pass { IsPassOfQueue self.now pass.new }
        ensures pops { PopsSignal pass.old.knows pass.new.knows result }
        ensures id { pass.new.knows.pass.id ≡ pass.old.knows.pass.id }
        ensures known { KnowsQueue pass.new.knows }
    {
        let (answer, end) = self.lend_pop(rt).pop(rt, pass);
        end.give_back();
        answer
    }

    /// Makes one more pass, which has seen as much. It takes no memory.
    pub fn split(&self, pass: &mut SignalPass) -> SignalPass
        requires pass { IsPassOfQueue self.now pass.old }
        ensures pass { IsPassOfQueue self.now pass.new × IsPassOfQueue self.now result }
        ensures splitter { pass.new.knows ≡ split_queue_view pass.old.knows }
        ensures new { result.knows ≡ new_queue_view pass.old.knows }
        ensures answers { AnswersFor pass.new.knows.pass.id result.knows.pass.id }
        ensures known { KnowsQueue pass.new.knows × KnowsQueue result.knows }
    {
        SignalPass {
            seat: self.ring.another::<Child>(&mut pass.seat),
        }
    }

    /// A pass takes in another, for which it answers.
    pub fn join(&self, main: &mut SignalPass, other: SignalPass)
        requires pass { IsPassOfQueue self.now main.old × IsPassOfQueue self.now other }
        requires answers { AnswersFor main.old.knows.pass.id other.knows.pass.id }
        ensures pass { IsPassOfQueue self.now main.new }
        ensures retires { Retires main.old.knows.pass other.knows.pass main.new.knows.pass }
        ensures known { KnowsQueue main.new.knows }
    {
        merge(&self.ring, &mut main.seat, other.into_seat());
    }

    /// Ends a queue with its last pass. All turns are its own, each once, and it has seen them all: what was popped begins what was pushed.
    pub fn close(self, pass: SignalPass)
        requires pass { IsPassOfQueue self pass }
        requires last { IsLast pass.knows.pass.id }
        ensures all { HasEach pass.knows.pass.seen pass.knows.pass.mine }
        ensures known { KnowsQueue pass.knows }
        ensures popped { Begins (popped (turns pass.knows)) (pushed (turns pass.knows)) }
    {
        drop(pass.into_seat());
        drop(self);
    }
}
