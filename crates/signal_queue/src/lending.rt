//! An end of a queue that is lent to a caller, who makes several calls by it: meanwhile no one else pushes, or pops.
ghost use Rattle.std.specs.Prelude.{◌≡◌, ◌<◌, None, length};
ghost use Rattle.crossbeam_queue.specs.Passes.{ruled_capacity};
ghost use Rattle.pass_names.specs.Passes.{Looks};
ghost use Rattle.signal_queue.specs.Calls.{CountsPops, CountsPushes, PopsSignal, PushesSignal, count_put, count_taken};
ghost use Rattle.signal_queue.specs.Locks.{HoldsLock};
ghost use Rattle.signal_queue.specs.Rules.{turns};
ghost use Rattle.signal_queue.specs.Turns.{popped, pushed};
ghost use Rattle.signal_queue.specs.Views.{IsPassOfQueue, KnowsQueue};

use crate::ends::{End, Popping, Pushing, Side};
use crate::lock::{EndLock, Hold};
use crate::pass::SignalPass;
use crate::ring::{Ring, look_by, pop_by, push_by};
use crate::signal::Signal;
use crate::signals::Push;
use std::marker::Model;
use std::sync::Wait;

/// One end of a queue, lent. It can't be dropped: `give_back` takes it, and until then whoever wants the end waits.
pub struct LentEnd<'a, S: Side> {
    ring: &'a Ring,
    lock: &'a EndLock<S>,
    end: End,
    hold: Hold,
}

impl<'a, S: Side> Model for LentEnd<'a, S> {
    ghost use Rattle.std.specs.Prelude.{◌≡◌, ◌<◌, None};
    ghost use Rattle.crossbeam_queue.specs.Passes.{ruled_capacity};
    ghost use Rattle.signal_queue.specs.Locks.{HoldsLock};
    ghost use Rattle.signal_queue.specs.Views.{EndOfQueue};

    ghost Value = { EndOfQueue };

    ghost view = { λ e. record { queue = record { id = e.ring.now.table.shared.table_id; room = ruled_capacity e.ring.now }; count = e.end.count } };

    ghost invariant = { λ e. HoldsLock e.lock.now None e.hold × S.is_end e.lock.now.of e.end × (e.lock.now.of.table_id ≡ e.ring.now.table.shared.table_id) × (e.lock.now.of.me.0.client.room ≡ ruled_capacity e.ring.now) × (0 < ruled_capacity e.ring.now) };
}

impl<'a, S: Side> LentEnd<'a, S> {
    /// The end that lay in this lock, of the queue that this ring is.
    pub(crate) fn new(ring: &'a Ring, lock: &'a EndLock<S>, end: End, hold: Hold) -> LentEnd<'a, S>
        requires end { S.is_end lock.now.of end }
        requires holds { HoldsLock lock.now None hold }
        requires queue { lock.now.of.table_id ≡ ring.now.table.shared.table_id }
        requires room { lock.now.of.me.0.client.room ≡ ruled_capacity ring.now }
        requires some { 0 < ruled_capacity ring.now }
        ensures queue { result.queue ≡ record { id = ring.now.table.shared.table_id; room = ruled_capacity ring.now } }
        ensures count { result.count ≡ end.count }
    {
        LentEnd {
            ring,
            lock,
            end,
            hold,
        }
    }

    /// How many signals were pushed, or popped, until now.
    pub fn count(&self) -> u64
        ensures { result ≡ self.now.count }
    {
        self.end.count
    }

    /// How many signals may wait.
    pub fn room(&self) -> usize
        ensures room { result ≡ self.now.queue.room }
        ensures some { 0 < result }
    {
        self.ring.capacity()
    }

    /// Whoever waits for the end may have it. It doesn't wait.
    pub fn give_back(self) {
        let LentEnd {
            ring: _,
            lock,
            end,
            hold,
        } = self;
        lock.give(hold, end);
    }
}

impl<'a> LentEnd<'a, Pushing> {
    /// Puts a signal last, if there is room.
    pub fn push<R: Wait>(
        self,
        rt: &R,
        pass: &mut SignalPass,
        signal: Signal,
    ) -> (Push, LentEnd<'a, Pushing>)
        requires pass { IsPassOfQueue self.queue pass.old }
        ensures pass { IsPassOfQueue self.entry.queue pass.new }
        ensures queue { result.1.queue ≡ self.entry.queue }
        ensures pushes { PushesSignal self.entry.queue.room pass.old.knows pass.new.knows signal result.0 }
        ensures counts { CountsPushes self.entry.count (count_put result.0) pass.new.knows result.1.count }
        ensures id { pass.new.knows.pass.id ≡ pass.old.knows.pass.id }
        ensures known { KnowsQueue pass.new.knows }
    {
        let LentEnd {
            ring,
            lock,
            end,
            hold,
        } = self;
        let (answer, end) = push_by(rt, ring, &mut pass.seat, end, signal);
        let lent = LentEnd {
            ring,
            lock,
            end,
            hold,
        };
        (answer, lent)
    }

    /// The pass sees all pushes that were made until now. Nothing is pushed.
    pub fn look(self, pass: &mut SignalPass) -> LentEnd<'a, Pushing>
        requires pass { IsPassOfQueue self.queue pass.old }
        ensures pass { IsPassOfQueue self.entry.queue pass.new }
        ensures queue { result.queue ≡ self.entry.queue }
        ensures count { result.count ≡ self.entry.count }
        ensures looks { Looks pass.old.knows.pass pass.new.knows.pass }
        ensures all { length (pushed (turns pass.new.knows)) ≡ result.count }
        ensures known { KnowsQueue pass.new.knows }
    {
        let LentEnd {
            ring,
            lock,
            end,
            hold,
        } = self;
        let end = look_by(ring, &mut pass.seat, end);
        LentEnd {
            ring,
            lock,
            end,
            hold,
        }
    }
}

impl<'a> LentEnd<'a, Popping> {
    /// Takes the oldest signal, if one waits.
    pub fn pop<R: Wait>(
        self,
        rt: &R,
        pass: &mut SignalPass,
    ) -> (Option<Signal>, LentEnd<'a, Popping>)
        requires pass { IsPassOfQueue self.queue pass.old }
        ensures pass { IsPassOfQueue self.entry.queue pass.new }
        ensures queue { result.1.queue ≡ self.entry.queue }
        ensures pops { PopsSignal pass.old.knows pass.new.knows result.0 }
        ensures counts { CountsPops self.entry.count (count_taken result.0) pass.new.knows result.1.count }
        ensures id { pass.new.knows.pass.id ≡ pass.old.knows.pass.id }
        ensures known { KnowsQueue pass.new.knows }
    {
        let LentEnd {
            ring,
            lock,
            end,
            hold,
        } = self;
        let (answer, end) = pop_by(rt, ring, &mut pass.seat, end);
        let lent = LentEnd {
            ring,
            lock,
            end,
            hold,
        };
        (answer, lent)
    }

    /// The pass sees all pops that were made until now. Nothing is popped.
    pub fn look(self, pass: &mut SignalPass) -> LentEnd<'a, Popping>
        requires pass { IsPassOfQueue self.queue pass.old }
        ensures pass { IsPassOfQueue self.entry.queue pass.new }
        ensures queue { result.queue ≡ self.entry.queue }
        ensures count { result.count ≡ self.entry.count }
        ensures looks { Looks pass.old.knows.pass pass.new.knows.pass }
        ensures all { length (popped (turns pass.new.knows)) ≡ result.count }
        ensures known { KnowsQueue pass.new.knows }
    {
        let LentEnd {
            ring,
            lock,
            end,
            hold,
        } = self;
        let end = look_by(ring, &mut pass.seat, end);
        LentEnd {
            ring,
            lock,
            end,
            hold,
        }
    }
}
