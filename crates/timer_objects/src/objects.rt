//! Objects that many threads share, and what each call does at their row.
ghost use Rattle.std.specs.Prelude.{◌≡◌, ◌≤◌, ◌<◌, ◌+◌, ◌-◌, ◌^◌, [], ◌∷◌, ◌++◌, Some, None, IsSome, length, min, IfOk, MatchBool};
ghost use Rattle.pass_names.specs.Names.{AnswersFor, IsLast};
ghost use Rattle.pass_names.specs.Passes.{Begins, HasEach, Meets, Retires};
ghost use Rattle.signal_queue.specs.Rules.{turns};
ghost use Rattle.signal_queue.specs.Turns.{popped, pushed};
ghost use Rattle.signal_queue.specs.Views.{KnowsQueue, first_queue_view};
ghost use Rattle.timer_objects.specs.Signals.{IsSignalPass};
ghost use Rattle.timer_setting.specs.Settimes.{most_object_entries};
ghost use Rattle.counted_row.specs.Views.{IsPassOfRow, Locks, first_view, new_view, released, split_view};
ghost use Rattle.timer_objects.specs.BlockingReads.{descriptors_below};
ghost use Rattle.timer_objects.specs.Meaning.{object_meaning, opened_objects};
ghost use Rattle.timer_objects.specs.Known.{EntersObjectCall, HoldsObject, IsObjectsPass, MayEnterCall, decl_at, receipt_of, row_of, seen_of};

use crate::log::{ObjectLog, note};
use crate::object::{Decl, Kind, Object};
use crate::readers::{Bells, Reader, Rung, RungBelow};
use counted_row::{Held, Row, RowPass};
use signal_queue::{SignalPass, Signals};
use std::alloc::{AllocError, Global};
use std::marker::Model;
use std::sync::Wait;
use timer_setting::{ObjectCall, ObjectReply};

/// POSIX timers, timer descriptors, sleepers and timers by themselves, each over the timer of the same number.
#[derive(Drop)]
pub struct Objects {
    row: Row<Object>,
    decls: Vec<Decl>,
    limit: u64,
    bells: Bells,
    signals: Option<Signals>,
}

impl Model for Objects {
    ghost use Rattle.std.specs.Prelude.{◌≡◌, ◌≤◌, ◌<◌, length};
    ghost use Rattle.timer_setting.specs.Settimes.{most_object_entries};
    ghost use Rattle.timer_objects.specs.Meaning.{opened_objects};
    ghost use Rattle.timer_objects.specs.Known.{ObjectsOf};

    ghost Value = { ObjectsOf };

    ghost view = { λ o. record { id = o.row.id; decls = o.decls.items; limit = o.limit; queue = o.signals } };

    ghost invariant = { λ o. (o.row.made ≡ opened_objects o.decls.items o.limit) × (0 < o.limit) × (o.limit ≤ most_object_entries) };
}

impl Objects {
    /// Objects of these declarations, and the first pass. At `max_events` entries an object's history is full. It alone takes memory, for all
    /// calls.
    pub fn make(
        alloc: Global,
        decls: &[Decl],
        max_events: u64,
    ) -> Result<(Objects, RowPass<Object>), AllocError>
        requires some { 0 < max_events }
        requires few { max_events ≤ most_object_entries }
        ensures made { IfOk result (λ r. (r.0.decls ≡ decls.now) × (r.0.limit ≡ max_events) × (r.0.queue ≡ None)) }
        ensures pass { IfOk result (λ r. IsObjectsPass r.0 r.1) }
        ensures first { IfOk result (λ r. r.1.knows ≡ first_view (opened_objects decls.now max_events)) }
    {
        Objects::with_bells(alloc, decls, max_events, Bells::none(alloc))
    }

    /// The same, and a reader for each descriptor, in the order of their numbers: for who calls `read_wait`.
    pub fn make_blocking(
        alloc: Global,
        decls: &[Decl],
        max_events: u64,
    ) -> Result<(Objects, RowPass<Object>, Vec<Reader>), AllocError>
        requires some { 0 < max_events }
        requires few { max_events ≤ most_object_entries }
        requires numbers { length decls.now ≤ 2 ^ 32 }
        ensures made { IfOk result (λ r. (r.0.decls ≡ decls.now) × (r.0.limit ≡ max_events) × (r.0.queue ≡ None)) }
        ensures pass { IfOk result (λ r. IsObjectsPass r.0 r.1) }
        ensures first { IfOk result (λ r. r.1.knows ≡ first_view (opened_objects decls.now max_events)) }
        ensures readers { IfOk result (λ r. r.2.items ≡ descriptors_below decls.now (length decls.now)) }
    {
        let (bells, readers) = Bells::of_descriptors(alloc, decls)?;
        let (objects, pass) = Objects::with_bells(alloc, decls, max_events, bells)?;
        Ok((objects, pass, readers))
    }

    /// Objects as `make` makes them, and a queue of at most so many signals, with its first pass: for who has queued timers. Their signals go there where
    /// their functions are run by a handler that `QueuedFiring::make` gives. Pushes and pops have places among the entries of timers that
    /// `Timers::make_ringed` makes with one ring of just this room.
    pub fn make_queued(
        alloc: Global,
        decls: &[Decl],
        max_events: u64,
        room: usize,
    ) -> Result<(Objects, RowPass<Object>, SignalPass), AllocError>
        requires some { 0 < max_events }
        requires few { max_events ≤ most_object_entries }
        requires room { 0 < room }
        ensures made { IfOk result (λ r. (r.0.decls ≡ decls.now) × (r.0.limit ≡ max_events)) }
        ensures queue { IfOk result (λ r. IsSignalPass r.0 r.2 × (r.2.knows.room ≡ room)) }
        ensures known { IfOk result (λ r. KnowsQueue r.2.knows) }
        ensures pass { IfOk result (λ r. IsObjectsPass r.0 r.1) }
        ensures first { IfOk result (λ r. (r.1.knows ≡ first_view (opened_objects decls.now max_events)) × (r.2.knows.pass ≡ first_queue_view.pass)) }
    {
        let (mut objects, pass) = Objects::make(alloc, decls, max_events)?;
        match Signals::make(alloc, room) {
            Ok((signals, signal_pass)) => {
                objects.signals = Some(signals);
                Ok((objects, pass, signal_pass))
            }
            Err(AllocError) => {
                objects.close(pass);
                Err(AllocError)
            }
        }
    }

    /// Objects of these declarations with these bells, and the first pass.
    fn with_bells(
        alloc: Global,
        decls: &[Decl],
        max_events: u64,
        bells: Bells,
    ) -> Result<(Objects, RowPass<Object>), AllocError>
        requires some { 0 < max_events }
        requires few { max_events ≤ most_object_entries }
        ensures made { IfOk result (λ r. (r.0.decls ≡ decls.now) × (r.0.limit ≡ max_events) × (r.0.queue ≡ None)) }
        ensures pass { IfOk result (λ r. IsObjectsPass r.0 r.1) }
        ensures first { IfOk result (λ r. r.1.knows ≡ first_view (opened_objects decls.now max_events)) }
    {
        let mut kept = Vec::new(alloc);
        kept.extend_from_slice(decls)?;
        let (row, pass) = Row::make(alloc, opened(alloc, decls, max_events)?)?;
        let objects = Objects {
            row,
            decls: kept,
            limit: max_events,
            bells,
            signals: None,
        };
        Ok((objects, pass))
    }

    /// Tells every reader that the clock was set: who makes a write of it calls this afterwards. It wakes each, of every descriptor that a call can be made
    /// of, and waits for nobody.
    pub fn clock_was_set<R: Wait>(&self, _rt: &R) -> RungBelow
        ensures all { result ≡ min (length self.now.decls) (2 ^ 32 - 1) }
    {
        let objects = u32::try_from(self.len()).unwrap_or(u32::MAX);
        let mut rung = RungBelow::none();
        for id in 0..objects {
            rung = rung.and(self.ring(id));
        }
        rung
    }

    /// Wakes the reader of a descriptor, if it has one.
    pub(crate) fn ring(&self, id: u32) -> Rung
        ensures { result ≡ id }
    {
        self.bells.ring(id)
    }

    /// The queue of signals of objects that `make_queued` made: who splits its pass calls it. A signal that a caller puts there itself is taken for that of
    /// its timer's expiry where that has the number. Where the timers have a ring for the queue, push and pop by `ordered_signals` alone: after a plain push
    /// or pop later ones may wait for ever, an expiry run with its object locked.
    pub fn signals(&self) -> &Signals
        requires some { IsSome self.now.queue }
        ensures { Some result.now ≡ self.now.queue }
    {
        match &self.signals {
            Some(signals) => signals,
            None => unreachable!(),
        }
    }

    /// What an object was declared with.
    pub fn decl(&self, id: u32) -> Decl
        requires within { id < length self.now.decls }
        ensures { result ≡ decl_at self.now id }
    {
        self.decls[id as usize]
    }

    /// Its kind.
    pub fn kind(&self, id: u32) -> Kind
        requires within { id < length self.now.decls }
        ensures { result ≡ (decl_at self.now id).kind }
    {
        self.decl(id).kind
    }

    /// How many objects there are.
    pub fn len(&self) -> usize
        ensures { result ≡ length self.now.decls }
    {
        self.decls.len()
    }

    /// Waits until the lock of an object is free, and takes it.
    pub(crate) fn lock<R: Wait>(&self, rt: &R, pass: &mut RowPass<Object>, id: u32) -> Held<Object>
        requires row { IsPassOfRow (row_of self.now) pass.old }
        requires idle { pass.old.knows.held ≡ None }
        requires within { id < length self.now.decls }
        ensures row { IsPassOfRow (row_of self.now) pass.new }
        ensures locks { Locks object_meaning pass.old pass.new id result }
        ensures holds { HoldsObject self.now result }
    {
        self.row.lock(rt, pass, id as usize)
    }

    /// Whether the history of a held object is full.
    pub(crate) fn is_full(&self, held: &Held<Object>) -> bool
        ensures { MatchBool result (self.now.limit ≤ held.now.stamp) (held.now.stamp < self.now.limit) }
    {
        held.stamp() >= self.limit
    }

    /// Makes a call on a held object, notes the receipt, and lets the object's lock go.
    pub(crate) fn enter(
        &self,
        pass: &mut RowPass<Object>,
        held: Held<Object>,
        log: &mut ObjectLog,
        id: u32,
        call: &ObjectCall,
    ) -> ObjectReply
        requires may { MayEnterCall self.now pass.old held id call.now }
        requires room { 0 < log.old.spare }
        ensures pass { IsObjectsPass self.now pass.new }
        ensures enters { EntersObjectCall pass.old pass.new held call.now result }
        ensures receipt { log.new.receipts ≡ log.old.receipts ++ receipt_of held call.now ∷ [] }
        ensures spare { log.new.spare + 1 ≡ log.old.spare }
    {
        let (number, reply) = self.row.commit(pass, held, *call);
        note(log, id, number, *call, reply);
        reply
    }

    /// Lets the lock of a held object go, and answers how many entries the object's history has.
    pub(crate) fn release(&self, pass: &mut RowPass<Object>, held: Held<Object>) -> u64
        requires row { IsPassOfRow (row_of self.now) pass.old }
        requires unclaimed { pass.old.knows.claims ≡ [] }
        requires held { pass.old.knows.held ≡ Some held }
        ensures pass { IsObjectsPass self.now pass.new }
        ensures knows { pass.new.knows ≡ released pass.old.knows }
        ensures stamp { result ≡ held.stamp }
        ensures count { result ≡ length (seen_of pass.new held.index) }
    {
        self.row.release(pass, held)
    }

    /// Makes one more pass, which has seen as much.
    pub fn split(&self, pass: &mut RowPass<Object>) -> RowPass<Object>
        requires pass { IsObjectsPass self.now pass.old }
        ensures pass { IsObjectsPass self.now pass.new × IsObjectsPass self.now result }
        ensures splitter { pass.new.knows ≡ split_view pass.old.knows }
        ensures new { result.knows ≡ new_view pass.old.knows }
    {
        self.row.split(pass)
    }

    /// Two passes tell each other what they have seen.
    pub fn meet(&self, a: &mut RowPass<Object>, b: &mut RowPass<Object>)
        requires pass { IsObjectsPass self.now a.old × IsObjectsPass self.now b.old }
        ensures pass { IsObjectsPass self.now a.new × IsObjectsPass self.now b.new }
        ensures meets { Meets a.old.knows.pass b.old.knows.pass a.new.knows.pass b.new.knows.pass }
    {
        self.row.meet(a, b);
    }

    /// A pass takes in another, which was split off it, or off one that it took in.
    pub fn join(&self, main: &mut RowPass<Object>, other: RowPass<Object>)
        requires pass { IsObjectsPass self.now main.old × IsObjectsPass self.now other }
        requires answers { AnswersFor main.old.knows.pass.id other.knows.pass.id }
        ensures pass { IsObjectsPass self.now main.new }
        ensures retires { Retires main.old.knows.pass other.knows.pass main.new.knows.pass }
    {
        self.row.join(main, other);
    }

    /// Ends objects with their last pass; those that have a queue, whose passes nothing else takes, by `close_queued`.
    pub fn close(self, pass: RowPass<Object>)
        requires pass { IsObjectsPass self pass }
        requires last { IsLast pass.knows.pass.id }

        // All entries of all objects are the pass's own, each once, and it has seen all histories whole.
        ensures all { HasEach pass.knows.pass.seen pass.knows.pass.mine }
    {
        let Objects {
            row,
            decls: _,
            limit: _,
            bells: _,
            signals: _,
        } = self;
        row.close(pass);
    }

    /// Ends objects that have a queue with the last passes of both.
    pub fn close_queued(self, pass: RowPass<Object>, signal_pass: SignalPass)
        requires pass { IsObjectsPass self pass }
        requires queue { IsSignalPass self signal_pass }
        requires last { IsLast pass.knows.pass.id × IsLast signal_pass.knows.pass.id }

        // All entries of all objects are the pass's own, each once, and it has seen all histories whole; and so are all turns of the queue.
        ensures all { HasEach pass.knows.pass.seen pass.knows.pass.mine }
        ensures turns { HasEach signal_pass.knows.pass.seen signal_pass.knows.pass.mine }
        ensures known { KnowsQueue signal_pass.knows }
        ensures popped { Begins (popped (turns signal_pass.knows)) (pushed (turns signal_pass.knows)) }
    {
        let Objects {
            row,
            decls: _,
            limit: _,
            bells: _,
            signals,
        } = self;
        row.close(pass);
        match signals {
            Some(signals) => signals.close(signal_pass),
            None => unreachable!(),
        }
    }
}

/// These objects as they are at first.
fn opened(alloc: Global, decls: &[Decl], limit: u64) -> Result<Vec<Object>, AllocError>
    requires some { 0 < limit }
    requires few { limit ≤ most_object_entries }
    ensures { IfOk result (λ objects. objects.items ≡ opened_objects decls.now limit) }
{
    decls
        .iter()
        .map(|decl| Object::make(*decl, limit))
        .collect(alloc)
}
