//! A row of values, each behind a lock of its own.
ghost use Rattle.std.specs.Prelude.{◌≡◌, ℕ, ◌+◌, ◌^◌, ◌<◌, Some, None, [], ◌∷◌, ◌++◌, length, All, IfOk, MatchOption};
ghost use Rattle.pass_names.specs.Names.{AnswersFor, IsLast};
ghost use Rattle.pass_names.specs.Passes.{Adds, Looks, Retires, Meets, HasEach, entries};
ghost use Rattle.counted_row.specs.Places.{row_word_at};
ghost use Rattle.counted_row.specs.Views.{IsPassOfRow, Sees, Locks, Knows, HasClaimFor, claims_after, first_view, committed, released, split_view, new_view};

use crate::cell::ValueCell;
use crate::handles::{Held, RowPass};
use crate::object::Object;
use crate::parts::{filled, zeros};
use crate::plays::{Child, RowRule};
use crate::slots::{attempt, put_back};
use crate::steps::{Known, TAKEN, absorb, check, enter, free, look, tell};
use atomic_table::{Refused, Table};
use pass_names::Retries;
use std::alloc::{AllocError, Global};
use std::marker::{Brand, Model};
use std::snapshot::Snapshot;
use std::sync::Wait;

/// Values that many threads share. A call on a value is made under the value's lock, and each value
/// has one history of calls. Value i has word 16 i + 16 and slot i of a table; all other words stay 0.
#[derive(Drop)]
pub struct Row<O: Object> {
    table: Table<ValueCell<O>, Known<O>, Snapshot<Vec<O>>, RowRule, Global>,
}

impl<O: Object> Model for Row<O> {
    ghost use Rattle.std.specs.Prelude.{◌≡◌, length};
    ghost use Rattle.counted_row.specs.Places.{row_word_at};
    ghost use Rattle.counted_row.specs.Views.{RowOf};

    ghost Value = { RowOf O };

    ghost view = { λ r. record { id = r.table.shared.table_id; made = r.table.shared.key.value.items } };

    ghost invariant = { λ r. (r.table.shared.table_id.words ≡ row_word_at (length r.table.shared.key.value.items)) × (r.table.shared.table_id.slots ≡ length r.table.shared.key.value.items) };
}

impl<O: Object> Row<O> {
    /// How many values there are.
    pub fn len(&self) -> usize
        ensures { result ≡ length self.now.made }
    {
        self.table.slot_count()
    }

    /// A row of these values, and the first pass. Where there is no memory, the values are dropped.
    pub fn make(alloc: Global, values: Vec<O>) -> Result<(Row<O>, RowPass<O>), AllocError>
        requires unclaimed { All (λ x. O.meaning.claims x ≡ []) values.items }
        ensures made { IfOk result (λ r. r.0.made ≡ values.items) }
        ensures row { IfOk result (λ r. IsPassOfRow r.0 r.1) }
        ensures first { IfOk result (λ r. r.1.knows ≡ first_view values.items) }
        ensures known { IfOk result (λ r. Knows O.meaning r.1.knows) }
    {
        let about = Snapshot::of(&values);
        let words = zeros(alloc, values.len())?;
        let slots = filled(alloc, values)?;
        match Table::new(alloc, words.as_slice(), slots, &about) {
            Ok((table, seat)) => Ok((Row { table }, RowPass { seat })),
            Err(Refused { slots: _ }) => Err(AllocError),
        }
    }

    /// Which word a value has.
    fn word_of(&self, index: usize) -> usize
        requires { index < length self.now.made }
        ensures { result ≡ row_word_at index }
    {
        prove!(index < self.table.word_count() / 16);
        16 * index + 16
    }

    /// Waits until the lock of a value is free, and takes it.
    pub fn lock<R: Wait>(&self, rt: &R, pass: &mut RowPass<O>, index: usize) -> Held<O>
        requires row { IsPassOfRow self.now pass.old }
        requires within { index < length self.now.made }
        requires idle { pass.old.knows.held ≡ None }
        ensures row { IsPassOfRow self.now pass.new }
        ensures locks { Locks O.meaning pass.old pass.new index result }
    {
        for _ in Retries::new(rt) {
            if let Some(held) = self.attempt(pass, index) {
                return held;
            }
        }
        unreachable!()
    }

    fn attempt(&self, pass: &mut RowPass<O>, index: usize) -> Option<Held<O>>
        requires row { IsPassOfRow self.now pass.old }
        requires within { index < length self.now.made }
        requires idle { pass.old.knows.held ≡ None }
        ensures taken { MatchOption result (Sees pass.old pass.new) (λ h. Locks O.meaning pass.old pass.new index h) }
    {
        let word = self.word_of(index);
        attempt(&self.table.shared, &mut pass.seat, index, word)
    }

    /// Makes a call on a held value, and lets its lock go. It answers the number of the call in the
    /// value's history, and its reply.
    pub fn commit(&self, pass: &mut RowPass<O>, held: Held<O>, call: O::Call) -> (u64, O::Reply)
        requires row { IsPassOfRow self.now pass.old }
        requires held { pass.old.knows.held ≡ Some held }
        requires short { held.stamp < 2 ^ 48 }
        requires may { O.meaning.may held.state call }
        requires claim { HasClaimFor pass.old.knows.claims held.index (O.meaning.effect held.state call) }
        ensures number { result.0 ≡ held.stamp + 1 }
        ensures count { result.0 ≡ length (entries held.index pass.new.knows.pass.seen) }
        ensures reply { result.1 ≡ O.meaning.reply held.state call }
        ensures adds { Adds pass.old.knows.pass pass.new.knows.pass held.index (record { call = call; reply = O.meaning.reply held.state call } ∷ []) }
        ensures claims { pass.new.knows.claims ≡ claims_after pass.old.knows.claims held.index (O.meaning.effect held.state call) }
        ensures row { IsPassOfRow self.now pass.new }
        ensures idle { pass.new.knows.held ≡ None }

        // Nothing else is other than before.
        ensures knows { pass.new.knows ≡ committed O.meaning held call pass.old.knows }
        ensures known { Knows O.meaning pass.new.knows }
    {
        let Held {
            index,
            stamp,
            mut object,
        } = held;
        let reply = object.apply(&call);
        let cells = &self.table.shared;
        put_back(cells, &mut pass.seat, index, object);
        let word = self.word_of(index);
        enter::<O, Brand>(cells, &mut pass.seat, index, word, stamp, &call);
        (stamp + 1, reply)
    }

    /// Lets the lock of a held value go, and answers how many calls were made on the value.
    pub fn release(&self, pass: &mut RowPass<O>, held: Held<O>) -> u64
        requires row { IsPassOfRow self.now pass.old }
        requires held { pass.old.knows.held ≡ Some held }
        ensures stamp { result ≡ held.stamp }
        ensures count { result ≡ length (entries held.index pass.new.knows.pass.seen) }
        ensures row { IsPassOfRow self.now pass.new }
        ensures idle { pass.new.knows.held ≡ None }

        // Nothing else is other than before.
        ensures knows { pass.new.knows ≡ released pass.old.knows }
        ensures known { Knows O.meaning pass.new.knows }
    {
        let Held {
            index,
            stamp,
            object,
        } = held;
        let cells = &self.table.shared;
        put_back(cells, &mut pass.seat, index, object);
        let word = self.word_of(index);
        free(cells, &mut pass.seat, index, word, stamp);
        stamp
    }

    /// How many calls were made on a value so far. It waits for nobody.
    pub fn peek_stamp(&self, pass: &mut RowPass<O>, index: usize) -> u64
        requires row { IsPassOfRow self.now pass.old }
        requires within { index < length self.now.made }
        ensures row { IsPassOfRow self.now pass.new }
        ensures stamp { result ≡ length (entries index pass.new.knows.pass.seen) }
        ensures sees { Sees pass.old pass.new }
        ensures known { Knows O.meaning pass.new.knows }
    {
        let word = self.word_of(index);
        look(&self.table.shared, &mut pass.seat, word) % TAKEN
    }

    /// Makes one more pass, which has seen as much. It takes no memory.
    pub fn split(&self, pass: &mut RowPass<O>) -> RowPass<O>
        requires row { IsPassOfRow self.now pass.old }
        ensures row { IsPassOfRow self.now pass.new × IsPassOfRow self.now result }
        ensures splitter { pass.new.knows ≡ split_view pass.old.knows }
        ensures new { result.knows ≡ new_view pass.old.knows }
        ensures answers { AnswersFor pass.new.knows.pass.id result.knows.pass.id }
        ensures known { Knows O.meaning pass.new.knows × Knows O.meaning result.knows }
    {
        check(&self.table.shared, &mut pass.seat, 0);
        RowPass {
            seat: self.table.shared.split_seat::<Child>(&mut pass.seat),
        }
    }

    /// Two passes tell each other what they have seen. It takes no memory.
    pub fn meet(&self, a: &mut RowPass<O>, b: &mut RowPass<O>)
        requires row { IsPassOfRow self.now a.old × IsPassOfRow self.now b.old }
        ensures row { IsPassOfRow self.now a.new × IsPassOfRow self.now b.new }
        ensures meets { Meets a.old.knows.pass b.old.knows.pass a.new.knows.pass b.new.knows.pass }
        ensures first { Sees a.old a.new }
        ensures second { Sees b.old b.new }
        ensures known { Knows O.meaning a.new.knows × Knows O.meaning b.new.knows }
    {
        let cells = &self.table.shared;
        tell(cells, &mut a.seat, &mut b.seat);
        tell(cells, &mut b.seat, &mut a.seat);
    }

    /// A pass takes in another, which was split off it, or off one that it took in.
    pub fn join(&self, main: &mut RowPass<O>, other: RowPass<O>)
        requires row { IsPassOfRow self.now main.old × IsPassOfRow self.now other }
        requires idle { (main.old.knows.held ≡ None) × (other.knows.held ≡ None) }
        requires answers { AnswersFor main.old.knows.pass.id other.knows.pass.id }
        ensures row { IsPassOfRow self.now main.new }
        ensures retires { Retires main.old.knows.pass other.knows.pass main.new.knows.pass }
        ensures claims { main.new.knows.claims ≡ main.old.knows.claims ++ other.knows.claims }
        ensures idle { main.new.knows.held ≡ None }
        ensures known { Knows O.meaning main.new.knows }
    {
        absorb(&self.table.shared, &mut main.seat, other.into_seat());
    }

    /// Ends a row with its last pass, which has no claims. Its values are dropped.
    pub fn close(self, pass: RowPass<O>)
        requires row { IsPassOfRow self pass }
        requires last { IsLast pass.knows.pass.id }
        requires idle { pass.knows.held ≡ None }
        requires unclaimed { pass.knows.claims ≡ [] }

        // All calls on all values are the pass's own, each once, and it has seen all histories whole.
        ensures all { HasEach pass.knows.pass.seen pass.knows.pass.mine }
        ensures known { Knows O.meaning pass.knows }
    {
        let mut seat = pass.into_seat();
        check(&self.table.shared, &mut seat, 0);
        drop(seat);
        drop(self);
    }
}
