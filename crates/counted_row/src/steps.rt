//! Single steps on a row's table, each for a seat whose view the caller knows.
ghost use Rattle.std.specs.Prelude.{◌≡◌, ℕ, length, ◌+◌, ◌^◌, ◌<◌, ◌==◌, true, None, Some, [], ◌∷◌, MatchBool};
ghost use mathlib.Core.Option.{none};
ghost use Rattle.atomic_table.specs.Table.{step, rest};
ghost use Rattle.pass_names.specs.Names.{AnswersFor};
ghost use Rattle.pass_names.specs.Passes.{Adds, GoesOn, entries};
ghost use Rattle.counted_row.specs.Plays.{Looked, Hit, Freed, MayTake, Ready, joined_view};
ghost use Rattle.counted_row.specs.Places.{row_word_at};
ghost use Rattle.counted_row.specs.Rules.{taken_mark};
ghost use Rattle.counted_row.specs.declared.view.Locked.{Locked};
ghost use Rattle.counted_row.specs.Views.{Knows, having_seen, committed, released};

use crate::cell::ValueCell;
use crate::object::Object;
use crate::plays::{CallPick, Check, Child, Enter, Free, Look, Note, RowRule, Take};
use crate::view::View;
use atomic_table::{Seat, Shared};
use std::snapshot::Snapshot;

/// What is added to a value's word while its lock is taken.
pub const TAKEN: u64 = 1 << 63;

pub type Known<O> = View<O, <O as Object>::Call, <O as Object>::Reply>;

pub type Cells<O> = Shared<ValueCell<O>, Known<O>, Snapshot<Vec<O>>, RowRule>;

pub type RowSeat<O> = Seat<ValueCell<O>, Known<O>>;

/// Loads a word. The seat has then seen all histories so far.
pub fn look<O: Object>(cells: &Cells<O>, seat: &mut RowSeat<O>, word: usize) -> u64
    requires same { seat.old.table_id ≡ cells.now.table_id }
    requires word { word < cells.now.table_id.words }
    requires live { seat.old.me.0.pass.id.live ≡ true }
    ensures same { seat.new.table_id ≡ seat.old.table_id }
    ensures looked { Looked O.meaning (step cells.now.table_id.slots word 0 0 none) seat.old.me result seat.new.me }
{
    cells.load::<Look>(seat, word)
}

/// Loads a word, and leaves what the seat has seen as it is.
pub fn check<O: Object>(cells: &Cells<O>, seat: &mut RowSeat<O>, word: usize)
    requires same { seat.old.table_id ≡ cells.now.table_id }
    requires word { word < cells.now.table_id.words }
    requires known { (seat.old.me.0.pass.id.live ≡ true) × (seat.old.me.0.heard ≡ []) }
    ensures same { (seat.new.table_id ≡ seat.old.table_id) × (seat.new.me ≡ seat.old.me) }
    ensures knows { Knows O.meaning seat.old.me.0 }
{
    cells.load::<Check>(seat, word);
}

/// Takes a lock whose word was found to be `stamp`, if it still is.
pub fn take<O: Object>(
    cells: &Cells<O>,
    seat: &mut RowSeat<O>,
    index: usize,
    word: usize,
    stamp: u64,
) -> bool
    requires same { seat.old.table_id ≡ cells.now.table_id }
    requires may { MayTake cells.now.table_id seat.old.me index word }
    requires free { stamp < taken_mark }
    requires seen { stamp ≡ length (entries index seat.old.me.0.pass.seen) }
    ensures same { seat.new.table_id ≡ seat.old.table_id }
    ensures took { MatchBool result
        (Hit O.meaning (step cells.now.table_id.slots word stamp (stamp + taken_mark) none) seat.old.me index seat.new.me)
        ((found : ℕ) × Looked O.meaning (step cells.now.table_id.slots word stamp (stamp + taken_mark) none) seat.old.me found seat.new.me) }
{
    cells.compare_exchange::<Take>(seat, word, stamp, stamp + TAKEN) == stamp
}

/// Adds the call to the history of the held value, and lets its lock go.
pub fn enter<O: Object, K: CallPick>(
    cells: &Cells<O>,
    seat: &mut RowSeat<O>,
    index: usize,
    word: usize,
    stamp: u64,
    call: &O::Call,
)
    requires same { seat.old.table_id ≡ cells.now.table_id }
    requires word { (word ≡ row_word_at index) × (word < cells.now.table_id.words) }
    requires short { stamp < 2 ^ 48 }
    requires asked { K.code ≡ O.Call.row.coded.code call.now }
    requires known { (seat.old.me.0.pass.id.live ≡ true) × (seat.old.me.0.heard ≡ []) }
    requires ready { (x : O) × Ready O.meaning seat.old.me (record { index = index; stamp = stamp; state = x }) call.now }
    ensures same { seat.new.table_id ≡ seat.old.table_id }
    ensures entered { (h : Locked O) → seat.old.me.0.held ≡ Some h → seat.new.me ≡ (committed O.meaning h call.now seat.old.me.0, rest seat.old.me.1) }
    ensures adds { (h : Locked O) → seat.old.me.0.held ≡ Some h → Adds seat.old.me.0.pass seat.new.me.0.pass h.index (record { call = call.now; reply = O.meaning.reply h.state call.now } ∷ []) }
    ensures count { (h : Locked O) → seat.old.me.0.held ≡ Some h → length (entries h.index seat.new.me.0.pass.seen) ≡ h.stamp + 1 }
    ensures knows { Knows O.meaning seat.new.me.0 }
{
    O::counts();
    cells.store::<Enter<K>>(seat, word, stamp + 1)
}

/// Lets the lock of the held value go.
pub fn free<O: Object>(
    cells: &Cells<O>,
    seat: &mut RowSeat<O>,
    index: usize,
    word: usize,
    stamp: u64,
)
    requires same { seat.old.table_id ≡ cells.now.table_id }
    requires word { (word ≡ row_word_at index) × (word < cells.now.table_id.words) }
    requires known { (seat.old.me.0.pass.id.live ≡ true) × (seat.old.me.0.heard ≡ []) }
    requires held { (x : O) × (seat.old.me.0.held ≡ Some (record { index = index; stamp = stamp; state = x })) × (seat.old.me.1 ≡ (index, Some x) ∷ []) }
    ensures same { seat.new.table_id ≡ seat.old.table_id }
    ensures freed { seat.new.me ≡ (released seat.old.me.0, rest seat.old.me.1) }
    ensures count { stamp ≡ length (entries index seat.new.me.0.pass.seen) }
    ensures knows { Knows O.meaning seat.new.me.0 }
{
    cells.store::<Free>(seat, word, stamp)
}

/// Tells a seat all that another has seen.
pub fn tell<O: Object>(cells: &Cells<O>, from: &mut RowSeat<O>, to: &mut RowSeat<O>)
    requires same { (from.old.table_id ≡ cells.now.table_id) × (to.old.table_id ≡ cells.now.table_id) }
    requires words { 0 < cells.now.table_id.words }
    requires known { (to.old.me.0.pass.id.live ≡ true) × (to.old.me.0.heard ≡ []) }
    ensures same { (from.new.table_id ≡ from.old.table_id) × (to.new.table_id ≡ to.old.table_id) }
    ensures from { from.new.me ≡ from.old.me }
    ensures to { to.new.me ≡ (having_seen to.new.me.0.pass.seen to.old.me.0, to.old.me.1) }
    ensures seen { GoesOn to.old.me.0.pass.seen to.new.me.0.pass.seen }
    ensures heard { GoesOn from.old.me.0.pass.seen to.new.me.0.pass.seen }
    ensures knows { Knows O.meaning to.new.me.0 }
{
    let note = cells.split_seat::<Note>(from);
    cells.join_seat::<Note>(to, note);
    look(cells, to, 0);
}

/// Takes in a pass's seat, and sees all histories so far.
pub fn absorb<O: Object>(cells: &Cells<O>, main: &mut RowSeat<O>, other: RowSeat<O>)
    requires same { (main.old.table_id ≡ cells.now.table_id) × (other.table_id ≡ cells.now.table_id) }
    requires words { 0 < cells.now.table_id.words }
    requires main { (main.old.me.0.pass.id.live ≡ true) × (main.old.me.0.heard ≡ []) × (main.old.me.0.held ≡ None) }
    requires other { (other.me.0.pass.id.live ≡ true) × (other.me.0.heard ≡ []) × (other.me.1 ≡ []) }
    requires answers { AnswersFor main.old.me.0.pass.id other.me.0.pass.id }
    ensures same { main.new.table_id ≡ main.old.table_id }
    ensures joined { main.new.me ≡ (having_seen main.new.me.0.pass.seen (joined_view main.old.me.0 other.me.0), main.old.me.1) }
    ensures seen { GoesOn main.old.me.0.pass.seen main.new.me.0.pass.seen }
    ensures heard { GoesOn other.me.0.pass.seen main.new.me.0.pass.seen }
    ensures knows { Knows O.meaning main.new.me.0 }
{
    cells.join_seat::<Child>(main, other);
    look(cells, main, 0);
}
