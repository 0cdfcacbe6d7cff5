//! Single steps on the table, each for a seat whose view the caller knows.
ghost use Rattle.base_row.specs.Places.{counter_at, lock_at, word_at};
ghost use Rattle.std.specs.Prelude.{◌≡◌, ◌==◌, ℕ, ◌+◌, ◌-◌, ◌^◌, ◌%◌, ◌<◌, true, Some, None, [], ◌∷◌, slice_index, length, MatchBool};
ghost use mathlib.Core.Option.{none};
ghost use Rattle.atomic_table.specs.Table.{step};
ghost use Rattle.pass_names.specs.Names.{AnswersFor};
ghost use Rattle.seq_timer.specs.Steps.{after};
ghost use Rattle.base_row.specs.Rings.{counters_in, MayRiseTo};
ghost use Rattle.base_row.specs.Rules.{base_place, number_of, opening_in, standing_number, timer_seen};
ghost use Rattle.seq_timer.specs.Standings.{standing_after};
ghost use Rattle.seq_timer.specs.Systems.{BaseContent};
ghost use Rattle.base_row.specs.declared.view.HeldContent.{HeldContent};
ghost use Rattle.base_row.specs.Plays.{MayEnter, MayEnterShift, EnteredShift, OwnNeeds, EntersAs};
ghost use Rattle.base_row.specs.Plays.{MayMeetLock, Met, TookBase, FoundTaken, LooksOwn, FreesOwn, KnowsBases, RaisedCounter, RoseCounter, entry_in};
ghost use Rattle.base_row.specs.Calls.{LearnsFrom, Absorbs};

use crate::cell::BaseCell;
use crate::plays::{
    About, BaseEventPick, BaseRule, Child, Enter, EventPick, Free, Look, Meet, Note, Raise, Rise,
    Shift, SlotView, Take,
};
use atomic_table::{Seat, Shared};
use seq_timer::{BaseEvent, Event};

pub type BaseCells = Shared<BaseCell, SlotView, About, BaseRule>;

pub type BaseSeat = Seat<BaseCell, SlotView>;

/// Stores a timer's new word, which adds one entry.
pub fn enter<K: EventPick>(
    cells: &BaseCells,
    seat: &mut BaseSeat,
    word: usize,
    timer: u32,
    stamp: u64,
    event: &Event,
)
    requires same { seat.old.table_id ≡ cells.now.table_id }
    requires about { seat.old.me.0.opening ≡ opening_in cells.now.key }
    requires word { (word ≡ word_at cells.now.key.bases timer) × (word < cells.now.table_id.words) }
    requires live { seat.old.me.0.id.live ≡ true }
    requires asked { K.event ≡ event.now }
    requires may { (h : HeldContent BaseContent) × MayEnter (opening_in cells.now.key) seat.old.me.0 h
        (entry_in (opening_in cells.now.key) seat.old.me.0 timer event.now) }
    requires own { OwnNeeds seat.old.me.0 timer (timer_seen (opening_in cells.now.key) seat.old.me.0 timer) event.now }
    requires stamp { stamp ≡ number_of (after (timer_seen (opening_in cells.now.key) seat.old.me.0 timer) event.now) }
    ensures same { seat.new.table_id ≡ seat.old.table_id }
    ensures entered { (h : HeldContent BaseContent) → seat.old.me.0.held ≡ Some h
        → EntersAs (opening_in cells.now.key) h timer event.now seat.old.me seat.new.me }
{
    cells.store::<Enter<K>>(seat, word, stamp)
}

/// Stores a base's new word, which adds one entry.
pub fn enter_shift<K: BaseEventPick>(
    cells: &BaseCells,
    seat: &mut BaseSeat,
    word: usize,
    stamp: u64,
    event: &BaseEvent,
)
    requires same { seat.old.table_id ≡ cells.now.table_id }
    requires about { seat.old.me.0.opening ≡ opening_in cells.now.key }
    requires live { seat.old.me.0.id.live ≡ true }
    requires asked { K.event ≡ event.now }
    requires may { (h : HeldContent BaseContent) × MayEnterShift seat.old.me.0 h event.now
        × (word ≡ word_at cells.now.key.bases (base_place (length cells.now.key.timers.value.items) h.base)) × (word < cells.now.table_id.words)
        × (stamp ≡ standing_number (standing_after h.content.standing event.now)) }
    ensures same { seat.new.table_id ≡ seat.old.table_id }
    ensures shifted { (h : HeldContent BaseContent) → seat.old.me.0.held ≡ Some h
        → EnteredShift (opening_in cells.now.key) h event.now seat.old.me seat.new.me }
{
    cells.store::<Shift<K>>(seat, word, stamp)
}

/// Loads word 0, or a timer's, a base's or a counter's word. The seat has then seen the whole history so far.
pub fn look(cells: &BaseCells, seat: &mut BaseSeat, word: usize) -> u64
    requires same { seat.old.table_id ≡ cells.now.table_id }
    requires about { seat.old.me.0.opening ≡ opening_in cells.now.key }
    requires word { word < cells.now.table_id.words }
    requires live { seat.old.me.0.id.live ≡ true }
    ensures same { seat.new.table_id ≡ seat.old.table_id }
    ensures looked { LooksOwn (step cells.now.table_id.slots word 0 0 none) seat.old.me result seat.new.me }
{
    cells.load::<Look>(seat, word)
}

/// Raises a counter's word to at least `to`.
pub fn raise(cells: &BaseCells, seat: &mut BaseSeat, counter: u32, word: usize, to: u64)
    requires same { seat.old.table_id ≡ cells.now.table_id }
    requires about { seat.old.me.0.opening ≡ opening_in cells.now.key }
    requires word { (counter < counters_in (opening_in cells.now.key)) × (word ≡ counter_at counter) × (word < cells.now.table_id.words) }
    requires may { MayRiseTo (opening_in cells.now.key) counter to seat.old.me.0.seen }
    requires live { seat.old.me.0.id.live ≡ true }
    ensures same { seat.new.table_id ≡ seat.old.table_id }
    ensures raised { RaisedCounter (opening_in cells.now.key) counter to seat.old.me seat.new.me }
{
    cells.fetch_max::<Raise>(seat, word, to);
}

/// Raises a counter's word by one, if it is `from`.
pub fn rise(cells: &BaseCells, seat: &mut BaseSeat, counter: u32, word: usize, from: u64) -> bool
    requires same { seat.old.table_id ≡ cells.now.table_id }
    requires about { seat.old.me.0.opening ≡ opening_in cells.now.key }
    requires word { (counter < cells.now.key.counters) × (word ≡ counter_at counter) × (word < cells.now.table_id.words) }
    requires live { seat.old.me.0.id.live ≡ true }
    requires small { from + 1 < 2 ^ 64 }
    ensures same { seat.new.table_id ≡ seat.old.table_id }
    ensures rose { (found : ℕ) × RoseCounter (opening_in cells.now.key) counter from seat.old.me found seat.new.me × ((found == from) ≡ result) }
{
    cells.compare_exchange::<Rise>(seat, word, from, from + 1) == from
}

/// Loads a base's lock word.
pub fn meet_lock(cells: &BaseCells, seat: &mut BaseSeat, base: u32, word: usize) -> u64
    requires may { MayMeetLock cells.now.table_id (opening_in cells.now.key) seat.old.table_id seat.old.me base word }
    ensures same { seat.new.table_id ≡ seat.old.table_id }
    ensures met { Met (opening_in cells.now.key) base seat.old.me result seat.new.me }
{
    cells.load::<Meet>(seat, word)
}

/// Takes a base's lock, if its word still is as it was met.
pub fn take(cells: &BaseCells, seat: &mut BaseSeat, base: u32, word: usize, first: u64) -> bool
    requires may { MayMeetLock cells.now.table_id (opening_in cells.now.key) seat.old.table_id seat.old.me base word }
    requires empty { seat.old.me.1 ≡ [] }
    requires known { (slice_index seat.old.me.0.met base ≡ first) × (first % 2 ≡ 0) × (first < 2 ^ 64 - 2) }
    ensures same { seat.new.table_id ≡ seat.old.table_id }
    ensures took { MatchBool result
        ((k : ℕ) × (first + 2 ≡ k + k) × TookBase (opening_in cells.now.key) base k (first + 1) seat.old.me seat.new.me)
        ((found : ℕ) × FoundTaken (opening_in cells.now.key) base first seat.old.me found seat.new.me) }
{
    cells.compare_exchange::<Take>(seat, word, first, first + 1) == first
}

/// Lets a base go, whose content is back in the slot that the seat carries.
pub fn free(cells: &BaseCells, seat: &mut BaseSeat, word: usize, stored: u64)
    requires same { seat.old.table_id ≡ cells.now.table_id }
    requires about { seat.old.me.0.opening ≡ opening_in cells.now.key }
    requires live { seat.old.me.0.id.live ≡ true }
    requires held { (h : HeldContent BaseContent) × (seat.old.me.0.held ≡ Some h)
        × (seat.old.me.1 ≡ (h.base, Some h.content) ∷ [])
        × (word ≡ lock_at h.base) × (word < cells.now.table_id.words) × (stored ≡ slice_index seat.old.me.0.met h.base + 1) }
    ensures same { seat.new.table_id ≡ seat.old.table_id }
    ensures freed { FreesOwn (step cells.now.table_id.slots word stored 0 none) seat.old.me stored seat.new.me }
{
    cells.store::<Free>(seat, word, stored)
}

/// Tells a seat all that another has seen and met.
pub fn tell(cells: &BaseCells, from: &mut BaseSeat, to: &mut BaseSeat)
    requires same { (from.old.table_id ≡ cells.now.table_id) × (to.old.table_id ≡ cells.now.table_id) }
    requires about { to.old.me.0.opening ≡ opening_in cells.now.key }
    requires words { 0 < cells.now.table_id.words }
    requires live { to.old.me.0.id.live ≡ true }
    ensures same { (from.new.table_id ≡ from.old.table_id) × (to.new.table_id ≡ to.old.table_id) }
    ensures from { from.new.me ≡ from.old.me }
    ensures to { to.new.me.1 ≡ to.old.me.1 }
    ensures hears { LearnsFrom to.old.me.0 from.old.me.0 to.new.me.0 }
    ensures knows { KnowsBases (opening_in cells.now.key) to.new.me.0 }
{
    let note = cells.split_seat::<Note>(from);
    cells.join_seat::<Note>(to, note);
    look(cells, to, 0);
}

/// Takes in a pass's seat, and sees the whole history so far.
pub fn absorb(cells: &BaseCells, main: &mut BaseSeat, other: BaseSeat)
    requires same { (main.old.table_id ≡ cells.now.table_id) × (other.table_id ≡ cells.now.table_id) }
    requires about { main.old.me.0.opening ≡ opening_in cells.now.key }
    requires words { 0 < cells.now.table_id.words }
    requires main { (main.old.me.0.id.live ≡ true) × (main.old.me.0.held ≡ None) }
    requires other { (other.me.0.id.live ≡ true) × (other.me.0.held ≡ None) × (other.me.0.carry ≡ None) × (other.me.1 ≡ []) }
    requires answers { AnswersFor main.old.me.0.id other.me.0.id }
    ensures same { main.new.table_id ≡ main.old.table_id }
    ensures slots { main.new.me.1 ≡ main.old.me.1 }
    ensures retires { Absorbs main.old.me.0 other.me.0 main.new.me.0 }
    ensures knows { KnowsBases (opening_in cells.now.key) main.new.me.0 }
{
    cells.join_seat::<Child>(main, other);
    look(cells, main, 0);
}
