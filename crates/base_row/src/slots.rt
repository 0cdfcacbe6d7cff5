//! Getting a base out of its slot, and putting it back.
ghost use Rattle.std.specs.Prelude.{◌≡◌, ◌+◌, ◌-◌, ◌^◌, ◌%◌, ◌<◌, true, None, Some, [], ◌∷◌, slice_index, MatchOption};
ghost use Rattle.base_row.specs.Plays.{GotBase, Lost, MayMeetLock};
ghost use Rattle.base_row.specs.Rules.{opening_in};
ghost use Rattle.seq_timer.specs.Systems.{BaseContent};

use crate::held::HeldBase;
use crate::slot::BaseSlot;
use crate::steps::{BaseCells, BaseSeat, meet_lock, take};

/// The word at which a base is taken no more.
const LAST: u64 = u64::MAX - 1;

/// Takes the base out of the slot that the seat carries.
pub fn take_out(cells: &BaseCells, seat: &mut BaseSeat, base: u32) -> BaseSlot
    requires same { seat.old.table_id ≡ cells.now.table_id }
    requires full { (x : BaseContent) × (seat.old.me.1 ≡ (base, Some x) ∷ []) }
    ensures same { seat.new.table_id ≡ seat.old.table_id }
    ensures value { seat.old.me.1 ≡ (base, Some result) ∷ [] }
    ensures empty { seat.new.me ≡ (seat.old.me.0, (base, None) ∷ []) }
{
    match seat.slot_mut(cells, base as usize).take() {
        Some(slot) => slot,
        None => unreachable!(),
    }
}

/// Puts a base into the slot that the seat carries.
pub fn put_back(cells: &BaseCells, seat: &mut BaseSeat, base: u32, slot: BaseSlot)
    requires same { seat.old.table_id ≡ cells.now.table_id }
    requires empty { seat.old.me.1 ≡ (base, None) ∷ [] }
    ensures same { seat.new.table_id ≡ seat.old.table_id }
    ensures full { seat.new.me ≡ (seat.old.me.0, (base, Some slot) ∷ []) }
{
    match seat.slot_mut(cells, base as usize).put(slot) {
        Some(_) => unreachable!(),
        None => {}
    }
}

/// Takes a lock whose word was met to be `first`, if it still is.
fn take_free(
    cells: &BaseCells,
    seat: &mut BaseSeat,
    base: u32,
    word: usize,
    first: u64,
) -> Option<HeldBase>
    requires may { MayMeetLock cells.now.table_id (opening_in cells.now.key) seat.old.table_id seat.old.me base word }
    requires empty { seat.old.me.1 ≡ [] }
    requires known { (slice_index seat.old.me.0.met base ≡ first) × (first % 2 ≡ 0) × (first < 2 ^ 64 - 2) }
    ensures same { seat.new.table_id ≡ seat.old.table_id }
    ensures taken { MatchOption result
        (Lost seat.old.me.0.opening base seat.old.me seat.new.me)
        (λ h. GotBase seat.old.me.0.opening base seat.old.me seat.new.me h) }
{
    if take(cells, seat, base, word, first) {
        let slot = take_out(cells, seat, base);
        Some(HeldBase {
            base,
            word: first + 1,
            slot,
        })
    } else {
        None
    }
}

/// Looks at a lock, and takes it if it is free.
pub fn attempt(cells: &BaseCells, seat: &mut BaseSeat, base: u32, word: usize) -> Option<HeldBase>
    requires may { MayMeetLock cells.now.table_id (opening_in cells.now.key) seat.old.table_id seat.old.me base word }
    requires empty { seat.old.me.1 ≡ [] }
    ensures same { seat.new.table_id ≡ seat.old.table_id }
    ensures taken { MatchOption result
        (Lost seat.old.me.0.opening base seat.old.me seat.new.me)
        (λ h. GotBase seat.old.me.0.opening base seat.old.me seat.new.me h) }
{
    let first = meet_lock(cells, seat, base, word);
    if first % 2 == 0 && first < LAST {
        take_free(cells, seat, base, word, first)
    } else {
        None
    }
}
