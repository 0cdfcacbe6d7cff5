//! Getting a value out of its slot, and putting it back.
ghost use Rattle.std.specs.Prelude.{◌≡◌, ◌+◌, ◌<◌, true, None, Some, [], ◌∷◌, MatchOption, length};
ghost use Rattle.atomic_table.specs.Table.{rest};
ghost use Rattle.pass_names.specs.Passes.{entries};
ghost use Rattle.counted_row.specs.Plays.{HasLooked, Caught, MayTake};
ghost use Rattle.counted_row.specs.Rules.{taken_mark};

use crate::handles::Held;
use crate::object::Object;
use crate::steps::{Cells, RowSeat, TAKEN, look, take};

/// Takes the value out of the slot that the seat carries.
pub fn take_out<O: Object>(cells: &Cells<O>, seat: &mut RowSeat<O>, index: usize) -> O
    requires same { seat.old.table_id ≡ cells.now.table_id }
    requires full { (x : O) × (seat.old.me.1 ≡ (index, Some x) ∷ []) }
    ensures same { seat.new.table_id ≡ seat.old.table_id }
    ensures value { seat.old.me.1 ≡ (index, Some result) ∷ [] }
    ensures empty { seat.new.me ≡ (seat.old.me.0, (index, None) ∷ []) }
{
    match seat.slot_mut(cells, index).take() {
        Some(object) => object,
        None => unreachable!(),
    }
}

/// Puts a value into the slot that the seat carries.
pub fn put_back<O: Object>(cells: &Cells<O>, seat: &mut RowSeat<O>, index: usize, object: O)
    requires same { seat.old.table_id ≡ cells.now.table_id }
    requires empty { seat.old.me.1 ≡ (index, None) ∷ [] }
    ensures same { seat.new.table_id ≡ seat.old.table_id }
    ensures full { seat.new.me ≡ (seat.old.me.0, (index, Some object) ∷ []) }
{
    seat.slot_mut(cells, index).put(object);
}

/// Takes the lock of a value whose word was found to be `stamp`, if it still is.
fn take_free<O: Object>(
    cells: &Cells<O>,
    seat: &mut RowSeat<O>,
    index: usize,
    word: usize,
    stamp: u64,
) -> Option<Held<O>>
    requires same { seat.old.table_id ≡ cells.now.table_id }
    requires may { MayTake cells.now.table_id seat.old.me index word }
    requires free { stamp < taken_mark }
    requires seen { stamp ≡ length (entries index seat.old.me.0.pass.seen) }
    ensures same { seat.new.table_id ≡ seat.old.table_id }
    ensures taken { MatchOption result (HasLooked O.meaning seat.old.me seat.new.me) (λ h. Caught O.meaning seat.old.me index seat.new.me h) }
{
    if take(cells, seat, index, word, stamp) {
        let object = take_out(cells, seat, index);
        Some(Held {
            index,
            stamp,
            object,
        })
    } else {
        None
    }
}

/// Looks at a lock, and takes it if it is free.
pub fn attempt<O: Object>(
    cells: &Cells<O>,
    seat: &mut RowSeat<O>,
    index: usize,
    word: usize,
) -> Option<Held<O>>
    requires same { seat.old.table_id ≡ cells.now.table_id }
    requires may { MayTake cells.now.table_id seat.old.me index word }
    ensures same { seat.new.table_id ≡ seat.old.table_id }
    ensures taken { MatchOption result (HasLooked O.meaning seat.old.me seat.new.me) (λ h. Caught O.meaning seat.old.me index seat.new.me h) }
{
    let found = look(cells, seat, word);
    if found < TAKEN {
        take_free(cells, seat, index, word, found)
    } else {
        None
    }
}
