//! Single steps on a clock's cell, each for a seat whose view the caller knows.
ghost use Rattle.std.specs.Prelude.{◌≡◌, ◌≢◌, true, [], MatchBool};
ghost use Rattle.crossbeam_utils.specs.Seq.{cell_view};
ghost use Rattle.ktime.specs.Clocks.{after_write, IsAccepted};
ghost use Rattle.pass_names.specs.Names.{AnswersFor};
ghost use Rattle.clock_cell.specs.Views.{told_clock_view, joined_clock_view};
ghost use Rattle.clock_cell.specs.Plays.{Loaded, MadeWrite};
ghost use Rattle.clock_cell.specs.Words.{cell_words};

use crate::plays::{Child, ClockRule, Enter, Look, Note, Whole, WritePick};
use crate::view::ClockView;
use crate::words::cell_words;
use crossbeam_utils::atomic::seq_cell::{Pass, RuledSeqCell};
use ktime::{Reading, Write};
use std::sync::Wait;

pub type ClockCell = RuledSeqCell<[u64; 5], ClockView, ClockRule, 5>;

pub type ClockSeat = Pass<[u64; 5], ClockView>;

/// Loads the words. The seat has then seen all writes so far.
pub fn look<R: Wait>(rt: &R, cell: &ClockCell, seat: &mut ClockSeat) -> [u64; 5]
    requires same { seat.old.table_id ≡ cell.now.table.shared.table_id }
    requires live { (cell_view seat.old).pass.id.live ≡ true }
    ensures same { seat.new.table_id ≡ seat.old.table_id }
    ensures looked { Loaded (cell_view seat.old) result (cell_view seat.new) }
{
    cell.load_as::<Look, R>(rt, seat)
}

/// Makes a write, if the words are still those of the reading `seen`.
pub fn enter<K: WritePick, R: Wait>(
    rt: &R,
    cell: &ClockCell,
    seat: &mut ClockSeat,
    seen: &Reading,
    after: &Reading,
    write: Write,
) -> bool
    requires same { seat.old.table_id ≡ cell.now.table.shared.table_id }
    requires live { (cell_view seat.old).pass.id.live ≡ true }
    requires asked { K.write ≡ write }
    requires after { after.now ≡ after_write seen.now write }
    requires accepted { IsAccepted seen.now write }
    ensures same { seat.new.table_id ≡ seat.old.table_id }
    ensures entered { MatchBool result
        (MadeWrite write (cell_view seat.old) (cell_words after.now) (cell_view seat.new))
        ((words : _) × (words ≢ cell_words seen.now) × Loaded (cell_view seat.old) words (cell_view seat.new)) }
{
    cell.compare_exchange_as::<Enter<K>, R>(rt, seat, cell_words(seen), cell_words(after))
        .is_ok()
}

/// Tells a seat all that another has seen.
pub fn tell(cell: &ClockCell, from: &mut ClockSeat, to: &mut ClockSeat)
    requires same { (from.old.table_id ≡ cell.now.table.shared.table_id) × (to.old.table_id ≡ cell.now.table.shared.table_id) }
    ensures same { (from.new.table_id ≡ from.old.table_id) × (to.new.table_id ≡ to.old.table_id) }
    ensures from { cell_view from.new ≡ cell_view from.old }
    ensures to { cell_view to.new ≡ told_clock_view (cell_view to.old) (cell_view from.old) }
{
    let note = cell.split_pass::<Note>(from);
    cell.join_pass::<Note>(to, note);
}

/// The same pass on a new seat, which is known to carry nothing, as a join asks.
fn moved(cell: &ClockCell, mut seat: ClockSeat) -> ClockSeat
    requires same { seat.table_id ≡ cell.now.table.shared.table_id }
    ensures same { result.table_id ≡ seat.table_id }
    ensures view { cell_view result ≡ cell_view seat }
    ensures carried { result.me.1 ≡ [] }
{
    cell.split_pass::<Whole>(&mut seat)
}

/// Takes in a pass's seat.
pub fn absorb(cell: &ClockCell, main: &mut ClockSeat, other: ClockSeat)
    requires same { (main.old.table_id ≡ cell.now.table.shared.table_id) × (other.table_id ≡ cell.now.table.shared.table_id) }
    requires live { ((cell_view main.old).pass.id.live ≡ true) × ((cell_view other).pass.id.live ≡ true) }
    requires answers { AnswersFor (cell_view main.old).pass.id (cell_view other).pass.id }
    ensures same { main.new.table_id ≡ main.old.table_id }
    ensures joined { cell_view main.new ≡ joined_clock_view (cell_view main.old) (cell_view other) }
{
    let other = moved(cell, other);
    cell.join_pass::<Child>(main, other);
}
