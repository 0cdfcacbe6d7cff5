//! What a caller holds: a pass, and a value whose lock it has.
ghost use Rattle.std.specs.Prelude.{◌≡◌};
ghost use Rattle.counted_row.specs.Plays.{IsRestingSeat, slots_of};

use crate::object::Object;
use crate::steps::RowSeat;
use std::marker::Model;

/// The right to call a row's values, with what its holder knows of their histories. It has no bytes.
/// It can't be dropped: `Row::join` gives it to another pass, and `Row::close` ends the last one.
pub struct RowPass<O: Object> {
    pub(crate) seat: RowSeat<O>,
}

impl<O: Object> Model for RowPass<O> {
    ghost use Rattle.counted_row.specs.Views.{PassOfRow};
    ghost use Rattle.counted_row.specs.Plays.{IsRestingSeat};

    ghost Value = { PassOfRow O O.Call O.Reply };

    ghost view = { λ p. record { row = p.seat.table_id; knows = p.seat.me.0 } };

    ghost invariant = { λ p. IsRestingSeat p.seat.table_id.slots p.seat.me };
}

impl<O: Object> RowPass<O> {
    pub(crate) fn into_seat(self) -> RowSeat<O>
        ensures row { result.table_id ≡ self.row }
        ensures knows { result.me ≡ (self.knows, slots_of self.knows.held) }
        ensures known { IsRestingSeat result.table_id.slots result.me }
    {
        let RowPass { seat } = self;
        seat
    }
}

/// A value whose lock a pass holds. It can't be dropped: `Row::commit` or `Row::release` takes it.
pub struct Held<O: Object> {
    pub(crate) index: usize,
    pub(crate) stamp: u64,
    pub(crate) object: O,
}

impl<O: Object> Model for Held<O> {
    ghost use Rattle.counted_row.specs.declared.view.Locked.{Locked};

    ghost Value = { Locked O };

    ghost view = { λ h. record { index = h.index; stamp = h.stamp; state = h.object } };
}

impl<O: Object> Held<O> {
    /// The value as it is now.
    pub fn state(&self) -> &O
        ensures { result.now ≡ self.now.state }
    {
        &self.object
    }

    /// How many calls were made on the value.
    pub fn stamp(&self) -> u64
        ensures { result ≡ self.now.stamp }
    {
        self.stamp
    }

    /// Which value it is.
    pub fn index(&self) -> usize
        ensures { result ≡ self.now.index }
    {
        self.index
    }
}
