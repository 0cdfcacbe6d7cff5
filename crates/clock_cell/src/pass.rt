//! What a caller of the clock holds.
ghost use Rattle.std.specs.Prelude.{◌≡◌};
ghost use Rattle.crossbeam_utils.specs.Seq.{cell_view};
ghost use Rattle.clock_cell.specs.Plays.{IsRestingView};

use crate::steps::ClockSeat;
use std::marker::Model;

/// The right to read and write a clock, with what its holder knows of the clock's writes. It has no
/// bytes. It can't be dropped: `SharedClock::join` gives it to another pass, and `SharedClock::close`
/// ends the last one.
pub struct ClockPass {
    pub(crate) seat: ClockSeat,
}

impl Model for ClockPass {
    ghost use Rattle.crossbeam_utils.specs.Seq.{cell_view};
    ghost use Rattle.clock_cell.specs.Views.{PassOfClock};
    ghost use Rattle.clock_cell.specs.Plays.{IsRestingView};

    ghost Value = { PassOfClock };

    ghost view = { λ p. record { clock = p.seat.table_id; knows = cell_view p.seat } };

    ghost invariant = { λ p. IsRestingView (cell_view p.seat) };
}

impl ClockPass {
    pub(crate) fn into_seat(self) -> ClockSeat
        ensures clock { result.table_id ≡ self.clock }
        ensures knows { cell_view result ≡ self.knows }
        ensures rests { IsRestingView (cell_view result) }
    {
        let ClockPass { seat } = self;
        seat
    }
}
