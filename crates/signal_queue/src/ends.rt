//! The two ends of a queue: who has the one alone pushes, and who has the other alone pops.
ghost use Rattle.std.specs.Prelude.{◌≡◌};

use crate::pass::QueueSeat;

/// An end of a queue: a seat of its ring, and how many signals were pushed, or popped, by it.
#[derive(Drop)]
pub struct End {
    pub seat: QueueSeat,
    pub count: u64,
}

impl End {
    /// An end by which nothing was made yet.
    pub fn new(seat: QueueSeat) -> End
        ensures { result ≡ record { seat = seat; count = 0 } }
    {
        End { seat, count: 0 }
    }
}

/// One of the two sides.
pub trait Side {
    ghost use Rattle.signal_queue.specs.Ends.{SeatOfQueue};
    ghost use Rattle.signal_queue.specs.declared.ends.End.{End};

    /// This is the side's end of the queue that the seat is of.
    ghost is_end: { SeatOfQueue → End → Type 0 };
}

/// The side of pushes.
pub struct Pushing;

impl Side for Pushing {
    ghost use Rattle.std.specs.Prelude.{true, false};
    ghost use Rattle.signal_queue.specs.Ends.{IsEnd};

    ghost is_end = { IsEnd true false };
}

/// The side of pops.
pub struct Popping;

impl Side for Popping {
    ghost use Rattle.std.specs.Prelude.{true, false};
    ghost use Rattle.signal_queue.specs.Ends.{IsEnd};

    ghost is_end = { IsEnd false true };
}
