//! What a caller of a queue holds.
ghost use Rattle.std.specs.Prelude.{◌≡◌, []};
ghost use Rattle.crossbeam_queue.specs.Passes.{view};
ghost use Rattle.signal_queue.specs.Views.{IsRestingQueueView};

use crate::signal::Signal;
use crate::view::QueueView;
use crossbeam_queue::Pass;
use std::marker::Model;

/// A seat of the ring.
pub type QueueSeat = Pass<Signal, QueueView>;

/// The right to push and pop, with what its holder knows of the queue's history. It has no bytes, and can't be dropped.
pub struct SignalPass {
    pub(crate) seat: QueueSeat,
}

impl Model for SignalPass {
    ghost use Rattle.std.specs.Prelude.{◌≡◌, []};
    ghost use Rattle.signal_queue.specs.Views.{IsRestingQueueView, PassOfQueue};

    ghost Value = { PassOfQueue };

    ghost view = { λ p. record { queue = p.seat.table_id; knows = p.seat.me.0.client } };

    ghost invariant = { λ p. IsRestingQueueView (p.seat.me.0.client) × (p.seat.me.1 ≡ []) };
}

impl SignalPass {
    pub(crate) fn into_seat(self) -> QueueSeat
        ensures queue { result.table_id ≡ self.queue }
        ensures knows { view result ≡ self.knows }
        ensures rests { IsRestingQueueView (view result) × (result.me.1 ≡ []) }
    {
        let SignalPass { seat } = self;
        seat
    }
}
