//! What one thread calls a system by.
ghost use Rattle.std.specs.Prelude.{◌≡◌, [], OnOk};

use clock_cell::ClockPass;
use counted_row::RowPass;
use hr_timers::{Log, Pass};
use signal_queue::SignalPass;
use std::alloc::AllocError;
use std::marker::Model;
use timer_objects::{Object, ObjectLog};

/// A pass of each kind, and room for the receipts of a call. It can't be dropped: `retire` gives it to another handle, and `close` ends the last one.
pub struct Handle {
    pub(crate) timers: Pass,
    pub(crate) objects: RowPass<Object>,
    pub(crate) clock: ClockPass,
    pub(crate) signals: SignalPass,
    pub(crate) logs: Logs,
}

impl Model for Handle {
    ghost use Rattle.hulayban.specs.Systems.{HandleOf};

    ghost Value = { HandleOf };

    ghost view = { λ h. record { timers = h.timers; objects = h.objects; clock = h.clock; signals = h.signals } };
}

/// The receipts of a call. Each call clears them, so they don't grow.
#[derive(Drop)]
pub struct Logs {
    pub(crate) timers: Log,
    pub(crate) objects: ObjectLog,
}

/// What a call notes at most of its timer: a cancel, and a start that is sent on from base to base.
const MOST_NOTED: usize = 68;

impl Logs {
    /// Clears the logs.
    pub(crate) fn clear(&mut self)
        ensures { (self.new.timers.receipts ≡ []) × (self.new.objects.receipts ≡ []) }
    {
        self.timers.clear();
        self.objects.clear();
    }

    /// Clears the logs, and makes room for a call on an object.
    pub(crate) fn make_room(&mut self) -> Result<(), AllocError>
        ensures { OnOk result ((self.new.timers ≡ record { receipts = []; spare = 68 }) × (self.new.objects ≡ record { receipts = []; spare = 1 })) }
    {
        self.clear();
        self.timers.reserve(MOST_NOTED)?;
        self.objects.reserve(1)
    }
}
