//! What calls on one timer answer.
ghost use Rattle.std.specs.Prelude.{◌≡◌};
ghost use Rattle.seq_timer.specs.Steps.{rearmed_at};

use crate::event::{Moved, Restarted};

/// What a try to cancel answers (`hrtimer_try_to_cancel`).
#[derive(Clone, Copy, Debug, PartialEq, Eq)]
pub enum CancelAnswer {
    /// The timer was neither armed nor running: 0 in Linux.
    Idle { stamp: u64 },
    /// This generation is disarmed, by the entry of this number: 1 in Linux.
    Cancelled { generation: u64, number: u64 },
    /// The function of this generation is running, also where the timer was started again meanwhile: -1 in Linux. Nothing has changed.
    Running { generation: u64, stamp: u64 },
}

/// What a forward answers.
#[derive(Clone, Copy, Debug, PartialEq, Eq)]
pub enum ForwardAnswer {
    /// How many intervals were added, by the entry of this number, and the expiry after them.
    Forwarded { number: u64, moved: Moved },
    /// The limit on entries was reached, at this stamp. Nothing has changed.
    Spent { stamp: u64 },
    /// A start has armed the timer again while its function was running. Nothing has changed.
    Armed { generation: u64, stamp: u64 },
}

/// What a finish answers: the number of its entry, and what became of the restart.
#[derive(Clone, Copy, Debug, PartialEq, Eq)]
pub struct Finished {
    pub number: u64,
    pub rearmed: Rearmed,
}

/// Whether a finish has armed the timer again.
#[derive(Clone, Copy, Debug, PartialEq, Eq)]
pub enum Rearmed {
    /// No restart was asked for, or a start came in while the function ran.
    No,
    /// It is armed again, as this generation.
    Again { generation: u64 },
    /// A restart was asked for, and the limit on entries refused it at this stamp.
    Spent { stamp: u64 },
}

impl Rearmed {
    /// How a finish answers whose entry is the one after so many.
    pub fn at(stamp: u64, restarted: Restarted) -> Rearmed
        ensures { result ≡ rearmed_at stamp restarted }
    {
        match restarted {
            Restarted::No => Rearmed::No,
            Restarted::Again { generation } => Rearmed::Again { generation },
            Restarted::Spent => Rearmed::Spent { stamp },
        }
    }
}
