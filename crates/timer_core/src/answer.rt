//! What a start and a claim answer.
use seq_timer::Placement;

/// What a start answers.
#[derive(Clone, Copy, Debug, PartialEq, Eq)]
pub enum StartAnswer {
    Started {
        /// Whether the timer was armed before the call.
        was_armed: bool,
        /// The generation that is armed now.
        generation: u64,
        /// The base that the call moved the timer to, if it did.
        moved_to: Option<u32>,
        /// How the timer is kept. A timer whose function is running keeps its base.
        placement: Placement,
    },
    /// The limit on entries was reached, at this stamp. Nothing has changed.
    Spent {
        stamp: u64,
    },
}

/// What a claim of the next timer of a base answers.
#[derive(Clone, Copy, Debug, PartialEq, Eq)]
pub enum ClaimAnswer {
    /// The function of this timer is to run, for this generation. The claim is the entry of this number.
    Claimed {
        timer: u32,
        generation: u64,
        number: u64,
    },
    /// No timer of the context is the next to expire: the base is stopped for each of its clocks.
    NoneDue,
    /// The function of this timer still runs on the base.
    BaseBusy {
        timer: u32,
        generation: u64,
    },
}
