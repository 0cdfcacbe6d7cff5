//! What each call answers, where `Core` doesn't answer the same.
use crate::tokens::Claim;
use seq_timer::{CancelAnswer, Placement};

/// What a start answers.
#[derive(Clone, Copy, Debug, PartialEq, Eq)]
pub enum StartAnswer {
    Started {
        /// Whether the timer was armed before the call.
        was_armed: bool,
        /// The generation that is armed now.
        generation: u64,
        /// The base that the call asked for last: the one that it was asked for, or where that was off line its heir, and so on down.
        asked: u32,
        /// Bit b is set where the call sent the timer to base b. It was sent to each in turn, in falling order.
        outs: u64,
        /// How the timer is kept. A timer whose function is running keeps its base.
        placement: Placement,
    },
    /// The limit on entries was reached, at this stamp. Nothing has changed.
    Spent {
        stamp: u64,
    },
}

/// What a cancel answers that waits for nobody.
#[derive(Clone, Copy, Debug, PartialEq, Eq)]
pub enum NowAnswer {
    /// As the cancel that waits.
    Tried(CancelAnswer),
    /// Another pass took the lock of this base, on which the timer was. Nothing has changed.
    Contended { base: u32 },
    /// The timer was on the move to this base. Nothing has changed.
    Moving { base: u32 },
    /// The timer was on the one base, and then on the other. Nothing has changed.
    Moved { from: u32, to: u32 },
}

/// What a claim of the next timer of a base answers.
pub enum ClaimAnswer {
    Claimed(Claim),
    /// No timer of the context is the next to expire: the base is stopped for each of its clocks.
    NoneDue,
    /// The function of this timer still runs on the base.
    BaseBusy { timer: u32, generation: u64 },
}

/// What taking a base off line answers. `stamp` is how many entries a base or a timer has, `moved` how many timers were moved to the heir.
#[derive(Clone, Copy, Debug, PartialEq, Eq)]
pub enum OfflineAnswer {
    /// The base is off line. Nothing has changed.
    AlreadyOffline {
        stamp: u64,
    },
    /// The heir is off line. Nothing has changed.
    HeirOffline {
        stamp: u64,
    },
    /// The base has had too many entries. Nothing has changed.
    BaseSpent {
        stamp: u64,
    },
    /// The function of this timer runs on the base.
    Busy {
        moved: u32,
        timer: u32,
        generation: u64,
    },
    /// The base is off line now, by this entry of its own.
    Offline {
        moved: u32,
        stamp: u64,
    },
    /// As many timers were moved as the budget allows, and one more is armed on the base.
    More {
        moved: u32,
    },
    /// The timer to be moved next has as many entries as its limit and its reach allow.
    Spent {
        moved: u32,
        timer: u32,
        stamp: u64,
    },
}

/// What taking a base on line again answers. `stamp` is how many entries the base has.
#[derive(Clone, Copy, Debug, PartialEq, Eq)]
pub enum OnlineAnswer {
    Online { stamp: u64 },
    /// The base is on line. Nothing has changed.
    AlreadyOnline { stamp: u64 },
}
