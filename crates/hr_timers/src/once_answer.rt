//! What calls answer that try each lock once, and wait for nobody.
use crate::answer::StartAnswer;
use seq_timer::Placement;

/// Why one try didn't get the lock of its timer's base. Nothing has changed.
#[derive(Clone, Copy, Debug, PartialEq, Eq)]
pub enum Miss {
    /// Another pass took the lock of this base, on which the timer was.
    Contended { base: u32 },
    /// The timer was on the move to this base.
    Moving { base: u32 },
    /// The timer was on the one base, and then on the other.
    Moved { from: u32, to: u32 },
}

/// What a start answers that neither waits nor moves its timer.
#[derive(Clone, Copy, Debug, PartialEq, Eq)]
pub enum HereAnswer {
    /// As the start that waits. `first`: it was started, and is now the first of its context's queue for its clock on its base, due or not.
    Tried { answer: StartAnswer, first: bool },
    /// The timer was on this base, and a start would have had to move it. Nothing has changed.
    Elsewhere { base: u32 },
    Missed(Miss),
}

/// What a look at the first timer of a base's queue answers.
#[derive(Clone, Copy, Debug, PartialEq, Eq)]
pub enum NextAnswer {
    /// This timer leads, due or not: none in the queue reaches its expiry, in nanoseconds of the clock, before it.
    First { timer: u32, expires: u64 },
    /// No timer is in the queue.
    NoneArmed,
    /// Another pass took the base's lock.
    Contended,
}

/// Why a timer wasn't sent off its base. Nothing has changed.
#[derive(Clone, Copy, Debug, PartialEq, Eq)]
pub enum Unsent {
    Missed(Miss),
    /// The limit on entries was reached, at this stamp.
    Spent { stamp: u64 },
    /// The timer was on this base, and a start leaves it there.
    Stays { base: u32 },
}

/// What an arrival tells of the timer that it started.
#[derive(Clone, Copy, Debug, PartialEq, Eq)]
pub struct Landed {
    /// The base where it is.
    pub base: u32,
    /// The generation that is armed now.
    pub generation: u64,
    /// How the timer is kept.
    pub placement: Placement,
    /// Whether it is now the first of its context's queue for its clock there, due or not.
    pub first: bool,
}
