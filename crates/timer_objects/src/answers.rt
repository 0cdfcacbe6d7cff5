//! What calls on objects answer that a lower crate doesn't answer so.
use sleeper::SleptAnswer;

/// What a gettime answers, in nanoseconds.
#[derive(Clone, Copy, Debug, PartialEq, Eq)]
pub enum Gettime {
    /// How long until the next expiry, the interval, and the number of entries that the object then had; a descriptor's gettime makes the last of
    /// them.
    Left {
        left: u64,
        interval: u64,
        stamp: u64,
    },
    /// The object has as many entries as its limit allows.
    Spent {
        stamp: u64,
    },
}

/// What a read that waits answers.
#[derive(Clone, Copy, Debug, PartialEq, Eq)]
pub enum BlockingRead {
    /// So many expiries, at least one.
    Count { total: u64 },
    /// Zero bytes: the clock was set back before the expiry that was counted. A periodic timer is armed again.
    Zero,
    /// The buffer has fewer than 8 bytes.
    ShortBuffer,
    /// The object has as many entries as its limit allows.
    Spent { stamp: u64 },
    /// The clock was set, and the setting asked to be canceled then (`ECANCELED`).
    Canceled,
}

/// Whether a descriptor is ready to be read, after so many entries.
#[derive(Clone, Copy, Debug, PartialEq, Eq)]
pub struct Readable {
    pub ready: bool,
    pub stamp: u64,
}

/// How many further periods had passed when the last signal was accepted, after so many entries.
#[derive(Clone, Copy, Debug, PartialEq, Eq)]
pub struct Overrun {
    pub overrun: u64,
    pub stamp: u64,
}

/// How a sleeper is, after so many entries.
#[derive(Clone, Copy, Debug, PartialEq, Eq)]
pub struct Slept {
    pub answer: SleptAnswer,
    pub stamp: u64,
}
