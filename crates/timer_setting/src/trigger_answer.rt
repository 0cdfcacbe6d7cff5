//! What the function of the high-resolution timer comes to, when it runs for an object.

/// What an expiry of the high-resolution timer does to the object that is over it.
#[derive(Clone, Copy, Debug, PartialEq, Eq)]
pub enum TriggerAnswer {
    /// It counts: a signal is pending, or there is one more expiry to be read.
    Counted,
    /// The object is armed by a later generation or not at all, or its time hasn't come.
    Stale,
    /// The object has as many entries as its limit allows.
    Spent { stamp: u64 },
}
