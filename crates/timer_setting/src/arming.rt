//! The start of the high-resolution timer that a step wants, and its outcome.
use ktime::Mode;

/// A start of the high-resolution timer that a step wants. `ns` is a time for `Mode::Abs` and `Mode::Keep`, and a time from the
/// reading for `Mode::Rel`.
#[derive(Clone, Copy, Debug, PartialEq, Eq)]
pub struct Wanted {
    pub mode: Mode,
    pub ns: u64,
}

/// The outcome of the start that a step wants.
#[derive(Clone, Copy, Debug, PartialEq, Eq)]
pub enum Arm {
    /// The step wanted none.
    NotAsked,
    /// The timer was armed, as this generation.
    Armed(u64),
    /// The timer's limit on entries refused it, at this stamp.
    Unarmed(u64),
}
