//! The three clocks that a timer can be declared on.
/// A clock that timers are declared on, as in `clock_gettime(2)`.
#[derive(Clone, Copy, Debug, PartialEq, Eq)]
pub enum ClockId {
    /// Time since the start, without the time that was slept.
    Monotonic,
    /// The time of day. It can be set.
    Realtime,
    /// Time since the start, with the time that was slept.
    Boottime,
}
