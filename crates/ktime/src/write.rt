//! The writes of a clock, and why one is refused.
/// A write of the clock. Times are nanoseconds.
#[derive(Clone, Copy, Debug, PartialEq, Eq)]
pub enum Write {
    /// Time passes: all three clocks go on.
    Advance { by: u64 },
    /// The time of day is set, as by `clock_settime(2)`.
    Set { to: u64 },
    /// The machine slept: the monotonic clock stood still.
    Suspend { by: u64 },
}

/// Why the clock refused a write. The clock is as before.
#[derive(Clone, Copy, Debug, PartialEq, Eq)]
pub enum ClockFault {
    /// The clock has taken as many writes as it counts, 2^32.
    ClockSpent,
    /// A clock would show this time, past the latest one.
    ClockRange { would_be: u128 },
}
