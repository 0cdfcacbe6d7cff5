//! The setting of a timer, as gettime and settime answer it.

/// How long until a timer expires next, and its interval, both in nanoseconds (`struct itimerspec`).
#[derive(Clone, Copy, Debug, PartialEq, Eq)]
pub struct Setting {
    pub left: u64,
    pub interval: u64,
}
