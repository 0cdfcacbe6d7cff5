//! Times in seconds and nanoseconds, as POSIX hands them over.
ghost use Rattle.std.specs.Prelude.{◌≡◌, ◌≤◌, ◌↔◌, IfOk, IsErr};
ghost use Rattle.ktime.specs.Times.{nanoseconds, second};

use crate::times::LAST_TIME;

const SECOND: u64 = 1_000_000_000;

/// A time as POSIX hands it over: seconds, and nanoseconds below one second.
#[derive(Clone, Copy, Debug, PartialEq, Eq)]
pub struct TimeSpec {
    pub sec: u64,
    pub nsec: u64,
}

/// The nanoseconds are a second or more (EINVAL).
#[derive(Clone, Copy, Debug, PartialEq, Eq)]
pub struct BadTime;

impl TimeSpec {
    /// The time in nanoseconds, stopped at the end of time.
    pub fn to_ns(self) -> Result<u64, BadTime>
        ensures time { IfOk result (λ ns. ns ≡ nanoseconds self.sec self.nsec) }
        ensures bad { IsErr result ↔ (second ≤ self.nsec) }
    {
        if self.nsec >= SECOND {
            return Err(BadTime);
        }
        let ns = self.sec.saturating_mul(SECOND).saturating_add(self.nsec);
        Ok(ns.min(LAST_TIME))
    }
}
