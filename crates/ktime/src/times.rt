//! Sums that stop at the end of time, and the clock that a timer is kept on.
ghost use Rattle.std.specs.Prelude.{◌≡◌, ◌+◌, ◌-◌, ◌^◌};
ghost use Rattle.ktime.specs.Times.{effective_clock, last_time, sat};

use crate::clock_id::ClockId;
use crate::mode::Mode;

/// The end of time in nanoseconds, the kernel's `KTIME_MAX`.
pub const LAST_TIME: u64 = i64::MAX as u64;

/// The sum of two times, stopped at the end of time (the kernel's `ktime_add_safe`).
pub fn sat_add(a: u64, b: u64) -> u64
    ensures { result ≡ sat (a + b) }
{
    a.saturating_add(b).min(LAST_TIME)
}

/// The clock that a timer is kept on after a start: a relative time on the real-time clock is
/// kept on the monotonic clock (`__hrtimer_init`), so that setting the time of day leaves it alone.
pub fn effective(declared: ClockId, mode: Mode, present: ClockId) -> ClockId
    ensures { result ≡ effective_clock declared mode present }
{
    match (declared, mode) {
        (_, Mode::Keep) => present,
        (ClockId::Realtime, Mode::Rel) => ClockId::Monotonic,
        _ => declared,
    }
}
