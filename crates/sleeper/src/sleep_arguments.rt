//! The arguments of a sleep.
ghost use Rattle.std.specs.Prelude.{◌≡◌};
ghost use Rattle.timer_setting.specs.Arguments.{mode_by};
ghost use Rattle.sleeper.specs.Steps.{checked_time};

use ktime::{Mode, TimeSpec};
use timer_setting::BadArgument;

/// The flag of a sleep up to a time of the clock, and the only one that there is.
pub const TIMER_ABSTIME: u64 = timer_setting::ABSTIME;

/// A sleep's time in nanoseconds, or why its arguments are refused: first the flags, then the time.
pub fn time_of(flags: u64, time: TimeSpec) -> Result<u64, BadArgument>
    ensures { result ≡ checked_time flags time }
{
    if flags & !TIMER_ABSTIME != 0 {
        return Err(BadArgument::Flags);
    }
    time.to_ns().map_err(|_| BadArgument::Time)
}

/// How a sleep gives its time.
pub(crate) fn mode_of(flags: u64) -> Mode
    ensures { result ≡ mode_by flags }
{
    if flags & TIMER_ABSTIME != 0 {
        Mode::Abs
    } else {
        Mode::Rel
    }
}
