//! The arguments of a settime: which are valid, and the start that they want.
ghost use Rattle.std.specs.Prelude.{◌≡◌};
ghost use Rattle.timer_setting.specs.Arguments.{checked_times, is_absolute, start_by};

use crate::arming::Wanted;
use ktime::{Mode, TimeSpec};

/// The bit of a settime's flags for an absolute time: `TIMER_ABSTIME` of `timer_settime`, `TFD_TIMER_ABSTIME` of `timerfd_settime`.
pub const ABSTIME: u64 = 1;

/// Why the arguments of a settime are refused (EINVAL).
#[derive(Clone, Copy, Debug, PartialEq, Eq)]
pub enum BadArgument {
    /// The flags have a bit that is none of the call's flags.
    Flags,
    /// The value or the interval has a second or more of nanoseconds.
    Time,
}

/// A settime's value and interval in nanoseconds, or why its arguments are refused. `unknown` has the bits of the flags that are none
/// of the call's flags; they are looked at first.
pub fn times_of(
    unknown: u64,
    value: TimeSpec,
    interval: TimeSpec,
) -> Result<(u64, u64), BadArgument>
    ensures { result ≡ checked_times unknown value interval }
{
    if unknown != 0 {
        return Err(BadArgument::Flags);
    }
    let (Ok(value), Ok(interval)) = (value.to_ns(), interval.to_ns()) else {
        return Err(BadArgument::Time);
    };
    Ok((value, interval))
}

/// Whether a settime's value is an absolute time.
pub(crate) fn has_absolute_time(flags: u64) -> bool
    ensures { result ≡ is_absolute flags }
{
    flags & ABSTIME != 0
}

/// The start that a settime with these valid arguments wants: none where its value is zero.
pub(crate) fn start_for(flags: u64, ns: u64) -> Option<Wanted>
    ensures { result ≡ start_by flags ns }
{
    if ns == 0 {
        return None;
    }
    let mode = if has_absolute_time(flags) {
        Mode::Abs
    } else {
        Mode::Rel
    };
    Some(Wanted { mode, ns })
}
