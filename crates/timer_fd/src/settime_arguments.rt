//! The arguments of a descriptor's settime.
ghost use Rattle.std.specs.Prelude.{◌≡◌};
ghost use Rattle.timer_setting.specs.Arguments.{bits_beyond, checked_times};
ghost use Rattle.timer_fd.specs.States.{fd_flags, is_cancelable};

use ktime::{ClockId, TimeSpec};
use timer_setting::BadArgument;

/// The flag of a settime for an absolute time.
pub const TFD_TIMER_ABSTIME: u64 = timer_setting::ABSTIME;

/// The flag of a settime for a setting that a change of the real-time clock cancels.
pub const TFD_TIMER_CANCEL_ON_SET: u64 = 2;

/// Both flags of a settime.
const FLAGS: u64 = TFD_TIMER_ABSTIME | TFD_TIMER_CANCEL_ON_SET;

/// The bits of a settime's flags that are none of its flags.
pub(crate) fn unknown_flags(flags: u64) -> u64
    ensures { result ≡ bits_beyond fd_flags flags }
{
    flags & !FLAGS
}

/// A settime's value and interval in nanoseconds, or why its arguments are refused.
pub fn times_of(flags: u64, value: TimeSpec, interval: TimeSpec) -> Result<(u64, u64), BadArgument>
    ensures { result ≡ checked_times (bits_beyond fd_flags flags) value interval }
{
    timer_setting::times_of(unknown_flags(flags), value, interval)
}

/// Whether a change of the real-time clock cancels a setting: only that of an absolute time on that clock.
pub(crate) fn cancels_on_set(clock: ClockId, flags: u64) -> bool
    ensures { result ≡ is_cancelable clock flags }
{
    clock == ClockId::Realtime && flags == FLAGS
}
