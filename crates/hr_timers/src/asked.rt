//! Whether a start moves its timer first, and the bits of bases.
ghost use Rattle.std.specs.Prelude.{◌≡◌, ◌<◌, ◌^◌};
ghost use Rattle.seq_timer.specs.Calls.{moves_first};

use seq_timer::TimerState;

/// Whether a start that asks for a base first moves the timer there.
pub fn moves_first(timer: &TimerState, base: u32) -> bool
    ensures { result ≡ moves_first timer.now base }
{
    timer.running().is_none() && timer.base() != base
}

/// The bit of a base.
pub fn one_bit(base: u32) -> u64
    requires { base < 64 }
    ensures { result ≡ 2 ^ base }
{
    1 << base
}
