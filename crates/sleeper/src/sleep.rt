//! What becomes of a sleep.
ghost use Rattle.std.specs.Prelude.{◌≡◌, ◌≤◌};
ghost use Rattle.ktime.specs.Times.{last_time};
ghost use Rattle.sleeper.specs.Steps.{begun_by, sleep_start};

use crate::sleep_arguments::mode_of;
use ktime::{ClockId, Mode, Reading};
use timer_setting::{Arm, Wanted};

/// The sleep of a sleeper, which has one at a time.
#[derive(Clone, Copy, Debug, PartialEq, Eq)]
pub enum Sleep {
    /// No sleep has begun, or the end of the last one was told.
    Free,
    /// It sleeps for so long.
    Relative,
    /// It sleeps up to a time of its clock.
    Absolute,
    /// The sleep's time has come, and its end is yet to be told.
    Woken,
}

/// The sleep after its start had this outcome. One that wanted no start, or was refused it, doesn't begin.
pub(crate) fn begun(arm: Arm, flags: u64) -> Sleep
    ensures { result ≡ begun_by arm flags }
{
    match (arm, mode_of(flags)) {
        (Arm::Armed(_), Mode::Abs) => Sleep::Absolute,
        (Arm::Armed(_), _) => Sleep::Relative,
        _ => Sleep::Free,
    }
}

/// The start that a sleep with valid arguments wants: none where its time has come. That of a relative sleep has come where it is for
/// no time at all, whatever its clock shows.
pub fn sleep_start(declared: ClockId, flags: u64, time: u64, reading: Reading) -> Option<Wanted>
    requires time { time ≤ last_time }
    ensures { result ≡ sleep_start declared flags time reading }
{
    let mode = mode_of(flags);
    let has_come = if mode == Mode::Abs {
        time <= reading.value(declared)
    } else {
        time == 0
    };
    (!has_come).then_some(Wanted { mode, ns: time })
}
