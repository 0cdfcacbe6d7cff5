//! Where an object's timer stands in its period.
ghost use Rattle.std.specs.Prelude.{◌≡◌, ◌≤◌};
ghost use Rattle.ktime.specs.Times.{last_time};
ghost use Rattle.timer_setting.specs.Phases.{armed_by, expired, is_expiry_of, phase_by};

use crate::arguments::has_absolute_time;
use crate::arming::Arm;
use ktime::{ClockId, Mode, Reading, effective, sat_add};

/// Where an object's timer stands in its period. An expiry is a time of the clock that stands beside it.
#[derive(Clone, Copy, Debug, PartialEq, Eq)]
pub enum Phase {
    /// It is disarmed, or has expired for the last time.
    Idle,
    /// The high-resolution timer is armed, as this generation or, where others have moved it since, as a later one.
    Armed {
        generation: u64,
        clock: ClockId,
        expires: u64,
    },
    /// It is periodic and has expired, and is armed again when a POSIX timer's signal is accepted, or when a descriptor's expiries are
    /// read or its time left is asked for.
    Expired {
        clock: ClockId,
        expires: u64,
    },
}

impl Phase {
    /// Whether an expiry of this generation is the object's, and its time has come: what was armed by an earlier generation and moved since is the
    /// object's still.
    pub fn is_expiry(self, generation: u64, reading: Reading) -> bool
        ensures { result ≡ is_expiry_of self generation reading }
    {
        match self {
            Phase::Armed {
                generation: armed,
                clock,
                expires,
            } => armed <= generation && reading.value(clock) >= expires,
            Phase::Idle | Phase::Expired { .. } => false,
        }
    }

    /// The phase after its expiry, with this interval.
    pub(crate) fn after_expiry(self, interval: u64) -> Phase
        ensures { result ≡ expired self interval }
    {
        match self {
            Phase::Armed { clock, expires, .. } if interval != 0 => Phase::Expired {
                clock,
                expires,
            },
            Phase::Idle | Phase::Armed { .. } => Phase::Idle,
            Phase::Expired { .. } => self,
        }
    }
}

/// The phase after a start with this outcome, or after none.
pub fn phase_after(arm: Arm, clock: ClockId, expires: u64) -> Phase
    ensures { result ≡ armed_by arm clock expires }
{
    match arm {
        Arm::Armed(generation) => Phase::Armed {
            generation,
            clock,
            expires,
        },
        Arm::NotAsked | Arm::Unarmed(_) => Phase::Idle,
    }
}

/// The phase after a settime.
pub(crate) fn phase_set(
    declared: ClockId,
    flags: u64,
    value: u64,
    reading: Reading,
    arm: Arm,
) -> Phase
    requires value { value ≤ last_time }
    ensures { result ≡ phase_by declared flags value reading arm }
{
    if has_absolute_time(flags) {
        return phase_after(arm, declared, value);
    }
    let clock = effective(declared, Mode::Rel, declared);
    phase_after(arm, clock, sat_add(reading.value(clock), value))
}
