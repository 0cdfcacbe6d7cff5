//! What the clock shows at one moment.
ghost use Rattle.std.specs.Prelude.{◌≡◌, ◌≤◌};
ghost use Rattle.ktime.specs.Readings.{ClockReading, IsTimely, latest, value_of};

use crate::clock_id::ClockId;
use std::marker::Model;

/// What the clock shows at one moment. The three times are nanoseconds.
#[derive(Clone, Copy, Debug, PartialEq, Eq)]
pub struct Reading {
    /// How many writes the clock has taken: its sequence number, not a time.
    pub stamp: u64,
    pub mono: u64,
    pub real: u64,
    pub boot: u64,
    /// How often a write moved the real time against the monotonic one.
    pub changes: u64,
}

impl Model for Reading {
    ghost Value = { ClockReading };

    ghost view = { λ r. record { stamp = r.stamp; mono = r.mono; real = r.real; boot = r.boot; changes = r.changes } };

    ghost invariant = { λ r. IsTimely (record { stamp = r.stamp; mono = r.mono; real = r.real; boot = r.boot; changes = r.changes }) };

    ghost inverse = { λ v. record { stamp = v.stamp; mono = v.mono; real = v.real; boot = v.boot; changes = v.changes } };
}

impl Reading {
    /// What a clock shows that nobody has written yet, where all three clocks stand at this time.
    pub fn at(time: u64) -> Reading
        requires { time ≤ latest }
        ensures { result ≡ record { stamp = 0; mono = time; real = time; boot = time; changes = 0 } }
    {
        Reading {
            stamp: 0,
            mono: time,
            real: time,
            boot: time,
            changes: 0,
        }
    }

    /// The time that this clock shows.
    pub fn value(&self, clock: ClockId) -> u64
        ensures { result ≡ value_of clock self.now }
    {
        match clock {
            ClockId::Monotonic => self.mono,
            ClockId::Realtime => self.real,
            ClockId::Boottime => self.boot,
        }
    }
}
