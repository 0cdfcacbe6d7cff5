//! The clock as a value: three times and a count of writes, each write checked before it is made.
ghost use Rattle.std.specs.Prelude.{◌≡◌, ◌+◌, ◌≤◌, if◌then◌else◌};
ghost use Rattle.ktime.specs.Readings.{ClockReading, latest};
ghost use Rattle.ktime.specs.Clocks.{after_write, at_stamp, greatest, last_stamp, MakesWrite};
ghost use Rattle.ktime.specs.declared.write.Write.TheVariants.{Advance, Set, Suspend};

use crate::Reading;
use crate::write::{ClockFault, Write};
use std::marker::Model;

/// The latest time that a clock shows, in nanoseconds.
const LATEST: u128 = 1 << 62;

/// How many writes the clock counts.
const LAST_STAMP: u64 = 1 << 32;

/// The monotonic, the real-time and the boot-time clock.
#[derive(Clone, Copy, Debug, PartialEq, Eq)]
pub struct Clock {
    reading: Reading,
}

impl Model for Clock {
    ghost Value = { ClockReading };

    ghost view = { λ c. c.reading };

    ghost invariant = { λ c. (c.reading.stamp ≤ last_stamp) × (c.reading.changes ≤ c.reading.stamp) };

    ghost inverse = { λ r. record { reading = r } };
}

impl Clock {
    /// The clock at its start: all times are 0.
    pub fn new() -> Self
        ensures { result ≡ at_stamp 0 }
    {
        Clock::at_stamp(0)
    }

    /// The clock at its start, with so many writes counted already.
    pub fn at_stamp(stamp: u64) -> Self
        requires { stamp ≤ last_stamp }
        ensures { result ≡ at_stamp stamp }
    {
        Clock {
            reading: Reading {
                stamp,
                mono: 0,
                real: 0,
                boot: 0,
                changes: 0,
            },
        }
    }

    /// The clock as this reading shows it.
    pub fn at(reading: Reading) -> Self
        requires counted { reading.stamp ≤ last_stamp }
        requires changes { reading.changes ≤ reading.stamp }
        ensures { result ≡ reading }
    {
        Clock { reading }
    }

    pub fn reading(&self) -> Reading
        ensures { result ≡ self.now }
    {
        self.reading
    }

    /// Time passes, in nanoseconds.
    pub fn advance(&mut self, by: u64) -> Result<Reading, ClockFault>
        ensures { MakesWrite (Advance by) self.old self.new result }
    {
        self.write(Write::Advance { by })
    }

    /// Sets the time of day, in nanoseconds.
    pub fn set_real(&mut self, to: u64) -> Result<Reading, ClockFault>
        ensures { MakesWrite (Set to) self.old self.new result }
    {
        self.write(Write::Set { to })
    }

    /// The machine sleeps, for so many nanoseconds.
    pub fn suspend(&mut self, by: u64) -> Result<Reading, ClockFault>
        ensures { MakesWrite (Suspend by) self.old self.new result }
    {
        self.write(Write::Suspend { by })
    }

    /// Makes one write.
    pub fn write(&mut self, write: Write) -> Result<Reading, ClockFault>
        ensures { MakesWrite write self.old self.new result }
    {
        let was = self.reading;
        if was.stamp >= LAST_STAMP {
            return Err(ClockFault::ClockSpent);
        }
        let times = times_after(&was, write);
        let would_be = times.mono.max(times.real).max(times.boot);
        if would_be > LATEST {
            return Err(ClockFault::ClockRange { would_be });
        }
        self.reading = Reading {
            stamp: was.stamp + 1,
            mono: times.mono as u64,
            real: times.real as u64,
            boot: times.boot as u64,
            changes: was.changes + u64::from(times.is_offset_changed),
        };
        Ok(self.reading)
    }
}

/// The times that a write would make, in nanoseconds, and whether real time would be at another
/// offset from monotonic time.
#[derive(Clone, Copy)]
struct Times {
    mono: u128,
    real: u128,
    boot: u128,
    is_offset_changed: bool,
}

fn times_after(was: &Reading, write: Write) -> Times
    ensures mono { result.mono ≡ (after_write was.now write).mono }
    ensures real { result.real ≡ (after_write was.now write).real }
    ensures boot { result.boot ≡ (after_write was.now write).boot }
    ensures changes { was.now.changes + (if result.is_offset_changed then 1 else 0) ≡ (after_write was.now write).changes }
{
    let (mono, real, boot) = (
        u128::from(was.mono),
        u128::from(was.real),
        u128::from(was.boot),
    );
    match write {
        Write::Advance { by } => {
            let by = u128::from(by);
            Times {
                mono: mono + by,
                real: real + by,
                boot: boot + by,
                is_offset_changed: false,
            }
        }
        Write::Set { to } => Times {
            mono,
            real: u128::from(to),
            boot,
            is_offset_changed: to != was.real,
        },
        Write::Suspend { by } => {
            let slept = u128::from(by);
            Times {
                mono,
                real: real + slept,
                boot: boot + slept,
                is_offset_changed: by > 0,
            }
        }
    }
}
