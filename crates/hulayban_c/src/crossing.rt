//! What crosses to C beside numbers, and what the numbers of C stand for.
ghost use Rattle.std.specs.Prelude.{◌≡◌};
ghost use Rattle.hulayban_c.specs.Numbers.{clock_number, clock_by_number, context_by_number, mode_by_number, reading_by_times};

use ktime::{ClockId, Mode, Reading};
use seq_timer::Context;

/// What the three clocks show, in nanoseconds, each at most 2^62.
#[repr(C)]
#[derive(Clone, Copy, Debug, PartialEq, Eq)]
pub struct Time {
    pub mono: u64,
    pub real: u64,
    pub boot: u64,
}

/// How a timer is declared: its clock, by the number of `clock_gettime(2)` in Linux, and its context, 0 for hard and 1 for soft.
#[repr(C)]
#[derive(Clone, Copy, Debug, PartialEq, Eq)]
pub struct Declares {
    pub clock: u32,
    pub context: u32,
}

/// What a call tells beside its number. What a call says nothing of is 0.
#[repr(C)]
#[derive(Clone, Copy, Debug, PartialEq, Eq)]
pub struct Answer {
    pub timer: u32,
    pub base: u32,
    pub clock: u32,
    pub armed: u32,
    pub running: u32,
    pub moved: u32,
    pub generation: u64,
    pub number: u64,
    pub soft: u64,
    pub expires: u64,
    pub count: u64,
    pub wait: u64,
}

/// An answer that says nothing.
pub const NOTHING: Answer = Answer {
    timer: 0,
    base: 0,
    clock: 0,
    armed: 0,
    running: 0,
    moved: 0,
    generation: 0,
    number: 0,
    soft: 0,
    expires: 0,
    count: 0,
    wait: 0,
};

/// The clock of a number: `CLOCK_REALTIME`, `CLOCK_MONOTONIC` and `CLOCK_BOOTTIME` of Linux.
pub fn clock_by_number(number: u32) -> Option<ClockId>
    ensures { result ≡ clock_by_number number }
{
    if number == 0 {
        return Some(ClockId::Realtime);
    }
    if number == 1 {
        return Some(ClockId::Monotonic);
    }
    if number == 7 {
        return Some(ClockId::Boottime);
    }
    None
}

/// The number of a clock.
pub fn clock_number(clock: ClockId) -> u32
    ensures { result ≡ clock_number clock }
{
    match clock {
        ClockId::Realtime => 0,
        ClockId::Monotonic => 1,
        ClockId::Boottime => 7,
    }
}

/// The context of a number.
pub fn context_by_number(number: u32) -> Option<Context>
    ensures { result ≡ context_by_number number }
{
    if number == 0 {
        return Some(Context::Hard);
    }
    if number == 1 {
        return Some(Context::Soft);
    }
    None
}

/// The mode of a number, as `HRTIMER_MODE_ABS` and `HRTIMER_MODE_REL` of Linux; 2 is the restart's.
pub fn mode_by_number(number: u32) -> Option<Mode>
    ensures { result ≡ mode_by_number number }
{
    if number == 0 {
        return Some(Mode::Abs);
    }
    if number == 1 {
        return Some(Mode::Rel);
    }
    if number == 2 {
        return Some(Mode::Keep);
    }
    None
}

/// The reading of these times, if none is too late.
pub fn reading_by_times(now: &Time) -> Option<Reading>
    ensures { result ≡ reading_by_times now.now }
{
    if now.mono > LATEST || now.real > LATEST || now.boot > LATEST {
        return None;
    }
    Some(Reading {
        stamp: 0,
        mono: now.mono,
        real: now.real,
        boot: now.boot,
        changes: 0,
    })
}

/// The latest time that a clock may show.
const LATEST: u64 = 1 << 62;
