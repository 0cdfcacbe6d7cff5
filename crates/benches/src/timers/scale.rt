//! A start and a cancel against how many timers are queued on the base.
ghost use Rattle.std.specs.Prelude.{◌≡◌, ◌<◌, ◌≤◌, length, IfOk};
ghost use Rattle.benches.specs.WorkingTimers.{IsUnclaimed};

use crate::figures::{Figure, Least};
use crate::random::Random;
use crate::timers::single::{cancel, start};
use hr_timers::{Pass, Timers};
use ktime::ClockId;
use std::alloc::{AllocError, Global};
use std::io;
use std::sync::Wait;
use std::time::{Clock, Instant};

/// At so many entries a timer takes no start any more.
const LIMIT: u64 = 1 << 40;

/// How often the timer is started and cancelled in a round.
const TIMES: u64 = 100_000;

const ROUNDS: u64 = 21;

/// The most timers that one `Timers` has.
const MOST: u32 = 65_536;

/// Starts all timers but the first.
fn fill<R: Wait>(rt: &R, timers: &Timers, pass: &mut Pass, count: u32, random: &mut Random)
    requires ready { IsUnclaimed timers.now pass.old }
    requires size { (timers.now.about.bases ≡ 1) × (length timers.now.about.timers ≡ count) }
    ensures ready { IsUnclaimed timers.now pass.new }
    ensures id { pass.new.known.id ≡ pass.old.known.id }
{
    for timer in 1..count {
        start(rt, timers, pass, timer, 0, 2000 + random.expiry());
    }
}

/// Starts and cancels the first timer, a round long.
fn pairs<R: Wait>(rt: &R, timers: &Timers, pass: &mut Pass, random: &mut Random)
    requires ready { IsUnclaimed timers.now pass.old }
    requires size { (timers.now.about.bases ≡ 1) × (0 < length timers.now.about.timers) }
    ensures ready { IsUnclaimed timers.now pass.new }
    ensures id { pass.new.known.id ≡ pass.old.known.id }
{
    for _ in 0..TIMES {
        start(rt, timers, pass, 0, 0, 2000 + random.expiry());
        cancel(rt, timers, pass, 0);
    }
}

/// The least time of the rounds.
fn rounds<R: Wait + Clock>(
    rt: &R,
    timers: &Timers,
    pass: &mut Pass,
    random: &mut Random,
) -> io::Result<Least>
    requires ready { IsUnclaimed timers.now pass.old }
    requires size { (timers.now.about.bases ≡ 1) × (0 < length timers.now.about.timers) }
    ensures ready { IsUnclaimed timers.now pass.new }
    ensures id { pass.new.known.id ≡ pass.old.known.id }
{
    let mut least = Least::new();
    for _ in 0..ROUNDS {
        let begin = Instant::now(rt)?;
        pairs(rt, timers, pass, random);
        least.take(Instant::now(rt)?.saturating_duration_since(begin));
    }
    Ok(least)
}

/// Prints what a start and a cancel take with so many timers queued, at least one and at most all but one of the most timers.
pub fn print_scale<R: Wait + Clock + Print>(rt: &R, alloc: Global, queued: u32) -> io::Result<()> {
    let queued = queued.clamp(1, MOST - 1);
    let count = queued + 1;
    let clocks = vec![in alloc; ClockId::Monotonic; count as usize]?;
    let (timers, mut pass) = Timers::make(alloc, 1, &clocks, LIMIT)?;
    let mut random = Random::new();
    fill(rt, &timers, &mut pass, count, &mut random);
    let least = rounds(rt, &timers, &mut pass, &mut random);
    timers.close(pass);
    let Figure { whole, tenths } = least?.of(TIMES);
    println!(rt; "hr_timers\tstart, cancel\tone thread\t{queued}\t1\t{whole}.{tenths}")
}
