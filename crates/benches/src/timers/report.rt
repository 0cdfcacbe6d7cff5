//! Which cases there are, and the line that is printed for each.
ghost use Rattle.std.specs.Prelude.{◌≡◌, ◌*◌, ◌^◌, ◌<◌, ◌≤◌, length, IfOk};
ghost use Rattle.benches.specs.WorkingTimers.{AreTwoPasses, IsUnclaimed, MadeEntries};

use crate::cases::{Task, Workers};
use crate::figures::{Figure, Least};
use crate::random::Random;
use crate::timers::single::{cancel, start};
use crate::timers::turns::{Op, turns_of_all};
use hr_timers::{Pass, Timers};
use ktime::ClockId;
use std::alloc::{AllocError, Global};
use std::io;
use std::sync::Wait;
use std::thread::Threads;
use std::time::{Clock, Instant};

/// How many timers are queued on each base.
const QUEUED: u32 = 256;

/// At so many entries a timer takes no start any more.
const LIMIT: u64 = 1 << 40;

/// How often a thread makes the calls in a round.
const TIMES: u64 = 100_000;

const ROUNDS: u64 = 7;

/// How many entries some rounds made, and the least time of one.
#[derive(Clone, Copy, Debug, PartialEq, Eq)]
struct Done {
    made: u64,
    least: Least,
}

/// Starts all timers but two in turn on the two bases, and leaves these two idle: the first on base 0, the other one on the base that is named.
/// It answers how many entries that made.
fn fill<R: Wait>(rt: &R, timers: &Timers, pass: &mut Pass, second: u32) -> u64
    requires ready { IsUnclaimed timers.now pass.old }
    requires size { (timers.now.about.bases ≡ 2) × (length timers.now.about.timers ≡ 514) }
    requires base { second < 2 }
    ensures ready { IsUnclaimed timers.now pass.new }
    ensures worked { MadeEntries result pass.old pass.new }
    ensures most { result ≤ 1540 }
{
    let mut random = Random::new();
    let mut made = 0;
    for timer in 2..2 * QUEUED + 2 {
        made += start(rt, timers, pass, timer, timer % 2, 2000 + random.expiry());
    }
    made += start(rt, timers, pass, 1, second, 2000);
    made + cancel(rt, timers, pass, 1)
}

fn rounds<R: Threads + Wait + Sync + Clock>(
    rt: &R,
    timers: &Timers,
    first: &mut Pass,
    second: &mut Pass,
    case: (Workers, Op),
    load: (u64, u64),
) -> io::Result<Done>
    requires both { AreTwoPasses timers.now first.old second.old }
    requires size { (timers.now.about.bases ≡ 2) × (2 ≤ length timers.now.about.timers) }
    requires few { load.1 < 2 ^ 32 }
    ensures both { AreTwoPasses timers.now first.new second.new }
{
    let mut least = Least::new();
    let mut made = 0u64;
    for _ in 0..load.0 {
        let start = Instant::now(rt)?;
        let entries = turns_of_all(rt, timers, first, second, case.0, case.1, load.1);
        least.take(Instant::now(rt)?.saturating_duration_since(start));
        made = made.saturating_add(entries);
    }
    Ok(Done { made, least })
}

/// What the stamps of all timers add up to.
fn stamps(timers: &Timers, pass: &mut Pass) -> u64
    requires ready { IsUnclaimed timers.now pass.old }
    requires size { length timers.now.about.timers ≡ 514 }
    ensures ready { IsUnclaimed timers.now pass.new }
    ensures id { pass.new.known.id ≡ pass.old.known.id }
{
    let mut sum = 0u64;
    for timer in 0..2 * QUEUED + 2 {
        sum = sum.saturating_add(timers.peek(pass, timer).stamp);
    }
    sum
}

/// Makes timers for a case, and makes its calls. It answers also by how much the stamps differ from the entries that were made.
fn run<R: Threads + Wait + Sync + Clock>(
    rt: &R,
    alloc: Global,
    case: (Workers, Op),
    load: (u64, u64),
) -> io::Result<(Done, u64)>
    requires few { load.1 < 2 ^ 32 }
{
    let clocks = vec![in alloc; ClockId::Monotonic; 2 * QUEUED as usize + 2]?;
    let (timers, mut first) = Timers::make(alloc, 2, &clocks, LIMIT)?;
    let mut second = timers.split(&mut first);
    let filled = fill(rt, &timers, &mut first, case.0.other());
    let done = rounds(rt, &timers, &mut first, &mut second, case, load);
    timers.retire(&mut first, second);
    let stamps = stamps(&timers, &mut first);
    timers.close(first);
    let done = done?;
    Ok((done, stamps.abs_diff(done.made.saturating_add(filled))))
}

fn line<R: Threads + Wait + Sync + Clock + Print>(
    rt: &R,
    alloc: Global,
    task: Task,
    case: (Workers, Op),
) -> io::Result<()> {
    let threads = case.0.name();
    let op = case.1.name();
    match task {
        Task::Check => {
            let (_, lost) = run(rt, alloc, case, (2, 10))?;
            println!(rt; "{op}\t{threads}\t{lost} lost")
        }
        Task::Measure => {
            let (done, _) = run(rt, alloc, case, (ROUNDS, TIMES))?;
            let Figure { whole, tenths } = done.least.of(TIMES);
            println!(rt; "hr_timers\t{op}\t{threads}\t{QUEUED}\t1\t{whole}.{tenths}")
        }
    }
}

/// Prints a line for each case.
pub fn print_lines<R: Threads + Wait + Sync + Clock + Print>(
    rt: &R,
    alloc: Global,
    task: Task,
) -> io::Result<()> {
    for op in [Op::StartCancel, Op::StartCancelNow, Op::StartRun, Op::Peek] {
        for workers in [Workers::One, Workers::OnTwoBases, Workers::OnOneBase] {
            line(rt, alloc, task, (workers, op))?;
        }
    }
    Ok(())
}
