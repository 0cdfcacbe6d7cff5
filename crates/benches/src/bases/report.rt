//! Which cases there are, and the line that is printed for each.
ghost use Rattle.std.specs.Prelude.{◌≡◌, ◌*◌, ◌^◌, ◌<◌, ◌≤◌, length, IfOk, [], None};
ghost use Rattle.benches.specs.WorkingBases.{AreBoth};

use crate::bases::filling::fill;
use crate::bases::turns::turns_of_all;
use crate::cases::{Task, Workers};
use crate::figures::{Figure, Least};
use base_row::{BaseRow, Pass};
use ktime::ClockId;
use seq_timer::{Declared, Terms};
use std::alloc::{AllocError, Global};
use std::io;
use std::sync::Wait;
use std::thread::Threads;
use std::time::{Clock, Instant};

/// At so many entries a timer takes no start any more.
const LIMIT: u64 = 1 << 40;

/// How often a thread starts and cancels a timer in a round.
const TIMES: u64 = 100_000;

const ROUNDS: u64 = 7;

/// Which threads work, how many timers are queued on each base, and how many timers each thread starts.
#[derive(Clone, Copy, Debug, PartialEq, Eq)]
struct Case {
    workers: Workers,
    queued: u32,
    started: u32,
}

/// How many entries some rounds made, and the least time of one.
#[derive(Clone, Copy, Debug, PartialEq, Eq)]
struct Done {
    made: u64,
    least: Least,
}

fn rounds<R: Threads + Wait + Sync + Clock>(
    rt: &R,
    row: &BaseRow,
    first: &mut Pass,
    second: &mut Pass,
    case: Case,
    load: (u64, u64),
) -> io::Result<Done>
    requires both { AreBoth row.now first.old second.old }
    requires size { (row.now.about.bases ≡ 2) × (0 < case.started) × (2 * case.started ≤ length row.now.about.timers) }
    requires few { (load.1 < 2 ^ 32) × (case.started < 2 ^ 16) }
    ensures both { AreBoth row.now first.new second.new }
{
    let mut least = Least::new();
    let mut made = 0u64;
    for _ in 0..load.0 {
        let start = Instant::now(rt)?;
        let entries = turns_of_all(rt, row, first, second, case.workers, case.started, load.1);
        least.take(Instant::now(rt)?.saturating_duration_since(start));
        made = made.saturating_add(entries);
    }
    Ok(Done { made, least })
}

/// Makes a row for a case, and works on it for so many rounds of so many turns.
fn run<R: Threads + Wait + Sync + Clock>(
    rt: &R,
    alloc: Global,
    case: Case,
    load: (u64, u64),
) -> io::Result<Done>
    requires size { (0 < case.queued) × (case.queued < 2 ^ 14) × (0 < case.started) × (case.started ≤ case.queued) }
    requires few { load.1 < 2 ^ 32 }
{
    let declared = Declared::hard(ClockId::Monotonic);
    let timers = vec![in alloc; declared; 4 * case.queued as usize]?;
    let (row, mut first) = BaseRow::make(alloc, 2, &timers, Terms::limited(LIMIT))?;
    let mut second = row.split(&mut first);
    fill(rt, &row, &mut first, case.queued, case.workers.other());
    let done = rounds(rt, &row, &mut first, &mut second, case, load);
    row.retire(&mut first, second);
    row.close(first);
    done
}

fn line<R: Threads + Wait + Sync + Clock + Print>(
    rt: &R,
    alloc: Global,
    task: Task,
    case: Case,
) -> io::Result<()>
    requires size { (0 < case.queued) × (case.queued < 2 ^ 14) × (0 < case.started) × (case.started ≤ case.queued) }
{
    let threads = case.workers.name();
    let Case {
        queued,
        started,
        ..
    } = case;
    match task {
        Task::Check => {
            let done = run(rt, alloc, case, (2, 10))?;
            println!(rt; "{threads}\t{queued}\t{started}\t{}", done.made)
        }
        Task::Measure => {
            let done = run(rt, alloc, case, (ROUNDS, TIMES))?;
            let Figure { whole, tenths } = done.least.of(TIMES);
            println!(rt; "base_row\t{threads}\t{queued}\t{started}\t{whole}.{tenths}")
        }
    }
}

/// Prints a line for each case.
pub fn print_lines<R: Threads + Wait + Sync + Clock + Print>(
    rt: &R,
    alloc: Global,
    task: Task,
) -> io::Result<()> {
    for queued in [256, 4096] {
        for workers in [Workers::One, Workers::OnTwoBases, Workers::OnOneBase] {
            line(
                rt,
                alloc,
                task,
                Case {
                    workers,
                    queued,
                    started: 1,
                },
            )?;
            line(
                rt,
                alloc,
                task,
                Case {
                    workers,
                    queued,
                    started: queued,
                },
            )?;
        }
    }
    Ok(())
}
