//! Which cases there are, and the line that is printed for each.
use crate::cases::Task;
use crate::clocks::alone;
use crate::clocks::turns::{self, Done, Load};
use std::alloc::{AllocError, Global};
use std::io;
use std::sync::Wait;
use std::thread::Threads;
use std::time::{Clock, Instant};

/// Readings a thread and a round.
const READS: u64 = 200_000;

const ROUNDS: u64 = 5;

#[derive(Clone, Copy, Debug, PartialEq, Eq)]
enum Readers {
    One,
    Two,
    /// One, and no other thread is there.
    Alone,
    /// The same, by `ordered_clock`.
    Ordered,
}

/// Who reads, and whether another writes; nobody does beside a thread that reads alone.
#[derive(Clone, Copy, Debug, PartialEq, Eq)]
struct Case {
    readers: Readers,
    writes: bool,
}

impl Case {
    fn name(self) -> &'static str {
        match (self.readers, self.writes) {
            (Readers::One, false) => "one thread reads",
            (Readers::One, true) => "one thread reads, another writes",
            (Readers::Two, false) => "two threads read",
            (Readers::Two, true) => "two threads read, a third writes",
            (Readers::Alone, _) => "one thread, alone, reads",
            (Readers::Ordered, _) => "one thread, alone, reads among timers' entries",
        }
    }

    /// Readings of all threads in all rounds.
    fn reads(self) -> u64 {
        match self.readers {
            Readers::One | Readers::Alone | Readers::Ordered => ROUNDS * READS,
            Readers::Two => 2 * ROUNDS * READS,
        }
    }

    fn run<R: Threads + Wait + Sync>(
        self,
        rt: &R,
        alloc: Global,
        load: Load,
    ) -> Result<Done, AllocError> {
        let load = Load {
            writes: if self.writes { load.writes } else { 0 },
            ..load
        };
        match self.readers {
            Readers::One => turns::one(rt, alloc, load),
            Readers::Two => turns::two(rt, alloc, load),
            Readers::Alone => alone::plain(rt, alloc, load.reads),
            Readers::Ordered => alone::ordered(rt, alloc, load.reads),
        }
    }
}

/// The time of all rounds, in nanoseconds, and how many writes were made in them.
fn measured<R: Threads + Wait + Sync + Clock>(
    rt: &R,
    alloc: Global,
    case: Case,
) -> io::Result<(u128, u64)> {
    let load = Load {
        reads: READS,
        writes: u64::MAX,
        stops: true,
    };
    let mut writes = 0u64;
    let start = Instant::now(rt)?;
    for _ in 0..ROUNDS {
        writes = writes.saturating_add(case.run(rt, alloc, load)?.made);
    }
    let took = Instant::now(rt)?.saturating_duration_since(start);
    Ok((took.as_nanos(), writes))
}

/// So many in a time in nanoseconds, as tenths of a million a second.
fn rate(count: u64, nanos: u128) -> u128 {
    u128::from(count) * 10_000 / nanos.max(1)
}

/// Prints how many readings all threads together took in a second, and how many writes were made. In a check it prints how many writes
/// were made, and the stamp after them, with a few of each.
fn line<R: Threads + Wait + Sync + Clock + Print>(
    rt: &R,
    alloc: Global,
    task: Task,
    case: Case,
) -> io::Result<()> {
    let name = case.name();
    match task {
        Task::Measure => {
            let (nanos, made) = measured(rt, alloc, case)?;
            let reads = rate(case.reads(), nanos);
            let writes = rate(made, nanos);
            println!(rt;
                "clock_cell\t{name}\t{}.{}\t{}.{}",
                reads / 10,
                reads % 10,
                writes / 10,
                writes % 10
            )
        }
        Task::Check => {
            let load = Load {
                reads: 10,
                writes: 10,
                stops: false,
            };
            let done = case.run(rt, alloc, load)?;
            println!(rt; "{name}\t{} {}", done.made, done.stamp)
        }
    }
}

/// Prints a line for each case.
pub fn print_lines<R: Threads + Wait + Sync + Clock + Print>(
    rt: &R,
    alloc: Global,
    task: Task,
) -> io::Result<()> {
    for (readers, writes) in [
        (Readers::One, false),
        (Readers::One, true),
        (Readers::Two, false),
        (Readers::Two, true),
        (Readers::Alone, false),
        (Readers::Ordered, false),
    ] {
        line(rt, alloc, task, Case { readers, writes })?;
    }
    Ok(())
}
