//! Which cases there are, and the line that is printed for each.
ghost use Rattle.std.specs.Prelude.{◌≡◌, ◌<◌, length, IfSome};
ghost use Rattle.benches.specs.Alone.{IsAlone};

use crate::cases::Task;
use crate::figures::{Figure, Least};
use crate::rows::turns::{Ending, run};
use counted_row::{Row, RowPass};
use std::io;
use std::sync::Wait;
use std::thread::Threads;
use std::time::{Clock, Instant};
use table_uses::Counter;

/// How many values the row has: as many as the greatest row that is promised.
pub const VALUES: usize = 4096;

/// A value far from the first: other values lie between them.
const FAR: usize = 31;

/// Locks a thread and a round.
const LOCKS: u64 = 500_000;

const ROUNDS: u64 = 5;

/// Which values the threads work on. The first thread is on value 0.
#[derive(Clone, Copy, Debug, PartialEq, Eq)]
enum Place {
    Alone,
    Beside,
    Apart,
    Same,
}

impl Place {
    fn name(self) -> &'static str {
        match self {
            Place::Alone => "one thread, one value",
            Place::Beside => "two threads, values side by side",
            Place::Apart => "two threads, values far apart",
            Place::Same => "two threads, one value",
        }
    }

    /// The value of the second thread, if there is one.
    fn second(self) -> Option<usize>
        ensures { IfSome result (λ index. index < 4096) }
    {
        match self {
            Place::Alone => None,
            Place::Beside => Some(1),
            Place::Apart => Some(FAR),
            Place::Same => Some(0),
        }
    }
}

/// The least time of some rounds, for each lock of a thread.
fn least<R: Threads + Wait + Sync + Clock>(
    rt: &R,
    row: &Row<Counter>,
    main: &mut RowPass<Counter>,
    place: Place,
    ending: Ending,
) -> io::Result<Figure>
    requires alone { IsAlone row.now main.old }
    requires values { length row.now.made ≡ 4096 }
    ensures alone { IsAlone row.now main.new }
{
    let mut least = Least::new();
    for _ in 0..ROUNDS {
        let start = Instant::now(rt)?;
        run(rt, row, main, place.second(), ending, LOCKS);
        least.take(Instant::now(rt)?.saturating_duration_since(start));
    }
    Ok(least.of(LOCKS))
}

/// Prints the nanoseconds that a lock and its end take. In a check it prints how many calls were made on three of the values, after a few.
fn line<R: Threads + Wait + Sync + Clock + Print>(
    rt: &R,
    row: &Row<Counter>,
    main: &mut RowPass<Counter>,
    task: Task,
    ending: Ending,
    place: Place,
) -> io::Result<()>
    requires alone { IsAlone row.now main.old }
    requires values { length row.now.made ≡ 4096 }
    ensures alone { IsAlone row.now main.new }
{
    let name = place.name();
    let end = match ending {
        Ending::Commit => "commit",
        Ending::Release => "release",
    };
    match task {
        Task::Measure => {
            let Figure { whole, tenths } = least(rt, row, main, place, ending)?;
            println!(rt; "counted_row, {end}\t{name}\t{whole}.{tenths}")
        }
        Task::Check => {
            run(rt, row, main, place.second(), ending, 10);
            let first = row.peek_stamp(main, 0);
            let beside = row.peek_stamp(main, 1);
            let far = row.peek_stamp(main, FAR);
            println!(rt; "{end}\t{name}\t{first} {beside} {far}")
        }
    }
}

fn lines<R: Threads + Wait + Sync + Clock + Print>(
    rt: &R,
    row: &Row<Counter>,
    main: &mut RowPass<Counter>,
    task: Task,
    ending: Ending,
) -> io::Result<()>
    requires alone { IsAlone row.now main.old }
    requires values { length row.now.made ≡ 4096 }
    ensures alone { IsAlone row.now main.new }
{
    for place in [Place::Alone, Place::Beside, Place::Apart, Place::Same] {
        line(rt, row, main, task, ending, place)?;
    }
    Ok(())
}

/// Prints a line for each case.
pub fn report<R: Threads + Wait + Sync + Clock + Print>(
    rt: &R,
    row: &Row<Counter>,
    main: &mut RowPass<Counter>,
    task: Task,
) -> io::Result<()>
    requires alone { IsAlone row.now main.old }
    requires values { length row.now.made ≡ 4096 }
    ensures alone { IsAlone row.now main.new }
{
    lines(rt, row, main, task, Ending::Commit)?;
    lines(rt, row, main, task, Ending::Release)
}
