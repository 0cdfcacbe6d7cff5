//! Which cases there are, and the line that is printed for each.
ghost use Rattle.std.specs.Prelude.{◌≤◌};
ghost use Rattle.benches.specs.Stands.{IsBenchStand, KeepsStand};

use crate::cases::Task;
use crate::figures::{Figure, Least};
use crate::objects::stand::Stand;
use crate::objects::turns::{Turn, turns};
use std::alloc::Global;
use std::io;
use std::sync::Wait;
use std::time::{Clock, Instant};
use timer_objects::Kind;

/// How often an operation is done in a round.
const TIMES: u64 = 51_200;

/// So many turns, and their time. It answers whether all calls answered as they should.
fn round<R: Wait + Clock>(
    rt: &R,
    stand: &mut Stand,
    turn: Turn,
    times: u64,
    least: &mut Least,
) -> bool
    requires stand { IsBenchStand stand.old }
    ensures keeps { KeepsStand stand.old stand.new }
{
    let start = Instant::now(rt);
    let done = turns(rt, stand, turn, times);
    if let (Ok(start), Ok(end)) = (start, Instant::now(rt)) {
        least.take(end.saturating_duration_since(start));
    }
    matches!(done, Ok(true))
}

/// Makes objects, and so many rounds. It answers whether all calls answered as they should, and the least time of a round.
fn run<R: Wait + Clock>(
    rt: &R,
    alloc: Global,
    kind: Kind,
    turn: Turn,
    count: u32,
    load: (u64, u64),
) -> io::Result<(bool, Least)>
    requires few { count ≤ 256 }
{
    let mut stand = Stand::open(alloc, kind, count)?;
    let (mut good, mut least) = (true, Least::new());
    for _ in 0..load.0 {
        good &= round(rt, &mut stand, turn, load.1, &mut least);
    }
    stand.close();
    Ok((good, least))
}

fn line<R: Wait + Clock + Print>(
    rt: &R,
    alloc: Global,
    task: Task,
    case: (&str, Kind, Turn),
    count: u32,
) -> io::Result<()>
    requires few { count ≤ 256 }
{
    let (name, kind, turn) = case;
    match task {
        Task::Check => {
            let (good, _) = run(rt, alloc, kind, turn, count, (2, 3))?;
            println!(rt; "{name}\t{count}\t{good}")
        }
        Task::Measure => {
            let load = (7, TIMES / u64::from(count.max(1)));
            let (_, least) = run(rt, alloc, kind, turn, count, load)?;
            let Figure { whole, tenths } = least.of(TIMES);
            println!(rt; "timer_objects\t{name}\t{count}\t{whole}.{tenths}")
        }
    }
}

/// Prints a line for each case.
pub fn print_lines<R: Wait + Clock + Print>(rt: &R, alloc: Global, task: Task) -> io::Result<()> {
    for case in [
        ("POSIX timer\tsettime, settime 0", Kind::Posix, Turn::Clear),
        (
            "POSIX timer\tsettime, expiry, accept",
            Kind::Posix,
            Turn::Expire,
        ),
        ("POSIX timer\tgetoverrun", Kind::Posix, Turn::Look),
        ("descriptor\tsettime, settime 0", Kind::Fd, Turn::Clear),
        ("descriptor\tsettime, expiry, read", Kind::Fd, Turn::Expire),
        ("descriptor\tpoll", Kind::Fd, Turn::Look),
    ] {
        for count in [1, 256] {
            line(rt, alloc, task, case, count)?;
        }
    }
    Ok(())
}
