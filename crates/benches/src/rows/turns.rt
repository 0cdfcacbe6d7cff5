//! What the threads do: the lock of a value, then a commit or a release, so many times.
ghost use Rattle.std.specs.Prelude.{◌≡◌, ◌<◌, ◌≤◌, None, length, IfSome};
ghost use Rattle.counted_row.specs.Views.{IsPassOfRow};
ghost use Rattle.table_uses.specs.Counters.{Made};
ghost use Rattle.benches.specs.Alone.{IsAlone};

use counted_row::{Row, RowPass};
use std::sync::Wait;
use std::thread::{Threads, join_mut};
use table_uses::{Counter, count};

/// How a lock is let go.
#[derive(Clone, Copy, Debug, PartialEq, Eq)]
pub enum Ending {
    Commit,
    Release,
}

/// Takes the lock and lets it go, with no call.
fn look<R: Wait>(rt: &R, row: &Row<Counter>, pass: &mut RowPass<Counter>, index: usize, times: u64)
    requires row { IsPassOfRow row.now pass.old }
    requires within { index < length row.now.made }
    requires idle { pass.old.knows.held ≡ None }
    ensures row { IsPassOfRow row.now pass.new }
    ensures none { Made index 0 pass.old pass.new }
{
    for _ in 0..times {
        let held = row.lock(rt, pass, index);
        row.release(pass, held);
    }
}

/// Takes the lock so many times, and answers how many calls were made.
fn turn<R: Wait>(
    rt: &R,
    row: &Row<Counter>,
    pass: &mut RowPass<Counter>,
    index: usize,
    ending: Ending,
    times: u64,
) -> u64
    requires row { IsPassOfRow row.now pass.old }
    requires within { index < length row.now.made }
    requires idle { pass.old.knows.held ≡ None }
    ensures row { IsPassOfRow row.now pass.new }
    ensures made { Made index result pass.old pass.new }
    ensures most { result ≤ times }
    ensures none { ending ≡ Ending.Release → result ≡ 0 }
{
    match ending {
        Ending::Commit => count(rt, row, pass, index, times),
        Ending::Release => {
            look(rt, row, pass, index, times);
            0
        }
    }
}

/// Two threads, each with a pass of its own: the first on value 0.
fn turn_both<R: Threads + Wait + Sync>(
    rt: &R,
    row: &Row<Counter>,
    first: &mut RowPass<Counter>,
    second: &mut RowPass<Counter>,
    index: usize,
    ending: Ending,
    times: u64,
) -> (u64, u64)
    requires row { IsPassOfRow row.now first.old × IsPassOfRow row.now second.old }
    requires within { index < length row.now.made }
    requires idle { (first.old.knows.held ≡ None) × (second.old.knows.held ≡ None) }
    ensures row { IsPassOfRow row.now first.new × IsPassOfRow row.now second.new }
    ensures made { Made 0 result.0 first.old first.new × Made index result.1 second.old second.new }
{
    join_mut(
        rt,
        &mut || turn(rt, row, first, 0, ending, times),
        &mut || turn(rt, row, second, index, ending, times),
    )
}

/// One thread on value 0, or a second one beside it on the value that is named.
pub fn run<R: Threads + Wait + Sync>(
    rt: &R,
    row: &Row<Counter>,
    main: &mut RowPass<Counter>,
    second: Option<usize>,
    ending: Ending,
    times: u64,
)
    requires alone { IsAlone row.now main.old }
    requires first { 0 < length row.now.made }
    requires second { IfSome second (λ index. index < length row.now.made) }
    ensures alone { IsAlone row.now main.new }
{
    match second {
        Some(index) => {
            let mut other = row.split(main);
            turn_both(rt, row, main, &mut other, index, ending, times);
            row.join(main, other);
        }
        None => {
            turn(rt, row, main, 0, ending, times);
        }
    }
}
