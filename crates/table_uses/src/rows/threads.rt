//! Two threads that count on one value, and what the stamp then is.
ghost use Rattle.std.specs.Prelude.{◌≡◌, ◌≢◌, ℕ, ◌^◌, ◌+◌, ◌<◌, ◌≤◌, [], None, length, IfOk};
ghost use Rattle.pass_names.specs.Counts.{count};
ghost use Rattle.pass_names.specs.Names.{IsLast};
ghost use Rattle.pass_names.specs.Passes.{is_place};
ghost use Rattle.counted_row.specs.Views.{IsPassOfRow, MayLock, Knows};
ghost use Rattle.table_uses.specs.Counters.{adding, Made};

use crate::rows::counter::{Counter, count};
use counted_row::{Row, RowPass};
use std::alloc::{AllocError, Global};
use std::sync::Wait;
use std::thread::{Threads, join_mut};

/// Two threads count on one value, each with a pass of its own.
fn count_both<R: Threads + Wait + Sync>(
    rt: &R,
    row: &Row<Counter>,
    first: &mut RowPass<Counter>,
    second: &mut RowPass<Counter>,
    index: usize,
    times: u64,
) -> (u64, u64)
    requires first { MayLock row.now first.old index }
    requires second { MayLock row.now second.old index }
    ensures row { IsPassOfRow row.now first.new × IsPassOfRow row.now second.new }
    ensures made { Made index result.0 first.old first.new × Made index result.1 second.old second.new }
    ensures most { (result.0 ≤ times) × (result.1 ≤ times) }
{
    join_mut(
        rt,
        &mut || count(rt, row, first, index, times),
        &mut || count(rt, row, second, index, times),
    )
}

/// The same with a pass that is split off for the purpose, and taken in again.
pub fn count_by_two<R: Threads + Wait + Sync>(
    rt: &R,
    row: &Row<Counter>,
    main: &mut RowPass<Counter>,
    index: usize,
    times: u64,
) -> (u64, u64)
    requires lock { MayLock row.now main.old index }
    ensures row { IsPassOfRow row.now main.new }
    ensures idle { main.new.knows.held ≡ None }
    ensures mine { length main.new.knows.pass.mine ≡ length main.old.knows.pass.mine + result.0 + result.1 }
    ensures elsewhere { (i k : ℕ) → i ≢ index → count (is_place i k) main.new.knows.pass.mine ≡ count (is_place i k) main.old.knows.pass.mine }
    ensures last { IsLast main.old.knows.pass.id → IsLast main.new.knows.pass.id }
    ensures claims { main.new.knows.claims ≡ main.old.knows.claims }
    ensures known { Knows adding main.new.knows }
    ensures most { (result.0 ≤ times) × (result.1 ≤ times) }
{
    let mut other = row.split(main);
    let made = count_both(rt, row, main, &mut other, index, times);
    row.join(main, other);
    made
}

/// What was found after two threads had counted on value 0 of two.
#[derive(Clone, Copy, Debug, PartialEq, Eq)]
pub struct Totals {
    pub made: u64,
    pub stamp: u64,
    pub state: u64,
    pub other: u64,
}

/// Makes two counters, and has two threads add one to the first, each so many times.
pub fn count_anew<R: Threads + Wait + Sync>(
    rt: &R,
    alloc: Global,
    times: u64,
) -> Result<Totals, AllocError>
    requires { times < 2 ^ 48 }

    // The history of the first has each call that was made, and the other's has none.
    ensures stamp { IfOk result (λ t. t.stamp ≡ t.made) }
    ensures other { IfOk result (λ t. t.other ≡ 0) }
{
    let mut values = Vec::new(alloc);
    values.push(Counter { total: 0 })?;
    values.push(Counter { total: 0 })?;
    let (row, mut pass) = Row::make(alloc, values)?;
    let (first, second) = count_by_two(rt, &row, &mut pass, 0, times);
    let stamp = row.peek_stamp(&mut pass, 0);
    let other = row.peek_stamp(&mut pass, 1);
    let held = row.lock(rt, &mut pass, 0);
    let state = held.state().total;
    row.release(&mut pass, held);
    row.close(pass);
    Ok(Totals {
        made: first + second,
        stamp,
        state,
        other,
    })
}
