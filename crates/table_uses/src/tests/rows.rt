//! The callers of rows, run: totals after two threads and eight lanes, and the row of no values.
ghost use Rattle.std.specs.Prelude.{◌≡◌, [], length, IfOk};
ghost use Rattle.pass_names.specs.Names.{IsLast};
ghost use Rattle.table_uses.specs.Lanes.{IsMainPass};

use crate::{Counter, Totals, count_anew, count_in_lanes, lanes_of, retire_all};
use counted_row::{Row, RowPass};
use std::alloc::{AllocError, Global};
use std::sync::Wait;
use std::test::Fail;
use std::thread::Threads;

fn one_counter(alloc: Global) -> Result<(Row<Counter>, RowPass<Counter>), AllocError>
    ensures { IfOk result (λ r. IsMainPass r.0 r.1 [] × IsLast r.1.knows.pass.id × (length r.0.made ≡ 1)) }
{
    let mut values = Vec::new(alloc);
    values.push(Counter { total: 5 })?;
    Row::make(alloc, values)
}

/// Counts in so many lanes, and answers the stamp and the state after.
fn count_by_lanes<R: Threads + Wait + Sync>(
    rt: &R,
    alloc: Global,
    lanes: usize,
    times: u64,
) -> Result<(u64, u64), AllocError> {
    let (row, mut main) = one_counter(alloc)?;
    let mut lanes = match lanes_of(alloc, &row, &mut main, lanes) {
        Ok(lanes) => lanes,
        Err(refused) => {
            row.close(main);
            return Err(refused);
        }
    };
    count_in_lanes(rt, &row, &mut lanes, 0, times);
    retire_all(&row, &mut main, lanes);
    let held = row.lock(rt, &mut main, 0);
    let state = held.state().total;
    let stamp = row.release(&mut main, held);
    row.close(main);
    Ok((stamp, state))
}

#[test]
fn two_threads_lose_no_call(rt: HostRuntime) -> Result<(), Fail> {
    let found = count_anew(&rt, rt.alloc(), 1000)?;
    assert_eq!(rt;
        found,
        Totals {
            made: 2000,
            stamp: 2000,
            state: 2000,
            other: 0
        }
    );
    Ok(())
}

#[test]
fn eight_lanes_lose_no_call(rt: HostRuntime) -> Result<(), Fail> {
    let found = count_by_lanes(&rt, rt.alloc(), 8, 100)?;
    assert_eq!(rt; found, (800, 805));
    Ok(())
}

#[test]
fn a_row_of_no_values_is_made_split_and_joined(rt: HostRuntime) -> Result<(), Fail> {
    let values: Vec<Counter> = Vec::new(rt.alloc());
    let (row, mut first) = Row::make(rt.alloc(), values)?;
    let mut second = row.split(&mut first);
    row.meet(&mut first, &mut second);
    row.join(&mut first, second);
    assert_eq!(rt; row.len(), 0);
    row.close(first);
    Ok(())
}
