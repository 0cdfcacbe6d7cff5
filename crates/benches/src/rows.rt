//! Locks of a row's values, by one thread and by two.
ghost use Rattle.std.specs.Prelude.{◌≡◌, length, IfOk};
ghost use Rattle.benches.specs.Alone.{IsAlone};

mod report;
mod turns;

use crate::cases::Task;
use counted_row::{Row, RowPass};
use report::{VALUES, report};
use std::alloc::{AllocError, Global};
use std::io;
use std::sync::Wait;
use std::thread::Threads;
use std::time::Clock;
use table_uses::Counter;

/// So many counters at 0, and the first pass.
fn counters(alloc: Global, count: usize) -> Result<(Row<Counter>, RowPass<Counter>), AllocError>
    ensures alone { IfOk result (λ r. IsAlone r.0 r.1) }
    ensures values { IfOk result (λ r. length r.0.made ≡ count) }
{
    let values = vec![in alloc; Counter { total: 0 }; count]?;
    Row::make(alloc, values)
}

/// Prints a line for each case, by a row that is made for all.
pub fn print_lines<R: Threads + Wait + Sync + Clock + Print>(
    rt: &R,
    alloc: Global,
    task: Task,
) -> io::Result<()> {
    let (row, mut main) = counters(alloc, VALUES)?;
    let done = report(rt, &row, &mut main, task);
    row.close(main);
    done
}
