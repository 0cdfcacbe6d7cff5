//! Lanes that count on one value, each with a pass of its own, by `for_each_mut`.
ghost use Rattle.std.specs.Prelude.{◌≡◌, ℕ, ◌+◌, ◌<◌, ◌≤◌, List, [], None, length, All, IfOk, OnErr};
ghost use Rattle.pass_names.specs.Names.{IsLast};
ghost use Rattle.counted_row.specs.Views.{PassOfRow};
ghost use Rattle.table_uses.specs.declared.rows.counter.Counter.{Counter};
ghost use Rattle.table_uses.specs.Lanes.{IsIdleLane, IsMainPass, name_of};

use crate::rows::counter::{Counter, count};
use counted_row::{Row, RowPass};
use std::alloc::{AllocError, Global};
use std::sync::Wait;
use std::thread;
use std::thread::Threads;

/// What one thread works with: a pass of its own, and how many calls it has made.
pub struct Lane {
    pub pass: RowPass<Counter>,
    pub made: u64,
}

/// Counts in one lane.
fn turn<R: Wait>(rt: &R, row: &Row<Counter>, lane: &mut Lane, index: usize, times: u64)
    requires row { IsIdleLane row.now lane.old }
    requires within { index < length row.now.made }
    ensures row { IsIdleLane row.now lane.new }
    ensures name { name_of lane.new ≡ name_of lane.old }
    ensures most { lane.new.made ≤ times }
    ensures mine { length lane.new.pass.knows.pass.mine ≡ length lane.old.pass.knows.pass.mine + lane.new.made }
{
    lane.made = count(rt, row, &mut lane.pass, index, times);
}

/// Counts in all lanes, in at most so many threads.
pub fn count_in_lanes<R: Threads + Wait + Sync>(
    rt: &R,
    row: &Row<Counter>,
    lanes: &mut Vec<Lane>,
    index: usize,
    times: u64,
)
    requires row { All (λ lane. IsIdleLane row.now lane) lanes.old.items }
    requires within { index < length row.now.made }
    ensures row { All (λ lane. IsIdleLane row.now lane) lanes.new.items }
    ensures main { (main : PassOfRow Counter ℕ ℕ) → IsMainPass row.now main lanes.old.items → IsMainPass row.now main lanes.new.items }
{
    thread::for_each_mut(rt, lanes, 16, &|_, lane| turn(rt, row, lane, index, times));
}

/// So many lanes, each with a pass that was split off.
pub fn lanes_of(
    alloc: Global,
    row: &Row<Counter>,
    main: &mut RowPass<Counter>,
    lanes: usize,
) -> Result<Vec<Lane>, AllocError>
    requires main { IsMainPass row.now main.old [] }
    ensures lanes { IfOk result (λ v. (length v.items ≡ lanes) × All (λ lane. IsIdleLane row.now lane) v.items) }
    ensures main { IfOk result (λ v. IsMainPass row.now main.new v.items) }
    ensures err { OnErr result (IsMainPass row.now main.new [] × IsLast main.new.knows.pass.id) }
{
    let mut all = Vec::new(alloc);
    for _ in 0..lanes {
        let pass = row.split(main);
        if let Err(refused) = all.push(Lane { pass, made: 0 }) {
            let Lane { pass, made: _ } = refused.value;
            row.join(main, pass);
            retire_all(row, main, all);
            return Err(AllocError);
        }
    }
    Ok(all)
}

/// Takes all lanes' passes in. The first pass is then the last.
pub fn retire_all(row: &Row<Counter>, main: &mut RowPass<Counter>, mut lanes: Vec<Lane>)
    requires lanes { All (λ lane. IsIdleLane row.now lane) lanes.items }
    requires main { IsMainPass row.now main.old lanes.items }
    ensures main { IsMainPass row.now main.new [] }
    ensures last { IsLast main.new.knows.pass.id }
{
    while let Some(lane) = lanes.pop() {
        let Lane { pass, made: _ } = lane;
        row.join(main, pass);
    }
    lanes.destroy_empty();
}
