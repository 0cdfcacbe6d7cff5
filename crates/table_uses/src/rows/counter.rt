//! A counter as a value of a row, and calls that add one to it under its lock.
ghost use Rattle.std.specs.Prelude.{◌≡◌, ◌+◌, ◌<◌, ◌≤◌, None, length, MatchBool};
ghost use Rattle.counted_row.specs.Views.{IsPassOfRow, MayLock};
ghost use Rattle.table_uses.specs.Counters.{Made};

use counted_row::{Object, Row, RowPass};
use std::sync::Wait;

/// The last stamp at which a call may be made.
const LAST_STAMP: u64 = (1 << 48) - 1;

/// A total. The call n adds n and replies the total.
#[derive(Clone, Copy, Debug, PartialEq, Eq)]
pub struct Counter {
    pub total: u64,
}

impl Object for Counter {
    type Call = u64;

    type Reply = u64;

    ghost use Rattle.table_uses.specs.Counters.{adding};

    ghost meaning = { adding };

    fn apply(&mut self, call: &u64) -> u64 {
        self.total += *call;
        self.total
    }

    fn counts() {}
}

/// Adds one to a counter, unless it or its history is full.
pub fn add_one<R: Wait>(
    rt: &R,
    row: &Row<Counter>,
    pass: &mut RowPass<Counter>,
    index: usize,
) -> bool
    requires lock { MayLock row.now pass.old index }
    ensures row { IsPassOfRow row.now pass.new }
    ensures made { MatchBool result (Made index 1 pass.old pass.new) (Made index 0 pass.old pass.new) }
{
    let held = row.lock(rt, pass, index);
    if held.stamp() <= LAST_STAMP && held.state().total < u64::MAX {
        row.commit(pass, held, 1);
        true
    } else {
        row.release(pass, held);
        false
    }
}

/// Adds one so many times, and answers how often it could.
pub fn count<R: Wait>(
    rt: &R,
    row: &Row<Counter>,
    pass: &mut RowPass<Counter>,
    index: usize,
    times: u64,
) -> u64
    requires lock { MayLock row.now pass.old index }
    ensures row { IsPassOfRow row.now pass.new }
    ensures made { Made index result pass.old pass.new }
    ensures most { result ≤ times }
{
    let mut made = 0;
    for _ in 0..times {
        if add_one(rt, row, pass, index) {
            made += 1;
        }
    }
    made
}
