//! Each call of a `counted_row` once, by one thread, on values that keep the last number that they were given.
ghost use Rattle.std.specs.Prelude.{◌≡◌, ◌<◌, [], None, length, IfOk};
ghost use Rattle.pass_names.specs.Names.{IsLast};
ghost use Rattle.counted_row.specs.Views.{IsPassOfRow, MayLock, Sees};

use counted_row::{Object, Row, RowPass};
use std::alloc::{AllocError, Global};
use std::sync::Wait;
use std::test::Fail;

/// The last stamp at which a call may be made.
const LAST_STAMP: u64 = (1 << 48) - 1;

/// The last number that was given. A call gives another, and is answered the one before.
#[derive(Clone, Copy, Debug, PartialEq, Eq)]
struct Latest {
    number: u64,
}

impl Object for Latest {
    ghost use Rattle.std.specs.Prelude.{[]};
    ghost use Rattle.counted_row.specs.Meaning.{plain};

    type Call = u64;

    type Reply = u64;

    ghost meaning = { record { may = λ s n. Unit {0}; next = λ s n. record { number = n }; reply = λ s n. s.number; claims = λ s. []; effect = λ s n. plain } };

    fn apply(&mut self, call: &u64) -> u64 {
        let before = self.number;
        self.number = *call;
        before
    }

    fn counts() {}
}

fn two_values(alloc: Global) -> Result<(Row<Latest>, RowPass<Latest>), AllocError>
    ensures row { IfOk result (λ r. IsPassOfRow r.0 r.1 × (length r.0.made ≡ 2)) }
    ensures pass { IfOk result (λ r. (r.1.knows.held ≡ None) × (r.1.knows.claims ≡ []) × IsLast r.1.knows.pass.id) }
{
    let mut values = Vec::new(alloc);
    values.push(Latest { number: 5 })?;
    values.push(Latest { number: 7 })?;
    Row::make(alloc, values)
}

/// Gives a value another number, and answers how many it was given, and the one before.
fn give<R: Wait>(
    rt: &R,
    row: &Row<Latest>,
    pass: &mut RowPass<Latest>,
    index: usize,
    number: u64,
) -> Option<(u64, u64)>
    requires lock { MayLock row.now pass.old index }
    ensures row { IsPassOfRow row.now pass.new }
    ensures idle { pass.new.knows.held ≡ None }
    ensures id { pass.new.knows.pass.id ≡ pass.old.knows.pass.id }
    ensures claims { pass.new.knows.claims ≡ pass.old.knows.claims }
{
    let held = row.lock(rt, pass, index);
    if held.stamp() <= LAST_STAMP {
        Some(row.commit(pass, held, number))
    } else {
        row.release(pass, held);
        None
    }
}

/// What a value is while its lock is held, and what the release then answers.
#[derive(Clone, Copy, Debug, PartialEq, Eq)]
struct Found {
    index: usize,
    stamp: u64,
    number: u64,
    released: u64,
}

fn find<R: Wait>(rt: &R, row: &Row<Latest>, pass: &mut RowPass<Latest>, index: usize) -> Found
    requires lock { MayLock row.now pass.old index }
    ensures row { IsPassOfRow row.now pass.new }
    ensures sees { Sees pass.old pass.new }
{
    let held = row.lock(rt, pass, index);
    let (index, stamp, number) = (held.index(), held.stamp(), held.state().number);
    let released = row.release(pass, held);
    Found {
        index,
        stamp,
        number,
        released,
    }
}

#[test]
fn calls_on_a_value_are_counted_in_turn(rt: HostRuntime) -> Result<(), Fail> {
    let (row, mut pass) = two_values(rt.alloc())?;
    let first = give(&rt, &row, &mut pass, 1, 10);
    let second = give(&rt, &row, &mut pass, 1, 20);
    let stamps = (row.peek_stamp(&mut pass, 0), row.peek_stamp(&mut pass, 1));
    let found = find(&rt, &row, &mut pass, 1);
    let other = find(&rt, &row, &mut pass, 0);
    let length = row.len();
    row.close(pass);
    assert_eq!(rt; (first, second), (Some((1, 7)), Some((2, 10))));
    assert_eq!(rt; (stamps, length), ((0, 2), 2));
    assert_eq!(rt;
        found,
        Found {
            index: 1,
            stamp: 2,
            number: 20,
            released: 2
        }
    );
    assert_eq!(rt; (other.stamp, other.number), (0, 5));
    Ok(())
}

#[test]
fn what_one_pass_has_done_stays_after_a_meet_and_a_join(rt: HostRuntime) -> Result<(), Fail> {
    let (row, mut main) = two_values(rt.alloc())?;
    let mut other = row.split(&mut main);
    let given = give(&rt, &row, &mut other, 0, 10);
    row.meet(&mut main, &mut other);
    let met = row.peek_stamp(&mut main, 0);
    row.join(&mut main, other);
    let again = give(&rt, &row, &mut main, 0, 30);
    row.close(main);
    assert_eq!(rt; (given, met, again), (Some((1, 5)), 1, Some((2, 10))));
    Ok(())
}
