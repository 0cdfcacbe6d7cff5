//! Tests of `handoff`: each call of a handoff, on one thread.
ghost use Rattle.std.specs.Prelude.{◌≡◌, IfSome};
ghost use Rattle.handoff.specs.Seated.{MayGive, AwaitsWork};

use super::assert_equal;
use crate::handing::adding::{add, give_all};
use crate::{Addend, Load};
use handoff::{HandSeat, Handoff};
use std::sync::Wait;
use std::test::Fail;

/// Hands a number to the worker and back, on one thread. It answers what came back, and nothing where the worker got none.
fn through<R: Wait>(
    rt: &R,
    handoff: &Handoff<Load, Addend>,
    giver: &mut HandSeat<Load, Addend>,
    worker: &mut HandSeat<Load, Addend>,
    key: Addend,
    number: u32,
) -> Option<u64>
    requires key { handoff.now.key ≡ key }
    requires giver { MayGive handoff.now giver.old }
    requires worker { AwaitsWork handoff.now worker.old }
    ensures giver { MayGive handoff.now giver.new }
    ensures worker { IfSome result (λ _. AwaitsWork handoff.now worker.new) }
{
    let load = Load {
        number: number as u64,
    };
    handoff.give(giver, load);
    let Some(load) = handoff.next(rt, worker) else {
        let Load { number: _ } = handoff.take_back(rt, giver);
        return None;
    };
    handoff.give_back(worker, add(key, load));
    let Load { number } = handoff.take_back(rt, giver);
    Some(number)
}

#[test]
fn a_value_is_given_worked_on_and_taken_back(rt: HostRuntime) -> Result<(), Fail> {
    let key = Addend { by: 7 };
    let (handoff, mut giver, mut worker) = Handoff::make(rt.alloc(), &key)?;
    handoff.come();
    assert_equal(&rt, handoff.has_worker(&rt), true);
    let sum = through(&rt, &handoff, &mut giver, &mut worker, key, 5);
    assert_equal(&rt, sum, Some(12));
    handoff.end(&mut giver);
    handoff.close(giver);
    Ok(())
}

#[test]
fn a_giver_without_a_worker_does_the_work(rt: HostRuntime) -> Result<(), Fail> {
    let key = Addend { by: 7 };
    let mut sums = Vec::with_capacity(rt.alloc(), 2)?;
    let (handoff, mut giver, _) = Handoff::make(rt.alloc(), &key)?;
    assert_equal(&rt, handoff.has_worker(&rt), false);
    give_all(&rt, &handoff, &mut giver, key, &[1, 2], &mut sums);
    handoff.close(giver);
    assert_equal(&rt, sums.as_slice(), &[8, 9]);
    Ok(())
}

#[test]
fn a_worker_that_comes_late_is_seen(rt: HostRuntime) -> Result<(), Fail> {
    let (handoff, mut giver, _) = Handoff::<Load, Addend>::make(rt.alloc(), &Addend { by: 7 })?;
    assert_equal(&rt, handoff.has_worker(&rt), false);
    handoff.come();
    assert_equal(&rt, handoff.has_worker(&rt), true);
    handoff.end(&mut giver);
    handoff.close(giver);
    Ok(())
}

#[test]
fn after_the_end_there_is_no_next_value(rt: HostRuntime) -> Result<(), Fail> {
    let (handoff, mut giver, mut worker) = Handoff::<Load, Addend>::make(
        rt.alloc(),
        &Addend { by: 7 },
    )?;
    handoff.end(&mut giver);
    let next = match handoff.next(&rt, &mut worker) {
        Some(load) => {
            let Load { number } = load;
            Some(number)
        }
        None => None,
    };
    assert_equal(&rt, next, None);
    handoff.close(giver);
    Ok(())
}
