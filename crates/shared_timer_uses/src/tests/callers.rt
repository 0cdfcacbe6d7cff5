//! The callers on one thread, and an expiry run of each context.
ghost use Rattle.std.specs.Prelude.{◌≡◌, ◌≤◌, [], length, IfOk};
ghost use Rattle.pass_names.specs.Names.{IsLast};
ghost use Rattle.hr_timers.specs.Known.{IsPassOf};

use super::{HARD, SOFT, assert_equal, some_timers};
use crate::{
    OneShot, Stopped, Tick, expire_once, expire_periodic, start_once, stop_and_wait, stop_now,
};
use hr_timers::{ExpireAnswer, Log, Pass, Timers, expire, expire_soft};
use ktime::{Mode, Reading};
use seq_timer::Moved;
use std::alloc::{AllocError, Global};
use std::sync::Wait;
use std::test::Fail;

#[test]
fn each_caller_is_answered(rt: HostRuntime) -> Result<(), Fail> {
    let (timers, mut pass, mut log) = some_timers(rt.alloc(), 1, 1)?;
    start_once(&rt, &timers, &mut pass, 0, 100, 0, Reading::at(0));
    let moved = Moved {
        count: 4,
        soft: 140,
        expires: 140,
    };
    let told = expire_periodic(&rt, &timers, &mut pass, 0, Reading::at(135), 10, &mut log);
    assert_equal(&rt, told, Some(Tick { timer: 0, moved }));
    assert!(rt; stop_and_wait(&rt, &timers, &mut pass, 0));
    start_once(&rt, &timers, &mut pass, 0, 100, 0, Reading::at(0));
    assert_equal(&rt, stop_now(&timers, &mut pass, 0), Stopped::Disarmed);
    let armed = start_once(&rt, &timers, &mut pass, 0, 100, 0, Reading::at(5));
    assert_equal(&rt, armed, Some(8));
    let ran = expire_once(&rt, &timers, &mut pass, 0, Reading::at(105), &mut log);
    assert_equal(&rt, ran, Some(0));
    assert_equal(&rt, log.receipts().len(), 4);
    timers.close(pass);
    Ok(())
}

/// Timer 0 of the hard context and timer 1 of the soft one, both due at once on base 0, and a log with room for 16 receipts.
fn two_contexts<R: Wait>(
    rt: &R,
    alloc: Global,
    now: Reading,
) -> Result<(Timers, Pass, Log), AllocError>
    ensures pass { IfOk result (λ r. IsPassOf r.0 r.1 × IsLast r.1.known.id × (r.1.known.claims ≡ [])) }
    ensures size { IfOk result (λ r. (length r.0.about.timers ≡ 2) × (r.0.about.bases ≡ 1)) }
    ensures room { IfOk result (λ r. 16 ≤ r.2.spare) }
{
    let mut log = Log::make(alloc);
    log.reserve(16)?;
    let (timers, mut pass) = Timers::make_full(alloc, 1, &[HARD, SOFT], 100)?;
    timers.start(rt, &mut pass, 0, Mode::Rel, 0, 0, now);
    timers.start(rt, &mut pass, 1, Mode::Rel, 0, 0, now);
    Ok((timers, pass, log))
}

#[test]
fn each_context_has_an_expiry_run_of_its_own(rt: HostRuntime) -> Result<(), Fail> {
    let now = Reading::at(0);
    let (timers, mut pass, mut log) = two_contexts(&rt, rt.alloc(), now)?;
    let mut shot = OneShot { ran: None };
    let hard = expire(&rt, &timers, &mut pass, 0, now, 4, &mut shot, &mut log);
    assert_equal(&rt, hard, ExpireAnswer::Done { fired: 1 });
    assert_equal(&rt, shot.ran, Some(0));
    let soft = expire_soft(&rt, &timers, &mut pass, 0, now, 4, &mut shot, &mut log);
    assert_equal(&rt, soft, ExpireAnswer::Done { fired: 1 });
    assert_equal(&rt, shot.ran, Some(1));
    assert_equal(&rt, log.receipts().len(), 4);
    timers.close(pass);
    Ok(())
}
