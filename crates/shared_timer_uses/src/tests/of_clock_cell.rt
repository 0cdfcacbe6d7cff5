//! The shared clock of `clock_cell`: each call on its happy path, passes that meet, and two threads that write.
ghost use Rattle.std.specs.Prelude.{◌≡◌, ◌≤◌, IfOk};
ghost use Rattle.clock_cell.specs.Views.{IsPassOfClock};

use super::assert_equal;
use clock_cell::{ClockPass, SharedClock, WriteAnswer};
use ktime::Reading;
use std::sync::Wait;
use std::test::Fail;
use std::thread::{Threads, join_mut};

/// Advances the clock with one pass, tells the other, and reads with that one.
fn advance_and_tell<R: Wait>(
    rt: &R,
    clock: &SharedClock,
    a: &mut ClockPass,
    b: &mut ClockPass,
    by: u64,
) -> (WriteAnswer, Reading)
    requires pass { IsPassOfClock clock.now a.old × IsPassOfClock clock.now b.old }
    ensures pass { IsPassOfClock clock.now a.new × IsPassOfClock clock.now b.new }
    ensures id { (a.new.knows.pass.id ≡ a.old.knows.pass.id) × (b.new.knows.pass.id ≡ b.old.knows.pass.id) }
{
    let answer = clock.advance(rt, a, by);
    clock.meet(a, b);
    (answer, clock.read(rt, b))
}

/// Two threads advance the clock, each with a pass of its own, and the passes then meet. It answers
/// what each write came to, and what each pass then read.
fn advance_both_and_meet<R: Threads + Wait + Sync>(
    rt: &R,
    clock: &SharedClock,
    a: &mut ClockPass,
    b: &mut ClockPass,
    by: u64,
) -> ((WriteAnswer, WriteAnswer), (Reading, Reading))
    requires pass { IsPassOfClock clock.now a.old × IsPassOfClock clock.now b.old }
    ensures pass { IsPassOfClock clock.now a.new × IsPassOfClock clock.now b.new }
    ensures id { (a.new.knows.pass.id ≡ a.old.knows.pass.id) × (b.new.knows.pass.id ≡ b.old.knows.pass.id) }
    ensures later { IfOk result.0.0 (λ r. r.stamp ≤ result.1.1.stamp) × IfOk result.0.1 (λ r. r.stamp ≤ result.1.1.stamp) }
    ensures first { result.1.1.stamp ≤ result.1.0.stamp }
{
    let answers = join_mut(
        rt,
        &mut || clock.advance(rt, a, by),
        &mut || clock.advance(rt, b, by),
    );
    (answers, clock.meet_and_read(rt, a, b))
}

#[test]
fn after_a_meet_both_have_read_what_both_wrote(rt: HostRuntime) -> Result<(), Fail> {
    let (clock, mut a) = SharedClock::make(rt.alloc())?;
    let mut b = clock.split(&mut a);
    let (answer, told) = advance_and_tell(&rt, &clock, &mut a, &mut b, 5);
    let (answers, readings) = advance_both_and_meet(&rt, &clock, &mut a, &mut b, 5);
    clock.join(&mut a, b);
    clock.close(a);
    assert_equal(&rt, answer, Ok(told));
    assert!(rt; answers.0.is_ok() && answers.1.is_ok());
    assert_equal(&rt, (readings.0.stamp, readings.0.mono), (3, 15));
    assert_equal(&rt, (readings.1.stamp, readings.1.mono), (3, 15));
    Ok(())
}

#[test]
fn each_write_is_made_once(rt: HostRuntime) -> Result<(), Fail> {
    let (clock, mut pass) = SharedClock::make(rt.alloc())?;
    let answers = [
        clock.advance(&rt, &mut pass, 5),
        clock.suspend(&rt, &mut pass, 50),
        clock.set_real(&rt, &mut pass, 7),
        clock.set_real(&rt, &mut pass, 7),
    ];
    let reading = clock.read(&rt, &mut pass);
    clock.close(pass);
    let now = Reading {
        stamp: 4,
        mono: 5,
        real: 7,
        boot: 55,
        changes: 2,
    };
    assert_equal(&rt, reading, now);
    let stamps = answers.map(|answer| answer.map(|r| r.stamp));
    assert_equal(&rt, stamps, [Ok(1), Ok(2), Ok(3), Ok(4)]);
    Ok(())
}
