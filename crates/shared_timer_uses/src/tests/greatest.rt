//! As many bases and as many timers as there may be, with as great a limit.
ghost use Rattle.std.specs.Prelude.{◌≡◌, ◌<◌, ◌≤◌, length};
ghost use Rattle.hr_timers.specs.Known.{IsPassOf};

use super::{HARD, assert_equal, kept};
use hr_timers::{OfflineAnswer, Pass, StartAnswer, Timers};
use ktime::{ClockId, Mode, Reading};
use seq_timer::CancelAnswer;
use std::alloc::{AllocError, Global};
use std::sync::Wait;
use std::test::Fail;

/// The greatest limit on the entries of a timer.
const LIMIT: u64 = (1 << 48) - 16;

/// Of so many timers starts the last one on the last of so many bases, and cancels it.
fn start_last<R: Wait>(
    rt: &R,
    alloc: Global,
    bases: u32,
    count: u32,
) -> Result<(StartAnswer, CancelAnswer), AllocError>
    requires bases { (0 < bases) × (bases ≤ 64) }
    requires timers { (0 < count) × (count ≤ 65536) }
{
    let clocks = vec![in alloc; ClockId::Monotonic; count as usize]?;
    let (timers, mut pass) = Timers::make(alloc, bases, &clocks, LIMIT)?;
    let (timer, base, now) = (count - 1, bases - 1, Reading::at(0));
    let started = timers.start(rt, &mut pass, timer, Mode::Abs, 7, base, now);
    let cancelled = timers.try_to_cancel(rt, &mut pass, timer);
    timers.close(pass);
    Ok((started, cancelled))
}

#[test]
fn the_last_base_takes_a_timer(rt: HostRuntime) -> Result<(), Fail> {
    let started = StartAnswer::Started {
        was_armed: false,
        generation: 2,
        asked: 63,
        outs: 1 << 63,
        placement: kept(63, 7),
    };
    let cancelled = CancelAnswer::Cancelled {
        generation: 2,
        number: 3,
    };
    assert_equal(
        &rt,
        start_last(&rt, rt.alloc(), 64, 1)?,
        (started, cancelled),
    );
    Ok(())
}

#[test]
fn the_last_timer_is_started(rt: HostRuntime) -> Result<(), Fail> {
    let started = StartAnswer::Started {
        was_armed: false,
        generation: 1,
        asked: 0,
        outs: 0,
        placement: kept(0, 7),
    };
    let cancelled = CancelAnswer::Cancelled {
        generation: 1,
        number: 2,
    };
    assert_equal(
        &rt,
        start_last(&rt, rt.alloc(), 1, 65_536)?,
        (started, cancelled),
    );
    Ok(())
}

/// Starts each of so many timers on base 1.
fn start_all<R: Wait>(rt: &R, timers: &Timers, pass: &mut Pass, count: u32)
    requires pass { IsPassOf timers.now pass.old }
    requires size { (count ≤ length timers.now.about.timers) × (timers.now.about.bases ≡ 2) }
    ensures pass { IsPassOf timers.now pass.new }
    ensures id { pass.new.known.id ≡ pass.old.known.id }
    ensures claims { pass.new.known.claims ≡ pass.old.known.claims }
{
    for timer in 0..count {
        timers.start(rt, pass, timer, Mode::Abs, 7, 1, Reading::at(0));
    }
}

/// Arms so many timers on base 1, and takes it off line by one call.
fn move_all<R: Wait>(rt: &R, alloc: Global, count: u32) -> Result<OfflineAnswer, AllocError>
    requires timers { count ≤ 65536 }
{
    let declared = vec![in alloc; HARD; count as usize]?;
    let (timers, mut pass) = Timers::make_evacuable(alloc, 2, &declared, 100, 1024)?;
    start_all(rt, &timers, &mut pass, count);
    let off = timers.offline(rt, &mut pass, 1, 0, count, Reading::at(0));
    timers.close(pass);
    Ok(off)
}

#[test]
fn all_timers_leave_a_base_by_one_call(rt: HostRuntime) -> Result<(), Fail> {
    let off = OfflineAnswer::Offline {
        moved: 65_536,
        stamp: 1,
    };
    assert_equal(&rt, move_all(&rt, rt.alloc(), 65_536)?, off);
    Ok(())
}
