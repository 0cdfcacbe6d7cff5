//! Tests of `seq_timer`: one timer, and a base.
ghost use Rattle.std.specs.Prelude.{◌≡◌, ◌≤◌};
ghost use Rattle.ktime.specs.Readings.{latest};
ghost use Rattle.ktime.specs.declared.mode.Mode.TheVariants as modes;
ghost use Rattle.seq_timer.specs.declared.event.EventBy.TheVariants as events;
ghost use Rattle.seq_timer.specs.Calls.{asked_for};

use super::{MONOTONIC, SOFT, assert_equal, kept};
use ktime::{ClockId, Mode, Reading};
use seq_timer::{
    Asked, Base, Context, Event, Moved, Reply, Restarted, Terms, TimerState,
    a_cancelled_generation_never_runs, a_span_has_one_generation, a_stamp_counts_entries,
    histories_end, running_is_told_inside_the_span, spans_do_not_overlap,
};
use std::alloc::AllocError;
use timer_queue::ListQueue;

/// A start in 100 ns.
fn start() -> Event
    ensures { result ≡ events.Start (asked_for modes.Rel 100 0 0 (record { stamp = 0; mono = 0; real = 0; boot = 0; changes = 0 })) }
{
    Event::Start(Asked {
        mode: Mode::Rel,
        ns: 100,
        slack: 0,
        reading: Reading::at(0),
        base: 0,
    })
}

fn claim(now: u64) -> Event
    requires { now ≤ latest }
    ensures { result ≡ events.Claim 0 (record { stamp = 0; mono = now; real = now; boot = now; changes = 0 }) }
{
    Event::Claim {
        base: 0,
        reading: Reading::at(now),
    }
}

#[test]
fn each_event_is_answered(rt: HostRuntime) {
    let mut timer = TimerState::make(MONOTONIC, Terms::limited(100));
    assert_equal(&rt, timer.declared().context, Context::Hard);
    assert_equal(&rt, (timer.stamp(), timer.limit()), (0, 100));
    let placement = kept(0, 100);
    let was_armed = false;
    let started = Reply::Start {
        placement,
        was_armed,
    };
    assert_equal(&rt, timer.apply(start()), started);
    assert_equal(&rt, timer.clock(), ClockId::Monotonic);
    assert_equal(&rt, (timer.soft(), timer.expires()), (100, 100));
    assert_equal(&rt, timer.armed(), Some(1));
    let claimed = Reply::Claim { generation: 1 };
    assert_equal(&rt, timer.apply(claim(130)), claimed);
    assert_equal(&rt, timer.running(), Some(1));
    let forward = Event::Forward {
        reading: Reading::at(130),
        interval: 10,
    };
    let moved = Moved {
        count: 4,
        soft: 140,
        expires: 140,
    };
    assert_equal(&rt, timer.apply(forward), Reply::Forward { moved });
    let finished = Reply::Finish {
        generation: 1,
        restarted: Restarted::Again { generation: 4 },
    };
    let finish = Event::Finish { restart: true };
    assert_equal(&rt, timer.apply(finish), finished);
    let out = timer.apply(Event::Out { base: 1 });
    assert_equal(&rt, out, Reply::Out { was_armed: true });
    assert_equal(&rt, (timer.base(), timer.is_moving()), (1, true));
    assert!(rt; timer.peek().moving);
}

#[test]
fn a_base_keeps_the_soft_context_apart(rt: HostRuntime) -> Result<(), AllocError> {
    let mut base = Base::<ListQueue>::make(rt.alloc(), 1)?;
    let mut timer = TimerState::make(SOFT, Terms::limited(100));
    base.apply(0, &mut timer, &start());
    let now = Reading::at(100);
    assert_equal(&rt, base.front(), Some((100, 0)));
    let first = base.first(Context::Soft, &[timer], now);
    assert_equal(&rt, first, Some((100, 0)));
    base.apply(0, &mut timer, &claim(100));
    assert_equal(&rt, base.running(Context::Soft), Some((0, 1)));
    Ok(())
}

#[test]
fn the_laws_can_be_cited() {
    a_cancelled_generation_never_runs();
    spans_do_not_overlap();
    running_is_told_inside_the_span();
    a_span_has_one_generation();
    a_stamp_counts_entries();
    histories_end();
}
