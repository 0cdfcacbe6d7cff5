//! Signals of a queued timer: one thread lets its function run, which sends them, and another takes them.
ghost use Rattle.timer_objects.specs.declared.object.Kind.TheVariants as kinds;
ghost use Rattle.hulayban.specs.Places.{HasObject};

use hulayban::{
    ClockId, Declaration, Done, Kind, Lane, NextSignal, NoFunctions, Place, Session, Settime,
    System, Terms,
};
use std::alloc::{AllocError, Global};
use std::sync::Wait;
use std::thread::Threads;

/// Arms the timer to expire at every 100 ns, and lets 2,000 ns pass in steps of 25.
#[derive(Clone, Copy)]
struct Sending;

/// Takes signals, and counts the periods that they tell of.
#[derive(Clone, Copy)]
struct Taking {
    periods: u64,
}

impl Lane for Sending {
    ghost suits = { λ x. HasObject x 0 kinds.Queued 0 };

    fn run<R: Wait, P: Place>(&mut self, rt: &R, me: &mut Session<'_, P>) -> Done {
        me.settime(rt, 0, Settime::every(100))?;
        for _ in 0..80 {
            let _ = me.advance(rt, 25);
            me.expire(rt, 0, 1, &mut NoFunctions)?;
        }
        Ok(())
    }
}

impl Lane for Taking {
    ghost suits = { λ x. HasObject x 0 kinds.Queued 0 };

    fn run<R: Wait, P: Place>(&mut self, rt: &R, me: &mut Session<'_, P>) -> Done {
        for _ in 0..50 {
            me.expire(rt, 0, 1, &mut NoFunctions)?;
            if let NextSignal::Accepted { overrun, .. } = me.next_signal(rt)? {
                self.periods = self.periods.saturating_add(overrun).saturating_add(1);
            }
        }
        Ok(())
    }
}

/// Of how many periods the signals told, after both threads and once more.
pub fn periods<R: Threads + Wait + Sync>(rt: &R, alloc: Global) -> Result<u64, AllocError> {
    let timer = Declaration::over(Kind::Queued, ClockId::Monotonic, 0);
    let (system, me) = System::make(alloc, 1, &[timer], Terms::limited(1000))?;
    let mut taking = Taking { periods: 0 };
    let (me, done) = system.run_both(rt, me, &mut Sending, &mut taking);
    let (me, rest) = system.run(rt, me, &mut taking);
    system.close(me);
    done.and(rest)?;
    Ok(taking.periods)
}
