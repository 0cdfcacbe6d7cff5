//! A wait with a timeout: for an event, but 100 ns at most. The machine idles until the event or the next expiry, whichever comes first.
ghost use Rattle.timer_objects.specs.declared.object.Kind.TheVariants as kinds;
ghost use Rattle.hulayban.specs.Places.{HasObject};

use hulayban::{
    ClockId, Declaration, Done, InterruptAnswer, Kind, Lane, NoFunctions, Place, Session,
    SleptAnswer, System, Terms, TimeSpec,
};
use std::alloc::{AllocError, Global};
use std::sync::Wait;

/// Waits for an event that comes after so many nanoseconds. How many were left then: 0 where the time was up before.
#[derive(Clone, Copy)]
struct Waiting {
    event: u64,
    left: u64,
}

impl Lane for Waiting {
    ghost suits = { λ x. HasObject x 0 kinds.Sleeper 0 };

    fn run<R: Wait, P: Place>(&mut self, rt: &R, me: &mut Session<'_, P>) -> Done {
        let most = TimeSpec { sec: 0, nsec: 100 };
        me.sleep(rt, 0, 0, most)?;
        let idle = me.next_expiry(rt, 0).unwrap_or(self.event);
        let _ = me.advance(rt, idle.min(self.event));
        me.expire(rt, 0, 1, &mut NoFunctions)?;
        if let SleptAnswer::Sleeping = me.slept(rt, 0).answer {
            if let InterruptAnswer::Left { ns } = me.interrupt(rt, 0)? {
                self.left = ns;
            }
        }
        Ok(())
    }
}

/// What is left of the wait when the event comes.
pub fn left_at<R: Wait>(rt: &R, alloc: Global, event: u64) -> Result<u64, AllocError> {
    let sleeper = Declaration::over(Kind::Sleeper, ClockId::Monotonic, 0);
    let (system, me) = System::make(alloc, 1, &[sleeper], Terms::limited(10))?;
    let mut waiting = Waiting { event, left: 0 };
    let (me, done) = system.run(rt, me, &mut waiting);
    system.close(me);
    done?;
    Ok(waiting.left)
}
