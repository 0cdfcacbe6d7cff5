//! A timer that expires at every interval.
ghost use Rattle.std.specs.Prelude.{IfSome};
ghost use Rattle.shared_timer_uses.specs.Callers.{KeepsRunner, MayRunOne, Ticked};

use hr_timers::{Claim, Handler, Log, Pass, Restart, Timers, expire};
use ktime::Reading;
use seq_timer::{ForwardAnswer, Moved};
use std::sync::Wait;

/// A tick of a periodic timer: how many intervals have passed since the last one, and the expiries of the next.
#[derive(Clone, Copy, Debug, PartialEq, Eq)]
pub struct Tick {
    pub timer: u32,
    pub moved: Moved,
}

/// The functions of periodic timers: each moves its timer's expiry past the reading by whole intervals, and asks for a restart. Where a start
/// came in, or the timer's history is full, it does neither.
#[derive(Clone, Copy, Debug, PartialEq, Eq)]
pub struct Periodic {
    pub interval: u64,
    pub tick: Option<Tick>,
}

impl Handler for Periodic {
    ghost use Rattle.shared_timer_uses.specs.Handlers.{periodic};

    ghost meaning = { periodic };

    fn fire<R: Wait>(
        &mut self,
        rt: &R,
        timers: &Timers,
        pass: &mut Pass,
        claim: &Claim,
        reading: Reading,
    ) -> Restart {
        match timers.forward(rt, pass, claim, reading, self.interval) {
            ForwardAnswer::Forwarded { moved, .. } => {
                let timer = claim.timer();
                self.tick = Some(Tick { timer, moved });
                Restart::Again
            }
            ForwardAnswer::Spent { .. } | ForwardAnswer::Armed { .. } => {
                self.tick = None;
                Restart::Stop
            }
        }
    }
}

/// Runs the function of the next timer that is due on a base, if one is and no other function runs there: the timer's expiry is moved past
/// the reading by whole intervals, and it is armed again. It answers nothing where none ran, a start came in or the timer's history is full.
pub fn expire_periodic<R: Wait>(
    rt: &R,
    timers: &Timers,
    pass: &mut Pass,
    base: u32,
    reading: Reading,
    interval: u64,
    log: &mut Log,
) -> Option<Tick>
    requires may { MayRunOne timers.now pass.old log.old base }
    ensures keeps { KeepsRunner timers.now pass.old pass.new log.old log.new }
    ensures ticked { IfSome result (λ tick. Ticked timers.now.about base reading interval pass.old.known pass.new.known tick) }
{
    let mut function = Periodic {
        interval,
        tick: None,
    };
    expire(rt, timers, pass, base, reading, 1, &mut function, log);
    function.tick
}
