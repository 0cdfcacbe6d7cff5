//! A timer that expires once.
ghost use Rattle.std.specs.Prelude.{◌≡◌, ◌+◌, ◌<◌, ◌≤◌, ◌++◌, IfNone, IfSome, Some, None, length};
ghost use Rattle.ktime.specs.Times.{sat};
ghost use Rattle.seq_timer.specs.Steps.{now_of};
ghost use Rattle.hr_timers.specs.Known.{IsPassOf};
ghost use Rattle.hr_timers.specs.Handlers.{KeepsPass};
ghost use Rattle.shared_timer_uses.specs.Callers.{HasNothingToRun, KeepsRunner, MayRunOne, RanOnce, known_timer};

use hr_timers::{Claim, Handler, Log, Pass, Restart, StartAnswer, Timers, expire};
use ktime::{Mode, Reading};
use std::sync::Wait;

/// Arms a timer to expire so many nanoseconds after the reading. It answers the generation that is armed, or nothing where the timer's
/// history is full. What is said of the timer is by all that the pass has then seen.
pub fn start_once<R: Wait>(
    rt: &R,
    timers: &Timers,
    pass: &mut Pass,
    timer: u32,
    ns: u64,
    base: u32,
    reading: Reading,
) -> Option<u64>
    requires pass { IsPassOf timers.now pass.old }
    requires timer { timer < length timers.now.about.timers }
    requires base { base < timers.now.about.bases }
    ensures pass { IsPassOf timers.now pass.new }
    ensures keeps { KeepsPass pass.old.known pass.new.known }
    ensures armed { IfSome result (λ generation. (known_timer timers.now.about pass.new.known timer).armed ≡ Some generation) }
    ensures expires { IfSome result (λ generation. (known_timer timers.now.about pass.new.known timer).expires ≡ sat (now_of (known_timer timers.now.about pass.new.known timer) reading + ns)) }
    ensures full { IfNone result ((known_timer timers.now.about pass.new.known timer).terms.limit ≤ (known_timer timers.now.about pass.new.known timer).stamp) }
    ensures unmade { IfNone result (pass.new.known.mine ≡ pass.old.known.mine) }
{
    match timers.start(rt, pass, timer, Mode::Rel, ns, base, reading) {
        StartAnswer::Started { generation, .. } => Some(generation),
        StartAnswer::Spent { .. } => None,
    }
}

/// The functions of timers that expire once: it notes which one ran last, and asks for no restart.
#[derive(Clone, Copy, Debug, PartialEq, Eq)]
pub struct OneShot {
    pub ran: Option<u32>,
}

impl Handler for OneShot {
    ghost use Rattle.shared_timer_uses.specs.Handlers.{one_shot};

    ghost meaning = { one_shot };

    fn fire<R: Wait>(
        &mut self,
        _rt: &R,
        _timers: &Timers,
        _pass: &mut Pass,
        claim: &Claim,
        _reading: Reading,
    ) -> Restart {
        self.ran = Some(claim.timer());
        Restart::Stop
    }
}

/// Runs the function of the next timer that is due on a base, if one is and no other function runs there. It answers which timer that was.
pub fn expire_once<R: Wait>(
    rt: &R,
    timers: &Timers,
    pass: &mut Pass,
    base: u32,
    reading: Reading,
    log: &mut Log,
) -> Option<u32>
    requires may { MayRunOne timers.now pass.old log.old base }
    ensures keeps { KeepsRunner timers.now pass.old pass.new log.old log.new }
    ensures ran { IfSome result (λ timer. RanOnce timers.now.about base reading pass.old.known pass.new.known timer log.old.receipts log.new.receipts) }
    ensures none { IfNone result (HasNothingToRun timers.now.about pass.new.known base reading × (log.new.receipts ≡ log.old.receipts)) }
{
    let mut function = OneShot { ran: None };
    expire(rt, timers, pass, base, reading, 1, &mut function, log);
    function.ran
}
