//! What runs the functions of a system's timers.
ghost use Rattle.std.specs.Prelude.{◌≡◌, ◌≤◌, ◌<◌, ◌*◌};
ghost use Rattle.hr_timers.specs.Handlers.{CanServe};
ghost use Rattle.hr_timers.specs.Known.{IsPassOf};
ghost use Rattle.timer_objects.specs.Callbacks.{bases_of};
ghost use Rattle.timer_objects.specs.QueuedFirings.{queued_ready_of};
ghost use Rattle.hulayban.specs.Runs.{RunsServed};

use crate::system::System;
use hr_timers::{Claim, ExpireAnswer, Handler, Log, Pass, Restart, Timers};
use ktime::Reading;
use seq_timer::Context;
use std::sync::Wait;
use timer_objects::{Kind, ObjectLog, Objects, QueuedFiringWith};

/// The handler of objects, and a caller's for timers by themselves.
#[derive(Drop)]
pub struct Served<'a, 'b, 'c, 'd, H> {
    objects: &'c Objects,
    firing: &'a mut QueuedFiringWith<'b, Log, ObjectLog>,
    own: &'d mut H,
    ghost same: { firing.now.objects.now ≡ objects.now },
}

impl<H: Handler> Handler for Served<'_, '_, '_, '_, H> {
    ghost use Rattle.std.specs.Prelude.{◌+◌, length, max, min};
    ghost use Rattle.timer_objects.specs.Callbacks.{bases_of};
    ghost use Rattle.timer_objects.specs.QueuedFirings.{queued_ready_of};
    ghost use Rattle.hulayban.specs.Served.{Serves};

    ghost meaning = { record {
      did = λ o h h' v w c reading restart. Serves H.meaning o h.objects.now h.firing.ghost_name h'.firing.ghost_name h.own.ghost_name h'.own.ghost_name h.firing.now h'.firing.now h.own.now h'.own.now v w c reading restart;
      ready = λ h. min (queued_ready_of h.firing.now) (H.meaning.ready h.own.now);
      timers = λ h. min (length h.objects.now.decls) (H.meaning.timers h.own.now);
      bases = λ h. max (bases_of h.firing.now.callbacks.now) (H.meaning.bases h.own.now);
      counters = λ h. max (length h.objects.now.decls + 1) (H.meaning.counters h.own.now);
    } };

    fn fire<R: Wait>(
        &mut self,
        rt: &R,
        timers: &Timers,
        pass: &mut Pass,
        claim: &Claim,
        reading: Reading,
    ) -> Restart {
        match self.objects.kind(claim.timer()) {
            Kind::Raw => self.own.fire(rt, timers, pass, claim, reading),
            Kind::Posix | Kind::Fd | Kind::Sleeper | Kind::Queued => {
                self.firing.fire(rt, timers, pass, claim, reading)
            }
        }
    }
}

/// A run: which timers it is for, at most how many, and its reading.
#[derive(Clone, Copy)]
pub struct Run {
    pub(crate) context: Context,
    pub(crate) base: u32,
    pub(crate) budget: u32,
    pub(crate) reading: Reading,
}

/// Runs functions by the handler of objects and by the caller's.
pub(crate) fn serve<R: Wait, H: Handler>(
    rt: &R,
    system: &System,
    pass: &mut Pass,
    run: Run,
    lent: &mut QueuedFiringWith<'_, Log, ObjectLog>,
    own: &mut H,
    log: &mut Log,
) -> ExpireAnswer
    requires pass { IsPassOf system.now.timers pass.old }
    requires base { run.base < system.now.timers.about.bases }
    requires objects { lent.old.objects.now ≡ system.now.objects }
    requires callbacks { bases_of lent.old.callbacks.now ≡ 0 }
    requires room { 2 * run.budget ≤ log.old.spare }
    requires ready { (run.budget ≤ queued_ready_of lent.old) × (run.budget ≤ H.meaning.ready own.old) }
    requires suits { CanServe H.meaning system.now.timers.about own.old }
    ensures pass { IsPassOf system.now.timers pass.new }
    ensures runs { RunsServed H.meaning system.now.timers.about run pass.old.known lent.old own.old log.old.receipts pass.new.known lent.new own.new log.new.receipts result }
{
    let Run {
        context,
        base,
        budget,
        reading,
    } = run;
    let mut served = Served {
        objects: &system.objects,
        firing: lent,
        own,
    };
    hr_timers::expire_in(
        rt,
        &system.timers,
        pass,
        context,
        base,
        reading,
        budget.into(),
        &mut served,
        log,
    )
}
