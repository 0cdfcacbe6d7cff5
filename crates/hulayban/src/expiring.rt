//! Expiry runs, which run the functions of timers.
ghost use Rattle.std.specs.Prelude.{◌≡◌, ◌≤◌, ◌<◌, IfOk, OnErr};
ghost use Rattle.seq_timer.specs.declared.context.Context.TheVariants as contexts;
ghost use Rattle.hr_timers.specs.Handlers.{CanServe};
ghost use Rattle.hulayban.specs.Runs.{RunsFunctions};
ghost use Rattle.hulayban.specs.Serving.{DoesExpire};
ghost use Rattle.hulayban.specs.Systems.{IsHandleOf, KeepsHandle};

use crate::handle::Handle;
use crate::serving::{Run, serve};
use crate::system::System;
use hr_timers::{Claim, ExpireAnswer, Handler, Pass, Restart, Timers};
use ktime::Reading;
use seq_timer::Context;
use std::alloc::AllocError;
use std::sync::Wait;
use timer_objects::QueuedFiring;

/// The functions of a caller that has no timers by themselves.
#[derive(Clone, Copy, Debug, PartialEq, Eq)]
pub struct NoFunctions;

impl Handler for NoFunctions {
    ghost use Rattle.std.specs.Prelude.{◌≡◌, ◌^◌};
    ghost use Rattle.hr_timers.specs.declared.handler.Restart.TheVariants as restarts;

    ghost meaning = { record {
      did = λ o h h' k k' c reading restart. (k' ≡ k) × (restart ≡ restarts.Stop);
      ready = λ h. 2 ^ 64;
      timers = λ h. 65536;
      bases = λ h. 0;
      counters = λ h. 0;
    } };

    fn fire<R: Wait>(
        &mut self,
        _rt: &R,
        _timers: &Timers,
        _pass: &mut Pass,
        _claim: &Claim,
        _reading: Reading,
    ) -> Restart {
        Restart::Stop
    }
}

impl System {
    /// Runs the functions of at most so many timers of the hard context that are due on a base (`hrtimer_run_queues`): that of an object triggers it, and that of
    /// a timer by itself is the caller's own.
    pub fn expire<R: Wait, H: Handler>(
        &self,
        rt: &R,
        me: &mut Handle,
        base: u32,
        budget: u32,
        own: &mut H,
    ) -> Result<ExpireAnswer, AllocError>
        requires me { IsHandleOf self.now me.old }
        requires base { base < self.now.timers.about.bases }
        requires ready { budget ≤ H.meaning.ready own.old }
        requires suits { CanServe H.meaning self.now.timers.about own.old }
        ensures ok { IfOk result (λ a. DoesExpire H.meaning self.now me.old me.new contexts.Hard base budget own.old own.new a) }
        ensures err { OnErr result (KeepsHandle self.now me.old me.new × (own.new ≡ own.old)) }
    {
        let reading = self.now(rt, me);
        let run = Run {
            context: Context::Hard,
            base,
            budget,
            reading,
        };
        self.run_functions(rt, me, run, own)
    }

    /// The same for timers of the soft context (`hrtimer_run_softirq`).
    pub fn expire_soft<R: Wait, H: Handler>(
        &self,
        rt: &R,
        me: &mut Handle,
        base: u32,
        budget: u32,
        own: &mut H,
    ) -> Result<ExpireAnswer, AllocError>
        requires me { IsHandleOf self.now me.old }
        requires base { base < self.now.timers.about.bases }
        requires ready { budget ≤ H.meaning.ready own.old }
        requires suits { CanServe H.meaning self.now.timers.about own.old }
        ensures ok { IfOk result (λ a. DoesExpire H.meaning self.now me.old me.new contexts.Soft base budget own.old own.new a) }
        ensures err { OnErr result (KeepsHandle self.now me.old me.new × (own.new ≡ own.old)) }
    {
        let reading = self.now(rt, me);
        let run = Run {
            context: Context::Soft,
            base,
            budget,
            reading,
        };
        self.run_functions(rt, me, run, own)
    }

    /// A run.
    fn run_functions<R: Wait, H: Handler>(
        &self,
        rt: &R,
        me: &mut Handle,
        run: Run,
        own: &mut H,
    ) -> Result<ExpireAnswer, AllocError>
        requires me { IsHandleOf self.now me.old }
        requires base { run.base < self.now.timers.about.bases }
        requires ready { run.budget ≤ H.meaning.ready own.old }
        requires suits { CanServe H.meaning self.now.timers.about own.old }
        ensures ok { IfOk result (λ a. RunsFunctions H.meaning self.now me.old me.new run own.old own.new a) }
        ensures err { OnErr result (KeepsHandle self.now me.old me.new × (own.new ≡ own.old)) }
    {
        let count = run.budget as usize;
        me.logs.timers.clear();
        me.logs.timers.reserve(2 * count)?;
        let mut firing = QueuedFiring::make(
            self.alloc,
            &self.objects,
            &mut me.objects,
            &mut me.signals,
            &self.unused,
        );
        if firing.reserve(count).is_err() {
            let _ = firing.into_logs();
            return Err(AllocError);
        }
        let pass = &mut me.timers;
        let answer = serve(rt, self, pass, run, &mut firing, own, &mut me.logs.timers);
        let _ = firing.into_logs();
        Ok(answer)
    }
}
