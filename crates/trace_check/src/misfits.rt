//! What is wrong with an event, by what is known of its timer.
ghost use Rattle.std.specs.Prelude.{◌≡◌};
ghost use Rattle.trace_check.specs.Knowledge.{first_that_holds, has_running, is_armed, is_other_context, is_other_processor, is_unarmed, may_run, misfits_of_cancel, misfits_of_entry, misfits_of_exit, misfits_of_set_up, misfits_of_start, soft_of};

use crate::known::{ArmedKnown, FunctionKnown, KnownProcessor, KnownTimer};
use crate::learning::context_at;
use crate::misfit::Misfit;
use ktime::LAST_TIME;
use seq_timer::Context;
use trace_text::Site;

impl KnownTimer {
    fn is_armed(&self) -> bool
        ensures { result ≡ is_armed self.now.armed }
    {
        matches!(self.armed, ArmedKnown::Until { .. })
    }

    fn is_unarmed(&self) -> bool
        ensures { result ≡ is_unarmed self.now.armed }
    {
        matches!(self.armed, ArmedKnown::No)
    }

    fn runs(&self) -> bool
        ensures { result ≡ has_running self.now.function }
    {
        matches!(self.function, FunctionKnown::Runs { .. })
    }

    fn soft(&self) -> u64
        ensures { result ≡ soft_of self.now.armed }
    {
        match self.armed {
            ArmedKnown::Until { soft, .. } => soft,
            _ => 0,
        }
    }

    fn is_elsewhere(&self, processor: u32) -> bool
        ensures { result ≡ is_other_processor processor self.now.home }
    {
        match self.home {
            Some(home) => home != processor,
            None => false,
        }
    }

    /// Whether a line's flags tell another context than the timer's.
    fn is_in_other(&self, flags: Option<Context>) -> bool
        ensures { result ≡ is_other_context flags self.now.context }
    {
        match (flags, self.context) {
            (Some(context), Some(known)) => known != context,
            _ => false,
        }
    }

    /// Whether the timer's function may run on a processor, where a line tells this context.
    fn may_run(&self, processor: u32, line: Option<Context>, there: KnownProcessor) -> bool
        ensures { result ≡ may_run processor line there self.now.function }
    {
        match self.function {
            FunctionKnown::Untold => there.may_be_left(line),
            FunctionKnown::Rests => false,
            FunctionKnown::Runs { processor: at } => at == processor,
        }
    }

    /// What is wrong with a set-up.
    pub fn misfit_of_set_up(&self) -> Option<Misfit>
        ensures { result ≡ first_that_holds (misfits_of_set_up self.now) }
    {
        if self.is_armed() {
            Some(Misfit::SetUpArmed)
        } else if self.runs() {
            Some(Misfit::SetUpRunning)
        } else {
            None
        }
    }

    /// What is wrong with a start.
    pub fn misfit_of_start(
        &self,
        soft: u64,
        expires: u64,
        was_armed: Option<bool>,
    ) -> Option<Misfit>
        ensures { result ≡ first_that_holds (misfits_of_start soft expires was_armed self.now) }
    {
        if expires < soft {
            Some(Misfit::SoftAfterHard)
        } else if expires > LAST_TIME {
            Some(Misfit::PastTime)
        } else if was_armed == Some(true) && self.is_unarmed() {
            Some(Misfit::WasNotArmed)
        } else if was_armed == Some(false) && self.is_armed() {
            Some(Misfit::WasArmed)
        } else {
            None
        }
    }

    /// What is wrong with a cancel.
    pub fn misfit_of_cancel(&self) -> Option<Misfit>
        ensures { result ≡ first_that_holds (misfits_of_cancel self.now) }
    {
        if self.runs() {
            Some(Misfit::Running)
        } else if self.is_unarmed() {
            Some(Misfit::NotArmed)
        } else {
            None
        }
    }

    /// What is wrong with an expiry. `there`: what runs on its processor; `outer`: what is known of the context of the function that no line has told it
    /// of. `passed`: an earlier expiry of its queue had to wait for it.
    pub fn misfit_of_entry(
        &self,
        site: Site,
        now: u64,
        there: KnownProcessor,
        outer: Option<Context>,
        passed: bool,
    ) -> Option<Misfit>
        ensures { result ≡ first_that_holds (misfits_of_entry site now self.now there outer passed) }
    {
        let soft = self.soft();
        if self.runs() {
            return Some(Misfit::Running);
        }
        if self.is_unarmed() {
            return Some(Misfit::NotArmed);
        }
        if self.is_elsewhere(site.processor) {
            return Some(Misfit::OtherProcessor);
        }
        if self.is_in_other(site.context) {
            return Some(Misfit::OtherContext);
        }
        if now < soft {
            return Some(Misfit::TooEarly { soft, now });
        }
        let context = context_at(site.context, self.context);
        if let Some(timer) = there.blocker(context, outer) {
            return Some(Misfit::SecondFunction { timer });
        }
        if passed {
            return Some(Misfit::OutOfOrder);
        }
        None
    }

    /// What is wrong with a return. `there`: what runs on its processor.
    pub fn misfit_of_exit(&self, site: Site, there: KnownProcessor) -> Option<Misfit>
        ensures { result ≡ first_that_holds (misfits_of_exit site self.now there) }
    {
        let line = context_at(site.context, self.told);
        if self.is_in_other(site.context) {
            Some(Misfit::OtherContext)
        } else if !self.may_run(site.processor, line, there) {
            Some(Misfit::NotRunning)
        } else {
            None
        }
    }
}
