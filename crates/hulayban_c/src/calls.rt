//! The calls of C on all timers: each tests its arguments, makes the call, and tells its number and its answer.
ghost use Rattle.std.specs.Prelude.{◌≡◌, ◌<◌, IfOk, IfNone, IsSome, length};
ghost use Rattle.timer_core.specs.Kept.{timer_in};
ghost use Rattle.hulayban_c.specs.Numbers.{reading_by_times};
ghost use Rattle.hulayban_c.specs.Calls.{AnswersCancel, AnswersClaim, AnswersFinish, AnswersForward, AnswersNext, AnswersPeek, AnswersStart, start_asks, claim_asks, fault_inside, forward_asks, next_asks, reading_asked};

use crate::codes::{
    BAD_BASE, BAD_CONTEXT, BAD_MODE, BAD_TIME, BAD_TIMER, BUSY, CLAIMED, DONE, NOT_RUNNING,
};
use crate::crossing::{Answer, NOTHING, Time, context_by_number, mode_by_number, reading_by_times};
use crate::home::Home;
use crate::told::{
    cancel_tells, claimed_tells, finish_tells, forward_tells, next_tells, of_generation,
    peek_tells, start_tells,
};
use ktime::Reading;
use seq_timer::{Asked, Context};
use timer_core::ClaimAnswer;

impl Home {
    /// Tests what a start asks for.
    fn start_asks(
        &self,
        timer: u32,
        mode: u32,
        ns: u64,
        slack: u64,
        base: u32,
        now: &Time,
    ) -> Result<Asked, i32>
        ensures asked { result ≡ start_asks self.now timer mode ns slack base now.now }
        ensures within { IfOk result (λ a. (timer < length self.now.timers) × (base < length self.now.bases)) }
        ensures base { IfOk result (λ a. a.base ≡ base) }
    {
        if timer >= self.timers {
            return Err(BAD_TIMER);
        }
        if base >= self.bases {
            return Err(BAD_BASE);
        }
        let Some(mode) = mode_by_number(mode) else {
            return Err(BAD_MODE);
        };
        let Some(reading) = reading_by_times(now) else {
            return Err(BAD_TIME);
        };
        Ok(Asked {
            mode,
            ns,
            slack,
            reading,
            base,
        })
    }

    /// Arms a timer, if the arguments are good.
    pub fn start(
        &mut self,
        timer: u32,
        mode: u32,
        ns: u64,
        slack: u64,
        base: u32,
        now: &Time,
    ) -> Result<(i32, Answer), i32>
        ensures { AnswersStart self.old timer mode ns slack base now.now result self.new }
    {
        let a = self.start_asks(timer, mode, ns, slack, base, now)?;
        let answer = self
            .core
            .start_range(timer, a.mode, a.ns, a.slack, base, a.reading);
        Ok(start_tells(timer, answer))
    }

    /// Disarms a timer, if its function isn't running.
    pub fn cancel(&mut self, timer: u32) -> Result<(i32, Answer), i32>
        ensures { AnswersCancel self.old timer result self.new }
    {
        if timer >= self.timers {
            return Err(BAD_TIMER);
        }
        let answer = self.core.try_to_cancel(timer);
        Ok(cancel_tells(timer, answer))
    }

    /// Tests what a claim asks for.
    fn claim_asks(&self, context: u32, base: u32, now: &Time) -> Result<(Context, Reading), i32>
        ensures asked { result ≡ claim_asks self.now context base now.now }
        ensures within { IfOk result (λ a. base < length self.now.bases) }
    {
        if base >= self.bases {
            return Err(BAD_BASE);
        }
        let Some(context) = context_by_number(context) else {
            return Err(BAD_CONTEXT);
        };
        let Some(reading) = reading_by_times(now) else {
            return Err(BAD_TIME);
        };
        Ok((context, reading))
    }

    /// Claims the timer of a context that is the next to expire on a base.
    pub fn claim(&mut self, context: u32, base: u32, now: &Time) -> Result<(i32, Answer), i32>
        ensures { AnswersClaim self.old context base now.now result self.new }
    {
        let (context, reading) = self.claim_asks(context, base, now)?;
        match self.core.claim_in(context, base, reading) {
            ClaimAnswer::Claimed {
                timer,
                generation,
                number,
            } => {
                let state = self.core.state(timer);
                Ok((CLAIMED, claimed_tells(timer, generation, number, &state)))
            }
            ClaimAnswer::NoneDue => Ok((DONE, NOTHING)),
            ClaimAnswer::BaseBusy { timer, generation } => {
                Ok((BUSY, of_generation(timer, generation, 0)))
            }
        }
    }

    /// Tests what a look at a base asks for.
    fn next_asks(&self, base: u32, now: &Time) -> Result<Reading, i32>
        ensures asked { result ≡ next_asks self.now base now.now }
        ensures within { IfOk result (λ a. base < length self.now.bases) }
    {
        if base >= self.bases {
            return Err(BAD_BASE);
        }
        reading_asked(now)
    }

    /// How long a base may be left alone.
    pub fn next(&mut self, base: u32, now: &Time) -> Result<(i32, Answer), i32>
        ensures { AnswersNext self.old base now.now result self.new }
    {
        let reading = self.next_asks(base, now)?;
        Ok(next_tells(self.core.next_wait(base, reading)))
    }

    /// Tests whether the function of a timer runs.
    fn fault_inside(&self, timer: u32) -> Option<i32>
        ensures fault { result ≡ fault_inside self.now timer }
        ensures inside { IfNone result ((timer < length self.now.timers) × IsSome (timer_in self.now timer).running) }
    {
        if timer >= self.timers {
            return Some(BAD_TIMER);
        }
        if self.core.state(timer).running().is_none() {
            return Some(NOT_RUNNING);
        }
        None
    }

    /// Tests what a forward asks for.
    fn forward_asks(&self, timer: u32, now: &Time) -> Result<Reading, i32>
        ensures asked { result ≡ forward_asks self.now timer now.now }
        ensures inside { IfOk result (λ a. (timer < length self.now.timers) × IsSome (timer_in self.now timer).running) }
    {
        if let Some(code) = self.fault_inside(timer) {
            return Err(code);
        }
        reading_asked(now)
    }

    /// Moves the expiry of a timer whose function runs.
    pub fn forward(&mut self, timer: u32, now: &Time, interval: u64) -> Result<(i32, Answer), i32>
        ensures { AnswersForward self.old timer now.now interval result self.new }
    {
        let reading = self.forward_asks(timer, now)?;
        let answer = self.core.forward(timer, reading, interval);
        Ok(forward_tells(timer, answer))
    }

    /// Ends the run of a timer's function.
    pub fn finish(&mut self, timer: u32, restart: u32) -> Result<(i32, Answer), i32>
        ensures { AnswersFinish self.old timer restart result self.new }
    {
        if let Some(code) = self.fault_inside(timer) {
            return Err(code);
        }
        let finished = self.core.finish(timer, restart != 0);
        Ok(finish_tells(timer, finished))
    }

    /// How a timer is kept.
    pub fn peek(&mut self, timer: u32) -> Result<(i32, Answer), i32>
        ensures { AnswersPeek self.old timer result self.new }
    {
        if timer >= self.timers {
            return Err(BAD_TIMER);
        }
        Ok((DONE, peek_tells(timer, &self.core.state(timer))))
    }
}

/// The reading of these times, if none is too late.
pub fn reading_asked(now: &Time) -> Result<Reading, i32>
    ensures { result ≡ reading_asked (reading_by_times now.now) }
{
    match reading_by_times(now) {
        Some(reading) => Ok(reading),
        None => Err(BAD_TIME),
    }
}
