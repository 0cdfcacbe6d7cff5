//! The tests of arguments of calls on a seat.
ghost use Rattle.std.specs.Prelude.{◌≡◌, ◌<◌, Some, IfOk, length};
ghost use Rattle.hulayban_c.specs.Numbers.{reading_by_times};
ghost use Rattle.hulayban_c.specs.Shared.{claim_asked, shared_claim_asks, shared_forward_asks, shared_next_asks, shared_start_asks, timer_asked};

use crate::calls::reading_asked;
use crate::codes::{BAD_BASE, BAD_CONTEXT, BAD_MODE, BAD_TIME, BAD_TIMER, NOT_CLAIMED};
use crate::crossing::{Time, context_by_number, mode_by_number, reading_by_times};
use crate::shared::seat::Seat;
use hr_timers::ClaimNumbers;
use ktime::Reading;
use seq_timer::{Asked, Context};

impl Seat {
    /// Tests the number of a timer.
    pub fn timer_asked(&self, timer: u32) -> Result<u32, i32>
        ensures asked { result ≡ timer_asked self.now timer }
        ensures within { IfOk result (λ t. (t ≡ timer) × (timer < length self.now.timers.about.timers)) }
    {
        if timer >= self.count {
            return Err(BAD_TIMER);
        }
        Ok(timer)
    }

    /// Tests what a start asks for.
    pub fn start_asks(
        &self,
        timer: u32,
        mode: u32,
        ns: u64,
        slack: u64,
        base: u32,
        now: &Time,
    ) -> Result<Asked, i32>
        ensures asked { result ≡ shared_start_asks self.now timer mode ns slack base now.now }
        ensures within { IfOk result (λ a. (timer < length self.now.timers.about.timers) × (a.base < self.now.timers.about.bases)) }
    {
        if timer >= self.count {
            return Err(BAD_TIMER);
        }
        if base >= self.bases {
            return Err(BAD_BASE);
        }
        let Some(mode) = mode_by_number(mode) else {
            return Err(BAD_MODE);
        };
        let Some(reading) = reading_by_times(now) else {
            return Err(BAD_TIME);
        };
        Ok(Asked {
            mode,
            ns,
            slack,
            reading,
            base,
        })
    }

    /// Tests what a claim asks for.
    pub fn claim_asks(&self, context: u32, base: u32, now: &Time) -> Result<(Context, Reading), i32>
        ensures asked { result ≡ shared_claim_asks self.now context base now.now }
        ensures within { IfOk result (λ a. base < self.now.timers.about.bases) }
    {
        if base >= self.bases {
            return Err(BAD_BASE);
        }
        let Some(context) = context_by_number(context) else {
            return Err(BAD_CONTEXT);
        };
        let Some(reading) = reading_by_times(now) else {
            return Err(BAD_TIME);
        };
        Ok((context, reading))
    }

    /// Tests what a look at a base asks for.
    pub fn next_asks(&self, base: u32, now: &Time) -> Result<Reading, i32>
        ensures asked { result ≡ shared_next_asks self.now base now.now }
        ensures within { IfOk result (λ a. base < self.now.timers.about.bases) }
    {
        if base >= self.bases {
            return Err(BAD_BASE);
        }
        reading_asked(now)
    }

    /// Tests whether the seat has a claim of a timer.
    pub fn claim_asked(&self, timer: u32) -> Result<ClaimNumbers, i32>
        ensures asked { result ≡ claim_asked self.now timer }
        ensures claim { IfOk result (λ c. self.now.claim ≡ Some c) }
    {
        if timer >= self.count {
            return Err(BAD_TIMER);
        }
        let Some(claim) = &self.claim else {
            return Err(NOT_CLAIMED);
        };
        if claim.timer() != timer {
            return Err(NOT_CLAIMED);
        }
        Ok(claim.numbers())
    }

    /// Tests what a forward asks for.
    pub fn forward_asks(&self, timer: u32, now: &Time) -> Result<(ClaimNumbers, Reading), i32>
        ensures asked { result ≡ shared_forward_asks self.now timer now.now }
        ensures claim { IfOk result (λ a. self.now.claim ≡ Some a.0) }
    {
        let claim = self.claim_asked(timer)?;
        let reading = reading_asked(now)?;
        Ok((claim, reading))
    }
}
