//! The calls of C on a seat, but for the start: each tests its arguments, tries once, and tells its number and its answer.
ghost use Rattle.std.specs.Prelude.{◌≡◌, None};
ghost use Rattle.hulayban_c.specs.Shared.{SharedCancel, SharedClaim, SharedFinish, SharedForward, SharedNext, SharedPeek};

use crate::codes::{CARRIES, DONE, HOLDS_CLAIM};
use crate::crossing::{NOTHING, Time};
use crate::shared::answer::{SharedAnswer, as_shared};
use crate::shared::held::{Held, keep};
use crate::shared::seat::Seat;
use crate::shared::told::{
    busy_tells, claim_tells, contended_tells, looking_tells, now_tells, peek_shared,
};
use crate::shared::waiting::least_wait;
use crate::told::{finish_tells, forward_tells};
use hr_timers::ClaimAnswer;
use std::mem;

impl Seat {
    /// Disarms a timer, if its function isn't running.
    pub fn cancel(&mut self, timer: u32) -> Result<(i32, SharedAnswer), i32>
        ensures { SharedCancel self.old timer result self.new }
    {
        let timer = self.timer_asked(timer)?;
        let Held::Rests(pass) = &mut self.held else {
            return Err(CARRIES);
        };
        let answer = self.timers.cancel_now(pass, timer);
        Ok(now_tells(timer, answer))
    }

    /// How a timer's word shows it.
    pub fn peek(&mut self, timer: u32) -> Result<(i32, SharedAnswer), i32>
        ensures { SharedPeek self.old timer result self.new }
    {
        let timer = self.timer_asked(timer)?;
        let Held::Rests(pass) = &mut self.held else {
            return Err(CARRIES);
        };
        let peek = self.timers.peek(pass, timer);
        Ok(peek_shared(timer, peek))
    }

    /// Claims the timer of a context that is the next to expire on a base. The seat keeps the claim.
    pub fn claim(&mut self, context: u32, base: u32, now: &Time) -> Result<(i32, SharedAnswer), i32>
        ensures { SharedClaim self.old context base now.now result self.new }
    {
        let (context, reading) = self.claim_asks(context, base, now)?;
        let Held::Rests(pass) = &mut self.held else {
            return Err(CARRIES);
        };
        if self.claim.is_some() {
            return Err(HOLDS_CLAIM);
        }
        let told = match self.timers.try_claim(pass, context, base, reading) {
            None => contended_tells(0, base),
            Some(ClaimAnswer::NoneDue) => as_shared((DONE, NOTHING)),
            Some(ClaimAnswer::BaseBusy { timer, generation }) => busy_tells(timer, generation),
            Some(ClaimAnswer::Claimed(claim)) => {
                let told = claim_tells(claim.numbers());
                keep(&mut self.claim, claim);
                told
            }
        };
        Ok(told)
    }

    /// Moves the expiry of the timer of the seat's claim.
    pub fn forward(
        &mut self,
        timer: u32,
        now: &Time,
        interval: u64,
    ) -> Result<(i32, SharedAnswer), i32>
        ensures { SharedForward self.old timer now.now interval result self.new }
    {
        let (numbers, reading) = self.forward_asks(timer, now)?;
        let Held::Rests(pass) = &mut self.held else {
            return Err(CARRIES);
        };
        let Some(claim) = &self.claim else {
            unreachable!()
        };
        let told = match self.timers.try_forward(pass, claim, reading, interval) {
            None => contended_tells(numbers.timer, numbers.base),
            Some(answer) => as_shared(forward_tells(numbers.timer, answer)),
        };
        Ok(told)
    }

    /// Ends the run of the function of the seat's claim. Any number but 0 asks for a restart.
    pub fn finish(&mut self, timer: u32, restart: u32) -> Result<(i32, SharedAnswer), i32>
        ensures { SharedFinish self.old timer restart result self.new }
    {
        let numbers = self.claim_asked(timer)?;
        let Held::Rests(pass) = &mut self.held else {
            return Err(CARRIES);
        };
        let Some(claim) = mem::replace(&mut self.claim, None) else {
            unreachable!()
        };
        let told = match self.timers.try_finish(pass, claim, restart != 0) {
            Ok(finished) => as_shared(finish_tells(numbers.timer, finished)),
            Err(claim) => {
                keep(&mut self.claim, claim);
                contended_tells(numbers.timer, numbers.base)
            }
        };
        Ok(told)
    }

    /// How long a base may be left alone.
    pub fn next(&mut self, base: u32, now: &Time) -> Result<(i32, SharedAnswer), i32>
        ensures { SharedNext self.old base now.now result self.new }
    {
        let reading = self.next_asks(base, now)?;
        let Held::Rests(pass) = &mut self.held else {
            return Err(CARRIES);
        };
        let wait = least_wait(&self.timers, pass, base, reading);
        Ok(looking_tells(base, wait))
    }
}
