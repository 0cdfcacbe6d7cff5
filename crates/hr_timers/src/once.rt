//! Calls on timers that try each lock once and wait for nobody. Where a call didn't get a lock nothing has changed, and its caller may call again.
ghost use Rattle.std.specs.Prelude.{◌≡◌, ◌<◌, ◌≤◌, ◌^◌, ◌-◌, length, slice_index, [], IfErr, MatchOption, MatchResult, None};
ghost use Rattle.pass_names.specs.Names.{IsLast};
ghost use Rattle.hr_timers.specs.Calls.{ClaimFits, Finishes, Forwards};
ghost use Rattle.hr_timers.specs.Known.{HasEachPlace, HasEachShift, IsPassOf, LocksGoOn, OwnsClaim};
ghost use Rattle.hr_timers.specs.Once.{HereFits, IsContended, IsLastMiss, NextFits};
ghost use Rattle.hr_timers.specs.declared.once_answer.HereAnswer.TheVariants as heres;
ghost use Rattle.hr_timers.specs.declared.once_answer.Miss.{Miss};
ghost use Rattle.hr_timers.specs.declared.once_answer.NextAnswer.TheVariants as nexts;

use crate::answer::ClaimAnswer;
use crate::once_answer::{HereAnswer, NextAnswer};
use crate::timers::Timers;
use crate::tokens::{Claim, Pass};
use crate::{starting_once, trying_once};
use ktime::{ClockId, Reading};
use seq_timer::{Asked, Context, Finished, ForwardAnswer};

impl Timers {
    /// Claims the timer of a context that is the next to expire on a base: `None` where another pass took the base's lock. To the last pass it never answers
    /// `None`, up to 2^63 - 1 takes of the lock.
    pub fn try_claim(
        &self,
        pass: &mut Pass,
        context: Context,
        base: u32,
        reading: Reading,
    ) -> Option<ClaimAnswer>
        requires pass { IsPassOf self.now pass.old }
        requires base { base < self.now.about.bases }
        ensures pass { IsPassOf self.now pass.new }
        ensures claims { MatchOption result (IsContended pass.old pass.new base)
            (λ a. ClaimFits self.now.about pass.old.known pass.new.known context base reading a) }
        ensures alone { IsLast pass.old.known.id → result ≡ None → 2 ^ 64 - 2 ≤ slice_index pass.new.met base }
        ensures locks { LocksGoOn pass.old pass.new }
    {
        let answer = trying_once::try_claim(&self.row, &mut pass.inner, context, base, reading);
        self.check(pass);
        answer
    }

    /// Moves the expiry of a claim's timer past the reading by whole intervals, in nanoseconds: `None` where another pass took the lock of the claim's base.
    pub fn try_forward(
        &self,
        pass: &mut Pass,
        claim: &Claim,
        reading: Reading,
        interval: u64,
    ) -> Option<ForwardAnswer>
        requires pass { IsPassOf self.now pass.old }
        requires claim { OwnsClaim self.now.about pass.old.known claim.now }
        ensures pass { IsPassOf self.now pass.new }
        ensures forwards { MatchOption result (IsContended pass.old pass.new claim.now.base)
            (λ a. Forwards self.now.about pass.old.known pass.new.known claim.now reading interval a) }
        ensures alone { IsLast pass.old.known.id → result ≡ None → 2 ^ 64 - 2 ≤ slice_index pass.new.met claim.now.base }
        ensures locks { LocksGoOn pass.old pass.new }
    {
        let numbers = claim.numbers;
        let answer = trying_once::try_forward(
            &self.row,
            &mut pass.inner,
            numbers,
            reading,
            interval,
        );
        self.check(pass);
        answer
    }

    /// Ends the run of a claim's function, or gives the claim back where another pass took the lock of its base. `restart` is what the function answered.
    pub fn try_finish(
        &self,
        pass: &mut Pass,
        claim: Claim,
        restart: bool,
    ) -> Result<Finished, Claim>
        requires pass { IsPassOf self.now pass.old }
        requires claim { OwnsClaim self.now.about pass.old.known claim }
        ensures pass { IsPassOf self.now pass.new }
        ensures finishes { MatchResult result (λ a. Finishes self.now.about pass.old.known pass.new.known claim restart a)
            (λ c. (c ≡ claim) × IsContended pass.old pass.new claim.base) }
        ensures alone { IsLast pass.old.known.id → IfErr result (λ c. 2 ^ 64 - 2 ≤ slice_index pass.new.met claim.base) }
        ensures locks { LocksGoOn pass.old pass.new }
    {
        let Claim { numbers } = claim;
        let answer = trying_once::try_finish(&self.row, &mut pass.inner, numbers, restart);
        self.check(pass);
        match answer {
            Some(finished) => Ok(finished),
            None => Err(Claim { numbers }),
        }
    }

    /// The first timer of a context's queue for a clock on a base, due or not.
    pub fn try_next(
        &self,
        pass: &mut Pass,
        context: Context,
        base: u32,
        clock: ClockId,
    ) -> NextAnswer
        requires pass { IsPassOf self.now pass.old }
        requires base { base < self.now.about.bases }
        ensures pass { IsPassOf self.now pass.new }
        ensures next { NextFits self.now.about pass.old pass.new context base clock result }
        ensures alone { IsLast pass.old.known.id → result ≡ nexts.Contended → 2 ^ 64 - 2 ≤ slice_index pass.new.met base }
        ensures locks { LocksGoOn pass.old pass.new }
    {
        let answer = trying_once::try_next(&self.row, &mut pass.inner, context, base, clock);
        self.check(pass);
        answer
    }

    /// Arms a timer on a base where it needs no move for that: it is there, or its function is running. To another base it goes by `try_send` and
    /// `try_arrive`. To the last pass it never answers Missed, up to 2^63 - 1 takes of the base's lock.
    pub fn try_start(&self, pass: &mut Pass, timer: u32, asked: &Asked) -> HereAnswer
        requires pass { IsPassOf self.now pass.old }
        requires timer { timer < length self.now.about.timers }
        requires base { asked.now.base < self.now.about.bases }
        ensures pass { IsPassOf self.now pass.new }
        ensures starts { HereFits self.now.about pass.old pass.new timer asked.now result }
        ensures alone { IsLast pass.old.known.id → (m : Miss) → result ≡ heres.Missed m → IsLastMiss pass.new.met m }
        ensures locks { LocksGoOn pass.old pass.new }
    {
        let answer = starting_once::try_start(&self.row, &mut pass.inner, timer, asked);
        self.check(pass);
        answer
    }

    /// Lets a pass go that has no claim, with the places of its entries: no pass answers for it then. Where it is the last one it has each place of each
    /// timer, and of each base.
    pub fn abandon(&self, pass: Pass)
        requires pass { IsPassOf self.now pass }
        requires unclaimed { pass.known.claims ≡ [] }
        ensures whole { IsLast pass.known.id → HasEachPlace self.now.about pass.known }
        ensures shifts { IsLast pass.known.id → HasEachShift self.now.about pass.known }
    {
        let Pass { inner } = pass;
        inner.abandon();
    }
}
