//! The same calls with a sink for the receipts of the entries that they make.
ghost use Rattle.std.specs.Prelude.{◌≡◌, ◌≤◌, ◌<◌, ◌+◌, ◌⊎◌, length};
ghost use Rattle.seq_timer.specs.Tables.{timer_at};
ghost use Rattle.hr_timers.specs.Known.{IsPassOf, LocksGoOn, OwnsClaim};
ghost use Rattle.hr_timers.specs.Ways.{most_to_start};
ghost use Rattle.hr_timers.specs.Logged.{CancelsLogged, ClaimsLogged, FinishesLogged, ForwardsLogged, HasRoomToStart, StartsLogged};
ghost use Rattle.hr_timers.specs.Tries.{WasBusy};

use crate::answer::{ClaimAnswer, StartAnswer};
use crate::timers::Timers;
use crate::tokens::{Claim, Pass};
use crate::{cancelling, claiming, starting};
use base_row::ReceiptSink;
use ktime::Reading;
use seq_timer::{Asked, CancelAnswer, Context, Finished, ForwardAnswer};
use std::sync::Wait;

impl Timers {
    /// As `start_range`.
    pub fn start_logged<R: Wait, S: ReceiptSink>(
        &self,
        rt: &R,
        pass: &mut Pass,
        sink: &mut S,
        timer: u32,
        asked: &Asked,
    ) -> StartAnswer
        requires pass { IsPassOf self.now pass.old }
        requires timer { timer < length self.now.about.timers }
        requires base { asked.now.base < self.now.about.bases }
        requires room { HasRoomToStart self.now.about pass.old.known timer asked.now.base (S.room sink.old) }
        ensures pass { IsPassOf self.now pass.new }
        ensures starts { StartsLogged S.pushed self.now.about pass.old.known pass.new.known timer asked.now result sink.old sink.new }
        ensures locks { LocksGoOn pass.old pass.new }
        ensures room { S.room sink.old ≤ S.room sink.new + most_to_start (timer_at self.now.about.timers timer).terms asked.now.base }
    {
        self.small();
        let row = self.base_row();
        let answer = starting::start(rt, row, &mut pass.inner, sink, timer, asked);
        self.check(pass);
        answer
    }

    /// As `try_to_cancel`.
    pub fn try_to_cancel_logged<R: Wait, S: ReceiptSink>(
        &self,
        rt: &R,
        pass: &mut Pass,
        sink: &mut S,
        timer: u32,
    ) -> CancelAnswer
        requires pass { IsPassOf self.now pass.old }
        requires timer { timer < length self.now.about.timers }
        requires room { 0 < S.room sink.old }
        ensures pass { IsPassOf self.now pass.new }
        ensures cancels { CancelsLogged S.pushed self.now.about pass.old.known pass.new.known timer result sink.old sink.new }
        ensures idle { (pass.new.takes ≡ pass.old.takes) ⊎ WasBusy self.now.about pass.old.known pass.new.known timer }
        ensures locks { LocksGoOn pass.old pass.new }
        ensures room { S.room sink.old ≤ S.room sink.new + 1 }
    {
        let row = self.base_row();
        let answer = cancelling::try_to_cancel(rt, row, &mut pass.inner, sink, timer);
        self.check(pass);
        answer
    }

    /// As `claim_in`.
    pub fn claim_in_logged<R: Wait, S: ReceiptSink>(
        &self,
        rt: &R,
        pass: &mut Pass,
        sink: &mut S,
        context: Context,
        base: u32,
        reading: Reading,
    ) -> ClaimAnswer
        requires pass { IsPassOf self.now pass.old }
        requires base { base < self.now.about.bases }
        requires room { 0 < S.room sink.old }
        ensures pass { IsPassOf self.now pass.new }
        ensures claims { ClaimsLogged S.pushed self.now.about pass.old.known pass.new.known context base reading result sink.old sink.new }
        ensures locks { LocksGoOn pass.old pass.new }
        ensures room { S.room sink.old ≤ S.room sink.new + 1 }
    {
        let row = self.base_row();
        let answer = claiming::claim_next(rt, row, &mut pass.inner, sink, context, base, reading);
        self.check(pass);
        answer
    }

    /// As `forward`.
    pub fn forward_logged<R: Wait, S: ReceiptSink>(
        &self,
        rt: &R,
        pass: &mut Pass,
        sink: &mut S,
        claim: &Claim,
        reading: Reading,
        interval: u64,
    ) -> ForwardAnswer
        requires pass { IsPassOf self.now pass.old }
        requires claim { OwnsClaim self.now.about pass.old.known claim.now }
        requires room { 0 < S.room sink.old }
        ensures pass { IsPassOf self.now pass.new }
        ensures forwards { ForwardsLogged S.pushed self.now.about pass.old.known pass.new.known claim.now reading interval result sink.old sink.new }
        ensures locks { LocksGoOn pass.old pass.new }
        ensures room { S.room sink.old ≤ S.room sink.new + 1 }
    {
        let row = self.base_row();
        let numbers = claim.numbers;
        let answer = claiming::forward(rt, row, &mut pass.inner, sink, numbers, reading, interval);
        self.check(pass);
        answer
    }

    /// As `finish`.
    pub fn finish_logged<R: Wait, S: ReceiptSink>(
        &self,
        rt: &R,
        pass: &mut Pass,
        sink: &mut S,
        claim: Claim,
        restart: bool,
    ) -> Finished
        requires pass { IsPassOf self.now pass.old }
        requires claim { OwnsClaim self.now.about pass.old.known claim }
        requires room { 0 < S.room sink.old }
        ensures pass { IsPassOf self.now pass.new }
        ensures finishes { FinishesLogged S.pushed self.now.about pass.old.known pass.new.known claim restart result sink.old sink.new }
        ensures locks { LocksGoOn pass.old pass.new }
        ensures room { S.room sink.old ≤ S.room sink.new + 1 }
    {
        let Claim { numbers } = claim;
        let row = self.base_row();
        let answer = claiming::finish(rt, row, &mut pass.inner, sink, numbers, restart);
        self.check(pass);
        answer
    }
}
