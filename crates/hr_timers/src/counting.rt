//! Counters beside the timers, whose rises stand in the one history of all timers. What a counter counts is for its callers to say: one that is raised before
//! and behind what it counts gives that a place among the timers' entries.
ghost use Rattle.std.specs.Prelude.{◌≡◌, ◌≢◌, ◌+◌, ◌^◌, ◌<◌, ◌≤◌, length, replicate, [], IfNone, IfOk, MatchBool, MatchOption};
ghost use Rattle.base_row.specs.Calls.{opening_with};
ghost use Rattle.base_row.specs.Places.{most_counters};
ghost use Rattle.base_row.specs.Plays.{RaisesTo, RisesFrom};
ghost use Rattle.hr_timers.specs.Known.{IsPassOf, KeepsLocks, LocksGoOn};
ghost use Rattle.hr_timers.specs.Logged.{CancelsBehind, HadRisenOtherwise};
ghost use Rattle.hr_timers.specs.Tries.{HadRisenWhileStill};
ghost use Rattle.pass_names.specs.SharedHistory.{LooksOn, first_known};
ghost use Rattle.seq_timer.specs.Steps.{HasRoom};
ghost use Rattle.seq_timer.specs.Systems.{rises_of};

use crate::cancelling;
use crate::timers::Timers;
use crate::tokens::Pass;
use base_row::{BaseRow, ReceiptSink};
use seq_timer::{CancelAnswer, Declared, Terms};
use std::alloc::{AllocError, Global};
use std::sync::Wait;

impl Timers {
    /// Timers of both contexts that take entries on these terms, with so many counters, each 0. Their bases may go off line where the terms have a reach.
    pub fn make_counting(
        alloc: Global,
        bases: u32,
        timers: &[Declared],
        terms: Terms,
        counters: u32,
    ) -> Result<(Timers, Pass), AllocError>
        requires few { (0 < bases) × (bases ≤ 64) × (length timers.now ≤ 16777216) }
        requires limit { 0 < terms.limit }
        requires room { HasRoom terms }
        requires counters { counters ≤ most_counters bases (length timers.now) }
        ensures pass { IfOk result (λ r. IsPassOf r.0 r.1) }
        ensures about { IfOk result (λ r. r.0.about ≡ opening_with bases timers.now terms counters) }
        ensures first { IfOk result (λ r. r.1.known ≡ first_known) }
        ensures locks { IfOk result (λ r. (r.1.takes ≡ []) × (r.1.met ≡ replicate bases 0)) }
    {
        let (row, inner) = BaseRow::make_counting(alloc, bases, timers, terms, counters)?;
        let timers = Timers {
            row,
            first_ring: None,
        };
        let pass = Pass { inner };
        timers.check(&pass);
        Ok((timers, pass))
    }

    /// How often a counter has risen: one load.
    pub fn counter(&self, pass: &mut Pass, counter: u32) -> u64
        requires pass { IsPassOf self.now pass.old }
        requires counter { counter < self.now.about.counters }
        ensures pass { IsPassOf self.now pass.new }
        ensures looks { LooksOn pass.old.known pass.new.known }
        ensures count { result ≡ rises_of counter pass.new.known.seen }
        ensures locks { KeepsLocks pass.old pass.new }
    {
        let count = self.row.counter(&mut pass.inner, counter);
        self.check(pass);
        count
    }

    /// Raises a counter to at least `to`; where it is `known` to be as far, no memory is touched.
    pub fn raise_counter(&self, pass: &mut Pass, counter: u32, known: u64, to: u64)
        requires pass { IsPassOf self.now pass.old }
        requires counter { counter < self.now.about.counters }
        requires known { known ≤ rises_of counter pass.old.known.seen }
        ensures pass { IsPassOf self.now pass.new }
        ensures looks { LooksOn pass.old.known pass.new.known }
        ensures raised { RaisesTo counter to pass.old.known.seen pass.new.known.seen }
        ensures count { to ≤ rises_of counter pass.new.known.seen }
        ensures locks { KeepsLocks pass.old pass.new }
    {
        self.row.raise_counter(&mut pass.inner, counter, known, to);
        self.check(pass);
    }

    /// Raises a counter by one, if it has risen `from` times: one exchange.
    pub fn step_counter(&self, pass: &mut Pass, counter: u32, from: u64) -> bool
        requires pass { IsPassOf self.now pass.old }
        requires counter { counter < self.now.about.counters }
        requires small { from + 1 < 2 ^ 64 }
        ensures pass { IsPassOf self.now pass.new }
        ensures looks { LooksOn pass.old.known pass.new.known }
        ensures steps { MatchBool result (RisesFrom counter from pass.old.known.seen pass.new.known.seen) (rises_of counter pass.new.known.seen ≢ from) }
        ensures locks { KeepsLocks pass.old pass.new }
    {
        let rose = self.row.step_counter(&mut pass.inner, counter, from);
        self.check(pass);
        rose
    }

    /// As `try_to_cancel_logged`, with a step of a counter before it: unless the timer's function is running, the counter rises by one, under the lock of the
    /// timer's base. It answers `None`, and has done nothing, where the counter hasn't risen `from` times and the function isn't running.
    pub fn try_to_cancel_behind<R: Wait, S: ReceiptSink>(
        &self,
        rt: &R,
        pass: &mut Pass,
        sink: &mut S,
        timer: u32,
        counter: u32,
        from: u64,
    ) -> Option<CancelAnswer>
        requires pass { IsPassOf self.now pass.old }
        requires timer { timer < length self.now.about.timers }
        requires room { 0 < S.room sink.old }
        requires counter { counter < self.now.about.counters }
        requires small { from + 1 < 2 ^ 64 }
        ensures pass { IsPassOf self.now pass.new }
        ensures cancels { MatchOption result
            (LooksOn pass.old.known pass.new.known × HadRisenOtherwise counter from pass.old.known pass.new.known × (sink.new ≡ sink.old))
            (λ a. CancelsBehind S.pushed self.now.about counter from pass.old.known pass.new.known timer a sink.old sink.new) }
        ensures why { IfNone result (HadRisenWhileStill self.now.about counter from pass.old.known pass.new.known timer) }
        ensures locks { LocksGoOn pass.old pass.new }
        ensures room { S.room sink.old ≤ S.room sink.new + 1 }
    {
        let answer = cancelling::try_to_cancel_behind(
            rt,
            &self.row,
            &mut pass.inner,
            sink,
            timer,
            counter,
            from,
        );
        self.check(pass);
        answer
    }
}
