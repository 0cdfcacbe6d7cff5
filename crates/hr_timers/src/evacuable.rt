//! Timers whose bases go off line and on line. The first pass takes them there, and a base's timers go to its heir.
ghost use Rattle.std.specs.Prelude.{◌≡◌, ◌+◌, ◌*◌, ◌<◌, ◌≤◌, ◌^◌, length, replicate, [], IfOk};
ghost use Rattle.pass_names.specs.SharedHistory.{first_known};
ghost use Rattle.base_row.specs.Calls.{opening_of};
ghost use Rattle.hr_timers.specs.Known.{IsEvacuable, IsPassOf, LocksGoOn};
ghost use Rattle.hr_timers.specs.Moves.{IsSamePass, OfflineFits, OnlineFits, TakesOffline};

use crate::answer::{OfflineAnswer, OnlineAnswer};
use crate::evacuating;
use crate::timers::Timers;
use crate::tokens::Pass;
use base_row::{ReceiptSink, Unlogged, most_counters};
use ktime::Reading;
use seq_timer::{Declared, Terms};
use std::alloc::{AllocError, Global};
use std::sync::Wait;

impl Timers {
    /// As `make_full`, with bases that may go off line: `reach` is how many entries past the limit an armed timer may have that is moved off one.
    pub fn make_evacuable(
        alloc: Global,
        bases: u32,
        timers: &[Declared],
        max_events: u64,
        reach: u64,
    ) -> Result<(Timers, Pass), AllocError>
        requires few { (0 < bases) × (bases ≤ 64) × (length timers.now ≤ 16777216) }
        requires limit { (0 < max_events) × (0 < reach) × (max_events + reach + 80 < 2 ^ 48) }
        ensures pass { IfOk result (λ r. IsPassOf r.0 r.1) }
        ensures about { IfOk result (λ r. r.0.about ≡ opening_of bases timers.now (record { limit = max_events; reach = reach })) }
        ensures evacuable { IfOk result (λ r. IsEvacuable r.0.about) }
        ensures first { IfOk result (λ r. r.1.known ≡ first_known) }
        ensures locks { IfOk result (λ r. (r.1.takes ≡ []) × (r.1.met ≡ replicate bases 0)) }
    {
        let terms = Terms {
            limit: max_events,
            reach,
        };
        let counters = most_counters(bases, timers.len());
        let made = Timers::make_counting(alloc, bases, timers, terms, counters)?;
        Ok(made)
    }

    /// Takes a base off line (`hrtimers_cpu_dying`): moves its armed timers to the heir, at most `budget` of them, each for the times that it was armed
    /// for. It is off line once no timer is armed on it, and no function runs there. Only the first pass may do so.
    pub fn offline<R: Wait>(
        &self,
        rt: &R,
        pass: &mut Pass,
        base: u32,
        heir: u32,
        budget: u32,
        reading: Reading,
    ) -> OfflineAnswer
        requires pass { IsPassOf self.now pass.old }
        requires first { pass.old.known.id.name ≡ [] }
        requires evacuable { IsEvacuable self.now.about }
        requires base { (base < self.now.about.bases) × (heir < base) }
        ensures pass { IsPassOf self.now pass.new }
        ensures fits { TakesOffline self.now.about base heir reading pass.old.known pass.new.known budget result }
        ensures same { IsSamePass pass.old.known pass.new.known }
        ensures locks { LocksGoOn pass.old pass.new }
    {
        self.offline_logged(rt, pass, &mut Unlogged, base, heir, budget, reading)
    }

    /// The same, with the two receipts of each move into a sink.
    pub fn offline_logged<R: Wait, S: ReceiptSink>(
        &self,
        rt: &R,
        pass: &mut Pass,
        sink: &mut S,
        base: u32,
        heir: u32,
        budget: u32,
        reading: Reading,
    ) -> OfflineAnswer
        requires pass { IsPassOf self.now pass.old }
        requires first { pass.old.known.id.name ≡ [] }
        requires evacuable { IsEvacuable self.now.about }
        requires base { (base < self.now.about.bases) × (heir < base) }
        requires room { 2 * budget ≤ S.room sink.old }
        ensures pass { IsPassOf self.now pass.new }
        ensures fits { OfflineFits S.pushed self.now.about base heir reading pass.old.known pass.new.known budget result sink.old sink.new }
        ensures same { IsSamePass pass.old.known pass.new.known }
        ensures locks { LocksGoOn pass.old pass.new }
    {
        self.small();
        let row = &self.row;
        let inner = &mut pass.inner;
        let answer = evacuating::go_offline(rt, row, inner, sink, base, heir, budget, reading);
        self.check(pass);
        answer
    }

    /// Takes a base on line again (`hrtimers_cpu_starting`). Timers come back by later starts. Only the first pass may do so.
    pub fn online<R: Wait>(&self, rt: &R, pass: &mut Pass, base: u32) -> OnlineAnswer
        requires pass { IsPassOf self.now pass.old }
        requires first { pass.old.known.id.name ≡ [] }
        requires evacuable { IsEvacuable self.now.about }
        requires base { base < self.now.about.bases }
        ensures pass { IsPassOf self.now pass.new }
        ensures fits { OnlineFits self.now.about pass.old.known pass.new.known base result }
        ensures same { IsSamePass pass.old.known pass.new.known }
        ensures locks { LocksGoOn pass.old pass.new }
    {
        let answer = evacuating::go_online(rt, &self.row, &mut pass.inner, base);
        self.check(pass);
        answer
    }
}
