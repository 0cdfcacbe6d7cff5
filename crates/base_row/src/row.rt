//! A row of bases behind locks, with timers that have a word each.
ghost use Rattle.base_row.specs.Places.{lock_at, most_counters, word_at};
ghost use Rattle.std.specs.Prelude.{◌≡◌, ◌+◌, ◌-◌, ◌^◌, ◌<◌, ◌≤◌, ℕ, length, slice_index, Some, None, [], MatchOption, IfOk, IfSome, IfNone, false};
ghost use Rattle.pass_names.specs.Names.{AnswersFor, IsLast};
ghost use Rattle.base_row.specs.Rules.{number_of};
ghost use Rattle.seq_timer.specs.declared.event.EventBy.TheVariants as events;
ghost use Rattle.seq_timer.specs.Histories.{peek_of};
ghost use Rattle.seq_timer.specs.Steps.{HasRoom, after, reply_to};
ghost use Rattle.seq_timer.specs.Tables.{IsNextDue, IsStopped, in_context, runs_on};
ghost use Rattle.seq_timer.specs.Contents.{running_in};
ghost use Rattle.seq_timer.specs.Halves.{running_on};
ghost use Rattle.ktime.specs.declared.clock_id.ClockId.{ClockId};
ghost use Rattle.seq_timer.specs.Systems.{IsOn, next_on};
ghost use Rattle.base_row.specs.Plays.{KnowsOwn, first_base_view, Lost, GotBase, carried_slots, split_base_view, new_base_view, Steady};
ghost use Rattle.base_row.specs.Calls.{AreFresh, GetsBase, MissesBase, opening_of, opening_ringed, opening_with, IsBasePassOf, LetsGo, SeesFurther, Absorbs};
ghost use Rattle.base_row.specs.Calls.{LearnsFrom, MayAppend, Appended, own_receipt, timer_seen, base_seen};

use crate::cell::BaseCell;
use crate::held::{HeldBase, Pass};
use crate::log::{ReceiptSink, Unlogged};
use crate::parts::{empty_slots, lock_index, most_counters, number_of, timer_index, zeros};
use crate::plays::{About, BaseRule, Child, SlotView};
use crate::slots::{attempt, put_back};
use crate::steps::{absorb, enter, free, look, tell};
use atomic_table::{Refused, Table};
use ktime::Reading;
use pass_names::Retries;
use seq_timer::{Context, Declared, Event, Peek, Reply, Terms, TimerState, make_timers, read};
use std::alloc::{AllocError, Global};
use std::marker::{Brand, Model};
use std::snapshot::Snapshot;
use std::sync::Wait;

/// Bases and timers that many threads share.
#[derive(Drop)]
pub struct BaseRow {
    pub(crate) table: Table<BaseCell, SlotView, About, BaseRule, Global>,
    pub(crate) bases: usize,
    pub(crate) timers: usize,
    pub(crate) counters: u32,
}

impl Model for BaseRow {
    ghost use Rattle.std.specs.Prelude.{◌≡◌, ◌+◌, ◌<◌, ◌≤◌, length};
    ghost use Rattle.base_row.specs.Places.{most_counters, word_at};
    ghost use Rattle.base_row.specs.Rings.{counters_in};
    ghost use Rattle.base_row.specs.Rules.{opening_in};
    ghost use Rattle.base_row.specs.Calls.{BaseRowOf, AreFresh};

    ghost Value = { BaseRowOf };

    ghost view = { λ r. record { id = r.table.shared.table_id; about = opening_in r.table.shared.key } };

    ghost invariant = { λ r. (r.table.shared.table_id.words
        ≡ word_at r.table.shared.key.bases (length r.table.shared.key.timers.value.items + r.table.shared.key.bases))
        × (r.table.shared.table_id.slots ≡ r.table.shared.key.bases) × (r.bases ≡ r.table.shared.key.bases)
        × (r.timers ≡ length r.table.shared.key.timers.value.items)
        × (length r.table.shared.key.timers.value.items ≤ 16777216) × (AreFresh r.table.shared.key.timers.value.items)
        × (0 < r.table.shared.key.bases) × (r.table.shared.key.bases ≤ 256)
        × (r.counters ≡ r.table.shared.key.counters)
        × (counters_in (opening_in r.table.shared.key) ≤ most_counters r.table.shared.key.bases (length r.table.shared.key.timers.value.items)) };
}

impl BaseRow {
    /// A row of so many bases, and of timers that are declared so and take entries on these terms, with as many counters as there may be, and the first
    /// pass. It takes memory, for all calls; no other call does.
    pub fn make(
        alloc: Global,
        bases: u32,
        timers: &[Declared],
        terms: Terms,
    ) -> Result<(BaseRow, Pass), AllocError>
        requires few { (0 < bases) × (bases ≤ 256) × (length timers.now ≤ 16777216) }
        requires limit { 0 < terms.limit }
        requires room { HasRoom terms }
        ensures row { IfOk result (λ r. IsBasePassOf r.0 r.1) }
        ensures about { IfOk result (λ r. r.0.about ≡ opening_of bases timers.now terms) }
        ensures first { IfOk result (λ r. r.1.knows ≡ first_base_view (opening_of bases timers.now terms)) }
    {
        let counters = most_counters(bases, timers.len());
        BaseRow::make_counting(alloc, bases, timers, terms, counters)
    }

    /// The same, with so many counters, whose rises stand in the history of the timers.
    pub fn make_counting(
        alloc: Global,
        bases: u32,
        timers: &[Declared],
        terms: Terms,
        counters: u32,
    ) -> Result<(BaseRow, Pass), AllocError>
        requires few { (0 < bases) × (bases ≤ 256) × (length timers.now ≤ 16777216) }
        requires counters { counters ≤ most_counters bases (length timers.now) }
        requires limit { 0 < terms.limit }
        requires room { HasRoom terms }
        ensures row { IfOk result (λ r. IsBasePassOf r.0 r.1) }
        ensures about { IfOk result (λ r. r.0.about ≡ opening_with bases timers.now terms counters) }
        ensures first { IfOk result (λ r. r.1.knows ≡ first_base_view (opening_with bases timers.now terms counters)) }
    {
        BaseRow::make_ringed(alloc, bases, timers, terms, counters, &Vec::new(alloc))
    }

    /// The same, with rings of so much room each beside the counters (`rings.rt`).
    pub fn make_ringed(
        alloc: Global,
        bases: u32,
        timers: &[Declared],
        terms: Terms,
        counters: u32,
        rings: &Vec<u64>,
    ) -> Result<(BaseRow, Pass), AllocError>
        requires few { (0 < bases) × (bases ≤ 256) × (length timers.now ≤ 16777216) }
        requires counters { counters + (length rings.now.items + length rings.now.items) ≤ most_counters bases (length timers.now) }
        requires limit { 0 < terms.limit }
        requires room { HasRoom terms }
        ensures row { IfOk result (λ r. IsBasePassOf r.0 r.1) }
        ensures about { IfOk result (λ r. r.0.about ≡ opening_ringed bases timers.now terms counters rings.now.items) }
        ensures first { IfOk result (λ r. r.1.knows ≡ first_base_view (opening_ringed bases timers.now terms counters rings.now.items)) }
    {
        let timers = make_timers(alloc, timers, terms)?;
        BaseRow::with_timers(alloc, bases, timers, counters, rings)
    }

    fn with_timers(
        alloc: Global,
        bases: u32,
        timers: Vec<TimerState>,
        counters: u32,
        rings: &Vec<u64>,
    ) -> Result<(BaseRow, Pass), AllocError>
        requires fresh { AreFresh timers.items }
        requires few { (0 < bases) × (bases ≤ 256) × (length timers.items ≤ 16777216) }
        requires counters { counters + (length rings.now.items + length rings.now.items) ≤ most_counters bases (length timers.items) }
        ensures row { IfOk result (λ r. IsBasePassOf r.0 r.1) }
        ensures about { IfOk result (λ r. r.0.about ≡ record { bases = bases; timers = timers.items; counters = counters; rings = rings.now.items }) }
        ensures first { IfOk result (λ r. r.1.knows ≡ first_base_view (record { bases = bases; timers = timers.items; counters = counters; rings = rings.now.items })) }
    {
        let about = About {
            bases: u64::from(bases),
            timers: Snapshot::of(&timers),
            counters: u64::from(counters),
            rings: Snapshot::of(rings),
        };
        let count = timers.len();
        let words = zeros(alloc, timer_index(bases as usize, count + bases as usize))?;
        let slots = empty_slots(alloc, bases, timers)?;
        match Table::new(alloc, words.as_slice(), slots, &about) {
            Ok((table, seat)) => Ok((
                BaseRow {
                    table,
                    bases: bases as usize,
                    timers: count,
                    counters,
                },
                Pass { seat },
            )),
            Err(Refused { slots: _ }) => Err(AllocError),
        }
    }

    /// Takes a base's lock if it is free: a load of the lock word and at most one exchange of it. It waits for nobody. It answers `None`
    /// only where another pass took the base in between, or where it has been taken 2^63 - 1 times and is taken no more.
    pub fn try_lock_base(&self, pass: &mut Pass, base: u32) -> Option<HeldBase>
        requires row { IsBasePassOf self.now pass.old }
        requires within { base < self.now.about.bases }
        requires idle { pass.old.knows.held ≡ None }
        ensures row { IsBasePassOf self.now pass.new }
        ensures taken { MatchOption result (MissesBase base pass.old.knows pass.new.knows) (λ h. GetsBase base pass.old.knows pass.new.knows h) }
        // The last pass always gets a base that is still taken.
        ensures last { IfNone result (IsLast pass.old.knows.id → 2 ^ 64 - 2 ≤ slice_index pass.new.knows.met base) }
    {
        let held = self.attempt_base(pass, base);
        pass.known();
        held
    }

    fn attempt_base(&self, pass: &mut Pass, base: u32) -> Option<HeldBase>
        requires row { IsBasePassOf self.now pass.old }
        requires within { base < self.now.about.bases }
        requires idle { pass.old.knows.held ≡ None }
        ensures row { IsBasePassOf self.now pass.new }
        ensures taken { MatchOption result
            (Lost self.now.about base (pass.old.knows, []) (pass.new.knows, []))
            (λ h. GotBase self.now.about base (pass.old.knows, []) (pass.new.knows, carried_slots (Some h)) h) }
    {
        let word = self.lock_word(base);
        attempt(&self.table.shared, &mut pass.seat, base, word)
    }

    /// Waits until a base's lock is free, and takes it. After 2^63 - 1 takes of the base it doesn't return.
    pub fn lock_base<R: Wait>(&self, rt: &R, pass: &mut Pass, base: u32) -> HeldBase
        requires row { IsBasePassOf self.now pass.old }
        requires within { base < self.now.about.bases }
        requires idle { pass.old.knows.held ≡ None }
        ensures row { IsBasePassOf self.now pass.new }
        ensures locks { GetsBase base pass.old.knows pass.new.knows result }
    {
        if let Some(held) = self.try_lock_base(pass, base) {
            return held;
        }
        self.wait_for_base(rt, pass, base)
    }

    /// Tries until it has a base's lock.
    #[inline(never)]
    fn wait_for_base<R: Wait>(&self, rt: &R, pass: &mut Pass, base: u32) -> HeldBase
        requires row { IsBasePassOf self.now pass.old }
        requires within { base < self.now.about.bases }
        requires idle { pass.old.knows.held ≡ None }
        ensures row { IsBasePassOf self.now pass.new }
        ensures locks { GetsBase base pass.old.knows pass.new.knows result }
    {
        for _ in Retries::new(rt) {
            if let Some(held) = self.try_lock_base(pass, base) {
                return held;
            }
        }
        unreachable!()
    }

    /// Lets a base go.
    pub fn unlock_base(&self, pass: &mut Pass, held: HeldBase)
        requires row { IsBasePassOf self.now pass.old }
        requires within { held.base < self.now.about.bases }
        requires held { pass.old.knows.held ≡ Some held }
        ensures row { IsBasePassOf self.now pass.new }
        ensures free { LetsGo self.now.about held pass.old.knows pass.new.knows }
    {
        let HeldBase { base, word, slot } = held;
        let cells = &self.table.shared;
        put_back(cells, &mut pass.seat, base, slot);
        let index = self.lock_word(base);
        free(cells, &mut pass.seat, index, word + 1);
    }

    /// Loads a timer's word. It waits for nobody.
    pub fn load_word(&self, pass: &mut Pass, timer: u32) -> Peek
        requires row { IsBasePassOf self.now pass.old }
        requires within { timer < length self.now.about.timers }
        ensures row { IsBasePassOf self.now pass.new }
        ensures sees { SeesFurther pass.old.knows pass.new.knows }
        ensures steady { Steady pass.old.knows pass.new.knows }
        ensures word { result ≡ peek_of (timer_seen self.now.about pass.new.knows timer) }
        ensures placed { result.base < self.now.about.bases }
    {
        let index = self.word_index(timer);
        let number = look(&self.table.shared, &mut pass.seat, index);
        pass.known();
        self.fresh();
        read(number)
    }

    /// The timer whose function runs on a held base, with its generation.
    pub fn running(&self, pass: &Pass, held: &HeldBase, context: Context) -> Option<(u32, u64)>
        requires row { IsBasePassOf self.now pass.now }
        requires held { pass.now.knows.held ≡ Some held.now }
        ensures running { result ≡ running_in context held.now.content.content }
        ensures busy { IfSome result (λ m. running_on held.now.base (in_context context (timer_seen self.now.about pass.now.knows) m.0) ≡ Some m.1) }
        ensures idle { IfNone result ((t : ℕ) → runs_on held.now.base (in_context context (timer_seen self.now.about pass.now.knows) t) ≡ false) }
    {
        pass.known();
        self.fresh();
        held.slot.running(context)
    }

    /// The timer that is the next to expire on a held base at this reading, with its expiry.
    pub fn first(
        &self,
        pass: &Pass,
        held: &HeldBase,
        context: Context,
        reading: Reading,
    ) -> Option<(u64, u32)>
        requires row { IsBasePassOf self.now pass.now }
        requires held { pass.now.knows.held ≡ Some held.now }
        ensures first { result ≡ next_on context held.now.content reading }
        ensures next { IfSome result (λ p. IsNextDue (in_context context (timer_seen self.now.about pass.now.knows)) held.now.base reading p.1) }
        ensures context { IfSome result (λ p. (timer_seen self.now.about pass.now.knows p.1).declared.context ≡ context) }
        ensures seen { result ≡ next_on context (base_seen self.now.about pass.now.knows held.now.base) reading }
        ensures expires { IfSome result (λ p. p.0 ≡ (timer_seen self.now.about pass.now.knows p.1).expires) }
        ensures within { IfSome result (λ p. p.1 < length self.now.about.timers) }
        ensures none { IfNone result ((clock : ClockId) → IsStopped (in_context context (timer_seen self.now.about pass.now.knows)) held.now.base reading clock) }
    {
        pass.known();
        self.fresh();
        held.slot.first(context, reading)
    }

    /// Makes one more pass, which has seen and met as much.
    pub fn split(&self, pass: &mut Pass) -> Pass
        requires row { IsBasePassOf self.now pass.old }
        ensures row { IsBasePassOf self.now pass.new × IsBasePassOf self.now result }
        ensures splitter { pass.new.knows ≡ split_base_view pass.old.knows }
        ensures new { result.knows ≡ new_base_view pass.old.knows }
    {
        Pass {
            seat: self.table.shared.split_seat::<Child>(&mut pass.seat),
        }
    }

    /// A pass takes in another, which was split off it, or off one that it took in.
    pub fn retire(&self, main: &mut Pass, other: Pass)
        requires row { IsBasePassOf self.now main.old × IsBasePassOf self.now other }
        requires idle { (main.old.knows.held ≡ None) × (other.knows.held ≡ None) × (other.knows.carry ≡ None) }
        requires answers { AnswersFor main.old.knows.id other.knows.id }
        ensures row { IsBasePassOf self.now main.new }
        ensures retires { Absorbs main.old.knows other.knows main.new.knows }
    {
        absorb(&self.table.shared, &mut main.seat, other.into_seat());
    }

    /// Two passes tell each other what they have seen and met.
    pub fn meet(&self, a: &mut Pass, b: &mut Pass)
        requires row { IsBasePassOf self.now a.old × IsBasePassOf self.now b.old }
        ensures row { IsBasePassOf self.now a.new × IsBasePassOf self.now b.new }
        ensures second { LearnsFrom b.old.knows a.old.knows b.new.knows }
        ensures first { LearnsFrom a.old.knows b.new.knows a.new.knows }
    {
        let cells = &self.table.shared;
        tell(cells, &mut a.seat, &mut b.seat);
        tell(cells, &mut b.seat, &mut a.seat);
    }

    /// Ends a row with its last pass, which has no claims. The pass has made all entries and takes.
    pub fn close(self, pass: Pass)
        requires row { IsBasePassOf self pass }
        requires last { IsLast pass.knows.id }
        requires idle { pass.knows.held ≡ None }
        requires unclaimed { pass.knows.claims ≡ [] }
        ensures known { KnowsOwn pass.knows }
    {
        let seat = pass.into_seat();
        drop(seat);
        drop(self);
    }

    /// The state that a held base keeps of a timer: the timer's, where it says that the timer is on the base.
    pub fn state<'a>(&self, pass: &Pass, held: &'a HeldBase, timer: u32) -> &'a TimerState
        requires row { IsBasePassOf self.now pass.now }
        requires held { pass.now.knows.held ≡ Some held.now }
        requires within { timer < length self.now.about.timers }
        ensures shown { IsOn held.now.base result.now → timer_seen self.now.about pass.now.knows timer ≡ result.now }
        ensures kept { IsOn held.now.base (timer_seen self.now.about pass.now.knows timer) → result.now ≡ timer_seen self.now.about pass.now.knows timer }
    {
        pass.known();
        held.slot.state(timer)
    }

    /// Which word a base's lock has.
    fn lock_word(&self, base: u32) -> usize
        requires { base < self.now.about.bases }
        ensures { result ≡ lock_at base }
    {
        prove!((base as usize) < self.table.slot_count());
        lock_index(base as usize)
    }

    /// The row was made of timers to which nothing had happened, and of 1 to 256 bases.
    pub fn fresh(&self)
        ensures fresh { AreFresh self.now.about.timers }
        ensures some { 0 < self.now.about.bases }
        ensures few { self.now.about.bases ≤ 256 }
    {
        let _table = &self.table;
    }

    /// Which word a timer has.
    pub(crate) fn word_index(&self, timer: u32) -> usize
        requires { timer < length self.now.about.timers }
        ensures { result ≡ word_at self.now.about.bases timer }
    {
        prove!((timer as usize) < self.table.word_count());
        timer_index(self.bases, timer as usize)
    }
}
