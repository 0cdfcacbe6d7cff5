//! The calls on timers.
ghost use Rattle.std.specs.Prelude.{◌≡◌, ◌≤◌, ◌<◌, ◌^◌, ◌-◌, ◌++◌, ◌⊎◌, ℕ, length, map, replicate, slice_index, [], IfOk};
ghost use Rattle.pass_names.specs.Names.{AnswersFor, IsLast};
ghost use Rattle.seq_timer.specs.declared.context.Context.TheVariants as contexts;
ghost use Rattle.seq_timer.specs.Steps.{greatest_limit, limited};
ghost use Rattle.seq_timer.specs.Tables.{hard_on};
ghost use Rattle.seq_timer.specs.Calls.{asked_for};
ghost use Rattle.base_row.specs.Calls.{opening_of};
ghost use Rattle.base_row.specs.Plays.{greater};
ghost use Rattle.pass_names.specs.SharedHistory.{MeetWith, TakesIn, child_known, first_known, splitter_known};
ghost use Rattle.hr_timers.specs.Known.{HasEachPlace, HasEachShift, IsPassOf, KeepsLocks, LocksGoOn, OwnsClaim};
ghost use Rattle.hr_timers.specs.Calls.{Cancels, ClaimFits, Finishes, Forwards, NowFits, Peeks, StartsTimer};
ghost use Rattle.hr_timers.specs.Tries.{WasBusy};
ghost use Rattle.hr_timers.specs.declared.answer.NowAnswer.TheVariants as nows;

use crate::answer::{ClaimAnswer, NowAnswer, StartAnswer};
use crate::tokens::{Claim, Pass};
use crate::trying_now;
use base_row::{BaseRow, Unlogged, most_counters};
use ktime::{ClockId, Mode, Reading};
use seq_timer::{
    Asked, CancelAnswer, Context, Declared, Finished, ForwardAnswer, Peek, Terms, all_hard,
};
use std::alloc::{AllocError, Global};
use std::marker::Model;
use std::sync::Wait;

/// Timers that many threads share, each thread with a pass of its own.
#[derive(Drop)]
pub struct Timers {
    pub(crate) row: BaseRow,
    pub(crate) first_ring: Option<u64>,
}

impl Model for Timers {
    ghost use Rattle.std.specs.Prelude.{◌≡◌, ◌≤◌, slice_get};
    ghost use Rattle.base_row.specs.Calls.{BaseRowOf};

    ghost Value = { BaseRowOf };

    ghost view = { λ t. t.row };

    ghost invariant = { λ t. (t.row.about.bases ≤ 64) × (t.first_ring ≡ slice_get t.row.about.rings 0) };
}

impl Timers {
    /// Timers that are declared on these clocks, on so many bases, with as many counters as there may be, and the first pass. At `max_events` entries a timer
    /// takes no start, no forward and no restart any more. It alone takes memory, for all calls.
    pub fn make(
        alloc: Global,
        bases: u32,
        clocks: &[ClockId],
        max_events: u64,
    ) -> Result<(Timers, Pass), AllocError>
        requires few { (0 < bases) × (bases ≤ 64) × (length clocks.now ≤ 16777216) }
        requires limit { (0 < max_events) × (max_events ≤ greatest_limit) }
        ensures pass { IfOk result (λ r. IsPassOf r.0 r.1) }
        ensures about { IfOk result (λ r. r.0.about ≡ opening_of bases (map hard_on clocks.now) (limited max_events)) }
        ensures first { IfOk result (λ r. r.1.known ≡ first_known) }
        ensures locks { IfOk result (λ r. (r.1.takes ≡ []) × (r.1.met ≡ replicate bases 0)) }
    {
        let timers = all_hard(alloc, clocks)?;
        Timers::make_full(alloc, bases, &timers, max_events)
    }

    /// The same, with timers of both contexts. Their bases stay on line.
    pub fn make_full(
        alloc: Global,
        bases: u32,
        timers: &[Declared],
        max_events: u64,
    ) -> Result<(Timers, Pass), AllocError>
        requires few { (0 < bases) × (bases ≤ 64) × (length timers.now ≤ 16777216) }
        requires limit { (0 < max_events) × (max_events ≤ greatest_limit) }
        ensures pass { IfOk result (λ r. IsPassOf r.0 r.1) }
        ensures about { IfOk result (λ r. r.0.about ≡ opening_of bases timers.now (limited max_events)) }
        ensures first { IfOk result (λ r. r.1.known ≡ first_known) }
        ensures locks { IfOk result (λ r. (r.1.takes ≡ []) × (r.1.met ≡ replicate bases 0)) }
    {
        let counters = most_counters(bases, timers.len());
        Timers::make_counting(alloc, bases, timers, Terms::limited(max_events), counters)
    }

    /// Arms a timer on a base, with no slack (`hrtimer_start`).
    pub fn start<R: Wait>(
        &self,
        rt: &R,
        pass: &mut Pass,
        timer: u32,
        mode: Mode,
        ns: u64,
        base: u32,
        reading: Reading,
    ) -> StartAnswer
        requires pass { IsPassOf self.now pass.old }
        requires timer { timer < length self.now.about.timers }
        requires base { base < self.now.about.bases }
        ensures pass { IsPassOf self.now pass.new }
        ensures starts { StartsTimer self.now.about pass.old.known pass.new.known timer (asked_for mode ns 0 base reading) result }
        ensures locks { LocksGoOn pass.old pass.new }
    {
        self.start_range(rt, pass, timer, mode, ns, 0, base, reading)
    }

    /// Arms a timer on a base (`hrtimer_start_range_ns`). One whose function is running keeps its base; another one is moved there first. `ns` is
    /// read by the mode, in nanoseconds, and is the soft expiry; the expiry is `slack` later.
    pub fn start_range<R: Wait>(
        &self,
        rt: &R,
        pass: &mut Pass,
        timer: u32,
        mode: Mode,
        ns: u64,
        slack: u64,
        base: u32,
        reading: Reading,
    ) -> StartAnswer
        requires pass { IsPassOf self.now pass.old }
        requires timer { timer < length self.now.about.timers }
        requires base { base < self.now.about.bases }
        ensures pass { IsPassOf self.now pass.new }
        ensures starts { StartsTimer self.now.about pass.old.known pass.new.known timer (asked_for mode ns slack base reading) result }
        ensures locks { LocksGoOn pass.old pass.new }
    {
        let asked = Asked {
            mode,
            ns,
            slack,
            reading,
            base,
        };
        self.small();
        self.start_logged(rt, pass, &mut Unlogged, timer, &asked)
    }

    /// Disarms a timer, if its function isn't running (`hrtimer_try_to_cancel`). It waits only where one load doesn't show the timer idle.
    pub fn try_to_cancel<R: Wait>(&self, rt: &R, pass: &mut Pass, timer: u32) -> CancelAnswer
        requires pass { IsPassOf self.now pass.old }
        requires timer { timer < length self.now.about.timers }
        ensures pass { IsPassOf self.now pass.new }
        ensures cancels { Cancels self.now.about pass.old.known pass.new.known timer result }
        // A timer that was idle all along: no lock was taken.
        ensures idle { (pass.new.takes ≡ pass.old.takes) ⊎ WasBusy self.now.about pass.old.known pass.new.known timer }
        ensures locks { LocksGoOn pass.old pass.new }
    {
        self.try_to_cancel_logged(rt, pass, &mut Unlogged, timer)
    }

    /// Disarms a timer, if its function isn't running, at one try that waits for nobody. To the last pass it never answers Moving or Moved,
    /// nor Contended, up to 2^63 - 1 takes of the base's lock.
    pub fn cancel_now(&self, pass: &mut Pass, timer: u32) -> NowAnswer
        requires pass { IsPassOf self.now pass.old }
        requires timer { timer < length self.now.about.timers }
        ensures pass { IsPassOf self.now pass.new }
        ensures cancels { NowFits self.now.about pass.old pass.new timer result }
        // The same, and it isn't told Contended.
        ensures idle { ((pass.new.takes ≡ pass.old.takes) × ((b : ℕ) → result ≡ nows.Contended b → ⊥)) ⊎ WasBusy self.now.about pass.old.known pass.new.known timer }
        ensures locks { LocksGoOn pass.old pass.new }
        ensures alone { IsLast pass.old.known.id → (b : ℕ) → result ≡ nows.Contended b → 2 ^ 64 - 2 ≤ slice_index pass.new.met b }
        ensures moving { IsLast pass.old.known.id → (b : ℕ) → result ≡ nows.Moving b → ⊥ }
        ensures moved { IsLast pass.old.known.id → (a b : ℕ) → result ≡ nows.Moved a b → ⊥ }
    {
        let answer = trying_now::cancel_now(&self.row, &mut pass.inner, timer);
        self.check(pass);
        answer
    }

    /// Claims the timer that is the next to expire on a base (`__run_hrtimer`): its function is to run, by the caller that has the claim.
    pub fn claim_next<R: Wait>(
        &self,
        rt: &R,
        pass: &mut Pass,
        base: u32,
        reading: Reading,
    ) -> ClaimAnswer
        requires pass { IsPassOf self.now pass.old }
        requires base { base < self.now.about.bases }
        ensures pass { IsPassOf self.now pass.new }
        ensures claims { ClaimFits self.now.about pass.old.known pass.new.known contexts.Hard base reading result }
        ensures locks { LocksGoOn pass.old pass.new }
    {
        self.claim_in(rt, pass, Context::Hard, base, reading)
    }

    /// The same for the timers of the soft context.
    pub fn claim_next_soft<R: Wait>(
        &self,
        rt: &R,
        pass: &mut Pass,
        base: u32,
        reading: Reading,
    ) -> ClaimAnswer
        requires pass { IsPassOf self.now pass.old }
        requires base { base < self.now.about.bases }
        ensures pass { IsPassOf self.now pass.new }
        ensures claims { ClaimFits self.now.about pass.old.known pass.new.known contexts.Soft base reading result }
        ensures locks { LocksGoOn pass.old pass.new }
    {
        self.claim_in(rt, pass, Context::Soft, base, reading)
    }

    /// Claims the timer of a context that is the next to expire on a base.
    pub fn claim_in<R: Wait>(
        &self,
        rt: &R,
        pass: &mut Pass,
        context: Context,
        base: u32,
        reading: Reading,
    ) -> ClaimAnswer
        requires pass { IsPassOf self.now pass.old }
        requires base { base < self.now.about.bases }
        ensures pass { IsPassOf self.now pass.new }
        ensures claims { ClaimFits self.now.about pass.old.known pass.new.known context base reading result }
        ensures locks { LocksGoOn pass.old pass.new }
    {
        self.claim_in_logged(rt, pass, &mut Unlogged, context, base, reading)
    }

    /// Moves the expiry of a claim's timer past the reading by whole intervals (`hrtimer_forward`). It doesn't arm it.
    pub fn forward<R: Wait>(
        &self,
        rt: &R,
        pass: &mut Pass,
        claim: &Claim,
        reading: Reading,
        interval: u64,
    ) -> ForwardAnswer
        requires pass { IsPassOf self.now pass.old }
        requires claim { OwnsClaim self.now.about pass.old.known claim.now }
        ensures pass { IsPassOf self.now pass.new }
        ensures forwards { Forwards self.now.about pass.old.known pass.new.known claim.now reading interval result }
        ensures locks { LocksGoOn pass.old pass.new }
    {
        self.forward_logged(rt, pass, &mut Unlogged, claim, reading, interval)
    }

    /// Ends the run of a claim's function. `restart` is what the function answered.
    pub fn finish<R: Wait>(&self, rt: &R, pass: &mut Pass, claim: Claim, restart: bool) -> Finished
        requires pass { IsPassOf self.now pass.old }
        requires claim { OwnsClaim self.now.about pass.old.known claim }
        ensures pass { IsPassOf self.now pass.new }
        ensures finishes { Finishes self.now.about pass.old.known pass.new.known claim restart result }
        ensures locks { LocksGoOn pass.old pass.new }
    {
        self.finish_logged(rt, pass, &mut Unlogged, claim, restart)
    }

    /// The state word of a timer, taken apart: one load, also while another pass holds the timer's base.
    pub fn peek(&self, pass: &mut Pass, timer: u32) -> Peek
        requires pass { IsPassOf self.now pass.old }
        requires timer { timer < length self.now.about.timers }
        ensures pass { IsPassOf self.now pass.new }
        ensures peeks { Peeks self.now.about pass.old.known pass.new.known timer result }
        ensures locks { KeepsLocks pass.old pass.new }
    {
        let word = self.row.load_word(&mut pass.inner, timer);
        self.check(pass);
        word
    }

    /// Makes one more pass, which has seen as much. The pass that it is split off answers for it.
    pub fn split(&self, pass: &mut Pass) -> Pass
        requires pass { IsPassOf self.now pass.old }
        ensures pass { IsPassOf self.now pass.new × IsPassOf self.now result }
        ensures splitter { pass.new.known ≡ splitter_known pass.old.known }
        ensures new { result.known ≡ child_known pass.old.known }
        // The new pass has taken no lock, and knows the same of each.
        ensures locks { KeepsLocks pass.old pass.new }
        ensures new_locks { (result.takes ≡ []) × (result.met ≡ pass.old.met) }
    {
        let inner = self.row.split(&mut pass.inner);
        let new = Pass { inner };
        self.check(pass);
        self.check(&new);
        new
    }

    /// Two passes tell each other what they have seen.
    pub fn meet(&self, a: &mut Pass, b: &mut Pass)
        requires pass { IsPassOf self.now a.old × IsPassOf self.now b.old }
        ensures pass { IsPassOf self.now a.new × IsPassOf self.now b.new }
        ensures meets { MeetWith a.old.known b.old.known a.new.known b.new.known }
        // The takes of each stay its own, and each knows the newest that both knew of each lock.
        ensures takes { (a.new.takes ≡ a.old.takes) × (b.new.takes ≡ b.old.takes) }
        ensures met { (b.new.met ≡ greater b.old.met a.old.met) × (a.new.met ≡ greater a.old.met b.new.met) }
    {
        self.row.meet(&mut a.inner, &mut b.inner);
        self.check(a);
        self.check(b);
    }

    /// A pass takes in another, which was split off it, or off one that it took in.
    pub fn retire(&self, main: &mut Pass, other: Pass)
        requires pass { IsPassOf self.now main.old × IsPassOf self.now other }
        requires answers { AnswersFor main.old.known.id other.known.id }
        ensures pass { IsPassOf self.now main.new }
        ensures retires { TakesIn main.old.known other.known main.new.known }
        ensures locks { (main.new.takes ≡ main.old.takes ++ other.takes) × (main.new.met ≡ greater main.old.met other.met) }
    {
        let Pass { inner } = other;
        self.row.retire(&mut main.inner, inner);
        self.check(main);
    }

    /// Ends the timers with their last pass, which has no claims. It has each place of each timer, and of each base.
    pub fn close(self, pass: Pass)
        requires pass { IsPassOf self pass }
        requires last { IsLast pass.known.id }
        requires unclaimed { pass.known.claims ≡ [] }
        ensures whole { HasEachPlace self.about pass.known }
        ensures shifts { HasEachShift self.about pass.known }
    {
        let Timers { row, first_ring: _ } = self;
        let Pass { inner } = pass;
        row.close(inner);
    }

    /// The bases on which these timers stand, for the passes that `lend` gives.
    pub fn base_row(&self) -> &BaseRow
        ensures { result.now ≡ self.now }
    {
        &self.row
    }

    /// A pass of these timers' table knows what is true.
    pub(crate) fn check(&self, pass: &Pass)
        requires row { pass.now.row ≡ self.now.id }
        requires opening { pass.now.opening ≡ self.now.about }
        ensures { IsPassOf self.now pass.now }
    {
        self.row.fresh();
        pass.inner.known();
    }

    /// There are at most 64 bases.
    pub(crate) fn small(&self)
        ensures { self.now.about.bases ≤ 64 }
    {
        let _row = &self.row;
    }
}
