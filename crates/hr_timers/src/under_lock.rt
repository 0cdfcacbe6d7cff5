//! Steps under a base's lock.
ghost use Rattle.std.specs.Prelude.{◌≡◌, ◌<◌, ◌≤◌, ◌+◌, ℕ, length, Some, None, [], ◌∷◌, false, IfNone, IfSome, MatchBool, MatchOption};
ghost use Rattle.ktime.specs.Readings.{ClockReading};
ghost use Rattle.ktime.specs.declared.clock_id.ClockId.{ClockId};
ghost use Rattle.seq_timer.specs.declared.context.Context.{Context};
ghost use Rattle.seq_timer.specs.Tables.{IsStopped, in_context, runs_on};
ghost use Rattle.seq_timer.specs.Halves.{running_on};
ghost use Rattle.seq_timer.specs.Contents.{running_in};
ghost use Rattle.seq_timer.specs.Steps.{after, reply_to};
ghost use Rattle.seq_timer.specs.Systems.{IsOn, entries_of, next_on};
ghost use Rattle.base_row.specs.Plays.{Steady, claims_with_event};
ghost use Rattle.base_row.specs.Calls.{base_seen, IsBasePassOf, LetsGo, MayAppend, MissesBase, known_of, timer_seen};
ghost use Rattle.hr_timers.specs.Known.{AddsBehind, HoldsBase, HoldsTimer, IsAtRest, LocksGoOnIn, OnlySeesMore, pass_of};
ghost use Rattle.hr_timers.specs.Calls.{SawMove, entry_by};
ghost use Rattle.hr_timers.specs.Logged.{IsLogged};
ghost use Rattle.hr_timers.specs.Tries.{HasMissedIts};
ghost use Rattle.hr_timers.specs.Moves.{KeepsBases};

use base_row::{BaseRow, HeldBase, Pass, ReceiptSink};
use pass_names::Retries;
use seq_timer::{Event, Reply, TimerState};
use std::sync::Wait;

/// Takes a base's lock, once it is free.
pub fn lock<R: Wait>(rt: &R, row: &BaseRow, pass: &mut Pass, base: u32) -> HeldBase
    requires row { IsBasePassOf row.now pass.old }
    requires within { base < row.now.about.bases }
    requires idle { pass.old.knows.held ≡ None }
    ensures row { IsBasePassOf row.now pass.new }
    ensures at { result.base ≡ base }
    ensures held { pass.new.knows.held ≡ Some result }
    ensures looks { OnlySeesMore pass.old.knows pass.new.knows }
    ensures steady { Steady pass.old.knows pass.new.knows }
    ensures once { length pass.new.knows.takes ≡ length pass.old.knows.takes + 1 }
{
    row.lock_base(rt, pass, base)
}

/// Takes a base's lock, if it is free.
fn try_lock(row: &BaseRow, pass: &mut Pass, base: u32) -> Option<HeldBase>
    requires row { IsBasePassOf row.now pass.old }
    requires within { base < row.now.about.bases }
    requires idle { pass.old.knows.held ≡ None }
    ensures row { IsBasePassOf row.now pass.new }
    ensures at { IfSome result (λ h. h.base ≡ base) }
    ensures held { pass.new.knows.held ≡ result }
    ensures looks { OnlySeesMore pass.old.knows pass.new.knows }
    ensures why { IfNone result (MissesBase base pass.old.knows pass.new.knows) }
{
    row.try_lock_base(pass, base)
}

/// The state of a timer that is on a held base.
pub fn state_of<'a>(row: &BaseRow, pass: &Pass, held: &'a HeldBase, timer: u32) -> &'a TimerState
    requires holds { HoldsTimer row.now pass.now held.now timer }
    ensures { result.now ≡ timer_seen row.now.about pass.now.knows timer }
{
    row.state(pass, held, timer)
}

/// Takes the lock of the base where a timer is, once the timer isn't on the move. It waits only where one try at the lock didn't get it.
#[inline(always)]
pub fn lock_timer<R: Wait>(rt: &R, row: &BaseRow, pass: &mut Pass, timer: u32) -> HeldBase
    requires rest { IsAtRest row.now pass.old }
    requires timer { timer < length row.now.about.timers }
    ensures holds { HoldsTimer row.now pass.new result timer }
    ensures looks { OnlySeesMore pass.old.knows pass.new.knows }
{
    if let Some(held) = try_lock_timer(row, pass, timer) {
        return held;
    }
    wait_for_timer(rt, row, pass, timer)
}

/// One try at the lock of the base that the timer's word names. It waits for nobody. It answers `None` only where the timer was seen on the move, or on one
/// base and then on another, or where another pass took the base in between.
#[inline(always)]
fn try_lock_timer(row: &BaseRow, pass: &mut Pass, timer: u32) -> Option<HeldBase>
    requires rest { IsAtRest row.now pass.old }
    requires timer { timer < length row.now.about.timers }
    ensures holds { MatchOption result (IsAtRest row.now pass.new) (λ h. HoldsTimer row.now pass.new h timer) }
    ensures looks { OnlySeesMore pass.old.knows pass.new.knows }
    ensures why { IfNone result (HasMissedIts row.now.about (pass_of pass.old) (pass_of pass.new) timer) }
{
    let word = row.load_word(pass, timer);
    if word.moving {
        return None;
    }
    let held = try_lock(row, pass, word.base)?;
    if !is_on(row.state(pass, &held, timer), word.base) {
        leave(row, pass, held, timer);
        return None;
    }
    Some(held)
}

/// Tries until it has the lock of the base where a timer is.
#[inline(never)]
fn wait_for_timer<R: Wait>(rt: &R, row: &BaseRow, pass: &mut Pass, timer: u32) -> HeldBase
    requires rest { IsAtRest row.now pass.old }
    requires timer { timer < length row.now.about.timers }
    ensures holds { HoldsTimer row.now pass.new result timer }
    ensures looks { OnlySeesMore pass.old.knows pass.new.knows }
{
    for _ in Retries::new(rt) {
        if let Some(held) = lock_named(rt, row, pass, timer) {
            return held;
        }
    }
    unreachable!()
}

/// One try, on the base that the timer's word names. It answers `None` only where the timer was seen on the move, or on one base and then on another.
fn lock_named<R: Wait>(rt: &R, row: &BaseRow, pass: &mut Pass, timer: u32) -> Option<HeldBase>
    requires rest { IsAtRest row.now pass.old }
    requires timer { timer < length row.now.about.timers }
    ensures holds { MatchOption result (IsAtRest row.now pass.new) (λ h. HoldsTimer row.now pass.new h timer) }
    ensures looks { OnlySeesMore pass.old.knows pass.new.knows }
    ensures why { IfNone result (SawMove row.now.about (known_of pass.old.knows) (known_of pass.new.knows) timer) }
{
    let word = row.load_word(pass, timer);
    if word.moving {
        return None;
    }
    let held = lock(rt, row, pass, word.base);
    if !is_on(row.state(pass, &held, timer), word.base) {
        leave(row, pass, held, timer);
        return None;
    }
    Some(held)
}

/// Whether a timer is on a base, and not on the move.
fn is_on(state: &TimerState, base: u32) -> bool
    ensures { MatchBool result (IsOn base state.now) (IsOn base state.now → ⊥) }
{
    if state.base() != base {
        return false;
    }
    !state.is_moving()
}

/// Adds an entry of a timer that stays on a held base, with its receipt, and lets the base go.
#[inline(always)]
pub fn enter_once<S: ReceiptSink>(
    row: &BaseRow,
    pass: &mut Pass,
    sink: &mut S,
    held: HeldBase,
    timer: u32,
    event: &Event,
) -> Reply
    requires holds { HoldsTimer row.now pass.old held timer }
    requires room { 0 < S.room sink.old }
    requires may { MayAppend row.now.about pass.old.knows held timer event.now }
    requires stays { IsOn held.base (after (timer_seen row.now.about pass.old.knows timer) event.now) }
    ensures rest { IsAtRest row.now pass.new }
    ensures claims { pass.new.knows.claims ≡ claims_with_event timer (timer_seen row.now.about pass.old.knows timer) event.now pass.old.knows.claims }
    ensures reply { result ≡ reply_to (timer_seen row.now.about pass.old.knows timer) event.now }
    ensures adds { AddsBehind pass.old.knows pass.new.knows timer (entry_by (timer_seen row.now.about pass.old.knows timer) event.now ∷ []) }
    ensures locks { LocksGoOnIn pass.old.knows pass.new.knows }
    ensures logged { IsLogged S.pushed row.now.about timer pass.old.knows.seen (entry_by (timer_seen row.now.about pass.old.knows timer) event.now ∷ []) sink.old sink.new }
    ensures room { S.room sink.old ≤ S.room sink.new + 1 }
{
    row.fresh();
    let mut held = held;
    let reply = row.append_logged(pass, sink, &mut held, timer, event);
    unlock_base(row, pass, held);
    reply
}

/// Lets a base go.
pub fn unlock_base(row: &BaseRow, pass: &mut Pass, held: HeldBase)
    requires row { IsBasePassOf row.now pass.old }
    requires within { held.base < row.now.about.bases }
    requires held { pass.old.knows.held ≡ Some held }
    ensures row { IsBasePassOf row.now pass.new }
    ensures free { LetsGo row.now.about held pass.old.knows pass.new.knows }
    ensures locks { LocksGoOnIn pass.old.knows pass.new.knows }
{
    pass.known();
    row.unlock_base(pass, held);
}

/// Lets a base go, of which one timer was looked at.
pub fn leave(row: &BaseRow, pass: &mut Pass, held: HeldBase, timer: u32)
    requires holds { HoldsBase row.now pass.old held }
    requires timer { timer < length row.now.about.timers }
    ensures rest { IsAtRest row.now pass.new }
    ensures looks { OnlySeesMore pass.old.knows pass.new.knows }
    ensures own { IsOn held.base (timer_seen row.now.about pass.old.knows timer) → entries_of timer pass.new.knows.seen ≡ entries_of timer pass.old.knows.seen }
{
    unlock_base(row, pass, held);
}

/// Lets a base go. What it has then is what was held.
pub fn leave_base(row: &BaseRow, pass: &mut Pass, held: HeldBase, base: u32)
    requires holds { HoldsBase row.now pass.old held }
    requires base { held.base ≡ base }
    ensures rest { IsAtRest row.now pass.new }
    ensures looks { OnlySeesMore pass.old.knows pass.new.knows }
    ensures keeps { KeepsBases (known_of pass.old.knows) (known_of pass.new.knows) }
    ensures own { (t : ℕ) → t < length row.now.about.timers → IsOn base (timer_seen row.now.about pass.old.knows t)
        → timer_seen row.now.about pass.new.knows t ≡ timer_seen row.now.about pass.old.knows t }
    ensures idle { (x : Context) → running_in x held.content.content ≡ None → (t : ℕ) → runs_on base (in_context x (timer_seen row.now.about pass.new.knows) t) ≡ false }
    ensures busy { (x : Context) (t g : ℕ) → running_in x held.content.content ≡ Some (t, g) → running_on base (in_context x (timer_seen row.now.about pass.new.knows) t) ≡ Some g }
    ensures content { base_seen row.now.about pass.new.knows base ≡ held.content }
    ensures none { (x : Context) (reading : ClockReading) → next_on x held.content reading ≡ None
        → (clock : ClockId) → IsStopped (in_context x (timer_seen row.now.about pass.new.knows)) base reading clock }
{
    row.fresh();
    unlock_base(row, pass, held);
    pass.known();
}
