//! One try at a base's lock, and what is told when the base is let go.
ghost use Rattle.std.specs.Prelude.{◌≡◌, ◌<◌, ◌≤◌, ◌-◌, ◌^◌, ℕ, length, slice_index, None, Some, Err, IfNone, IfSome, MatchBool, MatchResult};
ghost use Rattle.pass_names.specs.Names.{IsLast};
ghost use Rattle.seq_timer.specs.Systems.{entries_of};
ghost use Rattle.base_row.specs.Calls.{IsBasePassOf, timer_seen};
ghost use Rattle.base_row.specs.Plays.{Steady};
ghost use Rattle.hr_timers.specs.Known.{HoldsBase, HoldsTimer, IsAtRest, OnlySeesMore, pass_of};
ghost use Rattle.hr_timers.specs.Once.{HeldMissFits, IsContended, LeadsQueueIn, MissFits, SaysFirst};
ghost use Rattle.hr_timers.specs.declared.once_answer.Miss.TheVariants as misses;

use crate::once_answer::Miss;
use crate::under_lock::{leave, state_of, unlock_base};
use base_row::{BaseRow, HeldBase, Pass};
use seq_timer::TimerState;

/// Takes a base's lock, if it is free.
pub fn lock_once(row: &BaseRow, pass: &mut Pass, base: u32) -> Option<HeldBase>
    requires row { IsBasePassOf row.now pass.old }
    requires within { base < row.now.about.bases }
    requires idle { pass.old.knows.held ≡ None }
    ensures row { IsBasePassOf row.now pass.new }
    ensures at { IfSome result (λ h. h.base ≡ base) }
    ensures held { pass.new.knows.held ≡ result }
    ensures looks { OnlySeesMore pass.old.knows pass.new.knows }
    ensures steady { Steady pass.old.knows pass.new.knows }
    ensures missed { IfNone result (IsContended (pass_of pass.old) (pass_of pass.new) base) }
    ensures last { IfNone result (IsLast pass.old.knows.id → 2 ^ 64 - 2 ≤ slice_index pass.new.knows.met base) }
{
    row.try_lock_base(pass, base)
}

/// One try at the lock of the base that the timer's word names.
pub fn hold_once(row: &BaseRow, pass: &mut Pass, timer: u32) -> Result<HeldBase, Miss>
    requires rest { IsAtRest row.now pass.old }
    requires timer { timer < length row.now.about.timers }
    ensures holds { MatchResult result (λ h. HoldsTimer row.now pass.new h timer)
        (λ m. IsAtRest row.now pass.new × MissFits row.now.about (pass_of pass.old) (pass_of pass.new) timer m) }
    ensures looks { OnlySeesMore pass.old.knows pass.new.knows }
    ensures last { IsLast pass.old.knows.id → (b : ℕ) → result ≡ Err (misses.Contended b) → 2 ^ 64 - 2 ≤ slice_index pass.new.knows.met b }
{
    let word = row.load_word(pass, timer);
    if word.moving {
        return Err(Miss::Moving { base: word.base });
    }
    let Some(held) = lock_once(row, pass, word.base) else {
        return Err(Miss::Contended { base: word.base });
    };
    hold_named(row, pass, held, timer, word.base)
}

/// The same under the lock of the base that the timer's word has named. Where the timer isn't there the base is let go.
fn hold_named(
    row: &BaseRow,
    pass: &mut Pass,
    held: HeldBase,
    timer: u32,
    base: u32,
) -> Result<HeldBase, Miss>
    requires holds { HoldsBase row.now pass.old held }
    requires timer { timer < length row.now.about.timers }
    requires base { held.base ≡ base }
    ensures holds { MatchResult result (λ h. HoldsTimer row.now pass.new h timer)
        (λ m. IsAtRest row.now pass.new × HeldMissFits row.now.about (pass_of pass.old) (pass_of pass.new) timer base m) }
    ensures looks { OnlySeesMore pass.old.knows pass.new.knows }
{
    let word = row.load_word(pass, timer);
    if word.base != base {
        leave(row, pass, held, timer);
        return Err(Miss::Moved {
            from: base,
            to: word.base,
        });
    }
    if word.moving {
        leave(row, pass, held, timer);
        return Err(Miss::Moving { base });
    }
    Ok(held)
}

/// Whether a timer that is in this state is the first of its queue on a held base.
fn is_first(held: &HeldBase, state: &TimerState, timer: u32) -> bool
    ensures { MatchBool result (LeadsQueueIn held.now.content.content state.now timer) (LeadsQueueIn held.now.content.content state.now timer → ⊥) }
{
    match held.front_on(state.declared().context, state.clock()) {
        Some((_, first)) => first == timer,
        None => false,
    }
}

/// Lets a base go, and tells whether a timer of it is the first of its queue.
pub fn leave_first(row: &BaseRow, pass: &mut Pass, held: HeldBase, timer: u32) -> bool
    requires holds { HoldsTimer row.now pass.old held timer }
    ensures rest { IsAtRest row.now pass.new }
    ensures looks { OnlySeesMore pass.old.knows pass.new.knows }
    ensures own { entries_of timer pass.new.knows.seen ≡ entries_of timer pass.old.knows.seen }
    ensures first { SaysFirst row.now.about pass.new.knows.seen timer result }
{
    let first = is_first(&held, state_of(row, pass, &held, timer), timer);
    unlock_base(row, pass, held);
    first
}
