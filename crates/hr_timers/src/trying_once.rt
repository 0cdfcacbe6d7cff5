//! Claiming, forwarding and finishing at one try at a base's lock, and the first timer of a queue.
ghost use Rattle.std.specs.Prelude.{◌≡◌, ◌<◌, ◌≤◌, ◌^◌, ◌-◌, length, slice_index, None, Some, IfNone, IfSome, MatchOption};
ghost use Rattle.pass_names.specs.Names.{IsLast};
ghost use Rattle.base_row.specs.Calls.{known_of, timer_seen};
ghost use Rattle.hr_timers.specs.Calls.{ClaimFits, Finishes, Forwards};
ghost use Rattle.hr_timers.specs.Known.{HoldsTimer, IsAtRest, LocksGoOnIn, OnlySeesMore, OwnsClaim, pass_of};
ghost use Rattle.hr_timers.specs.Once.{IsContended, NextFits};
ghost use Rattle.hr_timers.specs.declared.once_answer.NextAnswer.TheVariants as nexts;

use crate::answer::ClaimAnswer;
use crate::claiming::{claim_on, finish_held, forward_held};
use crate::numbers::ClaimNumbers;
use crate::once_answer::NextAnswer;
use crate::once_lock::lock_once;
use crate::under_lock::leave_base;
use base_row::{BaseRow, HeldBase, Pass, Unlogged};
use ktime::{ClockId, Reading};
use seq_timer::{Context, Finished, ForwardAnswer};

/// Claims the timer of a context that is the next to expire on a base. It answers `None`, and has done nothing, where it didn't get the base's lock.
pub fn try_claim(
    row: &BaseRow,
    pass: &mut Pass,
    context: Context,
    base: u32,
    reading: Reading,
) -> Option<ClaimAnswer>
    requires rest { IsAtRest row.now pass.old }
    requires base { base < row.now.about.bases }
    ensures rest { IsAtRest row.now pass.new }
    ensures claims { MatchOption result (IsContended (pass_of pass.old) (pass_of pass.new) base)
        (λ a. ClaimFits row.now.about (known_of pass.old.knows) (known_of pass.new.knows) context base reading a) }
    ensures alone { IsLast pass.old.knows.id → result ≡ None → 2 ^ 64 - 2 ≤ slice_index pass.new.knows.met base }
    ensures locks { LocksGoOnIn pass.old.knows pass.new.knows }
{
    let held = lock_once(row, pass, base)?;
    let answer = claim_on(row, pass, &mut Unlogged, held, context, base, reading);
    Some(answer)
}

/// Locks the base of a claim, if it is free. The claim's timer is there and runs.
fn hold_claim_once(row: &BaseRow, pass: &mut Pass, claim: ClaimNumbers) -> Option<HeldBase>
    requires rest { IsAtRest row.now pass.old }
    requires claim { OwnsClaim row.now.about (known_of pass.old.knows) claim }
    ensures holds { MatchOption result (IsAtRest row.now pass.new) (λ h. HoldsTimer row.now pass.new h claim.timer) }
    ensures base { IfSome result (λ h. h.base ≡ claim.base) }
    ensures runs { IfSome result (λ h. (timer_seen row.now.about pass.new.knows claim.timer).running ≡ Some claim.generation) }
    ensures looks { OnlySeesMore pass.old.knows pass.new.knows }
    ensures missed { IfNone result (IsContended (pass_of pass.old) (pass_of pass.new) claim.base) }
    ensures last { IfNone result (IsLast pass.old.knows.id → 2 ^ 64 - 2 ≤ slice_index pass.new.knows.met claim.base) }
{
    row.fresh();
    pass.known();
    let held = lock_once(row, pass, claim.base)?;
    pass.known();
    Some(held)
}

/// Ends the run of a claim's function. It answers `None`, and has done nothing, where it didn't get the base's lock.
pub fn try_finish(
    row: &BaseRow,
    pass: &mut Pass,
    claim: ClaimNumbers,
    restart: bool,
) -> Option<Finished>
    requires rest { IsAtRest row.now pass.old }
    requires claim { OwnsClaim row.now.about (known_of pass.old.knows) claim }
    ensures rest { IsAtRest row.now pass.new }
    ensures finishes { MatchOption result (IsContended (pass_of pass.old) (pass_of pass.new) claim.base)
        (λ a. Finishes row.now.about (known_of pass.old.knows) (known_of pass.new.knows) claim restart a) }
    ensures alone { IsLast pass.old.knows.id → result ≡ None → 2 ^ 64 - 2 ≤ slice_index pass.new.knows.met claim.base }
    ensures locks { LocksGoOnIn pass.old.knows pass.new.knows }
{
    let held = hold_claim_once(row, pass, claim)?;
    let answer = finish_held(row, pass, &mut Unlogged, held, claim, restart);
    Some(answer)
}

/// Moves the expiry of a claim's timer. It answers `None`, and has done nothing, where it didn't get the base's lock.
pub fn try_forward(
    row: &BaseRow,
    pass: &mut Pass,
    claim: ClaimNumbers,
    reading: Reading,
    interval: u64,
) -> Option<ForwardAnswer>
    requires rest { IsAtRest row.now pass.old }
    requires claim { OwnsClaim row.now.about (known_of pass.old.knows) claim }
    ensures rest { IsAtRest row.now pass.new }
    ensures forwards { MatchOption result (IsContended (pass_of pass.old) (pass_of pass.new) claim.base)
        (λ a. Forwards row.now.about (known_of pass.old.knows) (known_of pass.new.knows) claim reading interval a) }
    ensures alone { IsLast pass.old.knows.id → result ≡ None → 2 ^ 64 - 2 ≤ slice_index pass.new.knows.met claim.base }
    ensures locks { LocksGoOnIn pass.old.knows pass.new.knows }
{
    let held = hold_claim_once(row, pass, claim)?;
    let answer = forward_held(row, pass, &mut Unlogged, held, claim, reading, interval);
    Some(answer)
}

/// The first timer of a context's queue for a clock on a base, due or not.
pub fn try_next(
    row: &BaseRow,
    pass: &mut Pass,
    context: Context,
    base: u32,
    clock: ClockId,
) -> NextAnswer
    requires rest { IsAtRest row.now pass.old }
    requires base { base < row.now.about.bases }
    ensures rest { IsAtRest row.now pass.new }
    ensures next { NextFits row.now.about (pass_of pass.old) (pass_of pass.new) context base clock result }
    ensures alone { IsLast pass.old.knows.id → result ≡ nexts.Contended → 2 ^ 64 - 2 ≤ slice_index pass.new.knows.met base }
    ensures locks { LocksGoOnIn pass.old.knows pass.new.knows }
{
    let Some(held) = lock_once(row, pass, base) else {
        return NextAnswer::Contended;
    };
    let front = held.front_on(context, clock);
    leave_base(row, pass, held, base);
    row.fresh();
    pass.known();
    match front {
        Some((expires, timer)) => NextAnswer::First { timer, expires },
        None => NextAnswer::NoneArmed,
    }
}
