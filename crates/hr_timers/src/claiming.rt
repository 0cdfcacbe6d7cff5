//! Claiming the next timer of a base, and what its function may do.
ghost use Rattle.std.specs.Prelude.{◌≡◌, ◌<◌, ◌≤◌, ◌+◌, ℕ, length, Some, None, IsSome, false};
ghost use Rattle.seq_timer.specs.Tables.{IsNextDue, in_context, runs_on};
ghost use Rattle.seq_timer.specs.Contents.{running_in};
ghost use Rattle.seq_timer.specs.Systems.{next_on};
ghost use Rattle.base_row.specs.Calls.{base_seen, known_of, timer_seen};
ghost use Rattle.hr_timers.specs.Known.{HoldsBase, HoldsTimer, IsAtRest, LocksGoOnIn, OnlySeesMore, OwnsClaim};
ghost use Rattle.hr_timers.specs.declared.answer.ClaimAnswer.TheVariants as claimings;
ghost use Rattle.hr_timers.specs.Logged.{ClaimsLogged, FinishesLogged, ForwardsLogged};

use crate::answer::ClaimAnswer;
use crate::numbers::ClaimNumbers;
use crate::tokens::Claim;
use crate::under_lock::{enter_once, leave, leave_base, lock, state_of};
use base_row::{BaseRow, HeldBase, Pass, ReceiptSink};
use ktime::Reading;
use seq_timer::{Context, Event, Finished, ForwardAnswer, Rearmed, Reply, TimerState};
use std::sync::Wait;

/// Claims the timer of a context that is the next to expire on a base: its function is to run (`__run_hrtimer`).
pub fn claim_next<R: Wait, S: ReceiptSink>(
    rt: &R,
    row: &BaseRow,
    pass: &mut Pass,
    sink: &mut S,
    context: Context,
    base: u32,
    reading: Reading,
) -> ClaimAnswer
    requires rest { IsAtRest row.now pass.old }
    requires base { base < row.now.about.bases }
    requires room { 0 < S.room sink.old }
    ensures rest { IsAtRest row.now pass.new }
    ensures claims { ClaimsLogged S.pushed row.now.about (known_of pass.old.knows) (known_of pass.new.knows) context base reading result sink.old sink.new }
    ensures locks { LocksGoOnIn pass.old.knows pass.new.knows }
    ensures room { S.room sink.old ≤ S.room sink.new + 1 }
{
    let held = lock(rt, row, pass, base);
    claim_on(row, pass, sink, held, context, base, reading)
}

/// The same on the held base, which is let go.
pub fn claim_on<S: ReceiptSink>(
    row: &BaseRow,
    pass: &mut Pass,
    sink: &mut S,
    held: HeldBase,
    context: Context,
    base: u32,
    reading: Reading,
) -> ClaimAnswer
    requires holds { HoldsBase row.now pass.old held }
    requires base { held.base ≡ base }
    requires room { 0 < S.room sink.old }
    ensures rest { IsAtRest row.now pass.new }
    ensures claims { ClaimsLogged S.pushed row.now.about (known_of pass.old.knows) (known_of pass.new.knows) context base reading result sink.old sink.new }
    ensures locks { LocksGoOnIn pass.old.knows pass.new.knows }
    ensures room { S.room sink.old ≤ S.room sink.new + 1 }
{
    if let Some((timer, generation)) = row.running(pass, &held, context) {
        leave_base(row, pass, held, base);
        return ClaimAnswer::BaseBusy { timer, generation };
    }
    let Some((_, timer)) = row.first(pass, &held, context, reading) else {
        leave_base(row, pass, held, base);
        return ClaimAnswer::NoneDue;
    };
    let numbers = claim_held(row, pass, sink, held, context, base, timer, reading);
    ClaimAnswer::Claimed(Claim { numbers })
}

/// Claims a timer that is the next to expire on a held base, and lets the base go.
fn claim_held<S: ReceiptSink>(
    row: &BaseRow,
    pass: &mut Pass,
    sink: &mut S,
    held: HeldBase,
    context: Context,
    base: u32,
    timer: u32,
    reading: Reading,
) -> ClaimNumbers
    requires holds { HoldsBase row.now pass.old held }
    requires timer { timer < length row.now.about.timers }
    requires base { held.base ≡ base }
    requires unmarked { running_in context held.content.content ≡ None }
    requires context { (timer_seen row.now.about pass.old.knows timer).declared.context ≡ context }
    requires idle { (t : ℕ) → runs_on held.base (in_context context (timer_seen row.now.about pass.old.knows) t) ≡ false }
    requires next { IsNextDue (in_context context (timer_seen row.now.about pass.old.knows)) held.base reading timer }
    requires first { next_on context (base_seen row.now.about pass.old.knows base) reading ≡ Some ((timer_seen row.now.about pass.old.knows timer).expires, timer) }
    requires room { 0 < S.room sink.old }
    ensures rest { IsAtRest row.now pass.new }
    ensures timer { result.timer ≡ timer }
    ensures claimed { ClaimsLogged S.pushed row.now.about (known_of pass.old.knows) (known_of pass.new.knows) context base reading (claimings.Claimed result) sink.old sink.new }
    ensures locks { LocksGoOnIn pass.old.knows pass.new.knows }
    ensures room { S.room sink.old ≤ S.room sink.new + 1 }
{
    row.fresh();
    pass.known();
    let (generation, number) = numbers(row.state(pass, &held, timer));
    let event = Event::Claim { base, reading };
    enter_once(row, pass, sink, held, timer, &event);
    ClaimNumbers {
        timer,
        generation,
        base,
        number,
    }
}

/// The generation that is armed, and the number of the next entry.
fn numbers(state: &TimerState) -> (u64, u64)
    requires armed { IsSome state.now.armed }
    ensures armed { state.now.armed ≡ Some result.0 }
    ensures number { result.1 ≡ state.now.stamp + 1 }
{
    state.bounded();
    match state.armed() {
        Some(generation) => (generation, state.stamp() + 1),
        None => unreachable!(),
    }
}

/// Locks the base of a claim. The claim's timer is there and runs.
fn hold_claimed<R: Wait>(rt: &R, row: &BaseRow, pass: &mut Pass, claim: ClaimNumbers) -> HeldBase
    requires rest { IsAtRest row.now pass.old }
    requires claim { OwnsClaim row.now.about (known_of pass.old.knows) claim }
    ensures holds { HoldsTimer row.now pass.new result claim.timer }
    ensures base { result.base ≡ claim.base }
    ensures runs { (timer_seen row.now.about pass.new.knows claim.timer).running ≡ Some claim.generation }
    ensures looks { OnlySeesMore pass.old.knows pass.new.knows }
{
    row.fresh();
    pass.known();
    let held = lock(rt, row, pass, claim.base);
    pass.known();
    held
}

/// Ends the run of a claim's function. `restart` is what the function answered.
pub fn finish<R: Wait, S: ReceiptSink>(
    rt: &R,
    row: &BaseRow,
    pass: &mut Pass,
    sink: &mut S,
    claim: ClaimNumbers,
    restart: bool,
) -> Finished
    requires rest { IsAtRest row.now pass.old }
    requires claim { OwnsClaim row.now.about (known_of pass.old.knows) claim }
    requires room { 0 < S.room sink.old }
    ensures rest { IsAtRest row.now pass.new }
    ensures finishes { FinishesLogged S.pushed row.now.about (known_of pass.old.knows) (known_of pass.new.knows) claim restart result sink.old sink.new }
    ensures locks { LocksGoOnIn pass.old.knows pass.new.knows }
    ensures room { S.room sink.old ≤ S.room sink.new + 1 }
{
    let held = hold_claimed(rt, row, pass, claim);
    finish_held(row, pass, sink, held, claim, restart)
}

/// The same on the held base, which is let go.
pub fn finish_held<S: ReceiptSink>(
    row: &BaseRow,
    pass: &mut Pass,
    sink: &mut S,
    held: HeldBase,
    claim: ClaimNumbers,
    restart: bool,
) -> Finished
    requires claim { OwnsClaim row.now.about (known_of pass.old.knows) claim }
    requires holds { HoldsTimer row.now pass.old held claim.timer }
    requires base { held.base ≡ claim.base }
    requires runs { (timer_seen row.now.about pass.old.knows claim.timer).running ≡ Some claim.generation }
    requires room { 0 < S.room sink.old }
    ensures rest { IsAtRest row.now pass.new }
    ensures finishes { FinishesLogged S.pushed row.now.about (known_of pass.old.knows) (known_of pass.new.knows) claim restart result sink.old sink.new }
    ensures locks { LocksGoOnIn pass.old.knows pass.new.knows }
    ensures room { S.room sink.old ≤ S.room sink.new + 1 }
{
    let state = state_of(row, pass, &held, claim.timer);
    state.bounded();
    let stamp = state.stamp();
    let event = Event::Finish { restart };
    match enter_once(row, pass, sink, held, claim.timer, &event) {
        Reply::Finish { restarted, .. } => Finished {
            number: stamp + 1,
            rearmed: Rearmed::at(stamp, restarted),
        },
        _ => unreachable!(),
    }
}

/// Moves the expiry of a claim's timer past the reading by whole intervals (`hrtimer_forward`). It doesn't arm it.
pub fn forward<R: Wait, S: ReceiptSink>(
    rt: &R,
    row: &BaseRow,
    pass: &mut Pass,
    sink: &mut S,
    claim: ClaimNumbers,
    reading: Reading,
    interval: u64,
) -> ForwardAnswer
    requires rest { IsAtRest row.now pass.old }
    requires claim { OwnsClaim row.now.about (known_of pass.old.knows) claim }
    requires room { 0 < S.room sink.old }
    ensures rest { IsAtRest row.now pass.new }
    ensures forwards { ForwardsLogged S.pushed row.now.about (known_of pass.old.knows) (known_of pass.new.knows) claim reading interval result sink.old sink.new }
    ensures locks { LocksGoOnIn pass.old.knows pass.new.knows }
    ensures room { S.room sink.old ≤ S.room sink.new + 1 }
{
    let held = hold_claimed(rt, row, pass, claim);
    forward_held(row, pass, sink, held, claim, reading, interval)
}

/// The same on the held base, which is let go.
pub fn forward_held<S: ReceiptSink>(
    row: &BaseRow,
    pass: &mut Pass,
    sink: &mut S,
    held: HeldBase,
    claim: ClaimNumbers,
    reading: Reading,
    interval: u64,
) -> ForwardAnswer
    requires claim { OwnsClaim row.now.about (known_of pass.old.knows) claim }
    requires holds { HoldsTimer row.now pass.old held claim.timer }
    requires base { held.base ≡ claim.base }
    requires runs { (timer_seen row.now.about pass.old.knows claim.timer).running ≡ Some claim.generation }
    requires room { 0 < S.room sink.old }
    ensures rest { IsAtRest row.now pass.new }
    ensures forwards { ForwardsLogged S.pushed row.now.about (known_of pass.old.knows) (known_of pass.new.knows) claim reading interval result sink.old sink.new }
    ensures locks { LocksGoOnIn pass.old.knows pass.new.knows }
    ensures room { S.room sink.old ≤ S.room sink.new + 1 }
{
    let state = state_of(row, pass, &held, claim.timer);
    let stamp = state.stamp();
    if stamp >= state.limit() {
        leave(row, pass, held, claim.timer);
        return ForwardAnswer::Spent { stamp };
    }
    if let Some(generation) = state.armed() {
        leave(row, pass, held, claim.timer);
        return ForwardAnswer::Armed { generation, stamp };
    }
    state.bounded();
    let number = stamp + 1;
    let event = Event::Forward { reading, interval };
    match enter_once(row, pass, sink, held, claim.timer, &event) {
        Reply::Forward { moved } => ForwardAnswer::Forwarded { number, moved },
        _ => unreachable!(),
    }
}
