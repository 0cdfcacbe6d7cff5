//! Cancelling a timer: by a wait for its base's lock, or by one try.
ghost use Rattle.std.specs.Prelude.{◌≡◌, ◌≢◌, ◌<◌, ◌≤◌, ◌+◌, ◌^◌, ◌⊎◌, None, length, is_some, IfNone, MatchBool, MatchOption};
ghost use Rattle.seq_timer.specs.Histories.{IsIdle};
ghost use Rattle.seq_timer.specs.Systems.{rises_of};
ghost use Rattle.base_row.specs.Plays.{RisesFrom};
ghost use Rattle.base_row.specs.Calls.{known_of, timer_seen};
ghost use Rattle.hr_timers.specs.Known.{HoldsTimer, IsAtRest, LocksGoOnIn, OnlySeesMore};
ghost use Rattle.seq_timer.specs.declared.answer.CancelAnswer.TheVariants as cancels;
ghost use Rattle.hr_timers.specs.Calls.{Cancels, tells_running};
ghost use Rattle.hr_timers.specs.Logged.{CancelsBehind, CancelsLogged, HadRisenOtherwise};
ghost use Rattle.hr_timers.specs.Tries.{HadRisenWhileStill, WasBusy};

use crate::under_lock::{enter_once, leave, lock_timer, state_of};
use base_row::{BaseRow, HeldBase, Pass, ReceiptSink};
use seq_timer::{CancelAnswer, Event};
use std::sync::Wait;

/// Takes the lock of the timer's base, but where a load shows the timer idle.
pub fn try_to_cancel<R: Wait, S: ReceiptSink>(
    rt: &R,
    row: &BaseRow,
    pass: &mut Pass,
    sink: &mut S,
    timer: u32,
) -> CancelAnswer
    requires rest { IsAtRest row.now pass.old }
    requires timer { timer < length row.now.about.timers }
    requires room { 0 < S.room sink.old }
    ensures rest { IsAtRest row.now pass.new }
    ensures cancels { CancelsLogged S.pushed row.now.about (known_of pass.old.knows) (known_of pass.new.knows) timer result sink.old sink.new }
    ensures idle { (pass.new.knows.takes ≡ pass.old.knows.takes) ⊎ WasBusy row.now.about (known_of pass.old.knows) (known_of pass.new.knows) timer }
    ensures locks { LocksGoOnIn pass.old.knows pass.new.knows }
    ensures room { S.room sink.old ≤ S.room sink.new + 1 }
{
    if let Some(stamp) = look_idle(row, pass, timer) {
        return CancelAnswer::Idle { stamp };
    }
    let held = lock_timer(rt, row, pass, timer);
    cancel_held(row, pass, sink, held, timer)
}

/// Answers the stamp of a timer, if one load tells that it is idle.
fn look_idle(row: &BaseRow, pass: &mut Pass, timer: u32) -> Option<u64>
    requires rest { IsAtRest row.now pass.old }
    requires timer { timer < length row.now.about.timers }
    ensures rest { IsAtRest row.now pass.new }
    ensures cancels { MatchOption result (OnlySeesMore pass.old.knows pass.new.knows) (λ n. Cancels row.now.about (known_of pass.old.knows) (known_of pass.new.knows) timer (cancels.Idle n)) }
    ensures busy { IfNone result (IsIdle (timer_seen row.now.about pass.new.knows timer) → ⊥) }
    ensures takes { pass.new.knows.takes ≡ pass.old.knows.takes }
    ensures locks { LocksGoOnIn pass.old.knows pass.new.knows }
{
    let word = row.load_word(pass, timer);
    if word.enqueued || word.running || word.moving {
        return None;
    }
    Some(word.stamp)
}

/// Disarms a timer of a held base, and lets the base go.
#[inline(always)]
pub fn cancel_held<S: ReceiptSink>(
    row: &BaseRow,
    pass: &mut Pass,
    sink: &mut S,
    held: HeldBase,
    timer: u32,
) -> CancelAnswer
    requires holds { HoldsTimer row.now pass.old held timer }
    requires room { 0 < S.room sink.old }
    ensures rest { IsAtRest row.now pass.new }
    ensures cancels { CancelsLogged S.pushed row.now.about (known_of pass.old.knows) (known_of pass.new.knows) timer result sink.old sink.new }
    ensures running { tells_running result ≡ is_some (timer_seen row.now.about pass.old.knows timer).running }
    ensures locks { LocksGoOnIn pass.old.knows pass.new.knows }
    ensures room { S.room sink.old ≤ S.room sink.new + 1 }
{
    let state = state_of(row, pass, &held, timer);
    let stamp = state.stamp();
    if let Some(generation) = state.running() {
        leave(row, pass, held, timer);
        return CancelAnswer::Running { generation, stamp };
    }
    let Some(generation) = state.armed() else {
        leave(row, pass, held, timer);
        return CancelAnswer::Idle { stamp };
    };
    state.bounded();
    enter_once(row, pass, sink, held, timer, &Event::Cancel);
    CancelAnswer::Cancelled {
        generation,
        number: stamp + 1,
    }
}

/// As `try_to_cancel`, under the lock of the timer's base in any case. Unless the timer's function is running, a counter rises first, from so many. It
/// answers `None`, and has done nothing, where the counter isn't so far and the function isn't running.
pub fn try_to_cancel_behind<R: Wait, S: ReceiptSink>(
    rt: &R,
    row: &BaseRow,
    pass: &mut Pass,
    sink: &mut S,
    timer: u32,
    counter: u32,
    from: u64,
) -> Option<CancelAnswer>
    requires rest { IsAtRest row.now pass.old }
    requires timer { timer < length row.now.about.timers }
    requires room { 0 < S.room sink.old }
    requires counter { counter < row.now.about.counters }
    requires small { from + 1 < 2 ^ 64 }
    ensures rest { IsAtRest row.now pass.new }
    ensures cancels { MatchOption result
        (OnlySeesMore pass.old.knows pass.new.knows × HadRisenOtherwise counter from (known_of pass.old.knows) (known_of pass.new.knows) × (sink.new ≡ sink.old))
        (λ a. CancelsBehind S.pushed row.now.about counter from (known_of pass.old.knows) (known_of pass.new.knows) timer a sink.old sink.new) }
    ensures why { IfNone result (HadRisenWhileStill row.now.about counter from (known_of pass.old.knows) (known_of pass.new.knows) timer) }
    ensures locks { LocksGoOnIn pass.old.knows pass.new.knows }
    ensures room { S.room sink.old ≤ S.room sink.new + 1 }
{
    let held = lock_timer(rt, row, pass, timer);
    if state_of(row, pass, &held, timer).running().is_some() {
        return Some(cancel_held(row, pass, sink, held, timer));
    }
    if !step_held(row, pass, &held, timer, counter, from) {
        leave(row, pass, held, timer);
        return None;
    }
    Some(cancel_held(row, pass, sink, held, timer))
}

/// Raises a counter by one, if it is so far, while a timer's base is held.
fn step_held(
    row: &BaseRow,
    pass: &mut Pass,
    held: &HeldBase,
    timer: u32,
    counter: u32,
    from: u64,
) -> bool
    requires holds { HoldsTimer row.now pass.old held.now timer }
    requires counter { counter < row.now.about.counters }
    requires small { from + 1 < 2 ^ 64 }
    ensures holds { HoldsTimer row.now pass.new held.now timer }
    ensures looks { OnlySeesMore pass.old.knows pass.new.knows }
    ensures same { timer_seen row.now.about pass.new.knows timer ≡ timer_seen row.now.about pass.old.knows timer }
    ensures steps { MatchBool result (RisesFrom counter from pass.old.knows.seen pass.new.knows.seen) (rises_of counter pass.new.knows.seen ≢ from) }
{
    pass.known();
    let rose = row.step_counter(pass, counter, from);
    pass.known();
    rose
}
