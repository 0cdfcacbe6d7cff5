//! A row whose timers stand where the threads need them.
ghost use Rattle.std.specs.Prelude.{◌≡◌, ◌*◌, ◌^◌, ◌<◌, ◌≤◌, length, Some, None, true, []};
ghost use Rattle.base_row.specs.Calls.{IsBasePassOf, timer_seen};
ghost use Rattle.benches.specs.Rows.{HasNoReach};
ghost use Rattle.benches.specs.WorkingBases.{IsReady};

use crate::bases::turns::{start, start_and_cancel, start_event};
use crate::random::Random;
use base_row::{BaseRow, Pass};
use seq_timer::{Event, TimerState};
use std::sync::Wait;

/// Starts a timer that is on base 0 on another base. One that is not there stays as it is.
fn send<R: Wait>(rt: &R, row: &BaseRow, pass: &mut Pass, timer: u32, to: u32, ns: u64)
    requires ready { IsReady row.now pass.old }
    requires within { (timer < length row.now.about.timers) × (0 < to) × (to < row.now.about.bases) }
    requires near { HasNoReach row.now.about }
    ensures ready { IsReady row.now pass.new }
    ensures id { pass.new.knows.id ≡ pass.old.knows.id }
{
    let mut held = row.lock_base(rt, pass, 0);
    let state = row.state(pass, &held, timer);
    if state.base() != 0 || state.is_moving() || state.running().is_some() {
        row.unlock_base(pass, held);
        return;
    }
    if state.stamp() >= state.limit() {
        row.unlock_base(pass, held);
        return;
    }
    let moving = row.out(pass, &mut held, timer, to);
    row.unlock_base(pass, held);
    bring(rt, row, pass, timer, moving, ns);
}

/// Starts a timer that the pass carries, where it was sent.
fn bring<R: Wait>(rt: &R, row: &BaseRow, pass: &mut Pass, timer: u32, state: TimerState, ns: u64)
    requires row { IsBasePassOf row.now pass.old }
    requires within { (timer < length row.now.about.timers) × (state.base < row.now.about.bases) }
    requires carries { (pass.old.knows.held ≡ None) × (pass.old.knows.carry ≡ Some timer) }
    requires state { state ≡ timer_seen row.now.about pass.old.knows timer }
    requires moving { state.moving ≡ true }
    requires unclaimed { pass.old.knows.claims ≡ [] }
    requires near { HasNoReach row.now.about }
    ensures ready { IsReady row.now pass.new }
    ensures id { pass.new.knows.id ≡ pass.old.knows.id }
{
    let to = state.base();
    let mut held = row.lock_base(rt, pass, to);
    row.standing(pass, &held);
    pass.known();
    row.arrive(pass, &mut held, timer, state, start_event(to, ns));
    row.unlock_base(pass, held);
}

/// Starts a timer that no call has named yet, on one of the two bases.
fn place<R: Wait>(rt: &R, row: &BaseRow, pass: &mut Pass, timer: u32, base: u32, ns: u64)
    requires ready { IsReady row.now pass.old }
    requires within { (timer < length row.now.about.timers) × (base < row.now.about.bases) }
    requires near { HasNoReach row.now.about }
    ensures ready { IsReady row.now pass.new }
    ensures id { pass.new.knows.id ≡ pass.old.knows.id }
{
    if base > 0 {
        send(rt, row, pass, timer, base, ns);
        return;
    }
    let mut held = row.lock_base(rt, pass, base);
    start(row, pass, &mut held, timer, ns);
    row.unlock_base(pass, held);
}

/// Of four times so many timers, starts half on the two bases in turn. Of the others every second one is then idle on base 0, and the rest
/// on the base that is named.
pub fn fill<R: Wait>(rt: &R, row: &BaseRow, pass: &mut Pass, timers: u32, second: u32)
    requires ready { IsReady row.now pass.old }
    requires size { (row.now.about.bases ≡ 2) × (4 * timers ≡ length row.now.about.timers) }
    requires few { (timers < 2 ^ 16) × (second < 2) }
    requires near { HasNoReach row.now.about }
    ensures ready { IsReady row.now pass.new }
    ensures id { pass.new.knows.id ≡ pass.old.knows.id }
{
    let mut random = Random::new();
    for timer in 0..4 * timers {
        let ns = 1000 + random.expiry();
        if timer >= 2 * timers {
            place(rt, row, pass, timer, timer % 2, ns);
        } else {
            let base = timer % 2 * second;
            place(rt, row, pass, timer, base, ns);
            start_and_cancel(rt, row, pass, base, timer, ns);
        }
    }
}
