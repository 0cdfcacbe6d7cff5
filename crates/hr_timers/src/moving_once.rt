//! Moving a timer at one try at each lock: between two tries the pass carries the timer.
ghost use Rattle.std.specs.Prelude.{List, ◌≡◌, ◌+◌, ◌<◌, ◌≤◌, ◌-◌, ◌^◌, ℕ, ◌∷◌, [], length, slice_index, Some, None, Err, MatchResult, true};
ghost use Rattle.pass_names.specs.Names.{IsLast};
ghost use Rattle.pass_names.specs.Passes.{Begins};
ghost use Rattle.seq_timer.specs.declared.event.EventBy.TheVariants.{Start};
ghost use Rattle.seq_timer.specs.declared.system.SystemEntry.{SystemEntry};
ghost use Rattle.seq_timer.specs.Steps.{after, placement_of};
ghost use Rattle.base_row.specs.Calls.{IsBasePassOf, known_of, timer_seen};
ghost use Rattle.hr_timers.specs.Calls.{entry_by};
ghost use Rattle.hr_timers.specs.Carriers.{IsCarrying};
ghost use Rattle.hr_timers.specs.Carrying.{ArriveFits, ArriveStands, HeldUnsentFits, SendsOff, UnsentFits};
ghost use Rattle.hr_timers.specs.Known.{AddsBehind, HoldsTimer, IsAtRest, LocksGoOnIn, pass_of};
ghost use Rattle.hr_timers.specs.Moves.{known_from};
ghost use Rattle.hr_timers.specs.Once.{SaysFirst};
ghost use Rattle.hr_timers.specs.Ways.{standing_then};
ghost use Rattle.hr_timers.specs.declared.moving_once.Arriving.TheVariants as arrivings;
ghost use Rattle.hr_timers.specs.declared.once_answer.Miss.TheVariants as misses;
ghost use Rattle.hr_timers.specs.declared.once_answer.Unsent.TheVariants as unsents;

use crate::asked::moves_first;
use crate::moving::{chase, send, send_on};
use crate::once_answer::{Landed, Unsent};
use crate::once_lock::{hold_once, leave_first, lock_once};
use crate::under_lock::{leave, state_of};
use base_row::{BaseRow, HeldBase, Pass, Unlogged};
use seq_timer::{Asked, Event, Reply, TimerState};

/// A timer that was sent off its base, and whether it was armed before.
#[derive(Clone, Copy)]
pub struct Sent {
    pub state: TimerState,
    pub was_armed: bool,
}

/// What one try at the arrival of a carried timer did.
#[derive(Clone, Copy)]
pub enum Arriving {
    /// The timer was started on the base.
    Landed(Landed),
    /// The base was off line. The timer goes to its heir now, and is so.
    SentOn(TimerState),
    /// Another pass took the base's lock. Nothing has changed.
    Contended,
}

/// Sends a timer off its base, where a start that asks for this base does.
pub fn try_send(row: &BaseRow, pass: &mut Pass, timer: u32, asked: u32) -> Result<Sent, Unsent>
    requires rest { IsAtRest row.now pass.old }
    requires timer { timer < length row.now.about.timers }
    requires base { (asked < row.now.about.bases) × (row.now.about.bases ≤ 64) }
    ensures sends { MatchResult result
        (λ s. IsCarrying row.now pass.new timer s.state
        × SendsOff row.now.about (known_of pass.old.knows) (known_of pass.new.knows) timer asked s.state s.was_armed)
        (λ u. IsAtRest row.now pass.new × UnsentFits row.now.about (pass_of pass.old) (pass_of pass.new) timer asked u) }
    ensures alone { IsLast pass.old.knows.id → (b : ℕ) → result ≡ Err (unsents.Missed (misses.Contended b)) → 2 ^ 64 - 2 ≤ slice_index pass.new.knows.met b }
    ensures locks { LocksGoOnIn pass.old.knows pass.new.knows }
{
    let to = chase(row, pass, asked);
    match hold_once(row, pass, timer) {
        Ok(held) => send_held(row, pass, held, timer, to),
        Err(miss) => Err(Unsent::Missed(miss)),
    }
}

/// The same on the held base, which is let go. The base that is asked for was on line at some moment before.
fn send_held(
    row: &BaseRow,
    pass: &mut Pass,
    held: HeldBase,
    timer: u32,
    to: u32,
) -> Result<Sent, Unsent>
    requires holds { HoldsTimer row.now pass.old held timer }
    requires to { (to < row.now.about.bases) × (row.now.about.bases ≤ 64) }
    ensures stands { MatchResult result (λ s. IsCarrying row.now pass.new timer s.state) (λ u. IsAtRest row.now pass.new) }
    ensures sends { (low : List SystemEntry) → Begins low pass.old.knows.seen → (standing_then row.now.about low to).heir ≡ None
        → MatchResult result (λ s. SendsOff row.now.about (known_from pass.old.knows low) (known_of pass.new.knows) timer to s.state s.was_armed)
        (λ u. HeldUnsentFits row.now.about (known_from pass.old.knows low) (known_of pass.new.knows) timer to u) }
    ensures locks { LocksGoOnIn pass.old.knows pass.new.knows }
{
    let state = state_of(row, pass, &held, timer);
    let stamp = state.stamp();
    if stamp >= state.limit() {
        leave(row, pass, held, timer);
        return Err(Unsent::Spent { stamp });
    }
    let base = state.base();
    if !moves_first(state, to) {
        leave(row, pass, held, timer);
        return Err(Unsent::Stays { base });
    }
    let was_armed = state.armed().is_some();
    let state = send(row, pass, &mut Unlogged, held, timer, to);
    Ok(Sent { state, was_armed })
}

/// Starts a carried timer on the base that it goes to; where that is off line it is sent on to the heir.
pub fn try_arrive(
    row: &BaseRow,
    pass: &mut Pass,
    timer: u32,
    state: &TimerState,
    asked: &Asked,
) -> Arriving
    requires carries { IsCarrying row.now pass.old timer state.now }
    requires base { asked.now.base ≡ state.now.base }
    requires few { row.now.about.bases ≤ 64 }
    ensures stands { ArriveStands row.now pass.new timer state.now result }
    ensures arrives { ArriveFits row.now.about (pass_of pass.old) (pass_of pass.new) timer state.now asked.now result }
    ensures alone { IsLast pass.old.knows.id → result ≡ arrivings.Contended → 2 ^ 64 - 2 ≤ slice_index pass.new.knows.met state.now.base }
    ensures locks { LocksGoOnIn pass.old.knows pass.new.knows }
{
    let Some(held) = lock_once(row, pass, asked.base) else {
        return Arriving::Contended;
    };
    let standing = row.standing(pass, &held);
    match standing.heir {
        None => Arriving::Landed(land(row, pass, held, timer, state, asked)),
        Some(heir) => {
            let sent = send_on(row, pass, &mut Unlogged, held, timer, state, heir);
            Arriving::SentOn(sent)
        }
    }
}

/// Starts a timer that the pass carries on the held base, which is on line, lets the base go, and tells of the timer.
fn land(
    row: &BaseRow,
    pass: &mut Pass,
    held: HeldBase,
    timer: u32,
    state: &TimerState,
    asked: &Asked,
) -> Landed
    requires row { IsBasePassOf row.now pass.old }
    requires within { (timer < length row.now.about.timers) × (held.base < row.now.about.bases) }
    requires carries { (pass.old.knows.held ≡ Some held) × (pass.old.knows.carry ≡ Some timer) }
    requires state { state.now ≡ timer_seen row.now.about pass.old.knows timer }
    requires moving { (state.now.moving ≡ true) × (state.now.base ≡ held.base) × (asked.now.base ≡ held.base) }
    requires online { held.content.standing.heir ≡ None }
    ensures rest { IsAtRest row.now pass.new }
    ensures claims { pass.new.knows.claims ≡ pass.old.knows.claims }
    ensures adds { AddsBehind pass.old.knows pass.new.knows timer
        (entry_by (timer_seen row.now.about pass.old.knows timer) (Start asked.now) ∷ []) }
    ensures base { result.base ≡ asked.now.base }
    ensures generation { result.generation ≡ state.now.stamp + 1 }
    ensures placement { result.placement ≡ placement_of (after (timer_seen row.now.about pass.old.knows timer) (Start asked.now)) }
    ensures first { SaysFirst row.now.about pass.new.knows.seen timer result.first }
    ensures locks { LocksGoOnIn pass.old.knows pass.new.knows }
{
    row.fresh();
    pass.known();
    state.bounded();
    let generation = state.stamp() + 1;
    let mut held = held;
    let event = Event::Start(*asked);
    let reply = row.arrive_logged(pass, &mut Unlogged, &mut held, timer, state, &event);
    let first = leave_first(row, pass, held, timer);
    match reply {
        Reply::Start { placement, .. } => Landed {
            base: asked.base,
            generation,
            placement,
            first,
        },
        _ => unreachable!(),
    }
}
