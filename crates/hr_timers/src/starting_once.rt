//! Starting a timer where it is, at one try at a lock.
ghost use Rattle.std.specs.Prelude.{List, ◌≡◌, ◌<◌, ◌≤◌, ◌-◌, ◌^◌, ℕ, [], ◌∷◌, false, length, slice_index, None};
ghost use Rattle.pass_names.specs.Names.{IsLast};
ghost use Rattle.pass_names.specs.Passes.{Begins};
ghost use Rattle.seq_timer.specs.Calls.{moves_first};
ghost use Rattle.seq_timer.specs.declared.event.EventBy.TheVariants.{Start};
ghost use Rattle.seq_timer.specs.declared.system.SystemEntry.{SystemEntry};
ghost use Rattle.seq_timer.specs.Steps.{after, reply_to};
ghost use Rattle.base_row.specs.Calls.{known_of, timer_seen};
ghost use Rattle.hr_timers.specs.Calls.{entry_by};
ghost use Rattle.hr_timers.specs.Known.{AddsBehind, HoldsTimer, IsAtRest, LocksGoOnIn, pass_of};
ghost use Rattle.hr_timers.specs.Moves.{arrival_of, known_from};
ghost use Rattle.hr_timers.specs.Once.{HeldHereFits, HereFits, SaysFirst};
ghost use Rattle.hr_timers.specs.Ways.{standing_then};
ghost use Rattle.hr_timers.specs.declared.once_answer.HereAnswer.TheVariants as heres;
ghost use Rattle.hr_timers.specs.declared.once_answer.Miss.TheVariants as misses;

use crate::answer::StartAnswer;
use crate::asked::moves_first;
use crate::moving::{Arrival, chase};
use crate::once_answer::HereAnswer;
use crate::once_lock::{hold_once, leave_first};
use crate::under_lock::{leave, state_of};
use base_row::{BaseRow, HeldBase, Pass, Unlogged};
use seq_timer::{Asked, Event, Reply};

/// Starts a timer on the base where it is, if that is the one that is found on line for the one that is asked for, or the timer's function is running.
pub fn try_start(row: &BaseRow, pass: &mut Pass, timer: u32, asked: &Asked) -> HereAnswer
    requires rest { IsAtRest row.now pass.old }
    requires timer { timer < length row.now.about.timers }
    requires base { asked.now.base < row.now.about.bases }
    ensures rest { IsAtRest row.now pass.new }
    ensures starts { HereFits row.now.about (pass_of pass.old) (pass_of pass.new) timer asked.now result }
    ensures alone { IsLast pass.old.knows.id → (b : ℕ) → result ≡ heres.Missed (misses.Contended b) → 2 ^ 64 - 2 ≤ slice_index pass.new.knows.met b }
    ensures locks { LocksGoOnIn pass.old.knows pass.new.knows }
{
    let base = chase(row, pass, asked.base);
    let to = Asked { base, ..*asked };
    match hold_once(row, pass, timer) {
        Ok(held) => start_here(row, pass, held, timer, &to),
        Err(miss) => HereAnswer::Missed(miss),
    }
}

/// The same on the held base, which is let go. The base that is asked for was on line at some moment before.
fn start_here(
    row: &BaseRow,
    pass: &mut Pass,
    held: HeldBase,
    timer: u32,
    asked: &Asked,
) -> HereAnswer
    requires holds { HoldsTimer row.now pass.old held timer }
    ensures rest { IsAtRest row.now pass.new }
    ensures starts { (low : List SystemEntry) → Begins low pass.old.knows.seen → (standing_then row.now.about low asked.now.base).heir ≡ None
        → HeldHereFits row.now.about (known_from pass.old.knows low) (known_of pass.new.knows) timer asked.now result }
    ensures locks { LocksGoOnIn pass.old.knows pass.new.knows }
{
    let standing = row.standing(pass, &held);
    let state = state_of(row, pass, &held, timer);
    let stamp = state.stamp();
    if stamp >= state.limit() {
        leave(row, pass, held, timer);
        return HereAnswer::Tried {
            answer: StartAnswer::Spent { stamp },
            first: false,
        };
    }
    let base = state.base();
    if moves_first(state, asked.base) {
        leave(row, pass, held, timer);
        return HereAnswer::Elsewhere { base };
    }
    if standing.heir.is_some() {
        leave(row, pass, held, timer);
        return HereAnswer::Elsewhere { base };
    }
    let was_armed = state.armed().is_some();
    let (arrival, first) = stay_first(row, pass, held, timer, asked);
    HereAnswer::Tried {
        answer: StartAnswer::Started {
            was_armed,
            generation: arrival.generation,
            asked: arrival.asked,
            outs: arrival.outs,
            placement: arrival.placement,
        },
        first,
    }
}

/// Starts a timer where it is, on the held base, which is on line, lets the base go, and tells whether the timer is now the first of its queue.
fn stay_first(
    row: &BaseRow,
    pass: &mut Pass,
    held: HeldBase,
    timer: u32,
    asked: &Asked,
) -> (Arrival, bool)
    requires holds { HoldsTimer row.now pass.old held timer }
    requires limit { (timer_seen row.now.about pass.old.knows timer).stamp < (timer_seen row.now.about pass.old.knows timer).terms.limit }
    requires stays { moves_first (timer_seen row.now.about pass.old.knows timer) asked.now.base ≡ false }
    requires online { held.content.standing.heir ≡ None }
    ensures rest { IsAtRest row.now pass.new }
    ensures claims { pass.new.knows.claims ≡ pass.old.knows.claims }
    ensures adds { AddsBehind pass.old.knows pass.new.knows timer
        (entry_by (timer_seen row.now.about pass.old.knows timer) (Start asked.now) ∷ []) }
    ensures told { result.0 ≡ arrival_of (after (timer_seen row.now.about pass.old.knows timer) (Start asked.now)) [] asked.now.base }
    ensures first { SaysFirst row.now.about pass.new.knows.seen timer result.1 }
    ensures locks { LocksGoOnIn pass.old.knows pass.new.knows }
{
    row.fresh();
    pass.known();
    let state = state_of(row, pass, &held, timer);
    state.bounded();
    let generation = state.stamp() + 1;
    let mut held = held;
    let event = Event::Start(*asked);
    let reply = row.append_logged(pass, &mut Unlogged, &mut held, timer, &event);
    let first = leave_first(row, pass, held, timer);
    match reply {
        Reply::Start { placement, .. } => {
            let arrival = Arrival {
                asked: asked.base,
                outs: 0,
                generation,
                placement,
            };
            (arrival, first)
        }
        _ => unreachable!(),
    }
}
