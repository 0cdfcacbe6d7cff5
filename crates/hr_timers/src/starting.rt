//! Starting a timer: on the base where it is, or by a move to the base that is asked for, and from a base that is off line to its heir.
ghost use Rattle.std.specs.Prelude.{◌≡◌, ◌<◌, ◌≤◌, ◌+◌, List, None, [], ◌∷◌, false, is_some, length, if◌then◌else◌};
ghost use Rattle.pass_names.specs.Passes.{Begins};
ghost use Rattle.seq_timer.specs.Calls.{moves_first};
ghost use Rattle.seq_timer.specs.declared.event.EventBy.TheVariants.{Start};
ghost use Rattle.seq_timer.specs.Steps.{after};
ghost use Rattle.seq_timer.specs.declared.system.SystemEntry.{SystemEntry};
ghost use Rattle.seq_timer.specs.Tables.{timer_at};
ghost use Rattle.base_row.specs.Calls.{known_of, timer_seen};
ghost use Rattle.hr_timers.specs.Known.{AddsBehind, HoldsTimer, IsAtRest, LocksGoOnIn};
ghost use Rattle.hr_timers.specs.Calls.{entry_by};
ghost use Rattle.hr_timers.specs.Logged.{HasRoomToStart, IsLogged, StartsLogged};
ghost use Rattle.hr_timers.specs.Moves.{StartsBy, arrival_of, known_from};
ghost use Rattle.hr_timers.specs.Ways.{most_to_start, standing_then};

use crate::answer::StartAnswer;
use crate::asked::moves_first;
use crate::moving::{Arrival, chase, move_and_start};
use crate::under_lock::{enter_once, leave, lock_timer, state_of};
use base_row::{BaseRow, HeldBase, Pass, ReceiptSink};
use seq_timer::{Asked, Event, Reply};
use std::sync::Wait;

/// Starts a timer, once it isn't on the move.
pub fn start<R: Wait, S: ReceiptSink>(
    rt: &R,
    row: &BaseRow,
    pass: &mut Pass,
    sink: &mut S,
    timer: u32,
    asked: &Asked,
) -> StartAnswer
    requires rest { IsAtRest row.now pass.old }
    requires timer { timer < length row.now.about.timers }
    requires base { (asked.now.base < row.now.about.bases) × (row.now.about.bases ≤ 64) }
    requires room { HasRoomToStart row.now.about (known_of pass.old.knows) timer asked.now.base (S.room sink.old) }
    ensures rest { IsAtRest row.now pass.new }
    ensures starts { StartsLogged S.pushed row.now.about (known_of pass.old.knows) (known_of pass.new.knows) timer asked.now result sink.old sink.new }
    ensures locks { LocksGoOnIn pass.old.knows pass.new.knows }
    ensures room { S.room sink.old ≤ S.room sink.new + most_to_start (timer_at row.now.about.timers timer).terms asked.now.base }
{
    let base = chase(row, pass, asked.base);
    let to = Asked { base, ..*asked };
    let held = lock_timer(rt, row, pass, timer);
    row.fresh();
    pass.known();
    start_held(rt, row, pass, sink, held, timer, &to)
}

/// Starts a timer of a held base, and lets the base go. The base that it asks for was on line at some moment before.
fn start_held<R: Wait, S: ReceiptSink>(
    rt: &R,
    row: &BaseRow,
    pass: &mut Pass,
    sink: &mut S,
    held: HeldBase,
    timer: u32,
    asked: &Asked,
) -> StartAnswer
    requires holds { HoldsTimer row.now pass.old held timer }
    requires base { (asked.now.base < row.now.about.bases) × (row.now.about.bases ≤ 64) }
    requires room { (if is_some (timer_seen row.now.about pass.old.knows timer).running then 1
        else most_to_start (timer_seen row.now.about pass.old.knows timer).terms asked.now.base) ≤ S.room sink.old }
    ensures rest { IsAtRest row.now pass.new }
    ensures starts { (low : List SystemEntry) → Begins low pass.old.knows.seen → (standing_then row.now.about low asked.now.base).heir ≡ None
        → StartsLogged S.pushed row.now.about (known_from pass.old.knows low) (known_of pass.new.knows) timer asked.now result sink.old sink.new }
    ensures locks { LocksGoOnIn pass.old.knows pass.new.knows }
    ensures room { S.room sink.old ≤ S.room sink.new + most_to_start (timer_seen row.now.about pass.old.knows timer).terms asked.now.base }
{
    let state = state_of(row, pass, &held, timer);
    let stamp = state.stamp();
    if stamp >= state.limit() {
        leave(row, pass, held, timer);
        return StartAnswer::Spent { stamp };
    }
    let was_armed = state.armed().is_some();
    let arrival = enter_start(rt, row, pass, sink, held, timer, asked);
    StartAnswer::Started {
        was_armed,
        generation: arrival.generation,
        asked: arrival.asked,
        outs: arrival.outs,
        placement: arrival.placement,
    }
}

/// Makes the entries of a start that is below the limit, and lets the base go.
fn enter_start<R: Wait, S: ReceiptSink>(
    rt: &R,
    row: &BaseRow,
    pass: &mut Pass,
    sink: &mut S,
    held: HeldBase,
    timer: u32,
    asked: &Asked,
) -> Arrival
    requires holds { HoldsTimer row.now pass.old held timer }
    requires base { (asked.now.base < row.now.about.bases) × (row.now.about.bases ≤ 64) }
    requires limit { (timer_seen row.now.about pass.old.knows timer).stamp < (timer_seen row.now.about pass.old.knows timer).terms.limit }
    requires room { (if is_some (timer_seen row.now.about pass.old.knows timer).running then 1
        else most_to_start (timer_seen row.now.about pass.old.knows timer).terms asked.now.base) ≤ S.room sink.old }
    ensures rest { IsAtRest row.now pass.new }
    ensures claims { pass.new.knows.claims ≡ pass.old.knows.claims }
    ensures starts { StartsBy S.pushed row.now.about pass.old.knows pass.new.knows timer asked.now result sink.old sink.new }
    ensures locks { LocksGoOnIn pass.old.knows pass.new.knows }
    ensures room { S.room sink.old ≤ S.room sink.new + most_to_start (timer_seen row.now.about pass.old.knows timer).terms asked.now.base }
{
    pass.known();
    let standing = row.standing(pass, &held);
    match standing.heir {
        Some(heir) if held.base() == asked.base => {
            let next = Asked {
                base: heir,
                ..*asked
            };
            move_and_start(rt, row, pass, sink, held, timer, &next)
        }
        Some(_) => move_and_start(rt, row, pass, sink, held, timer, asked),
        None if moves_first(state_of(row, pass, &held, timer), asked.base) => {
            move_and_start(rt, row, pass, sink, held, timer, asked)
        }
        None => stay(row, pass, sink, held, timer, asked),
    }
}

/// Starts a timer where it is, on the held base, which is on line, and lets the base go.
fn stay<S: ReceiptSink>(
    row: &BaseRow,
    pass: &mut Pass,
    sink: &mut S,
    held: HeldBase,
    timer: u32,
    asked: &Asked,
) -> Arrival
    requires holds { HoldsTimer row.now pass.old held timer }
    requires limit { (timer_seen row.now.about pass.old.knows timer).stamp < (timer_seen row.now.about pass.old.knows timer).terms.limit }
    requires stays { moves_first (timer_seen row.now.about pass.old.knows timer) asked.now.base ≡ false }
    requires online { held.content.standing.heir ≡ None }
    requires room { 0 < S.room sink.old }
    ensures rest { IsAtRest row.now pass.new }
    ensures claims { pass.new.knows.claims ≡ pass.old.knows.claims }
    ensures adds { AddsBehind pass.old.knows pass.new.knows timer
        (entry_by (timer_seen row.now.about pass.old.knows timer) (Start asked.now) ∷ []) }
    ensures told { result ≡ arrival_of (after (timer_seen row.now.about pass.old.knows timer) (Start asked.now)) [] asked.now.base }
    ensures logged { IsLogged S.pushed row.now.about timer pass.old.knows.seen
        (entry_by (timer_seen row.now.about pass.old.knows timer) (Start asked.now) ∷ []) sink.old sink.new }
    ensures locks { LocksGoOnIn pass.old.knows pass.new.knows }
    ensures room { S.room sink.old ≤ S.room sink.new + 1 }
{
    pass.known();
    let state = state_of(row, pass, &held, timer);
    state.bounded();
    let generation = state.stamp() + 1;
    match enter_once(row, pass, sink, held, timer, &Event::Start(*asked)) {
        Reply::Start { placement, .. } => Arrival {
            asked: asked.base,
            outs: 0,
            generation,
            placement,
        },
        _ => unreachable!(),
    }
}
