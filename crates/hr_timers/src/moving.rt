//! Moving a timer from one base to another: never both locks at once.
ghost use Rattle.std.specs.Prelude.{◌≡◌, ◌<◌, ◌≤◌, ◌+◌, ℕ, List, length, Some, None, [], ◌∷◌, true};
ghost use Rattle.seq_timer.specs.Steps.{Needs, after};
ghost use Rattle.seq_timer.specs.declared.event.EventBy.TheVariants.{Out, Start};
ghost use Rattle.base_row.specs.Calls.{IsBasePassOf, base_seen, known_of, timer_seen};
ghost use Rattle.base_row.specs.Plays.{Steady};
ghost use Rattle.hr_timers.specs.Known.{AddsBehind, HoldsTimer, IsAtRest, LocksGoOnIn, OnlySeesMore};
ghost use Rattle.hr_timers.specs.Calls.{entry_by};
ghost use Rattle.hr_timers.specs.Logged.{IsLogged};
ghost use Rattle.hr_timers.specs.Moves.{Arrives, KeepsBases, StandsBehind, StartsBy, arrival_of};
ghost use Rattle.hr_timers.specs.Ways.{IsWay, most_to_arrive, most_to_start};

use crate::asked::one_bit;
use crate::under_lock::{lock, unlock_base};
use base_row::{BaseRow, HeldBase, Pass, ReceiptSink};
use seq_timer::{Asked, Event, Placement, Reply, TimerState};
use std::sync::Wait;

/// How a start has ended.
#[derive(Clone, Copy)]
pub struct Arrival {
    /// The base that it asked for last.
    pub asked: u32,
    /// A bit for each base that the timer was sent to.
    pub outs: u64,
    /// The generation that is armed now.
    pub generation: u64,
    /// How the timer is kept now.
    pub placement: Placement,
}

/// The base to which a start goes that asks for this one: it, or where its word says that it is off line its heir, and so on down.
pub fn chase(row: &BaseRow, pass: &mut Pass, base: u32) -> u32
    requires row { IsBasePassOf row.now pass.old }
    requires within { base < row.now.about.bases }
    ensures row { IsBasePassOf row.now pass.new }
    ensures sees { OnlySeesMore pass.old.knows pass.new.knows }
    ensures held { pass.new.knows.held ≡ pass.old.knows.held }
    ensures steady { Steady pass.old.knows pass.new.knows }
    ensures locks { (pass.new.knows.takes ≡ pass.old.knows.takes) × (pass.new.knows.met ≡ pass.old.knows.met) }
    ensures low { result ≤ base }
    ensures way { (path : List ℕ) × IsWay row.now.about pass.old.knows.seen base path result pass.new.knows.seen }
{
    let standing = row.load_standing(pass, base);
    match standing.heir {
        None => base,
        Some(heir) => chase(row, pass, heir),
    }
}

/// Sends a timer from a held base to the one that is asked for, lets the base go, and starts the timer there, or where that is off line on
/// its heir, and so on down.
pub fn move_and_start<R: Wait, S: ReceiptSink>(
    rt: &R,
    row: &BaseRow,
    pass: &mut Pass,
    sink: &mut S,
    held: HeldBase,
    timer: u32,
    asked: &Asked,
) -> Arrival
    requires holds { HoldsTimer row.now pass.old held timer }
    requires to { (asked.now.base < row.now.about.bases) × (row.now.about.bases ≤ 64) }
    requires needs { Needs (timer_seen row.now.about pass.old.knows timer) (Out asked.now.base) }
    requires room { most_to_start (timer_seen row.now.about pass.old.knows timer).terms asked.now.base ≤ S.room sink.old }
    ensures rest { IsAtRest row.now pass.new }
    ensures claims { pass.new.knows.claims ≡ pass.old.knows.claims }
    ensures starts { StartsBy S.pushed row.now.about pass.old.knows pass.new.knows timer asked.now result sink.old sink.new }
    ensures locks { LocksGoOnIn pass.old.knows pass.new.knows }
    ensures room { S.room sink.old ≤ S.room sink.new + most_to_start (timer_seen row.now.about pass.old.knows timer).terms asked.now.base }
{
    let state = send(row, pass, sink, held, timer, asked.base);
    let arrival = bring(rt, row, pass, sink, timer, &state, asked);
    Arrival {
        outs: one_bit(asked.base) + arrival.outs,
        ..arrival
    }
}

/// Sends a timer off a held base to another, and lets the base go. The pass carries the timer then, in the state that it gives.
pub fn send<S: ReceiptSink>(
    row: &BaseRow,
    pass: &mut Pass,
    sink: &mut S,
    held: HeldBase,
    timer: u32,
    to: u32,
) -> TimerState
    requires holds { HoldsTimer row.now pass.old held timer }
    requires room { 0 < S.room sink.old }
    requires to { to < row.now.about.bases }
    requires needs { Needs (timer_seen row.now.about pass.old.knows timer) (Out to) }
    ensures row { IsBasePassOf row.now pass.new }
    ensures carries { (pass.new.knows.held ≡ None) × (pass.new.knows.carry ≡ Some timer) }
    ensures claims { pass.new.knows.claims ≡ pass.old.knows.claims }
    ensures keeps { KeepsBases (known_of pass.old.knows) (known_of pass.new.knows) }
    ensures after { result ≡ after (timer_seen row.now.about pass.old.knows timer) (Out to) }
    ensures state { result ≡ timer_seen row.now.about pass.new.knows timer }
    ensures adds { AddsBehind pass.old.knows pass.new.knows timer (entry_by (timer_seen row.now.about pass.old.knows timer) (Out to) ∷ []) }
    ensures place { StandsBehind row.now.about (known_of pass.old.knows) (known_of pass.new.knows) timer held }
    ensures logged { IsLogged S.pushed row.now.about timer pass.old.knows.seen
        (entry_by (timer_seen row.now.about pass.old.knows timer) (Out to) ∷ []) sink.old sink.new }
    ensures locks { LocksGoOnIn pass.old.knows pass.new.knows }
    ensures room { S.room sink.old ≤ S.room sink.new + 1 }
{
    row.fresh();
    let mut held = held;
    let state = row.out_logged(pass, sink, &mut held, timer, to);
    unlock_base(row, pass, held);
    state
}

/// Starts a timer that the pass carries on the base that it goes to, under that base's lock; where that is off line it is sent on to the
/// heir.
fn bring<R: Wait, S: ReceiptSink>(
    rt: &R,
    row: &BaseRow,
    pass: &mut Pass,
    sink: &mut S,
    timer: u32,
    state: &TimerState,
    asked: &Asked,
) -> Arrival
    requires row { IsBasePassOf row.now pass.old }
    requires within { (timer < length row.now.about.timers) × (asked.now.base < row.now.about.bases) × (row.now.about.bases ≤ 64) }
    requires carries { (pass.old.knows.held ≡ None) × (pass.old.knows.carry ≡ Some timer) }
    requires state { state.now ≡ timer_seen row.now.about pass.old.knows timer }
    requires moving { (state.now.moving ≡ true) × (state.now.base ≡ asked.now.base) × (state.now.running ≡ None) }
    requires room { most_to_arrive state.now.terms asked.now.base ≤ S.room sink.old }
    ensures rest { IsAtRest row.now pass.new }
    ensures claims { pass.new.knows.claims ≡ pass.old.knows.claims }
    ensures arrives { Arrives S.pushed row.now.about pass.old.knows pass.new.knows timer asked.now result sink.old sink.new }
    ensures locks { LocksGoOnIn pass.old.knows pass.new.knows }
    ensures room { S.room sink.old ≤ S.room sink.new + most_to_arrive state.now.terms asked.now.base }
{
    let held = lock(rt, row, pass, asked.base);
    pass.known();
    let standing = row.standing(pass, &held);
    match standing.heir {
        None => settle(row, pass, sink, held, timer, state, asked),
        Some(heir) => {
            let sent = send_on(row, pass, sink, held, timer, state, heir);
            let next = Asked {
                base: heir,
                ..*asked
            };
            let arrival = bring(rt, row, pass, sink, timer, &sent, &next);
            Arrival {
                outs: one_bit(heir) + arrival.outs,
                ..arrival
            }
        }
    }
}

/// Sends a timer on that the pass carries, from the held base, which is off line, to its heir, and lets the base go.
pub fn send_on<S: ReceiptSink>(
    row: &BaseRow,
    pass: &mut Pass,
    sink: &mut S,
    held: HeldBase,
    timer: u32,
    state: &TimerState,
    to: u32,
) -> TimerState
    requires row { IsBasePassOf row.now pass.old }
    requires within { (timer < length row.now.about.timers) × (held.base < row.now.about.bases) × (row.now.about.bases ≤ 64) }
    requires carries { (pass.old.knows.held ≡ Some held) × (pass.old.knows.carry ≡ Some timer) }
    requires state { state.now ≡ timer_seen row.now.about pass.old.knows timer }
    requires moving { (state.now.moving ≡ true) × (state.now.base ≡ held.base) × (state.now.running ≡ None) }
    requires down { (to < held.base) × (0 < state.now.terms.reach) }
    requires off { (base_seen row.now.about pass.old.knows held.base).standing.heir ≡ Some to }
    requires room { 0 < S.room sink.old }
    ensures row { IsBasePassOf row.now pass.new }
    ensures carries { (pass.new.knows.held ≡ None) × (pass.new.knows.carry ≡ Some timer) }
    ensures claims { pass.new.knows.claims ≡ pass.old.knows.claims }
    ensures state { result ≡ timer_seen row.now.about pass.new.knows timer }
    ensures after { result ≡ after (timer_seen row.now.about pass.old.knows timer) (Out to) }
    ensures adds { AddsBehind pass.old.knows pass.new.knows timer (entry_by (timer_seen row.now.about pass.old.knows timer) (Out to) ∷ []) }
    ensures logged { IsLogged S.pushed row.now.about timer pass.old.knows.seen
        (entry_by (timer_seen row.now.about pass.old.knows timer) (Out to) ∷ []) sink.old sink.new }
    ensures locks { LocksGoOnIn pass.old.knows pass.new.knows }
    ensures room { S.room sink.old ≤ S.room sink.new + 1 }
{
    row.fresh();
    pass.known();
    let mut held = held;
    let sent = row.out_again_logged(pass, sink, &mut held, timer, state, to);
    unlock_base(row, pass, held);
    sent
}

/// Starts a timer that the pass carries on the held base, which is on line, and lets the base go.
pub fn settle<S: ReceiptSink>(
    row: &BaseRow,
    pass: &mut Pass,
    sink: &mut S,
    held: HeldBase,
    timer: u32,
    state: &TimerState,
    asked: &Asked,
) -> Arrival
    requires row { IsBasePassOf row.now pass.old }
    requires within { (timer < length row.now.about.timers) × (held.base < row.now.about.bases) }
    requires carries { (pass.old.knows.held ≡ Some held) × (pass.old.knows.carry ≡ Some timer) }
    requires state { state.now ≡ timer_seen row.now.about pass.old.knows timer }
    requires moving { (state.now.moving ≡ true) × (state.now.base ≡ held.base) × (asked.now.base ≡ held.base) }
    requires online { held.content.standing.heir ≡ None }
    requires room { 0 < S.room sink.old }
    ensures rest { IsAtRest row.now pass.new }
    ensures claims { pass.new.knows.claims ≡ pass.old.knows.claims }
    ensures keeps { KeepsBases (known_of pass.old.knows) (known_of pass.new.knows) }
    ensures adds { AddsBehind pass.old.knows pass.new.knows timer
        (entry_by (timer_seen row.now.about pass.old.knows timer) (Start asked.now) ∷ []) }
    ensures told { result ≡ arrival_of (after (timer_seen row.now.about pass.old.knows timer) (Start asked.now)) [] asked.now.base }
    ensures logged { IsLogged S.pushed row.now.about timer pass.old.knows.seen
        (entry_by (timer_seen row.now.about pass.old.knows timer) (Start asked.now) ∷ []) sink.old sink.new }
    ensures locks { LocksGoOnIn pass.old.knows pass.new.knows }
    ensures room { S.room sink.old ≤ S.room sink.new + 1 }
{
    row.fresh();
    pass.known();
    state.bounded();
    let generation = state.stamp() + 1;
    let mut held = held;
    let event = Event::Start(*asked);
    let reply = row.arrive_logged(pass, sink, &mut held, timer, state, &event);
    unlock_base(row, pass, held);
    match reply {
        Reply::Start { placement, .. } => Arrival {
            asked: asked.base,
            outs: 0,
            generation,
            placement,
        },
        _ => unreachable!(),
    }
}
