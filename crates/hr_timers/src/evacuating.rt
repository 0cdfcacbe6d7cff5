//! Taking a base off line, turn by turn, and on line again.
ghost use Rattle.std.specs.Prelude.{◌≡◌, ◌+◌, ◌-◌, ◌*◌, ◌^◌, ◌<◌, ◌≤◌, ℕ, length, Some, None, [], ◌∷◌, true, false, IfSome, IfNone};
ghost use Rattle.ktime.specs.declared.mode.Mode.TheVariants.{Keep};
ghost use Rattle.seq_timer.specs.Calls.{asked_for};
ghost use Rattle.seq_timer.specs.Contents.{running_in};
ghost use Rattle.seq_timer.specs.Standings.{MayShift};
ghost use Rattle.seq_timer.specs.Steps.{Needs};
ghost use Rattle.seq_timer.specs.Systems.{HasHeirOnLine, IsClear};
ghost use Rattle.seq_timer.specs.Tables.{IsUnused};
ghost use Rattle.seq_timer.specs.declared.context.Context.{Context};
ghost use Rattle.seq_timer.specs.declared.event.EventBy.TheVariants.{Out, Start};
ghost use Rattle.seq_timer.specs.declared.standing.BaseEvent.TheVariants as shifts;
ghost use Rattle.base_row.specs.Calls.{IsBasePassOf, base_seen, known_of, timer_seen};
ghost use Rattle.hr_timers.specs.Calls.{entry_by};
ghost use Rattle.hr_timers.specs.Known.{AddsBehind, HoldsBase, HoldsTimer, IsAtRest, IsEvacuable, LocksGoOnIn};
ghost use Rattle.hr_timers.specs.Logged.{IsLogged};
ghost use Rattle.hr_timers.specs.Moves.{Evacuates, RunsFirstIn, KeepsBases, MayGoOffline, OfflineFits, OnlineFits, ShiftsBase, StandsBehind, TurnFits, move_entries};

use crate::answer::{OfflineAnswer, OnlineAnswer};
use crate::moving::{send, settle};
use crate::under_lock::{leave_base, lock, unlock_base};
use base_row::{BaseRow, HeldBase, Pass, ReceiptSink};
use ktime::{Mode, Reading};
use seq_timer::{Asked, BaseEvent, Context, TimerState};
use std::sync::Wait;

/// A base with so many entries isn't taken off line any more.
const LAST_STANDING: u64 = 65534;

/// What one turn of taking a base off line does.
#[derive(Clone, Copy)]
pub enum Turn {
    /// A function runs on the base.
    Busy { timer: u32, generation: u64 },
    /// No timer is armed on the base: it is off line now, with so many entries of its own.
    Off { stamp: u64 },
    /// This timer is armed on it, and no more are to be moved.
    Left { timer: u32 },
    /// The timer to be moved next has as many entries as its limit and its reach allow.
    Spent { timer: u32, stamp: u64 },
    /// The timer was moved to the heir.
    Moved { timer: u32 },
}

/// Takes a base off line, or says why not.
pub fn go_offline<R: Wait, S: ReceiptSink>(
    rt: &R,
    row: &BaseRow,
    pass: &mut Pass,
    sink: &mut S,
    base: u32,
    heir: u32,
    budget: u32,
    reading: Reading,
) -> OfflineAnswer
    requires rest { IsAtRest row.now pass.old }
    requires first { pass.old.knows.id.name ≡ [] }
    requires bases { (base < row.now.about.bases) × (heir < base) × (row.now.about.bases ≤ 64) }
    requires reach { IsEvacuable row.now.about }
    requires room { 2 * budget ≤ S.room sink.old }
    ensures rest { IsAtRest row.now pass.new }
    ensures fits { OfflineFits S.pushed row.now.about base heir reading
        (known_of pass.old.knows) (known_of pass.new.knows) budget result sink.old sink.new }
    ensures locks { LocksGoOnIn pass.old.knows pass.new.knows }
{
    let standing = row.load_standing(pass, base);
    let stamp = standing.stamp;
    if standing.heir.is_some() {
        return OfflineAnswer::AlreadyOffline { stamp };
    }
    let of_heir = row.load_standing(pass, heir);
    if of_heir.heir.is_some() {
        return OfflineAnswer::HeirOffline {
            stamp: of_heir.stamp,
        };
    }
    if stamp >= LAST_STANDING {
        return OfflineAnswer::BaseSpent { stamp };
    }
    evacuate(rt, row, pass, sink, base, heir, reading, budget)
}

/// Takes a base on line again, or says that it is.
pub fn go_online<R: Wait>(rt: &R, row: &BaseRow, pass: &mut Pass, base: u32) -> OnlineAnswer
    requires rest { IsAtRest row.now pass.old }
    requires first { pass.old.knows.id.name ≡ [] }
    requires within { base < row.now.about.bases }
    requires reach { IsEvacuable row.now.about }
    ensures rest { IsAtRest row.now pass.new }
    ensures fits { OnlineFits row.now.about (known_of pass.old.knows) (known_of pass.new.knows) base result }
    ensures locks { LocksGoOnIn pass.old.knows pass.new.knows }
{
    let held = lock(rt, row, pass, base);
    pass.known();
    let standing = row.standing(pass, &held);
    let stamp = standing.stamp;
    if standing.heir.is_some() {
        shift_held(row, pass, held, BaseEvent::Online);
        return OnlineAnswer::Online { stamp: stamp + 1 };
    }
    leave_base(row, pass, held, base);
    OnlineAnswer::AlreadyOnline { stamp }
}

/// Takes a base off line, turn by turn, moving at most so many timers.
fn evacuate<R: Wait, S: ReceiptSink>(
    rt: &R,
    row: &BaseRow,
    pass: &mut Pass,
    sink: &mut S,
    base: u32,
    heir: u32,
    reading: Reading,
    budget: u32,
) -> OfflineAnswer
    requires rest { IsAtRest row.now pass.old }
    requires first { pass.old.knows.id.name ≡ [] }
    requires bases { (base < row.now.about.bases) × (heir < base) × (row.now.about.bases ≤ 64) }
    requires may { MayGoOffline row.now.about base heir (known_of pass.old.knows) }
    requires reach { IsEvacuable row.now.about }
    requires room { 2 * budget ≤ S.room sink.old }
    ensures rest { IsAtRest row.now pass.new }
    ensures ends { Evacuates S.pushed row.now.about base heir reading
        (known_of pass.old.knows) (known_of pass.new.knows) budget result sink.old sink.new }
    ensures locks { LocksGoOnIn pass.old.knows pass.new.knows }
{
    let mut moved = 0;
    loop {
        match take_turn(rt, row, pass, sink, base, heir, reading, moved < budget) {
            Turn::Moved { .. } => moved += 1,
            Turn::Busy { timer, generation } => {
                return OfflineAnswer::Busy {
                    moved,
                    timer,
                    generation,
                };
            }
            Turn::Off { stamp } => return OfflineAnswer::Offline { moved, stamp },
            Turn::Left { .. } => return OfflineAnswer::More { moved },
            Turn::Spent { timer, stamp } => {
                return OfflineAnswer::Spent {
                    moved,
                    timer,
                    stamp,
                };
            }
        }
    }
}

/// One turn of taking a base off line.
fn take_turn<R: Wait, S: ReceiptSink>(
    rt: &R,
    row: &BaseRow,
    pass: &mut Pass,
    sink: &mut S,
    base: u32,
    heir: u32,
    reading: Reading,
    goes_on: bool,
) -> Turn
    requires rest { IsAtRest row.now pass.old }
    requires first { pass.old.knows.id.name ≡ [] }
    requires bases { (base < row.now.about.bases) × (heir < base) × (row.now.about.bases ≤ 64) }
    requires may { MayGoOffline row.now.about base heir (known_of pass.old.knows) }
    requires reach { IsEvacuable row.now.about }
    requires room { goes_on ≡ true → 2 ≤ S.room sink.old }
    ensures rest { IsAtRest row.now pass.new }
    ensures turns { TurnFits S.pushed row.now.about base heir reading
        (known_of pass.old.knows) (known_of pass.new.knows) goes_on result sink.old sink.new }
    ensures locks { LocksGoOnIn pass.old.knows pass.new.knows }
    ensures room { S.room sink.old ≤ S.room sink.new + 2 }
{
    let held = lock(rt, row, pass, base);
    pass.known();
    row.fresh();
    if let Some((timer, generation)) = running(row, pass, &held) {
        leave_base(row, pass, held, base);
        return Turn::Busy { timer, generation };
    }
    match row.front(pass, &held) {
        None => {
            let stamp = row.standing(pass, &held).stamp + 1;
            shift_held(row, pass, held, BaseEvent::Offline { heir });
            Turn::Off { stamp }
        }
        Some(timer) if !goes_on => {
            leave_base(row, pass, held, base);
            Turn::Left { timer }
        }
        Some(timer) => {
            let state = *row.state(pass, &held, timer);
            let stamp = state.stamp();
            if is_spent(&state) {
                leave_base(row, pass, held, base);
                return Turn::Spent { timer, stamp };
            }
            move_one(rt, row, pass, sink, held, timer, &state, heir, reading);
            pass.known();
            Turn::Moved { timer }
        }
    }
}

/// The timer whose function runs on a held base, with its generation: the hard context's, or else the soft one's.
fn running(row: &BaseRow, pass: &Pass, held: &HeldBase) -> Option<(u32, u64)>
    requires row { IsBasePassOf row.now pass.now }
    requires held { pass.now.knows.held ≡ Some held.now }
    ensures busy { IfSome result (λ m. RunsFirstIn held.now.content.content m) }
    ensures idle { IfNone result ((x : Context) → running_in x held.now.content.content ≡ None) }
{
    match held.running(Context::Hard) {
        Some(run) => Some(run),
        None => held.running(Context::Soft),
    }
}

/// Whether a timer has as many entries as its limit and its reach allow.
fn is_spent(timer: &TimerState) -> bool
    ensures spent { result ≡ true → timer.now.terms.limit + timer.now.terms.reach ≤ timer.now.stamp }
    ensures room { result ≡ false → timer.now.stamp < timer.now.terms.limit + timer.now.terms.reach }
{
    timer.stamp() >= timer.limit() && timer.stamp() - timer.limit() >= timer.reach()
}

/// Moves a timer that is armed on the held base to the heir, which is on line, and lets both bases go. Only the first pass does so.
fn move_one<R: Wait, S: ReceiptSink>(
    rt: &R,
    row: &BaseRow,
    pass: &mut Pass,
    sink: &mut S,
    held: HeldBase,
    timer: u32,
    state: &TimerState,
    heir: u32,
    reading: Reading,
)
    requires holds { HoldsTimer row.now pass.old held timer }
    requires first { pass.old.knows.id.name ≡ [] }
    requires state { state.now ≡ timer_seen row.now.about pass.old.knows timer }
    requires within { heir < row.now.about.bases }
    requires needs { Needs state.now (Out heir) }
    requires online { (base_seen row.now.about pass.old.knows heir).standing.heir ≡ None }
    requires room { 2 ≤ S.room sink.old }
    ensures rest { IsAtRest row.now pass.new }
    ensures claims { pass.new.knows.claims ≡ pass.old.knows.claims }
    ensures keeps { KeepsBases (known_of pass.old.knows) (known_of pass.new.knows) }
    ensures adds { AddsBehind pass.old.knows pass.new.knows timer (move_entries state.now heir reading) }
    ensures place { StandsBehind row.now.about (known_of pass.old.knows) (known_of pass.new.knows) timer held }
    ensures logged { IsLogged S.pushed row.now.about timer pass.old.knows.seen (move_entries state.now heir reading) sink.old sink.new }
    ensures locks { LocksGoOnIn pass.old.knows pass.new.knows }
    ensures room { S.room sink.old ≤ S.room sink.new + 2 }
{
    let asked = moving_on(state, heir, reading);
    let moved = send(row, pass, sink, held, timer, heir);
    arrive_first(rt, row, pass, sink, timer, &moved, &asked);
}

/// What the start of a move asks for: the times that the timer was armed for.
fn moving_on(state: &TimerState, heir: u32, reading: Reading) -> Asked
    ensures { result ≡ asked_for Keep state.now.soft (state.now.expires - state.now.soft) heir reading }
{
    state.bounded();
    Asked {
        mode: Mode::Keep,
        ns: state.soft(),
        slack: state.expires() - state.soft(),
        reading,
        base: heir,
    }
}

/// Starts a timer that the first pass carries, on a base that is on line.
fn arrive_first<R: Wait, S: ReceiptSink>(
    rt: &R,
    row: &BaseRow,
    pass: &mut Pass,
    sink: &mut S,
    timer: u32,
    state: &TimerState,
    asked: &Asked,
)
    requires row { IsBasePassOf row.now pass.old }
    requires within { (timer < length row.now.about.timers) × (asked.now.base < row.now.about.bases) }
    requires carries { (pass.old.knows.held ≡ None) × (pass.old.knows.carry ≡ Some timer) }
    requires first { pass.old.knows.id.name ≡ [] }
    requires state { state.now ≡ timer_seen row.now.about pass.old.knows timer }
    requires moving { (state.now.moving ≡ true) × (state.now.base ≡ asked.now.base) }
    requires online { (base_seen row.now.about pass.old.knows asked.now.base).standing.heir ≡ None }
    requires room { 0 < S.room sink.old }
    ensures rest { IsAtRest row.now pass.new }
    ensures claims { pass.new.knows.claims ≡ pass.old.knows.claims }
    ensures keeps { KeepsBases (known_of pass.old.knows) (known_of pass.new.knows) }
    ensures adds { AddsBehind pass.old.knows pass.new.knows timer (entry_by state.now (Start asked.now) ∷ []) }
    ensures logged { IsLogged S.pushed row.now.about timer pass.old.knows.seen
        (entry_by state.now (Start asked.now) ∷ []) sink.old sink.new }
    ensures locks { LocksGoOnIn pass.old.knows pass.new.knows }
    ensures room { S.room sink.old ≤ S.room sink.new + 1 }
{
    let held = lock(rt, row, pass, asked.base);
    pass.known();
    settle(row, pass, sink, held, timer, state, asked);
}

/// Takes a held base off line on which no timer is armed and no function runs, or on line again, and lets it go. Only the first pass does
/// so.
fn shift_held(row: &BaseRow, pass: &mut Pass, held: HeldBase, event: BaseEvent)
    requires holds { HoldsBase row.now pass.old held }
    requires first { pass.old.knows.id.name ≡ [] }
    requires may { MayShift held.base held.content.standing event }
    requires clear { IsClear held.content event }
    requires heir { HasHeirOnLine (base_seen row.now.about pass.old.knows) event }
    requires reach { IsEvacuable row.now.about }
    ensures rest { IsAtRest row.now pass.new }
    ensures shifts { ShiftsBase row.now.about (known_of pass.old.knows) (known_of pass.new.knows) held.base event }
    ensures unused { (heir : ℕ) → event ≡ shifts.Offline heir → IsUnused (timer_seen row.now.about pass.new.knows) held.base }
    ensures locks { LocksGoOnIn pass.old.knows pass.new.knows }
{
    row.fresh();
    pass.known();
    let mut held = held;
    row.shift(pass, &mut held, event);
    unlock_base(row, pass, held);
    pass.known();
}
