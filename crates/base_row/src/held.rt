//! What a caller holds: a pass, and a base whose lock it has.
ghost use Rattle.std.specs.Prelude.{◌≡◌, ◌<◌, length, [], None};
ghost use Rattle.seq_timer.specs.Bases.{IsQueuedAs};
ghost use Rattle.seq_timer.specs.Contents.{front_of, front_on, running_in};
ghost use Rattle.seq_timer.specs.Standings.{standing_after};
ghost use Rattle.seq_timer.specs.Steps.{Needs, reply_to};
ghost use Rattle.seq_timer.specs.Systems.{changed, next_on, shifted};
ghost use Rattle.seq_timer.specs.Tables.{timer_at};
ghost use Rattle.base_row.specs.Plays.{IsResting, KnowsOwn, carried_slots};

use crate::slot::BaseSlot;
use crate::steps::BaseSeat;
use ktime::{ClockId, Reading};
use seq_timer::{BaseEvent, Context, Event, Reply, Standing, TimerState};
use std::marker::Model;

/// The right to call a row, with what its holder knows. It has no bytes and can't be dropped.
pub struct Pass {
    pub(crate) seat: BaseSeat,
}

impl Model for Pass {
    ghost use Rattle.base_row.specs.Plays.{IsResting};
    ghost use Rattle.base_row.specs.Calls.{BasePassOf};

    ghost Value = { BasePassOf };

    ghost view = { λ p. record { row = p.seat.table_id; knows = p.seat.me.0 } };

    ghost invariant = { λ p. IsResting p.seat.me };
}

impl Pass {
    pub(crate) fn into_seat(self) -> BaseSeat
        ensures row { result.table_id ≡ self.row }
        ensures knows { result.me ≡ (self.knows, carried_slots self.knows.held) }
        ensures resting { IsResting result.me }
    {
        let Pass { seat } = self;
        seat
    }

    /// Between calls a pass has seen all that it was told of.
    pub(crate) fn rested(&self)
        ensures { self.now.knows.heard ≡ [] }
    {
        let _seat = &self.seat;
    }

    /// What a pass knows is true.
    pub fn known(&self)
        ensures { KnowsOwn self.now.knows }
    {
        let _seat = &self.seat;
    }

    /// Lets a pass go that holds no base, carries no timer and has no claim, with the places of its entries: no pass answers for it then. What it
    /// knew is true, so where it is the last pass it has made all entries.
    pub fn abandon(self)
        requires idle { (self.knows.held ≡ None) × (self.knows.carry ≡ None) }
        requires unclaimed { self.knows.claims ≡ [] }
        ensures known { KnowsOwn self.knows }
    {
        let seat = self.into_seat();
        drop(seat);
    }
}

/// A base whose lock a pass holds. It can't be dropped.
pub struct HeldBase {
    pub(crate) base: u32,
    pub(crate) word: u64,
    pub(crate) slot: BaseSlot,
}

impl Model for HeldBase {
    ghost use Rattle.std.specs.Prelude.{◌+◌, ◌<◌, ◌^◌};
    ghost use Rattle.seq_timer.specs.Systems.{BaseContent};
    ghost use Rattle.base_row.specs.declared.view.HeldContent.{HeldContent};

    ghost Value = { HeldContent BaseContent };

    ghost view = { λ h. record { base = h.base; word = h.word; content = h.slot } };

    ghost invariant = { λ h. h.word + 1 < 2 ^ 64 };
}

impl HeldBase {
    /// The number of the base.
    pub fn base(&self) -> u32
        ensures { result ≡ self.now.base }
    {
        self.base
    }

    /// The timer that is to expire next on the base at this reading, with its expiry.
    pub fn first(&self, context: Context, reading: Reading) -> Option<(u64, u32)>
        ensures { result ≡ next_on context self.now.content reading }
    {
        self.slot.first(context, reading)
    }

    /// The timer whose function runs on the base, with its generation.
    pub fn running(&self, context: Context) -> Option<(u32, u64)>
        ensures { result ≡ running_in context self.now.content.content }
    {
        self.slot.running(context)
    }

    /// The first timer of the first queue that isn't empty, with its expiry.
    pub fn front(&self) -> Option<(u64, u32)>
        ensures { result ≡ front_of self.now.content.content }
    {
        self.slot.front()
    }

    /// The first timer of this context's queue for a clock, with its expiry, due or not.
    pub fn front_on(&self, context: Context, clock: ClockId) -> Option<(u64, u32)>
        ensures { result ≡ front_on context clock self.now.content.content }
    {
        self.slot.front_on(context, clock)
    }

    /// Whether the base is on line.
    pub fn standing(&self) -> Standing
        ensures { result ≡ self.now.content.standing }
    {
        self.slot.standing()
    }

    /// A timer as it was when it was last on the base.
    pub fn state(&self, timer: u32) -> &TimerState
        requires { timer < length self.now.content.states }
        ensures { result.now ≡ timer_at self.now.content.states timer }
    {
        self.slot.state(timer)
    }

    /// Makes one entry of a timer that is on the base.
    #[inline(always)]
    pub(crate) fn apply(&mut self, timer: u32, event: &Event) -> Reply
        requires below { timer < length self.old.content.states }
        requires needs { Needs (timer_at self.old.content.states timer) event.now }
        requires queued { IsQueuedAs timer (timer_at self.old.content.states timer) self.old.content.content }
        ensures held { self.new ≡ record self.old { content = changed timer (timer_at self.old.content.states timer) event.now self.old.content } }
        ensures reply { result ≡ reply_to (timer_at self.old.content.states timer) event.now }
    {
        self.slot.apply(timer, event)
    }

    /// Takes the base off line, or on line again.
    pub(crate) fn shift(&mut self, now: Standing, event: &BaseEvent)
        requires { now ≡ standing_after self.old.content.standing event.now }
        ensures { self.new ≡ record self.old { content = shifted event.now self.old.content } }
    {
        self.slot.shift(now, event);
    }

    /// Makes one entry of a timer that comes to the base in this state.
    pub(crate) fn arrive(&mut self, timer: u32, state: &TimerState, event: &Event) -> Reply
        requires below { timer < length self.old.content.states }
        requires needs { Needs state.now event.now }
        requires queued { IsQueuedAs timer state.now self.old.content.content }
        ensures held { self.new ≡ record self.old { content = changed timer state.now event.now self.old.content } }
        ensures reply { result ≡ reply_to state.now event.now }
    {
        self.slot.arrive(timer, state, event)
    }
}
