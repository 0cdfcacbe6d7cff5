//! What a base's slot has.
ghost use Rattle.std.specs.Prelude.{◌≡◌, ◌<◌, ◌^◌, length, IfOk};
ghost use Rattle.seq_timer.specs.Steps.{Needs, reply_to};
ghost use Rattle.seq_timer.specs.Standings.{standing_after};
ghost use Rattle.seq_timer.specs.Tables.{timer_at};
ghost use Rattle.seq_timer.specs.Contents.{front_of, front_on, running_in};
ghost use Rattle.seq_timer.specs.Bases.{IsQueuedAs};
ghost use Rattle.seq_timer.specs.Systems.{changed, next_on, no_base, shifted};

use ktime::{ClockId, Reading};
use seq_timer::{Base, BaseEvent, Context, Event, Reply, Standing, TimerState};
use std::alloc::{AllocError, Global};
use std::marker::Model;
use timer_tree::TimerTree;

/// What a base has. The words behind it keep bases apart.
#[derive(Drop)]
struct Parts {
    base: Base<TimerTree>,
    states: Vec<TimerState>,
    standing: Standing,
    apart: [u64; 16],
}

/// A base's queues with what runs there, and each timer as it was when it was last there.
#[derive(Drop)]
pub struct BaseSlot {
    parts: Box<Parts>,
}

impl Model for BaseSlot {
    ghost use Rattle.std.specs.Prelude.{◌≡◌, length};
    ghost use Rattle.seq_timer.specs.Systems.{BaseContent};

    ghost Value = { BaseContent };

    ghost view = { λ s. record { content = s.parts.value.base.content; states = s.parts.value.states.items; standing = s.parts.value.standing } };

    ghost invariant = { λ s. s.parts.value.base.room ≡ length s.parts.value.states.items };
}

impl BaseSlot {
    /// A base that has these timers' first states, and no timer in its queues.
    pub fn make(alloc: Global, timers: &[TimerState]) -> Result<BaseSlot, AllocError>
        requires few { length timers.now < 2 ^ 32 }
        ensures { IfOk result (λ s. s ≡ no_base timers.now) }
    {
        let mut states = Vec::new(alloc);
        states.extend_from_slice(timers)?;
        BaseSlot::of(alloc, states)
    }

    /// The same, with this list of them.
    pub(crate) fn of(alloc: Global, states: Vec<TimerState>) -> Result<BaseSlot, AllocError>
        requires few { length states.items < 2 ^ 32 }
        ensures { IfOk result (λ s. s ≡ no_base states.items) }
    {
        let base = Base::make(alloc, states.len() as u32)?;
        let parts = Parts {
            base,
            states,
            standing: Standing {
                stamp: 0,
                heir: None,
            },
            apart: [0; 16],
        };
        let parts = Box::new(alloc, parts)?;
        Ok(BaseSlot { parts })
    }

    /// A timer as it was when it was last there.
    pub fn state(&self, timer: u32) -> &TimerState
        requires { timer < length self.now.states }
        ensures { result.now ≡ timer_at self.now.states timer }
    {
        &self.parts.states[timer as usize]
    }

    /// The timer whose function runs here in this context, with its generation.
    pub fn running(&self, context: Context) -> Option<(u32, u64)>
        ensures { result ≡ running_in context self.now.content }
    {
        self.parts.base.running(context)
    }

    /// The timer of this context that is to expire next at this reading.
    pub fn first(&self, context: Context, reading: Reading) -> Option<(u64, u32)>
        ensures { result ≡ next_on context self.now reading }
    {
        let parts = &*self.parts;
        parts.base.first(context, &parts.states, reading)
    }

    /// The first timer of the first queue that isn't empty.
    pub fn front(&self) -> Option<(u64, u32)>
        ensures { result ≡ front_of self.now.content }
    {
        self.parts.base.front()
    }

    /// The first timer of this context's queue for a clock, due or not.
    pub fn front_on(&self, context: Context, clock: ClockId) -> Option<(u64, u32)>
        ensures { result ≡ front_on context clock self.now.content }
    {
        self.parts.base.front_on(context, clock)
    }

    /// Whether the base is on line.
    pub fn standing(&self) -> Standing
        ensures { result ≡ self.now.standing }
    {
        self.parts.standing
    }

    /// Takes the base off line, or on line again.
    pub fn shift(&mut self, now: Standing, event: &BaseEvent)
        requires { now ≡ standing_after self.old.standing event.now }
        ensures { self.new ≡ shifted event.now self.old }
    {
        self.parts.standing = now;
    }

    /// Makes one entry of a timer that is on this base.
    #[inline(always)]
    pub fn apply(&mut self, timer: u32, event: &Event) -> Reply
        requires below { timer < length self.old.states }
        requires needs { Needs (timer_at self.old.states timer) event.now }
        requires queued { IsQueuedAs timer (timer_at self.old.states timer) self.old.content }
        ensures slot { self.new ≡ changed timer (timer_at self.old.states timer) event.now self.old }
        ensures reply { result ≡ reply_to (timer_at self.old.states timer) event.now }
    {
        let parts = &mut *self.parts;
        let state = &mut parts.states[timer as usize];
        parts.base.apply(timer, state, event)
    }

    /// Makes one entry of a timer that comes to this base in this state.
    pub fn arrive(&mut self, timer: u32, state: &TimerState, event: &Event) -> Reply
        requires below { timer < length self.old.states }
        requires needs { Needs state.now event.now }
        requires queued { IsQueuedAs timer state.now self.old.content }
        ensures slot { self.new ≡ changed timer state.now event.now self.old }
        ensures reply { result ≡ reply_to state.now event.now }
    {
        let parts = &mut *self.parts;
        let mut state = *state;
        let reply = parts.base.apply(timer, &mut state, event);
        parts.states[timer as usize] = state;
        reply
    }
}
