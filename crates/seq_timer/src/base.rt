//! A base: for each context the queues of the timers that are armed on it, and the timer whose function runs there.
ghost use Rattle.std.specs.Prelude.{◌≡◌, ◌<◌, ◌≤◌, ℕ, [], IfOk, get_or, length};
ghost use Rattle.seq_timer.specs.Bases.{BaseState, IsAbsent, IsQueuedAs, IsQueuedIn, IsQueuedOn, base_after, content_from, empty_base, in_half, queue_index};
ghost use Rattle.seq_timer.specs.Contents.{first_due, front_of, front_on, half_of, running_in};
ghost use Rattle.seq_timer.specs.Halves.{dequeued, enqueued, front_in, queued_by, reached, requeued, run_by, with_running};
ghost use Rattle.seq_timer.specs.Steps.{Needs, after, reply_to};
ghost use Rattle.seq_timer.specs.Tables.{timer_at};

use crate::context::Context;
use crate::effect::{QueueEffect, RunEffect};
use crate::event::{Event, Reply};
use crate::timer_state::TimerState;
use ktime::{ClockId, Reading};
use std::alloc::{AllocError, Global};
use std::marker::Model;
use timer_queue::{Queue, SixQueues};

/// One base: for each context a queue of timers for each clock, and the timer whose function runs there, with its generation.
#[derive(Drop)]
pub struct Base<Q: Queue> {
    queues: Q::Six,
    hard: Option<(u32, u64)>,
    soft: Option<(u32, u64)>,
}

impl<Q: Queue> Model for Base<Q> {
    ghost use Rattle.std.specs.Prelude.{◌≡◌, length};
    ghost use Rattle.seq_timer.specs.Bases.{BaseState, content_from};

    ghost Value = { BaseState };

    ghost view = { λ b. record { content = content_from (Q.Six.queues b.queues) b.hard b.soft; room = Q.Six.bound b.queues } };

    ghost invariant = { λ b. length (Q.Six.queues b.queues) ≡ 6 };
}

impl<Q: Queue + Drop> Base<Q> {
    /// A base that no timer is on, with room for so many.
    pub fn make(alloc: Global, room: u32) -> Result<Base<Q>, AllocError>
        ensures { IfOk result (λ b. b ≡ empty_base room) }
    {
        let queues = Q::Six::make(alloc, room)?;
        Ok(Base {
            queues,
            hard: None,
            soft: None,
        })
    }
}

impl<Q: Queue> Base<Q> {
    /// The timer whose function runs here in this context, with its generation.
    pub fn running(&self, context: Context) -> Option<(u32, u64)>
        ensures { result ≡ running_in context self.now.content }
    {
        match context {
            Context::Hard => self.hard,
            Context::Soft => self.soft,
        }
    }

    /// The timer of this context that is to expire next at this reading, with its expiry. `timers` are the states of all timers.
    pub fn first(
        &self,
        context: Context,
        timers: &[TimerState],
        reading: Reading,
    ) -> Option<(u64, u32)>
        requires room { self.now.room ≤ length timers.now }
        ensures { result ≡ first_due context (timer_at timers.now) self.now.content reading }
    {
        let queue = queue_index(context, ClockId::Monotonic);
        let first = due(&self.queues, queue, timers, reading.mono);
        let queue = queue_index(context, ClockId::Realtime);
        let second = due(&self.queues, queue, timers, reading.real);
        let queue = queue_index(context, ClockId::Boottime);
        let third = due(&self.queues, queue, timers, reading.boot);
        first.or(second.or(third))
    }

    /// The timer that an evacuation moves next, with its expiry: the first of the first queue that isn't empty. The hard context's queues stand
    /// before the soft one's.
    pub fn front(&self) -> Option<(u64, u32)>
        ensures { result ≡ front_of self.now.content }
    {
        let hard = self.front_in(Context::Hard);
        hard.or(self.front_in(Context::Soft))
    }

    /// The first timer of the first queue of a context that isn't empty.
    fn front_in(&self, context: Context) -> Option<(u64, u32)>
        ensures { result ≡ front_in (half_of context self.now.content) }
    {
        let first = self.front_on(context, ClockId::Monotonic);
        let second = self.front_on(context, ClockId::Realtime);
        let third = self.front_on(context, ClockId::Boottime);
        first.or(second.or(third))
    }

    /// The first timer of this context's queue for a clock, with its expiry, due or not.
    pub fn front_on(&self, context: Context, clock: ClockId) -> Option<(u64, u32)>
        ensures { result ≡ front_on context clock self.now.content }
    {
        self.queues.first(queue_index(context, clock))
    }

    /// Makes one entry of a timer that is on this base: steps the timer, and the base with it.
    #[inline(always)]
    pub fn apply(&mut self, id: u32, timer: &mut TimerState, event: &Event) -> Reply
        requires needs { Needs timer.old event.now }
        requires queued { IsQueuedAs id timer.old self.old.content }
        requires below { id < self.old.room }
        ensures base { self.new ≡ base_after id timer.old event.now self.old }
        ensures timer { timer.new ≡ after timer.old event.now }
        ensures reply { result ≡ reply_to timer.old event.now }
    {
        let context = timer.declared().context;
        let (armed, clock) = (timer.armed(), timer.clock());
        let (reply, effect) = timer.step(event);
        self.queue_by(effect.queue, id, context, armed, clock, timer);
        self.run_by(effect.function, id, context, armed);
        reply
    }

    /// Takes a timer off its queue, or puts it anew where its state now says, as an event has it.
    #[inline]
    fn queue_by(
        &mut self,
        effect: QueueEffect,
        id: u32,
        context: Context,
        armed: Option<u64>,
        clock: ClockId,
        now: &TimerState,
    )
        requires queued { IsQueuedOn id context armed clock self.old.content }
        requires below { id < self.old.room }
        ensures { self.new ≡ in_half context (queued_by effect id now.now) self.old }
    {
        match effect {
            QueueEffect::Stays => {}
            QueueEffect::Leaves => self.dequeue(id, context, armed, clock),
            QueueEffect::Armed => self.requeue(id, context, armed, clock, now),
        }
    }

    /// Notes that a timer's function begins here or ends, as an event has it.
    #[inline]
    fn run_by(&mut self, effect: RunEffect, id: u32, context: Context, armed: Option<u64>)
        ensures { self.new ≡ in_half context (run_by effect id armed) self.old }
    {
        match effect {
            RunEffect::Stays => {}
            RunEffect::Begins { .. } => self.note(context, Some((id, armed.unwrap_or(0)))),
            RunEffect::Ends => self.note(context, None),
        }
    }

    /// Notes what runs here in a context.
    fn note(&mut self, context: Context, running: Option<(u32, u64)>)
        ensures { self.new ≡ in_half context (with_running running) self.old }
    {
        match context {
            Context::Hard => self.hard = running,
            Context::Soft => self.soft = running,
        }
    }

    /// Takes a timer off its queue, if it is in one, and puts it where its state now says.
    fn requeue(
        &mut self,
        id: u32,
        context: Context,
        armed: Option<u64>,
        clock: ClockId,
        now: &TimerState,
    )
        requires queued { IsQueuedOn id context armed clock self.old.content }
        requires below { id < self.old.room }
        ensures { self.new ≡ in_half context (requeued id now.now) self.old }
    {
        self.dequeue(id, context, armed, clock);
        self.enqueue(id, context, now.clock(), now.expires());
    }

    /// Takes a timer off its queue, if it is in one.
    fn dequeue(&mut self, id: u32, context: Context, armed: Option<u64>, clock: ClockId)
        requires queued { IsQueuedIn id armed clock (half_of context self.old.content) }
        ensures { self.new ≡ in_half context (dequeued id) self.old }
    {
        if armed.is_none() {
            return;
        }
        self.queues.erase(queue_index(context, clock), id);
    }

    /// Puts a timer on a queue.
    fn enqueue(&mut self, id: u32, context: Context, clock: ClockId, expires: u64)
        requires absent { IsAbsent id self.old.content }
        requires below { id < self.old.room }
        ensures { self.new ≡ in_half context (enqueued clock expires id) self.old }
    {
        self.queues.add(queue_index(context, clock), expires, id);
    }
}

/// The number of a context's queue for a clock.
#[inline]
fn queue_index(context: Context, clock: ClockId) -> u32
    ensures number { result ≡ queue_index context clock }
    ensures below { result < 6 }
{
    let first = match context {
        Context::Hard => 0,
        Context::Soft => 3,
    };
    match clock {
        ClockId::Monotonic => first,
        ClockId::Realtime => first + 1,
        ClockId::Boottime => first + 2,
    }
}

/// The first timer of a queue, where its soft expiry is reached.
fn due<S: SixQueues>(queues: &S, queue: u32, timers: &[TimerState], now: u64) -> Option<(u64, u32)>
    requires queue { queue < 6 }
    requires room { S.bound queues.now ≤ length timers.now }
    ensures { result ≡ reached (timer_at timers.now) now (get_or (S.queues queues.now) queue []) }
{
    let first = queues.first(queue)?;
    let timer = timers[first.1 as usize];
    if timer.soft() <= now {
        Some(first)
    } else {
        None
    }
}
