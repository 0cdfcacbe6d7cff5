//! One timer as a state that events step.
ghost use Rattle.std.specs.Prelude.{◌≡◌, ◌≤◌, ◌<◌, ◌⊎◌, ◌+◌, ◌*◌, IfOk, IsSome, IsNone, None, unwrap_or, length, true};
ghost use Rattle.ktime.specs.Times.{sat, step_of};
ghost use Rattle.seq_timer.specs.declared.event.EventBy.TheVariants as events;
ghost use Rattle.seq_timer.specs.declared.event.Reply.TheVariants as replies;
ghost use Rattle.seq_timer.specs.Effects.{effect, restart_effect};
ghost use Rattle.seq_timer.specs.Histories.{peek_of};
ghost use Rattle.seq_timer.specs.Steps.{Timer, HasRoom, IsBounded, Needs, after, placement_of, finish_reply, finished, forward_reply, forwarded, opening, reply_to, start_reply, started};
ghost use Rattle.seq_timer.specs.Systems.{openings};

use crate::context::{Declared, Terms};
use crate::effect::{Effect, QueueEffect, RunEffect};
use crate::event::{Asked, Event, Moved, Placement, Reply, Restarted};
use crate::observation::Peek;
use ktime::{ClockId, Forwarded, LAST_TIME, Mode, Reading, effective, forward, sat_add};
use std::alloc::{AllocError, Global};
use std::marker::Model;

/// One timer, by itself: no queue, no lock.
#[derive(Clone, Copy, Debug)]
pub struct TimerState {
    declared: Declared,
    placement: Placement,
    armed: Option<u64>,
    running: Option<u64>,
    moving: bool,
    stamp: u64,
    terms: Terms,
}

impl Model for TimerState {
    ghost Value = { Timer };

    ghost view = { λ t. record { declared = t.declared; clock = t.placement.clock; base = t.placement.base; soft = t.placement.soft; expires = t.placement.expires; armed = t.armed; running = t.running; moving = t.moving; stamp = t.stamp; terms = t.terms } };

    ghost invariant = { λ t. IsBounded (record { declared = t.declared; clock = t.placement.clock; base = t.placement.base; soft = t.placement.soft; expires = t.placement.expires; armed = t.armed; running = t.running; moving = t.moving; stamp = t.stamp; terms = t.terms }) };

    ghost inverse = { λ v. record { declared = v.declared; placement = record { base = v.base; clock = v.clock; soft = v.soft; expires = v.expires }; armed = v.armed; running = v.running; moving = v.moving; stamp = v.stamp; terms = v.terms } };
}

impl TimerState {
    /// A timer of which nothing has happened yet.
    pub fn make(declared: Declared, terms: Terms) -> TimerState
        requires some { 0 < terms.limit }
        requires room { HasRoom terms }
        ensures { result ≡ opening declared terms }
    {
        TimerState {
            declared,
            placement: Placement {
                base: 0,
                clock: declared.clock,
                soft: 0,
                expires: 0,
            },
            armed: None,
            running: None,
            moving: false,
            stamp: 0,
            terms,
        }
    }

    /// The clock and the context that the timer was declared with.
    pub fn declared(&self) -> Declared
        ensures { result ≡ self.now.declared }
    {
        self.declared
    }

    /// The clock that the timer is kept on.
    pub fn clock(&self) -> ClockId
        ensures { result ≡ self.now.clock }
    {
        self.placement.clock
    }

    /// The base that the timer is on, or moves to.
    pub fn base(&self) -> u32
        ensures { result ≡ self.now.base }
    {
        self.placement.base
    }

    /// The soft expiry in nanoseconds of the clock that the timer is kept on: from then on the timer may be claimed.
    pub fn soft(&self) -> u64
        ensures { result ≡ self.now.soft }
    {
        self.placement.soft
    }

    /// The expiry in nanoseconds of the clock that the timer is kept on: by it the timer is queued.
    pub fn expires(&self) -> u64
        ensures { result ≡ self.now.expires }
    {
        self.placement.expires
    }

    /// How the timer is kept.
    pub fn placement(&self) -> Placement
        ensures { result ≡ placement_of self.now }
    {
        self.placement
    }

    /// The generation that is armed.
    pub fn armed(&self) -> Option<u64>
        ensures { result ≡ self.now.armed }
    {
        self.armed
    }

    /// The generation whose function is running.
    pub fn running(&self) -> Option<u64>
        ensures { result ≡ self.now.running }
    {
        self.running
    }

    /// Whether the timer is on the move between two bases.
    pub fn is_moving(&self) -> bool
        ensures { result ≡ self.now.moving }
    {
        self.moving
    }

    /// How many entries the timer's history has.
    pub fn stamp(&self) -> u64
        ensures { result ≡ self.now.stamp }
    {
        self.stamp
    }

    /// The limit on entries.
    pub fn limit(&self) -> u64
        ensures { result ≡ self.now.terms.limit }
    {
        self.terms.limit
    }

    /// How many entries past the limit an evacuation may make; 0 where there are no evacuations.
    pub fn reach(&self) -> u64
        ensures { result ≡ self.now.terms.reach }
    {
        self.terms.reach
    }

    /// What holds of a timer at all times.
    pub fn bounded(&self)
        ensures { IsBounded self.now }
    {
        let _stamp = self.stamp;
    }

    /// The state word, taken apart.
    pub fn peek(&self) -> Peek
        ensures { result ≡ peek_of self.now }
    {
        Peek {
            stamp: self.stamp,
            base: self.placement.base,
            enqueued: self.armed.is_some(),
            running: self.running.is_some(),
            moving: self.moving,
        }
    }

    /// Makes one entry: steps the timer by this event.
    pub fn apply(&mut self, event: Event) -> Reply
        requires allowed { Needs self.old event }
        ensures state { self.new ≡ after self.old event }
        ensures reply { result ≡ reply_to self.old event }
    {
        let (reply, _) = self.step(&event);
        reply
    }

    /// The same, and tells what the event does.
    #[inline(always)]
    pub(crate) fn step(&mut self, event: &Event) -> (Reply, Effect)
        requires allowed { Needs self.old event.now }
        ensures state { self.new ≡ after self.old event.now }
        ensures reply { result.0 ≡ reply_to self.old event.now }
        ensures effect { result.1 ≡ effect self.old event.now }
    {
        match *event {
            Event::Out { base } => (self.out(base), Effect::sends(base)),
            Event::Start(asked) => (self.start(&asked), Effect::queue(QueueEffect::Armed)),
            Event::Cancel => (self.cancel(), Effect::queue(QueueEffect::Leaves)),
            Event::Claim { reading, .. } => (self.claim(), Effect::begins(reading)),
            Event::Forward { reading, interval } => {
                let by = Effect::by_claimer(QueueEffect::Stays, RunEffect::Stays);
                (self.forward(reading, interval), by)
            }
            Event::Finish { restart } => {
                let (reply, queue) = self.finish(restart);
                (reply, Effect::by_claimer(queue, RunEffect::Ends))
            }
        }
    }

    /// Sends the timer to a base, and answers for the move.
    fn out(&mut self, base: u32) -> Reply
        requires allowed { Needs self.old (events.Out base) }
        ensures state { self.new ≡ after self.old (events.Out base) }
        ensures reply { result ≡ reply_to self.old (events.Out base) }
    {
        let was_armed = self.armed.is_some();
        self.placement.base = base;
        self.armed = None;
        self.moving = true;
        self.stamp += 1;
        Reply::Out { was_armed }
    }

    /// Disarms the timer, and answers for the cancel.
    fn cancel(&mut self) -> Reply
        requires allowed { Needs self.old events.Cancel }
        ensures state { self.new ≡ after self.old events.Cancel }
        ensures reply { result ≡ reply_to self.old events.Cancel }
    {
        let generation = self.armed.unwrap_or(0);
        self.armed = None;
        self.stamp += 1;
        Reply::Cancel { generation }
    }

    /// Begins the run of the armed generation's function, and answers for the claim.
    fn claim(&mut self) -> Reply
        requires armed { IsSome self.old.armed }
        requires idle { IsNone self.old.running }
        ensures state { self.new ≡ record self.old { armed = None; running = self.old.armed; stamp = self.old.stamp + 1 } }
        ensures reply { result ≡ replies.Claim (unwrap_or self.old.armed 0) }
    {
        let generation = self.armed.unwrap_or(0);
        self.running = self.armed;
        self.armed = None;
        self.stamp += 1;
        Reply::Claim { generation }
    }

    /// Arms the timer, and answers for the start.
    fn start(&mut self, asked: &Asked) -> Reply
        requires room { (self.old.stamp < self.old.terms.limit) ⊎ (self.old.moving ≡ true) }
        ensures state { self.new ≡ started self.old asked.now }
        ensures reply { result ≡ start_reply self.old asked.now }
    {
        let number = self.stamp + 1;
        let was_armed = self.armed.is_some();
        let clock = effective(self.declared.clock, asked.mode, self.placement.clock);
        let soft = match asked.mode {
            Mode::Abs | Mode::Keep => asked.ns.min(LAST_TIME),
            Mode::Rel => sat_add(asked.reading.value(clock), asked.ns),
        };
        let expires = sat_add(soft, asked.slack);
        self.placement.clock = clock;
        self.placement.soft = soft;
        self.placement.expires = expires;
        self.armed = Some(number);
        self.moving = false;
        self.stamp = number;
        Reply::Start {
            placement: self.placement(),
            was_armed,
        }
    }

    /// Moves both expiries, and answers for the forward.
    fn forward(&mut self, reading: Reading, interval: u64) -> Reply
        requires room { self.old.stamp < self.old.terms.limit }
        requires running { IsSome self.old.running }
        ensures state { self.new ≡ forwarded self.old reading interval }
        ensures reply { result ≡ forward_reply self.old reading interval }
    {
        let now = reading.value(self.placement.clock);
        let Forwarded { count, expires } = forward(self.placement.expires, now, interval);
        let soft = later(self.placement.soft, count, interval);
        self.placement.soft = soft;
        self.placement.expires = expires;
        self.stamp += 1;
        let moved = Moved {
            count,
            soft,
            expires,
        };
        Reply::Forward { moved }
    }

    /// Ends the run of the timer's function, and answers for the finish and what it does in the queue.
    fn finish(&mut self, restart: bool) -> (Reply, QueueEffect)
        requires running { IsSome self.old.running }
        ensures state { self.new ≡ finished self.old restart }
        ensures reply { result.0 ≡ finish_reply self.old restart }
        ensures queue { result.1 ≡ restart_effect self.old restart }
    {
        let generation = self.running.unwrap_or(0);
        let number = self.stamp + 1;
        let restarted = if !restart || self.armed.is_some() {
            Restarted::No
        } else if self.stamp < self.terms.limit {
            Restarted::Again { generation: number }
        } else {
            Restarted::Spent
        };
        let queue = if let Restarted::Again { generation } = restarted {
            self.armed = Some(generation);
            QueueEffect::Armed
        } else {
            QueueEffect::Stays
        };
        self.running = None;
        self.stamp = number;
        let reply = Reply::Finish {
            generation,
            restarted,
        };
        (reply, queue)
    }
}

/// Timers of which nothing has happened yet.
pub fn make_timers(
    alloc: Global,
    declareds: &[Declared],
    terms: Terms,
) -> Result<Vec<TimerState>, AllocError>
    requires some { 0 < terms.limit }
    requires room { HasRoom terms }
    ensures timers { IfOk result (λ v. v.items ≡ openings declareds.now terms) }
    ensures len { IfOk result (λ v. length v.items ≡ length declareds.now) }
{
    let mut timers = Vec::with_capacity(alloc, declareds.len())?;
    for declared in declareds {
        timers.push(TimerState::make(*declared, terms))?;
    }
    Ok(timers)
}

/// A time so many intervals later, stopped at the end of time.
fn later(at: u64, count: u64, interval: u64) -> u64
    ensures { result ≡ sat (at + count * step_of interval) }
{
    sat_add(at, count.saturating_mul(interval.max(1)))
}
