//! All timers and bases: what is kept of them, and the one way in which it changes.
ghost use Rattle.std.specs.Prelude.{◌≡◌, ◌<◌, ◌≤◌, ℕ, IfOk, IfSome, IfNone, Some, [], ◌∷◌, false, length, map, replicate};
ghost use Rattle.seq_timer.specs.Bases.{empty_base};
ghost use Rattle.seq_timer.specs.Contents.{first_due, running_in};
ghost use Rattle.seq_timer.specs.Halves.{running_on};
ghost use Rattle.ktime.specs.declared.clock_id.ClockId.{ClockId};
ghost use Rattle.seq_timer.specs.Histories.{peek_of};
ghost use Rattle.seq_timer.specs.Steps.{Needs, after, greatest_limit, limited, reply_to};
ghost use Rattle.seq_timer.specs.Tables.{IsNextDue, IsStopped, hard_on, in_context, runs_on, timer_at};
ghost use Rattle.seq_timer.specs.declared.event.EventBy.TheVariants as events;
ghost use Rattle.seq_timer.specs.Calls.{step_all};
ghost use Rattle.timer_core.specs.Kept.{Agrees, AreAllowed, IsConsistent, IsSameSize, Kept, Makes, Permits, after_event, content_at, opened, timer_in};

use ktime::{ClockId, Reading};
use seq_timer::{
    Base, Context, Declared, Event, Peek, Reply, Terms, TimerState, all_hard, make_timers,
};
use std::alloc::{AllocError, Global};
use std::marker::Model;
use timer_queue::Queue;

/// All timers and bases. Contracts see them as two lists.
#[derive(Drop)]
pub struct Core<Q: Queue> {
    pub(crate) timers: Vec<TimerState>,
    pub(crate) bases: Vec<Base<Q>>,
}

impl<Q: Queue> Model for Core<Q> {
    ghost Value = { Kept };

    ghost view = { λ c. record { timers = c.timers.items; bases = c.bases.items } };

    ghost invariant = { λ c. IsConsistent (record { timers = c.timers.items; bases = c.bases.items }) };
}

impl<Q: Queue + Drop> Core<Q> {
    /// So many bases, 1 to 64, and timers of the hard context, each declared on its clock, as many as a `u32` counts. At `max_events` entries a
    /// timer takes no start, no forward and no restart any more.
    pub fn make(
        alloc: Global,
        bases: u32,
        clocks: &[ClockId],
        max_events: u64,
    ) -> Result<Core<Q>, AllocError>
        requires bases { (1 ≤ bases) × (bases ≤ 64) }
        requires timers { length clocks.now ≤ 4294967295 }
        requires limit { (0 < max_events) × (max_events ≤ greatest_limit) }
        ensures { IfOk result (λ c. c ≡ opened bases (map hard_on clocks.now) (limited max_events)) }
    {
        let timers = all_hard(alloc, clocks)?;
        Core::make_full(alloc, bases, &timers, max_events)
    }

    /// The same, with timers of both contexts.
    pub fn make_full(
        alloc: Global,
        bases: u32,
        timers: &[Declared],
        max_events: u64,
    ) -> Result<Core<Q>, AllocError>
        requires bases { (1 ≤ bases) × (bases ≤ 64) }
        requires timers { length timers.now ≤ 4294967295 }
        requires limit { (0 < max_events) × (max_events ≤ greatest_limit) }
        ensures { IfOk result (λ c. c ≡ opened bases timers.now (limited max_events)) }
    {
        let bases = make_bases(alloc, bases, timers.len() as u32)?;
        let timers = make_timers(alloc, timers, Terms::limited(max_events))?;
        Ok(Core { timers, bases })
    }
}

/// So many bases without timers, each with this room.
fn make_bases<Q: Queue + Drop>(
    alloc: Global,
    count: u32,
    room: u32,
) -> Result<Vec<Base<Q>>, AllocError>
    ensures { IfOk result (λ v. v.items ≡ replicate count (empty_base room)) }
{
    let mut bases = Vec::with_capacity(alloc, count as usize)?;
    for _ in 0..count {
        bases.push(Base::make(alloc, room)?)?;
    }
    Ok(bases)
}

impl<Q: Queue> Core<Q> {
    /// Before and after each call the bases agree with the timers.
    pub fn agree(&self)
        ensures { IsConsistent self.now }
    {
        let _ = &self.timers;
    }

    /// The state of a timer.
    pub fn state(&self, id: u32) -> TimerState
        requires { id < length self.now.timers }
        ensures state { result ≡ timer_in self.now id }
        ensures still { result.moving ≡ false }
        ensures placed { result.base < length self.now.bases }
        ensures few { length self.now.bases ≤ 64 }
    {
        self.timers[id as usize]
    }

    /// The state word of a timer, taken apart.
    pub fn peek(&self, id: u32) -> Peek
        requires { id < length self.now.timers }
        ensures { result ≡ peek_of (timer_in self.now id) }
    {
        self.state(id).peek()
    }

    /// The timer whose function runs on a base, with its generation.
    pub fn running(&self, context: Context, base: u32) -> Option<(u32, u64)>
        requires { base < length self.now.bases }
        ensures running { result ≡ running_in context (content_at self.now base) }
        ensures busy { IfSome result (λ r. running_on base (in_context context (timer_in self.now) r.0) ≡ Some r.1) }
        ensures idle { IfNone result ((id : ℕ) → runs_on base (in_context context (timer_in self.now) id) ≡ false) }
    {
        let here = &self.bases[base as usize];
        here.running(context)
    }

    /// The timer that is the next to expire on a base at this reading, with its expiry: of the clocks in their order, the first whose first
    /// timer is due.
    pub fn first(&self, context: Context, base: u32, reading: Reading) -> Option<(u64, u32)>
        requires { base < length self.now.bases }
        ensures first { result ≡ first_due context (timer_in self.now) (content_at self.now base) reading }
        ensures within { IfSome result (λ p. p.1 < length self.now.timers) }
        ensures own { IfSome result (λ p. timer_in self.now p.1 ≡ in_context context (timer_in self.now) p.1) }
        ensures next { IfSome result (λ p. IsNextDue (in_context context (timer_in self.now)) base reading p.1) }
        ensures expires { IfSome result (λ p. p.0 ≡ (timer_in self.now p.1).expires) }
        ensures none { IfNone result ((clock : ClockId) → IsStopped (in_context context (timer_in self.now)) base reading clock) }
    {
        let here = &self.bases[base as usize];
        here.first(context, &self.timers, reading)
    }

    /// Makes one entry of a timer that stays where it is.
    pub(crate) fn step(&mut self, id: u32, event: Event) -> Reply
        requires timer { id < length self.old.timers }
        requires needs { Needs (timer_in self.old id) event }
        requires permits { Permits self.old id event }
        requires still { (after (timer_in self.old id) event).moving ≡ false }
        ensures makes { Makes self.old id (event ∷ []) self.new }
        ensures reply { result ≡ reply_to (timer_in self.old id) event }
        ensures sizes { IsSameSize self.old self.new }
    {
        enter(&mut self.timers, &mut self.bases, id, event)
    }

    /// Moves a timer to another base, and makes an entry there that ends the move.
    pub(crate) fn move_and_step(&mut self, id: u32, base: u32, event: Event)
        requires timer { id < length self.old.timers }
        requires base { base < length self.old.bases }
        requires allowed { AreAllowed (timer_in self.old id) (events.Out base ∷ event ∷ []) }
        requires still { (step_all (timer_in self.old id) (events.Out base ∷ event ∷ [])).moving ≡ false }
        ensures makes { Makes self.old id (events.Out base ∷ event ∷ []) self.new }
        ensures sizes { IsSameSize self.old self.new }
    {
        enter(&mut self.timers, &mut self.bases, id, Event::Out { base });
        enter(&mut self.timers, &mut self.bases, id, event);
    }
}

/// Makes one entry of a timer: steps it, and the base that it is on before.
fn enter<Q: Queue>(
    timers: &mut Vec<TimerState>,
    bases: &mut Vec<Base<Q>>,
    id: u32,
    event: Event,
) -> Reply
    requires agree { Agrees (record { timers = timers.old.items; bases = bases.old.items }) }
    requires timer { id < length timers.old.items }
    requires needs { Needs (timer_at timers.old.items id) event }
    requires permits { Permits (record { timers = timers.old.items; bases = bases.old.items }) id event }
    ensures kept { record { timers = timers.new.items; bases = bases.new.items } ≡ after_event (record { timers = timers.old.items; bases = bases.old.items }) id event }
    ensures reply { result ≡ reply_to (timer_at timers.old.items id) event }
{
    let timer = &mut timers[id as usize];
    let base = &mut bases[timer.base() as usize];
    base.apply(id, timer, &event)
}
