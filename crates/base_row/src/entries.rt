//! Entries of timers, made under the lock of the base that the timer is on.
ghost use Rattle.std.specs.Prelude.{◌≡◌, ◌+◌, ◌<◌, ◌≤◌, true, Some, None, length};
ghost use Rattle.seq_timer.specs.declared.event.EventBy.TheVariants as events;
ghost use Rattle.seq_timer.specs.Effects.{effect, is_start};
ghost use Rattle.seq_timer.specs.Steps.{after, reply_to};
ghost use Rattle.seq_timer.specs.Systems.{BaseContent, IsOn};
ghost use Rattle.seq_timer.specs.Tables.{timer_at};
ghost use Rattle.base_row.specs.declared.view.HeldContent.{HeldContent};
ghost use Rattle.base_row.specs.Plays.{carry_after};
ghost use Rattle.base_row.specs.Calls.{IsBasePassOf, MayAppend, Appended, own_receipt, stepped, timer_seen};

use crate::held::{HeldBase, Pass};
use crate::log::{ReceiptSink, Unlogged};
use crate::parts::number_of;
use crate::row::BaseRow;
use crate::steps::enter;
use seq_timer::{Event, Reply, TimerState};
use std::marker::Brand;

impl BaseRow {
    /// Adds an entry of a timer that is on the held base.
    pub fn append(&self, pass: &mut Pass, held: &mut HeldBase, timer: u32, event: Event) -> Reply
        requires row { IsBasePassOf self.now pass.old }
        requires may { MayAppend self.now.about pass.old.knows held.old timer event }
        requires on { IsOn held.old.base (timer_seen self.now.about pass.old.knows timer) }
        ensures row { IsBasePassOf self.now pass.new }
        ensures reply { result ≡ reply_to (timer_seen self.now.about pass.old.knows timer) event }
        ensures held { pass.new.knows.held ≡ Some held.new }
        ensures adds { Appended self.now.about held.old timer event pass.old.knows pass.new.knows }
    {
        self.append_logged(pass, &mut Unlogged, held, timer, &event)
    }

    /// The same, with a receipt into a sink.
    #[inline(always)]
    pub fn append_logged<S: ReceiptSink>(
        &self,
        pass: &mut Pass,
        sink: &mut S,
        held: &mut HeldBase,
        timer: u32,
        event: &Event,
    ) -> Reply
        requires row { IsBasePassOf self.now pass.old }
        requires may { MayAppend self.now.about pass.old.knows held.old timer event.now }
        requires on { IsOn held.old.base (timer_seen self.now.about pass.old.knows timer) }
        requires room { 0 < S.room sink.old }
        ensures row { IsBasePassOf self.now pass.new }
        ensures reply { result ≡ reply_to (timer_seen self.now.about pass.old.knows timer) event.now }
        ensures held { pass.new.knows.held ≡ Some held.new }
        ensures content { held.new ≡ stepped self.now.about pass.old.knows held.old timer event.now }
        ensures adds { Appended self.now.about held.old timer event.now pass.old.knows pass.new.knows }
        ensures logged { sink.new ≡ S.pushed sink.old (own_receipt self.now.about pass.old.knows timer event.now) }
        ensures room { S.room sink.old ≤ S.room sink.new + 1 }
    {
        let reply = self.step(pass, held, timer, event);
        self.note_entry(pass, sink, held, timer, event, reply);
        reply
    }

    /// Takes a timer off the held base, for another base (`switch_hrtimer_base`). The pass carries it until it arrives there.
    pub fn out(&self, pass: &mut Pass, held: &mut HeldBase, timer: u32, to: u32) -> TimerState
        requires row { IsBasePassOf self.now pass.old }
        requires may { MayAppend self.now.about pass.old.knows held.old timer (events.Out to) }
        requires on { IsOn held.old.base (timer_seen self.now.about pass.old.knows timer) }
        ensures row { IsBasePassOf self.now pass.new }
        ensures held { pass.new.knows.held ≡ Some held.new }
        ensures adds { Appended self.now.about held.old timer (events.Out to) pass.old.knows pass.new.knows }
        ensures state { result ≡ timer_seen self.now.about pass.new.knows timer }
        ensures after { result ≡ after (timer_seen self.now.about pass.old.knows timer) (events.Out to) }
    {
        self.out_logged(pass, &mut Unlogged, held, timer, to)
    }

    /// The same, with a receipt into a sink.
    pub fn out_logged<S: ReceiptSink>(
        &self,
        pass: &mut Pass,
        sink: &mut S,
        held: &mut HeldBase,
        timer: u32,
        to: u32,
    ) -> TimerState
        requires row { IsBasePassOf self.now pass.old }
        requires may { MayAppend self.now.about pass.old.knows held.old timer (events.Out to) }
        requires on { IsOn held.old.base (timer_seen self.now.about pass.old.knows timer) }
        requires room { 0 < S.room sink.old }
        ensures row { IsBasePassOf self.now pass.new }
        ensures held { pass.new.knows.held ≡ Some held.new }
        ensures adds { Appended self.now.about held.old timer (events.Out to) pass.old.knows pass.new.knows }
        ensures state { result ≡ timer_seen self.now.about pass.new.knows timer }
        ensures after { result ≡ after (timer_seen self.now.about pass.old.knows timer) (events.Out to) }
        ensures logged { sink.new ≡ S.pushed sink.old (own_receipt self.now.about pass.old.knows timer (events.Out to)) }
        ensures room { S.room sink.old ≤ S.room sink.new + 1 }
    {
        self.fresh();
        let event = Event::Out { base: to };
        let reply = self.step(pass, held, timer, &event);
        self.note_entry(pass, sink, held, timer, &event, reply);
        *held.state(timer)
    }

    /// Sends a timer on that the pass carries, from the held base, to which it was sent, to another (`switch_hrtimer_base`). `state` is its
    /// state as `out` or `out_again` gave it.
    pub fn out_again(
        &self,
        pass: &mut Pass,
        held: &mut HeldBase,
        timer: u32,
        state: TimerState,
        to: u32,
    ) -> TimerState
        requires row { IsBasePassOf self.now pass.old }
        requires may { MayAppend self.now.about pass.old.knows held.old timer (events.Out to) }
        requires state { state ≡ timer_seen self.now.about pass.old.knows timer }
        ensures row { IsBasePassOf self.now pass.new }
        ensures held { pass.new.knows.held ≡ Some held.new }
        ensures adds { Appended self.now.about held.old timer (events.Out to) pass.old.knows pass.new.knows }
        ensures state { result ≡ timer_seen self.now.about pass.new.knows timer }
        ensures after { result ≡ after (timer_seen self.now.about pass.old.knows timer) (events.Out to) }
    {
        self.out_again_logged(pass, &mut Unlogged, held, timer, &state, to)
    }

    /// The same, with a receipt into a sink.
    pub fn out_again_logged<S: ReceiptSink>(
        &self,
        pass: &mut Pass,
        sink: &mut S,
        held: &mut HeldBase,
        timer: u32,
        state: &TimerState,
        to: u32,
    ) -> TimerState
        requires row { IsBasePassOf self.now pass.old }
        requires may { MayAppend self.now.about pass.old.knows held.old timer (events.Out to) }
        requires state { state.now ≡ timer_seen self.now.about pass.old.knows timer }
        requires room { 0 < S.room sink.old }
        ensures row { IsBasePassOf self.now pass.new }
        ensures held { pass.new.knows.held ≡ Some held.new }
        ensures adds { Appended self.now.about held.old timer (events.Out to) pass.old.knows pass.new.knows }
        ensures state { result ≡ timer_seen self.now.about pass.new.knows timer }
        ensures after { result ≡ after (timer_seen self.now.about pass.old.knows timer) (events.Out to) }
        ensures logged { sink.new ≡ S.pushed sink.old (own_receipt self.now.about pass.old.knows timer (events.Out to)) }
        ensures room { S.room sink.old ≤ S.room sink.new + 1 }
    {
        pass.known();
        self.fresh();
        state.bounded();
        let event = Event::Out { base: to };
        let reply = self.step_in(pass, held, timer, state, &event);
        self.note_entry(pass, sink, held, timer, &event, reply);
        *held.state(timer)
    }

    /// Starts a timer that the pass carries, on the held base, to which it was sent. `state` is its state as `out` or `out_again` gave it.
    pub fn arrive(
        &self,
        pass: &mut Pass,
        held: &mut HeldBase,
        timer: u32,
        state: TimerState,
        event: Event,
    ) -> Reply
        requires row { IsBasePassOf self.now pass.old }
        requires may { MayAppend self.now.about pass.old.knows held.old timer event }
        requires carried { pass.old.knows.carry ≡ Some timer }
        requires state { state ≡ timer_seen self.now.about pass.old.knows timer }
        requires start { is_start (effect state event) ≡ true }
        ensures row { IsBasePassOf self.now pass.new }
        ensures reply { result ≡ reply_to (timer_seen self.now.about pass.old.knows timer) event }
        ensures held { pass.new.knows.held ≡ Some held.new }
        ensures adds { Appended self.now.about held.old timer event pass.old.knows pass.new.knows }
        ensures arrived { pass.new.knows.carry ≡ None }
    {
        self.arrive_logged(pass, &mut Unlogged, held, timer, &state, &event)
    }

    /// The same, with a receipt into a sink.
    pub fn arrive_logged<S: ReceiptSink>(
        &self,
        pass: &mut Pass,
        sink: &mut S,
        held: &mut HeldBase,
        timer: u32,
        state: &TimerState,
        event: &Event,
    ) -> Reply
        requires row { IsBasePassOf self.now pass.old }
        requires may { MayAppend self.now.about pass.old.knows held.old timer event.now }
        requires carried { pass.old.knows.carry ≡ Some timer }
        requires state { state.now ≡ timer_seen self.now.about pass.old.knows timer }
        requires start { is_start (effect state.now event.now) ≡ true }
        requires room { 0 < S.room sink.old }
        ensures row { IsBasePassOf self.now pass.new }
        ensures reply { result ≡ reply_to (timer_seen self.now.about pass.old.knows timer) event.now }
        ensures held { pass.new.knows.held ≡ Some held.new }
        ensures adds { Appended self.now.about held.old timer event.now pass.old.knows pass.new.knows }
        ensures arrived { pass.new.knows.carry ≡ None }
        ensures logged { sink.new ≡ S.pushed sink.old (own_receipt self.now.about pass.old.knows timer event.now) }
        ensures room { S.room sink.old ≤ S.room sink.new + 1 }
    {
        pass.known();
        state.bounded();
        let reply = self.step_in(pass, held, timer, state, event);
        self.note_entry(pass, sink, held, timer, event, reply);
        reply
    }

    /// Steps a timer that is on the held base.
    #[inline(always)]
    fn step(&self, pass: &Pass, held: &mut HeldBase, timer: u32, event: &Event) -> Reply
        requires row { IsBasePassOf self.now pass.now }
        requires may { MayAppend self.now.about pass.now.knows held.old timer event.now }
        requires on { IsOn held.old.base (timer_seen self.now.about pass.now.knows timer) }
        ensures held { held.new ≡ stepped self.now.about pass.now.knows held.old timer event.now }
        ensures below { timer < length held.new.content.states }
        ensures left { timer_at held.new.content.states timer ≡ after (timer_seen self.now.about pass.now.knows timer) event.now }
        ensures reply { result ≡ reply_to (timer_seen self.now.about pass.now.knows timer) event.now }
    {
        pass.known();
        self.fresh();
        held.apply(timer, event)
    }

    /// Steps a timer that comes to the held base in this state.
    fn step_in(
        &self,
        pass: &Pass,
        held: &mut HeldBase,
        timer: u32,
        state: &TimerState,
        event: &Event,
    ) -> Reply
        requires row { IsBasePassOf self.now pass.now }
        requires may { MayAppend self.now.about pass.now.knows held.old timer event.now }
        requires state { state.now ≡ timer_seen self.now.about pass.now.knows timer }
        ensures held { held.new ≡ stepped self.now.about pass.now.knows held.old timer event.now }
        ensures below { timer < length held.new.content.states }
        ensures left { timer_at held.new.content.states timer ≡ after (timer_seen self.now.about pass.now.knows timer) event.now }
        ensures reply { result ≡ reply_to (timer_seen self.now.about pass.now.knows timer) event.now }
    {
        pass.known();
        self.fresh();
        held.arrive(timer, state, event)
    }

    /// Adds an entry that the held base has made: stores the timer's word, and puts the receipt into a sink.
    fn note_entry<S: ReceiptSink>(
        &self,
        pass: &mut Pass,
        sink: &mut S,
        held: &HeldBase,
        timer: u32,
        event: &Event,
        reply: Reply,
    )
        requires row { IsBasePassOf self.now pass.old }
        requires may { (h : HeldContent BaseContent) × MayAppend self.now.about pass.old.knows h timer event.now × (held.now ≡ stepped self.now.about pass.old.knows h timer event.now) }
        requires below { timer < length held.now.content.states }
        requires left { timer_at held.now.content.states timer ≡ after (timer_seen self.now.about pass.old.knows timer) event.now }
        requires reply { reply ≡ reply_to (timer_seen self.now.about pass.old.knows timer) event.now }
        requires room { 0 < S.room sink.old }
        ensures row { IsBasePassOf self.now pass.new }
        ensures held { pass.new.knows.held ≡ Some held.now }
        ensures carry { pass.new.knows.carry ≡ carry_after timer (timer_seen self.now.about pass.old.knows timer) event.now pass.old.knows.carry }
        ensures adds { (h : HeldContent BaseContent) → pass.old.knows.held ≡ Some h → Appended self.now.about h timer event.now pass.old.knows pass.new.knows }
        ensures logged { sink.new ≡ S.pushed sink.old (own_receipt self.now.about pass.old.knows timer event.now) }
        ensures room { S.room sink.old ≤ S.room sink.new + 1 }
    {
        pass.known();
        self.fresh();
        let state = held.state(timer);
        let number = number_of(state);
        let word = self.word_index(timer);
        let cells = &self.table.shared;
        enter::<Brand>(cells, &mut pass.seat, word, timer, number, event);
        sink.note(timer, state.stamp(), *event, reply);
    }
}
