//! The next signal of queued timers.
ghost use Rattle.std.specs.Prelude.{◌≡◌, ◌≤◌, ◌<◌, ◌+◌, ℕ, None, [], length, true, false, IfNone, IfSome};
ghost use Rattle.timer_setting.specs.declared.answers.AcceptAnswer.TheVariants as acceptances;
ghost use Rattle.timer_setting.specs.declared.object_call.ObjectReply.TheVariants as replies;
ghost use Rattle.counted_row.specs.Views.{IsPassOfRow, Locks};
ghost use Rattle.hr_timers.specs.Known.{IsPassOf};
ghost use Rattle.pass_names.specs.SharedHistory.{LooksOn};
ghost use Rattle.signal_queue.specs.Views.{KnowsQueue};
ghost use Rattle.timer_objects.specs.Known.{HoldsObject, IsObjectsPass, Suits, most_noted, row_of};
ghost use Rattle.timer_objects.specs.Meaning.{object_meaning};
ghost use Rattle.timer_objects.specs.Rearming.{IsCallerOf, KeepsNames, LeavesPasses, caller_of};
ghost use Rattle.timer_objects.specs.Signals.{IsQueued, IsSignalPass, TakesNext, TakesSignal, object_fresh};
ghost use Rattle.timer_objects.specs.Turns.{turns_told};

use crate::log::ObjectLog;
use crate::object::{Kind, Object};
use crate::objects::Objects;
use crate::queue;
use crate::wanting::{Ended, Rearming};
use counted_row::{Held, RowPass};
use hr_timers::{Log, Pass, Timers};
use ktime::Reading;
use signal_queue::{Signal, SignalPass};
use std::sync::Wait;
use timer_setting::{AcceptAnswer, ObjectReply};

/// What the next signal is. `timer` is the number of its timer, `number` that of the entry of the expiry that sent it.
#[derive(Clone, Copy, Debug, PartialEq, Eq)]
pub enum NextSignal {
    /// None waits (EAGAIN).
    NoneQueued,
    /// Its timer has as many entries as its limit allows.
    Spent {
        timer: u32,
        number: u64,
        stamp: u64,
    },
    /// It isn't pending: its timer was set since, or the signal was accepted by itself, or it isn't the last one that its timer sent; or it is of no queued
    /// timer.
    Stale {
        timer: u32,
        number: u64,
    },
    /// It was accepted. So many further periods had passed.
    Accepted {
        timer: u32,
        number: u64,
        overrun: u64,
    },
}

impl Objects {
    /// Takes the oldest signal off the queue, and accepts it (`sigwaitinfo`). A periodic timer is then armed again. It doesn't wait for a signal; but while a
    /// queued timer has no entry of its signal's number, which only a signal of the caller's own can have, it waits for that entry.
    pub fn next_signal<R: Wait>(
        &self,
        rt: &R,
        timers: &Timers,
        pass: &mut Pass,
        objects_pass: &mut RowPass<Object>,
        signal_pass: &mut SignalPass,
        log: &mut Log,
        object_log: &mut ObjectLog,
        reading: Reading,
    ) -> NextSignal
        requires pass { IsPassOf timers.now pass.old }
        requires objects { IsObjectsPass self.now objects_pass.old }
        requires signals { IsSignalPass self.now signal_pass.old }
        requires suits { Suits self.now timers.now.about }
        requires room { ((id : ℕ) → id < length self.now.decls → most_noted self.now timers.now.about id ≤ log.old.spare) × (1 ≤ object_log.old.spare) }
        ensures pass { IsPassOf timers.now pass.new }
        ensures objects { IsObjectsPass self.now objects_pass.new }
        ensures signals { IsSignalPass self.now signal_pass.new }
        ensures known { KnowsQueue signal_pass.new.knows }
        ensures next { TakesNext self.now timers.now.about (caller_of pass.old objects_pass.old log.old object_log.old) (caller_of pass.new objects_pass.new log.new object_log.new) signal_pass.old.knows signal_pass.new.knows reading result }
        ensures names { KeepsNames (caller_of pass.old objects_pass.old log.old object_log.old) (caller_of pass.new objects_pass.new log.new object_log.new) }
        ensures room { ((n : ℕ) → ((id : ℕ) → id < length self.now.decls → most_noted self.now timers.now.about id ≤ n) → log.old.spare ≤ log.new.spare + n) × (object_log.old.spare ≤ object_log.new.spare + 1) }
    {
        let queue = self.signals();
        let Some(Signal { timer, number }) = queue::pop(rt, timers, pass, queue, signal_pass) else {
            return NextSignal::NoneQueued;
        };
        if !self.is_queued(timer) {
            return NextSignal::Stale { timer, number };
        }
        self.take_signal(
            rt,
            timers,
            pass,
            objects_pass,
            log,
            object_log,
            timer,
            number,
            reading,
        )
    }

    /// Whether an object of this number is a queued timer.
    fn is_queued(&self, id: u32) -> bool
        ensures yes { result ≡ true → IsQueued self.now id }
        ensures no { result ≡ false → IsQueued self.now id → ⊥ }
    {
        (id as usize) < self.len() && self.kind(id) == Kind::Queued
    }

    /// Waits until the lock of an object is free that has an entry of this number, and takes it when no call has its turn. In fact the object has that entry
    /// as soon as its lock is free, where the entry's own expiry put the signal into the queue.
    fn lock_behind<R: Wait>(
        &self,
        rt: &R,
        timers: &Timers,
        pass: &mut Pass,
        objects_pass: &mut RowPass<Object>,
        id: u32,
        number: u64,
    ) -> Held<Object>
        requires pass { IsPassOf timers.now pass.old }
        requires counters { length self.now.decls < timers.now.about.counters }
        requires row { IsPassOfRow (row_of self.now) objects_pass.old }
        requires idle { objects_pass.old.knows.held ≡ None }
        requires unclaimed { objects_pass.old.knows.claims ≡ [] }
        requires within { id < length self.now.decls }
        ensures pass { IsPassOf timers.now pass.new }
        ensures looks { LooksOn pass.old.known pass.new.known }
        ensures told { turns_told id pass.new.known ≡ result.stamp + result.stamp }
        ensures row { IsPassOfRow (row_of self.now) objects_pass.new }
        ensures locks { Locks object_meaning objects_pass.old objects_pass.new id result }
        ensures holds { HoldsObject self.now result }
        ensures behind { number ≤ result.stamp }
    {
        for _ in rt.forever() {
            let held = self.lock_in_turn(rt, timers, pass, objects_pass, id);
            if number <= held.stamp() {
                return held;
            }
            self.release(objects_pass, held);
        }
        unreachable!()
    }

    /// Accepts the signal of this number of a queued timer, unless the timer's history is full, or the signal is stale.
    fn take_signal<R: Wait>(
        &self,
        rt: &R,
        timers: &Timers,
        pass: &mut Pass,
        objects_pass: &mut RowPass<Object>,
        log: &mut Log,
        object_log: &mut ObjectLog,
        timer: u32,
        number: u64,
        reading: Reading,
    ) -> NextSignal
        requires may { IsCallerOf self.now timers.now pass.old objects_pass.old timer }
        requires queued { IsQueued self.now timer }
        requires room { (most_noted self.now timers.now.about timer ≤ log.old.spare) × (1 ≤ object_log.old.spare) }
        ensures leaves { LeavesPasses self.now timers.now pass.new objects_pass.new }
        ensures takes { TakesSignal self.now timers.now.about (caller_of pass.old objects_pass.old log.old object_log.old) (caller_of pass.new objects_pass.new log.new object_log.new) timer number reading result }
        ensures names { KeepsNames (caller_of pass.old objects_pass.old log.old object_log.old) (caller_of pass.new objects_pass.new log.new object_log.new) }
        ensures room { (log.old.spare ≤ log.new.spare + most_noted self.now timers.now.about timer) × (object_log.old.spare ≤ object_log.new.spare + 1) }
    {
        let held = self.lock_behind(rt, timers, pass, objects_pass, timer, number);
        if self.is_full(&held) {
            let stamp = self.release(objects_pass, held);
            return NextSignal::Spent {
                timer,
                number,
                stamp,
            };
        }
        if !is_fresh(held.state(), number) {
            self.release(objects_pass, held);
            return NextSignal::Stale { timer, number };
        }
        let ended = self.rearm_held(
            rt,
            timers,
            pass,
            objects_pass,
            log,
            object_log,
            timer,
            Rearming::Accepting,
            reading,
            held,
        );
        match ended {
            Ended::Full { stamp } => NextSignal::Spent {
                timer,
                number,
                stamp,
            },
            Ended::Made { stamp: _, reply } => {
                let Some(overrun) = overrun_in(reply) else {
                    unreachable!()
                };
                NextSignal::Accepted {
                    timer,
                    number,
                    overrun,
                }
            }
        }
    }
}

/// The overrun of an acceptance of a signal.
fn overrun_in(reply: ObjectReply) -> Option<u64>
    ensures some { IfSome result (λ n. reply ≡ replies.Accept (acceptances.Accepted n)) }
    ensures none { IfNone result ((n : ℕ) → reply ≡ replies.Accept (acceptances.Accepted n) → ⊥) }
{
    match reply {
        ObjectReply::Accept(AcceptAnswer::Accepted { overrun }) => Some(overrun),
        _ => None,
    }
}

/// Whether the signal of this number is pending.
fn is_fresh(object: &Object, number: u64) -> bool
    ensures { result ≡ object_fresh object.now number }
{
    match object {
        Object::Queued(timer) => timer.is_fresh(number),
        Object::Raw | Object::Posix(_) | Object::Fd(_) | Object::Sleeper(_) => false,
    }
}
