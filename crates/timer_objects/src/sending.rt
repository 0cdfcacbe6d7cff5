//! The trigger of a queued timer by the expiry of its timer: its signal goes to the queue while the object is locked.
ghost use Rattle.std.specs.Prelude.{◌≡◌, ◌<◌, ◌+◌, [], None, length};
ghost use Rattle.counted_row.specs.Views.{IsPassOfRow};
ghost use Rattle.hr_timers.specs.Known.{IsPassOf};
ghost use Rattle.pass_names.specs.SharedHistory.{LooksOn};
ghost use Rattle.timer_objects.specs.Known.{IsObjectsPass, row_of};
ghost use Rattle.timer_objects.specs.Signals.{FiresQueued, IsQueued, IsSignalPass, PushesFor, object_sends};

use crate::log::ObjectLog;
use crate::object::Object;
use crate::objects::Objects;
use crate::queue;
use crate::trigger::skip;
use crate::turns::{begin, end};
use counted_row::RowPass;
use hr_timers::{Claim, Pass, Timers};
use ktime::Reading;
use signal_queue::{Push, Signal, SignalPass};
use std::sync::Wait;
use timer_setting::ObjectCall;

/// Triggers the queued timer over a claim's timer, or notes that its history is full. An expiry that counts puts its signal into the queue, in the object's
/// turn, with the number that its entry will have; where there is no room, the timer is disarmed.
pub(crate) fn send<R: Wait>(
    rt: &R,
    timers: &Timers,
    pass: &mut Pass,
    objects: &Objects,
    objects_pass: &mut RowPass<Object>,
    signal_pass: &mut SignalPass,
    log: &mut ObjectLog,
    claim: &Claim,
    reading: Reading,
)
    requires pass { IsPassOf timers.now pass.old }
    requires counters { length objects.now.decls < timers.now.about.counters }
    requires row { IsPassOfRow (row_of objects.now) objects_pass.old }
    requires idle { objects_pass.old.knows.held ≡ None }
    requires unclaimed { objects_pass.old.knows.claims ≡ [] }
    requires queued { IsQueued objects.now claim.now.timer }
    requires signals { IsSignalPass objects.now signal_pass.old }
    requires room { 0 < log.old.spare }
    ensures pass { IsPassOf timers.now pass.new }
    ensures objects { IsObjectsPass objects.now objects_pass.new }
    ensures looks { LooksOn pass.old.known pass.new.known }
    ensures signals { IsSignalPass objects.now signal_pass.new }
    ensures fires { FiresQueued timers.now.about objects.now objects_pass.old objects_pass.new log.old.receipts log.new.receipts pass.old.known pass.new.known signal_pass.old.knows signal_pass.new.knows claim.now.timer claim.now.generation reading }
    ensures spare { log.new.spare + 1 ≡ log.old.spare }
{
    let id = claim.timer();
    let generation = claim.generation();
    let held = objects.lock_in_turn(rt, timers, pass, objects_pass, id);
    if objects.is_full(&held) {
        let call = ObjectCall::Trigger {
            generation,
            reading,
        };
        return skip(objects, objects_pass, held, log, id, &call);
    }
    let stamp = held.stamp();
    let state = held.state();
    let turn = begin(rt, timers, pass, id, stamp);
    let signal = Signal {
        timer: id,
        number: stamp + 1,
    };
    let call = push(
        rt,
        timers,
        pass,
        objects,
        signal_pass,
        state,
        signal,
        generation,
        reading,
    );
    end(rt, timers, pass, turn);
    objects.enter(objects_pass, held, log, id, &call);
}

/// Puts the signal of an expiry into the queue, where the expiry counts, and answers the call that is to be entered.
fn push<R: Wait>(
    rt: &R,
    timers: &Timers,
    pass: &mut Pass,
    objects: &Objects,
    signal_pass: &mut SignalPass,
    object: &Object,
    signal: Signal,
    generation: u64,
    reading: Reading,
) -> ObjectCall
    requires pass { IsPassOf timers.now pass.old }
    requires signals { IsSignalPass objects.now signal_pass.old }
    ensures pass { IsPassOf timers.now pass.new }
    ensures looks { LooksOn pass.old.known pass.new.known }
    ensures signals { IsSignalPass objects.now signal_pass.new }
    ensures pushes { PushesFor timers.now.about pass.old.known pass.new.known signal_pass.old.knows signal_pass.new.knows object.now signal generation reading result }
{
    let counted = ObjectCall::Trigger {
        generation,
        reading,
    };
    if !sends(object, generation, reading) {
        return counted;
    }
    match queue::push(rt, timers, pass, objects.signals(), signal_pass, signal) {
        Push::Queued => counted,
        Push::Full { .. } => ObjectCall::Overflow {
            generation,
            reading,
        },
    }
}

/// Whether an expiry of this generation sends a signal.
fn sends(object: &Object, generation: u64, reading: Reading) -> bool
    ensures { result ≡ object_sends object.now generation reading }
{
    match object {
        Object::Queued(timer) => timer.sends(generation, reading),
        Object::Raw | Object::Posix(_) | Object::Fd(_) | Object::Sleeper(_) => false,
    }
}
