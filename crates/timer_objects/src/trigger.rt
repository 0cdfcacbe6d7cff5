//! The trigger of an object by the expiry of its timer.
ghost use Rattle.std.specs.Prelude.{◌≡◌, ◌<◌, ◌+◌, [], ◌∷◌, ◌++◌, None, Some, length};
ghost use Rattle.counted_row.specs.Views.{IsPassOfRow, released};
ghost use Rattle.hr_timers.specs.Known.{IsPassOf};
ghost use Rattle.pass_names.specs.SharedHistory.{LooksOn};
ghost use Rattle.timer_objects.specs.Known.{IsObjectsPass, decl_at, row_of, seen_of};
ghost use Rattle.timer_objects.specs.Triggers.{IsRungFor, TellsReader, Triggers, trigger_of, trigger_refused};

use crate::log::{ObjectLog, note};
use crate::object::{Kind, Object};
use crate::objects::Objects;
use crate::readers::Rung;
use crate::turns::{begin, end};
use counted_row::{Held, RowPass};
use hr_timers::{Claim, Pass, Timers};
use ktime::Reading;
use std::sync::Wait;
use timer_setting::{ObjectCall, ObjectReply, TriggerAnswer};

/// The trigger of an object of this kind by the expiry of its timer. A timer by itself has none.
pub(crate) fn trigger_of(kind: Kind, claim: &Claim, reading: Reading) -> Option<ObjectCall>
    ensures { result ≡ trigger_of kind claim.now reading }
{
    let generation = claim.generation();
    match kind {
        Kind::Raw => None,
        Kind::Posix | Kind::Fd | Kind::Sleeper | Kind::Queued => Some(ObjectCall::Trigger {
            generation,
            reading,
        }),
    }
}

/// What a trigger answers of an object whose history is full, with so many entries.
fn trigger_refused(stamp: u64) -> ObjectReply
    ensures { result ≡ trigger_refused stamp }
{
    ObjectReply::Trigger(TriggerAnswer::Spent { stamp })
}

/// Triggers the object over a claim's timer, or notes that its history is full. Exactly where the trigger counted it has told the object's reader.
pub(crate) fn trigger<R: Wait>(
    rt: &R,
    timers: &Timers,
    pass: &mut Pass,
    objects: &Objects,
    objects_pass: &mut RowPass<Object>,
    log: &mut ObjectLog,
    call: ObjectCall,
    claim: &Claim,
    reading: Reading,
) -> Option<Rung>
    requires pass { IsPassOf timers.now pass.old }
    requires counters { length objects.now.decls < timers.now.about.counters }
    requires row { IsPassOfRow (row_of objects.now) objects_pass.old }
    requires idle { objects_pass.old.knows.held ≡ None }
    requires unclaimed { objects_pass.old.knows.claims ≡ [] }
    requires within { claim.now.timer < length objects.now.decls }
    requires call { trigger_of (decl_at objects.now claim.now.timer).kind claim.now reading ≡ Some call }
    requires room { 0 < log.old.spare }
    ensures pass { IsPassOf timers.now pass.new }
    ensures objects { IsObjectsPass objects.now objects_pass.new }
    ensures looks { LooksOn pass.old.known pass.new.known }
    ensures triggers { Triggers objects.now objects_pass.old objects_pass.new log.old.receipts log.new.receipts pass.old.known pass.new.known claim.now call }
    ensures spare { log.new.spare + 1 ≡ log.old.spare }
    ensures tells { TellsReader claim.now.timer result log.old.receipts log.new.receipts }
{
    let id = claim.timer();
    let held = objects.lock_in_turn(rt, timers, pass, objects_pass, id);
    if objects.is_full(&held) {
        skip(objects, objects_pass, held, log, id, &call);
        return None;
    }
    let stamp = held.stamp();
    let turn = begin(rt, timers, pass, id, stamp);
    end(rt, timers, pass, turn);
    let reply = objects.enter(objects_pass, held, log, id, &call);
    tell_reader(objects, id, &reply)
}

/// Tells the object's reader, if it has one, where its trigger was counted: then there is something to read.
fn tell_reader(objects: &Objects, id: u32, reply: &ObjectReply) -> Option<Rung>
    ensures { IsRungFor id reply.now result }
{
    match reply {
        ObjectReply::Trigger(TriggerAnswer::Counted) => Some(objects.ring(id)),
        _ => None,
    }
}

/// Lets the lock of an object go whose history is full, and notes the trigger that was refused.
pub(crate) fn skip(
    objects: &Objects,
    pass: &mut RowPass<Object>,
    held: Held<Object>,
    log: &mut ObjectLog,
    id: u32,
    call: &ObjectCall,
)
    requires row { IsPassOfRow (row_of objects.now) pass.old }
    requires unclaimed { pass.old.knows.claims ≡ [] }
    requires held { pass.old.knows.held ≡ Some held }
    requires room { 0 < log.old.spare }
    ensures pass { IsObjectsPass objects.now pass.new }
    ensures knows { pass.new.knows ≡ released pass.old.knows }
    ensures count { held.stamp ≡ length (seen_of pass.new held.index) }
    ensures receipt { log.new.receipts ≡ log.old.receipts ++ record { object = id; number = held.stamp; call = call.now; reply = trigger_refused held.stamp } ∷ [] }
    ensures spare { log.new.spare + 1 ≡ log.old.spare }
{
    let stamp = objects.release(pass, held);
    note(log, id, stamp, *call, trigger_refused(stamp));
}
