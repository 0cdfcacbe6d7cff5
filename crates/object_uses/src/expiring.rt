//! An expiry run whose functions trigger objects, with a pass of theirs that is lent to it.
ghost use Rattle.std.specs.Prelude.{◌≡◌, ◌≤◌, ◌<◌, ◌+◌, ◌*◌, length, OnErr};
ghost use Rattle.hr_timers.specs.Known.{IsPassOf};
ghost use Rattle.timer_objects.specs.Known.{IsObjectsPass};
ghost use Rattle.object_uses.specs.Callers.{KeepsPasses, MayRun};

use counted_row::RowPass;
use hr_timers::{ExpireAnswer, Log, Pass, Timers, expire};
use ktime::Reading;
use std::alloc::{AllocError, Global};
use std::sync::Wait;
use timer_objects::{Callback, Firing, Object, ObjectLog, Objects};

/// What a run answers, with the receipts of what callbacks did and of the triggers of objects.
#[derive(Drop)]
pub struct Expired {
    pub answer: ExpireAnswer,
    pub callback_log: Log,
    pub object_log: ObjectLog,
}

/// Runs the functions of at most so many timers that are due on a base: each triggers the object over its timer. The objects' pass is lent for
/// the run, and is one of theirs again after it.
pub fn expire_objects<R: Wait>(
    rt: &R,
    alloc: Global,
    timers: &Timers,
    pass: &mut Pass,
    objects: &Objects,
    objects_pass: &mut RowPass<Object>,
    callbacks: &[Callback],
    base: u32,
    reading: Reading,
    budget: u32,
    log: &mut Log,
) -> Result<Expired, AllocError>
    requires timers { IsPassOf timers.now pass.old }
    requires objects { IsObjectsPass objects.now objects_pass.old }
    requires many { length timers.now.about.timers ≤ length objects.now.decls }
    requires counters { length objects.now.decls < timers.now.about.counters }
    requires run { MayRun timers.now objects.now callbacks.now base }
    requires room { 2 * budget ≤ log.old.spare }
    ensures keeps { KeepsPasses timers.now objects.now pass.old pass.new objects_pass.old objects_pass.new }
    ensures room { log.old.spare ≤ log.new.spare + 2 * budget }
    ensures err { OnErr result ((pass.new ≡ pass.old) × (objects_pass.new ≡ objects_pass.old) × (log.new ≡ log.old)) }
{
    let mut firing = Firing::make(alloc, objects, objects_pass, callbacks);
    if firing.reserve(budget as usize).is_err() {
        let _ = firing.into_logs();
        return Err(AllocError);
    }
    let answer = expire(
        rt,
        timers,
        pass,
        base,
        reading,
        budget.into(),
        &mut firing,
        log,
    );
    let (callback_log, object_log) = firing.into_logs();
    Ok(Expired {
        answer,
        callback_log,
        object_log,
    })
}
