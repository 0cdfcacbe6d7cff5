//! The functions of the timers, each of which triggers the object over its timer.
ghost use Rattle.std.specs.Prelude.{◌≡◌, ◌*◌, ◌<◌, ◌≤◌, length};
ghost use Rattle.hr_timers.specs.Known.{IsPassOf};
ghost use Rattle.timer_objects.specs.Callbacks.{bases_of};
ghost use Rattle.timer_objects.specs.Known.{IsObjectsPass, KeepsObjectsPass};

use counted_row::RowPass;
use hr_timers::{ExpireAnswer, Log, Pass, Timers, expire};
use ktime::Reading;
use std::alloc::{AllocError, Global};
use std::sync::Wait;
use timer_objects::{Callback, Firing, Object, Objects};

/// Runs the functions of at most so many timers that are due on base 0. The objects' pass is lent for the run, and is one of theirs again after it.
pub fn run_functions<R: Wait>(
    rt: &R,
    alloc: Global,
    timers: &Timers,
    pass: &mut Pass,
    objects: &Objects,
    objects_pass: &mut RowPass<Object>,
    callbacks: &[Callback],
    reading: Reading,
    budget: u32,
    log: &mut Log,
) -> Result<ExpireAnswer, AllocError>
    requires timers { IsPassOf timers.now pass.old }
    requires objects { IsObjectsPass objects.now objects_pass.old }
    requires many { length timers.now.about.timers ≤ length objects.now.decls }
    requires counters { length objects.now.decls < timers.now.about.counters }
    requires run { (length callbacks.now ≡ length objects.now.decls) × (bases_of callbacks.now ≤ timers.now.about.bases) × (0 < timers.now.about.bases) }
    requires room { 2 * budget ≤ log.old.spare }
    ensures timers { IsPassOf timers.now pass.new }
    ensures objects { IsObjectsPass objects.now objects_pass.new }
    ensures names { (pass.new.known.id ≡ pass.old.known.id) × (pass.new.known.claims ≡ pass.old.known.claims) }
    ensures keeps { KeepsObjectsPass objects_pass.old objects_pass.new }
{
    let mut firing = Firing::make(alloc, objects, objects_pass, callbacks);
    if firing.reserve(budget as usize).is_err() {
        let _ = firing.into_logs();
        return Err(AllocError);
    }
    let answer = expire(
        rt,
        timers,
        pass,
        0,
        reading,
        budget.into(),
        &mut firing,
        log,
    );
    let _ = firing.into_logs();
    Ok(answer)
}
