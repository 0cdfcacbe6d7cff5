//! A thread that reads a descriptor, beside another that runs the functions of timers.
ghost use Rattle.std.specs.Prelude.{◌≡◌, ◌≤◌, ◌*◌, []};
ghost use Rattle.pass_names.specs.Names.{IsLast};
ghost use Rattle.hr_timers.specs.Known.{IsPassOf};
ghost use Rattle.timer_objects.specs.declared.object.Kind.TheVariants as kinds;
ghost use Rattle.timer_objects.specs.Known.{IsObjectsPass, decl_at};
ghost use Rattle.object_uses.specs.Callers.{HasPasses, KeepsPasses, MayCall, MayRun, ReadBeside, ReadFits};

use crate::counts::read_count;
use crate::expiring::{Expired, expire_objects};
use counted_row::RowPass;
use hr_timers::{Log, Pass, Timers};
use ktime::Reading;
use std::alloc::{AllocError, Global};
use std::sync::Wait;
use std::thread::{Threads, join_mut};
use timer_fd::ReadAnswer;
use timer_objects::{Callback, Object, ObjectLog, Objects};

/// One thread runs the functions of at most so many timers on a base, the other reads a descriptor.
fn expire_and_read<R: Threads + Wait + Sync>(
    rt: &R,
    alloc: Global,
    timers: &Timers,
    objects: &Objects,
    callbacks: &[Callback],
    base: u32,
    budget: u32,
    id: u32,
    reading: Reading,
    runner: &mut Pass,
    objects_runner: &mut RowPass<Object>,
    runner_log: &mut Log,
    reader: &mut Pass,
    objects_reader: &mut RowPass<Object>,
    log: &mut Log,
    object_log: &mut ObjectLog,
) -> (Result<Expired, AllocError>, ReadAnswer)
    requires runner { HasPasses timers.now objects.now runner.old objects_runner.old }
    requires reader { MayCall timers.now objects.now reader.old objects_reader.old log.old object_log.old id }
    requires kind { (decl_at objects.now id).kind ≡ kinds.Fd }
    requires run { MayRun timers.now objects.now callbacks.now base }
    requires room { 2 * budget ≤ runner_log.old.spare }
    ensures runner { KeepsPasses timers.now objects.now runner.old runner.new objects_runner.old objects_runner.new }
    ensures reader { KeepsPasses timers.now objects.now reader.old reader.new objects_reader.old objects_reader.new }
    ensures reads { ReadFits objects_reader.old objects_reader.new id reading result.1 }
{
    join_mut(
        rt,
        &mut || {
            expire_objects(
                rt,
                alloc,
                timers,
                runner,
                objects,
                objects_runner,
                callbacks,
                base,
                reading,
                budget,
                runner_log,
            )
        },
        &mut || {
            read_count(
                rt,
                timers,
                reader,
                objects,
                objects_reader,
                log,
                object_log,
                id,
                8,
                reading,
            )
        },
    )
}

/// The same with passes that are split off for the reader, and taken in again. What was read is a count that the first pass then has seen.
pub fn read_beside<R: Threads + Wait + Sync>(
    rt: &R,
    alloc: Global,
    timers: &Timers,
    main: &mut Pass,
    objects: &Objects,
    objects_main: &mut RowPass<Object>,
    callbacks: &[Callback],
    base: u32,
    budget: u32,
    id: u32,
    reading: Reading,
    main_log: &mut Log,
    log: &mut Log,
    object_log: &mut ObjectLog,
) -> (Result<Expired, AllocError>, ReadAnswer)
    requires may { MayCall timers.now objects.now main.old objects_main.old log.old object_log.old id }
    requires unclaimed { main.old.known.claims ≡ [] }
    requires kind { (decl_at objects.now id).kind ≡ kinds.Fd }
    requires run { MayRun timers.now objects.now callbacks.now base }
    requires room { 2 * budget ≤ main_log.old.spare }
    ensures timers { IsPassOf timers.now main.new }
    ensures unclaimed { main.new.known.claims ≡ [] }
    ensures objects { IsObjectsPass objects.now objects_main.new }
    ensures reads { ReadBeside objects_main.old objects_main.new id reading result.1 }
    ensures last { IsLast main.old.known.id → IsLast main.new.known.id }
    ensures last_of_objects { IsLast objects_main.old.knows.pass.id → IsLast objects_main.new.knows.pass.id }
{
    let mut other = timers.split(main);
    let mut objects_other = objects.split(objects_main);
    let told = expire_and_read(
        rt,
        alloc,
        timers,
        objects,
        callbacks,
        base,
        budget,
        id,
        reading,
        main,
        objects_main,
        main_log,
        &mut other,
        &mut objects_other,
        log,
        object_log,
    );
    timers.retire(main, other);
    objects.join(objects_main, objects_other);
    told
}
