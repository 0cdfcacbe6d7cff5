//! A thread that waits for a descriptor's expiries, beside another that moves the clock and runs the functions of timers.
ghost use Rattle.std.specs.Prelude.{◌≡◌, ◌≤◌, ◌+◌, ◌*◌};
ghost use Rattle.pass_names.specs.Passes.{Looks};
ghost use Rattle.clock_cell.specs.Views.{IsPassOfClock, seen_reading};
ghost use Rattle.timer_objects.specs.declared.object.Kind.TheVariants as kinds;
ghost use Rattle.timer_objects.specs.Known.{decl_at};
ghost use Rattle.object_uses.specs.Callers.{HasPasses, KeepsPasses, MayCall, MayRun, WaitFits};

use crate::expiring::{Expired, expire_objects};
use clock_cell::{ClockPass, SharedClock};
use counted_row::RowPass;
use hr_timers::{Log, Pass, Timers};
use std::alloc::{AllocError, Global};
use std::sync::Wait;
use timer_objects::{BlockingRead, Callback, Object, ObjectLog, Objects, Reader};

/// Waits until there is something to read of a reader's descriptor, and reads it. A count that it is told is at least 1, and after it none is left.
pub fn wait_for_count<R: Wait>(
    rt: &R,
    timers: &Timers,
    pass: &mut Pass,
    objects: &Objects,
    objects_pass: &mut RowPass<Object>,
    log: &mut Log,
    object_log: &mut ObjectLog,
    reader: &mut Reader,
    clock: &SharedClock,
    clock_pass: &mut ClockPass,
) -> BlockingRead
    requires may { MayCall timers.now objects.now pass.old objects_pass.old log.old object_log.old reader.old }
    requires kind { (decl_at objects.now reader.old).kind ≡ kinds.Fd }
    requires clock { IsPassOfClock clock.now clock_pass.old }
    ensures keeps { KeepsPasses timers.now objects.now pass.old pass.new objects_pass.old objects_pass.new }
    ensures reads { WaitFits objects_pass.old objects_pass.new reader.old (seen_reading clock_pass.new.knows) result }
    ensures clock { IsPassOfClock clock.now clock_pass.new }
    ensures looks { Looks clock_pass.old.knows.pass clock_pass.new.knows.pass }
    ensures reader { reader.new ≡ reader.old }
{
    objects.read_wait(
        rt,
        timers,
        pass,
        objects_pass,
        log,
        object_log,
        reader,
        8,
        clock,
        clock_pass,
    )
}

/// Lets time pass, tells the readers that the clock was set, and runs the functions that are due then on a base.
pub fn advance_and_expire<R: Wait>(
    rt: &R,
    alloc: Global,
    timers: &Timers,
    pass: &mut Pass,
    objects: &Objects,
    objects_pass: &mut RowPass<Object>,
    callbacks: &[Callback],
    base: u32,
    clock: &SharedClock,
    clock_pass: &mut ClockPass,
    by: u64,
    budget: u32,
    log: &mut Log,
) -> Result<Expired, AllocError>
    requires passes { HasPasses timers.now objects.now pass.old objects_pass.old }
    requires run { MayRun timers.now objects.now callbacks.now base }
    requires clock { IsPassOfClock clock.now clock_pass.old }
    requires room { 2 * budget ≤ log.old.spare }
    ensures keeps { KeepsPasses timers.now objects.now pass.old pass.new objects_pass.old objects_pass.new }
    ensures clock { IsPassOfClock clock.now clock_pass.new }
    ensures name { clock_pass.new.knows.pass.id ≡ clock_pass.old.knows.pass.id }
    ensures room { log.old.spare ≤ log.new.spare + 2 * budget }
{
    let reading = match clock.advance(rt, clock_pass, by) {
        Ok(after) => after,
        Err(_) => clock.read(rt, clock_pass),
    };
    objects.clock_was_set(rt);
    expire_objects(
        rt,
        alloc,
        timers,
        pass,
        objects,
        objects_pass,
        callbacks,
        base,
        reading,
        budget,
        log,
    )
}
