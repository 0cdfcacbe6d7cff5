//! The count of a descriptor, which one thread reads while another runs the functions of timers.
ghost use Rattle.std.specs.Prelude.{◌≡◌, ◌≤◌, ◌+◌};
ghost use Rattle.timer_objects.specs.declared.object.Kind.TheVariants as kinds;
ghost use Rattle.timer_objects.specs.Known.{decl_at, most_noted};
ghost use Rattle.object_uses.specs.Callers.{KeepsPasses, MayCall, ReadFits};

use counted_row::RowPass;
use hr_timers::{Log, Pass, Timers};
use ktime::Reading;
use std::sync::Wait;
use timer_fd::ReadAnswer;
use timer_objects::{Object, ObjectLog, Objects};

/// Reads how often a descriptor's timer has expired, into a buffer of so many bytes. After a count was read none is left.
pub fn read_count<R: Wait>(
    rt: &R,
    timers: &Timers,
    pass: &mut Pass,
    objects: &Objects,
    objects_pass: &mut RowPass<Object>,
    log: &mut Log,
    object_log: &mut ObjectLog,
    id: u32,
    len: u64,
    reading: Reading,
) -> ReadAnswer
    requires may { MayCall timers.now objects.now pass.old objects_pass.old log.old object_log.old id }
    requires kind { (decl_at objects.now id).kind ≡ kinds.Fd }
    ensures keeps { KeepsPasses timers.now objects.now pass.old pass.new objects_pass.old objects_pass.new }
    ensures reads { ReadFits objects_pass.old objects_pass.new id reading result }
    ensures room { (log.old.spare ≤ log.new.spare + most_noted objects.now timers.now.about id) × (object_log.old.spare ≤ object_log.new.spare + 1) }
{
    objects.read(
        rt,
        timers,
        pass,
        objects_pass,
        log,
        object_log,
        id,
        len,
        reading,
    )
}
