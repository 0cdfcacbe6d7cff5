//! The signals of a periodic POSIX timer, and their overruns.
ghost use Rattle.std.specs.Prelude.{◌≡◌, ◌≤◌, ◌+◌};
ghost use Rattle.timer_objects.specs.Calls.{IsPosixKind};
ghost use Rattle.timer_objects.specs.Known.{decl_at, most_noted};
ghost use Rattle.object_uses.specs.Callers.{AcceptFits, KeepsPasses, MayCall};

use counted_row::RowPass;
use hr_timers::{Log, Pass, Timers};
use ktime::Reading;
use posix_timer::AcceptAnswer;
use std::sync::Wait;
use timer_objects::{Object, ObjectLog, Objects};

/// Accepts the pending signal of a POSIX timer, which arms a periodic one again. The overrun that it answers is how many periods had passed
/// beside the one of the signal.
pub fn accept_signal<R: Wait>(
    rt: &R,
    timers: &Timers,
    pass: &mut Pass,
    objects: &Objects,
    objects_pass: &mut RowPass<Object>,
    log: &mut Log,
    object_log: &mut ObjectLog,
    id: u32,
    reading: Reading,
) -> AcceptAnswer
    requires may { MayCall timers.now objects.now pass.old objects_pass.old log.old object_log.old id }
    requires kind { IsPosixKind (decl_at objects.now id).kind }
    ensures keeps { KeepsPasses timers.now objects.now pass.old pass.new objects_pass.old objects_pass.new }
    ensures accepts { AcceptFits objects_pass.old objects_pass.new id reading result }
    ensures room { (log.old.spare ≤ log.new.spare + most_noted objects.now timers.now.about id) × (object_log.old.spare ≤ object_log.new.spare + 1) }
{
    objects.accept(rt, timers, pass, objects_pass, log, object_log, id, reading)
}
