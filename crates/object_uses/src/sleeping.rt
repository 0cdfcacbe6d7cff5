//! A media clock that sleeps: up to the time of each frame, unless it is told before that the frame isn't to be shown.
ghost use Rattle.std.specs.Prelude.{◌≡◌, ◌≤◌, ◌+◌};
ghost use Rattle.timer_objects.specs.declared.object.Kind.TheVariants as kinds;
ghost use Rattle.timer_objects.specs.Known.{decl_at, most_noted};
ghost use Rattle.timer_objects.specs.Calls.{Interrupts, Sleeps};
ghost use Rattle.timer_objects.specs.Rearming.{caller_of};
ghost use Rattle.object_uses.specs.Callers.{KeepsPasses, MayCall};

use counted_row::RowPass;
use hr_timers::{Log, Pass, Timers};
use ktime::{Reading, TimeSpec};
use sleeper::TIMER_ABSTIME;
use std::sync::Wait;
use timer_objects::{Object, ObjectLog, Objects};
use timer_setting::{InterruptAnswer, SleepAnswer};

/// Sleeps up to the time of a frame, in nanoseconds of the sleeper's clock. Of a frame whose time has come nothing is started, and the
/// answer is `Slept`.
pub fn await_frame<R: Wait>(
    rt: &R,
    timers: &Timers,
    pass: &mut Pass,
    objects: &Objects,
    objects_pass: &mut RowPass<Object>,
    log: &mut Log,
    object_log: &mut ObjectLog,
    id: u32,
    frame: TimeSpec,
    reading: Reading,
) -> SleepAnswer
    requires may { MayCall timers.now objects.now pass.old objects_pass.old log.old object_log.old id }
    requires kind { (decl_at objects.now id).kind ≡ kinds.Sleeper }
    ensures keeps { KeepsPasses timers.now objects.now pass.old pass.new objects_pass.old objects_pass.new }
    ensures sleeps { Sleeps objects.now timers.now.about (caller_of pass.old objects_pass.old log.old object_log.old) (caller_of pass.new objects_pass.new log.new object_log.new) id 1 frame reading result }
    ensures room { (log.old.spare ≤ log.new.spare + most_noted objects.now timers.now.about id) × (object_log.old.spare ≤ object_log.new.spare + 1) }
{
    objects.sleep(
        rt,
        timers,
        pass,
        objects_pass,
        log,
        object_log,
        id,
        TIMER_ABSTIME,
        frame,
        reading,
    )
}

/// Ends the wait for a frame, or tells that its time has come: `Slept`.
pub fn leave_frame<R: Wait>(
    rt: &R,
    timers: &Timers,
    pass: &mut Pass,
    objects: &Objects,
    objects_pass: &mut RowPass<Object>,
    log: &mut Log,
    object_log: &mut ObjectLog,
    id: u32,
    reading: Reading,
) -> InterruptAnswer
    requires may { MayCall timers.now objects.now pass.old objects_pass.old log.old object_log.old id }
    requires kind { (decl_at objects.now id).kind ≡ kinds.Sleeper }
    ensures keeps { KeepsPasses timers.now objects.now pass.old pass.new objects_pass.old objects_pass.new }
    ensures interrupts { Interrupts objects.now timers.now.about (caller_of pass.old objects_pass.old log.old object_log.old) (caller_of pass.new objects_pass.new log.new object_log.new) id reading result }
    ensures room { (log.old.spare ≤ log.new.spare + most_noted objects.now timers.now.about id) × (object_log.old.spare ≤ object_log.new.spare + 1) }
{
    objects.interrupt(rt, timers, pass, objects_pass, log, object_log, id, reading)
}
