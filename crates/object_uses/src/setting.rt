//! A settime, and what it leaves of the passes by which it is made.
ghost use Rattle.std.specs.Prelude.{◌≤◌, ◌+◌};
ghost use Rattle.timer_objects.specs.Known.{decl_at, most_noted};
ghost use Rattle.timer_objects.specs.Calls.{HasSetting, Settimes};
ghost use Rattle.timer_objects.specs.Rearming.{caller_of};
ghost use Rattle.object_uses.specs.Callers.{KeepsPasses, MayCall};

use counted_row::RowPass;
use hr_timers::{Log, Pass, Timers};
use ktime::{Reading, TimeSpec};
use std::sync::Wait;
use timer_fd::SettimeAnswer;
use timer_objects::{Object, ObjectLog, Objects};

/// Arms an object's timer anew, to expire after these nanoseconds, and then at each interval. Both are below a second.
pub fn set_timer<R: Wait>(
    rt: &R,
    timers: &Timers,
    pass: &mut Pass,
    objects: &Objects,
    objects_pass: &mut RowPass<Object>,
    log: &mut Log,
    object_log: &mut ObjectLog,
    id: u32,
    flags: u64,
    ns: u64,
    interval: u64,
    reading: Reading,
) -> SettimeAnswer
    requires may { MayCall timers.now objects.now pass.old objects_pass.old log.old object_log.old id }
    requires kind { HasSetting (decl_at objects.now id).kind }
    ensures keeps { KeepsPasses timers.now objects.now pass.old pass.new objects_pass.old objects_pass.new }
    ensures settimes { Settimes objects.now timers.now.about (caller_of pass.old objects_pass.old log.old object_log.old) (caller_of pass.new objects_pass.new log.new object_log.new) id flags (record { sec = 0; nsec = ns }) (record { sec = 0; nsec = interval }) reading result }
    ensures room { (log.old.spare ≤ log.new.spare + most_noted objects.now timers.now.about id) × (object_log.old.spare ≤ object_log.new.spare + 1) }
{
    let value = TimeSpec { sec: 0, nsec: ns };
    let every = TimeSpec {
        sec: 0,
        nsec: interval,
    };
    objects.settime(
        rt,
        timers,
        pass,
        objects_pass,
        log,
        object_log,
        id,
        flags,
        value,
        every,
        reading,
    )
}
