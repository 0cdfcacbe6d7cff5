//! The settime of an object.
ghost use Rattle.std.specs.Prelude.{◌≡◌, ◌≤◌, ◌<◌, ◌+◌, length};
ghost use Rattle.timer_setting.specs.Arguments.{bits_beyond, checked_times};
ghost use Rattle.hr_timers.specs.Known.{IsPassOf};
ghost use Rattle.timer_objects.specs.Known.{IsObjectsPass, Suits, decl_at, most_noted};
ghost use Rattle.timer_objects.specs.Calls.{HasSetting, SettimeMade, Settimes, flags_of};
ghost use Rattle.timer_objects.specs.Anew.{IsValidSettime};
ghost use Rattle.timer_objects.specs.Rearming.{IsCallerOf, KeepsNames, LeavesPasses, caller_of};

use crate::anew::{Anew, EndedAnew, ValidSettime};
use crate::log::ObjectLog;
use crate::object::{Kind, Object};
use crate::objects::Objects;
use counted_row::RowPass;
use hr_timers::{Log, Pass, Timers};
use ktime::{Reading, TimeSpec};
use std::sync::Wait;
use timer_setting::{BadArgument, ObjectReply, SettimeAnswer};

impl Objects {
    /// Arms an object's timer anew, or disarms it by the value 0 (`timer_settime`, `timerfd_settime`). It waits while the timer's function is
    /// running, so that function can't call it. `log` gets the receipts of the timer's entries, `object_log` that of the object's.
    pub fn settime<R: Wait>(
        &self,
        rt: &R,
        timers: &Timers,
        pass: &mut Pass,
        objects_pass: &mut RowPass<Object>,
        log: &mut Log,
        object_log: &mut ObjectLog,
        id: u32,
        flags: u64,
        value: TimeSpec,
        interval: TimeSpec,
        reading: Reading,
    ) -> SettimeAnswer
        requires timers { IsPassOf timers.now pass.old }
        requires objects { IsObjectsPass self.now objects_pass.old }
        requires suits { Suits self.now timers.now.about }
        requires within { id < length self.now.decls }
        requires kind { HasSetting (decl_at self.now id).kind }
        requires room { (most_noted self.now timers.now.about id ≤ log.old.spare) × (0 < object_log.old.spare) }
        ensures timers { IsPassOf timers.now pass.new }
        ensures objects { IsObjectsPass self.now objects_pass.new }
        ensures settimes { Settimes self.now timers.now.about (caller_of pass.old objects_pass.old log.old object_log.old) (caller_of pass.new objects_pass.new log.new object_log.new) id flags value interval reading result }
        ensures names { KeepsNames (caller_of pass.old objects_pass.old log.old object_log.old) (caller_of pass.new objects_pass.new log.new object_log.new) }
        ensures room { (log.old.spare ≤ log.new.spare + most_noted self.now timers.now.about id) × (object_log.old.spare ≤ object_log.new.spare + 1) }
    {
        let (value, interval) = match times_by(self.kind(id), flags, value, interval) {
            Ok(times) => times,
            Err(BadArgument::Flags) => return SettimeAnswer::BadFlags,
            Err(BadArgument::Time) => return SettimeAnswer::BadTime,
        };
        let valid = ValidSettime {
            flags,
            value,
            interval,
            reading,
        };
        self.settime_valid(rt, timers, pass, objects_pass, log, object_log, id, valid)
    }

    /// A settime with valid arguments.
    fn settime_valid<R: Wait>(
        &self,
        rt: &R,
        timers: &Timers,
        pass: &mut Pass,
        objects_pass: &mut RowPass<Object>,
        log: &mut Log,
        object_log: &mut ObjectLog,
        id: u32,
        valid: ValidSettime,
    ) -> SettimeAnswer
        requires may { IsCallerOf self.now timers.now pass.old objects_pass.old id }
        requires valid { IsValidSettime (decl_at self.now id).kind valid }
        requires room { (most_noted self.now timers.now.about id ≤ log.old.spare) × (1 ≤ object_log.old.spare) }
        ensures leaves { LeavesPasses self.now timers.now pass.new objects_pass.new }
        ensures made { SettimeMade self.now timers.now.about (caller_of pass.old objects_pass.old log.old object_log.old) (caller_of pass.new objects_pass.new log.new object_log.new) id valid.flags valid.value valid.interval valid.reading result }
        ensures names { KeepsNames (caller_of pass.old objects_pass.old log.old object_log.old) (caller_of pass.new objects_pass.new log.new object_log.new) }
        ensures room { (log.old.spare ≤ log.new.spare + most_noted self.now timers.now.about id) × (object_log.old.spare ≤ object_log.new.spare + 1) }
    {
        let call = &Anew::Settime(valid);
        match self.arm_anew(rt, timers, pass, objects_pass, log, object_log, id, call) {
            EndedAnew::Full { stamp } => SettimeAnswer::Spent { stamp },
            EndedAnew::Made {
                reply: ObjectReply::Settime(answer),
            } => answer,
            EndedAnew::Refused { .. } | EndedAnew::Made { .. } => unreachable!(),
        }
    }
}

/// A settime's value and interval in nanoseconds, or why an object of this kind refuses its arguments.
fn times_by(
    kind: Kind,
    flags: u64,
    value: TimeSpec,
    interval: TimeSpec,
) -> Result<(u64, u64), BadArgument>
    ensures { result ≡ checked_times (bits_beyond (flags_of kind) flags) value interval }
{
    match kind {
        Kind::Raw | Kind::Posix | Kind::Sleeper | Kind::Queued => {
            posix_timer::times_of(flags, value, interval)
        }
        Kind::Fd => timer_fd::times_of(flags, value, interval),
    }
}
