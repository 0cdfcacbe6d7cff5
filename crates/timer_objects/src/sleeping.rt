//! The sleeps of sleepers.
ghost use Rattle.std.specs.Prelude.{◌≡◌, ◌≤◌, ◌<◌, ◌+◌, length};
ghost use Rattle.hr_timers.specs.Known.{IsPassOf};
ghost use Rattle.timer_objects.specs.declared.object.Kind.TheVariants as kinds;
ghost use Rattle.timer_objects.specs.Known.{IsObjectsPass, Suits, decl_at, most_noted};
ghost use Rattle.timer_objects.specs.Calls.{Interrupts, SleepMade, Sleeps};
ghost use Rattle.timer_objects.specs.Anew.{IsValidSleep};
ghost use Rattle.timer_objects.specs.Rearming.{IsCallerOf, KeepsNames, LeavesPasses, caller_of};

use crate::anew::{Anew, EndedAnew, ValidSleep};
use crate::log::ObjectLog;
use crate::object::Object;
use crate::objects::Objects;
use counted_row::RowPass;
use hr_timers::{Log, Pass, Timers};
use ktime::{Reading, TimeSpec};
use sleeper::time_of;
use std::sync::Wait;
use timer_setting::{BadArgument, InterruptAnswer, ObjectReply, SleepAnswer};

impl Objects {
    /// Begins a sleep of so long, or up to a time of the sleeper's clock (`clock_nanosleep`). It doesn't put its caller to sleep: the expiry of the sleeper's
    /// timer ends the sleep, and `slept` or an interrupt tells that. It waits while the timer's function is running, so that function can't call it.
    pub fn sleep<R: Wait>(
        &self,
        rt: &R,
        timers: &Timers,
        pass: &mut Pass,
        objects_pass: &mut RowPass<Object>,
        log: &mut Log,
        object_log: &mut ObjectLog,
        id: u32,
        flags: u64,
        time: TimeSpec,
        reading: Reading,
    ) -> SleepAnswer
        requires pass { IsPassOf timers.now pass.old }
        requires objects { IsObjectsPass self.now objects_pass.old }
        requires suits { Suits self.now timers.now.about }
        requires within { id < length self.now.decls }
        requires kind { (decl_at self.now id).kind ≡ kinds.Sleeper }
        requires room { (most_noted self.now timers.now.about id ≤ log.old.spare) × (1 ≤ object_log.old.spare) }
        ensures pass { IsPassOf timers.now pass.new }
        ensures objects { IsObjectsPass self.now objects_pass.new }
        ensures sleeps { Sleeps self.now timers.now.about (caller_of pass.old objects_pass.old log.old object_log.old) (caller_of pass.new objects_pass.new log.new object_log.new) id flags time reading result }
        ensures names { KeepsNames (caller_of pass.old objects_pass.old log.old object_log.old) (caller_of pass.new objects_pass.new log.new object_log.new) }
        ensures room { (log.old.spare ≤ log.new.spare + most_noted self.now timers.now.about id) × (object_log.old.spare ≤ object_log.new.spare + 1) }
    {
        let time = match time_of(flags, time) {
            Ok(time) => time,
            Err(BadArgument::Flags) => return SleepAnswer::BadFlags,
            Err(BadArgument::Time) => return SleepAnswer::BadTime,
        };
        let valid = ValidSleep {
            flags,
            time,
            reading,
        };
        self.sleep_valid(rt, timers, pass, objects_pass, log, object_log, id, valid)
    }

    /// A sleep with valid arguments.
    fn sleep_valid<R: Wait>(
        &self,
        rt: &R,
        timers: &Timers,
        pass: &mut Pass,
        objects_pass: &mut RowPass<Object>,
        log: &mut Log,
        object_log: &mut ObjectLog,
        id: u32,
        valid: ValidSleep,
    ) -> SleepAnswer
        requires may { IsCallerOf self.now timers.now pass.old objects_pass.old id }
        requires valid { IsValidSleep (decl_at self.now id).kind valid }
        requires room { (most_noted self.now timers.now.about id ≤ log.old.spare) × (1 ≤ object_log.old.spare) }
        ensures leaves { LeavesPasses self.now timers.now pass.new objects_pass.new }
        ensures made { SleepMade self.now timers.now.about (caller_of pass.old objects_pass.old log.old object_log.old) (caller_of pass.new objects_pass.new log.new object_log.new) id valid.flags valid.time valid.reading result }
        ensures names { KeepsNames (caller_of pass.old objects_pass.old log.old object_log.old) (caller_of pass.new objects_pass.new log.new object_log.new) }
        ensures room { (log.old.spare ≤ log.new.spare + most_noted self.now timers.now.about id) × (object_log.old.spare ≤ object_log.new.spare + 1) }
    {
        let call = &Anew::Sleep(valid);
        match self.arm_anew(rt, timers, pass, objects_pass, log, object_log, id, call) {
            EndedAnew::Full { stamp } => SleepAnswer::Spent { stamp },
            EndedAnew::Refused { stamp } => SleepAnswer::Occupied { stamp },
            EndedAnew::Made {
                reply: ObjectReply::Sleep(answer),
            } => answer,
            EndedAnew::Made { .. } => unreachable!(),
        }
    }

    /// Ends a sleep that goes on, as a signal does, or tells that its time has come. The sleeper is free then. It waits while the timer's function is
    /// running.
    pub fn interrupt<R: Wait>(
        &self,
        rt: &R,
        timers: &Timers,
        pass: &mut Pass,
        objects_pass: &mut RowPass<Object>,
        log: &mut Log,
        object_log: &mut ObjectLog,
        id: u32,
        reading: Reading,
    ) -> InterruptAnswer
        requires pass { IsPassOf timers.now pass.old }
        requires objects { IsObjectsPass self.now objects_pass.old }
        requires suits { Suits self.now timers.now.about }
        requires within { id < length self.now.decls }
        requires kind { (decl_at self.now id).kind ≡ kinds.Sleeper }
        requires room { (most_noted self.now timers.now.about id ≤ log.old.spare) × (1 ≤ object_log.old.spare) }
        ensures pass { IsPassOf timers.now pass.new }
        ensures objects { IsObjectsPass self.now objects_pass.new }
        ensures interrupts { Interrupts self.now timers.now.about (caller_of pass.old objects_pass.old log.old object_log.old) (caller_of pass.new objects_pass.new log.new object_log.new) id reading result }
        ensures names { KeepsNames (caller_of pass.old objects_pass.old log.old object_log.old) (caller_of pass.new objects_pass.new log.new object_log.new) }
        ensures room { (log.old.spare ≤ log.new.spare + most_noted self.now timers.now.about id) × (object_log.old.spare ≤ object_log.new.spare + 1) }
    {
        let call = &Anew::Interrupt { reading };
        match self.arm_anew(rt, timers, pass, objects_pass, log, object_log, id, call) {
            EndedAnew::Full { stamp } => InterruptAnswer::Spent { stamp },
            EndedAnew::Refused { stamp } => InterruptAnswer::Awake { stamp },
            EndedAnew::Made {
                reply: ObjectReply::Interrupt(answer),
            } => answer,
            EndedAnew::Made { .. } => unreachable!(),
        }
    }
}
