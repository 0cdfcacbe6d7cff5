//! Looks at objects, and gettime, which is one of a POSIX timer.
ghost use Rattle.std.specs.Prelude.{◌≡◌, ◌≤◌, ◌<◌, ◌+◌, length};
ghost use Rattle.pass_names.specs.SharedHistory.{LooksOn};
ghost use Rattle.hr_timers.specs.Known.{IsPassOf};
ghost use Rattle.timer_objects.specs.declared.object.Kind.TheVariants as kinds;
ghost use Rattle.timer_objects.specs.Known.{IsObjectsPass, Suits, decl_at, most_noted};
ghost use Rattle.timer_objects.specs.Steps.{IsObjectOf};
ghost use Rattle.timer_objects.specs.Turns.{turns_told};
ghost use Rattle.timer_objects.specs.Calls.{Gettimes, HasSetting, IsPosixKind, LooksOverrun, LooksReadable, LooksSlept, posix_in};
ghost use Rattle.timer_objects.specs.Rearming.{FindsObject, IsCallerOf, KeepsNames, LeavesPasses, caller_of};

use crate::answers::{Gettime, Overrun, Readable, Slept};
use crate::log::ObjectLog;
use crate::object::{Kind, Object};
use crate::objects::Objects;
use crate::wanting::{Ended, Rearming};
use counted_row::RowPass;
use hr_timers::{Log, Pass, Timers};
use ktime::Reading;
use posix_timer::PosixState;
use std::sync::Wait;
use timer_setting::{GettimeAnswer, ObjectReply};

impl Objects {
    /// How long until the next expiry, and the interval (`timer_gettime`, `timerfd_gettime`). A descriptor that is periodic and has expired is
    /// armed again, and its call makes an entry.
    pub fn gettime<R: Wait>(
        &self,
        rt: &R,
        timers: &Timers,
        pass: &mut Pass,
        objects_pass: &mut RowPass<Object>,
        log: &mut Log,
        object_log: &mut ObjectLog,
        id: u32,
        reading: Reading,
    ) -> Gettime
        requires pass { IsPassOf timers.now pass.old }
        requires objects { IsObjectsPass self.now objects_pass.old }
        requires suits { Suits self.now timers.now.about }
        requires within { id < length self.now.decls }
        requires kind { HasSetting (decl_at self.now id).kind }
        requires room { (most_noted self.now timers.now.about id ≤ log.old.spare) × (1 ≤ object_log.old.spare) }
        ensures pass { IsPassOf timers.now pass.new }
        ensures objects { IsObjectsPass self.now objects_pass.new }
        ensures gets { Gettimes self.now timers.now.about (caller_of pass.old objects_pass.old log.old object_log.old) (caller_of pass.new objects_pass.new log.new object_log.new) id reading (decl_at self.now id).kind result }
        ensures names { KeepsNames (caller_of pass.old objects_pass.old log.old object_log.old) (caller_of pass.new objects_pass.new log.new object_log.new) }
        ensures room { (log.old.spare ≤ log.new.spare + most_noted self.now timers.now.about id) × (object_log.old.spare ≤ object_log.new.spare + 1) }
    {
        match self.kind(id) {
            Kind::Raw | Kind::Sleeper => unreachable!(),
            Kind::Posix => {
                let (object, stamp) = self.look_at(rt, timers, pass, objects_pass, id);
                let Object::Posix(timer) = object else {
                    unreachable!()
                };
                let setting = timer.gettime(reading);
                Gettime::Left {
                    left: setting.left,
                    interval: setting.interval,
                    stamp,
                }
            }
            Kind::Queued => {
                let (object, stamp) = self.look_at(rt, timers, pass, objects_pass, id);
                let Object::Queued(queued) = object else {
                    unreachable!()
                };
                let setting = queued.timer.gettime(reading);
                Gettime::Left {
                    left: setting.left,
                    interval: setting.interval,
                    stamp,
                }
            }
            Kind::Fd => {
                self.gettime_fd(rt, timers, pass, objects_pass, log, object_log, id, reading)
            }
        }
    }

    /// The same of a descriptor.
    fn gettime_fd<R: Wait>(
        &self,
        rt: &R,
        timers: &Timers,
        pass: &mut Pass,
        objects_pass: &mut RowPass<Object>,
        log: &mut Log,
        object_log: &mut ObjectLog,
        id: u32,
        reading: Reading,
    ) -> Gettime
        requires may { IsCallerOf self.now timers.now pass.old objects_pass.old id }
        requires kind { (decl_at self.now id).kind ≡ kinds.Fd }
        requires room { (most_noted self.now timers.now.about id ≤ log.old.spare) × (1 ≤ object_log.old.spare) }
        ensures leaves { LeavesPasses self.now timers.now pass.new objects_pass.new }
        ensures gets { Gettimes self.now timers.now.about (caller_of pass.old objects_pass.old log.old object_log.old) (caller_of pass.new objects_pass.new log.new object_log.new) id reading kinds.Fd result }
        ensures names { KeepsNames (caller_of pass.old objects_pass.old log.old object_log.old) (caller_of pass.new objects_pass.new log.new object_log.new) }
        ensures room { (log.old.spare ≤ log.new.spare + most_noted self.now timers.now.about id) × (object_log.old.spare ≤ object_log.new.spare + 1) }
    {
        let call = Rearming::Getting;
        let ended = self.rearm(
            rt,
            timers,
            pass,
            objects_pass,
            log,
            object_log,
            id,
            call,
            reading,
        );
        match ended {
            Ended::Full { stamp } => Gettime::Spent { stamp },
            Ended::Made {
                stamp,
                reply: ObjectReply::Gettime(GettimeAnswer::Left { left, interval }),
            } => Gettime::Left {
                left,
                interval,
                stamp,
            },
            Ended::Made { .. } => unreachable!(),
        }
    }

    /// An object as it is, and how many entries its history has, at a moment among the entries of timers.
    pub fn look_at<R: Wait>(
        &self,
        rt: &R,
        timers: &Timers,
        pass: &mut Pass,
        objects_pass: &mut RowPass<Object>,
        id: u32,
    ) -> (Object, u64)
        requires pass { IsPassOf timers.now pass.old }
        requires objects { IsObjectsPass self.now objects_pass.old }
        requires suits { Suits self.now timers.now.about }
        requires within { id < length self.now.decls }
        ensures pass { IsPassOf timers.now pass.new }
        ensures objects { IsObjectsPass self.now objects_pass.new }
        ensures finds { FindsObject objects_pass.old objects_pass.new id result.0 result.1 }
        ensures looks { LooksOn pass.old.known pass.new.known }
        ensures told { turns_told id pass.new.known ≡ result.1 + result.1 }
        ensures name { objects_pass.new.knows.pass.id ≡ objects_pass.old.knows.pass.id }
        ensures kind { IsObjectOf (decl_at self.now id) self.now.limit result.1 result.0 }
    {
        let held = self.lock_in_turn(rt, timers, pass, objects_pass, id);
        let object = *held.state();
        let stamp = self.release(objects_pass, held);
        (object, stamp)
    }

    /// Whether a descriptor is ready to be read (`poll(2)`).
    pub fn readable<R: Wait>(
        &self,
        rt: &R,
        timers: &Timers,
        pass: &mut Pass,
        objects_pass: &mut RowPass<Object>,
        _log: &mut Log,
        _object_log: &mut ObjectLog,
        id: u32,
        reading: Reading,
    ) -> Readable
        requires pass { IsPassOf timers.now pass.old }
        requires objects { IsObjectsPass self.now objects_pass.old }
        requires suits { Suits self.now timers.now.about }
        requires within { id < length self.now.decls }
        requires kind { (decl_at self.now id).kind ≡ kinds.Fd }
        ensures pass { IsPassOf timers.now pass.new }
        ensures objects { IsObjectsPass self.now objects_pass.new }
        ensures looks { LooksReadable (caller_of pass.old objects_pass.old _log.old _object_log.old) (caller_of pass.new objects_pass.new _log.new _object_log.new) id reading result }
        ensures name { objects_pass.new.knows.pass.id ≡ objects_pass.old.knows.pass.id }
        ensures untouched { (_log.new ≡ _log.old) × (_object_log.new ≡ _object_log.old) }
    {
        let (object, stamp) = self.look_at(rt, timers, pass, objects_pass, id);
        let Object::Fd(timer) = object else {
            unreachable!()
        };
        Readable {
            ready: timer.readable(reading),
            stamp,
        }
    }

    /// How many further periods had passed when the last signal of a POSIX timer was accepted (`timer_getoverrun`).
    pub fn getoverrun<R: Wait>(
        &self,
        rt: &R,
        timers: &Timers,
        pass: &mut Pass,
        objects_pass: &mut RowPass<Object>,
        _log: &mut Log,
        _object_log: &mut ObjectLog,
        id: u32,
    ) -> Overrun
        requires pass { IsPassOf timers.now pass.old }
        requires objects { IsObjectsPass self.now objects_pass.old }
        requires suits { Suits self.now timers.now.about }
        requires within { id < length self.now.decls }
        requires kind { IsPosixKind (decl_at self.now id).kind }
        ensures pass { IsPassOf timers.now pass.new }
        ensures objects { IsObjectsPass self.now objects_pass.new }
        ensures looks { LooksOverrun (caller_of pass.old objects_pass.old _log.old _object_log.old) (caller_of pass.new objects_pass.new _log.new _object_log.new) id result }
        ensures name { objects_pass.new.knows.pass.id ≡ objects_pass.old.knows.pass.id }
        ensures untouched { (_log.new ≡ _log.old) × (_object_log.new ≡ _object_log.old) }
    {
        let (object, stamp) = self.look_at(rt, timers, pass, objects_pass, id);
        let Some(timer) = posix_of(&object) else {
            unreachable!()
        };
        Overrun {
            overrun: timer.getoverrun(),
            stamp,
        }
    }

    /// Whether a sleep goes on, or its time has come, or neither.
    pub fn slept<R: Wait>(
        &self,
        rt: &R,
        timers: &Timers,
        pass: &mut Pass,
        objects_pass: &mut RowPass<Object>,
        _log: &mut Log,
        _object_log: &mut ObjectLog,
        id: u32,
    ) -> Slept
        requires pass { IsPassOf timers.now pass.old }
        requires objects { IsObjectsPass self.now objects_pass.old }
        requires suits { Suits self.now timers.now.about }
        requires within { id < length self.now.decls }
        requires kind { (decl_at self.now id).kind ≡ kinds.Sleeper }
        ensures pass { IsPassOf timers.now pass.new }
        ensures objects { IsObjectsPass self.now objects_pass.new }
        ensures looks { LooksSlept (caller_of pass.old objects_pass.old _log.old _object_log.old) (caller_of pass.new objects_pass.new _log.new _object_log.new) id result }
        ensures name { objects_pass.new.knows.pass.id ≡ objects_pass.old.knows.pass.id }
        ensures untouched { (_log.new ≡ _log.old) × (_object_log.new ≡ _object_log.old) }
    {
        let (object, stamp) = self.look_at(rt, timers, pass, objects_pass, id);
        let Object::Sleeper(sleeper) = object else {
            unreachable!()
        };
        Slept {
            answer: sleeper.slept(),
            stamp,
        }
    }
}

/// The POSIX timer that an object is, with queued signals or not.
fn posix_of(object: &Object) -> Option<PosixState>
    ensures { result ≡ posix_in object.now }
{
    match object {
        Object::Posix(timer) => Some(*timer),
        Object::Queued(queued) => Some(queued.timer),
        Object::Raw | Object::Fd(_) | Object::Sleeper(_) => None,
    }
}
