//! The calls that arm their object's timer again, where that is periodic and has expired: accept and read, and what a gettime shares with them.
ghost use Rattle.std.specs.Prelude.{◌≡◌, ◌≤◌, ◌<◌, ◌+◌, length};
ghost use Rattle.hr_timers.specs.Known.{IsPassOf, PassOf};
ghost use Rattle.timer_objects.specs.declared.object.Kind.TheVariants as kinds;
ghost use Rattle.timer_objects.specs.Known.{IsObjectsPass, ObjectsPass, Suits, decl_at, most_noted};
ghost use Rattle.timer_objects.specs.Calls.{Accepts, IsPosixKind, ReadsFd, rearming_call};
ghost use Rattle.timer_objects.specs.Rearming.{Ends, EndsAt, IsEntryNumber, HasLocked, HasRearming, IsHolding, KeepsNames, LeavesPasses, IsCallerOf, caller_of};

use crate::arming::arm;
use crate::log::ObjectLog;
use crate::object::Object;
use crate::objects::Objects;
use crate::turns::{begin, end};
use crate::wanting::{COUNT_LENGTH, Ended, Rearming, wanted};
use counted_row::{Held, RowPass};
use hr_timers::{Log, Pass, Timers};
use ktime::Reading;
use std::sync::Wait;
use timer_setting::{AcceptAnswer, Arm, ObjectCall, ObjectReply, ReadAnswer};

impl Objects {
    /// Accepts the pending signal of a POSIX timer (`sigwaitinfo`). A periodic timer is then armed again.
    pub fn accept<R: Wait>(
        &self,
        rt: &R,
        timers: &Timers,
        pass: &mut Pass,
        objects_pass: &mut RowPass<Object>,
        log: &mut Log,
        object_log: &mut ObjectLog,
        id: u32,
        reading: Reading,
    ) -> AcceptAnswer
        requires pass { IsPassOf timers.now pass.old }
        requires objects { IsObjectsPass self.now objects_pass.old }
        requires suits { Suits self.now timers.now.about }
        requires within { id < length self.now.decls }
        requires kind { IsPosixKind (decl_at self.now id).kind }
        requires room { (most_noted self.now timers.now.about id ≤ log.old.spare) × (1 ≤ object_log.old.spare) }
        ensures pass { IsPassOf timers.now pass.new }
        ensures objects { IsObjectsPass self.now objects_pass.new }
        ensures accepts { Accepts self.now timers.now.about (caller_of pass.old objects_pass.old log.old object_log.old) (caller_of pass.new objects_pass.new log.new object_log.new) id reading result }
        ensures names { KeepsNames (caller_of pass.old objects_pass.old log.old object_log.old) (caller_of pass.new objects_pass.new log.new object_log.new) }
        ensures room { (log.old.spare ≤ log.new.spare + most_noted self.now timers.now.about id) × (object_log.old.spare ≤ object_log.new.spare + 1) }
    {
        let call = Rearming::Accepting;
        match self.rearm(
            rt,
            timers,
            pass,
            objects_pass,
            log,
            object_log,
            id,
            call,
            reading,
        ) {
            Ended::Full { stamp } => AcceptAnswer::Spent { stamp },
            Ended::Made {
                stamp: _,
                reply: ObjectReply::Accept(answer),
            } => answer,
            Ended::Made { .. } => unreachable!(),
        }
    }

    /// Reads how often a descriptor's timer has expired, into a buffer of so many bytes (`read(2)`). A periodic timer is then armed again.
    pub fn read<R: Wait>(
        &self,
        rt: &R,
        timers: &Timers,
        pass: &mut Pass,
        objects_pass: &mut RowPass<Object>,
        log: &mut Log,
        object_log: &mut ObjectLog,
        id: u32,
        len: u64,
        reading: Reading,
    ) -> ReadAnswer
        requires pass { IsPassOf timers.now pass.old }
        requires objects { IsObjectsPass self.now objects_pass.old }
        requires suits { Suits self.now timers.now.about }
        requires within { id < length self.now.decls }
        requires kind { (decl_at self.now id).kind ≡ kinds.Fd }
        requires room { (most_noted self.now timers.now.about id ≤ log.old.spare) × (1 ≤ object_log.old.spare) }
        ensures pass { IsPassOf timers.now pass.new }
        ensures objects { IsObjectsPass self.now objects_pass.new }
        ensures reads { ReadsFd self.now timers.now.about (caller_of pass.old objects_pass.old log.old object_log.old) (caller_of pass.new objects_pass.new log.new object_log.new) id len reading result }
        ensures names { KeepsNames (caller_of pass.old objects_pass.old log.old object_log.old) (caller_of pass.new objects_pass.new log.new object_log.new) }
        ensures room { (log.old.spare ≤ log.new.spare + most_noted self.now timers.now.about id) × (object_log.old.spare ≤ object_log.new.spare + 1) }
    {
        if len < COUNT_LENGTH {
            return ReadAnswer::ShortBuffer;
        }
        let call = Rearming::Reading;
        match self.rearm(
            rt,
            timers,
            pass,
            objects_pass,
            log,
            object_log,
            id,
            call,
            reading,
        ) {
            Ended::Full { stamp } => ReadAnswer::Spent { stamp },
            Ended::Made {
                stamp: _,
                reply: ObjectReply::Read(answer),
            } => answer,
            Ended::Made { .. } => unreachable!(),
        }
    }

    /// Makes such a call, in the object's turn.
    pub(crate) fn rearm<R: Wait>(
        &self,
        rt: &R,
        timers: &Timers,
        pass: &mut Pass,
        objects_pass: &mut RowPass<Object>,
        log: &mut Log,
        object_log: &mut ObjectLog,
        id: u32,
        call: Rearming,
        reading: Reading,
    ) -> Ended
        requires may { IsCallerOf self.now timers.now pass.old objects_pass.old id }
        requires kind { HasRearming call (decl_at self.now id).kind }
        requires room { (most_noted self.now timers.now.about id ≤ log.old.spare) × (1 ≤ object_log.old.spare) }
        ensures leaves { LeavesPasses self.now timers.now pass.new objects_pass.new }
        ensures ends { Ends self.now timers.now.about (caller_of pass.old objects_pass.old log.old object_log.old) (caller_of pass.new objects_pass.new log.new object_log.new) id call reading result }
        ensures names { KeepsNames (caller_of pass.old objects_pass.old log.old object_log.old) (caller_of pass.new objects_pass.new log.new object_log.new) }
        ensures room { (log.old.spare ≤ log.new.spare + most_noted self.now timers.now.about id) × (object_log.old.spare ≤ object_log.new.spare + 1) }
    {
        let held = self.lock_in_turn(rt, timers, pass, objects_pass, id);
        if self.is_full(&held) {
            let stamp = self.release(objects_pass, held);
            return Ended::Full { stamp };
        }
        self.rearm_held(
            rt,
            timers,
            pass,
            objects_pass,
            log,
            object_log,
            id,
            call,
            reading,
            held,
        )
    }

    /// Makes such a call on a held object whose history has room, in the object's turn, and lets it go.
    pub(crate) fn rearm_held<R: Wait>(
        &self,
        rt: &R,
        timers: &Timers,
        pass: &mut Pass,
        objects_pass: &mut RowPass<Object>,
        log: &mut Log,
        object_log: &mut ObjectLog,
        id: u32,
        call: Rearming,
        reading: Reading,
        held: Held<Object>,
    ) -> Ended
        requires holding { IsHolding self.now timers.now pass.old objects_pass.old id held }
        requires kind { HasRearming call (decl_at self.now id).kind }
        requires room { (most_noted self.now timers.now.about id ≤ log.old.spare) × (1 ≤ object_log.old.spare) }
        ensures leaves { LeavesPasses self.now timers.now pass.new objects_pass.new }
        ensures ends { (first : PassOf) (begun : ObjectsPass) → HasLocked self.now first pass.old begun objects_pass.old id held → EndsAt self.now timers.now.about (caller_of first begun log.old object_log.old) (caller_of pass.new objects_pass.new log.new object_log.new) id call reading result held.state }
        ensures number { IsEntryNumber (held.stamp + 1) result }
        ensures room { (log.old.spare ≤ log.new.spare + most_noted self.now timers.now.about id) × (object_log.old.spare ≤ object_log.new.spare + 1) }
    {
        let stamp = held.stamp();
        let number = stamp + 1;
        let turn = begin(rt, timers, pass, id, stamp);
        let wants = wanted(call, held.state(), reading);
        let base = self.decl(id).base;
        let outcome = arm(rt, timers, pass, log, id, wants, base, reading);
        end(rt, timers, pass, turn);
        let made = call_of(call, reading, outcome);
        let reply = self.enter(objects_pass, held, object_log, id, &made);
        Ended::Made {
            stamp: number,
            reply,
        }
    }
}

/// The call as it is entered, with the outcome of its start.
fn call_of(call: Rearming, reading: Reading, arm: Arm) -> ObjectCall
    ensures { result ≡ rearming_call call reading arm }
{
    match call {
        Rearming::Accepting => ObjectCall::Accept { reading, arm },
        Rearming::Reading => ObjectCall::Read { reading, arm },
        Rearming::Getting => ObjectCall::Gettime { reading, arm },
    }
}
