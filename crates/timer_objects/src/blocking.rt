//! A read of a descriptor that waits until there is something to read.
ghost use Rattle.std.specs.Prelude.{◌≡◌, ◌≤◌, ◌<◌, ◌+◌, length, true, false, IfNone, MatchOption};
ghost use Rattle.pass_names.specs.Passes.{Looks};
ghost use Rattle.clock_cell.specs.Views.{IsPassOfClock, seen_reading};
ghost use Rattle.hr_timers.specs.Known.{IsPassOf};
ghost use Rattle.timer_objects.specs.declared.object.Kind.TheVariants as kinds;
ghost use Rattle.timer_objects.specs.Known.{IsObjectsPass, Suits, decl_at, most_noted};
ghost use Rattle.timer_objects.specs.Calls.{HasWaited};
ghost use Rattle.timer_objects.specs.Rearming.{KeepsNames, LeavesPasses, IsCallerOf, caller_of};
ghost use Rattle.timer_objects.specs.BlockingReads.{AnswersBy, EndedByRead, EndsRead, FindsNothing, HasSome, ReadsBlocking};

use crate::answers::BlockingRead;
use crate::log::ObjectLog;
use crate::object::Object;
use crate::objects::Objects;
use crate::readers::Reader;
use crate::wanting::{COUNT_LENGTH, Ended, Rearming};
use clock_cell::{ClockPass, SharedClock};
use counted_row::RowPass;
use hr_timers::{Log, Pass, Timers};
use ktime::Reading;
use std::sync::Wait;
use timer_setting::{ObjectReply, ReadAnswer};

impl Objects {
    /// Reads how often a reader's descriptor has expired, as `read` does, but waits while there is nothing to read (`read(2)` of a descriptor
    /// without `TFD_NONBLOCK`). Each try reads the clock once it has the object's lock, by `ordered_clock::read`: so counter 0 of the timers is this clock's, and
    /// a reading has its place among their entries where the clock is written by `ordered_clock::write`. Only for objects that `make_blocking` made: of others no reader is woken. It ends where an expiry is
    /// counted by an expiry run with these objects, or a write of the clock is told by `clock_was_set`.
    pub fn read_wait<R: Wait>(
        &self,
        rt: &R,
        timers: &Timers,
        pass: &mut Pass,
        objects_pass: &mut RowPass<Object>,
        log: &mut Log,
        object_log: &mut ObjectLog,
        reader: &mut Reader,
        len: u64,
        clock: &SharedClock,
        clock_pass: &mut ClockPass,
    ) -> BlockingRead
        requires pass { IsPassOf timers.now pass.old }
        requires objects { IsObjectsPass self.now objects_pass.old }
        requires suits { Suits self.now timers.now.about }
        requires within { reader.old < length self.now.decls }
        requires kind { (decl_at self.now reader.old).kind ≡ kinds.Fd }
        requires clock { IsPassOfClock clock.now clock_pass.old }
        requires room { (most_noted self.now timers.now.about reader.old ≤ log.old.spare) × (1 ≤ object_log.old.spare) }
        ensures pass { IsPassOf timers.now pass.new }
        ensures objects { IsObjectsPass self.now objects_pass.new }
        ensures clock { IsPassOfClock clock.now clock_pass.new }
        ensures reads { ReadsBlocking self.now timers.now.about (caller_of pass.old objects_pass.old log.old object_log.old) (caller_of pass.new objects_pass.new log.new object_log.new) reader.old len (seen_reading clock_pass.new.knows) result }
        ensures looks { Looks clock_pass.old.knows.pass clock_pass.new.knows.pass }
        ensures names { KeepsNames (caller_of pass.old objects_pass.old log.old object_log.old) (caller_of pass.new objects_pass.new log.new object_log.new) }
        ensures reader { reader.new ≡ reader.old }
        ensures room { (log.old.spare ≤ log.new.spare + most_noted self.now timers.now.about reader.old) × (object_log.old.spare ≤ object_log.new.spare + 1) }
    {
        if len < COUNT_LENGTH {
            return BlockingRead::ShortBuffer;
        }
        let id = reader.id();
        for _ in rt.forever() {
            let tried = self.try_read(
                rt,
                timers,
                pass,
                objects_pass,
                log,
                object_log,
                id,
                clock,
                clock_pass,
            );
            match tried {
                Some(ended) => return answer_of(ended),
                None => reader.wait(rt),
            }
        }
        unreachable!()
    }

    /// Reads if there is something to read, while the descriptor is locked.
    fn try_read<R: Wait>(
        &self,
        rt: &R,
        timers: &Timers,
        pass: &mut Pass,
        objects_pass: &mut RowPass<Object>,
        log: &mut Log,
        object_log: &mut ObjectLog,
        id: u32,
        clock: &SharedClock,
        clock_pass: &mut ClockPass,
    ) -> Option<Ended>
        requires may { IsCallerOf self.now timers.now pass.old objects_pass.old id }
        requires kind { (decl_at self.now id).kind ≡ kinds.Fd }
        requires clock { IsPassOfClock clock.now clock_pass.old }
        requires room { (most_noted self.now timers.now.about id ≤ log.old.spare) × (1 ≤ object_log.old.spare) }
        ensures leaves { LeavesPasses self.now timers.now pass.new objects_pass.new }
        ensures clock { IsPassOfClock clock.now clock_pass.new }
        ensures looks { Looks clock_pass.old.knows.pass clock_pass.new.knows.pass }
        ensures reads { MatchOption result (HasWaited (caller_of pass.old objects_pass.old log.old object_log.old) (caller_of pass.new objects_pass.new log.new object_log.new)) (λ e. EndsRead self.now timers.now.about (caller_of pass.old objects_pass.old log.old object_log.old) (caller_of pass.new objects_pass.new log.new object_log.new) id (seen_reading clock_pass.new.knows) e) }
        ensures again { IfNone result ((log.new ≡ log.old) × (object_log.new ≡ object_log.old)) }
        ensures why { IfNone result (FindsNothing self.now (caller_of pass.old objects_pass.old log.old object_log.old) (caller_of pass.new objects_pass.new log.new object_log.new) id (seen_reading clock_pass.new.knows)) }
        ensures room { (log.old.spare ≤ log.new.spare + most_noted self.now timers.now.about id) × (object_log.old.spare ≤ object_log.new.spare + 1) }
    {
        let held = self.lock_in_turn(rt, timers, pass, objects_pass, id);
        if self.is_full(&held) {
            let stamp = self.release(objects_pass, held);
            return Some(Ended::Full { stamp });
        }
        let reading = ordered_clock::read(rt, timers, pass, clock, clock_pass);
        if !has_some(held.state(), reading) {
            self.release(objects_pass, held);
            return None;
        }
        let ended = self.rearm_held(
            rt,
            timers,
            pass,
            objects_pass,
            log,
            object_log,
            id,
            Rearming::Reading,
            reading,
            held,
        );
        Some(ended)
    }
}

/// Whether an object is a descriptor that has something to read.
fn has_some(object: &Object, reading: Reading) -> bool
    ensures some { result ≡ true → HasSome reading object.now }
    ensures none { result ≡ false → HasSome reading object.now → ⊥ }
{
    match object {
        Object::Fd(timer) => timer.readable(reading),
        Object::Raw | Object::Posix(_) | Object::Sleeper(_) | Object::Queued(_) => false,
    }
}

/// The answer of a read that ended so.
fn answer_of(ended: Ended) -> BlockingRead
    requires read { EndedByRead ended }
    ensures { AnswersBy ended result }
{
    match ended {
        Ended::Full { stamp } => BlockingRead::Spent { stamp },
        Ended::Made {
            stamp: _,
            reply: ObjectReply::Read(answer),
        } => match answer {
            ReadAnswer::Count { total } => BlockingRead::Count { total },
            ReadAnswer::Again => BlockingRead::Zero,
            ReadAnswer::Canceled => BlockingRead::Canceled,
            ReadAnswer::ShortBuffer | ReadAnswer::Spent { .. } => unreachable!(),
        },
        Ended::Made { .. } => unreachable!(),
    }
}
