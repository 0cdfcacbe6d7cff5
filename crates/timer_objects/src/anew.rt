//! Calls that disarm their object's timer, and start it where they want that: a settime, a sleep and an interrupt. Each is tried again while the timer's
//! function is running.
ghost use Rattle.std.specs.Prelude.{◌≡◌, ◌≢◌, ◌≤◌, ◌<◌, ◌+◌, ◌^◌, false, length, IfNone, IfSome, MatchOption};
ghost use Rattle.pass_names.specs.SharedHistory.{LooksOn};
ghost use Rattle.seq_timer.specs.Tables.{timer_at};
ghost use Rattle.timer_setting.specs.Arguments.{start_by};
ghost use Rattle.timer_setting.specs.Phases.{IsOutcomeOf};
ghost use Rattle.hr_timers.specs.Known.{IsPassOf, PassOf};
ghost use Rattle.hr_timers.specs.Ways.{most_to_start};
ghost use Rattle.timer_objects.specs.Known.{ObjectsPass, decl_at, most_noted};
ghost use Rattle.timer_objects.specs.Calls.{HasWaited};
ghost use Rattle.timer_objects.specs.Rearming.{HasLocked, IsHolding, KeepsNames, LeavesPasses, IsCallerOf, caller_of};
ghost use Rattle.timer_objects.specs.Turns.{turns_counter};
ghost use Rattle.timer_objects.specs.Anew.{EndsAnew, IsValidAnew, DisarmsAndArms, anew_call, anew_reading, anew_wanted, refuses};
ghost use Rattle.timer_objects.specs.Waiting.{HasToWait, IsHindered};

use crate::arming::{arm, disarm};
use crate::log::ObjectLog;
use crate::object::{Decl, Object};
use crate::objects::Objects;
use crate::turns::{Turn, end};
use counted_row::{Held, RowPass};
use hr_timers::{Log, Pass, Timers};
use ktime::{ClockId, Mode, Reading};
use pass_names::Retries;
use sleeper::sleep_start;
use std::sync::Wait;
use timer_setting::{ABSTIME, Arm, ObjectCall, ObjectReply, SettimeCall, SleepCall, Wanted};

/// The arguments of a settime that are valid, times in nanoseconds.
#[derive(Clone, Copy, Debug, PartialEq, Eq)]
pub struct ValidSettime {
    pub flags: u64,
    pub value: u64,
    pub interval: u64,
    pub reading: Reading,
}

/// The arguments of a sleep that are valid, its time in nanoseconds.
#[derive(Clone, Copy, Debug, PartialEq, Eq)]
pub struct ValidSleep {
    pub flags: u64,
    pub time: u64,
    pub reading: Reading,
}

/// A call with valid arguments that disarms its object's timer, and starts it where it wants that.
#[derive(Clone, Copy, Debug, PartialEq, Eq)]
pub enum Anew {
    Settime(ValidSettime),
    Sleep(ValidSleep),
    Interrupt { reading: Reading },
}

/// How such a call ended.
#[derive(Clone, Copy, Debug, PartialEq, Eq)]
pub enum EndedAnew {
    /// The object's history is full.
    Full { stamp: u64 },
    /// The object refuses the call, as it is after so many entries.
    Refused { stamp: u64 },
    /// Its entry was made.
    Made { reply: ObjectReply },
}

impl Anew {
    /// The reading that it is made with.
    fn reading(&self) -> Reading
        ensures { result ≡ anew_reading self.now }
    {
        match self {
            Anew::Settime(valid) => valid.reading,
            Anew::Sleep(valid) => valid.reading,
            Anew::Interrupt { reading } => *reading,
        }
    }

    /// The start that it wants, of an object of this declaration.
    fn wants(&self, decl: Decl) -> Option<Wanted>
        requires valid { IsValidAnew decl.kind self.now }
        ensures { result ≡ anew_wanted decl.clock self.now }
    {
        match self {
            Anew::Settime(valid) => wanted_by(valid.flags, valid.value),
            Anew::Sleep(valid) => {
                sleep_start(decl.clock, valid.flags, valid.time, valid.reading)
            }
            Anew::Interrupt { .. } => None,
        }
    }

    /// Whether an object whose history has room refuses it.
    fn is_refused(&self, object: &Object) -> bool
        ensures { result ≡ refuses self.now object.now }
    {
        match (self, object) {
            (Anew::Sleep(_), Object::Sleeper(sleeper)) => !sleeper.is_free(),
            (Anew::Interrupt { .. }, Object::Sleeper(sleeper)) => sleeper.is_free(),
            _ => false,
        }
    }

    /// The call as it is entered, with the outcome of its start.
    fn with(&self, arm: Arm) -> ObjectCall
        ensures { result ≡ anew_call self.now arm }
    {
        match *self {
            Anew::Settime(valid) => ObjectCall::Settime(SettimeCall {
                flags: valid.flags,
                value: valid.value,
                interval: valid.interval,
                reading: valid.reading,
                arm,
            }),
            Anew::Sleep(valid) => ObjectCall::Sleep(SleepCall {
                flags: valid.flags,
                time: valid.time,
                reading: valid.reading,
                arm,
            }),
            Anew::Interrupt { reading } => ObjectCall::Interrupt { reading },
        }
    }
}

impl Objects {
    /// Makes such a call, in the object's turn.
    pub(crate) fn arm_anew<R: Wait>(
        &self,
        rt: &R,
        timers: &Timers,
        pass: &mut Pass,
        objects_pass: &mut RowPass<Object>,
        log: &mut Log,
        object_log: &mut ObjectLog,
        id: u32,
        call: &Anew,
    ) -> EndedAnew
        requires may { IsCallerOf self.now timers.now pass.old objects_pass.old id }
        requires valid { IsValidAnew (decl_at self.now id).kind call.now }
        requires room { (most_noted self.now timers.now.about id ≤ log.old.spare) × (1 ≤ object_log.old.spare) }
        ensures leaves { LeavesPasses self.now timers.now pass.new objects_pass.new }
        ensures ends { EndsAnew self.now timers.now.about (caller_of pass.old objects_pass.old log.old object_log.old) (caller_of pass.new objects_pass.new log.new object_log.new) id call.now result }
        ensures names { KeepsNames (caller_of pass.old objects_pass.old log.old object_log.old) (caller_of pass.new objects_pass.new log.new object_log.new) }
        ensures room { (log.old.spare ≤ log.new.spare + most_noted self.now timers.now.about id) × (object_log.old.spare ≤ object_log.new.spare + 1) }
    {
        for _ in Retries::new(rt) {
            let tried = self.try_anew(rt, timers, pass, objects_pass, log, object_log, id, call);
            if let Some(ended) = tried {
                return ended;
            }
        }
        unreachable!()
    }

    /// One turn, while the object is locked. It answers nothing where the timer's function is running.
    fn try_anew<R: Wait>(
        &self,
        rt: &R,
        timers: &Timers,
        pass: &mut Pass,
        objects_pass: &mut RowPass<Object>,
        log: &mut Log,
        object_log: &mut ObjectLog,
        id: u32,
        call: &Anew,
    ) -> Option<EndedAnew>
        requires may { IsCallerOf self.now timers.now pass.old objects_pass.old id }
        requires valid { IsValidAnew (decl_at self.now id).kind call.now }
        requires room { (most_noted self.now timers.now.about id ≤ log.old.spare) × (1 ≤ object_log.old.spare) }
        ensures leaves { LeavesPasses self.now timers.now pass.new objects_pass.new }
        ensures ends { MatchOption result (HasWaited (caller_of pass.old objects_pass.old log.old object_log.old) (caller_of pass.new objects_pass.new log.new object_log.new)) (λ e. EndsAnew self.now timers.now.about (caller_of pass.old objects_pass.old log.old object_log.old) (caller_of pass.new objects_pass.new log.new object_log.new) id call.now e) }
        ensures again { IfNone result ((log.new ≡ log.old) × (object_log.new ≡ object_log.old)) }
        ensures why { IfNone result (HasToWait self.now timers.now.about objects_pass.old objects_pass.new pass.new.known id) }
        ensures room { (log.old.spare ≤ log.new.spare + most_noted self.now timers.now.about id) × (object_log.old.spare ≤ object_log.new.spare + 1) }
    {
        let held = self.lock_in_turn(rt, timers, pass, objects_pass, id);
        if self.is_full(&held) {
            let stamp = self.release(objects_pass, held);
            return Some(EndedAnew::Full { stamp });
        }
        if call.is_refused(held.state()) {
            let stamp = self.release(objects_pass, held);
            return Some(EndedAnew::Refused { stamp });
        }
        self.anew_held(
            rt,
            timers,
            pass,
            objects_pass,
            log,
            object_log,
            id,
            call,
            held,
        )
    }

    /// Makes such a call on a held object whose history has room and that doesn't refuse it, and lets it go. It answers nothing where the timer's function
    /// is running.
    fn anew_held<R: Wait>(
        &self,
        rt: &R,
        timers: &Timers,
        pass: &mut Pass,
        objects_pass: &mut RowPass<Object>,
        log: &mut Log,
        object_log: &mut ObjectLog,
        id: u32,
        call: &Anew,
        held: Held<Object>,
    ) -> Option<EndedAnew>
        requires holding { IsHolding self.now timers.now pass.old objects_pass.old id held }
        requires valid { IsValidAnew (decl_at self.now id).kind call.now }
        requires taken { refuses call.now held.state ≡ false }
        requires room { (most_noted self.now timers.now.about id ≤ log.old.spare) × (1 ≤ object_log.old.spare) }
        ensures leaves { LeavesPasses self.now timers.now pass.new objects_pass.new }
        ensures ends { (first : PassOf) (begun : ObjectsPass) → HasLocked self.now first pass.old begun objects_pass.old id held → MatchOption result (HasWaited (caller_of first begun log.old object_log.old) (caller_of pass.new objects_pass.new log.new object_log.new)) (λ e. EndsAnew self.now timers.now.about (caller_of first begun log.old object_log.old) (caller_of pass.new objects_pass.new log.new object_log.new) id call.now e) }
        ensures again { IfNone result ((log.new ≡ log.old) × (object_log.new ≡ object_log.old)) }
        ensures why { (first : PassOf) (begun : ObjectsPass) → HasLocked self.now first pass.old begun objects_pass.old id held → IfNone result (HasToWait self.now timers.now.about begun objects_pass.new pass.new.known id) }
        ensures room { (log.old.spare ≤ log.new.spare + most_noted self.now timers.now.about id) × (object_log.old.spare ≤ object_log.new.spare + 1) }
    {
        let decl = self.decl(id);
        let wants = call.wants(decl);
        let stamp = held.stamp();
        let reading = call.reading();
        let base = decl.base;
        let begun = disarm_and_arm(rt, timers, pass, log, id, stamp, wants, base, reading);
        let Some((turn, outcome)) = begun else {
            self.release(objects_pass, held);
            return None;
        };
        end(rt, timers, pass, turn);
        let entered = call.with(outcome);
        let reply = self.enter(objects_pass, held, object_log, id, &entered);
        Some(EndedAnew::Made { reply })
    }
}

/// Begins a turn of an object with so many entries, disarms the object's timer, and starts it where that is wanted. It answers the turn
/// and the outcome of the start, or nothing where the timer's function is running.
fn disarm_and_arm<R: Wait>(
    rt: &R,
    timers: &Timers,
    pass: &mut Pass,
    log: &mut Log,
    timer: u32,
    stamp: u64,
    wants: Option<Wanted>,
    base: u32,
    reading: Reading,
) -> Option<(Turn, Arm)>
    requires pass { IsPassOf timers.now pass.old }
    requires timer { timer < length timers.now.about.timers }
    requires base { base < timers.now.about.bases }
    requires counter { turns_counter timer < timers.now.about.counters }
    requires small { stamp + stamp + 2 < 2 ^ 64 }
    requires room { 1 + most_to_start (timer_at timers.now.about.timers timer).terms base ≤ log.old.spare }
    ensures pass { IsPassOf timers.now pass.new }
    ensures sets { MatchOption result (LooksOn pass.old.known pass.new.known × (log.new ≡ log.old)) (λ r. DisarmsAndArms timers.now.about pass.old.known pass.new.known timer stamp wants base reading r.1 log.old.receipts log.new.receipts) }
    ensures turn { IfSome result (λ r. r.0 ≡ (timer, stamp)) }
    ensures outcome { IfSome result (λ r. IsOutcomeOf r.1 wants) }
    ensures why { IfNone result (IsHindered timers.now.about pass.new.known timer) }
    ensures room { log.old.spare ≤ log.new.spare + (1 + most_to_start (timer_at timers.now.about.timers timer).terms base) }
{
    let turn = disarm(rt, timers, pass, log, timer, stamp)?;
    let outcome = arm(rt, timers, pass, log, timer, wants, base, reading);
    Some((turn, outcome))
}

/// The start that a settime with valid arguments wants: none where its value is zero.
fn wanted_by(flags: u64, ns: u64) -> Option<Wanted>
    ensures { result ≡ start_by flags ns }
{
    let mode = if flags & ABSTIME != 0 {
        Mode::Abs
    } else {
        Mode::Rel
    };
    (ns != 0).then_some(Wanted { mode, ns })
}
