//! A POSIX timer: its state, and its calls.
ghost use Rattle.std.specs.Prelude.{◌≡◌, ◌≤◌, ◌<◌, ◌↔◌, ◌⊎◌, ℕ};
ghost use Rattle.ktime.specs.Times.{last_time, second};
ghost use Rattle.timer_setting.specs.Arguments.{abstime, bits_beyond, time_of};
ghost use Rattle.timer_setting.specs.Phases.{IsOutcomeOf, is_expiry_of};
ghost use Rattle.timer_setting.specs.Settimes.{most_object_entries};
ghost use Rattle.timer_setting.specs.StepTables.{IsAnswered};
ghost use Rattle.posix_timer.specs.States.{PosixTimer, ArePosixArguments, PosixInvariant, posix_opening, setting_of};
ghost use Rattle.posix_timer.specs.Steps.{PosixAllows, accept_refusal, accept_wanted, accepted, kept_by, posix_answer, posix_overflowed, posix_set, posix_settime_answer, posix_settime_wanted, posix_settime_refusal, posix_step, posix_table, posix_trigger_refusal};
ghost use Rattle.timer_setting.specs.declared.object_call.ObjectCall.TheVariants as calls;
ghost use Rattle.timer_setting.specs.declared.object_call.ObjectReply.TheVariants as replies;

use crate::settime_arguments::{TIMER_ABSTIME, times_of};
use ktime::{ClockId, Reading, TimeSpec};
use std::marker::Model;
use timer_setting::{
    AcceptAnswer, Arm, BadArgument, ObjectCall, ObjectReply, ObjectTimer, Phase, SettimeAnswer,
    SettimeCall, Setting, TriggerAnswer, Wanted,
};

/// The greatest overrun that is answered, `DELAYTIMER_MAX`.
const MOST_OVERRUN: u64 = i32::MAX as u64;

/// The time left of an armed timer whose expiry has come: `timer_gettime` answers 0 only for a timer that is disarmed.
const OVERDUE: u64 = 1;

/// A POSIX timer. It knows nothing of the high-resolution timer below it: a step that may start that timer has a look before it,
/// which gives the start that is wanted, and takes the outcome of that start.
#[derive(Clone, Copy, Debug, PartialEq, Eq)]
pub struct PosixState {
    timer: ObjectTimer,
    pending: bool,
    overrun: u64,
}

impl Model for PosixState {
    ghost Value = { PosixTimer };

    ghost view = { λ t. record { clock = t.timer.clock; base = t.timer.base; interval = t.timer.interval; phase = t.timer.phase; pending = t.pending; overrun = t.overrun; stamp = t.timer.stamp; limit = t.timer.limit } };

    ghost invariant = { λ t. PosixInvariant (record { clock = t.timer.clock; base = t.timer.base; interval = t.timer.interval; phase = t.timer.phase; pending = t.pending; overrun = t.overrun; stamp = t.timer.stamp; limit = t.timer.limit }) };

    ghost inverse = { λ v. record { timer = record { clock = v.clock; base = v.base; interval = v.interval; phase = v.phase; stamp = v.stamp; limit = v.limit }; pending = v.pending; overrun = v.overrun } };
}

impl PosixState {
    /// A timer that is disarmed. At `max_events` entries its history is full.
    pub fn make(clock: ClockId, base: u32, max_events: u64) -> PosixState
        requires some { 0 < max_events }
        requires few { max_events ≤ most_object_entries }
        ensures { result ≡ posix_opening clock base max_events }
    {
        PosixState {
            timer: ObjectTimer::make(clock, base, max_events),
            pending: false,
            overrun: 0,
        }
    }

    /// The timer that it keeps: its clock and base, interval and phase, how many entries its history has, and the limit on them.
    pub fn timer(&self) -> ObjectTimer
        ensures { result ≡ record { clock = self.now.clock; base = self.now.base; interval = self.now.interval; phase = self.now.phase; stamp = self.now.stamp; limit = self.now.limit } }
    {
        self.timer
    }

    /// Whether a signal is pending.
    pub fn is_pending(&self) -> bool
        ensures { result ≡ self.now.pending }
    {
        self.pending
    }

    /// The start that a settime wants: none where it is refused, and none where its value is zero.
    pub fn settime_wants(
        &self,
        flags: u64,
        value: TimeSpec,
        interval: TimeSpec,
        _reading: Reading,
    ) -> Option<Wanted>
        ensures { result ≡ posix_settime_wanted self.now flags value interval }
    {
        self.timer
            .settime_start(flags & !TIMER_ABSTIME, flags, value, interval)
    }

    /// Arms the timer anew, or disarms it by the value 0 (`timer_settime`). A pending signal and the overrun are cleared.
    pub fn settime(
        &mut self,
        flags: u64,
        value: TimeSpec,
        interval: TimeSpec,
        reading: Reading,
        arm: Arm,
    ) -> SettimeAnswer
        requires outcome { IsOutcomeOf arm (posix_settime_wanted self.old flags value interval) }
        ensures { IsAnswered posix_table (posix_settime_refusal self.old flags value interval) self.old (calls.Settime (record { flags = flags; value = time_of value; interval = time_of interval; reading = reading; arm = arm })) (replies.Settime result) self.new }
    {
        let (value, interval) = match times_of(flags, value, interval) {
            Ok(times) => times,
            Err(BadArgument::Flags) => return SettimeAnswer::BadFlags,
            Err(BadArgument::Time) => return SettimeAnswer::BadTime,
        };
        if let Some(stamp) = self.timer.spent() {
            return SettimeAnswer::Spent { stamp };
        }
        self.set(SettimeCall {
            flags,
            value,
            interval,
            reading,
            arm,
        })
    }

    /// How long until the next expiry, and the interval (`timer_gettime`). An armed timer whose expiry has come has 1 ns left.
    pub fn gettime(&self, reading: Reading) -> Setting
        ensures setting { result ≡ setting_of self.now reading }
        ensures left { (result.left ≡ 0) ↔ (self.now.phase ≡ Phase.Idle) }
    {
        Setting {
            left: self.timer.left(OVERDUE, reading),
            interval: self.timer.interval,
        }
    }

    /// The high-resolution timer's function runs for this generation (`posix_timer_fn`).
    pub fn trigger(&mut self, generation: u64, reading: Reading) -> TriggerAnswer
        ensures { IsAnswered posix_table (posix_trigger_refusal self.old) self.old (calls.Trigger generation reading) (replies.Trigger result) self.new }
    {
        let answer = self.timer.trigger(generation, reading);
        if let TriggerAnswer::Counted = answer {
            self.pending = true;
        }
        answer
    }

    /// The start that an acceptance wants: that of the next expiry, where the timer is periodic and its signal is pending.
    pub fn accept_wants(&self, reading: Reading) -> Option<Wanted>
        ensures { result ≡ accept_wanted self.now reading }
    {
        if !self.pending {
            return None;
        }
        self.timer.next_start(reading)
    }

    /// Accepts the pending signal (`sigwaitinfo`). Its overrun counts the periods that have passed since it was generated.
    pub fn accept(&mut self, reading: Reading, arm: Arm) -> AcceptAnswer
        requires outcome { IsOutcomeOf arm (accept_wanted self.old reading) }
        ensures { IsAnswered posix_table (accept_refusal self.old) self.old (calls.Accept reading arm) (replies.Accept result) self.new }
    {
        if let Some(stamp) = self.timer.spent() {
            return AcceptAnswer::Spent { stamp };
        }
        self.take(reading, arm)
    }

    /// Whether an expiry of this generation counts, by this reading.
    pub fn is_expiry(&self, generation: u64, reading: Reading) -> bool
        ensures { result ≡ is_expiry_of self.now.phase generation reading }
    {
        self.timer.phase.is_expiry(generation, reading)
    }

    /// Makes the entry of an expiry whose signal found no room in its queue: the timer is disarmed.
    pub fn overflow(&mut self)
        requires room { self.old.stamp < self.old.limit }
        ensures { self.new ≡ posix_overflowed self.old }
    {
        self.timer.stamp += 1;
        self.timer.phase = Phase::Idle;
        self.timer.interval = 0;
        self.pending = false;
    }

    /// The overrun of the last signal that was accepted (`timer_getoverrun`).
    pub fn getoverrun(&self) -> u64
        ensures { result ≡ self.now.overrun }
    {
        self.overrun
    }

    /// Makes the entry of a call with valid arguments.
    pub fn apply(&mut self, call: ObjectCall) -> ObjectReply
        requires allowed { PosixAllows self.old call }
        ensures state { self.new ≡ posix_step self.old call }
        ensures reply { result ≡ posix_answer self.old call }
    {
        match call {
            ObjectCall::Settime(call) => ObjectReply::Settime(self.set(call)),
            ObjectCall::Trigger {
                generation,
                reading,
            } => ObjectReply::Trigger(self.trigger(generation, reading)),
            ObjectCall::Accept { reading, arm } => ObjectReply::Accept(self.take(reading, arm)),
            _ => ObjectReply::None,
        }
    }

    /// Makes the entry of a settime.
    fn set(&mut self, call: SettimeCall) -> SettimeAnswer
        requires room { self.old.stamp < self.old.limit }
        requires value { call.value ≤ last_time }
        requires interval { call.interval ≤ last_time }
        ensures state { self.new ≡ posix_set self.old call }
        ensures answer { result ≡ posix_settime_answer self.old call.reading call.arm }
    {
        let old = self.gettime(call.reading);
        self.timer
            .set(call.flags, call.value, call.reading, call.arm);
        self.pending = false;
        self.overrun = 0;
        self.timer.interval = interval_after(call.arm, call.interval);
        match call.arm {
            Arm::Unarmed(stamp) => SettimeAnswer::Unarmed { stamp },
            Arm::NotAsked | Arm::Armed(_) => SettimeAnswer::Old {
                left: old.left,
                interval: old.interval,
            },
        }
    }

    /// Makes the entry of an acceptance.
    fn take(&mut self, reading: Reading, arm: Arm) -> AcceptAnswer
        requires room { self.old.stamp < self.old.limit }
        ensures state { self.new ≡ accepted self.old reading arm }
        ensures answer { replies.Accept result ≡ posix_answer self.old (calls.Accept reading arm) }
    {
        self.timer.stamp += 1;
        if !self.pending {
            return AcceptAnswer::NoSignal;
        }
        let mut overrun = 0;
        if let Some(periods) = self.timer.rearm(reading, arm) {
            overrun = periods.saturating_sub(1).min(MOST_OVERRUN);
            self.timer.interval = interval_after(arm, self.timer.interval);
        }
        self.pending = false;
        self.overrun = overrun;
        AcceptAnswer::Accepted { overrun }
    }
}

/// The interval after a start with this outcome: 0 where the timer is not armed.
fn interval_after(arm: Arm, interval: u64) -> u64
    ensures { result ≡ kept_by arm interval }
{
    match arm {
        Arm::Armed(_) => interval,
        Arm::NotAsked | Arm::Unarmed(_) => 0,
    }
}
