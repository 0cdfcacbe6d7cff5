//! A timer descriptor: its state, and its calls.
ghost use Rattle.std.specs.Prelude.{◌≡◌, ◌≤◌, ◌<◌, ◌↔◌, ◌⊎◌, ℕ, IsSome};
ghost use Rattle.ktime.specs.Times.{last_time, second};
ghost use Rattle.timer_setting.specs.Arguments.{bits_beyond, time_of};
ghost use Rattle.timer_setting.specs.Phases.{IsOutcomeOf};
ghost use Rattle.timer_setting.specs.Settimes.{most_object_entries};
ghost use Rattle.timer_setting.specs.StepTables.{IsAnswered};
ghost use Rattle.timer_fd.specs.States.{Descriptor, AreFdArguments, FdInvariant, fd_flags, fd_opening, is_canceled, is_readable};
ghost use Rattle.timer_fd.specs.Steps.{FdAllows, count_length, fd_answer, fd_got, fd_read, fd_read_answer, fd_set, fd_settime_answer, fd_settime_wanted, fd_settime_refusal, fd_step, fd_table, fd_trigger_refusal, gettime_refusal, gettime_wanted, read_refusal, read_wanted, total_of};
ghost use Rattle.timer_setting.specs.declared.object_call.ObjectCall.TheVariants as calls;
ghost use Rattle.timer_setting.specs.declared.object_call.ObjectReply.TheVariants as replies;

use crate::settime_arguments::{cancels_on_set, times_of, unknown_flags};
use ktime::{ClockId, Reading, TimeSpec};
use std::marker::Model;
use timer_setting::{
    Arm, BadArgument, GettimeAnswer, ObjectCall, ObjectReply, ObjectTimer, Phase, ReadAnswer,
    SettimeAnswer, SettimeCall, TriggerAnswer, Wanted,
};

/// The length in bytes of the buffer that a read needs.
const COUNT_LENGTH: u64 = 8;

/// The time left of an armed timer whose expiry has come.
const OVERDUE: u64 = 0;

/// A timer descriptor. It knows nothing of the high-resolution timer below it: a step that may start that timer has a look before it,
/// which gives the start that is wanted, and takes the outcome of that start.
#[derive(Clone, Copy, Debug, PartialEq, Eq)]
pub struct FdState {
    timer: ObjectTimer,
    count: u64,
    cancelable: bool,
    seen: u64,
}

impl Model for FdState {
    ghost Value = { Descriptor };

    ghost view = { λ t. record { clock = t.timer.clock; base = t.timer.base; interval = t.timer.interval; phase = t.timer.phase; count = t.count; cancelable = t.cancelable; seen = t.seen; stamp = t.timer.stamp; limit = t.timer.limit } };

    ghost invariant = { λ t. FdInvariant (record { clock = t.timer.clock; base = t.timer.base; interval = t.timer.interval; phase = t.timer.phase; count = t.count; cancelable = t.cancelable; seen = t.seen; stamp = t.timer.stamp; limit = t.timer.limit }) };

    ghost inverse = { λ v. record { timer = record { clock = v.clock; base = v.base; interval = v.interval; phase = v.phase; stamp = v.stamp; limit = v.limit }; count = v.count; cancelable = v.cancelable; seen = v.seen } };
}

impl FdState {
    /// A descriptor whose timer is disarmed. At `max_events` entries its history is full.
    pub fn make(clock: ClockId, base: u32, max_events: u64) -> FdState
        requires some { 0 < max_events }
        requires few { max_events ≤ most_object_entries }
        ensures { result ≡ fd_opening clock base max_events }
    {
        FdState {
            timer: ObjectTimer::make(clock, base, max_events),
            count: 0,
            cancelable: false,
            seen: 0,
        }
    }

    /// The timer that it keeps: its clock and base, interval and phase, how many entries its history has, and the limit on them.
    pub fn timer(&self) -> ObjectTimer
        ensures { result ≡ record { clock = self.now.clock; base = self.now.base; interval = self.now.interval; phase = self.now.phase; stamp = self.now.stamp; limit = self.now.limit } }
    {
        self.timer
    }

    /// How many expiries have been counted and not been read.
    pub fn count(&self) -> u64
        ensures { result ≡ self.now.count }
    {
        self.count
    }

    /// The start that a settime wants: none where it is refused, and none where its value is zero.
    pub fn settime_wants(
        &self,
        flags: u64,
        value: TimeSpec,
        interval: TimeSpec,
        _reading: Reading,
    ) -> Option<Wanted>
        ensures { result ≡ fd_settime_wanted self.now flags value interval }
    {
        self.timer
            .settime_start(unknown_flags(flags), flags, value, interval)
    }

    /// Arms the timer anew, or disarms it by the value 0 (`timerfd_settime`). The interval is kept as it was handed in. Expiries that
    /// were not read are forgotten.
    pub fn settime(
        &mut self,
        flags: u64,
        value: TimeSpec,
        interval: TimeSpec,
        reading: Reading,
        arm: Arm,
    ) -> SettimeAnswer
        requires outcome { IsOutcomeOf arm (fd_settime_wanted self.old flags value interval) }
        ensures { IsAnswered fd_table (fd_settime_refusal self.old flags value interval) self.old (calls.Settime (record { flags = flags; value = time_of value; interval = time_of interval; reading = reading; arm = arm })) (replies.Settime result) self.new }
    {
        let (value, interval) = match times_of(flags, value, interval) {
            Ok(times) => times,
            Err(BadArgument::Flags) => return SettimeAnswer::BadFlags,
            Err(BadArgument::Time) => return SettimeAnswer::BadTime,
        };
        if let Some(stamp) = self.timer.spent() {
            return SettimeAnswer::Spent { stamp };
        }
        self.set(SettimeCall {
            flags,
            value,
            interval,
            reading,
            arm,
        })
    }

    /// The high-resolution timer's function runs for this generation (`timerfd_tmrproc`).
    pub fn trigger(&mut self, generation: u64, reading: Reading) -> TriggerAnswer
        ensures { IsAnswered fd_table (fd_trigger_refusal self.old) self.old (calls.Trigger generation reading) (replies.Trigger result) self.new }
    {
        let answer = self.timer.trigger(generation, reading);
        if let TriggerAnswer::Counted = answer {
            self.count = self.count.saturating_add(1);
        }
        answer
    }

    /// The start that a read wants: that of the next expiry, where the timer is periodic and has expired.
    pub fn read_wants(&self, len: u64, reading: Reading) -> Option<Wanted>
        ensures { result ≡ read_wanted self.now len reading }
    {
        if len < COUNT_LENGTH || self.is_canceled(reading) || self.count == 0 {
            return None;
        }
        self.timer.next_start(reading)
    }

    /// Reads how often the timer has expired, and begins to count anew. `len` is the length of the buffer in bytes.
    pub fn read(&mut self, len: u64, reading: Reading, arm: Arm) -> ReadAnswer
        requires outcome { IsOutcomeOf arm (read_wanted self.old len reading) }
        ensures { IsAnswered fd_table (read_refusal self.old len) self.old (calls.Read reading arm) (replies.Read result) self.new }
    {
        if len < COUNT_LENGTH {
            return ReadAnswer::ShortBuffer;
        }
        if let Some(stamp) = self.timer.spent() {
            return ReadAnswer::Spent { stamp };
        }
        self.take(reading, arm)
    }

    /// The start that a gettime wants: that of the next expiry, where the timer is periodic and has expired.
    pub fn gettime_wants(&self, reading: Reading) -> Option<Wanted>
        ensures { result ≡ gettime_wanted self.now reading }
    {
        self.timer.next_start(reading)
    }

    /// How long until the next expiry, and the interval (`timerfd_gettime`). A periodic timer that has expired is armed again, and the
    /// periods that have passed are counted.
    pub fn gettime(&mut self, reading: Reading, arm: Arm) -> GettimeAnswer
        requires outcome { IsOutcomeOf arm (gettime_wanted self.old reading) }
        ensures { IsAnswered fd_table (gettime_refusal self.old) self.old (calls.Gettime reading arm) (replies.Gettime result) self.new }
    {
        if let Some(stamp) = self.timer.spent() {
            return GettimeAnswer::Spent { stamp };
        }
        self.get(reading, arm)
    }

    /// Whether the descriptor is ready to be read (`poll(2)`): an expiry has been counted, or the setting was canceled.
    pub fn readable(&self, reading: Reading) -> bool
        ensures { result ≡ is_readable self.now reading }
    {
        self.count != 0 || self.is_canceled(reading)
    }

    /// Makes the entry of a call with valid arguments.
    pub fn apply(&mut self, call: ObjectCall) -> ObjectReply
        requires allowed { FdAllows self.old call }
        ensures state { self.new ≡ fd_step self.old call }
        ensures reply { result ≡ fd_answer self.old call }
    {
        match call {
            ObjectCall::Settime(call) => ObjectReply::Settime(self.set(call)),
            ObjectCall::Trigger {
                generation,
                reading,
            } => ObjectReply::Trigger(self.trigger(generation, reading)),
            ObjectCall::Read { reading, arm } => ObjectReply::Read(self.take(reading, arm)),
            ObjectCall::Gettime { reading, arm } => ObjectReply::Gettime(self.get(reading, arm)),
            _ => ObjectReply::None,
        }
    }

    /// Whether the real offset has changed under a setting that this cancels.
    fn is_canceled(&self, reading: Reading) -> bool
        ensures { result ≡ is_canceled self.now reading }
    {
        self.cancelable && reading.changes > self.seen
    }

    /// Makes the entry of a settime.
    fn set(&mut self, call: SettimeCall) -> SettimeAnswer
        requires room { self.old.stamp < self.old.limit }
        requires value { call.value ≤ last_time }
        requires interval { call.interval ≤ last_time }
        ensures state { self.new ≡ fd_set self.old call }
        ensures answer { result ≡ fd_settime_answer self.old call.flags call.value call.reading call.arm }
        ensures unspent { (stamp : ℕ) → result ≡ SettimeAnswer.Spent stamp → ⊥ }
    {
        let left = self.timer.left(OVERDUE, call.reading);
        let old_interval = self.timer.interval;
        let was_canceled = self.is_canceled(call.reading);
        self.timer
            .set(call.flags, call.value, call.reading, call.arm);
        self.timer.interval = call.interval;
        self.count = 0;
        self.cancelable = cancels_on_set(self.timer.clock, call.flags);
        self.seen = call.reading.changes;
        if let Arm::Unarmed(stamp) = call.arm {
            return SettimeAnswer::Unarmed { stamp };
        }
        if was_canceled && self.cancelable && call.value != 0 {
            return SettimeAnswer::Canceled;
        }
        SettimeAnswer::Old {
            left,
            interval: old_interval,
        }
    }

    /// Makes the entry of a read.
    fn take(&mut self, reading: Reading, arm: Arm) -> ReadAnswer
        requires room { self.old.stamp < self.old.limit }
        ensures state { self.new ≡ fd_read self.old reading arm }
        ensures answer { result ≡ fd_read_answer self.old reading }
    {
        self.timer.stamp += 1;
        if self.is_canceled(reading) {
            if let Phase::Expired { .. } = self.timer.phase {
                self.timer.phase = Phase::Idle;
            }
            self.count = 0;
            self.seen = reading.changes;
            return ReadAnswer::Canceled;
        }
        if self.count == 0 {
            return ReadAnswer::Again;
        }
        let periods = self.timer.rearm(reading, arm);
        let total = total_after(self.count, periods);
        self.count = 0;
        if total == 0 {
            return ReadAnswer::Again;
        }
        ReadAnswer::Count { total }
    }

    /// Makes the entry of a gettime.
    fn get(&mut self, reading: Reading, arm: Arm) -> GettimeAnswer
        requires room { self.old.stamp < self.old.limit }
        ensures state { self.new ≡ fd_got self.old reading arm }
        ensures answer { replies.Gettime result ≡ fd_answer self.old (calls.Gettime reading arm) }
    {
        let left = match arm {
            Arm::Unarmed(_) => 0,
            Arm::NotAsked | Arm::Armed(_) => self.timer.left(OVERDUE, reading),
        };
        self.timer.stamp += 1;
        let periods = self.timer.rearm(reading, arm);
        self.count = total_after(self.count, periods);
        GettimeAnswer::Left {
            left,
            interval: self.timer.interval,
        }
    }
}

/// The expiries up to now, of those that were counted and the periods that have passed since.
fn total_after(count: u64, periods: Option<u64>) -> u64
    requires some { IsSome periods → 0 < count }
    ensures { result ≡ total_of periods count }
{
    match periods {
        Some(periods) => (count - 1).saturating_add(periods),
        None => count,
    }
}
