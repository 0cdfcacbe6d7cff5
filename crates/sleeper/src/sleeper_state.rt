//! A sleeper: its state, and its calls.
ghost use Rattle.std.specs.Prelude.{◌≡◌, ◌≤◌, ◌<◌, ◌↔◌, None, true};
ghost use Rattle.ktime.specs.Times.{last_time};
ghost use Rattle.timer_setting.specs.Arguments.{time_of};
ghost use Rattle.timer_setting.specs.Phases.{IsOutcomeOf};
ghost use Rattle.timer_setting.specs.Settimes.{most_object_entries};
ghost use Rattle.timer_setting.specs.StepTables.{IsAnswered};
ghost use Rattle.sleeper.specs.States.{Sleeper, SleeperInvariant, is_free, sleep_left, sleeper_opening, timer_of};
ghost use Rattle.sleeper.specs.Steps.{SleeperAllows, end_of, fallen_asleep, has_come, interrupt_refusal, interrupted, sleep_answer, sleep_refusal, sleep_wanted, sleeper_answer, sleeper_step, sleeper_table, sleeper_trigger_refusal, slept_answer};
ghost use Rattle.timer_setting.specs.declared.object_call.ObjectCall.TheVariants as calls;
ghost use Rattle.timer_setting.specs.declared.object_call.ObjectReply.TheVariants as replies;

use crate::answers::SleptAnswer;
use crate::sleep::{Sleep, begun, sleep_start};
use crate::sleep_arguments::time_of;
use ktime::{ClockId, Reading, TimeSpec};
use std::marker::Model;
use timer_setting::{
    Arm, BadArgument, InterruptAnswer, ObjectCall, ObjectReply, ObjectTimer, Phase, SleepAnswer,
    SleepCall, TriggerAnswer, Wanted,
};

/// The time left of a sleep whose time has come.
const OVERDUE: u64 = 0;

/// A sleeper, for one sleep at a time (`clock_nanosleep`). It knows nothing of the high-resolution timer below it: a sleep has a look
/// before it, which gives the start that is wanted, and takes the outcome of that start.
#[derive(Clone, Copy, Debug, PartialEq, Eq)]
pub struct SleeperState {
    timer: ObjectTimer,
    sleep: Sleep,
}

impl Model for SleeperState {
    ghost Value = { Sleeper };

    ghost view = { λ s. record { clock = s.timer.clock; base = s.timer.base; phase = s.timer.phase; sleep = s.sleep; stamp = s.timer.stamp; limit = s.timer.limit } };

    ghost invariant = { λ s. SleeperInvariant (record { clock = s.timer.clock; base = s.timer.base; phase = s.timer.phase; sleep = s.sleep; stamp = s.timer.stamp; limit = s.timer.limit }) × (s.timer.interval ≡ 0) };

    ghost inverse = { λ v. record { timer = timer_of v; sleep = v.sleep } };
}

impl SleeperState {
    /// A sleeper that is free. At `max_events` entries its history is full.
    pub fn make(clock: ClockId, base: u32, max_events: u64) -> SleeperState
        requires some { 0 < max_events }
        requires few { max_events ≤ most_object_entries }
        ensures { result ≡ sleeper_opening clock base max_events }
    {
        SleeperState {
            timer: ObjectTimer::make(clock, base, max_events),
            sleep: Sleep::Free,
        }
    }

    /// The timer that it keeps: its clock and base, the interval 0 and the phase, how many entries its history has, and the limit on them.
    pub fn timer(&self) -> ObjectTimer
        ensures { result ≡ timer_of self.now }
    {
        self.timer
    }

    /// The start that a sleep wants: none where it is refused, and none where its time has come.
    pub fn sleep_wants(&self, flags: u64, time: TimeSpec, reading: Reading) -> Option<Wanted>
        ensures { result ≡ sleep_wanted self.now flags time reading }
    {
        let time = time_of(flags, time).ok()?;
        if self.timer.spent().is_some() || self.sleep != Sleep::Free {
            return None;
        }
        sleep_start(self.timer.clock, flags, time, reading)
    }

    /// Begins a sleep of so long, or up to a time of the clock (`clock_nanosleep`).
    pub fn sleep(&mut self, flags: u64, time: TimeSpec, reading: Reading, arm: Arm) -> SleepAnswer
        requires outcome { IsOutcomeOf arm (sleep_wanted self.old flags time reading) }
        ensures answered { IsAnswered sleeper_table (sleep_refusal self.old flags time) self.old (calls.Sleep (record { flags = flags; time = time_of time; reading = reading; arm = arm })) (replies.Sleep result) self.new }
        ensures slept { (result ≡ SleepAnswer.Slept) ↔ ((sleep_refusal self.old flags time ≡ None) × (has_come self.old.clock flags (time_of time) reading ≡ true)) }
    {
        let time = match time_of(flags, time) {
            Ok(time) => time,
            Err(BadArgument::Flags) => return SleepAnswer::BadFlags,
            Err(BadArgument::Time) => return SleepAnswer::BadTime,
        };
        if let Some(stamp) = self.timer.spent() {
            return SleepAnswer::Spent { stamp };
        }
        if self.sleep != Sleep::Free {
            let stamp = self.timer.stamp;
            return SleepAnswer::Occupied { stamp };
        }
        self.fall_asleep(SleepCall {
            flags,
            time,
            reading,
            arm,
        })
    }

    /// The high-resolution timer's function runs for this generation (`hrtimer_wakeup`).
    pub fn trigger(&mut self, generation: u64, reading: Reading) -> TriggerAnswer
        ensures { IsAnswered sleeper_table (sleeper_trigger_refusal self.old) self.old (calls.Trigger generation reading) (replies.Trigger result) self.new }
    {
        let answer = self.timer.trigger(generation, reading);
        if let TriggerAnswer::Counted = answer {
            self.sleep = Sleep::Woken;
        }
        answer
    }

    /// Ends a sleep that goes on, as a signal does, or tells that its time has come. The sleeper is free then.
    pub fn interrupt(&mut self, reading: Reading) -> InterruptAnswer
        ensures { IsAnswered sleeper_table (interrupt_refusal self.old) self.old (calls.Interrupt reading) (replies.Interrupt result) self.new }
    {
        if let Some(stamp) = self.timer.spent() {
            return InterruptAnswer::Spent { stamp };
        }
        if self.sleep == Sleep::Free {
            let stamp = self.timer.stamp;
            return InterruptAnswer::Awake { stamp };
        }
        self.end(reading)
    }

    /// Whether a sleep may begin.
    pub fn is_free(&self) -> bool
        ensures { result ≡ is_free self.now.sleep }
    {
        self.sleep == Sleep::Free
    }

    /// Whether a sleep goes on, or its time has come, or neither.
    pub fn slept(&self) -> SleptAnswer
        ensures { result ≡ slept_answer self.now.sleep }
    {
        match self.sleep {
            Sleep::Free => SleptAnswer::Awake,
            Sleep::Relative | Sleep::Absolute => SleptAnswer::Sleeping,
            Sleep::Woken => SleptAnswer::Slept,
        }
    }

    /// Makes the entry of a call with valid arguments.
    pub fn apply(&mut self, call: ObjectCall) -> ObjectReply
        requires allowed { SleeperAllows self.old call }
        ensures state { self.new ≡ sleeper_step self.old call }
        ensures reply { result ≡ sleeper_answer self.old call }
    {
        match call {
            ObjectCall::Sleep(call) => ObjectReply::Sleep(self.fall_asleep(call)),
            ObjectCall::Trigger {
                generation,
                reading,
            } => ObjectReply::Trigger(self.trigger(generation, reading)),
            ObjectCall::Interrupt { reading } => ObjectReply::Interrupt(self.end(reading)),
            _ => ObjectReply::None,
        }
    }

    /// Makes the entry of a sleep.
    fn fall_asleep(&mut self, call: SleepCall) -> SleepAnswer
        requires room { self.old.stamp < self.old.limit }
        requires free { is_free self.old.sleep ≡ true }
        requires time { call.time ≤ last_time }
        ensures state { self.new ≡ fallen_asleep self.old call }
        ensures answer { result ≡ sleep_answer call.arm }
    {
        self.timer
            .set(call.flags, call.time, call.reading, call.arm);
        self.sleep = begun(call.arm, call.flags);
        match call.arm {
            Arm::NotAsked => SleepAnswer::Slept,
            Arm::Armed(_) => SleepAnswer::Asleep,
            Arm::Unarmed(stamp) => SleepAnswer::Unarmed { stamp },
        }
    }

    /// Makes the entry of an interrupt.
    fn end(&mut self, reading: Reading) -> InterruptAnswer
        requires room { self.old.stamp < self.old.limit }
        ensures state { self.new ≡ interrupted self.old }
        ensures answer { result ≡ end_of self.old.sleep (sleep_left self.old reading) self.old.stamp }
    {
        let ns = self.timer.left(OVERDUE, reading);
        let stamp = self.timer.stamp;
        let answer = match self.sleep {
            Sleep::Free => InterruptAnswer::Awake { stamp },
            Sleep::Relative => InterruptAnswer::Left { ns },
            Sleep::Absolute => InterruptAnswer::Interrupted,
            Sleep::Woken => InterruptAnswer::Slept,
        };
        self.timer.phase = Phase::Idle;
        self.timer.stamp += 1;
        self.sleep = Sleep::Free;
        answer
    }
}
