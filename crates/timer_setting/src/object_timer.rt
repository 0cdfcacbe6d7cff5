//! The timer that an object keeps: its setting, its phase, and how many entries the object's history has.
ghost use Rattle.std.specs.Prelude.{◌≡◌, ◌≤◌, ◌<◌, ◌+◌, ◌↔◌, IfNone, IfSome, None, nat_lt, if◌then◌else◌};
ghost use Rattle.ktime.specs.Times.{last_time};
ghost use Rattle.timer_setting.specs.Phases.{HasTimelyExpiry, expired, is_expiry_of, left_in, next_start, periods_in, phase_by, rearmed};
ghost use Rattle.timer_setting.specs.Settimes.{made_timer, most_object_entries, start_wanted, timer_expired, trigger_answer};

use crate::arguments::{start_for, times_of};
use crate::arming::{Arm, Wanted};
use crate::phase::{Phase, phase_after, phase_set};
use crate::trigger_answer::TriggerAnswer;
use ktime::{ClockId, Forwarded, Mode, Reading, TimeSpec, forward};

/// The timer that an object keeps. `clock` is the one that it was made on, `base` that of its high-resolution timer, `stamp` how many
/// entries the object's history has, and `limit` the limit on them.
#[derive(Clone, Copy, Debug, PartialEq, Eq)]
pub struct ObjectTimer {
    pub clock: ClockId,
    pub base: u32,
    pub interval: u64,
    pub phase: Phase,
    pub stamp: u64,
    pub limit: u64,
}

impl ObjectTimer {
    /// A timer that is disarmed.
    pub fn make(clock: ClockId, base: u32, max_events: u64) -> ObjectTimer
        ensures { result ≡ made_timer clock base max_events }
    {
        ObjectTimer {
            clock,
            base,
            interval: 0,
            phase: Phase::Idle,
            stamp: 0,
            limit: max_events,
        }
    }

    /// How many entries the object's history has, where it is full.
    pub fn spent(&self) -> Option<u64>
        ensures full { IfSome result (λ stamp. (stamp ≡ self.now.stamp) × (self.now.limit ≤ self.now.stamp)) }
        ensures room { IfNone result (self.now.stamp < self.now.limit) }
    {
        (self.stamp >= self.limit).then_some(self.stamp)
    }

    /// The start that a settime with these arguments wants: none where it is refused, and none where its value is zero. `unknown` has
    /// the bits of the flags that are none of the call's flags.
    pub fn settime_start(
        &self,
        unknown: u64,
        flags: u64,
        value: TimeSpec,
        interval: TimeSpec,
    ) -> Option<Wanted>
        ensures { result ≡ start_wanted self.now.stamp self.now.limit unknown flags value interval }
    {
        let (value, _) = times_of(unknown, value, interval).ok()?;
        if self.spent().is_some() {
            return None;
        }
        start_for(flags, value)
    }

    /// How long until the next expiry, in nanoseconds; `overdue` where an armed timer's expiry has come.
    pub fn left(&self, overdue: u64, reading: Reading) -> u64
        requires expires { HasTimelyExpiry self.now.phase }
        ensures left { result ≡ left_in overdue self.now.phase self.now.interval reading }
        ensures none { 0 < overdue → (result ≡ 0) ↔ (self.now.phase ≡ Phase.Idle) }
    {
        match self.phase {
            Phase::Idle => 0,
            Phase::Armed { clock, expires, .. } => {
                let now = reading.value(clock);
                if now < expires {
                    expires - now
                } else {
                    overdue
                }
            }
            Phase::Expired { clock, expires } => {
                let now = reading.value(clock);
                forward(expires, now, self.interval).expires - now
            }
        }
    }

    /// The start for the next expiry, where the timer is periodic and has expired; none where the object's history is full.
    pub fn next_start(&self, reading: Reading) -> Option<Wanted>
        requires expires { HasTimelyExpiry self.now.phase }
        ensures { result ≡ (if nat_lt self.now.stamp self.now.limit then next_start self.now.phase self.now.interval reading else None) }
    {
        if self.spent().is_some() {
            return None;
        }
        let Phase::Expired { clock, expires } = self.phase else {
            return None;
        };
        let forwarded = forward(expires, reading.value(clock), self.interval);
        Some(Wanted {
            mode: Mode::Keep,
            ns: forwarded.expires,
        })
    }

    /// Sets the phase by a settime with valid arguments, and counts its entry.
    pub fn set(&mut self, flags: u64, value: u64, reading: Reading, arm: Arm)
        requires value { value ≤ last_time }
        requires room { (self.old.stamp < self.old.limit) × (self.old.limit ≤ most_object_entries) }
        ensures { self.new ≡ record self.old { phase = phase_by self.old.clock flags value reading arm; stamp = self.old.stamp + 1 } }
    {
        self.phase = phase_set(self.clock, flags, value, reading, arm);
        self.stamp += 1;
    }

    /// The high-resolution timer's function runs for this generation, which counts as an entry. Where the history is full nothing changes.
    pub fn trigger(&mut self, generation: u64, reading: Reading) -> TriggerAnswer
        requires few { self.old.limit ≤ most_object_entries }
        ensures spent { self.old.limit ≤ self.old.stamp → (result ≡ TriggerAnswer.Spent self.old.stamp) × (self.new ≡ self.old) }
        ensures timer { self.old.stamp < self.old.limit → self.new ≡ timer_expired self.old generation reading }
        ensures answer { self.old.stamp < self.old.limit → result ≡ trigger_answer self.old.phase generation reading }
    {
        if let Some(stamp) = self.spent() {
            return TriggerAnswer::Spent { stamp };
        }
        self.stamp += 1;
        if !self.phase.is_expiry(generation, reading) {
            return TriggerAnswer::Stale;
        }
        self.phase = self.phase.after_expiry(self.interval);
        TriggerAnswer::Counted
    }

    /// Moves a periodic timer that has expired past now, where the start for its next expiry had this outcome. It answers how many
    /// periods have passed; nothing where the timer isn't one that has expired.
    pub fn rearm(&mut self, reading: Reading, arm: Arm) -> Option<u64>
        requires expires { HasTimelyExpiry self.old.phase }
        ensures timer { self.new ≡ record self.old { phase = rearmed self.old.phase self.old.interval reading arm } }
        ensures periods { result ≡ periods_in self.old.phase self.old.interval reading }
    {
        let Phase::Expired { clock, expires } = self.phase else {
            return None;
        };
        let Forwarded {
            count,
            expires: next,
        } = forward(expires, reading.value(clock), self.interval);
        self.phase = phase_after(arm, clock, next);
        Some(count)
    }
}
