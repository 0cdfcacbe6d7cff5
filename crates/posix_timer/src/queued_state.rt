//! A POSIX timer whose signals go to a queue.
ghost use Rattle.std.specs.Prelude.{◌≡◌, ◌≤◌, ◌<◌};
ghost use Rattle.timer_setting.specs.Settimes.{most_object_entries};
ghost use Rattle.posix_timer.specs.Queued.{QueuedAllows, is_fresh, queued_answer, queued_opening, queued_step, sends_signal};

use crate::posix_state::PosixState;
use ktime::{ClockId, Reading};
use timer_setting::{ObjectCall, ObjectReply};

/// A POSIX timer whose signals go to a queue (`SIGEV_SIGNAL` with a queued signal), and the number of its last signal: that of the entry of the expiry that
/// sent it. Who runs its function puts the signal into the queue, and makes the entry of a trigger, or of an overflow where the queue had no room.
#[derive(Clone, Copy, Debug, PartialEq, Eq)]
pub struct QueuedState {
    pub timer: PosixState,
    pub signalled: u64,
}

impl QueuedState {
    /// A timer that is disarmed. At `max_events` entries its history is full.
    pub fn make(clock: ClockId, base: u32, max_events: u64) -> QueuedState
        requires some { 0 < max_events }
        requires few { max_events ≤ most_object_entries }
        ensures { result ≡ queued_opening clock base max_events }
    {
        QueuedState {
            timer: PosixState::make(clock, base, max_events),
            signalled: 0,
        }
    }

    /// Whether an expiry of this generation counts, so that its signal goes to the queue.
    pub fn sends(&self, generation: u64, reading: Reading) -> bool
        ensures { result ≡ sends_signal self.now generation reading }
    {
        self.timer.is_expiry(generation, reading)
    }

    /// Whether the signal of this number is pending. One that was accepted, or is of an earlier setting, is stale.
    pub fn is_fresh(&self, number: u64) -> bool
        ensures { result ≡ is_fresh self.now number }
    {
        self.timer.is_pending() && self.signalled == number
    }

    /// Makes the entry of a call with valid arguments.
    pub fn apply(&mut self, call: ObjectCall) -> ObjectReply
        requires allowed { QueuedAllows self.old call }
        ensures state { self.new ≡ queued_step self.old call }
        ensures reply { result ≡ queued_answer self.old call }
    {
        match call {
            ObjectCall::Overflow { .. } => {
                self.timer.overflow();
                ObjectReply::Full
            }
            ObjectCall::Trigger {
                generation,
                reading,
            } => {
                let sends = self.sends(generation, reading);
                let reply = self.timer.apply(call);
                if sends {
                    self.signalled = self.timer.timer().stamp;
                }
                reply
            }
            _ => self.timer.apply(call),
        }
    }
}
