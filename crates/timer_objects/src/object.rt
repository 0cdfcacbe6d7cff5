//! What an object is, by its kind, and the entry of a call.
ghost use Rattle.std.specs.Prelude.{◌≡◌, ◌≤◌, ◌<◌};
ghost use Rattle.timer_setting.specs.Settimes.{most_object_entries};
ghost use Rattle.timer_objects.specs.Steps.{opened_object};

use ktime::ClockId;
use posix_timer::{PosixState, QueuedState};
use sleeper::SleeperState;
use timer_fd::FdState;
use timer_setting::{ObjectCall, ObjectReply};

/// What stands over a timer.
#[derive(Clone, Copy, Debug, PartialEq, Eq)]
pub enum Kind {
    /// Nothing: callers start the timer themselves.
    Raw,
    /// A POSIX timer.
    Posix,
    /// A timer descriptor.
    Fd,
    /// A sleeper.
    Sleeper,
    /// A POSIX timer whose signals go to the queue that its objects were made with, where a `QueuedFiring` runs its function; a `Firing` sends none.
    Queued,
}

/// What an object is declared with: its kind, the clock of its timer, and the base on which that is armed.
#[derive(Clone, Copy, Debug, PartialEq, Eq)]
pub struct Decl {
    pub kind: Kind,
    pub clock: ClockId,
    pub base: u32,
}

/// An object. A timer by itself has no calls.
#[derive(Clone, Copy, Debug, PartialEq, Eq, Drop)]
pub enum Object {
    Raw,
    Posix(PosixState),
    Fd(FdState),
    Sleeper(SleeperState),
    Queued(QueuedState),
}

impl Object {
    /// An object that was just made. At `limit` entries its history is full.
    pub fn make(decl: Decl, limit: u64) -> Object
        requires some { 0 < limit }
        requires few { limit ≤ most_object_entries }
        ensures { result ≡ opened_object limit decl }
    {
        match decl.kind {
            Kind::Raw => Object::Raw,
            Kind::Posix => Object::Posix(PosixState::make(decl.clock, decl.base, limit)),
            Kind::Fd => Object::Fd(FdState::make(decl.clock, decl.base, limit)),
            Kind::Sleeper => Object::Sleeper(SleeperState::make(decl.clock, decl.base, limit)),
            Kind::Queued => Object::Queued(QueuedState::make(decl.clock, decl.base, limit)),
        }
    }
}

impl counted_row::Object for Object {
    type Call = ObjectCall;

    type Reply = ObjectReply;

    ghost use Rattle.timer_objects.specs.Meaning.{object_meaning};

    ghost meaning = { object_meaning };

    fn apply(&mut self, call: &ObjectCall) -> ObjectReply {
        match self {
            Object::Raw => ObjectReply::None,
            Object::Posix(timer) => timer.apply(*call),
            Object::Fd(timer) => timer.apply(*call),
            Object::Sleeper(sleeper) => sleeper.apply(*call),
            Object::Queued(timer) => timer.apply(*call),
        }
    }

    fn counts() {}
}
