//! The calls that arm their object's timer again, and what they want of it.
ghost use Rattle.std.specs.Prelude.{◌≡◌};
ghost use Rattle.timer_objects.specs.Calls.{wanted_by};
ghost use Rattle.timer_objects.specs.Rearming.{HasEntryRoom};

use crate::object::Object;
use ktime::Reading;
use timer_setting::{ObjectReply, Wanted};

/// The length in bytes of a buffer that holds a count.
pub const COUNT_LENGTH: u64 = 8;

/// A call that arms its object's timer again, where that is periodic and has expired.
#[derive(Clone, Copy, Debug, PartialEq, Eq)]
pub enum Rearming {
    /// A POSIX timer's signal is accepted.
    Accepting,
    /// A descriptor is read.
    Reading,
    /// A descriptor's setting is asked for.
    Getting,
}

/// How such a call ended.
#[derive(Clone, Copy, Debug, PartialEq, Eq)]
pub enum Ended {
    /// The object's history is full.
    Full { stamp: u64 },
    /// Its entry was made, and has this number.
    Made { stamp: u64, reply: ObjectReply },
}

/// The start that a call wants of an object whose history has room.
pub(crate) fn wanted(call: Rearming, object: &Object, reading: Reading) -> Option<Wanted>
    requires room { HasEntryRoom object.now }
    ensures { result ≡ wanted_by call object.now reading }
{
    match (call, object) {
        (Rearming::Accepting, Object::Posix(timer)) => timer.accept_wants(reading),
        (Rearming::Accepting, Object::Queued(queued)) => queued.timer.accept_wants(reading),
        (Rearming::Reading, Object::Fd(timer)) => timer.read_wants(COUNT_LENGTH, reading),
        (Rearming::Getting, Object::Fd(timer)) => timer.gettime_wants(reading),
        _ => None,
    }
}
