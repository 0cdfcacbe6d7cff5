//! POSIX timers, timer descriptors and sleepers over high-resolution timers, for many threads: each object behind a lock of its own, with one history.
#![tactic(auto)]

pub use answers::{BlockingRead, Gettime, Overrun, Readable, Slept};
pub use callback::Callback;
pub use firing::{Firing, FiringWith};
pub use laws::an_object_has_one_history;
pub use log::{ObjectLog, ObjectReceipt};
pub use object::{Decl, Kind, Object};
pub use objects::Objects;
pub use queued_firing::{QueuedFiring, QueuedFiringWith};
pub use readers::{Reader, RungBelow};
pub use signals::NextSignal;
pub use timer_setting::{ObjectCall, ObjectReply};

mod anew;
mod answers;
mod arming;
mod blocking;
mod callback;
mod entries;
mod firing;
mod laws;
mod log;
mod looking;
mod object;
mod objects;
mod queue;
mod queued_firing;
mod readers;
mod sending;
mod settime;
mod signals;
mod sleeping;
mod trigger;
mod turns;
mod wanting;
