//! Callers of `timer_objects`: POSIX timers, timer descriptors and sleepers that threads share, each thread with two passes of its own.
#![tactic(auto)]

pub use beside::read_beside;
pub use blocking::{advance_and_expire, wait_for_count};
pub use counts::read_count;
pub use expiring::{Expired, expire_objects};
pub use queued::{Taken, expire_queued, take_signals};
pub use setting::set_timer;
pub use sharing::hear_all;
pub use signals::accept_signal;
pub use sleeping::{await_frame, leave_frame};

mod beside;
mod blocking;
mod counts;
mod expiring;
mod queued;
mod setting;
mod sharing;
mod signals;
mod sleeping;
#[cfg(test)]
mod tests;
