//! Callers of `hr_timers` and its expiry runs: timers that threads share, each thread with a pass of its own.
#![tactic(auto)]

pub use cancelling::{Stopped, stop_and_wait, stop_now};
pub use once::{OneShot, expire_once, start_once};
pub use ordered::start_after;
pub use periodic::{Periodic, Tick, expire_periodic};
pub use sink::Counted;
pub use threads::{Counts, expire_and_stop, start_anew, start_by_two, start_counted, start_often};
pub use told::look;

mod cancelling;
mod once;
mod ordered;
mod periodic;
mod sink;
#[cfg(test)]
mod tests;
mod threads;
mod told;
