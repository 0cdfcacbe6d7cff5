//! Small callers of `timer_core`, `posix_timer`, `timer_fd` and `sleeper`: a timer that expires once, a periodic one, a POSIX timer, a descriptor, and
//! sleeps.
#![tactic(auto)]

pub use descriptor::{descriptor_expired, read_count, set_descriptor};
pub use once::{expire_once, start_once};
pub use periodic::{Tick, expire_periodic};
pub use posix::{accept_signal, arm_periodic, signal_expired};
pub use sleeps::{begin_sleep, end_sleep, expire_sleep, wake};
pub use starts::make_start;

mod descriptor;
mod once;
mod periodic;
mod posix;
mod sleeps;
mod starts;
#[cfg(test)]
mod tests;
