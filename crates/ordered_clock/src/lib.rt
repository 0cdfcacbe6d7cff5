//! Readings and writes of a shared clock that have a place among the entries of timers.
#![tactic(auto)]

mod laws;
mod ordered;

pub use laws::{a_reading_is_not_older_than_what_was_seen, no_write_comes_after_its_reading};
pub use ordered::{read, settle, write};
