//! The lines of a kernel's trace that tell of its timers.
#![tactic(auto)]

pub use event::{KernelEvent, Site};
pub use reading::read_line;
pub use unreadable::Unreadable;

mod event;
mod fields;
mod heads;
mod modes;
mod names;
mod numbers;
mod reading;
mod unreadable;
mod words;
