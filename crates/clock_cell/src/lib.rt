//! A clock that many threads share. Each reads and writes it with a pass of its own, and each reading
//! is the clock after the writes that the pass has then seen.
#![tactic(auto)]

mod pass;
mod plays;
mod shared;
mod steps;
mod view;
mod words;

pub use pass::ClockPass;
pub use shared::{SharedClock, WriteAnswer};
pub use view::ClockView;
