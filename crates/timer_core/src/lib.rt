//! All timers of several bases on one thread: each call steps the timers that it speaks of, and keeps the queues of the bases.
#![tactic(auto)]

pub use answer::{ClaimAnswer, StartAnswer};
pub use laws::{calls_keep_histories_legal, the_wait_is_one};
pub use timers::Core;

mod answer;
mod calls;
mod laws;
mod timers;
mod waits;
