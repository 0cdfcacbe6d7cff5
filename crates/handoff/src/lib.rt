//! Handoffs: one thread hands a value to another, which works on it and hands it back.
#![tactic(auto)]

pub use handoff::{HandSeat, Handoff};
pub use rule::{Part, Task, View};

mod handoff;
mod rule;
