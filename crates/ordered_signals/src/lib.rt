//! Pushes and pops of a shared queue of signals that have a place among the entries of timers.
#![tactic(auto)]

mod laws;
mod looking;
mod popping;
mod pushing;

pub use laws::{a_pop_stands_behind_its_push, a_push_stands_where_there_is_room};
pub use looking::look;
pub use popping::pop;
pub use pushing::push;

/// The timers' ring that repeats the queue's pushes and pops.
pub(crate) const RING: u32 = 0;
