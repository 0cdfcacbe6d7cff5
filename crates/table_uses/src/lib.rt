//! How the tables that threads share are used: rows of values, a queue of signals, and work that is handed to another thread.
#![tactic(auto)]

pub use handing::{Addend, Load, add_to_all};
pub use rows::{
    Counter, Gate, Lane, Totals, Turn, add_one, count, count_anew, count_by_two, count_in_lanes,
    enter, enter_soon, lanes_of, leave, retire_all,
};
pub use signals::{drain, hand_over, send, trade};

mod handing;
mod rows;
mod signals;
#[cfg(test)]
mod tests;
