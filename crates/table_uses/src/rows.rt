//! How a row is used: an object of one's own, calls under locks, and threads with a pass each.
pub use counter::{Counter, add_one, count};
pub use gate::{Gate, Turn, enter, enter_soon, leave};
pub use lanes::{Lane, count_in_lanes, lanes_of, retire_all};
pub use threads::{Totals, count_anew, count_by_two};

mod counter;
mod gate;
mod lanes;
mod threads;
