//! Reads the text of a kernel's trace, line by line, and answers whether it is a history that the model gives.
#![tactic(auto)]

pub use laws::{an_answer_means_what_it_says, what_fits_is_answered_so};
pub use reader::Reader;
pub use tally::{EventCounts, Latest, Tally};
pub use verdict::Verdict;
pub use whole::read_whole;

mod laws;
mod reader;
mod tally;
mod verdict;
mod whole;
