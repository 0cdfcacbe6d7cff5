//! All that the program `hrt_check` does, over any source and sink: the words of its command line, the check of the trace that it reads, and how it ends.
#![tactic(auto)]

pub use byte_streams::{Counted, Failed, Sink, Source};
pub use command::{Asked, words};
pub use status::Status;
pub use whole::top;

mod checking;
mod command;
mod status;
mod summary;
mod texts;
mod whole;
