//! Where bytes come from and where they go, each with a count of its faults: the two traits, the streams of std, such in memory that fail at listed
//! calls or never, and the writing of a whole text.
#![tactic(auto)]

pub use adapters::Counted;
pub use memory::{BytesSink, BytesSource, CleanSink, CleanSource, Kept, Plan};
pub use stream::{Failed, Sink, Source};
pub use writing::write_all;

mod adapters;
mod memory;
mod stream;
mod writing;
