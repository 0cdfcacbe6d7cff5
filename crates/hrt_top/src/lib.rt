//! All that the program `hrt` does, over any source, sink and gate: the words of its command line, a run of the script that it reads or makes, and
//! how it ends.
#![tactic(auto)]

pub use byte_streams::{
    BytesSink, BytesSource, CleanSink, CleanSource, Counted, Failed, Kept, Plan, Sink, Source,
    write_all,
};
pub use command::{Request, asks, what_words_ask_for, words};
pub use status::Status;
pub use transfer::{CHUNK, MOST_BYTES, ReadFault, read_all};
pub use whole::{on_bytes, top};

mod command;
mod engine;
mod status;
mod transfer;
mod whole;
