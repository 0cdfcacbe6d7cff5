//! How a trace is answered.
use trace_check::Misfit;
use trace_text::Unreadable;

/// The answer to a text.
#[derive(Clone, Copy, Debug, PartialEq, Eq)]
pub enum Verdict {
    /// Each line can be read, and they fit. They tell so many events, one of a timer at least.
    Fits { events: u64 },
    /// Each line can be read, and none tells an event of a timer.
    NoEvents,
    /// With this line no history shows the lines so far.
    Refused { line: u64, cause: Misfit },
    /// This line is of a timer's event and can't be read.
    Unreadable { line: u64, what: Unreadable },
}
