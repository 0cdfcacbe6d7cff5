//! How the program ends.
ghost use Rattle.std.specs.Prelude.{◌≡◌, option_map};
ghost use Rattle.trace_top.specs.Status.{check_code, check_message, status_of};

use trace_read::Verdict;

/// The outcome of one run of the program.
#[derive(Clone, Copy, Debug, PartialEq, Eq)]
pub enum Status {
    /// The trace fits, and that was written.
    Fits,
    /// The words of the command line ask for nothing that the program does.
    Usage,
    /// A line of a timer's event can't be read, and which was written.
    Unreadable,
    /// The source failed.
    ReadFault,
    /// The sink failed.
    WriteFault,
    /// The check was given up: out of memory.
    OutOfMemory,
    /// The trace doesn't fit, and why was written.
    Refused,
    /// The trace has no event of a timer, and that was written.
    NoEvents,
}

impl Status {
    /// How the program ends where a text is answered so.
    pub fn of(verdict: Verdict) -> Status
        ensures { result ≡ status_of verdict }
    {
        match verdict {
            Verdict::Fits { .. } => Status::Fits,
            Verdict::NoEvents => Status::NoEvents,
            Verdict::Refused { .. } => Status::Refused,
            Verdict::Unreadable { .. } => Status::Unreadable,
        }
    }

    /// The number that the process ends with.
    pub fn code(self) -> u8
        ensures { result ≡ check_code self }
    {
        match self {
            Status::Fits => 0,
            Status::Usage => 2,
            Status::Unreadable => 3,
            Status::ReadFault => 4,
            Status::WriteFault => 5,
            Status::OutOfMemory => 6,
            Status::Refused => 7,
            Status::NoEvents => 8,
        }
    }

    /// The line for standard error, where there is one.
    pub fn message(self) -> Option<&'static str>
        ensures { option_map (λ text. text.now) result ≡ check_message self }
    {
        match self {
            Status::Fits | Status::Unreadable | Status::Refused | Status::NoEvents => None,
            Status::Usage => Some("usage: hrt_check [--summary] < TRACE"),
            Status::ReadFault => Some("hrt_check: read fault"),
            Status::WriteFault => Some("hrt_check: write fault"),
            Status::OutOfMemory => Some("hrt_check: out of memory"),
        }
    }
}
