//! How the program ends.
ghost use Rattle.std.specs.Prelude.{◌≡◌, option_map};
ghost use Rattle.hrt_top.specs.Status.{code_of, message_of};

/// The outcome of one run of the program.
#[derive(Clone, Copy, Debug, PartialEq, Eq)]
pub enum Status {
    /// The whole answer was written.
    Ok,
    /// The words of the command line ask for nothing that the program does.
    Usage,
    /// What was read is no script that the program accepts.
    Refused,
    /// The source failed.
    ReadFault,
    /// The sink failed.
    WriteFault,
    /// The run was given up: out of memory.
    OutOfMemory,
}

impl Status {
    /// The number that the process ends with.
    pub fn code(self) -> u8
        ensures { result ≡ code_of self }
    {
        match self {
            Status::Ok => 0,
            Status::Usage => 2,
            Status::Refused => 3,
            Status::ReadFault => 4,
            Status::WriteFault => 5,
            Status::OutOfMemory => 6,
        }
    }

    /// The line for standard error, where there is one.
    pub fn message(self) -> Option<&'static str>
        ensures { option_map (λ text. text.now) result ≡ message_of self }
    {
        match self {
            Status::Ok | Status::Refused => None,
            Status::Usage => Some("usage: hrt run | hrt gen --seed N --lanes N --calls N"),
            Status::ReadFault => Some("hrt: read fault"),
            Status::WriteFault => Some("hrt: write fault"),
            Status::OutOfMemory => Some("hrt: out of memory"),
        }
    }
}
