//! The words of the command line.
ghost use Rattle.std.specs.Prelude.{◌≡◌};
ghost use Rattle.trace_top.specs.Command.{asked_of_words};

use crate::status::Status;
use std::alloc::Global;
use std::env::Args;
use std::io;

/// What the program is asked to do: to check the trace, and to tell at most one line, or a summary too.
#[derive(Clone, Copy, Debug, PartialEq, Eq)]
pub enum Asked {
    Line,
    Summary,
}

/// What words ask for, the program's name first; `None` where that is nothing that the program does.
pub fn asks(words: &[String]) -> Option<Asked>
    ensures { result ≡ asked_of_words words.now }
{
    match words.len() {
        1 => Some(Asked::Line),
        2 if words[1].as_bytes() == b"--summary".as_slice() => Some(Asked::Summary),
        _ => None,
    }
}

/// The words, of what reading the process's arguments gave.
pub fn words(alloc: Global, args: io::Result<Args>) -> Result<Vec<String>, Status> {
    match args {
        Ok(args) => match args.collect(alloc) {
            Ok(words) => Ok(words),
            Err(_) => Err(Status::OutOfMemory),
        },
        Err(fault) => match fault.kind() {
            io::ErrorKind::OutOfMemory => Err(Status::OutOfMemory),
            _ => Err(Status::Usage),
        },
    }
}
