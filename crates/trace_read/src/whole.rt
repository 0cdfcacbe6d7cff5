//! Reads a text that lies in memory.
ghost use Rattle.std.specs.Prelude.{IfOk};
ghost use Rattle.trace_read.specs.Lines.{HasVerdict};
ghost use Rattle.trace_read.specs.Readers.{IsTallied, told_by};

use crate::reader::Reader;
use crate::tally::Tally;
use crate::verdict::Verdict;
use std::alloc::{AllocError, Global};

/// The answer to a whole text, and what the events up to it were, by numbers.
pub fn read_whole(alloc: Global, text: &[u8]) -> Result<(Verdict, Tally), AllocError>
    ensures answer { IfOk result (λ read. HasVerdict text.now read.0) }
    ensures tally { IfOk result (λ read. IsTallied read.0 read.1 (told_by text.now)) }
{
    let mut reader = Reader::new(alloc);
    let verdict = reader.take_last(text)?;
    Ok((verdict, reader.into_tally()))
}
