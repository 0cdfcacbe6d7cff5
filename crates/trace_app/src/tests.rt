//! Tests of whole traces, of lines, and of streams that fail.
use std::alloc::{AllocError, Global};
use trace_top::{Counted, Status, top};

mod causes;
mod contexts;
mod lines;
mod streams;

/// The words of a command line.
pub fn command(alloc: Global, words: &[&str]) -> Result<Vec<String>, AllocError> {
    let mut all = Vec::new(alloc);
    for word in words {
        all.push(String::from_str(alloc, word)?)?;
    }
    Ok(all)
}

/// How a trace is answered: the status, and what is written.
pub fn answered(
    alloc: Global,
    words: &[&str],
    text: &[u8],
) -> Result<(Status, Vec<u8>), AllocError> {
    let mut source = Counted::new(text);
    let mut sink = Counted::new(Vec::new(alloc));
    let words = command(alloc, words)?;
    let status = top(alloc, &words, &mut source, &mut sink);
    let Counted { inner, .. } = sink;
    Ok((status, inner))
}
