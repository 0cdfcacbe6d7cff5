//! The streams of std as a source and a sink. Standard input and output tell nothing of their bytes.
ghost use Rattle.std.specs.Prelude.{◌≡◌, ◌<◌, length, take, None, IfOk, OnErr};
ghost use Rattle.std.specs.Io.{WritesAtMost};
ghost use Rattle.std.specs.Io.KnownBytes.{Appends, Keeps};
ghost use Rattle.byte_streams.specs.Streams.{HasCause};

use crate::stream::{Failed, Sink, Source};
use std::io::{Read, Write};

/// A reader or a writer of std, with a count of its errors and of the writes that took nothing.
#[derive(Drop)]
pub struct Counted<S> {
    /// The reader or writer.
    pub inner: S,
    /// How often it has failed.
    pub faults: u64,
}

impl<S> Counted<S> {
    /// The reader or writer, as a source or a sink that hasn't failed yet.
    pub fn new(inner: S) -> Self
        ensures inner { result.inner ≡ inner }
        ensures faults { result.faults ≡ 0 }
    {
        Counted { inner, faults: 0 }
    }
}

impl<R: Read> Source for Counted<R> {
    ghost left = { λ s. R.remaining s.inner };

    ghost faults = { λ s. s.faults };

    fn read(&mut self, buf: &mut [u8]) -> Result<usize, Failed> {
        match self.inner.read(buf) {
            Ok(count) => Ok(count),
            Err(_) => {
                self.faults = self.faults.saturating_add(1);
                Err(Failed)
            }
        }
    }
}

impl<W: Write> Sink for Counted<W> {
    ghost taken = { λ _. None };

    ghost faults = { λ s. s.faults };

    fn write(&mut self, piece: &[u8]) -> Result<usize, Failed>
        ensures bound { WritesAtMost result piece.now }
        ensures some { 0 < length piece.now → IfOk result (λ n. 0 < n) }
        ensures inner { IfOk result (λ n. Appends (W.contents self.old.inner) (W.contents self.new.inner) (take n piece.now)) }
        ensures inner_kept { OnErr result (Keeps (W.contents self.old.inner) (W.contents self.new.inner)) }
        ensures cause { HasCause self.old.faults self.new.faults result }
    {
        if piece.is_empty() {
            return Ok(0);
        }
        match self.inner.write(piece) {
            Ok(count) if count > 0 => Ok(count),
            _ => {
                self.faults = self.faults.saturating_add(1);
                Err(Failed)
            }
        }
    }
}
