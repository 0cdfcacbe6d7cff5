//! Writing a text to a sink.
ghost use Rattle.std.specs.Prelude.{◌≡◌, ◌≤◌, ◌+◌, ℕ, length, take, OnOk, OnErr};
ghost use Rattle.byte_streams.specs.Streams.{HasCause, GrowsBy, AddsPrefix};

use crate::stream::{Failed, Sink};

/// Writes the whole text. After a fault the sink took a prefix of it.
pub fn write_all<K: Sink>(sink: &mut K, text: &[u8]) -> Result<(), Failed>
    ensures all { OnOk result (GrowsBy (K.taken sink.old) (K.taken sink.new) text.now) }
    ensures prefix { OnErr result (AddsPrefix (K.taken sink.old) (K.taken sink.new) text.now) }
    ensures cause { HasCause (K.faults sink.old) (K.faults sink.new) result }
{
    let mut at = 0;
    while at < text.len() {
        at += sink.write(&text[at..])?;
    }
    Ok(())
}
