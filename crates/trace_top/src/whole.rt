//! All that the program does, over the streams that it is handed.
ghost use Rattle.std.specs.Prelude.{◌≡◌, ◌<◌, ◌≤◌, ◌⊎◌, true, List, Some, None, IfOk, IfSome, string_bytes};
ghost use Rattle.trace_top.specs.Checking.{HasToldInPart, HasTold, IsToldAs, MayEnd, MustEnd};
ghost use Rattle.trace_top.specs.Command.{asked_of_words};
ghost use Rattle.trace_top.specs.declared.command.Asked.{Asked};
ghost use Rattle.trace_top.specs.Status.{is_answer};
ghost use Rattle.trace_text.specs.declared.event.KernelEvent.{KernelEvent};
ghost use Rattle.trace_read.specs.Readers.{IsTallied};
ghost use Rattle.byte_streams.specs.Streams.{Rose};

use crate::checking::{CheckFault, check};
use crate::command::{Asked, asks};
use crate::status::Status;
use crate::summary::{line, summary};
use crate::texts::text_of;
use byte_streams::{Failed, Sink, Source, write_all};
use std::alloc::{AllocError, Global};
use trace_read::{Reader, Verdict};

/// Does what the words ask for, the program's name first: checks the trace of the source, and writes to the sink that it fits, or the first line that
/// can't be read or with which no history shows the lines so far, or that no line tells an event of a timer.
#[tactic(auto, using(crate::proofs::Endings::must_answer))]
pub fn top<S: Source, K: Sink>(
    alloc: Global,
    words: &[String],
    source: &mut S,
    sink: &mut K,
) -> Status
    ensures usage { result ≡ Status.Usage → asked_of_words words.now ≡ None }
    ensures untouched { asked_of_words words.now ≡ None → (result ≡ Status.Usage) × (source.new ≡ source.old) × (sink.new ≡ sink.old) }
    ensures answered { (asked : Asked) → asked_of_words words.now ≡ Some asked → is_answer result ≡ true → HasTold asked (S.left source.old) (S.left source.new) (K.taken sink.old) (K.taken sink.new) result }
    ensures calm { is_answer result ≡ true → (S.faults source.new ≡ S.faults source.old) × (K.faults sink.new ≡ K.faults sink.old) }
    ensures read_fault { result ≡ Status.ReadFault → Rose (S.faults source.old) (S.faults source.new) }
    ensures read_told { S.faults source.old < S.faults source.new → result ≡ Status.ReadFault }
    ensures write_fault { result ≡ Status.WriteFault → Rose (K.faults sink.old) (K.faults sink.new) }
    ensures write_told { K.faults sink.old < K.faults sink.new → result ≡ Status.WriteFault }
    ensures prefix { (asked : Asked) → asked_of_words words.now ≡ Some asked → result ≡ Status.WriteFault → HasToldInPart asked (S.left source.old) (S.left source.new) (K.taken sink.old) (K.taken sink.new) }
    ensures unwritten { (result ≡ Status.ReadFault) ⊎ (result ≡ Status.OutOfMemory) → sink.new ≡ sink.old }
    ensures complete { (asked_of_words words.now ≡ None → ⊥) → (Rose (S.faults source.old) (S.faults source.new) → ⊥) → (Rose (K.faults sink.old) (K.faults sink.new) → ⊥) → IfSome (S.left source.old) (λ bytes. MustEnd bytes result) }
    ensures source_later { S.faults source.old ≤ S.faults source.new }
    ensures sink_later { K.faults sink.old ≤ K.faults sink.new }
{
    match asks(words) {
        Some(asked) => run(alloc, asked, source, sink),
        None => Status::Usage,
    }
}

/// Checks the trace of the source, and writes the answer to the sink.
fn run<S: Source, K: Sink>(alloc: Global, asked: Asked, source: &mut S, sink: &mut K) -> Status
    ensures used { result ≡ Status.Usage → ⊥ }
    ensures answered { is_answer result ≡ true → HasTold asked (S.left source.old) (S.left source.new) (K.taken sink.old) (K.taken sink.new) result }
    ensures calm { is_answer result ≡ true → (S.faults source.new ≡ S.faults source.old) × (K.faults sink.new ≡ K.faults sink.old) }
    ensures read_fault { result ≡ Status.ReadFault → Rose (S.faults source.old) (S.faults source.new) }
    ensures read_told { S.faults source.old < S.faults source.new → result ≡ Status.ReadFault }
    ensures write_fault { result ≡ Status.WriteFault → Rose (K.faults sink.old) (K.faults sink.new) }
    ensures write_told { K.faults sink.old < K.faults sink.new → result ≡ Status.WriteFault }
    ensures prefix { result ≡ Status.WriteFault → HasToldInPart asked (S.left source.old) (S.left source.new) (K.taken sink.old) (K.taken sink.new) }
    ensures unwritten { (result ≡ Status.ReadFault) ⊎ (result ≡ Status.OutOfMemory) → sink.new ≡ sink.old }
    ensures complete { (Rose (S.faults source.old) (S.faults source.new) → ⊥) → (Rose (K.faults sink.old) (K.faults sink.new) → ⊥) → IfSome (S.left source.old) (λ bytes. MayEnd bytes result) }
    ensures source_later { S.faults source.old ≤ S.faults source.new }
    ensures sink_later { K.faults sink.old ≤ K.faults sink.new }
{
    let mut reader = Reader::new(alloc);
    let verdict = match check(&mut reader, source) {
        Ok(verdict) => verdict,
        Err(CheckFault::Failed) => return Status::ReadFault,
        Err(CheckFault::OutOfMemory) => return Status::OutOfMemory,
    };
    let Ok(text) = answer(alloc, asked, verdict, &reader) else {
        return Status::OutOfMemory;
    };
    match write_all(sink, text.as_bytes()) {
        Ok(()) => Status::of(verdict),
        Err(Failed) => Status::WriteFault,
    }
}

/// What is written for a verdict.
fn answer(
    alloc: Global,
    asked: Asked,
    verdict: Verdict,
    reader: &Reader,
) -> Result<String, AllocError>
    ensures { IfOk result (λ t. (past : List KernelEvent) → IsTallied verdict reader.now.tally past → IsToldAs asked past verdict (string_bytes t)) }
{
    match verdict {
        Verdict::Fits { events } => match asked {
            Asked::Line => line(alloc, events, reader.tally()),
            Asked::Summary => summary(alloc, events, reader.tally()),
        },
        _ => text_of(alloc, verdict),
    }
}
