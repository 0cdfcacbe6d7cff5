//! All that the program does, over the streams that it is handed.
ghost use Rattle.std.specs.Prelude.{◌≡◌, ◌<◌, ◌≤◌, ◌⊎◌, ℕ, [], Some, None, IfSome};
ghost use Rattle.byte_streams.specs.Streams.{Rose, GrowsBy};
ghost use Rattle.hrt_top.specs.Transfer.{TakesAtMost, most_bytes};
ghost use Rattle.hrt_top.specs.Command.{request_in};
ghost use Rattle.script_text.specs.declared.refusal.Refused.{Refused};
ghost use Rattle.script_text.specs.Refusals.{IsRefused, refusal_text};
ghost use Rattle.hrt_top.specs.Top.{IsAskedFor, HasRecorded, HasRefused, HasStopped, HasSummed, HasSummedInPart, MustAnswer};

use crate::command::{Request, asks};
use crate::engine::{Answer, answer_to, summary_of_generated};
use crate::status::Status;
use crate::transfer::{ReadFault, read_all};
use byte_streams::{CleanSink, CleanSource, Failed, Sink, Source, write_all};
use lane_run::Gate;
use std::alloc::Global;
use std::sync::Wait;
use std::thread::Threads;

/// Does what the words ask for, the program's name being the first: reads a script from the source, runs it, and
/// writes its record or its refusal to the sink; or runs a script that it makes from a number, and writes the summary
/// of its record. The text is made whole before the first write.
pub fn top<R: Threads + Wait + Sync + AllocGlobal, S: Source, K: Sink, G: Gate>(
    rt: &R,
    words: &[String],
    source: &mut S,
    sink: &mut K,
    gate: &G,
) -> Status
    ensures asked { IsAskedFor (request_in words.now) result }
    ensures usage { request_in words.now ≡ None → (result ≡ Status.Usage) ⊎ (result ≡ Status.OutOfMemory) }
    ensures untouched { result ≡ Status.Usage → (source.new ≡ source.old) × (sink.new ≡ sink.old) }
    ensures ok { request_in words.now ≡ Some Request.Run → result ≡ Status.Ok → HasRecorded (S.left source.old) (S.left source.new) (K.taken sink.old) (K.taken sink.new) }
    ensures refused { result ≡ Status.Refused → HasRefused (S.left source.old) (S.left source.new) (K.taken sink.old) (K.taken sink.new) }
    ensures calm { (result ≡ Status.Ok) ⊎ (result ≡ Status.Refused) → (S.faults source.new ≡ S.faults source.old) × (K.faults sink.new ≡ K.faults sink.old) }
    ensures read_fault { result ≡ Status.ReadFault → Rose (S.faults source.old) (S.faults source.new) }
    ensures read_told { S.faults source.old < S.faults source.new → result ≡ Status.ReadFault }
    ensures read_few { result ≡ Status.ReadFault → TakesAtMost (S.left source.old) (S.left source.new) most_bytes }
    ensures write_fault { result ≡ Status.WriteFault → Rose (K.faults sink.old) (K.faults sink.new) }
    ensures write_told { K.faults sink.old < K.faults sink.new → result ≡ Status.WriteFault }
    ensures prefix { request_in words.now ≡ Some Request.Run → result ≡ Status.WriteFault → HasStopped (S.left source.old) (S.left source.new) (K.taken sink.old) (K.taken sink.new) }
    ensures unwritten { (result ≡ Status.ReadFault) ⊎ (result ≡ Status.OutOfMemory) → sink.new ≡ sink.old }
    ensures complete { request_in words.now ≡ Some Request.Run → (Rose (S.faults source.old) (S.faults source.new) → ⊥) → (Rose (K.faults sink.old) (K.faults sink.new) → ⊥) → IfSome (S.left source.old) (λ bytes. MustAnswer bytes result) }
    ensures unread { (s l c : ℕ) → request_in words.now ≡ Some (Request.Make s l c) → source.new ≡ source.old }
    ensures made { (s l c : ℕ) → request_in words.now ≡ Some (Request.Make s l c) → result ≡ Status.Ok → HasSummed s l c (K.taken sink.old) (K.taken sink.new) }
    ensures made_in_part { (s l c : ℕ) → request_in words.now ≡ Some (Request.Make s l c) → result ≡ Status.WriteFault → HasSummedInPart s l c (K.taken sink.old) (K.taken sink.new) }
    ensures made_whole { (s l c : ℕ) → request_in words.now ≡ Some (Request.Make s l c) → (Rose (K.faults sink.old) (K.faults sink.new) → ⊥) → (result ≡ Status.Ok) ⊎ (result ≡ Status.OutOfMemory) }
    ensures source_later { S.faults source.old ≤ S.faults source.new }
    ensures sink_later { K.faults sink.old ≤ K.faults sink.new }
{
    match asks(rt.alloc(), words) {
        Ok(Some(Request::Run)) => run_script(rt, source, sink, gate),
        Ok(Some(Request::Make { seed, lanes, calls })) => {
            make_summary(rt, sink, gate, seed, lanes, calls)
        }
        Ok(None) => Status::Usage,
        Err(_) => Status::OutOfMemory,
    }
}

/// Reads a script from the source, runs it, and writes its record or its refusal to the sink.
#[tactic(auto, using(crate::proofs::Outcomes::recorded, crate::proofs::Outcomes::may_run_out))]
fn run_script<R: Threads + Wait + Sync + AllocGlobal, S: Source, K: Sink, G: Gate>(
    rt: &R,
    source: &mut S,
    sink: &mut K,
    gate: &G,
) -> Status
    ensures used { result ≡ Status.Usage → ⊥ }
    ensures ok { result ≡ Status.Ok → HasRecorded (S.left source.old) (S.left source.new) (K.taken sink.old) (K.taken sink.new) }
    ensures refused { result ≡ Status.Refused → HasRefused (S.left source.old) (S.left source.new) (K.taken sink.old) (K.taken sink.new) }
    ensures calm { (result ≡ Status.Ok) ⊎ (result ≡ Status.Refused) → (S.faults source.new ≡ S.faults source.old) × (K.faults sink.new ≡ K.faults sink.old) }
    ensures read_fault { result ≡ Status.ReadFault → Rose (S.faults source.old) (S.faults source.new) }
    ensures read_told { S.faults source.old < S.faults source.new → result ≡ Status.ReadFault }
    ensures read_few { result ≡ Status.ReadFault → TakesAtMost (S.left source.old) (S.left source.new) most_bytes }
    ensures write_fault { result ≡ Status.WriteFault → Rose (K.faults sink.old) (K.faults sink.new) }
    ensures write_told { K.faults sink.old < K.faults sink.new → result ≡ Status.WriteFault }
    ensures prefix { result ≡ Status.WriteFault → HasStopped (S.left source.old) (S.left source.new) (K.taken sink.old) (K.taken sink.new) }
    ensures unwritten { (result ≡ Status.ReadFault) ⊎ (result ≡ Status.OutOfMemory) → sink.new ≡ sink.old }
    ensures complete { (Rose (S.faults source.old) (S.faults source.new) → ⊥) → (Rose (K.faults sink.old) (K.faults sink.new) → ⊥) → IfSome (S.left source.old) (λ bytes. MustAnswer bytes result) }
    ensures source_later { S.faults source.old ≤ S.faults source.new }
    ensures sink_later { K.faults sink.old ≤ K.faults sink.new }
{
    let bytes = match read_all(rt.alloc(), source) {
        Ok(bytes) => bytes,
        Err(ReadFault::Failed) => return Status::ReadFault,
        Err(ReadFault::OutOfMemory) => return Status::OutOfMemory,
    };
    match answer_to(rt, rt.alloc(), gate, &bytes) {
        Ok(Answer::Record(text)) => match write_all(sink, &text) {
            Ok(()) => Status::Ok,
            Err(Failed) => Status::WriteFault,
        },
        Ok(Answer::Refusal(text)) => match write_all(sink, &text) {
            Ok(()) => Status::Refused,
            Err(Failed) => Status::WriteFault,
        },
        Err(_) => Status::OutOfMemory,
    }
}

/// Runs the script that this seed makes, and writes the summary of its record to the sink.
fn make_summary<R: Threads + Wait + Sync + AllocGlobal, K: Sink, G: Gate>(
    rt: &R,
    sink: &mut K,
    gate: &G,
    seed: u64,
    lanes: u32,
    calls: u64,
) -> Status
    requires seed { seed ≤ 2147483647 }
    requires lanes { (1 ≤ lanes) × (lanes ≤ 8) }
    requires calls { calls ≤ 4096 }
    ensures statuses { (result ≡ Status.Ok) ⊎ ((result ≡ Status.WriteFault) ⊎ (result ≡ Status.OutOfMemory)) }
    ensures ok { result ≡ Status.Ok → HasSummed seed lanes calls (K.taken sink.old) (K.taken sink.new) }
    ensures calm { result ≡ Status.Ok → K.faults sink.new ≡ K.faults sink.old }
    ensures write_fault { result ≡ Status.WriteFault → Rose (K.faults sink.old) (K.faults sink.new) }
    ensures write_told { K.faults sink.old < K.faults sink.new → result ≡ Status.WriteFault }
    ensures prefix { result ≡ Status.WriteFault → HasSummedInPart seed lanes calls (K.taken sink.old) (K.taken sink.new) }
    ensures unwritten { result ≡ Status.OutOfMemory → sink.new ≡ sink.old }
    ensures sink_later { K.faults sink.old ≤ K.faults sink.new }
{
    match summary_of_generated(rt, rt.alloc(), gate, seed, lanes, calls) {
        Ok(text) => match write_all(sink, &text) {
            Ok(()) => Status::Ok,
            Err(Failed) => Status::WriteFault,
        },
        Err(_) => Status::OutOfMemory,
    }
}

/// The program over bytes in memory, with a source and a sink that never fail: the outcome, and the sink.
#[tactic(auto, using(crate::proofs::Outcomes::refused_given))]
pub fn on_bytes<R: Threads + Wait + Sync + AllocGlobal, G: Gate>(
    rt: &R,
    words: &[String],
    bytes: &[u8],
    gate: &G,
) -> (Status, CleanSink)
    ensures asked { IsAskedFor (request_in words.now) result.0 }
    ensures answer { request_in words.now ≡ Some Request.Run → MustAnswer bytes.now result.0 }
    ensures ok { request_in words.now ≡ Some Request.Run → result.0 ≡ Status.Ok → HasRecorded (Some bytes.now) (Some []) (Some []) result.1.kept }
    ensures refused { result.0 ≡ Status.Refused → (r : Refused) × IsRefused bytes.now r × GrowsBy (Some []) result.1.kept (refusal_text r) }
    ensures made { (s l c : ℕ) → request_in words.now ≡ Some (Request.Make s l c) → result.0 ≡ Status.Ok → HasSummed s l c (Some []) result.1.kept }
    ensures made_whole { (s l c : ℕ) → request_in words.now ≡ Some (Request.Make s l c) → (result.0 ≡ Status.Ok) ⊎ (result.0 ≡ Status.OutOfMemory) }
    ensures unwritten { (result.0 ≡ Status.Usage) ⊎ (result.0 ≡ Status.OutOfMemory) → result.1.kept ≡ Some [] }
    ensures no_fault { (result.0 ≡ Status.ReadFault) ⊎ (result.0 ≡ Status.WriteFault) → ⊥ }
{
    let mut source = CleanSource::new(bytes);
    let mut sink = CleanSink::new(rt.alloc());
    let status = top(rt, words, &mut source, &mut sink, gate);
    (status, sink)
}
