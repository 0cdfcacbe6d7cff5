//! What is known of processors, and the expiries of their queues.
ghost use Rattle.std.specs.Prelude.{◌≡◌, ◌≢◌, ℕ, OnOk, Some, List};
ghost use Rattle.trace_check.specs.declared.known.OrderedExpiry.{OrderedExpiry};
ghost use Rattle.trace_check.specs.Holding.{half_number, is_late_for, known_on, marks_in, queue_number, HasOnly, TellsPassed};
ghost use Rattle.trace_check.specs.Knowledge.{is_passed, with_claim};

use crate::known::{KnownProcessor, OrderedExpiry};
use crate::mark::Mark;
use crate::queue::MarkList;
use ktime::ClockId;
use seq_timer::Context;
use std::alloc::{AllocError, Global};
use std::collections::HashMap;

/// The number of a processor's half for a context.
fn half_number(processor: u32, context: Context) -> u64
    ensures { result ≡ half_number processor context }
{
    match context {
        Context::Hard => 2 * u64::from(processor),
        Context::Soft => 2 * u64::from(processor) + 1,
    }
}

/// The number of a processor's queue, for a context and a clock.
fn queue_number(processor: u32, context: Context, clock: ClockId) -> u64
    ensures { result ≡ queue_number processor context clock }
{
    let first = 3 * half_number(processor, context);
    match clock {
        ClockId::Monotonic => first,
        ClockId::Realtime => first + 1,
        ClockId::Boottime => first + 2,
    }
}

/// What is known of each processor that a line has named.
pub type ProcessorTable = HashMap<u64, KnownProcessor>;

/// The expiries of each queue that has any.
pub type QueueTable = HashMap<u64, MarkList>;

/// What is known of a processor.
pub fn known_on(processors: &ProcessorTable, processor: u32) -> KnownProcessor
    ensures { result ≡ known_on processors.now processor }
{
    let nothing = KnownProcessor::nothing();
    processors
        .get(&u64::from(processor))
        .copied()
        .unwrap_or(nothing)
}

/// Notes what is known of a processor now.
pub fn note_on(
    processors: &mut ProcessorTable,
    processor: u32,
    known: KnownProcessor,
) -> Result<(), AllocError>
    ensures { OnOk result (HasOnly processors.old processors.new processor known) }
{
    processors.insert(u64::from(processor), known)?;
    Ok(())
}

/// Whether an earlier expiry passed this one.
pub fn is_passed(queues: &QueueTable, claim: &OrderedExpiry) -> bool
    ensures { result ≡ is_late_for queues.now claim.now }
{
    let q = queue_number(claim.processor, claim.context, claim.clock);
    match queues.get(&q) {
        Some(queue) => queue.has_late(claim.expires, claim.order),
        None => false,
    }
}

/// Takes out the expiries of a queue.
fn take_queue(alloc: Global, queues: &mut QueueTable, q: u64) -> MarkList
    ensures taken { result ≡ marks_in queues.old q }
    ensures others { (n : ℕ) → n ≢ q → marks_in queues.new n ≡ marks_in queues.old n }
{
    queues.remove(&q).unwrap_or(MarkList::new(alloc))
}

/// Puts in the expiries of a queue.
fn put_queue(queues: &mut QueueTable, q: u64, queue: MarkList) -> Result<(), AllocError>
    ensures put { OnOk result (marks_in queues.new q ≡ queue) }
    ensures others { OnOk result ((n : ℕ) → n ≢ q → marks_in queues.new n ≡ marks_in queues.old n) }
{
    queues.insert(q, queue)?;
    Ok(())
}

/// Notes one more expiry of a queue.
pub fn note_claim(
    alloc: Global,
    queues: &mut QueueTable,
    claim: OrderedExpiry,
) -> Result<(), AllocError>
    ensures { (claims : List OrderedExpiry) → TellsPassed queues.old claims → OnOk result (TellsPassed queues.new (with_claim (Some claim) claims)) }
{
    let q = queue_number(claim.processor, claim.context, claim.clock);
    let mut queue = take_queue(alloc, queues, q);
    queue.note(Mark {
        expires: claim.expires,
        order: claim.order,
        at: claim.at,
    })?;
    put_queue(queues, q, queue)
}
