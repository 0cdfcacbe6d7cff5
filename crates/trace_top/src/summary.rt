//! The text for a trace that fits.
ghost use Rattle.std.specs.Prelude.{◌≡◌, ◌++◌, List, IfOk, OnOk, string_bytes};
ghost use Rattle.trace_text.specs.declared.event.KernelEvent.{KernelEvent};
ghost use Rattle.trace_read.specs.Tallies.{IsTallyOf};
ghost use Rattle.trace_top.specs.Checking.{IsFitsText, IsFitsTable};
ghost use Rattle.trace_top.specs.Texts.{counts_text, fits_text, late_text, latest_text, row_text, rows_of, with_events, with_table};

use std::alloc::{AllocError, Global};
use trace_read::{EventCounts, Latest, Tally};

/// How many events and timers a trace has.
fn counts_text(alloc: Global, events: u64, timers: u64) -> Result<String, AllocError>
    ensures { IfOk result (λ t. string_bytes t ≡ counts_text events timers) }
{
    Ok(format!(in alloc; "ok {events} events, {timers} timers")?)
}

/// The line for a trace that fits.
fn fits_text(alloc: Global, events: u64, timers: u64, processors: u64) -> Result<String, AllocError>
    ensures { IfOk result (λ t. string_bytes t ≡ fits_text events timers processors) }
{
    let counts = counts_text(alloc, events, timers)?;
    Ok(format!(in alloc; "{counts}, {processors} processors\n")?)
}

/// The line for a trace that fits.
pub fn line(alloc: Global, events: u64, tally: &Tally) -> Result<String, AllocError>
    ensures { IfOk result (λ t. (past : List KernelEvent) → IsTallyOf tally.now past → IsFitsText past events (string_bytes t)) }
{
    let timers = tally.timers() as u64;
    let processors = tally.processors() as u64;
    fits_text(alloc, events, timers, processors)
}

/// One row of the table: what is counted, and how often it was.
fn row(alloc: Global, text: &mut String, name: &str, count: u64) -> Result<(), AllocError>
    ensures { OnOk result (string_bytes text.new ≡ string_bytes text.old ++ row_text name.now count) }
{
    let line = format!(in alloc; "{name}{count}\n")?;
    text.push_str(&line)
}

/// The rows of events.
fn event_rows(alloc: Global, counts: EventCounts, text: &mut String) -> Result<(), AllocError>
    ensures { OnOk result (string_bytes text.new ≡ with_events counts (string_bytes text.old)) }
{
    row(alloc, text, "set-ups                 ", counts.set_ups)?;
    row(alloc, text, "starts                  ", counts.starts)?;
    row(alloc, text, "cancels                 ", counts.cancels)?;
    row(alloc, text, "expiries                ", counts.expiries)?;
    row(alloc, text, "returns                 ", counts.returns)?;
    row(alloc, text, "losses                  ", counts.losses)
}

/// The latest expiry on a processor in one context.
fn late_row(alloc: Global, processor: u32, context: &str, late: u64) -> Result<String, AllocError>
    ensures { IfOk result (λ t. string_bytes t ≡ late_text context.now processor late) }
{
    Ok(format!(in alloc; "latest on {processor} {context}{late} ns\n")?)
}

/// The same, where there was an expiry.
fn latest_row(
    alloc: Global,
    text: &mut String,
    processor: u32,
    context: &str,
    late: Option<u64>,
) -> Result<(), AllocError>
    ensures { OnOk result (string_bytes text.new ≡ string_bytes text.old ++ latest_text context.now processor late) }
{
    if let Some(late) = late {
        let line = late_row(alloc, processor, context, late)?;
        text.push_str(&line)?;
    }
    Ok(())
}

/// The latest expiries on a processor.
fn latest_rows(
    alloc: Global,
    text: &mut String,
    processor: u32,
    latest: Latest,
) -> Result<(), AllocError>
    ensures { OnOk result (string_bytes text.new ≡ string_bytes text.old ++ rows_of processor latest) }
{
    latest_row(alloc, text, processor, "hard       ", latest.hard)?;
    latest_row(alloc, text, processor, "soft       ", latest.soft)
}

/// The table of what a trace has in it, behind a text.
fn table(alloc: Global, tally: &Tally, text: &mut String) -> Result<(), AllocError>
    ensures { OnOk result (string_bytes text.new ≡ with_table tally.now (string_bytes text.old)) }
{
    event_rows(alloc, tally.counts(), text)?;
    row(alloc, text, "most queued at once     ", tally.most_armed())?;
    for (processor, latest) in tally.latest() {
        latest_rows(alloc, text, *processor, *latest)?;
    }
    Ok(())
}

/// The line for a trace that fits, and the table behind it.
pub fn summary(alloc: Global, events: u64, tally: &Tally) -> Result<String, AllocError>
    ensures { IfOk result (λ t. (past : List KernelEvent) → IsTallyOf tally.now past → IsFitsTable past events (string_bytes t)) }
{
    let mut text = line(alloc, events, tally)?;
    table(alloc, tally, &mut text)?;
    Ok(text)
}
