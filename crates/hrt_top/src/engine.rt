//! From the bytes of a script to the text that answers them, and from a number to the summary of a run.
ghost use Rattle.std.specs.Prelude.{◌≤◌, IfOk};
ghost use Rattle.script_text.specs.Scripts.{IsInRange};
ghost use Rattle.run_history.specs.Fits.{Fits};
ghost use Rattle.hrt_top.specs.Engine.{Answers, IsSummaryText};

use lane_run::{Gate, World, run};
use record_text::{RunRecord, text};
use script_text::{ParseError, Script, generate, parse, summary};
use std::alloc::{AllocError, Global};
use std::sync::Wait;
use std::thread::Threads;

/// The text that answers a script.
#[derive(Drop)]
pub enum Answer {
    /// The record of the script's run.
    Record(Vec<u8>),
    /// The line that refuses the script.
    Refusal(Vec<u8>),
}

/// Reads the bytes as a script, runs it, and makes the text of its record; or refuses them.
pub fn answer_to<R: Threads + Wait + Sync, G: Gate>(
    rt: &R,
    alloc: Global,
    gate: &G,
    bytes: &[u8],
) -> Result<Answer, AllocError>
    ensures { IfOk result (λ a. Answers bytes.now a) }
{
    let script = match parse(alloc, bytes) {
        Ok(script) => script,
        Err(ParseError::Refused(refused)) => {
            let line = refused.text(alloc)?;
            return Ok(Answer::Refusal(line.into_bytes()));
        }
        Err(ParseError::OutOfMemory) => return Err(AllocError),
    };
    let record = record_of(rt, alloc, gate, &script)?;
    let bytes = text(alloc, &record)?;
    Ok(Answer::Record(bytes))
}

/// Makes the script of so many turns of these lanes from the seed, runs it, and gives the summary of its record.
pub fn summary_of_generated<R: Threads + Wait + Sync, G: Gate>(
    rt: &R,
    alloc: Global,
    gate: &G,
    seed: u64,
    lanes: u32,
    calls: u64,
) -> Result<Vec<u8>, AllocError>
    requires seed { seed ≤ 2147483647 }
    requires lanes { (1 ≤ lanes) × (lanes ≤ 8) }
    requires calls { calls ≤ 4096 }
    ensures { IfOk result (λ text. IsSummaryText seed lanes calls text.items) }
{
    let bytes = generate(alloc, seed, lanes, calls)?;
    let script = match parse(alloc, &bytes) {
        Ok(script) => script,
        // These bytes are a script, and no script is refused.
        Err(ParseError::Refused(_)) => unreachable!(),
        Err(ParseError::OutOfMemory) => return Err(AllocError),
    };
    let record = record_of(rt, alloc, gate, &script)?;
    let text = summary(alloc, &record)?;
    Ok(text)
}

/// Makes the world of a script, runs the script in it, and gives the record of the run.
fn record_of<R: Threads + Wait + Sync, G: Gate>(
    rt: &R,
    alloc: Global,
    gate: &G,
    script: &Script,
) -> Result<RunRecord, AllocError>
    requires { IsInRange script.now }
    ensures { IfOk result (λ r. Fits script.now r) }
{
    let (world, pass) = World::make(alloc, script)?;
    let (record, world, pass) = run(rt, alloc, world, pass, script, gate)?;
    world.close(pass);
    Ok(record)
}
