//! Reads a script, runs its lanes, and prints the record; and says whether the same calls, made and noted by hand, give the same text.
#![tactic(auto)]

ghost use Rattle.std.specs.Prelude.{IfOk};
ghost use Rattle.script_text.specs.Scripts.{IsInRange};
ghost use Rattle.run_history.specs.Fits.{Fits};

mod by_hand;

use by_hand::record_by_hand;
use lane_run::{OpenGate, World, run};
use record_text::{RunRecord, text};
use script_text::{ParseError, Script, parse};
use std::alloc::{AllocError, Global};
use std::io::{self, Write};
use std::sync::Wait;
use std::thread::Threads;

const SCRIPT: &str = "hrt 1
bases 1
lanes 1
limit 100
raw 0 monotonic once
round
0 start 0 rel 100 0
0 cancel 0
";

/// Runs a script's lanes over the timers that it declares, and gives the record.
fn run_script<R: Threads + Wait + Sync>(
    rt: &R,
    alloc: Global,
    script: &Script,
) -> Result<RunRecord, AllocError>
    requires range { IsInRange script.now }
    ensures fits { IfOk result (λ r. Fits script.now r) }
{
    let (world, pass) = World::make(alloc, script)?;
    let (run_record, world, pass) = run(rt, alloc, world, pass, script, &OpenGate)?;
    world.close(pass);
    Ok(run_record)
}

/// The text of the record of this script, or of the line that refuses it.
fn answer<R: Threads + Wait + Sync>(
    rt: &R,
    alloc: Global,
    script: &str,
) -> Result<Vec<u8>, AllocError> {
    match parse(alloc, script.as_bytes()) {
        Ok(script) => text(alloc, &run_script(rt, alloc, &script)?),
        Err(ParseError::Refused(refused)) => Ok(refused.text(alloc)?.into_bytes()),
        Err(ParseError::OutOfMemory) => Err(AllocError),
    }
}

fn main(rt: HostRuntime) -> io::Result<()> {
    let by_run = answer(&rt, rt.alloc(), SCRIPT)?;
    let by_hand = text(rt.alloc(), &record_by_hand(&rt, rt.alloc())?)?;
    rt.stdout().write_all(&by_run)?;
    println!(rt; "the same by hand: {}", by_run == by_hand)?;
    Ok(())
}
