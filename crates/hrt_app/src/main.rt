//! The program `hrt`: reads a script of timer calls, runs it, and writes the record of what happened; or makes a script from a number, runs
//! it, and writes a summary.
#![tactic(auto)]

#[cfg(test)]
mod tests;

use hrt_top::{Counted, top, words};
use lane_run::OpenGate;
use std::env;
use std::process::ExitCode;

fn main(rt: HostRuntime) -> ExitCode {
    let mut source = Counted::new(rt.stdin());
    let mut sink = Counted::new(rt.stdout());
    let status = match words(rt.alloc(), env::args(&rt)) {
        Ok(words) => top(&rt, &words, &mut source, &mut sink, &OpenGate),
        Err(status) => status,
    };
    if let Some(text) = status.message() {
        let _ = rt.eprintln(text);
    }
    ExitCode::from(status.code())
}
