//! The program `hrt_check`: reads a kernel's trace of its timers, and says whether it is a history that the model gives.
#![tactic(auto)]

#[cfg(test)]
mod tests;

use std::env;
use std::process::ExitCode;
use trace_top::{Counted, top, words};

fn main(rt: HostRuntime) -> ExitCode {
    let mut source = Counted::new(rt.stdin());
    let mut sink = Counted::new(rt.stdout());
    let status = match words(rt.alloc(), env::args(&rt)) {
        Ok(words) => top(rt.alloc(), &words, &mut source, &mut sink),
        Err(status) => status,
    };
    if let Some(text) = status.message() {
        let _ = rt.eprintln(text);
    }
    ExitCode::from(status.code())
}
