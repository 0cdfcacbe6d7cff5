//! Callers of a system of timers on threads, one a module.
#![tactic(auto)]

use std::io;

mod frames;
mod relay;
mod timeout;

fn main(rt: HostRuntime) -> io::Result<()> {
    let periods = relay::periods(&rt, rt.alloc())?;
    println!(rt; "signals told of {periods} periods")?;
    let early = timeout::left_at(&rt, rt.alloc(), 30)?;
    println!(rt; "an event after 30 ns: {early} ns left")?;
    let late = timeout::left_at(&rt, rt.alloc(), 300)?;
    println!(rt; "an event after 300 ns: {late} ns left")?;
    let frames = frames::decoded(&rt, rt.alloc())?;
    println!(rt; "{frames} frames")?;
    Ok(())
}
