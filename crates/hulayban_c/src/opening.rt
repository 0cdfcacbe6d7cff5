//! New timers for a handle.
ghost use Rattle.std.specs.Prelude.{◌≡◌, ◌+◌, ◌≤◌, ◌<◌, ◌^◌, IfOk, None, length, map};
ghost use Rattle.seq_timer.specs.Steps.{greatest_limit, limited};
ghost use Rattle.timer_core.specs.Kept.{opened};
ghost use Rattle.hulayban_c.specs.Calls.{timer_declared, fault_among, fault_new, fault_of, first_fault};

use crate::codes::{BAD_BASE, BAD_CLOCK, BAD_CONTEXT, BAD_COUNT, BAD_LIMIT};
use crate::crossing::{Declares, clock_by_number, context_by_number};
use crate::home::Home;
use ktime::ClockId;
use seq_timer::{Context, Declared};
use std::alloc::{AllocError, Global};
use timer_core::Core;

/// The most bases of a handle. `include/hrt.h` has these three numbers too.
const MAX_BASES: u32 = 64;

/// The most timers of a handle.
const MAX_TIMERS: usize = 4294967295;

/// The greatest limit on entries.
const MAX_EVENTS: u64 = 281474976710640;

/// Tests a declaration.
fn fault_of(declares: Declares) -> Option<i32>
    ensures { result ≡ fault_of declares }
{
    if clock_by_number(declares.clock).is_none() {
        return Some(BAD_CLOCK);
    }
    if context_by_number(declares.context).is_none() {
        return Some(BAD_CONTEXT);
    }
    None
}

/// Tests declarations.
fn first_fault(declares: &[Declares]) -> Option<i32>
    ensures { result ≡ first_fault declares.now }
{
    for each in declares {
        if let Some(code) = fault_of(*each) {
            return Some(code);
        }
    }
    None
}

/// Tests what new timers are asked for, where there may be so many.
pub fn fault_among(most: usize, bases: u32, declares: &[Declares], max_events: u64) -> Option<i32>
    ensures fault { result ≡ fault_among most bases declares.now max_events }
    ensures bases { result ≡ None → (1 ≤ bases) × (bases ≤ 64) }
    ensures timers { result ≡ None → length declares.now ≤ most }
    ensures limit { result ≡ None → (0 < max_events) × (max_events ≤ greatest_limit) }
{
    if bases == 0 || bases > MAX_BASES {
        return Some(BAD_BASE);
    }
    if declares.len() > most {
        return Some(BAD_COUNT);
    }
    if max_events == 0 || max_events > MAX_EVENTS {
        return Some(BAD_LIMIT);
    }
    first_fault(declares)
}

/// Tests what a new handle is asked for.
pub fn fault_new(bases: u32, declares: &[Declares], max_events: u64) -> Option<i32>
    ensures fault { result ≡ fault_new bases declares.now max_events }
    ensures bases { result ≡ None → (1 ≤ bases) × (bases ≤ 64) }
    ensures timers { result ≡ None → length declares.now < 2 ^ 32 }
    ensures limit { result ≡ None → (0 < max_events) × (max_events ≤ greatest_limit) }
{
    fault_among(MAX_TIMERS, bases, declares, max_events)
}

/// How a timer is declared.
fn timer_declared(declares: Declares) -> Declared
    ensures { result ≡ timer_declared declares }
{
    Declared {
        clock: clock_by_number(declares.clock).unwrap_or(ClockId::Monotonic),
        context: context_by_number(declares.context).unwrap_or(Context::Hard),
    }
}

/// How timers are declared.
pub fn timers_declared(alloc: Global, declares: &[Declares]) -> Result<Vec<Declared>, AllocError>
    ensures { IfOk result (λ v. v.items ≡ map timer_declared declares.now) }
{
    let mut timers = Vec::with_capacity(alloc, declares.len())?;
    for each in declares {
        timers.push(timer_declared(*each))?;
    }
    Ok(timers)
}

/// New timers, none of them armed.
pub fn open(
    alloc: Global,
    bases: u32,
    declares: &[Declares],
    max_events: u64,
) -> Result<Box<Home>, AllocError>
    requires bases { (1 ≤ bases) × (bases ≤ 64) }
    requires timers { length declares.now < 2 ^ 32 }
    requires limit { (0 < max_events) × (max_events ≤ greatest_limit) }
    ensures { IfOk result (λ b. b.value ≡ opened bases (map timer_declared declares.now) (limited max_events)) }
{
    let timers = timers_declared(alloc, declares)?;
    let core = Core::make_full(alloc, bases, &timers, max_events)?;
    let home = Home {
        core,
        timers: timers.len() as u32,
        bases,
    };
    Ok(Box::new(alloc, home)?)
}
