//! The calls of `hr_timers`, by one thread and by two.
pub use scale::print_scale;

mod evacuating;
mod report;
mod scale;
mod single;
mod turns;

use crate::cases::Task;
use evacuating::print_evacuations;
use std::alloc::Global;
use std::io;
use std::sync::Wait;
use std::thread::Threads;
use std::time::Clock;

/// Prints a line for each case, and what moving all timers of a base takes. In a check it prints whether the timers' stamps add up to the entries
/// that the answers tell of.
pub fn print_lines<R: Threads + Wait + Sync + Clock + Print>(
    rt: &R,
    alloc: Global,
    task: Task,
) -> io::Result<()> {
    report::print_lines(rt, alloc, task)?;
    print_evacuations(rt, alloc, task)
}
