//! A start and a cancel of a timer under one lock of its base, by one thread and by two.
pub use report::print_lines;

mod filling;
mod report;
mod turns;
