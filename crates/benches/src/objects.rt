//! The calls of `timer_objects`, by one thread.
pub use report::print_lines;

mod report;
mod running;
mod stand;
mod turns;
