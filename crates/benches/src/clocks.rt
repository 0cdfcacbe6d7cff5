//! Readings of a shared clock, by one thread and by two, while nobody writes and while another thread does; and by one thread alone, by
//! `clock_cell` and by `ordered_clock`.
pub use report::print_lines;

mod alone;
mod report;
mod turns;
