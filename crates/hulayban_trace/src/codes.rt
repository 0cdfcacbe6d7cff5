//! The numbers that the check answers. `include/hrt_trace.h` has them under the same names with `HRT_` before each, and `include/hrt.h` the last.
/// A trace fits.
pub const FITS: i32 = 8;
/// With a line of a trace no history shows the lines so far.
pub const MISFIT: i32 = 9;
/// A line of a trace is of a timer's event and can't be read.
pub const UNREADABLE: i32 = 10;
/// A trace has no event of a timer.
pub const NO_EVENTS: i32 = 11;

/// Memory ran out.
pub const NO_MEMORY: i32 = -3;
