//! The numbers of what is wrong with a line of a trace. `include/hrt_trace.h` has them under the same names with `HRT_` before each.
/// Sets up a timer that is armed.
pub const CAUSE_SET_UP_ARMED: u32 = 1;
/// Sets up a timer whose function runs.
pub const CAUSE_SET_UP_RUNNING: u32 = 2;
/// Starts a timer whose soft expiry is later than its hard one.
pub const CAUSE_SOFT_AFTER_HARD: u32 = 3;
/// Starts a timer whose expiry is past the end of time.
pub const CAUSE_PAST_TIME: u32 = 4;
/// A start tells that its timer was armed, and it wasn't.
pub const CAUSE_WAS_NOT_ARMED: u32 = 5;
/// A start tells that its timer wasn't armed, and it was.
pub const CAUSE_WAS_ARMED: u32 = 6;
/// Cancels a timer that isn't armed, or it expires.
pub const CAUSE_NOT_ARMED: u32 = 7;
/// Cancels a timer whose function runs, or it expires meanwhile.
pub const CAUSE_RUNNING: u32 = 8;
/// A timer expires on another processor than it was armed on by its function.
pub const CAUSE_OTHER_PROCESSOR: u32 = 9;
/// A timer expires, or its function returns, in another context than it is known to have.
pub const CAUSE_OTHER_CONTEXT: u32 = 10;
/// A timer expires before its soft expiry.
pub const CAUSE_TOO_EARLY: u32 = 11;
/// A function begins where another one runs.
pub const CAUSE_SECOND_FUNCTION: u32 = 12;
/// A timer expires behind one of its queue that had to wait for it.
pub const CAUSE_OUT_OF_ORDER: u32 = 13;
/// A function returns that doesn't run there.
pub const CAUSE_NOT_RUNNING: u32 = 14;

/// The line can't be read: `hrtimer=` and an address in hexadecimal isn't there.
pub const CAUSE_NO_HRTIMER: u32 = 101;
/// The same of `[N]` before the event's name.
pub const CAUSE_NO_PROCESSOR: u32 = 102;
/// The same of `clockid=`.
pub const CAUSE_NO_CLOCKID: u32 = 103;
/// The same of `mode=`, with a mode that is known.
pub const CAUSE_NO_MODE: u32 = 104;
/// The same of `softexpires=` and a time up to 2^63 - 1.
pub const CAUSE_NO_SOFTEXPIRES: u32 = 105;
/// The same of `expires=` and such a time.
pub const CAUSE_NO_EXPIRES: u32 = 106;
/// `was_armed=` is there, and neither 0 nor 1 behind it.
pub const CAUSE_NO_WAS_ARMED: u32 = 107;
/// The same of `now=` and a time up to 2^63 - 1.
pub const CAUSE_NO_NOW: u32 = 108;

/// No line of the text tells an event of a timer.
pub const CAUSE_NO_TIMER_EVENTS: u32 = 201;
