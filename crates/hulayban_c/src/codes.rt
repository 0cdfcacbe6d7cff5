//! The numbers that calls answer. `include/hrt.h` has them under the same names with `HRT_` before each.
/// A call was made. A cancel found the timer neither armed nor running; a claim found none that may run now; a finish didn't arm it again; on a
/// base no timer is armed.
pub const DONE: i32 = 0;
/// The limit on entries was reached: nothing has changed, but that a finish ends the run.
pub const SPENT: i32 = 1;
/// A start came in while the function ran: a forward changes nothing. Of a base: a timer is armed there.
pub const ARMED: i32 = 2;
/// The function of the timer runs: a cancel changes nothing.
pub const RUNNING: i32 = 3;
/// A function of the context runs on the base: a claim changes nothing.
pub const BUSY: i32 = 4;
/// A claim found a timer: its function is to run.
pub const CLAIMED: i32 = 5;
/// A cancel took the timer off.
pub const CANCELLED: i32 = 6;
/// A finish armed the timer again.
pub const AGAIN: i32 = 7;
/// On a seat: another seat took a base's lock. Nothing has changed.
pub const CONTENDED: i32 = 8;
/// On a seat: the timer was on the move, or came to another base. Nothing has changed.
pub const MOVING: i32 = 9;
/// On a seat: a start has sent the timer to another base, and the seat carries it there.
pub const CARRIED: i32 = 10;

/// The handle or the seat has no timers.
pub const NO_TIMERS: i32 = -1;
/// The handle or the seat has timers already.
pub const IN_USE: i32 = -2;
/// Memory ran out.
pub const NO_MEMORY: i32 = -3;
/// No timer has this number.
pub const BAD_TIMER: i32 = -4;
/// No base has this number, or there can't be so many.
pub const BAD_BASE: i32 = -5;
/// No mode has this number.
pub const BAD_MODE: i32 = -6;
/// A clock of the reading is past 2^62 nanoseconds.
pub const BAD_TIME: i32 = -7;
/// No clock has this number.
pub const BAD_CLOCK: i32 = -8;
/// No context has this number.
pub const BAD_CONTEXT: i32 = -9;
/// There can't be so many timers.
pub const BAD_COUNT: i32 = -10;
/// The limit on entries is 0 or past 2^48 - 16.
pub const BAD_LIMIT: i32 = -11;
/// The function of the timer isn't running.
pub const NOT_RUNNING: i32 = -12;
/// The seat carries a timer.
pub const CARRIES: i32 = -13;
/// The seat has a claim.
pub const HOLDS_CLAIM: i32 = -14;
/// The seat has no claim of the timer.
pub const NOT_CLAIMED: i32 = -15;
