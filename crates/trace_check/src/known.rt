//! What the lines of a trace so far tell.
use ktime::ClockId;
use seq_timer::Context;

/// Whether a timer is armed.
#[derive(Clone, Copy, Debug, PartialEq, Eq)]
pub enum ArmedKnown {
    /// No line has told it.
    Untold,
    No,
    Until { soft: u64, expires: u64 },
}

/// Whether a timer's function runs.
#[derive(Clone, Copy, Debug, PartialEq, Eq)]
pub enum FunctionKnown {
    /// No line has told it.
    Untold,
    Rests,
    Runs { processor: u32 },
}

/// What is known of a timer.
#[derive(Clone, Copy, Debug, PartialEq, Eq)]
pub struct KnownTimer {
    pub armed: ArmedKnown,
    pub function: FunctionKnown,
    /// The clock and the context that it was set up with, where lines have told them.
    pub clock: Option<ClockId>,
    pub told: Option<Context>,
    /// Its context, where lines have told it or it can't be the other one: one function that begins inside another tells both.
    pub context: Option<Context>,
    /// The processor that it is queued on if it is armed, where it was armed while its function ran there.
    pub home: Option<u32>,
    /// The number of the event that armed it, where it takes part in the order of its queue.
    pub order: Option<u64>,
}

/// What runs on a processor in one context.
#[derive(Clone, Copy, Debug, PartialEq, Eq)]
pub enum HalfKnown {
    /// No line has told it: a function may run there since before the recording.
    Untold,
    Free,
    Taken { timer: u64 },
}

/// What runs on a processor.
#[derive(Clone, Copy, Debug, PartialEq, Eq)]
pub struct KnownProcessor {
    pub hard: HalfKnown,
    pub soft: HalfKnown,
    /// The timer whose function runs there, where its expiry's line told no context and it didn't begin inside another one.
    pub loose: Option<u64>,
}

/// An expiry that took part in the order of its queue.
#[derive(Clone, Copy, Debug, PartialEq, Eq)]
pub struct OrderedExpiry {
    pub processor: u32,
    pub context: Context,
    pub clock: ClockId,
    pub expires: u64,
    /// The number of the event that had armed its timer.
    pub order: u64,
    /// The number of the event by which it expired.
    pub at: u64,
}
