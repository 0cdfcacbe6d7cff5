//! A script: its timers, and the rounds of calls.
use ktime::{ClockId, Mode, TimeSpec, Write};
use record_text::{ItemList, Version};
use seq_timer::Context;

/// What a raw timer's callback does when it runs.
#[derive(Clone, Copy, Debug, PartialEq, Eq)]
pub enum Callback {
    /// Nothing, and asks for no restart.
    Once,
    /// Forwards the timer by so many nanoseconds, by the reading of its expiry run, and asks for a restart.
    Every { interval: u64 },
    /// Tries to cancel the timer, and asks for no restart.
    Cancels,
    /// Starts the timer so many nanoseconds after the reading of its expiry run, and asks for a restart.
    Starts { ns: u64, base: u32 },
}

/// What is declared: a timer by itself, or an object with a timer of the same number.
#[derive(Clone, Copy, Debug, PartialEq, Eq)]
pub enum Kind {
    /// A timer by itself, whose callback runs in this context.
    Raw {
        context: Context,
        callback: Callback,
    },
    /// A POSIX timer, its timer on this base.
    Posix {
        base: u32,
    },
    /// A timerfd descriptor, its timer on this base.
    Fd {
        base: u32,
    },
    /// A POSIX timer that sends its signals to the queue, its timer on this base.
    Queued {
        base: u32,
    },
    /// A sleeper, its timer on this base.
    Sleeper {
        base: u32,
    },
}

/// A timer of a script: the clock that it is declared on, and its kind.
#[derive(Clone, Copy, Debug, PartialEq, Eq)]
pub struct Declaration {
    pub clock: ClockId,
    pub kind: Kind,
}

/// What a start asks for. Where it has a slack, the timer may expire so much later than at `ns`.
#[derive(Clone, Copy, Debug, PartialEq, Eq)]
pub struct StartRequest {
    pub mode: Mode,
    pub ns: u64,
    pub slack: Option<u64>,
    pub base: u32,
}

/// What one call line asks for. Times are nanoseconds where no seconds stand beside them.
#[derive(Clone, Copy, Debug, PartialEq, Eq)]
pub enum Call {
    Start {
        timer: u32,
        request: StartRequest,
    },
    Cancel {
        timer: u32,
    },
    Peek {
        timer: u32,
    },
    /// Runs the callbacks of this context that are due on the base.
    Expire {
        context: Context,
        base: u32,
        budget: u64,
    },
    Clock {
        write: Write,
    },
    Settime {
        timer: u32,
        flags: u64,
        value: TimeSpec,
        interval: TimeSpec,
    },
    Gettime {
        timer: u32,
    },
    Accept {
        timer: u32,
    },
    Overrun {
        timer: u32,
    },
    Read {
        timer: u32,
        len: u64,
    },
    Readable {
        timer: u32,
    },
    Sleep {
        timer: u32,
        flags: u64,
        time: TimeSpec,
    },
    Interrupt {
        timer: u32,
    },
    Slept {
        timer: u32,
    },
    /// Takes the next signal of the queue.
    Sigwait,
    /// Takes the base off line, and moves at most so many timers to the heir.
    Offline {
        base: u32,
        heir: u32,
        budget: u64,
    },
    /// Brings the base on line again.
    Online {
        base: u32,
    },
}

/// A call line: the lane that makes the call, and the call.
#[derive(Clone, Copy, Debug, PartialEq, Eq)]
pub struct LaneCall {
    pub lane: u32,
    pub call: Call,
}

/// The call lines of one round, in their order.
#[derive(Drop)]
pub struct Round {
    pub calls: ItemList<LaneCall>,
}

/// A script: its version, how many bases and lanes there are, how many entries a timer's history may have
/// before a start is refused, the timers, and the rounds of calls.
#[derive(Drop)]
pub struct Script {
    pub version: Version,
    pub bases: u32,
    pub lanes: u32,
    pub limit: u64,
    pub timers: ItemList<Declaration>,
    pub rounds: ItemList<Round>,
}
