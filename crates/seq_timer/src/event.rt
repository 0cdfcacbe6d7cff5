//! What can happen to a timer, and what each event answers.
ghost use Rattle.std.specs.Prelude.{◌≡◌};
ghost use Rattle.seq_timer.specs.Events.{stamped};

use ktime::{ClockId, Mode, Reading};

/// What a start asks for. `ns` is the soft expiry, a time for `Mode::Abs` and `Mode::Keep` and a time from the reading for `Mode::Rel`; the
/// expiry is `slack` later.
#[derive(Clone, Copy, Debug, PartialEq, Eq)]
pub struct AskedBy<R> {
    pub mode: Mode,
    pub ns: u64,
    pub slack: u64,
    pub reading: R,
    pub base: u32,
}

/// What a start asks for, by a reading of the clock.
pub type Asked = AskedBy<Reading>;

/// How a timer is kept: on which base and clock, and with which expiries there.
#[derive(Clone, Copy, Debug, PartialEq, Eq)]
pub struct Placement {
    pub base: u32,
    pub clock: ClockId,
    pub soft: u64,
    pub expires: u64,
}

/// How many intervals a forward has added, and the expiries after them.
#[derive(Clone, Copy, Debug, PartialEq, Eq)]
pub struct Moved {
    pub count: u64,
    pub soft: u64,
    pub expires: u64,
}

/// What happens to a timer. Each event is one entry of its history.
#[derive(Clone, Copy, Debug, PartialEq, Eq)]
pub enum EventBy<R> {
    /// The timer is taken off its base and is on the move to this one (`switch_hrtimer_base`).
    Out { base: u32 },
    /// The timer is armed (`hrtimer_start_range_ns`).
    Start(AskedBy<R>),
    /// The timer is disarmed (`hrtimer_try_to_cancel`).
    Cancel,
    /// The timer has expired on this base at this reading: it is taken off its queue and its function is to run (`__run_hrtimer`).
    Claim { base: u32, reading: R },
    /// The running function moves the expiry past the reading by whole intervals (`hrtimer_forward`).
    Forward { reading: R, interval: u64 },
    /// The function has returned. `restart` is its answer (`HRTIMER_RESTART`).
    Finish { restart: bool },
}

/// An event, by a reading of the clock.
pub type Event = EventBy<Reading>;

impl EventBy<Reading> {
    /// The event by the stamp of its reading.
    pub fn stamped(self) -> EventBy<u64>
        ensures { result ≡ stamped self }
    {
        match self {
            EventBy::Out { base } => EventBy::Out { base },
            EventBy::Start(asked) => EventBy::Start(AskedBy {
                mode: asked.mode,
                ns: asked.ns,
                slack: asked.slack,
                reading: asked.reading.stamp,
                base: asked.base,
            }),
            EventBy::Cancel => EventBy::Cancel,
            EventBy::Claim { base, reading } => EventBy::Claim {
                base,
                reading: reading.stamp,
            },
            EventBy::Forward { reading, interval } => EventBy::Forward {
                reading: reading.stamp,
                interval,
            },
            EventBy::Finish { restart } => EventBy::Finish { restart },
        }
    }
}

/// What an event answers.
#[derive(Clone, Copy, Debug, PartialEq, Eq)]
pub enum Reply {
    /// Whether the timer was armed before.
    Out {
        was_armed: bool,
    },
    /// How the timer is kept now, and whether it was armed before.
    Start {
        placement: Placement,
        was_armed: bool,
    },
    /// The generation that was armed.
    Cancel {
        generation: u64,
    },
    /// The generation that was armed and now runs.
    Claim {
        generation: u64,
    },
    Forward {
        moved: Moved,
    },
    /// The generation that ran.
    Finish {
        generation: u64,
        restarted: Restarted,
    },
}

/// What became of the restart that a finish was asked for.
#[derive(Clone, Copy, Debug, PartialEq, Eq)]
pub enum Restarted {
    /// No restart was asked for, or a start came in while the function ran.
    No,
    /// The timer is armed again, as this generation.
    Again { generation: u64 },
    /// The limit on entries refused it.
    Spent,
}
