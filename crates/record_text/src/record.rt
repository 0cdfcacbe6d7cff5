//! What a run leaves: its types.
ghost use Rattle.std.specs.Prelude.{◌≡◌};
ghost use Rattle.record_text.specs.Replies.{answer_of_accept, answer_of_interrupt, answer_of_read, answer_of_settime, answer_of_sleep};

use crate::item_list::ItemList;
use crate::version::Version;
use ktime::Write;
use seq_timer::{BaseEvent, EventBy, Reply};

/// The call that made a line: its lane, and its place among that lane's calls, from 0.
#[derive(Clone, Copy, Debug, PartialEq, Eq)]
pub struct Label {
    pub lane: u32,
    pub call: u32,
}

/// A write that the clock took, and its times after it. The line's place is the clock's stamp.
#[derive(Clone, Copy, Debug, PartialEq, Eq)]
pub struct ClockLine {
    pub label: Label,
    pub write: Write,
    pub mono: u64,
    pub real: u64,
    pub boot: u64,
    pub changes: u64,
}

/// An entry of a base's history: it was taken off line, or is on line again.
#[derive(Clone, Copy, Debug, PartialEq, Eq)]
pub struct BaseLine {
    pub label: Label,
    pub event: BaseEvent,
}

/// An entry of a timer's history as its line shows it: the event, which names its reading by the stamp, and its reply. Of version 1 a line shows
/// neither the slack nor the soft expiry.
#[derive(Clone, Copy, Debug, PartialEq, Eq)]
pub struct Entry {
    pub event: EventBy<u64>,
    pub reply: Reply,
}

/// What a callback was told of its timer in place of an entry.
#[derive(Clone, Copy, Debug, PartialEq, Eq)]
pub enum CallbackReply {
    Running { generation: u64 },
    Armed { generation: u64 },
    Spent,
}

/// What a call made of the timer that it wanted to start for its object.
#[derive(Clone, Copy, Debug, PartialEq, Eq)]
pub enum Armed {
    /// It wanted no start.
    None,
    /// The timer was armed, as this generation.
    Generation { generation: u64 },
    /// The timer's history was full, so it was not started.
    Unarmed,
}

/// What a settime that made an entry was answered.
#[derive(Clone, Copy, Debug, PartialEq, Eq)]
pub enum SettimeReply {
    /// The setting before the call, in nanoseconds.
    Old { left: u64, interval: u64 },
    /// The real-time clock was set, or the machine slept (ECANCELED). The new setting stands all the same.
    Canceled,
    /// The timer had so many entries and was not started. The object is disarmed.
    Unarmed { stamp: u64 },
}

impl SettimeReply {
    /// The call's answer.
    pub fn answer(self) -> Answer
        ensures { result ≡ answer_of_settime self }
    {
        match self {
            SettimeReply::Old { left, interval } => Answer::Old { left, interval },
            SettimeReply::Canceled => Answer::Canceled,
            SettimeReply::Unarmed { stamp } => Answer::Unarmed { stamp },
        }
    }
}

/// What the acceptance of a timer's signal that made an entry was answered.
#[derive(Clone, Copy, Debug, PartialEq, Eq)]
pub enum AcceptReply {
    /// So many further periods had passed when the signal was accepted.
    Accepted { overrun: u64 },
    /// No signal was pending.
    NoSignal,
}

impl AcceptReply {
    /// The call's answer.
    pub fn answer(self) -> Answer
        ensures { result ≡ answer_of_accept self }
    {
        match self {
            AcceptReply::Accepted { overrun } => Answer::Accepted { overrun },
            AcceptReply::NoSignal => Answer::NoSignal,
        }
    }
}

/// What a read that made an entry was answered.
#[derive(Clone, Copy, Debug, PartialEq, Eq)]
pub enum ReadReply {
    /// The timer had expired so often since the last setting or read.
    Count { total: u64 },
    /// There was no expiry to read (EAGAIN).
    Again,
    /// The real-time clock was set, or the machine slept (ECANCELED).
    Canceled,
}

impl ReadReply {
    /// The call's answer.
    pub fn answer(self) -> Answer
        ensures { result ≡ answer_of_read self }
    {
        match self {
            ReadReply::Count { total } => Answer::Count { total },
            ReadReply::Again => Answer::Again,
            ReadReply::Canceled => Answer::Canceled,
        }
    }
}

/// What a sleep that made an entry was answered.
#[derive(Clone, Copy, Debug, PartialEq, Eq)]
pub enum SleepReply {
    /// Its time had come already, so nothing was started.
    Slept,
    /// It has begun.
    Asleep,
    /// The timer had so many entries and was not started. The sleeper stays free.
    Unarmed { stamp: u64 },
}

impl SleepReply {
    /// The call's answer.
    pub fn answer(self) -> Answer
        ensures { result ≡ answer_of_sleep self }
    {
        match self {
            SleepReply::Slept => Answer::Slept,
            SleepReply::Asleep => Answer::Asleep,
            SleepReply::Unarmed { stamp } => Answer::Unarmed { stamp },
        }
    }
}

/// What an interrupt that made an entry was answered.
#[derive(Clone, Copy, Debug, PartialEq, Eq)]
pub enum InterruptReply {
    /// The sleep's time had come.
    Slept,
    /// A relative sleep was ended with so many nanoseconds left (EINTR).
    Left { ns: u64 },
    /// A sleep up to a time was ended (EINTR).
    Interrupted,
}

impl InterruptReply {
    /// The call's answer.
    pub fn answer(self) -> Answer
        ensures { result ≡ answer_of_interrupt self }
    {
        match self {
            InterruptReply::Slept => Answer::Slept,
            InterruptReply::Left { ns } => Answer::SleepLeft { ns },
            InterruptReply::Interrupted => Answer::Interrupted,
        }
    }
}

/// An entry of an object's history as its line shows it. A reading is named by its stamp; a value, an interval, a sleep's time and a
/// time left are in nanoseconds.
#[derive(Clone, Copy, Debug, PartialEq, Eq)]
pub enum ObjectEntry {
    Settime {
        flags: u64,
        value: u64,
        interval: u64,
        reading: u64,
        arm: Armed,
        reply: SettimeReply,
    },
    /// An expiry of this generation: it counted, or it was stale.
    Trigger {
        generation: u64,
        reading: u64,
        counted: bool,
    },
    /// An expiry of this generation that found no room in the queue for its signal.
    Overflow {
        generation: u64,
        reading: u64,
    },
    Accept {
        reading: u64,
        arm: Armed,
        reply: AcceptReply,
    },
    Read {
        reading: u64,
        arm: Armed,
        reply: ReadReply,
    },
    /// Of a descriptor alone.
    Gettime {
        reading: u64,
        arm: Armed,
        left: u64,
        interval: u64,
    },
    Sleep {
        flags: u64,
        time: u64,
        reading: u64,
        arm: Armed,
        reply: SleepReply,
    },
    Interrupt {
        reading: u64,
        reply: InterruptReply,
    },
}

/// What a callback was told, under the entry after which it holds.
#[derive(Clone, Copy, Debug, PartialEq, Eq)]
pub struct Look {
    pub label: Label,
    pub reply: CallbackReply,
}

/// An expiry of this generation that an object with a full history refused, under the entry after which it came.
#[derive(Clone, Copy, Debug, PartialEq, Eq)]
pub struct Skip {
    pub label: Label,
    pub generation: u64,
}

/// An entry of a timer's history, and what callbacks were told after it.
#[derive(Drop)]
pub struct TimerLine {
    pub label: Label,
    pub entry: Entry,
    pub looks: ItemList<Look>,
}

/// An entry of an object's history, and the expiries that were refused after it.
#[derive(Drop)]
pub struct ObjectLine {
    pub label: Label,
    pub entry: ObjectEntry,
    pub skips: ItemList<Skip>,
}

/// What a call was answered. A stamp is the number of entries after which the answer holds; a reading is named by its
/// stamp; an interval and a time left are in nanoseconds.
#[derive(Drop)]
pub enum Answer {
    Started {
        generation: u64,
        base: u32,
        was_armed: bool,
    },
    Spent {
        stamp: u64,
    },
    Cancelled {
        generation: u64,
    },
    Running {
        generation: u64,
        stamp: u64,
    },
    Idle {
        stamp: u64,
    },
    Peek {
        stamp: u64,
        base: u32,
        enqueued: bool,
        running: bool,
        moving: bool,
    },
    Done {
        reading: u64,
        fired: ItemList<u32>,
    },
    More {
        reading: u64,
        fired: ItemList<u32>,
    },
    Busy {
        reading: u64,
        fired: ItemList<u32>,
        timer: u32,
        generation: u64,
    },
    Clock {
        stamp: u64,
    },
    Range {
        would_be: u128,
    },
    ClockSpent,
    /// The setting before a settime.
    Old {
        left: u64,
        interval: u64,
    },
    /// The real-time clock was set, or the machine slept (ECANCELED).
    Canceled,
    /// The object's timer had so many entries and was not started. The object is disarmed.
    Unarmed {
        stamp: u64,
    },
    /// The arguments are refused (EINVAL).
    Invalid,
    /// The setting of a POSIX timer, which a look tells.
    LeftAt {
        left: u64,
        interval: u64,
        reading: u64,
        stamp: u64,
    },
    /// The setting of a descriptor, which makes an entry.
    Left {
        left: u64,
        interval: u64,
    },
    /// A signal was accepted, and so many further periods had passed.
    Accepted {
        overrun: u64,
    },
    /// No signal was pending.
    NoSignal,
    /// The overrun of the last accepted signal.
    Overrun {
        overrun: u64,
        stamp: u64,
    },
    /// The timer had expired so often since the last setting or read.
    Count {
        total: u64,
    },
    /// There was no expiry to read (EAGAIN).
    Again,
    Readable {
        ready: bool,
        reading: u64,
        stamp: u64,
    },
    /// The base is off line, and so many timers were moved to its heir.
    Offline {
        moved: u64,
        stamp: u64,
    },
    /// The function of this timer runs on the base, so no more timers were moved.
    OfflineBusy {
        moved: u64,
        timer: u32,
        generation: u64,
    },
    /// As many timers were moved as the call may move, and some are left.
    OfflineMore {
        moved: u64,
    },
    /// The timer that is next to be moved has so many entries that it isn't moved.
    OfflineSpent {
        moved: u64,
        timer: u32,
        stamp: u64,
    },
    /// The base is off line, or on line, as the call would have it.
    Already {
        stamp: u64,
    },
    /// The base that would take the timers is off line itself.
    HeirOffline {
        stamp: u64,
    },
    /// The base has so many entries that it isn't taken off line any more.
    BaseSpent {
        stamp: u64,
    },
    /// The base is on line.
    Online {
        stamp: u64,
    },
    /// A sleep has begun.
    Asleep,
    /// A sleep's time had come: it wasn't begun, or its end is told.
    Slept,
    /// The sleeper isn't free.
    Occupied {
        stamp: u64,
    },
    /// A relative sleep was ended with so many nanoseconds left (EINTR).
    SleepLeft {
        ns: u64,
    },
    /// A sleep up to a time was ended (EINTR).
    Interrupted,
    /// A sleep goes on.
    Sleeping {
        stamp: u64,
    },
    /// A sleep's time has come, and its end is yet to be told.
    SleptAt {
        stamp: u64,
    },
    /// The sleeper is free.
    Awake {
        stamp: u64,
    },
    /// The signal of this timer's entry of this number was taken and accepted, and so many further periods had passed.
    Signal {
        timer: u32,
        number: u64,
        overrun: u64,
    },
    /// The signal that was taken is pending no more.
    StaleSignal {
        timer: u32,
        number: u64,
    },
    /// The timer of the signal that was taken has so many entries that it isn't accepted.
    SpentSignal {
        timer: u32,
        number: u64,
    },
    /// No signal waited.
    NoneQueued,
}

/// What a run leaves: the clock's writes, each base's history, each timer's history, each object's history, and each lane's answers.
/// There is a list of objects' lines for each timer, which stays empty for a raw timer. Its text goes by its version.
#[derive(Drop)]
pub struct RunRecord {
    pub version: Version,
    pub clock: ItemList<ClockLine>,
    pub bases: ItemList<ItemList<BaseLine>>,
    pub timers: ItemList<ItemList<TimerLine>>,
    pub objects: ItemList<ItemList<ObjectLine>>,
    pub answers: ItemList<ItemList<Answer>>,
}
