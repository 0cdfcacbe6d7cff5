//! What the calls of objects answer, whatever the object's kind.
ghost use Rattle.std.specs.Prelude.{◌≡◌};
ghost use Rattle.timer_setting.specs.Answers.{bytes_of};

/// What a settime answers (`timer_settime`, `timerfd_settime`). A time left and an interval are in nanoseconds.
#[derive(Clone, Copy, Debug, PartialEq, Eq)]
pub enum SettimeAnswer {
    /// The setting before the call.
    Old { left: u64, interval: u64 },
    /// A flag is none of the call's: `TIMER_ABSTIME`; of a descriptor `TFD_TIMER_ABSTIME` and `TFD_TIMER_CANCEL_ON_SET` (EINVAL).
    BadFlags,
    /// The value or the interval has a second or more of nanoseconds (EINVAL).
    BadTime,
    /// The object has as many entries as its limit allows.
    Spent { stamp: u64 },
    /// The high-resolution timer has as many entries as its limit allows, so it was not started. The object is disarmed.
    Unarmed { stamp: u64 },
    /// Of a descriptor alone: the real-time clock was set, or the machine slept, since the last setting or read (ECANCELED). The new setting stands all
    /// the same.
    Canceled,
}

/// What the acceptance of a POSIX timer's signal answers (`sigwaitinfo`, `timer_getoverrun`).
#[derive(Clone, Copy, Debug, PartialEq, Eq)]
pub enum AcceptAnswer {
    /// How many further periods had passed when the signal was accepted.
    Accepted { overrun: u64 },
    /// No signal is pending.
    NoSignal,
    /// The object has as many entries as its limit allows.
    Spent { stamp: u64 },
}

/// What a read of a descriptor answers.
#[derive(Clone, Copy, Debug, PartialEq, Eq)]
pub enum ReadAnswer {
    /// How often the timer has expired since the last setting or read.
    Count { total: u64 },
    /// The buffer has less than 8 bytes (EINVAL).
    ShortBuffer,
    /// The object has as many entries as its limit allows.
    Spent { stamp: u64 },
    /// The real-time clock was set, or the machine slept, since the last setting or read (ECANCELED).
    Canceled,
    /// There is no expiry to read (EAGAIN).
    Again,
}

impl ReadAnswer {
    /// The bytes that a read puts into its buffer: the count, the least byte first.
    pub fn bytes(&self) -> Option<[u8; 8]>
        ensures { result ≡ bytes_of self.now }
    {
        match self {
            ReadAnswer::Count { total } => Some(total.to_le_bytes()),
            _ => None,
        }
    }
}

/// What `timerfd_gettime` answers, both in nanoseconds.
#[derive(Clone, Copy, Debug, PartialEq, Eq)]
pub enum GettimeAnswer {
    /// How long until the next expiry, and the interval.
    Left { left: u64, interval: u64 },
    /// The object has as many entries as its limit allows.
    Spent { stamp: u64 },
}

/// What the begin of a sleep answers (`clock_nanosleep`).
#[derive(Clone, Copy, Debug, PartialEq, Eq)]
pub enum SleepAnswer {
    /// A flag isn't `TIMER_ABSTIME` (EINVAL).
    BadFlags,
    /// The time has a second or more of nanoseconds (EINVAL).
    BadTime,
    /// The object has as many entries as its limit allows.
    Spent { stamp: u64 },
    /// The sleeper isn't free: a sleep goes on, or the end of one is yet to be told.
    Occupied { stamp: u64 },
    /// The time has come already, so nothing was started.
    Slept,
    /// The high-resolution timer has as many entries as its limit allows, so it was not started. The sleeper stays free.
    Unarmed { stamp: u64 },
    /// The sleep has begun.
    Asleep,
}

/// What an interrupt answers.
#[derive(Clone, Copy, Debug, PartialEq, Eq)]
pub enum InterruptAnswer {
    /// The object has as many entries as its limit allows.
    Spent { stamp: u64 },
    /// The sleeper is free: there is no sleep to end.
    Awake { stamp: u64 },
    /// The sleep's time had come.
    Slept,
    /// A relative sleep was ended with so many nanoseconds left, 0 where its time had come (EINTR, `rmtp`).
    Left { ns: u64 },
    /// A sleep up to a time was ended (EINTR).
    Interrupted,
}
