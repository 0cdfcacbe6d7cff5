//! Why a line of a timer's event can't be read.

/// What is wrong in a line of a timer's event: it has no such field, or the field says nothing that is known.
#[derive(Clone, Copy, Debug, PartialEq, Eq)]
pub enum Unreadable {
    /// `hrtimer=` and an address in hexadecimal.
    Timer,
    /// `[N]` before the event's name.
    Processor,
    /// `clockid=`.
    Clock,
    /// `mode=`, `ABS` or `REL`, alone or with `|PINNED`, `|SOFT` or `|HARD`.
    Mode,
    /// `softexpires=` and a time up to the end of time.
    SoftExpires,
    /// `expires=` and a time up to the end of time.
    Expires,
    /// `was_armed=` and `0` or `1`, where it is there.
    WasArmed,
    /// `now=` and a time up to the end of time.
    Now,
}
