//! Why no history shows the lines so far.

/// Why no history shows a line behind those before it.
#[derive(Clone, Copy, Debug, PartialEq, Eq)]
pub enum Misfit {
    /// A timer is set up that is armed.
    SetUpArmed,
    /// A timer is set up whose function runs.
    SetUpRunning,
    /// A start's soft expiry is later than its hard one.
    SoftAfterHard,
    /// A start's expiry is past the end of time.
    PastTime,
    /// A start tells that its timer was armed, and it wasn't.
    WasNotArmed,
    /// A start tells that its timer wasn't armed, and it was.
    WasArmed,
    /// A timer is cancelled, or expires, that isn't armed.
    NotArmed,
    /// A timer is cancelled, or expires, whose function runs.
    Running,
    /// A timer expires on another processor than it was armed on by its function.
    OtherProcessor,
    /// A timer expires, or its function returns, in another context than it is known to have.
    OtherContext,
    /// A timer expires before its soft expiry.
    TooEarly { soft: u64, now: u64 },
    /// A function begins where this timer's runs.
    SecondFunction { timer: u64 },
    /// A timer expires behind one of its queue that had to wait for it.
    OutOfOrder,
    /// A function returns that doesn't run there.
    NotRunning,
}
