//! What a caller can see of a timer.
/// What a caller saw of a timer without changing it.
#[derive(Clone, Copy, Debug, PartialEq, Eq)]
pub enum Observation {
    Peek(Peek),
    /// The timer was neither armed, running nor on the move.
    Idle,
    /// The function of this generation was running.
    Running { generation: u64 },
    /// A function was running, and a start had armed the timer again as this generation.
    Armed { generation: u64 },
    /// The limit on entries was reached.
    Spent,
}

/// A timer's state word, taken apart.
#[derive(Clone, Copy, Debug, PartialEq, Eq)]
pub struct Peek {
    /// The number of entries.
    pub stamp: u64,
    pub base: u32,
    /// Whether the timer is armed, so in a queue.
    pub enqueued: bool,
    pub running: bool,
    pub moving: bool,
}
