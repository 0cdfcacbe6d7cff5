//! A signal, and what is done with it.

/// A signal of a timer: the timer, and the number of the entry that generated it. A queue asks nothing of either number.
#[derive(Clone, Copy, Debug, PartialEq, Eq)]
pub struct Signal {
    pub timer: u32,
    pub number: u64,
}

/// What is done with a signal: an entry of a queue's history.
#[derive(Clone, Copy, Debug, PartialEq, Eq)]
pub enum Turn {
    /// It was put last.
    Pushed(Signal),
    /// It was the first one, and was taken off.
    Popped(Signal),
}
