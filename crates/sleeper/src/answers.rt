//! What a look at a sleeper answers.

/// How a sleeper is.
#[derive(Clone, Copy, Debug, PartialEq, Eq)]
pub enum SleptAnswer {
    /// A sleep goes on.
    Sleeping,
    /// The sleep's time has come, and its end is yet to be told.
    Slept,
    /// The sleeper is free.
    Awake,
}
