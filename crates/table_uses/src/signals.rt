//! Small callers of `signal_queue`: signals that are sent and taken, on one thread and on two.
pub use draining::{drain, send};
pub use threads::{hand_over, trade};

mod draining;
pub(crate) mod threads;
