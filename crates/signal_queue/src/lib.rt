//! One queue of signals that many threads share, with a bound on how many wait. It has one history, a list of pushes and pops, in which
//! each pop takes the oldest signal that was not yet popped. It stands on the kit's bounded ring, whose two ends are each lent by a lock,
//! so that a push that finds no room, and a pop that finds nothing, say how the one history stands.
#![tactic(auto)]

pub use ends::{Popping, Pushing, Side};
pub use laws::each_pop_takes_the_oldest;
pub use lending::LentEnd;
pub use pass::SignalPass;
pub use signal::{Signal, Turn};
pub use signals::{Push, Signals};
pub use view::QueueView;

mod ends;
mod laws;
mod lending;
mod lock;
mod pass;
mod plays;
mod ring;
mod signal;
mod signals;
mod view;
