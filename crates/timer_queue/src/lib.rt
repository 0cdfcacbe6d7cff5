//! Queues of timers by expiry: the trait, and a queue that is a plain list.
#![tactic(auto)]

pub use list::ListQueue;
pub use queue::Queue;
pub use six::SixQueues;
pub use six_lists::SixLists;

mod list;
mod queue;
mod six;
mod six_lists;
