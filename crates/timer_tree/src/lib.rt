//! Queues of timers as balanced trees whose links lie in one block: node n of the block is the link of timer n. One queue alone, or the six of a base.
#![tactic(auto)]

pub use six::SixTrees;
pub use steps::Steps;
pub use tree::TimerTree;

mod add;
mod block;
mod erase;
mod links;
mod node;
mod repair;
mod rotate;
mod shared;
mod six;
mod steps;
mod tree;
