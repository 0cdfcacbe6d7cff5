//! Lanes of calls on threads: each round's lanes run beside each other over the same timers, objects and clock, and what they leave together is
//! the record of the run.
#![tactic(auto)]

pub use gate::{Gate, OpenGate, Point};
pub use lane_notes::WorldPass;
pub use running::run;
pub use world::World;

mod base_calls;
mod crew;
mod expiring;
mod gate;
mod lane;
mod object_calls;
mod reading;
mod rounds;
mod running;
mod signals;
mod timer_calls;
mod world;
