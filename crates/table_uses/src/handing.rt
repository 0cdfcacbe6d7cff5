//! A small caller of `handoff`: numbers that one thread hands to another, which adds to them.
pub use adding::{Addend, Load, add_to_all};

pub(crate) mod adding;
