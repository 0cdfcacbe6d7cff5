//! The times of some rounds, of which the median counts.
use std::alloc::{AllocError, Global};
use std::time::Duration;

#[derive(Drop)]
pub struct Times {
    nanos: Vec<u128>,
}

impl Times {
    /// Before the first round.
    pub fn new(alloc: Global) -> Times {
        Times {
            nanos: Vec::new(alloc),
        }
    }

    /// Goes along with a round.
    pub fn take(&mut self, took: Duration) -> Result<(), AllocError> {
        self.nanos.push(took.as_nanos())?;
        Ok(())
    }

    /// The median in nanoseconds; 0 where there was no round.
    pub fn median(&mut self) -> u128 {
        self.nanos.sort_unstable();
        match self.nanos.get(self.nanos.len() / 2) {
            Some(nanos) => *nanos,
            None => 0,
        }
    }
}
