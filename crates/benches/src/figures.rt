//! Times as they are printed.
ghost use Rattle.std.specs.Prelude.{◌<◌};

use std::time::Duration;

/// A number of nanoseconds, in tenths.
#[derive(Clone, Copy, Debug, PartialEq, Eq)]
pub struct Figure {
    pub whole: u128,
    pub tenths: u128,
}

/// The least time of some rounds.
#[derive(Clone, Copy, Debug, PartialEq, Eq)]
pub struct Least {
    nanos: u128,
}

impl Least {
    /// Before the first round.
    pub fn new() -> Least {
        Least { nanos: u128::MAX }
    }

    /// Goes along with a round.
    pub fn take(&mut self, took: Duration) {
        self.nanos = self.nanos.min(took.as_nanos());
    }

    /// What one of so many calls a round takes.
    pub fn of(self, calls: u64) -> Figure
        ensures { result.tenths < 10 }
    {
        let tenths = self.nanos.saturating_mul(10) / u128::from(calls.max(1));
        Figure {
            whole: tenths / 10,
            tenths: tenths % 10,
        }
    }
}
