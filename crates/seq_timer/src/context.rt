//! What a timer is declared as, and the terms on which it takes entries.
ghost use Rattle.std.specs.Prelude.{◌≡◌, IfOk, length, map};
ghost use Rattle.seq_timer.specs.Steps.{limited};
ghost use Rattle.seq_timer.specs.Tables.{hard_on};

use ktime::ClockId;
use std::alloc::{AllocError, Global};

/// Where a timer's function runs: in the interrupt, or in the softirq, which has queues of its own.
#[derive(Clone, Copy, Debug, PartialEq, Eq)]
pub enum Context {
    Hard,
    Soft,
}

/// The clock and the context that a timer is declared with. They never change.
#[derive(Clone, Copy, Debug, PartialEq, Eq)]
pub struct Declared {
    pub clock: ClockId,
    pub context: Context,
}

impl Declared {
    /// A timer of the hard context on this clock.
    pub fn hard(clock: ClockId) -> Declared
        ensures { result ≡ hard_on clock }
    {
        Declared {
            clock,
            context: Context::Hard,
        }
    }
}

/// Timers of the hard context on these clocks.
pub fn all_hard(alloc: Global, clocks: &[ClockId]) -> Result<Vec<Declared>, AllocError>
    ensures timers { IfOk result (λ v. v.items ≡ map hard_on clocks.now) }
    ensures len { IfOk result (λ v. length v.items ≡ length clocks.now) }
{
    let mut timers = Vec::with_capacity(alloc, clocks.len())?;
    for clock in clocks {
        timers.push(Declared::hard(*clock))?;
    }
    Ok(timers)
}

/// The terms on which a timer takes entries.
#[derive(Clone, Copy, Debug, PartialEq, Eq)]
pub struct Terms {
    /// At so many entries a timer takes no start, no forward and no restart any more.
    pub limit: u64,
    /// How many entries past the limit may move it off a base that goes off line. It is 0 where no base can.
    pub reach: u64,
}

impl Terms {
    /// A limit alone.
    pub fn limited(limit: u64) -> Terms
        ensures { result ≡ limited limit }
    {
        Terms { limit, reach: 0 }
    }
}
