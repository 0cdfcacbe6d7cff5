//! A table of what is known of each timer.
ghost use Rattle.std.specs.Prelude.{◌≡◌, OnOk};
ghost use Rattle.trace_check.specs.Holding.{known_in, KnowsOnly};
ghost use Rattle.trace_check.specs.Knowledge.{unknown};

use crate::known::{ArmedKnown, FunctionKnown, KnownTimer};
use std::alloc::AllocError;
use std::collections::HashMap;

/// What is known of each timer that a line has named.
pub type TimerTable = HashMap<u64, KnownTimer>;

impl KnownTimer {
    /// Nothing is known of a timer.
    pub fn nothing() -> KnownTimer
        ensures { result ≡ unknown }
    {
        KnownTimer {
            armed: ArmedKnown::Untold,
            function: FunctionKnown::Untold,
            clock: None,
            told: None,
            context: None,
            home: None,
            order: None,
        }
    }
}

/// What is known of a timer.
pub fn known(timers: &TimerTable, timer: u64) -> KnownTimer
    ensures { result ≡ known_in timers.now timer }
{
    timers.get(&timer).copied().unwrap_or(KnownTimer::nothing())
}

/// Notes what is known of a timer now.
pub fn note(timers: &mut TimerTable, timer: u64, known: KnownTimer) -> Result<(), AllocError>
    ensures { OnOk result (KnowsOnly timers.old timers.new timer known) }
{
    timers.insert(timer, known)?;
    Ok(())
}
