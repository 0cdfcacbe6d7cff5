//! What runs timers' functions.
ghost use Rattle.std.specs.Prelude.{◌≡◌, ◌<◌, ◌≤◌, ◌+◌};
ghost use Rattle.hr_timers.specs.Known.{IsPassOf, OwnsClaim};
ghost use Rattle.hr_timers.specs.Handlers.{KeepsPass, Meaning, CanServe, asks};

use crate::{Claim, Pass, Timers};
use ktime::Reading;
use std::sync::Wait;

/// What a timer's function answers (`HRTIMER_NORESTART`, `HRTIMER_RESTART`).
#[derive(Clone, Copy, Debug, PartialEq, Eq)]
pub enum Restart {
    Stop,
    Again,
}

/// Runs timers' functions. It is called where the pass holds no base, so it may call timers as it likes, but for a `cancel` that waits for
/// the function that it is in. What it does is said by its meaning.
pub trait Handler {
    ghost meaning: { Meaning Self };

    /// Runs the function of a claim.
    fn fire<R: Wait>(
        &mut self,
        rt: &R,
        timers: &Timers,
        pass: &mut Pass,
        claim: &Claim,
        reading: Reading,
    ) -> Restart
        requires pass { IsPassOf timers.now pass.old }
        requires claim { OwnsClaim timers.now.about pass.old.known claim.now }
        requires ready { 0 < meaning.ready self.old }
        requires suits { CanServe meaning timers.now.about self.old }
        ensures pass { IsPassOf timers.now pass.new }
        ensures keeps { KeepsPass pass.old.known pass.new.known }
        ensures did { meaning.did timers.now.about self.old self.new pass.old.known pass.new.known claim.now reading result }
        ensures ready { meaning.ready self.old ≤ meaning.ready self.new + 1 }
        ensures numbers { (meaning.timers self.new ≡ meaning.timers self.old) × (meaning.bases self.new ≡ meaning.bases self.old)
            × (meaning.counters self.new ≡ meaning.counters self.old) };
}

/// Whether a function asks for a restart.
pub fn asks(restart: Restart) -> bool
    ensures { result ≡ asks restart }
{
    match restart {
        Restart::Stop => false,
        Restart::Again => true,
    }
}
