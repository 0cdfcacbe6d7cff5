//! New timers that threads share, and one more seat at them.
ghost use Rattle.std.specs.Prelude.{◌≡◌, ◌<◌, ◌≤◌, Err, IfOk, MatchResult, None, Ok, length};
ghost use Rattle.seq_timer.specs.Steps.{greatest_limit};
ghost use Rattle.hulayban_c.specs.SharedSeats.{IsFirstSeat, SplitsHeld, fault_shared};

use crate::codes::{CARRIES, NO_MEMORY};
use crate::crossing::Declares;
use crate::opening::{fault_among, timers_declared};
use crate::shared::held::Held;
use crate::shared::seat::Seat;
use hr_timers::Timers;
use pass_names::a_pass_answers_for_its_split;
use std::alloc::{AllocError, Global};
use std::sync::Arc;

/// The most timers that threads share. `include/hrt.h` has it too.
const MAX_SHARED: usize = 16777216;

/// Tests what timers that threads share are asked for.
pub fn fault_shared(bases: u32, declares: &[Declares], max_events: u64) -> Option<i32>
    ensures fault { result ≡ fault_shared bases declares.now max_events }
    ensures bases { result ≡ None → (1 ≤ bases) × (bases ≤ 64) }
    ensures timers { result ≡ None → length declares.now ≤ 16777216 }
    ensures limit { result ≡ None → (0 < max_events) × (max_events ≤ greatest_limit) }
{
    fault_among(MAX_SHARED, bases, declares, max_events)
}

/// New timers, none of them armed, and the first seat at them.
pub fn open_shared(
    alloc: Global,
    bases: u32,
    declares: &[Declares],
    max_events: u64,
) -> Result<Box<Seat>, AllocError>
    requires bases { (1 ≤ bases) × (bases ≤ 64) }
    requires timers { length declares.now ≤ 16777216 }
    requires limit { (0 < max_events) × (max_events ≤ greatest_limit) }
    ensures { IfOk result (λ b. IsFirstSeat bases declares.now max_events b.value) }
{
    let declared = timers_declared(alloc, declares)?;
    let count = declared.len() as u32;
    let (timers, pass) = Timers::make_full(alloc, bases, &declared, max_events)?;
    match Arc::new(alloc, timers) {
        Err(refused) => {
            refused.value.abandon(pass);
            Err(AllocError)
        }
        Ok(timers) => {
            let seat = Seat {
                timers,
                held: Held::Rests(pass),
                claim: None,
                count,
                bases,
            };
            Ok(Box::new(alloc, seat)?)
        }
    }
}

impl Seat {
    /// Another seat of the same timers, whose pass is split off this one's. Without memory that pass is taken in again.
    pub fn split(&mut self, alloc: Global) -> Result<Box<Seat>, i32>
        ensures { MatchResult result (λ b. SplitsHeld self.old.held self.old (Ok b.value) self.new)
            (λ code. SplitsHeld self.old.held self.old (Err code) self.new) }
    {
        let Held::Rests(pass) = &mut self.held else {
            return Err(CARRIES);
        };
        let Ok(timers) = Arc::try_clone(&self.timers) else {
            return Err(NO_MEMORY);
        };
        let seat = Seat {
            timers,
            held: Held::Rests(self.timers.split(pass)),
            claim: None,
            count: self.count,
            bases: self.bases,
        };
        match Box::new(alloc, seat) {
            Ok(seat) => Ok(seat),
            Err(refused) => {
                let other = refused.value.into_pass();
                a_pass_answers_for_its_split();
                self.timers.retire(pass, other);
                Err(NO_MEMORY)
            }
        }
    }
}
