//! A thread's seat at timers that threads share.
ghost use Rattle.std.specs.Prelude.{◌≡◌};
ghost use Rattle.hr_timers.specs.Known.{IsPassOf};
ghost use Rattle.hulayban_c.specs.Seats.{IsFreeSeat};
ghost use Rattle.hulayban_c.specs.declared.shared.held.Held.TheVariants as holds;

use crate::shared::held::Held;
use hr_timers::{Claim, Pass, Timers};
use std::alloc::Global;
use std::marker::Model;
use std::mem::ManuallyDrop;
use std::sync::Arc;

/// The timers, which it shares with other seats, what it holds of them, and the claim of the timer whose function it runs. `count` and `bases` are how many
/// timers and bases there are.
pub struct Seat {
    pub timers: Arc<Timers, Global>,
    pub held: Held,
    pub claim: Option<Claim>,
    pub count: u32,
    pub bases: u32,
}

impl Model for Seat {
    ghost use Rattle.std.specs.Arc.{arc_value};
    ghost use Rattle.std.specs.Prelude.{◌≡◌, length};
    ghost use Rattle.hulayban_c.specs.Seats.{SeatAt, IsSeat};

    ghost Value = { SeatAt };

    ghost view = { λ s. record { timers = arc_value s.timers; held = s.held; claim = s.claim } };

    ghost invariant = { λ s. IsSeat (arc_value s.timers) s.held s.claim × (length (arc_value s.timers).about.timers ≡ s.count)
        × ((arc_value s.timers).about.bases ≡ s.bases) };
}

impl Seat {
    /// The pass of a seat that has nothing else.
    pub fn into_pass(self) -> Pass
        requires free { IsFreeSeat self }
        ensures pass { self.held ≡ holds.Rests result }
        ensures of_timers { IsPassOf self.timers result }
    {
        let Seat {
            timers: _,
            held,
            claim,
            count: _,
            bases: _,
        } = self;
        let None = claim else { unreachable!() };
        let Held::Rests(pass) = held else {
            unreachable!()
        };
        pass
    }
}

impl Drop for Seat {
    /// Lets the pass of a seat go that has nothing else. No call drops another seat: its claim, or what it carries, would never end.
    fn drop(self) {
        let Seat {
            timers,
            held,
            claim,
            count: _,
            bases: _,
        } = self;
        match claim {
            None => match held {
                Held::Rests(pass) => timers.abandon(pass),
                carried => {
                    let _kept = unsafe { ManuallyDrop::new_unchecked(carried) };
                }
            },
            Some(claim) => {
                let _kept = unsafe { ManuallyDrop::new_unchecked((claim, held)) };
            }
        }
    }
}
