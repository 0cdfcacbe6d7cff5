//! What a seat holds of the timers: a pass at rest, or one that carries a timer. Neither can be dropped, so a place for one is filled where it is empty.
ghost use Rattle.std.specs.Prelude.{◌≡◌, None, Some};
ghost use Rattle.hulayban_c.specs.declared.shared.held.Held.TheVariants as holds;

use hr_timers::{Carrier, Claim, Pass};
use std::mem;

/// What a seat holds of the timers.
pub enum Held {
    /// A pass that carries no timer.
    Rests(Pass),
    /// A pass that carries a timer from one base to another.
    Carries(Carrier),
    /// Nothing, while a call has it.
    Taken,
}

/// Puts back what was taken.
pub fn hold(place: &mut Held, held: Held)
    requires { place.old ≡ holds.Taken }
    ensures { place.new ≡ held }
{
    let before = mem::replace(place, held);
    let Held::Taken = before else { unreachable!() };
}

/// Keeps a claim where there is none.
pub fn keep(place: &mut Option<Claim>, claim: Claim)
    requires { place.old ≡ None }
    ensures { place.new ≡ Some claim }
{
    let before = mem::replace(place, Some(claim));
    let None = before else { unreachable!() };
}
