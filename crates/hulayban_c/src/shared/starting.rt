//! The start of C on a seat: a try where the timer is, or else a send to the base that is asked for and a try at the arrival there.
ghost use Rattle.std.specs.Prelude.{◌≡◌, ◌<◌, List, length};
ghost use Rattle.base_row.specs.declared.view.Claimed.{Claimed};
ghost use Rattle.hr_timers.specs.Carriers.{IsCarrierOf};
ghost use Rattle.hr_timers.specs.Known.{IsPassOf};
ghost use Rattle.hulayban_c.specs.Seats.{IsHeld};
ghost use Rattle.hulayban_c.specs.Shared.{ArrivesBy, SendsBy, SharedStart, StartsOnce, StartsHeld};

use crate::codes::CARRIES;
use crate::crossing::Time;
use crate::shared::answer::SharedAnswer;
use crate::shared::held::{Held, hold};
use crate::shared::seat::Seat;
use crate::shared::told::{carried_tells, here_tells, landed_tells, miss_tells, unsent_tells};
use hr_timers::{ArriveAnswer, Carrier, HereAnswer, Pass, Timers};
use seq_timer::Asked;
use std::mem;

impl Seat {
    /// Arms a timer on a base, if the arguments are good.
    pub fn start(
        &mut self,
        timer: u32,
        mode: u32,
        ns: u64,
        slack: u64,
        base: u32,
        now: &Time,
    ) -> Result<(i32, SharedAnswer), i32>
        ensures { SharedStart self.old timer mode ns slack base now.now result self.new }
    {
        let asked = self.start_asks(timer, mode, ns, slack, base, now)?;
        let held = mem::replace(&mut self.held, Held::Taken);
        let (held, told) = start_held(&self.timers, held, timer, &asked);
        hold(&mut self.held, held);
        told
    }
}

/// A start by what a seat holds.
fn start_held(
    timers: &Timers,
    held: Held,
    timer: u32,
    asked: &Asked,
) -> (Held, Result<(i32, SharedAnswer), i32>)
    requires timer { timer < length timers.now.about.timers }
    requires base { asked.now.base < timers.now.about.bases }
    requires held { (k : List Claimed) × IsHeld timers.now k held }
    ensures starts { StartsHeld timers.now held timer asked.now result.1 result.0 }
    ensures held { (k : List Claimed) → IsHeld timers.now k held → IsHeld timers.now k result.0 }
{
    match held {
        Held::Rests(pass) => {
            let (held, told) = start(timers, pass, timer, asked);
            (held, Ok(told))
        }
        Held::Carries(carrier) => {
            if carrier.timer() != timer {
                return (Held::Carries(carrier), Err(CARRIES));
            }
            let (held, told) = arrive(timers, carrier, asked);
            (held, Ok(told))
        }
        Held::Taken => unreachable!(),
    }
}

/// A start by a pass that carries no timer.
fn start(timers: &Timers, pass: Pass, timer: u32, asked: &Asked) -> (Held, (i32, SharedAnswer))
    requires pass { IsPassOf timers.now pass }
    requires timer { timer < length timers.now.about.timers }
    requires base { asked.now.base < timers.now.about.bases }
    ensures starts { StartsOnce timers.now pass timer asked.now result.1 result.0 }
    ensures held { IsHeld timers.now pass.known.claims result.0 }
{
    let mut pass = pass;
    match timers.try_start(&mut pass, timer, asked) {
        HereAnswer::Tried { answer, first } => {
            (Held::Rests(pass), here_tells(timer, answer, first))
        }
        HereAnswer::Missed(miss) => (Held::Rests(pass), miss_tells(timer, miss)),
        HereAnswer::Elsewhere { base: _ } => send(timers, pass, timer, asked),
    }
}

/// Sends a timer to the base that is asked for, and tries to start it there.
fn send(timers: &Timers, pass: Pass, timer: u32, asked: &Asked) -> (Held, (i32, SharedAnswer))
    requires pass { IsPassOf timers.now pass }
    requires timer { timer < length timers.now.about.timers }
    requires base { asked.now.base < timers.now.about.bases }
    ensures sends { SendsBy timers.now pass timer asked.now result.1 result.0 }
    ensures held { IsHeld timers.now pass.known.claims result.0 }
{
    match timers.try_send(pass, timer, asked.base) {
        Ok(carrier) => arrive(timers, carrier, asked),
        Err((pass, unsent)) => (Held::Rests(pass), unsent_tells(timer, unsent)),
    }
}

/// Tries to start a carried timer where it goes.
fn arrive(timers: &Timers, carrier: Carrier, asked: &Asked) -> (Held, (i32, SharedAnswer))
    requires carrier { IsCarrierOf timers.now carrier }
    ensures arrives { ArrivesBy timers.now carrier asked.now result.1 result.0 }
    ensures held { IsHeld timers.now carrier.pass.known.claims result.0 }
{
    let timer = carrier.timer();
    let was_armed = carrier.was_armed();
    match timers.try_arrive(carrier, asked) {
        ArriveAnswer::Arrived { pass, landed } => {
            (Held::Rests(pass), landed_tells(timer, was_armed, landed))
        }
        ArriveAnswer::SentOn(carrier) | ArriveAnswer::Contended(carrier) => {
            let told = carried_tells(timer, carrier.base());
            (Held::Carries(carrier), told)
        }
    }
}
