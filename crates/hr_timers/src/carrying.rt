//! Starting a timer on another base by calls that wait for nobody: `try_send` takes it off its base, `try_arrive` starts it on the other. In between the
//! pass carries it.
ghost use Rattle.std.specs.Prelude.{◌≡◌, ◌<◌, ◌≤◌, ◌-◌, ◌^◌, length, slice_index, IfErr, MatchResult};
ghost use Rattle.pass_names.specs.Names.{IsLast};
ghost use Rattle.hr_timers.specs.Carriers.{CarrierOf, IsCarrierOf};
ghost use Rattle.hr_timers.specs.Carrying.{ArrivalFits, SendsOff, UnsentFits};
ghost use Rattle.hr_timers.specs.Known.{IsPassOf, LocksGoOn};
ghost use Rattle.hr_timers.specs.Once.{IsLastMiss};
ghost use Rattle.hr_timers.specs.declared.carrying.ArriveAnswer.TheVariants as arrives;
ghost use Rattle.hr_timers.specs.declared.once_answer.Miss.{Miss};
ghost use Rattle.hr_timers.specs.declared.once_answer.Unsent.TheVariants as unsents;

use crate::carrier::Carrier;
use crate::moving_once;
use crate::moving_once::{Arriving, Sent};
use crate::once_answer::{Landed, Unsent};
use crate::timers::Timers;
use crate::tokens::Pass;
use seq_timer::Asked;

/// What a try at the arrival of a carried timer answers.
pub enum ArriveAnswer {
    /// The timer was started on the base that it went to.
    Arrived { pass: Pass, landed: Landed },
    /// That base was off line: the timer was sent on to its heir.
    SentOn(Carrier),
    /// Another pass took that base's lock. Nothing has changed.
    Contended(Carrier),
}

impl Timers {
    /// Sends a timer off its base at one try at the base's lock, where a start that asks for `base` does: to it, or where that is off line its heir, and
    /// so on down. It gives the pass back, with the reason, where it did nothing. To the last pass it never answers Missed, up to 2^63 - 1 takes of the lock.
    pub fn try_send(&self, pass: Pass, timer: u32, base: u32) -> Result<Carrier, (Pass, Unsent)>
        requires pass { IsPassOf self.now pass }
        requires timer { timer < length self.now.about.timers }
        requires base { base < self.now.about.bases }
        ensures sends { MatchResult result
            (λ c. IsCarrierOf self.now c × (c.timer ≡ timer) × SendsOff self.now.about pass.known c.pass.known timer base c.state c.was_armed
            × LocksGoOn pass c.pass)
            (λ r. IsPassOf self.now r.0 × UnsentFits self.now.about pass r.0 timer base r.1 × LocksGoOn pass r.0) }
        ensures alone { IsLast pass.known.id → IfErr result (λ r. (m : Miss) → r.1 ≡ unsents.Missed m → IsLastMiss r.0.met m) }
    {
        self.small();
        let Pass { inner } = pass;
        let mut inner = inner;
        match moving_once::try_send(&self.row, &mut inner, timer, base) {
            Ok(Sent { state, was_armed }) => Ok(Carrier {
                inner,
                timer,
                state,
                was_armed,
            }),
            Err(why) => {
                let pass = Pass { inner };
                self.check(&pass);
                Err((pass, why))
            }
        }
    }

    /// Starts a carried timer on the base that it goes to, whatever base `asked` names, at one try at that base's lock. To the last
    /// pass it never answers Contended, up to 2^63 - 1 takes of the lock.
    pub fn try_arrive(&self, carrier: Carrier, asked: &Asked) -> ArriveAnswer
        requires carrier { IsCarrierOf self.now carrier }
        ensures arrives { ArrivalFits self.now carrier asked.now result }
        ensures alone { IsLast carrier.pass.known.id → (c : CarrierOf) → result ≡ arrives.Contended c → 2 ^ 64 - 2 ≤ slice_index c.pass.met carrier.state.base }
    {
        self.small();
        let Carrier {
            inner,
            timer,
            state,
            was_armed,
        } = carrier;
        let mut inner = inner;
        let there = Asked {
            base: state.base(),
            ..*asked
        };
        match moving_once::try_arrive(&self.row, &mut inner, timer, &state, &there) {
            Arriving::Landed(landed) => {
                let pass = Pass { inner };
                self.check(&pass);
                ArriveAnswer::Arrived { pass, landed }
            }
            Arriving::SentOn(state) => ArriveAnswer::SentOn(Carrier {
                inner,
                timer,
                state,
                was_armed,
            }),
            Arriving::Contended => ArriveAnswer::Contended(Carrier {
                inner,
                timer,
                state,
                was_armed,
            }),
        }
    }
}
