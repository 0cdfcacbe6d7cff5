//! Calls of `hr_timers` that try each lock once: each takes a free one, and does what the call that waits does.
ghost use Rattle.std.specs.Prelude.{◌≡◌, ◌<◌, length, [], ◌∷◌, MatchOption};
ghost use Rattle.hr_timers.specs.Carriers.{IsCarrierOf};
ghost use Rattle.hr_timers.specs.Known.{IsPassOf, claimed_as};

use super::of_hr_timers::finish;
use super::{assert_equal, kept, some_timers};
use hr_timers::{
    ArriveAnswer, Carrier, Claim, ClaimAnswer, HereAnswer, Landed, NextAnswer, Pass, StartAnswer,
    Timers,
};
use ktime::{ClockId, Mode, Reading};
use pass_names::Retries;
use seq_timer::{Asked, Context, Finished, ForwardAnswer, Moved, Rearmed};
use std::sync::Wait;
use std::test::Fail;

/// A start on a base, so many nanoseconds after time 0.
fn asked(base: u32, ns: u64) -> Asked
    ensures { result.base ≡ base }
{
    Asked {
        mode: Mode::Rel,
        ns,
        slack: 0,
        reading: Reading::at(0),
        base,
    }
}

/// A first start of a timer on base 0.
fn here(expires: u64, first: bool) -> HereAnswer {
    HereAnswer::Tried {
        answer: StartAnswer::Started {
            was_armed: false,
            generation: 1,
            asked: 0,
            outs: 0,
            placement: kept(0, expires),
        },
        first,
    }
}

/// Starts a timer where it is.
fn start(timers: &Timers, pass: &mut Pass, timer: u32, asked: &Asked) -> HereAnswer
    requires pass { IsPassOf timers.now pass.old }
    requires timer { timer < length timers.now.about.timers }
    requires base { asked.now.base < timers.now.about.bases }
    ensures pass { IsPassOf timers.now pass.new }
    ensures claims { pass.new.known.claims ≡ pass.old.known.claims }
{
    timers.try_start(pass, timer, asked)
}

/// The first timer of base 0.
fn next(timers: &Timers, pass: &mut Pass) -> NextAnswer
    requires pass { IsPassOf timers.now pass.old }
    requires base { 0 < timers.now.about.bases }
    ensures pass { IsPassOf timers.now pass.new }
    ensures claims { pass.new.known.claims ≡ pass.old.known.claims }
{
    timers.try_next(pass, Context::Hard, 0, ClockId::Monotonic)
}

#[test]
fn a_start_where_the_timer_is_says_who_is_first(rt: HostRuntime) -> Result<(), Fail> {
    let (timers, mut pass, _log) = some_timers(rt.alloc(), 2, 2)?;
    let none = next(&timers, &mut pass);
    assert_equal(&rt, none, NextAnswer::NoneArmed);
    let late = start(&timers, &mut pass, 0, &asked(0, 20));
    assert_equal(&rt, late, here(20, true));
    let early = start(&timers, &mut pass, 1, &asked(0, 10));
    assert_equal(&rt, early, here(10, true));
    let wanted = NextAnswer::First {
        timer: 1,
        expires: 10,
    };
    let first = next(&timers, &mut pass);
    assert_equal(&rt, first, wanted);
    let elsewhere = start(&timers, &mut pass, 0, &asked(1, 5));
    assert_equal(&rt, elsewhere, HereAnswer::Elsewhere { base: 0 });
    timers.abandon(pass);
    Ok(())
}

/// Lands a carried timer.
fn land<R: Wait>(rt: &R, timers: &Timers, carrier: Carrier, asked: &Asked) -> (Pass, Landed)
    requires carrier { IsCarrierOf timers.now carrier }
    ensures pass { IsPassOf timers.now result.0 }
    ensures claims { result.0.known.claims ≡ carrier.pass.known.claims }
{
    let mut carrier = carrier;
    for _ in Retries::new(rt) {
        match timers.try_arrive(carrier, asked) {
            ArriveAnswer::Arrived { pass, landed } => return (pass, landed),
            ArriveAnswer::SentOn(again) => carrier = again,
            ArriveAnswer::Contended(again) => carrier = again,
        }
    }
    unreachable!()
}

/// Starts timer 0 on another base: which timer was sent off to which base, whether it was armed before, and where it landed.
fn carry<R: Wait>(
    rt: &R,
    timers: &Timers,
    pass: Pass,
    asked: &Asked,
) -> (Pass, Option<(u32, u32, bool, Landed)>)
    requires pass { IsPassOf timers.now pass }
    requires timer { 0 < length timers.now.about.timers }
    requires base { asked.now.base < timers.now.about.bases }
    ensures pass { IsPassOf timers.now result.0 }
    ensures claims { result.0.known.claims ≡ pass.known.claims }
{
    match timers.try_send(pass, 0, asked.base) {
        Ok(carrier) => {
            let (timer, base, was_armed) = (carrier.timer(), carrier.base(), carrier.was_armed());
            let (pass, landed) = land(rt, timers, carrier, asked);
            (pass, Some((timer, base, was_armed, landed)))
        }
        Err((pass, _)) => (pass, None),
    }
}

#[test]
fn a_timer_is_carried_to_another_base(rt: HostRuntime) -> Result<(), Fail> {
    let (timers, mut pass, _log) = some_timers(rt.alloc(), 2, 1)?;
    start(&timers, &mut pass, 0, &asked(0, 10));
    let (pass, told) = carry(&rt, &timers, pass, &asked(1, 20));
    let landed = Landed {
        base: 1,
        generation: 3,
        placement: kept(1, 20),
        first: true,
    };
    assert_equal(&rt, told, Some((0, 1, true, landed)));
    timers.abandon(pass);
    Ok(())
}

/// Claims the timer that is due on base 0.
fn claim(timers: &Timers, pass: &mut Pass, reading: Reading) -> Option<Claim>
    requires pass { IsPassOf timers.now pass.old }
    requires base { 0 < timers.now.about.bases }
    requires unclaimed { pass.old.known.claims ≡ [] }
    ensures pass { IsPassOf timers.now pass.new }
    ensures within { MatchOption result Unit (λ c. c.timer < length timers.now.about.timers) }
    ensures claims { MatchOption result (pass.new.known.claims ≡ []) (λ c. pass.new.known.claims ≡ claimed_as c ∷ []) }
{
    match timers.try_claim(pass, Context::Hard, 0, reading) {
        Some(ClaimAnswer::Claimed(claim)) => Some(claim),
        Some(ClaimAnswer::NoneDue) => None,
        Some(
            ClaimAnswer::BaseBusy {
                timer: _,
                generation: _,
            },
        ) => None,
        None => None,
    }
}

/// Forwards the timer of the only claim by intervals of 10.
fn forward(
    timers: &Timers,
    pass: &mut Pass,
    claim: &Claim,
    reading: Reading,
) -> Option<ForwardAnswer>
    requires pass { IsPassOf timers.now pass.old }
    requires within { claim.now.timer < length timers.now.about.timers }
    requires only { pass.old.known.claims ≡ claimed_as claim.now ∷ [] }
    ensures pass { IsPassOf timers.now pass.new }
    ensures only { pass.new.known.claims ≡ claimed_as claim.now ∷ [] }
{
    timers.try_forward(pass, claim, reading, 10)
}

/// Ends the run of the only claim's function with a restart. Where the lock is missed the call that waits ends it, and there is no answer.
fn restart<R: Wait>(rt: &R, timers: &Timers, pass: &mut Pass, claim: Claim) -> Option<Finished>
    requires pass { IsPassOf timers.now pass.old }
    requires within { claim.timer < length timers.now.about.timers }
    requires only { pass.old.known.claims ≡ claimed_as claim ∷ [] }
    ensures pass { IsPassOf timers.now pass.new }
    ensures unclaimed { pass.new.known.claims ≡ [] }
{
    match timers.try_finish(pass, claim, true) {
        Ok(finished) => Some(finished),
        Err(claim) => {
            finish(rt, timers, pass, claim, true);
            None
        }
    }
}

#[test]
fn a_timer_is_claimed_forwarded_and_restarted(rt: HostRuntime) -> Result<(), Fail> {
    let (timers, mut pass, _log) = some_timers(rt.alloc(), 1, 1)?;
    start(&timers, &mut pass, 0, &asked(0, 10));
    let Some(claim) = claim(&timers, &mut pass, Reading::at(25)) else {
        assert!(rt; false);
        timers.abandon(pass);
        return Ok(());
    };
    let forwarded = forward(&timers, &mut pass, &claim, Reading::at(25));
    let finished = restart(&rt, &timers, &mut pass, claim);
    timers.abandon(pass);
    let moved = Moved {
        count: 2,
        soft: 30,
        expires: 30,
    };
    let wanted = ForwardAnswer::Forwarded { number: 3, moved };
    assert_equal(&rt, forwarded, Some(wanted));
    let again = Finished {
        number: 4,
        rearmed: Rearmed::Again { generation: 4 },
    };
    assert_equal(&rt, finished, Some(again));
    Ok(())
}
