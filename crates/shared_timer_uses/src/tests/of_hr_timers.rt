//! The calls of `hr_timers`, each on its happy path, by two passes on one thread; and, in `holding`, a base that a thread holds.
ghost use Rattle.std.specs.Prelude.{◌≡◌, ◌<◌, length, [], ◌∷◌, IfOk, MatchOption};
ghost use Rattle.pass_names.specs.Names.{IsLast, first_pass_id};
ghost use Rattle.hr_timers.specs.Known.{IsEvacuable, IsPassOf, LocksGoOn, claimed_as};

mod holding;

use super::{HARD, SOFT, assert_equal, kept, retire, some_timers};
use hr_timers::{
    Claim, ClaimAnswer, ClaimNumbers, NowAnswer, OfflineAnswer, OnlineAnswer, Pass, StartAnswer,
    Timers,
};
use ktime::{Mode, Reading};
use seq_timer::{CancelAnswer, Finished, Peek, Rearmed};
use std::alloc::{AllocError, Global};
use std::sync::Wait;
use std::test::Fail;

/// A start that left its timer armed by this generation on a base, which it asked for last.
fn started(was_armed: bool, generation: u64, base: u32, outs: u64, expires: u64) -> StartAnswer {
    StartAnswer::Started {
        was_armed,
        generation,
        asked: base,
        outs,
        placement: kept(base, expires),
    }
}

/// Claims the next timer of a base.
pub(super) fn claim<R: Wait>(
    rt: &R,
    timers: &Timers,
    pass: &mut Pass,
    base: u32,
    reading: Reading,
) -> Option<Claim>
    requires pass { IsPassOf timers.now pass.old }
    requires base { base < timers.now.about.bases }
    requires unclaimed { pass.old.known.claims ≡ [] }
    ensures pass { IsPassOf timers.now pass.new }
    ensures id { pass.new.known.id ≡ pass.old.known.id }
    ensures within { MatchOption result Unit (λ c. c.timer < length timers.now.about.timers) }
    ensures claims { MatchOption result (pass.new.known.claims ≡ []) (λ c. pass.new.known.claims ≡ claimed_as c ∷ []) }
{
    match timers.claim_next(rt, pass, base, reading) {
        ClaimAnswer::Claimed(claim) => Some(claim),
        ClaimAnswer::NoneDue => None,
        ClaimAnswer::BaseBusy {
            timer: _,
            generation: _,
        } => None,
    }
}

/// Ends the run of the only claim's function.
pub(super) fn finish<R: Wait>(
    rt: &R,
    timers: &Timers,
    pass: &mut Pass,
    claim: Claim,
    restart: bool,
) -> Finished
    requires pass { IsPassOf timers.now pass.old }
    requires within { claim.timer < length timers.now.about.timers }
    requires only { pass.old.known.claims ≡ claimed_as claim ∷ [] }
    ensures pass { IsPassOf timers.now pass.new }
    ensures id { pass.new.known.id ≡ pass.old.known.id }
    ensures unclaimed { pass.new.known.claims ≡ [] }
    ensures locks { LocksGoOn pass.old pass.new }
{
    timers.finish(rt, pass, claim, restart)
}

/// Claims the next timer of the soft context of a base, and finishes the claim. It answers which timer that was.
fn run_soft<R: Wait>(
    rt: &R,
    timers: &Timers,
    pass: &mut Pass,
    base: u32,
    reading: Reading,
) -> Option<u32>
    requires pass { IsPassOf timers.now pass.old }
    requires base { base < timers.now.about.bases }
    requires unclaimed { pass.old.known.claims ≡ [] }
    ensures pass { IsPassOf timers.now pass.new }
    ensures id { pass.new.known.id ≡ pass.old.known.id }
    ensures unclaimed { pass.new.known.claims ≡ [] }
{
    match timers.claim_next_soft(rt, pass, base, reading) {
        ClaimAnswer::Claimed(claim) => {
            let timer = claim.timer();
            finish(rt, timers, pass, claim, false);
            Some(timer)
        }
        ClaimAnswer::NoneDue => None,
        ClaimAnswer::BaseBusy {
            timer: _,
            generation: _,
        } => None,
    }
}

#[test]
fn a_timer_moves_and_is_cancelled(rt: HostRuntime) -> Result<(), Fail> {
    let (timers, mut pass, _log) = some_timers(rt.alloc(), 2, 1)?;
    let first = timers.start(&rt, &mut pass, 0, Mode::Rel, 7, 1, Reading::at(1000));
    assert_equal(&rt, first, started(false, 2, 1, 2, 1007));
    let armed = Peek {
        stamp: 2,
        base: 1,
        enqueued: true,
        running: false,
        moving: false,
    };
    assert_equal(&rt, timers.peek(&mut pass, 0), armed);
    let cancelled = CancelAnswer::Cancelled {
        generation: 2,
        number: 3,
    };
    let tried = timers.cancel_now(&mut pass, 0);
    assert_equal(&rt, tried, NowAnswer::Tried(cancelled));
    let idle = timers.try_to_cancel(&rt, &mut pass, 0);
    assert_equal(&rt, idle, CancelAnswer::Idle { stamp: 3 });
    timers.close(pass);
    Ok(())
}

#[test]
fn a_soft_function_runs_beside_a_hard_one(rt: HostRuntime) -> Result<(), Fail> {
    let (timers, mut pass) = Timers::make_full(rt.alloc(), 1, &[HARD, SOFT], 100)?;
    let mut other = timers.split(&mut pass);
    let now = Reading::at(0);
    timers.start(&rt, &mut pass, 0, Mode::Rel, 0, 0, now);
    timers.start_range(&rt, &mut pass, 1, Mode::Rel, 0, 5, 0, now);
    let Some(hard) = claim(&rt, &timers, &mut pass, 0, now) else {
        assert!(rt; false);
        retire(&timers, &mut pass, other);
        timers.close(pass);
        return Ok(());
    };
    let numbers = ClaimNumbers {
        timer: 0,
        generation: 1,
        base: 0,
        number: 2,
    };
    assert_equal(&rt, hard.numbers(), numbers);
    assert_equal(&rt, hard.timer(), 0);
    assert_equal(
        &rt,
        (hard.generation(), hard.base(), hard.number()),
        (1, 0, 2),
    );
    let soft = run_soft(&rt, &timers, &mut other, 0, now);
    assert_equal(&rt, soft, Some(1));
    let finished = finish(&rt, &timers, &mut pass, hard, false);
    assert_equal(&rt, finished.rearmed, Rearmed::No);
    timers.meet(&mut pass, &mut other);
    assert_equal(&rt, timers.peek(&mut pass, 1).stamp, 3);
    retire(&timers, &mut pass, other);
    timers.close(pass);
    Ok(())
}

/// Three bases that may go off line, and two timers, one of each context.
fn evacuable(alloc: Global) -> Result<(Timers, Pass), AllocError>
    ensures pass { IfOk result (λ r. IsPassOf r.0 r.1 × IsLast r.1.known.id × (r.1.known.claims ≡ [])) }
    ensures first { IfOk result (λ r. r.1.known.id ≡ first_pass_id) }
    ensures evacuable { IfOk result (λ r. IsEvacuable r.0.about) }
    ensures size { IfOk result (λ r. (length r.0.about.timers ≡ 2) × (r.0.about.bases ≡ 3)) }
{
    Timers::make_evacuable(alloc, 3, &[HARD, SOFT], 100, 1024)
}

#[test]
fn a_start_goes_to_the_heir_until_its_base_is_on_line(rt: HostRuntime) -> Result<(), Fail> {
    let (timers, mut pass) = evacuable(rt.alloc())?;
    let now = Reading::at(0);
    let first = timers.start(&rt, &mut pass, 0, Mode::Abs, 100, 1, now);
    assert_equal(&rt, first, started(false, 2, 1, 2, 100));
    let off = timers.offline(&rt, &mut pass, 1, 0, 4, now);
    assert_equal(&rt, off, OfflineAnswer::Offline { moved: 1, stamp: 1 });
    let second = timers.start(&rt, &mut pass, 0, Mode::Abs, 200, 1, now);
    assert_equal(&rt, second, started(true, 5, 0, 0, 200));
    let on = timers.online(&rt, &mut pass, 1);
    assert_equal(&rt, on, OnlineAnswer::Online { stamp: 2 });
    let third = timers.start(&rt, &mut pass, 0, Mode::Abs, 300, 1, now);
    assert_equal(&rt, third, started(true, 7, 1, 2, 300));
    timers.close(pass);
    Ok(())
}
