//! What calls on objects do to the timers below.
ghost use Rattle.std.specs.Prelude.{◌≡◌, ◌≢◌, ◌≤◌, ◌<◌, ◌+◌, ◌^◌, length, true, false, None, Some, IfNone, IfSome, MatchOption};
ghost use Rattle.pass_names.specs.SharedHistory.{LooksOn};
ghost use Rattle.seq_timer.specs.Tables.{timer_at};
ghost use Rattle.hr_timers.specs.Known.{IsPassOf};
ghost use Rattle.hr_timers.specs.Ways.{most_to_start};
ghost use Rattle.timer_setting.specs.Phases.{IsOutcomeOf};
ghost use Rattle.timer_objects.specs.Arming.{ArmsFor, DisarmsInTurn};
ghost use Rattle.timer_objects.specs.Turns.{turns_counter};
ghost use Rattle.timer_objects.specs.Waiting.{IsHindered, IsOutOfTurn};

use crate::turns::{Turn, counter_of};
use hr_timers::{Log, Pass, StartAnswer, Timers};
use ktime::Reading;
use seq_timer::{Asked, CancelAnswer};
use std::sync::Wait;
use timer_setting::{Arm, Wanted};

/// Tries to begin a turn of an object with so many entries, and to disarm the object's timer. It answers the turn, or nothing, with none begun, where the
/// timer's function is running.
pub(crate) fn disarm<R: Wait>(
    rt: &R,
    timers: &Timers,
    pass: &mut Pass,
    log: &mut Log,
    timer: u32,
    stamp: u64,
) -> Option<Turn>
    requires pass { IsPassOf timers.now pass.old }
    requires timer { timer < length timers.now.about.timers }
    requires counter { turns_counter timer < timers.now.about.counters }
    requires small { stamp + stamp + 2 < 2 ^ 64 }
    requires room { 0 < log.old.spare }
    ensures pass { IsPassOf timers.now pass.new }
    ensures turn { IfSome result (λ turn. turn ≡ (timer, stamp)) }
    ensures sets { MatchOption result (LooksOn pass.old.known pass.new.known × (log.new ≡ log.old)) (λ _. DisarmsInTurn timers.now.about pass.old.known pass.new.known timer stamp log.old.receipts log.new.receipts) }
    ensures why { IfNone result (IsHindered timers.now.about pass.new.known timer) }
    ensures room { log.old.spare ≤ log.new.spare + 1 }
{
    for _ in rt.forever() {
        match try_to_disarm(rt, timers, pass, log, timer, stamp) {
            Some(true) => return Some(Turn::begun(timer, stamp)),
            Some(false) => return None,
            None => {}
        }
    }
    unreachable!()
}

/// One try of it. It answers nothing, and has done nothing, where another call has its turn, which in fact none has.
fn try_to_disarm<R: Wait>(
    rt: &R,
    timers: &Timers,
    pass: &mut Pass,
    log: &mut Log,
    timer: u32,
    stamp: u64,
) -> Option<bool>
    requires pass { IsPassOf timers.now pass.old }
    requires timer { timer < length timers.now.about.timers }
    requires counter { turns_counter timer < timers.now.about.counters }
    requires small { stamp + stamp + 2 < 2 ^ 64 }
    requires room { 0 < log.old.spare }
    ensures pass { IsPassOf timers.now pass.new }
    ensures disarms { result ≡ Some true → DisarmsInTurn timers.now.about pass.old.known pass.new.known timer stamp log.old.receipts log.new.receipts }
    ensures looks { result ≢ Some true → LooksOn pass.old.known pass.new.known × (log.new ≡ log.old) }
    ensures why { result ≡ Some false → IsHindered timers.now.about pass.new.known timer }
    ensures again { result ≡ None → IsOutOfTurn timer (stamp + stamp) pass.old.known pass.new.known }
    ensures room { log.old.spare ≤ log.new.spare + 1 }
{
    let counter = counter_of(timer)?;
    let answer = timers.try_to_cancel_behind(rt, pass, log, timer, counter, stamp + stamp)?;
    let CancelAnswer::Running { .. } = answer else {
        return Some(true);
    };
    Some(false)
}

/// Makes the start that a step wants, if it wants one.
pub(crate) fn arm<R: Wait>(
    rt: &R,
    timers: &Timers,
    pass: &mut Pass,
    log: &mut Log,
    timer: u32,
    wanted: Option<Wanted>,
    base: u32,
    reading: Reading,
) -> Arm
    requires pass { IsPassOf timers.now pass.old }
    requires timer { timer < length timers.now.about.timers }
    requires base { base < timers.now.about.bases }
    requires room { most_to_start (timer_at timers.now.about.timers timer).terms base ≤ log.old.spare }
    ensures pass { IsPassOf timers.now pass.new }
    ensures arms { ArmsFor timers.now.about pass.old.known pass.new.known timer wanted base reading result log.old.receipts log.new.receipts }
    ensures outcome { IsOutcomeOf result wanted }
    ensures room { log.old.spare ≤ log.new.spare + most_to_start (timer_at timers.now.about.timers timer).terms base }
{
    let Some(Wanted { mode, ns }) = wanted else {
        return Arm::NotAsked;
    };
    let asked = Asked {
        mode,
        ns,
        slack: 0,
        reading,
        base,
    };
    match timers.start_logged(rt, pass, log, timer, &asked) {
        StartAnswer::Spent { stamp } => Arm::Unarmed(stamp),
        StartAnswer::Started { generation, .. } => Arm::Armed(generation),
    }
}
