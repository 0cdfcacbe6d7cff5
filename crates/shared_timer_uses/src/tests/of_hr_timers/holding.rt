//! A base that one thread holds, in the middle of a start, while the other one tries to cancel timers there and elsewhere; and one that a lent pass holds.
ghost use Rattle.std.specs.Prelude.{◌≡◌, ◌<◌, length};
ghost use Rattle.hr_timers.specs.Known.{IsPassOf};
ghost use Rattle.hr_timers.specs.Handlers.{KeepsPass};

use super::super::{TURNS, assert_equal, kept, retire, some_timers};
use crate::{Stopped, stop_now};
use hr_timers::{NowAnswer, Pass, ReceiptSink, StartAnswer, Timers};
use ktime::{Mode, Reading};
use seq_timer::{Asked, CancelAnswer, Event, Reply};
use std::sync::Wait;
use std::sync::atomic::{AtomicBool, Ordering};
use std::test::Fail;
use std::thread::{Threads, join_mut};

/// How far two threads are: the one holds a base, and the other has made its tries.
#[derive(Drop)]
struct Meeting {
    is_held: AtomicBool,
    is_tried: AtomicBool,
}

/// Whether this comes before it was looked at too often.
fn comes(flag: &AtomicBool) -> bool {
    for _ in 0..TURNS {
        if flag.load(Ordering::SeqCst) {
            return true;
        }
    }
    false
}

/// A sink that is slow to take a receipt: it waits for the other thread's tries. Meanwhile the base of the receipt's timer is held.
#[derive(Drop)]
struct Slow<'a> {
    meeting: &'a Meeting,
}

impl ReceiptSink for Slow<'_> {
    ghost pushed = { λ s receipt. s };

    ghost room = { λ s. 18446744073709551615 };

    fn note(&mut self, timer: u32, number: u64, event: Event, reply: Reply) {
        let _ = (timer, number, event, reply);
        self.meeting.is_held.store(true, Ordering::SeqCst);
        comes(&self.meeting.is_tried);
    }
}

/// Starts timer 0 anew on base 0, and holds that until the other thread has made its tries.
fn start_slowly<R: Wait>(rt: &R, timers: &Timers, pass: &mut Pass, meeting: &Meeting) -> StartAnswer
    requires pass { IsPassOf timers.now pass.old }
    requires size { (length timers.now.about.timers ≡ 2) × (timers.now.about.bases ≡ 2) }
    ensures pass { IsPassOf timers.now pass.new }
    ensures same { (pass.new.known.claims ≡ pass.old.known.claims) × (pass.new.known.id ≡ pass.old.known.id) }
{
    let mut sink = Slow { meeting };
    let asked = Asked {
        mode: Mode::Abs,
        ns: 9000,
        slack: 0,
        reading: Reading::at(1000),
        base: 0,
    };
    timers.start_logged(rt, pass, &mut sink, 0, &asked)
}

/// While base 0 is held, tries to stop timer 0 there, and stops timer 1 on the other base.
fn try_both(timers: &Timers, pass: &mut Pass, meeting: &Meeting) -> Option<(Stopped, Stopped)>
    requires pass { IsPassOf timers.now pass.old }
    requires size { length timers.now.about.timers ≡ 2 }
    ensures pass { IsPassOf timers.now pass.new }
    ensures keeps { KeepsPass pass.old.known pass.new.known }
{
    if !comes(&meeting.is_held) {
        return None;
    }
    let here = stop_now(timers, pass, 0);
    let there = stop_now(timers, pass, 1);
    meeting.is_tried.store(true, Ordering::SeqCst);
    Some((here, there))
}

/// One thread starts timer 0, the other makes its tries meanwhile.
fn start_and_try<R: Threads + Wait + Sync>(
    rt: &R,
    timers: &Timers,
    starter: &mut Pass,
    trier: &mut Pass,
) -> (StartAnswer, Option<(Stopped, Stopped)>)
    requires pass { IsPassOf timers.now starter.old × IsPassOf timers.now trier.old }
    requires size { (length timers.now.about.timers ≡ 2) × (timers.now.about.bases ≡ 2) }
    ensures pass { IsPassOf timers.now starter.new × IsPassOf timers.now trier.new }
    ensures same { (starter.new.known.claims ≡ starter.old.known.claims) × (starter.new.known.id ≡ starter.old.known.id) }
    ensures keeps { KeepsPass trier.old.known trier.new.known }
{
    let meeting = Meeting {
        is_held: AtomicBool::new(false),
        is_tried: AtomicBool::new(false),
    };
    join_mut(
        rt,
        &mut || start_slowly(rt, timers, starter, &meeting),
        &mut || try_both(timers, trier, &meeting),
    )
}

#[test]
fn a_held_base_is_contended_and_no_other(rt: HostRuntime) -> Result<(), Fail> {
    let (timers, mut pass, _log) = some_timers(rt.alloc(), 2, 2)?;
    let now = Reading::at(1000);
    timers.start(&rt, &mut pass, 0, Mode::Rel, 7, 0, now);
    timers.start(&rt, &mut pass, 1, Mode::Rel, 7, 1, now);
    let mut other = timers.split(&mut pass);
    let (started, told) = start_and_try(&rt, &timers, &mut pass, &mut other);
    retire(&timers, &mut pass, other);
    assert_equal(&rt, told, Some((Stopped::Busy, Stopped::Disarmed)));
    let again = StartAnswer::Started {
        was_armed: true,
        generation: 2,
        asked: 0,
        outs: 0,
        placement: kept(0, 9000),
    };
    assert_equal(&rt, started, again);
    timers.close(pass);
    Ok(())
}

/// Tries once to cancel a timer, and answers whether that was told Contended.
fn is_contended(timers: &Timers, pass: &mut Pass, timer: u32) -> bool
    requires pass { IsPassOf timers.now pass.old }
    requires timer { timer < length timers.now.about.timers }
    ensures pass { IsPassOf timers.now pass.new }
    ensures keeps { KeepsPass pass.old.known pass.new.known }
{
    match timers.cancel_now(pass, timer) {
        NowAnswer::Contended { .. } => true,
        NowAnswer::Tried(CancelAnswer::Cancelled { .. }) => false,
        NowAnswer::Tried(CancelAnswer::Idle { .. }) => false,
        NowAnswer::Tried(CancelAnswer::Running { .. }) => false,
        NowAnswer::Moving { .. } | NowAnswer::Moved { .. } => false,
    }
}

/// Holds base 0 by a lent pass while the other one tries to cancel timer 0, and lets it go. Nothing is answered where the base wasn't got.
fn hold_and_try(timers: &Timers, holder: Pass, trier: &mut Pass) -> (Pass, Option<bool>)
    requires pass { IsPassOf timers.now holder × IsPassOf timers.now trier.old }
    requires size { (length timers.now.about.timers ≡ 2) × (timers.now.about.bases ≡ 2) }
    ensures pass { IsPassOf timers.now result.0 × IsPassOf timers.now trier.new }
    ensures same { (result.0.known.claims ≡ holder.known.claims) × (result.0.known.id ≡ holder.known.id) }
    ensures keeps { KeepsPass trier.old.known trier.new.known }
{
    let row = timers.base_row();
    let mut lent = timers.lend(holder);
    let told = match row.try_lock_base(&mut lent, 0) {
        Some(held) => {
            let is_told = is_contended(timers, trier, 0);
            row.unlock_base(&mut lent, held);
            Some(is_told)
        }
        None => None,
    };
    (timers.take_back(lent), told)
}

#[test]
fn a_base_that_a_lent_pass_holds_is_contended(rt: HostRuntime) -> Result<(), Fail> {
    let (timers, mut pass, _log) = some_timers(rt.alloc(), 2, 2)?;
    timers.start(&rt, &mut pass, 0, Mode::Rel, 7, 0, Reading::at(1000));
    let mut other = timers.split(&mut pass);
    let (mut pass, told) = hold_and_try(&timers, pass, &mut other);
    let freed = is_contended(&timers, &mut other, 0);
    let word = timers.peek(&mut other, 0);
    retire(&timers, &mut pass, other);
    assert_equal(
        &rt,
        (told, freed, word.enqueued),
        (Some(true), false, false),
    );
    timers.close(pass);
    Ok(())
}
