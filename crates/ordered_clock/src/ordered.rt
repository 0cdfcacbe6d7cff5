//! The clock's calls. Each repeats in a counter of the timers how far the clock has come, before its caller does anything else.
ghost use Rattle.std.specs.Prelude.{◌≡◌, ◌≤◌, ◌<◌, length, IfSome, IfNone, []};
ghost use Rattle.pass_names.specs.Passes.{Looks};
ghost use Rattle.pass_names.specs.SharedHistory.{LooksOn};
ghost use Rattle.clock_cell.specs.Views.{AnswersWrite, Hears, IsPassOfClock, KnowsClock, seen_reading, writes};
ghost use Rattle.hr_timers.specs.Known.{IsPassOf, KeepsLocks};
ghost use Rattle.ordered_clock.specs.Moments.{CameBetween, HasPlace, ReadsAt, clock_counter, told};

use clock_cell::{ClockPass, SharedClock, WriteAnswer};
use hr_timers::{Pass, Timers};
use ktime::{Clock, Reading, Write};
use std::sync::Wait;

/// The timers' counter that the clock's writes raise.
const CLOCK: u32 = 0;

/// The clock as it was at a moment among the entries of the timers, no older than what the pass had seen of them. It waits as `SharedClock::read` does.
pub fn read<R: Wait>(
    rt: &R,
    timers: &Timers,
    pass: &mut Pass,
    clock: &SharedClock,
    clock_pass: &mut ClockPass,
) -> Reading
    requires pass { IsPassOf timers.now pass.old }
    requires counter { clock_counter < timers.now.about.counters }
    requires clock { IsPassOfClock clock.now clock_pass.old }
    ensures pass { IsPassOf timers.now pass.new }
    ensures looks { LooksOn pass.old.known pass.new.known }
    ensures locks { KeepsLocks pass.old pass.new }
    ensures clock { IsPassOfClock clock.now clock_pass.new }
    ensures reading { result ≡ seen_reading clock_pass.new.knows }
    ensures count { result.stamp ≡ length (writes clock_pass.new.knows) }
    ensures clock_looks { Looks clock_pass.old.knows.pass clock_pass.new.knows.pass }
    ensures heard { clock_pass.new.knows.heard ≡ [] }
    ensures known { KnowsClock clock_pass.new.knows }
    ensures moment { ReadsAt pass.old.known.seen pass.new.known.seen result.stamp }
    ensures told { result.stamp ≤ told pass.new.known }
{
    let least = timers.counter(pass, CLOCK);
    let now = read_from(rt, clock, clock_pass, least);
    timers.raise_counter(pass, CLOCK, least, now.stamp);
    now
}

/// Makes one write, or refuses it as `Clock::write` does. An accepted write has a place among the entries of the timers, behind all that the pass had seen of
/// them; a refused one a reading by which it is refused, at a moment no older than that. It begins anew where another write came between.
pub fn write<R: Wait>(
    rt: &R,
    timers: &Timers,
    pass: &mut Pass,
    clock: &SharedClock,
    clock_pass: &mut ClockPass,
    write: Write,
) -> WriteAnswer
    requires pass { IsPassOf timers.now pass.old }
    requires counter { clock_counter < timers.now.about.counters }
    requires clock { IsPassOfClock clock.now clock_pass.old }
    ensures pass { IsPassOf timers.now pass.new }
    ensures looks { LooksOn pass.old.known pass.new.known }
    ensures locks { KeepsLocks pass.old pass.new }
    ensures clock { IsPassOfClock clock.now clock_pass.new }
    ensures answers { AnswersWrite write clock_pass.old.knows clock_pass.new.knows result }
    ensures places { HasPlace pass.old.known pass.new.known clock_pass.new.knows result }
{
    for _ in rt.forever() {
        if let Some(answer) = turn(rt, timers, pass, clock, clock_pass, write) {
            return answer;
        }
    }
    unreachable!()
}

/// One turn of a write: `None` where the clock took it at a reading, and didn't take it any more behind another write.
fn turn<R: Wait>(
    rt: &R,
    timers: &Timers,
    pass: &mut Pass,
    clock: &SharedClock,
    clock_pass: &mut ClockPass,
    write: Write,
) -> Option<WriteAnswer>
    requires pass { IsPassOf timers.now pass.old }
    requires counter { clock_counter < timers.now.about.counters }
    requires clock { IsPassOfClock clock.now clock_pass.old }
    ensures pass { IsPassOf timers.now pass.new }
    ensures looks { LooksOn pass.old.known pass.new.known }
    ensures locks { KeepsLocks pass.old pass.new }
    ensures clock { IsPassOfClock clock.now clock_pass.new }
    ensures again { IfNone result (Looks clock_pass.old.knows.pass clock_pass.new.knows.pass) }
    ensures why { IfNone result (CameBetween write clock_pass.old.knows clock_pass.new.knows) }
    ensures heard { Hears clock_pass.old.knows clock_pass.new.knows }
    ensures answers { IfSome result (λ a. AnswersWrite write clock_pass.old.knows clock_pass.new.knows a) }
    ensures places { IfSome result (λ a. HasPlace pass.old.known pass.new.known clock_pass.new.knows a) }
{
    let least = timers.counter(pass, CLOCK);
    let reading = read_from(rt, clock, clock_pass, least);
    if let Err(fault) = Clock::at(reading).write(write) {
        timers.raise_counter(pass, CLOCK, least, reading.stamp);
        return Some(Err(fault));
    }
    if let Ok(after) = clock.write(rt, clock_pass, write) {
        timers.raise_counter(pass, CLOCK, least, after.stamp);
        return Some(Ok(after));
    }
    None
}

/// Reads until the timers are told of just the writes that the clock has: at the end of a run, when nobody writes any more.
pub fn settle<R: Wait>(
    rt: &R,
    timers: &Timers,
    pass: &mut Pass,
    clock: &SharedClock,
    clock_pass: &mut ClockPass,
) -> Reading
    requires pass { IsPassOf timers.now pass.old }
    requires counter { clock_counter < timers.now.about.counters }
    requires clock { IsPassOfClock clock.now clock_pass.old }
    ensures pass { IsPassOf timers.now pass.new }
    ensures looks { LooksOn pass.old.known pass.new.known }
    ensures locks { KeepsLocks pass.old pass.new }
    ensures clock { IsPassOfClock clock.now clock_pass.new }
    ensures reading { result ≡ seen_reading clock_pass.new.knows }
    ensures count { result.stamp ≡ length (writes clock_pass.new.knows) }
    ensures clock_looks { Looks clock_pass.old.knows.pass clock_pass.new.knows.pass }
    ensures heard { clock_pass.new.knows.heard ≡ [] }
    ensures known { KnowsClock clock_pass.new.knows }
    ensures all { told pass.new.known ≡ length (writes clock_pass.new.knows) }
{
    for _ in rt.forever() {
        let now = read(rt, timers, pass, clock, clock_pass);
        if timers.counter(pass, CLOCK) == now.stamp {
            return now;
        }
    }
    unreachable!()
}

/// Reads the clock until it has at least so many writes. In fact the first reading has.
fn read_from<R: Wait>(rt: &R, clock: &SharedClock, pass: &mut ClockPass, least: u64) -> Reading
    requires pass { IsPassOfClock clock.now pass.old }
    ensures pass { IsPassOfClock clock.now pass.new }
    ensures reading { result ≡ seen_reading pass.new.knows }
    ensures count { result.stamp ≡ length (writes pass.new.knows) }
    ensures looks { Looks pass.old.knows.pass pass.new.knows.pass }
    ensures heard { Hears pass.old.knows pass.new.knows }
    ensures known { KnowsClock pass.new.knows }
    ensures least { least ≤ result.stamp }
{
    for _ in rt.forever() {
        let now = clock.read(rt, pass);
        if now.stamp >= least {
            return now;
        }
    }
    unreachable!()
}
