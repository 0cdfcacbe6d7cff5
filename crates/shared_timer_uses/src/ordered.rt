//! A start by a clock whose readings have places among the timers' entries.
ghost use Rattle.std.specs.Prelude.{◌≡◌, ◌<◌, length};
ghost use Rattle.clock_cell.specs.Views.{IsPassOfClock};
ghost use Rattle.hr_timers.specs.Handlers.{KeepsPass};
ghost use Rattle.hr_timers.specs.Known.{IsPassOf};
ghost use Rattle.ordered_clock.specs.Moments.{clock_counter};
ghost use Rattle.pass_names.specs.Passes.{Looks};
ghost use Rattle.shared_timer_uses.specs.Callers.{StartsAfter};

use clock_cell::{ClockPass, SharedClock};
use hr_timers::{Pass, StartAnswer, Timers};
use ktime::Mode;
use std::sync::Wait;

/// Reads the clock, and arms a timer to expire so many nanoseconds later.
pub fn start_after<R: Wait>(
    rt: &R,
    timers: &Timers,
    pass: &mut Pass,
    clock: &SharedClock,
    clock_pass: &mut ClockPass,
    timer: u32,
    ns: u64,
    base: u32,
) -> StartAnswer
    requires pass { IsPassOf timers.now pass.old }
    requires counter { clock_counter < timers.now.about.counters }
    requires clock { IsPassOfClock clock.now clock_pass.old }
    requires timer { timer < length timers.now.about.timers }
    requires base { base < timers.now.about.bases }
    ensures pass { IsPassOf timers.now pass.new }
    ensures clock { IsPassOfClock clock.now clock_pass.new }
    ensures keeps { KeepsPass pass.old.known pass.new.known }
    ensures clock_looks { Looks clock_pass.old.knows.pass clock_pass.new.knows.pass }
    ensures starts { StartsAfter timers.now.about pass.old.known pass.new.known timer ns base result }
{
    let reading = ordered_clock::read(rt, timers, pass, clock, clock_pass);
    timers.start(rt, pass, timer, Mode::Rel, ns, base, reading)
}
