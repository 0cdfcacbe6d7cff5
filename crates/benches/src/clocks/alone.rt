//! One thread reads a new clock, and there is no other: plainly, and among the entries of timers.
ghost use Rattle.std.specs.Prelude.{◌≡◌, ◌<◌, IfOk};
ghost use Rattle.clock_cell.specs.Views.{IsPassOfClock};
ghost use Rattle.hr_timers.specs.Known.{IsPassOf};
ghost use Rattle.ordered_clock.specs.Moments.{clock_counter};

use crate::clocks::turns::{Done, ended, read_often};
use clock_cell::{ClockPass, SharedClock};
use hr_timers::{Pass, Timers};
use seq_timer::Terms;
use std::alloc::{AllocError, Global};
use std::sync::Wait;

fn read_in_order<R: Wait>(
    rt: &R,
    timers: &Timers,
    pass: &mut Pass,
    clock: &SharedClock,
    clock_pass: &mut ClockPass,
    times: u64,
)
    requires pass { IsPassOf timers.now pass.old }
    requires counter { clock_counter < timers.now.about.counters }
    requires clock { IsPassOfClock clock.now clock_pass.old }
    ensures pass { IsPassOf timers.now pass.new }
    ensures keeps { (pass.new.known.id ≡ pass.old.known.id) × (pass.new.known.claims ≡ pass.old.known.claims) }
    ensures clock { IsPassOfClock clock.now clock_pass.new }
    ensures id { clock_pass.new.knows.pass.id ≡ clock_pass.old.knows.pass.id }
{
    for _ in 0..times {
        ordered_clock::read(rt, timers, pass, clock, clock_pass);
    }
}

/// Reads by `clock_cell`.
pub fn plain<R: Wait>(rt: &R, alloc: Global, reads: u64) -> Result<Done, AllocError>
    ensures { IfOk result (λ d. d.made ≡ 0) }
{
    let (clock, mut pass) = SharedClock::make(alloc)?;
    read_often(rt, &clock, &mut pass, reads);
    Ok(ended(rt, clock, pass, 0))
}

/// Reads by `ordered_clock`, beside a base with no timers.
pub fn ordered<R: Wait>(rt: &R, alloc: Global, reads: u64) -> Result<Done, AllocError>
    ensures { IfOk result (λ d. d.made ≡ 0) }
{
    let (timers, mut pass) = Timers::make_counting(alloc, 1, &[], Terms::limited(1), 1)?;
    match SharedClock::make(alloc) {
        Ok((clock, mut clock_pass)) => {
            read_in_order(rt, &timers, &mut pass, &clock, &mut clock_pass, reads);
            let stamp = clock.read(rt, &mut clock_pass).stamp;
            timers.close(pass);
            clock.close(clock_pass);
            Ok(Done { made: 0, stamp })
        }
        Err(fault) => {
            timers.close(pass);
            Err(fault)
        }
    }
}
