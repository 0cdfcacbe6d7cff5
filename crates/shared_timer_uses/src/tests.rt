//! The callers, run; and the tests of the crates below, one module each.
ghost use Rattle.std.specs.Prelude.{◌≡◌, ◌<◌, ◌≤◌, [], length, IfOk};
ghost use Rattle.pass_names.specs.Names.{IsLast, after_split, child_of, first_pass_id};
ghost use Rattle.hr_timers.specs.Known.{IsPassOf};

mod callers;
mod greatest;
mod of_clock_cell;
mod of_hr_timers;
mod of_ordered_clock;
mod of_ordered_signals;
mod of_rings;
mod of_tries;
mod threads;

use hr_timers::{Log, Pass, Timers};
use ktime::ClockId;
use seq_timer::{Context, Declared, Placement};
use std::alloc::{AllocError, Global};
use std::fmt::Debug;
use std::process::Abort;

/// How often a thread looks for what the other one does.
const TURNS: u32 = 50_000_000;

/// A timer of the hard context on the monotonic clock.
const HARD: Declared = Declared {
    clock: ClockId::Monotonic,
    context: Context::Hard,
};

/// A timer of the soft context on the same clock.
const SOFT: Declared = Declared {
    clock: ClockId::Monotonic,
    context: Context::Soft,
};

/// Fails the test where these differ, and shows both. This is proved once; an `assert_eq!` is proved in each test that has it.
fn assert_equal<T: PartialEq + Debug + Drop>(rt: &impl Abort, got: T, wanted: T) {
    assert_eq!(rt; got, wanted);
}

/// A timer without slack, kept on the monotonic clock of a base.
fn kept(base: u32, expires: u64) -> Placement {
    Placement {
        base,
        clock: ClockId::Monotonic,
        soft: expires,
        expires,
    }
}

/// So many timers on the monotonic clock, so many bases, and a log with room for 64 receipts.
fn some_timers(alloc: Global, bases: u32, count: usize) -> Result<(Timers, Pass, Log), AllocError>
    requires few { (0 < bases) × (bases ≤ 64) × (count ≤ 64) }
    ensures pass { IfOk result (λ r. IsPassOf r.0 r.1 × IsLast r.1.known.id × (r.1.known.claims ≡ [])) }
    ensures first { IfOk result (λ r. r.1.known.id ≡ first_pass_id) }
    ensures size { IfOk result (λ r. (length r.0.about.timers ≡ count) × (r.0.about.bases ≡ bases)) }
    ensures room { IfOk result (λ r. 64 ≤ r.2.spare) }
{
    let mut log = Log::make(alloc);
    log.reserve(64)?;
    let clocks = vec![in alloc; ClockId::Monotonic; count]?;
    let (timers, pass) = Timers::make(alloc, bases, &clocks, 100000)?;
    Ok((timers, pass, log))
}

/// The first pass takes in the one that was split off it first.
fn retire(timers: &Timers, main: &mut Pass, other: Pass)
    requires pass { IsPassOf timers.now main.old }
    requires other { IsPassOf timers.now other }
    requires first { main.old.known.id ≡ after_split first_pass_id }
    requires child { other.known.id ≡ child_of first_pass_id }
    requires unclaimed { (main.old.known.claims ≡ []) × (other.known.claims ≡ []) }
    ensures pass { IsPassOf timers.now main.new }
    ensures last { IsLast main.new.known.id }
    ensures unclaimed { main.new.known.claims ≡ [] }
{
    timers.retire(main, other);
}
