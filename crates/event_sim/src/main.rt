//! A simulator of events on one thread: a sensor is read at every interval, until at a time of day a fault silences it.
#![tactic(auto)]

ghost use Rattle.std.specs.Prelude.{◌≡◌, IfSome, length, true};
ghost use Rattle.seq_timer.specs.Tables.{is_due_on};
ghost use Rattle.timer_core.specs.Kept.{timer_in};

use ktime::{Clock, ClockId, Mode, Reading};
use std::alloc::{AllocError, Global};
use std::io;
use timer_core::{ClaimAnswer, Core};
use timer_queue::ListQueue;

/// The timer that ticks.
const SENSOR: u32 = 0;

/// The timer that stops it.
const FAULT: u32 = 1;

/// Nanoseconds between two ticks.
const INTERVAL: u64 = 250;

/// The time of day at the beginning, and at the fault.
const MORNING: u64 = 10_000;

const NOON: u64 = 10_900;

/// What has happened: whose function ran, by which reading.
#[derive(Clone, Copy, Debug, PartialEq, Eq)]
struct Event {
    timer: u32,
    reading: Reading,
}

/// Two timers on one base, each on its own clock. The two facts hold between all calls.
#[derive(Drop)]
struct Sim {
    core: Core<ListQueue>,
    clock: Clock,
    ghost timers: { length core.timers ≡ 2 },
    ghost bases: { length core.bases ≡ 1 },
}

impl Sim {
    /// Starts both timers in the morning.
    fn make(alloc: Global) -> Result<Sim, AllocError> {
        let clocks = [ClockId::Monotonic, ClockId::Realtime];
        let mut core = Core::<ListQueue>::make(alloc, 1, &clocks, 1000)?;
        let morning = Reading {
            real: MORNING,
            ..Reading::at(0)
        };
        core.start(SENSOR, Mode::Rel, INTERVAL, 0, morning);
        core.start(FAULT, Mode::Abs, NOON, 0, morning);
        let clock = Clock::at(morning);
        Ok(Sim { core, clock })
    }

    /// Sleeps until the next expiry, and runs the function of its timer. It answers nothing where no timer is armed.
    fn step(&mut self) -> Option<Event>
        ensures due { IfSome result (λ event. is_due_on 0 event.reading (timer_in self.old.core event.timer) ≡ true) }
    {
        let wait = self.core.next_wait(0, self.clock.reading())?;
        let reading = self.clock.advance(wait).ok()?;
        let ClaimAnswer::Claimed { timer, .. } = self.core.claim_next(0, reading) else {
            return None;
        };
        if timer == SENSOR {
            self.core.forward(timer, reading, INTERVAL);
            self.core.finish(timer, true);
        } else {
            self.core.try_to_cancel(SENSOR);
            self.core.finish(timer, false);
        }
        Some(Event { timer, reading })
    }
}

fn main(rt: HostRuntime) -> io::Result<()> {
    let mut sim = Sim::make(rt.alloc())?;
    for _ in 0..100 {
        let Some(event) = sim.step() else {
            break;
        };
        println!(rt; "{}: timer {}", event.reading.mono, event.timer)?;
    }
    Ok(())
}
