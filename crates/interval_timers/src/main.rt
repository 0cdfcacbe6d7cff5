//! A POSIX timer and a timer descriptor, armed for every interval, and a sleeper, on one thread: each over a timer of one core.
#![tactic(auto)]

ghost use Rattle.std.specs.Prelude.{◌≡◌, ◌<◌, ℕ, length};
ghost use Rattle.timer_setting.specs.Phases.{IsOutcomeOf};
ghost use Rattle.timer_core.specs.Kept.{IsSameSize};

use ktime::{ClockId, Reading, TimeSpec};
use posix_timer::{AcceptAnswer, PosixState};
use sleeper::{InterruptAnswer, SleepAnswer, SleeperState};
use std::alloc::{AllocError, Global};
use std::io;
use timer_core::{ClaimAnswer, Core, StartAnswer};
use timer_fd::{FdState, ReadAnswer};
use timer_queue::ListQueue;
use timer_setting::{Arm, Wanted};

/// The timer below the POSIX timer.
const SIGNALS: u32 = 0;

/// The timer below the descriptor.
const COUNTS: u32 = 1;

/// The timer below the sleeper.
const SLEEPS: u32 = 2;

/// The three objects over their timers, on base 0. The facts hold between all calls.
#[derive(Drop)]
struct Objects {
    core: Core<ListQueue>,
    signals: PosixState,
    counts: FdState,
    sleeper: SleeperState,
    ghost timers: { length core.timers ≡ 3 },
    ghost bases: { (length core.bases ≡ 1) × (signals.base ≡ 0) × (counts.base ≡ 0) × (sleeper.base ≡ 0) },
}

impl Objects {
    fn make(alloc: Global) -> Result<Objects, AllocError> {
        Ok(Objects {
            core: Core::make(alloc, 1, &[ClockId::Monotonic; 3], 1000)?,
            signals: PosixState::make(ClockId::Monotonic, 0, 1000),
            counts: FdState::make(ClockId::Monotonic, 0, 1000),
            sleeper: SleeperState::make(ClockId::Monotonic, 0, 1000),
        })
    }

    /// Arms the first two to expire after each interval: a look, the start that it wants, and the call.
    fn set(&mut self, every: TimeSpec, reading: Reading) {
        let wanted = self.signals.settime_wants(0, every, every, reading);
        let arm = start(&mut self.core, SIGNALS, wanted, reading);
        self.signals.settime(0, every, every, reading, arm);
        let wanted = self.counts.settime_wants(0, every, every, reading);
        let arm = start(&mut self.core, COUNTS, wanted, reading);
        self.counts.settime(0, every, every, reading, arm);
    }

    /// Runs the function of the next timer that is due, if one is: it triggers the object over it.
    fn expire(&mut self, reading: Reading) {
        let ClaimAnswer::Claimed {
            timer,
            generation,
            ..
        } = self.core.claim_next(0, reading)
        else {
            return;
        };
        self.core.finish(timer, false);
        if timer == SIGNALS {
            self.signals.trigger(generation, reading);
        } else if timer == COUNTS {
            self.counts.trigger(generation, reading);
        } else {
            self.sleeper.trigger(generation, reading);
        }
    }

    /// Accepts the signal, which arms the timer for its next expiry.
    fn accept(&mut self, reading: Reading) -> AcceptAnswer {
        let wanted = self.signals.accept_wants(reading);
        let arm = start(&mut self.core, SIGNALS, wanted, reading);
        self.signals.accept(reading, arm)
    }

    /// Reads the count, which arms the timer for its next expiry.
    fn read(&mut self, reading: Reading) -> ReadAnswer {
        let wanted = self.counts.read_wants(8, reading);
        let arm = start(&mut self.core, COUNTS, wanted, reading);
        self.counts.read(8, reading, arm)
    }

    /// Begins a sleep of so long.
    fn sleep(&mut self, time: TimeSpec, reading: Reading) -> SleepAnswer {
        let wanted = self.sleeper.sleep_wants(0, time, reading);
        let arm = start(&mut self.core, SLEEPS, wanted, reading);
        self.sleeper.sleep(0, time, reading, arm)
    }

    /// Ends the sleep, as a signal does: the timer is disarmed first.
    fn interrupt(&mut self, reading: Reading) -> InterruptAnswer {
        self.core.try_to_cancel(SLEEPS);
        self.sleeper.interrupt(reading)
    }
}

/// Makes the start that an object wants, if it wants one, and answers the outcome.
fn start(core: &mut Core<ListQueue>, timer: u32, wanted: Option<Wanted>, reading: Reading) -> Arm
    requires within { (timer < length core.old.timers) × (0 < length core.old.bases) }
    ensures outcome { IsOutcomeOf result wanted }
    ensures sizes { IsSameSize core.old core.new }
{
    let Some(wanted) = wanted else {
        return Arm::NotAsked;
    };
    match core.start(timer, wanted.mode, wanted.ns, 0, reading) {
        StartAnswer::Started { generation, .. } => Arm::Armed(generation),
        StartAnswer::Spent { stamp } => Arm::Unarmed(stamp),
    }
}

fn main(rt: HostRuntime) -> io::Result<()> {
    let mut objects = Objects::make(rt.alloc())?;
    let time = TimeSpec { sec: 0, nsec: 100 };
    for (from, to) in [(0u32, 100u32), (200, 230)] {
        let begun = objects.sleep(time, Reading::at(from.into()));
        objects.expire(Reading::at(to.into()));
        let ended = objects.interrupt(Reading::at(to.into()));
        println!(rt; "{from}: {begun:?}, {to}: {ended:?}")?;
    }
    objects.set(time, Reading::at(300));
    for now in [400u32, 650, 700] {
        let reading = Reading::at(now.into());
        for _ in 0..2 {
            objects.expire(reading);
        }
        println!(rt;
            "{now}: {:?}, {:?}",
            objects.accept(reading),
            objects.read(reading)
        )?;
    }
    Ok(())
}
