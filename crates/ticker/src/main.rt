//! A timer descriptor that ticks at every 100 ns: one thread lets time pass and runs its function, another reads its ticks.
#![tactic(auto)]

ghost use Rattle.hulayban.specs.Places.{HasFd};

use hulayban::{
    ClockId, Declaration, Done, Kind, Lane, NoFunctions, Place, ReadAnswer, Session, Settime,
    System, Terms,
};
use std::io;
use std::sync::Wait;

/// Arms the descriptor, and lets 2,000 ns pass in steps of 25.
#[derive(Clone, Copy)]
struct Passing;

/// Runs the function if it is due, reads the descriptor 50 times, and counts its ticks.
#[derive(Clone, Copy)]
struct Reading {
    ticks: u64,
}

impl Lane for Passing {
    ghost suits = { λ x. HasFd x 0 0 };

    fn run<R: Wait, P: Place>(&mut self, rt: &R, me: &mut Session<'_, P>) -> Done {
        me.settime(rt, 0, Settime::every(100))?;
        for _ in 0..80 {
            let _ = me.advance(rt, 25);
            me.expire(rt, 0, 1, &mut NoFunctions)?;
        }
        Ok(())
    }
}

impl Lane for Reading {
    ghost suits = { λ x. HasFd x 0 0 };

    fn run<R: Wait, P: Place>(&mut self, rt: &R, me: &mut Session<'_, P>) -> Done {
        me.expire(rt, 0, 1, &mut NoFunctions)?;
        for _ in 0..50 {
            if let ReadAnswer::Count { total } = me.read(rt, 0)? {
                self.ticks = self.ticks.saturating_add(total);
            }
        }
        Ok(())
    }
}

fn main(rt: HostRuntime) -> io::Result<()> {
    let fd = Declaration::over(Kind::Fd, ClockId::Monotonic, 0);
    let (system, me) = System::make(rt.alloc(), 1, &[fd], Terms::limited(1000))?;
    let mut reading = Reading { ticks: 0 };
    let (me, done) = system.run_both(&rt, me, &mut Passing, &mut reading);
    let (me, rest) = system.run(&rt, me, &mut reading);
    system.close(me);
    done.and(rest)?;
    println!(rt; "{} ticks", reading.ticks)?;
    Ok(())
}
