//! A watchdog on two threads: one feeds it, which puts its timer's expiry off, while the other lets time pass and runs its function when it is due.
#![tactic(auto)]

ghost use Rattle.hulayban.specs.Places.{HasTimer};

use hulayban::{
    ClockId, Declaration, Done, ExpireAnswer, Lane, NoFunctions, Place, Request, Session, System,
    Terms,
};
use std::io;
use std::sync::Wait;

/// Feeds the watchdog 50 times: it is to bark 100 ns after that.
#[derive(Clone, Copy)]
struct Feeding;

/// Lets so many nanoseconds pass, one by one, and counts how often the watchdog barks.
#[derive(Clone, Copy)]
struct Watching(u32, u64);

impl Lane for Feeding {
    ghost suits = { λ x. HasTimer x 0 0 };

    fn run<R: Wait, P: Place>(&mut self, rt: &R, me: &mut Session<'_, P>) -> Done {
        for _ in 0..50 {
            me.start(rt, 0, Request::after(100));
        }
        Ok(())
    }
}

impl Lane for Watching {
    ghost suits = { λ x. HasTimer x 0 0 };

    fn run<R: Wait, P: Place>(&mut self, rt: &R, me: &mut Session<'_, P>) -> Done {
        for _ in 0..self.0 {
            let _ = me.advance(rt, 1);
            if let ExpireAnswer::More { fired } = me.expire(rt, 0, 1, &mut NoFunctions)? {
                self.1 = self.1.saturating_add(fired);
            }
        }
        Ok(())
    }
}

fn main(rt: HostRuntime) -> io::Result<()> {
    let timer = Declaration::raw(ClockId::Monotonic);
    let (system, me) = System::make(rt.alloc(), 1, &[timer], Terms::limited(1 << 40))?;
    let (mut fed, mut alone) = (Watching(50, 0), Watching(200, 0));
    let (me, done) = system.run_both(&rt, me, &mut Feeding, &mut fed);
    let (me, rest) = system.run(&rt, me, &mut alone);
    system.close(me);
    done.and(rest)?;
    println!(rt; "fed: {} barks, then left alone: {}", fed.1, alone.1)?;
    Ok(())
}
