//! A media clock on four threads: one lets time pass, and three decode the frames whose time has come. Each frame is decoded once.
ghost use Rattle.hulayban.specs.Places.{HasFd};

use hulayban::{
    ClockId, Declaration, Done, Kind, Lane, NoFunctions, Place, ReadAnswer, Session, Settime,
    System, Terms,
};
use std::alloc::{AllocError, Global};
use std::sync::Wait;
use std::thread::Threads;

/// What a thread does, and how many frames it has decoded.
#[derive(Clone, Copy)]
enum Part {
    Clock,
    Decoder { frames: u64 },
}

impl Part {
    /// How many frames it has decoded.
    fn frames(&self) -> u64 {
        match self {
            Part::Clock => 0,
            Part::Decoder { frames } => *frames,
        }
    }
}

impl Lane for Part {
    ghost suits = { λ x. HasFd x 0 0 };

    fn run<R: Wait, P: Place>(&mut self, rt: &R, me: &mut Session<'_, P>) -> Done {
        match self {
            Part::Clock => {
                me.settime(rt, 0, Settime::every(40))?;
                for _ in 0..100 {
                    let _ = me.advance(rt, 10);
                    me.expire(rt, 0, 1, &mut NoFunctions)?;
                }
            }
            Part::Decoder { frames } => {
                for _ in 0..50 {
                    me.expire(rt, 0, 1, &mut NoFunctions)?;
                    if let ReadAnswer::Count { total } = me.read(rt, 0)? {
                        *frames = frames.saturating_add(total);
                    }
                }
            }
        }
        Ok(())
    }
}

/// How many frames were decoded in 1,000 ns, of one each 40 ns.
pub fn decoded<R: Threads + Wait + Sync>(rt: &R, alloc: Global) -> Result<u64, AllocError> {
    let mut parts = Vec::new(alloc);
    parts.push(Part::Clock)?;
    for _ in 0..3 {
        parts.push(Part::Decoder { frames: 0 })?;
    }
    let fd = Declaration::over(Kind::Fd, ClockId::Monotonic, 0);
    let (system, me) = System::make(alloc, 1, &[fd], Terms::limited(1000))?;
    let (me, done) = system.run_all(rt, me, &mut parts);
    let mut last = Part::Decoder { frames: 0 };
    let (me, rest) = system.run(rt, me, &mut last);
    system.close(me);
    done.and(rest)?;
    let mut all = last.frames();
    for part in &parts {
        all = all.saturating_add(part.frames());
    }
    Ok(all)
}
