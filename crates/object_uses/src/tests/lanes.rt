//! Lanes on two threads: ten thousand settimes of a descriptor beside the expiries that they meet. Neither waits for the other for ever.
ghost use Rattle.hulayban.specs.Places.{HasFd};

use super::assert_equal;
use hulayban::{
    ClockId, Declaration, Done, ExpireAnswer, Kind, Lane, NoFunctions, Place, Session, Settime,
    System, Terms, TimeSpec,
};
use std::sync::Wait;
use std::sync::atomic::{AtomicBool, Ordering};
use std::test::Fail;

/// How often the descriptor is set.
const ROUNDS: u64 = 10_000;

/// How often the other thread looks for a function that is due.
const TURNS: u64 = 100_000_000;

/// Sets the descriptor so many times to a time that has come, and tells when that is done.
#[derive(Drop)]
struct Setting<'a> {
    done: &'a AtomicBool,
}

/// Runs its function as often as it is due, until that is done, and once more; and counts.
#[derive(Drop)]
struct Running<'a> {
    done: &'a AtomicBool,
    ran: u64,
}

impl Lane for Setting<'_> {
    ghost suits = { λ x. HasFd x 0 0 };

    fn run<R: Wait, P: Place>(&mut self, rt: &R, me: &mut Session<'_, P>) -> Done {
        let soon = Settime {
            flags: 1,
            value: TimeSpec { sec: 0, nsec: 10 },
            interval: TimeSpec { sec: 0, nsec: 0 },
        };
        for _ in 0..ROUNDS {
            me.settime(rt, 0, soon)?;
        }
        self.done.store(true, Ordering::SeqCst);
        Ok(())
    }
}

impl Lane for Running<'_> {
    ghost suits = { λ x. HasFd x 0 0 };

    fn run<R: Wait, P: Place>(&mut self, rt: &R, me: &mut Session<'_, P>) -> Done {
        for _ in 0..TURNS {
            let is_last = self.done.load(Ordering::SeqCst);
            if let ExpireAnswer::More { fired } = me.expire(rt, 0, 1, &mut NoFunctions)? {
                self.ran = self.ran.saturating_add(fired);
            }
            if is_last {
                break;
            }
        }
        Ok(())
    }
}

#[test]
fn a_settime_and_its_expiry_never_wait_for_each_other(rt: HostRuntime) -> Result<(), Fail> {
    let fd = Declaration::over(Kind::Fd, ClockId::Monotonic, 0);
    let (system, mut me) = System::make(rt.alloc(), 1, &[fd], Terms::limited(100_000))?;
    let _ = system.advance(&rt, &mut me, 100);
    let done = AtomicBool::new(false);
    let mut setting = Setting { done: &done };
    let mut running = Running {
        done: &done,
        ran: 0,
    };
    let (mut me, ended) = system.run_both(&rt, me, &mut running, &mut setting);
    let entries = system.readable(&rt, &mut me, 0).stamp;
    system.close(me);
    ended?;
    assert_equal(&rt, entries, running.ran.saturating_add(ROUNDS));
    assert!(rt; running.ran > 0);
    Ok(())
}
