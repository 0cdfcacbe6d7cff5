//! Signals of a queued timer, up to the one that finds no room.
use super::assert_equal;
use super::stand::{QUEUED, Stand, Step, Told};
use crate::{Taken, take_signals};
use hr_timers::ExpireAnswer;
use ktime::{ClockId, Reading};
use std::sync::Wait;
use std::test::Fail;

impl Stand {
    /// Takes at most a hundred signals. It answers nothing where there was no memory.
    #[tactic(auto, using(crate::proofs::Rooms::rooms_on))]
    fn take_all<R: Wait>(&mut self, rt: &R) -> Option<Taken> {
        let taken = take_signals(
            rt,
            &self.timers,
            &mut self.pass,
            &self.objects,
            &mut self.objects_pass,
            &mut self.signal_pass,
            &mut self.log,
            &mut self.calls,
            100,
            Reading::at(100),
        );
        match taken {
            Ok(taken) => Some(taken),
            Err(_) => None,
        }
    }
}

/// Sets the queued timer and lets it expire, so often, and answers whether each expiry ran.
fn expire_often<R: Wait>(rt: &R, stand: &mut Stand, times: u32) -> bool {
    let fired = Told::Expire(ExpireAnswer::Done { fired: 1 });
    for _ in 0..times {
        stand.take(rt, Step::Settime(QUEUED, 1, 100, 0), Reading::at(0));
        if stand.take(rt, Step::Expire, Reading::at(100)) != fired {
            return false;
        }
    }
    true
}

#[test]
fn the_sixty_fifth_signal_finds_no_room(rt: HostRuntime) -> Result<(), Fail> {
    let mut stand = Stand::make(rt.alloc(), ClockId::Monotonic, 1000)?;
    assert!(rt; expire_often(&rt, &mut stand, 65));
    let stale = Taken {
        accepted: 0,
        stale: 64,
        is_drained: true,
    };
    assert_equal(&rt, stand.take_all(&rt), Some(stale));
    assert!(rt; expire_often(&rt, &mut stand, 1));
    let fresh = Taken {
        accepted: 1,
        stale: 0,
        is_drained: true,
    };
    assert_equal(&rt, stand.take_all(&rt), Some(fresh));
    stand.close();
    Ok(())
}
