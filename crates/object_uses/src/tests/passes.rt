//! A pass that was split off, and what the first one hears of it.
ghost use Rattle.std.specs.Prelude.{◌≤◌, ◌<◌};

use super::assert_equal;
use super::stand::{FD, NONE, Stand, number_at};
use crate::{hear_all, set_timer};
use ktime::{ClockId, Reading};
use std::sync::Wait;
use std::test::Fail;
use timer_fd::SettimeAnswer;

impl Stand {
    /// A pass that is split off sets an object to 100, and the first pass hears of it and takes it in.
    #[tactic(auto, using(crate::proofs::Rooms::room_on))]
    fn set_by_another<R: Wait>(&mut self, rt: &R, id: u32) -> SettimeAnswer
        requires within { id < 2 }
        requires room { (4 ≤ self.old.0) × (0 < self.old.1) }
    {
        let mut other = self.timers.split(&mut self.pass);
        let mut objects_other = self.objects.split(&mut self.objects_pass);
        let answer = set_timer(
            rt,
            &self.timers,
            &mut other,
            &self.objects,
            &mut objects_other,
            &mut self.log,
            &mut self.calls,
            id,
            1,
            100,
            0,
            Reading::at(0),
        );
        hear_all(&self.objects, &mut self.objects_pass, objects_other);
        self.timers.retire(&mut self.pass, other);
        answer
    }
}

#[test]
fn a_pass_hears_all(rt: HostRuntime) -> Result<(), Fail> {
    let mut stand = Stand::make(rt.alloc(), ClockId::Monotonic, 100)?;
    assert!(rt; stand.reserve(4, 1).is_ok());
    assert_equal(&rt, stand.set_by_another(&rt, FD), NONE);
    assert_equal(&rt, number_at(stand.calls.receipts(), 0), Some(1));
    stand.close();
    Ok(())
}
