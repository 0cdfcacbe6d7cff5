//! The calls that take bases off line and on line again. The first handle makes them.
ghost use Rattle.std.specs.Prelude.{◌≡◌, ◌<◌, []};
ghost use Rattle.hr_timers.specs.Known.{IsEvacuable};
ghost use Rattle.hulayban.specs.Calls.{DoesOffline, DoesOnline};
ghost use Rattle.hulayban.specs.Systems.{IsHandleOf, handle_name};

use crate::handle::Handle;
use crate::system::System;
use hr_timers::{OfflineAnswer, OnlineAnswer};
use std::sync::Wait;

impl System {
    /// Takes a base off line (`hrtimers_cpu_dying`): moves its armed timers to the heir, at most so many, each for the times that it was armed for. Only the
    /// first handle may, of timers whose terms have a reach.
    pub fn offline<R: Wait>(
        &self,
        rt: &R,
        me: &mut Handle,
        base: u32,
        heir: u32,
        budget: u32,
    ) -> OfflineAnswer
        requires me { IsHandleOf self.now me.old }
        requires first { (handle_name me.old).name ≡ [] }
        requires evacuable { IsEvacuable self.now.timers.about }
        requires base { (base < self.now.timers.about.bases) × (heir < base) }
        ensures { DoesOffline self.now me.old me.new base heir budget result }
    {
        let reading = self.now(rt, me);
        let pass = &mut me.timers;
        self.timers.offline(rt, pass, base, heir, budget, reading)
    }

    /// Takes a base on line again (`hrtimers_cpu_starting`). Timers come back by later starts.
    pub fn online<R: Wait>(&self, rt: &R, me: &mut Handle, base: u32) -> OnlineAnswer
        requires me { IsHandleOf self.now me.old }
        requires first { (handle_name me.old).name ≡ [] }
        requires evacuable { IsEvacuable self.now.timers.about }
        requires base { base < self.now.timers.about.bases }
        ensures { DoesOnline self.now me.old me.new base result }
    {
        self.timers.online(rt, &mut me.timers, base)
    }
}
