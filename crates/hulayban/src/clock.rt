//! The clock's calls.
ghost use Rattle.ktime.specs.declared.write.Write.TheVariants as writing;
ghost use Rattle.hulayban.specs.Calls.{DoesNow, DoesWrite};
ghost use Rattle.hulayban.specs.Systems.{IsHandleOf};

use crate::handle::Handle;
use crate::system::System;
use clock_cell::WriteAnswer;
use ktime::{Reading, Write};
use std::sync::Wait;

impl System {
    /// The clock as it is at a moment of the call.
    pub fn now<R: Wait>(&self, rt: &R, me: &mut Handle) -> Reading
        requires me { IsHandleOf self.now me.old }
        ensures { DoesNow self.now me.old me.new result }
    {
        ordered_clock::read(rt, &self.timers, &mut me.timers, &self.clock, &mut me.clock)
    }

    /// Makes one write of the clock, or refuses it.
    pub fn write<R: Wait>(&self, rt: &R, me: &mut Handle, write: Write) -> WriteAnswer
        requires me { IsHandleOf self.now me.old }
        ensures { DoesWrite self.now me.old me.new write result }
    {
        ordered_clock::write(
            rt,
            &self.timers,
            &mut me.timers,
            &self.clock,
            &mut me.clock,
            write,
        )
    }

    /// Time passes, in nanoseconds.
    pub fn advance<R: Wait>(&self, rt: &R, me: &mut Handle, by: u64) -> WriteAnswer
        requires me { IsHandleOf self.now me.old }
        ensures { DoesWrite self.now me.old me.new (writing.Advance by) result }
    {
        self.write(rt, me, Write::Advance { by })
    }

    /// Sets the time of day, in nanoseconds (`clock_settime(2)`).
    pub fn set_real<R: Wait>(&self, rt: &R, me: &mut Handle, to: u64) -> WriteAnswer
        requires me { IsHandleOf self.now me.old }
        ensures { DoesWrite self.now me.old me.new (writing.Set to) result }
    {
        self.write(rt, me, Write::Set { to })
    }

    /// The machine sleeps, for so many nanoseconds.
    pub fn suspend<R: Wait>(&self, rt: &R, me: &mut Handle, by: u64) -> WriteAnswer
        requires me { IsHandleOf self.now me.old }
        ensures { DoesWrite self.now me.old me.new (writing.Suspend by) result }
    {
        self.write(rt, me, Write::Suspend { by })
    }
}
