//! The next signal of queued timers.
ghost use Rattle.std.specs.Prelude.{IfOk, OnErr};
ghost use Rattle.hulayban.specs.Calls.{DoesNextSignal};
ghost use Rattle.hulayban.specs.Systems.{IsHandleOf, KeepsHandle};

use crate::handle::Handle;
use crate::system::System;
use std::alloc::AllocError;
use std::sync::Wait;
use timer_objects::NextSignal;

impl System {
    /// Takes the oldest signal off the queue, and accepts it (`sigwaitinfo`). It doesn't wait for one.
    #[tactic(auto, using(crate::proofs::Whole::noted_few))]
    pub fn next_signal<R: Wait>(&self, rt: &R, me: &mut Handle) -> Result<NextSignal, AllocError>
        requires me { IsHandleOf self.now me.old }
        ensures ok { IfOk result (λ a. DoesNextSignal self.now me.old me.new a) }
        ensures err { OnErr result (KeepsHandle self.now me.old me.new) }
    {
        let reading = self.now(rt, me);
        me.logs.make_room()?;
        let next = self.objects.next_signal(
            rt,
            &self.timers,
            &mut me.timers,
            &mut me.objects,
            &mut me.signals,
            &mut me.logs.timers,
            &mut me.logs.objects,
            reading,
        );
        Ok(next)
    }
}
