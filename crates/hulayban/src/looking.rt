//! Looks at objects. They make no entry and take no memory.
ghost use Rattle.std.specs.Prelude.{◌≡◌, ◌<◌, length};
ghost use Rattle.timer_objects.specs.Calls.{IsPosixKind};
ghost use Rattle.timer_objects.specs.Known.{decl_at};
ghost use Rattle.timer_objects.specs.declared.object.Kind.TheVariants as kinds;
ghost use Rattle.hulayban.specs.Calls.{DoesGetoverrun, DoesReadable, DoesSlept};
ghost use Rattle.hulayban.specs.Systems.{IsHandleOf};

use crate::handle::Handle;
use crate::system::System;
use std::sync::Wait;
use timer_objects::{Overrun, Readable, Slept};

impl System {
    /// Whether a descriptor is ready to be read (`poll(2)`).
    pub fn readable<R: Wait>(&self, rt: &R, me: &mut Handle, id: u32) -> Readable
        requires me { IsHandleOf self.now me.old }
        requires within { id < length self.now.objects.decls }
        requires kind { (decl_at self.now.objects id).kind ≡ kinds.Fd }
        ensures { DoesReadable self.now me.old me.new id result }
    {
        let reading = self.now(rt, me);
        me.logs.clear();
        self.objects.readable(
            rt,
            &self.timers,
            &mut me.timers,
            &mut me.objects,
            &mut me.logs.timers,
            &mut me.logs.objects,
            id,
            reading,
        )
    }

    /// How many further periods had passed when the last signal of a POSIX timer was accepted (`timer_getoverrun`).
    pub fn getoverrun<R: Wait>(&self, rt: &R, me: &mut Handle, id: u32) -> Overrun
        requires me { IsHandleOf self.now me.old }
        requires within { id < length self.now.objects.decls }
        requires kind { IsPosixKind (decl_at self.now.objects id).kind }
        ensures { DoesGetoverrun self.now me.old me.new id result }
    {
        me.logs.clear();
        self.objects.getoverrun(
            rt,
            &self.timers,
            &mut me.timers,
            &mut me.objects,
            &mut me.logs.timers,
            &mut me.logs.objects,
            id,
        )
    }

    /// Whether a sleep goes on, or its time has come, or neither.
    pub fn slept<R: Wait>(&self, rt: &R, me: &mut Handle, id: u32) -> Slept
        requires me { IsHandleOf self.now me.old }
        requires within { id < length self.now.objects.decls }
        requires kind { (decl_at self.now.objects id).kind ≡ kinds.Sleeper }
        ensures { DoesSlept self.now me.old me.new id result }
    {
        me.logs.clear();
        self.objects.slept(
            rt,
            &self.timers,
            &mut me.timers,
            &mut me.objects,
            &mut me.logs.timers,
            &mut me.logs.objects,
            id,
        )
    }
}
