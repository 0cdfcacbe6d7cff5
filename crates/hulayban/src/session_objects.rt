//! A session's calls on objects and signals.
ghost use Rattle.std.specs.Prelude.{◌≡◌, ◌<◌, length, IfOk, OnErr};
ghost use Rattle.timer_fd.specs.Steps.{count_length};
ghost use Rattle.timer_objects.specs.Calls.{HasSetting, IsPosixKind};
ghost use Rattle.timer_objects.specs.Known.{decl_at};
ghost use Rattle.timer_objects.specs.declared.object.Kind.TheVariants as kinds;
ghost use Rattle.hulayban.specs.Calls.{DoesAccept, DoesGetoverrun, DoesGettime, DoesInterrupt, DoesNextSignal, DoesRead, DoesReadable, DoesSettime, DoesSleep, DoesSlept};
ghost use Rattle.hulayban.specs.Systems.{KeepsHandle};

use crate::objects::Settime;
use crate::place::Place;
use crate::session::Session;
use ktime::TimeSpec;
use std::alloc::AllocError;
use std::sync::Wait;
use timer_objects::{Gettime, NextSignal, Overrun, Readable, Slept};
use timer_setting::{AcceptAnswer, InterruptAnswer, ReadAnswer, SettimeAnswer, SleepAnswer};

impl<'s, P: Place> Session<'s, P> {
    /// Arms an object's timer anew, or disarms it by the value 0.
    pub fn settime<R: Wait>(
        &mut self,
        rt: &R,
        id: u32,
        setting: Settime,
    ) -> Result<SettimeAnswer, AllocError>
        requires within { id < length P.system.objects.decls }
        requires kind { HasSetting (decl_at P.system.objects id).kind }
        ensures ok { IfOk result (λ a. DoesSettime P.system self.old self.new id setting a) }
        ensures err { OnErr result (KeepsHandle P.system self.old self.new) }
    {
        self.system.settime(rt, &mut self.me, id, setting)
    }

    /// How long until the next expiry, and the interval.
    pub fn gettime<R: Wait>(&mut self, rt: &R, id: u32) -> Result<Gettime, AllocError>
        requires within { id < length P.system.objects.decls }
        requires kind { HasSetting (decl_at P.system.objects id).kind }
        ensures ok { IfOk result (λ a. DoesGettime P.system self.old self.new id a) }
        ensures err { OnErr result (KeepsHandle P.system self.old self.new) }
    {
        self.system.gettime(rt, &mut self.me, id)
    }

    /// Reads how often a descriptor has expired.
    pub fn read<R: Wait>(&mut self, rt: &R, id: u32) -> Result<ReadAnswer, AllocError>
        requires within { id < length P.system.objects.decls }
        requires kind { (decl_at P.system.objects id).kind ≡ kinds.Fd }
        ensures ok { IfOk result (λ a. DoesRead P.system self.old self.new id count_length a) }
        ensures err { OnErr result (KeepsHandle P.system self.old self.new) }
    {
        self.system.read(rt, &mut self.me, id)
    }

    /// Accepts the signal of a POSIX timer, queued or not, if one is pending.
    pub fn accept<R: Wait>(&mut self, rt: &R, id: u32) -> Result<AcceptAnswer, AllocError>
        requires within { id < length P.system.objects.decls }
        requires kind { IsPosixKind (decl_at P.system.objects id).kind }
        ensures ok { IfOk result (λ a. DoesAccept P.system self.old self.new id a) }
        ensures err { OnErr result (KeepsHandle P.system self.old self.new) }
    {
        self.system.accept(rt, &mut self.me, id)
    }

    /// Begins a sleep of so long, or up to a time of the sleeper's clock.
    pub fn sleep<R: Wait>(
        &mut self,
        rt: &R,
        id: u32,
        flags: u64,
        time: TimeSpec,
    ) -> Result<SleepAnswer, AllocError>
        requires within { id < length P.system.objects.decls }
        requires kind { (decl_at P.system.objects id).kind ≡ kinds.Sleeper }
        ensures ok { IfOk result (λ a. DoesSleep P.system self.old self.new id flags time a) }
        ensures err { OnErr result (KeepsHandle P.system self.old self.new) }
    {
        self.system.sleep(rt, &mut self.me, id, flags, time)
    }

    /// Ends a sleep that goes on, or tells that its time has come.
    pub fn interrupt<R: Wait>(&mut self, rt: &R, id: u32) -> Result<InterruptAnswer, AllocError>
        requires within { id < length P.system.objects.decls }
        requires kind { (decl_at P.system.objects id).kind ≡ kinds.Sleeper }
        ensures ok { IfOk result (λ a. DoesInterrupt P.system self.old self.new id a) }
        ensures err { OnErr result (KeepsHandle P.system self.old self.new) }
    {
        self.system.interrupt(rt, &mut self.me, id)
    }

    /// Takes the oldest signal off the queue, and accepts it.
    pub fn next_signal<R: Wait>(&mut self, rt: &R) -> Result<NextSignal, AllocError>
        ensures ok { IfOk result (λ a. DoesNextSignal P.system self.old self.new a) }
        ensures err { OnErr result (KeepsHandle P.system self.old self.new) }
    {
        self.system.next_signal(rt, &mut self.me)
    }

    /// Whether a descriptor is ready to be read.
    pub fn readable<R: Wait>(&mut self, rt: &R, id: u32) -> Readable
        requires within { id < length P.system.objects.decls }
        requires kind { (decl_at P.system.objects id).kind ≡ kinds.Fd }
        ensures { DoesReadable P.system self.old self.new id result }
    {
        self.system.readable(rt, &mut self.me, id)
    }

    /// How many further periods had passed when the last signal of a POSIX timer was accepted.
    pub fn getoverrun<R: Wait>(&mut self, rt: &R, id: u32) -> Overrun
        requires within { id < length P.system.objects.decls }
        requires kind { IsPosixKind (decl_at P.system.objects id).kind }
        ensures { DoesGetoverrun P.system self.old self.new id result }
    {
        self.system.getoverrun(rt, &mut self.me, id)
    }

    /// Whether a sleep goes on, or its time has come, or neither.
    pub fn slept<R: Wait>(&mut self, rt: &R, id: u32) -> Slept
        requires within { id < length P.system.objects.decls }
        requires kind { (decl_at P.system.objects id).kind ≡ kinds.Sleeper }
        ensures { DoesSlept P.system self.old self.new id result }
    {
        self.system.slept(rt, &mut self.me, id)
    }
}
