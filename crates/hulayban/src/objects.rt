//! The calls on objects.
ghost use Rattle.std.specs.Prelude.{◌≡◌, ◌<◌, length, IfOk, OnErr};
ghost use Rattle.timer_fd.specs.Steps.{count_length};
ghost use Rattle.timer_objects.specs.Calls.{HasSetting, IsPosixKind};
ghost use Rattle.timer_objects.specs.Known.{decl_at};
ghost use Rattle.timer_objects.specs.declared.object.Kind.TheVariants as kinds;
ghost use Rattle.hulayban.specs.Calls.{DoesAccept, DoesGettime, DoesInterrupt, DoesRead, DoesSettime, DoesSleep, settime_every};
ghost use Rattle.hulayban.specs.Systems.{IsHandleOf, KeepsHandle};

use crate::handle::Handle;
use crate::system::System;
use ktime::TimeSpec;
use std::alloc::AllocError;
use std::sync::Wait;
use timer_objects::Gettime;
use timer_setting::{AcceptAnswer, InterruptAnswer, ReadAnswer, SettimeAnswer, SleepAnswer};

/// What a settime asks for.
#[derive(Clone, Copy, Debug, PartialEq, Eq)]
pub struct Settime {
    pub flags: u64,
    pub value: TimeSpec,
    pub interval: TimeSpec,
}

impl Settime {
    /// To expire after so many nanoseconds, and then at each of these intervals.
    pub fn every(ns: u64) -> Settime
        ensures { result ≡ settime_every ns }
    {
        let every = TimeSpec {
            sec: ns / 1_000_000_000,
            nsec: ns % 1_000_000_000,
        };
        Settime {
            flags: 0,
            value: every,
            interval: every,
        }
    }
}

/// A call on an object by a reading of the clock, with the handle's logs.
macro_rules! on_object {
    ($system:ident, $rt:ident, $me:ident; $call:ident($($word:expr),+)) => {{
        let reading = $system.now($rt, $me);
        $me.logs.make_room()?;
        let answer = $system.objects.$call(
            $rt,
            &$system.timers,
            &mut $me.timers,
            &mut $me.objects,
            &mut $me.logs.timers,
            &mut $me.logs.objects,
            $($word),+,
            reading,
        );
        Ok(answer)
    }};
}

impl System {
    /// Arms an object's timer anew, or disarms it by the value 0 (`timer_settime`, `timerfd_settime`).
    #[tactic(auto, using(crate::proofs::Whole::noted_few))]
    pub fn settime<R: Wait>(
        &self,
        rt: &R,
        me: &mut Handle,
        id: u32,
        setting: Settime,
    ) -> Result<SettimeAnswer, AllocError>
        requires me { IsHandleOf self.now me.old }
        requires within { id < length self.now.objects.decls }
        requires kind { HasSetting (decl_at self.now.objects id).kind }
        ensures ok { IfOk result (λ a. DoesSettime self.now me.old me.new id setting a) }
        ensures err { OnErr result (KeepsHandle self.now me.old me.new) }
    {
        let Settime {
            flags,
            value,
            interval,
        } = setting;
        on_object!(self, rt, me; settime(id, flags, value, interval))
    }

    /// How long until the next expiry, and the interval (`timer_gettime`, `timerfd_gettime`).
    #[tactic(auto, using(crate::proofs::Whole::noted_few))]
    pub fn gettime<R: Wait>(&self, rt: &R, me: &mut Handle, id: u32) -> Result<Gettime, AllocError>
        requires me { IsHandleOf self.now me.old }
        requires within { id < length self.now.objects.decls }
        requires kind { HasSetting (decl_at self.now.objects id).kind }
        ensures ok { IfOk result (λ a. DoesGettime self.now me.old me.new id a) }
        ensures err { OnErr result (KeepsHandle self.now me.old me.new) }
    {
        on_object!(self, rt, me; gettime(id))
    }

    /// Reads how often a descriptor has expired (`read(2)` into a buffer of 8 bytes).
    pub fn read<R: Wait>(&self, rt: &R, me: &mut Handle, id: u32) -> Result<ReadAnswer, AllocError>
        requires me { IsHandleOf self.now me.old }
        requires within { id < length self.now.objects.decls }
        requires kind { (decl_at self.now.objects id).kind ≡ kinds.Fd }
        ensures ok { IfOk result (λ a. DoesRead self.now me.old me.new id count_length a) }
        ensures err { OnErr result (KeepsHandle self.now me.old me.new) }
    {
        self.read_into(rt, me, id, 8)
    }

    /// The same into a buffer of so many bytes.
    #[tactic(auto, using(crate::proofs::Whole::noted_few))]
    fn read_into<R: Wait>(
        &self,
        rt: &R,
        me: &mut Handle,
        id: u32,
        len: u64,
    ) -> Result<ReadAnswer, AllocError>
        requires me { IsHandleOf self.now me.old }
        requires within { id < length self.now.objects.decls }
        requires kind { (decl_at self.now.objects id).kind ≡ kinds.Fd }
        ensures ok { IfOk result (λ a. DoesRead self.now me.old me.new id len a) }
        ensures err { OnErr result (KeepsHandle self.now me.old me.new) }
    {
        on_object!(self, rt, me; read(id, len))
    }

    /// Accepts the signal of a POSIX timer, queued or not, if one is pending (`sigwait` for that timer alone).
    #[tactic(auto, using(crate::proofs::Whole::noted_few))]
    pub fn accept<R: Wait>(
        &self,
        rt: &R,
        me: &mut Handle,
        id: u32,
    ) -> Result<AcceptAnswer, AllocError>
        requires me { IsHandleOf self.now me.old }
        requires within { id < length self.now.objects.decls }
        requires kind { IsPosixKind (decl_at self.now.objects id).kind }
        ensures ok { IfOk result (λ a. DoesAccept self.now me.old me.new id a) }
        ensures err { OnErr result (KeepsHandle self.now me.old me.new) }
    {
        on_object!(self, rt, me; accept(id))
    }

    /// Begins a sleep of so long, or up to a time of the sleeper's clock (`clock_nanosleep`). It doesn't put its caller to sleep: `slept` tells how it goes on.
    #[tactic(auto, using(crate::proofs::Whole::noted_few))]
    pub fn sleep<R: Wait>(
        &self,
        rt: &R,
        me: &mut Handle,
        id: u32,
        flags: u64,
        time: TimeSpec,
    ) -> Result<SleepAnswer, AllocError>
        requires me { IsHandleOf self.now me.old }
        requires within { id < length self.now.objects.decls }
        requires kind { (decl_at self.now.objects id).kind ≡ kinds.Sleeper }
        ensures ok { IfOk result (λ a. DoesSleep self.now me.old me.new id flags time a) }
        ensures err { OnErr result (KeepsHandle self.now me.old me.new) }
    {
        on_object!(self, rt, me; sleep(id, flags, time))
    }

    /// Ends a sleep that goes on, as a signal does, or tells that its time has come. The sleeper is free then.
    #[tactic(auto, using(crate::proofs::Whole::noted_few))]
    pub fn interrupt<R: Wait>(
        &self,
        rt: &R,
        me: &mut Handle,
        id: u32,
    ) -> Result<InterruptAnswer, AllocError>
        requires me { IsHandleOf self.now me.old }
        requires within { id < length self.now.objects.decls }
        requires kind { (decl_at self.now.objects id).kind ≡ kinds.Sleeper }
        ensures ok { IfOk result (λ a. DoesInterrupt self.now me.old me.new id a) }
        ensures err { OnErr result (KeepsHandle self.now me.old me.new) }
    {
        on_object!(self, rt, me; interrupt(id))
    }
}
