//! The calls on timers by themselves.
ghost use Rattle.std.specs.Prelude.{◌≡◌, ◌<◌, ℕ, length};
ghost use Rattle.ktime.specs.declared.mode.Mode.TheVariants as modes;
ghost use Rattle.seq_timer.specs.declared.answer.CancelAnswer.TheVariants as cancels;
ghost use Rattle.hulayban.specs.Calls.{DoesCancel, DoesCancelNow, DoesPeek, DoesStart};
ghost use Rattle.hulayban.specs.Systems.{IsHandleOf};

use crate::handle::Handle;
use crate::system::System;
use hr_timers::{NowAnswer, StartAnswer};
use ktime::Mode;
use seq_timer::{CancelAnswer, Peek};
use std::sync::Wait;

/// What a start asks for: the soft expiry, which is read by its mode, how much later the hard one is, and the base.
#[derive(Clone, Copy, Debug, PartialEq, Eq)]
pub struct Request {
    pub mode: Mode,
    pub ns: u64,
    pub slack: u64,
    pub base: u32,
}

impl Request {
    /// To expire so many nanoseconds from now, on base 0.
    pub fn after(ns: u64) -> Request
        ensures { result ≡ record { mode = modes.Rel; ns = ns; slack = 0; base = 0 } }
    {
        Request {
            mode: Mode::Rel,
            ns,
            slack: 0,
            base: 0,
        }
    }
}

impl System {
    /// Arms a timer (`hrtimer_start_range_ns`). One that an object stands over is for the object's calls alone.
    pub fn start<R: Wait>(
        &self,
        rt: &R,
        me: &mut Handle,
        timer: u32,
        request: Request,
    ) -> StartAnswer
        requires me { IsHandleOf self.now me.old }
        requires timer { timer < length self.now.timers.about.timers }
        requires base { request.base < self.now.timers.about.bases }
        ensures { DoesStart self.now me.old me.new timer request result }
    {
        let reading = self.now(rt, me);
        let Request {
            mode,
            ns,
            slack,
            base,
        } = request;
        let pass = &mut me.timers;
        self.timers
            .start_range(rt, pass, timer, mode, ns, slack, base, reading)
    }

    /// Disarms a timer, if its function isn't running (`hrtimer_try_to_cancel`).
    pub fn try_to_cancel<R: Wait>(&self, rt: &R, me: &mut Handle, timer: u32) -> CancelAnswer
        requires me { IsHandleOf self.now me.old }
        requires timer { timer < length self.now.timers.about.timers }
        ensures { DoesCancel self.now me.old me.new timer result }
    {
        self.timers.try_to_cancel(rt, &mut me.timers, timer)
    }

    /// Disarms a timer, once its function isn't running (`hrtimer_cancel`). That function itself can't call it.
    pub fn cancel<R: Wait>(&self, rt: &R, me: &mut Handle, timer: u32) -> CancelAnswer
        requires me { IsHandleOf self.now me.old }
        requires timer { timer < length self.now.timers.about.timers }
        ensures cancels { DoesCancel self.now me.old me.new timer result }
        ensures ended { (g n : ℕ) → result ≡ cancels.Running g n → ⊥ }
    {
        hr_timers::cancel(rt, &self.timers, &mut me.timers, timer)
    }

    /// Disarms a timer, if its function isn't running, at one try that waits for nobody.
    pub fn cancel_now(&self, me: &mut Handle, timer: u32) -> NowAnswer
        requires me { IsHandleOf self.now me.old }
        requires timer { timer < length self.now.timers.about.timers }
        ensures { DoesCancelNow self.now me.old me.new timer result }
    {
        self.timers.cancel_now(&mut me.timers, timer)
    }

    /// Whether a timer is armed, runs or moves, and on which base: its state word, at one load.
    pub fn peek(&self, me: &mut Handle, timer: u32) -> Peek
        requires me { IsHandleOf self.now me.old }
        requires timer { timer < length self.now.timers.about.timers }
        ensures { DoesPeek self.now me.old me.new timer result }
    {
        self.timers.peek(&mut me.timers, timer)
    }
}
