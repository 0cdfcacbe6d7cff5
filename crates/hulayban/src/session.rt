//! A thread at work by its handle. Its calls are those of `System`, and none has a condition on the handle.
ghost use Rattle.std.specs.Prelude.{◌≡◌, ◌≤◌, ◌<◌, ℕ, length, IfOk, OnErr};
ghost use Rattle.ktime.specs.declared.write.Write.TheVariants as writing;
ghost use Rattle.seq_timer.specs.declared.answer.CancelAnswer.TheVariants as cancels;
ghost use Rattle.seq_timer.specs.declared.context.Context.TheVariants as contexts;
ghost use Rattle.hr_timers.specs.Handlers.{CanServe};
ghost use Rattle.hulayban.specs.Calls.{DoesCancel, DoesCancelNow, DoesNow, DoesPeek, DoesStart, DoesWrite};
ghost use Rattle.hulayban.specs.Expiries.{DoesNextExpiry};
ghost use Rattle.hulayban.specs.Places.{IsHandleAt};
ghost use Rattle.hulayban.specs.Serving.{DoesExpire};
ghost use Rattle.hulayban.specs.Systems.{KeepsHandle};

use crate::handle::Handle;
use crate::place::Place;
use crate::system::System;
use crate::timers::Request;
use clock_cell::WriteAnswer;
use hr_timers::{ExpireAnswer, Handler, NowAnswer, StartAnswer};
use ktime::{Reading, Write};
use seq_timer::{CancelAnswer, Peek};
use std::alloc::AllocError;
use std::marker::{Model, PhantomData};
use std::sync::Wait;

/// A handle of the system of this place.
pub struct Session<'s, P: Place> {
    pub(crate) system: &'s System,
    pub(crate) me: Handle,
    place: PhantomData<P>,
}

impl<'s, P: Place> Model for Session<'s, P> {
    ghost use Rattle.std.specs.Prelude.{◌≡◌};
    ghost use Rattle.hulayban.specs.Places.{IsHandleAt};
    ghost use Rattle.hulayban.specs.Systems.{HandleOf};

    ghost Value = { HandleOf };

    ghost view = { λ s. s.me };

    ghost invariant = { λ s. (s.system.now ≡ P.system) × IsHandleAt P.system P.name s.me };
}

impl<'s, P: Place> Session<'s, P> {
    /// A session by a handle.
    pub(crate) fn begin(system: &'s System, me: Handle) -> Session<'s, P>
        requires system { system.now ≡ P.system }
        requires me { IsHandleAt P.system P.name me }
        ensures { result ≡ me }
    {
        Session {
            system,
            me,
            place: PhantomData,
        }
    }

    /// Gives the handle back.
    pub(crate) fn end(self) -> Handle
        ensures handle { result ≡ self.entry }
        ensures at { IsHandleAt P.system P.name result }
    {
        let Session {
            system: _,
            me,
            place: _,
        } = self;
        me
    }

    /// The clock as it is at a moment of the call.
    pub fn now<R: Wait>(&mut self, rt: &R) -> Reading
        ensures { DoesNow P.system self.old self.new result }
    {
        self.system.now(rt, &mut self.me)
    }

    /// Makes one write of the clock, or refuses it.
    pub fn write<R: Wait>(&mut self, rt: &R, write: Write) -> WriteAnswer
        ensures { DoesWrite P.system self.old self.new write result }
    {
        self.system.write(rt, &mut self.me, write)
    }

    /// Time passes, in nanoseconds.
    pub fn advance<R: Wait>(&mut self, rt: &R, by: u64) -> WriteAnswer
        ensures { DoesWrite P.system self.old self.new (writing.Advance by) result }
    {
        self.system.advance(rt, &mut self.me, by)
    }

    /// Sets the time of day, in nanoseconds.
    pub fn set_real<R: Wait>(&mut self, rt: &R, to: u64) -> WriteAnswer
        ensures { DoesWrite P.system self.old self.new (writing.Set to) result }
    {
        self.system.set_real(rt, &mut self.me, to)
    }

    /// The machine sleeps, for so many nanoseconds.
    pub fn suspend<R: Wait>(&mut self, rt: &R, by: u64) -> WriteAnswer
        ensures { DoesWrite P.system self.old self.new (writing.Suspend by) result }
    {
        self.system.suspend(rt, &mut self.me, by)
    }

    /// Arms a timer.
    pub fn start<R: Wait>(&mut self, rt: &R, timer: u32, request: Request) -> StartAnswer
        requires timer { timer < length P.system.timers.about.timers }
        requires base { request.base < P.system.timers.about.bases }
        ensures { DoesStart P.system self.old self.new timer request result }
    {
        self.system.start(rt, &mut self.me, timer, request)
    }

    /// Disarms a timer, if its function isn't running.
    pub fn try_to_cancel<R: Wait>(&mut self, rt: &R, timer: u32) -> CancelAnswer
        requires timer { timer < length P.system.timers.about.timers }
        ensures { DoesCancel P.system self.old self.new timer result }
    {
        self.system.try_to_cancel(rt, &mut self.me, timer)
    }

    /// Disarms a timer, once its function isn't running.
    pub fn cancel<R: Wait>(&mut self, rt: &R, timer: u32) -> CancelAnswer
        requires timer { timer < length P.system.timers.about.timers }
        ensures cancels { DoesCancel P.system self.old self.new timer result }
        ensures ended { (g n : ℕ) → result ≡ cancels.Running g n → ⊥ }
    {
        self.system.cancel(rt, &mut self.me, timer)
    }

    /// Disarms a timer, if its function isn't running, at one try that waits for nobody.
    pub fn cancel_now(&mut self, timer: u32) -> NowAnswer
        requires timer { timer < length P.system.timers.about.timers }
        ensures { DoesCancelNow P.system self.old self.new timer result }
    {
        self.system.cancel_now(&mut self.me, timer)
    }

    /// Whether a timer is armed, runs or moves, and on which base.
    pub fn peek(&mut self, timer: u32) -> Peek
        requires timer { timer < length P.system.timers.about.timers }
        ensures { DoesPeek P.system self.old self.new timer result }
    {
        self.system.peek(&mut self.me, timer)
    }

    /// How many nanoseconds a base's first timer still has to its hard expiry: 0 where that has come, `None` where no timer is armed there.
    pub fn next_expiry<R: Wait>(&mut self, rt: &R, base: u32) -> Option<u64>
        requires base { base < P.system.timers.about.bases }
        ensures { DoesNextExpiry P.system self.old self.new base result }
    {
        self.system.next_expiry(rt, &mut self.me, base)
    }

    /// Runs the functions of at most so many timers of the hard context that are due on a base.
    pub fn expire<R: Wait, H: Handler>(
        &mut self,
        rt: &R,
        base: u32,
        budget: u32,
        own: &mut H,
    ) -> Result<ExpireAnswer, AllocError>
        requires base { base < P.system.timers.about.bases }
        requires ready { budget ≤ H.meaning.ready own.old }
        requires suits { CanServe H.meaning P.system.timers.about own.old }
        ensures ok { IfOk result (λ a. DoesExpire H.meaning P.system self.old self.new contexts.Hard base budget own.old own.new a) }
        ensures err { OnErr result (KeepsHandle P.system self.old self.new × (own.new ≡ own.old)) }
    {
        self.system.expire(rt, &mut self.me, base, budget, own)
    }

    /// The same for timers of the soft context.
    pub fn expire_soft<R: Wait, H: Handler>(
        &mut self,
        rt: &R,
        base: u32,
        budget: u32,
        own: &mut H,
    ) -> Result<ExpireAnswer, AllocError>
        requires base { base < P.system.timers.about.bases }
        requires ready { budget ≤ H.meaning.ready own.old }
        requires suits { CanServe H.meaning P.system.timers.about own.old }
        ensures ok { IfOk result (λ a. DoesExpire H.meaning P.system self.old self.new contexts.Soft base budget own.old own.new a) }
        ensures err { OnErr result (KeepsHandle P.system self.old self.new × (own.new ≡ own.old)) }
    {
        self.system.expire_soft(rt, &mut self.me, base, budget, own)
    }
}
