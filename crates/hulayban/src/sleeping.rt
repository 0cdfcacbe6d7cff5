//! How long a thread may sleep for a base.
ghost use Rattle.std.specs.Prelude.{◌≡◌, ◌<◌};
ghost use Rattle.pass_names.specs.SharedHistory.{LooksOn};
ghost use Rattle.hr_timers.specs.Known.{IsPassOf};
ghost use Rattle.hulayban.specs.Expiries.{ContextWaits, DoesNextExpiry, FirstExpires, FirstWaits, lesser_wait};
ghost use Rattle.hulayban.specs.Systems.{IsHandleOf};

use crate::handle::Handle;
use crate::system::System;
use hr_timers::{NextAnswer, Pass, Timers};
use ktime::{ClockId, Reading};
use pass_names::Retries;
use seq_timer::Context;
use std::sync::Wait;

/// A base's timers of a context that are kept on a clock.
#[derive(Clone, Copy)]
struct Queue {
    context: Context,
    base: u32,
    clock: ClockId,
}

impl System {
    /// How many nanoseconds a base's first timer, of either context, still has to its hard expiry: 0 where that has come, `None` where no timer is armed
    /// there. It looks at one queue after another, so a timer that is armed behind that isn't counted.
    pub fn next_expiry<R: Wait>(&self, rt: &R, me: &mut Handle, base: u32) -> Option<u64>
        requires me { IsHandleOf self.now me.old }
        requires base { base < self.now.timers.about.bases }
        ensures { DoesNextExpiry self.now me.old me.new base result }
    {
        let reading = self.now(rt, me);
        let pass = &mut me.timers;
        let hard = wait_in(rt, &self.timers, pass, Context::Hard, base, reading);
        let soft = wait_in(rt, &self.timers, pass, Context::Soft, base, reading);
        lesser(hard, soft)
    }
}

/// The lesser of two waits.
fn lesser(first: Option<u64>, second: Option<u64>) -> Option<u64>
    ensures { result ≡ lesser_wait first second }
{
    match (first, second) {
        (None, wait) => wait,
        (wait, None) => wait,
        (Some(first), Some(second)) => Some(first.min(second)),
    }
}

/// The least wait for a timer of a context.
fn wait_in<R: Wait>(
    rt: &R,
    timers: &Timers,
    pass: &mut Pass,
    context: Context,
    base: u32,
    reading: Reading,
) -> Option<u64>
    requires pass { IsPassOf timers.now pass.old }
    requires base { base < timers.now.about.bases }
    ensures pass { IsPassOf timers.now pass.new }
    ensures waits { ContextWaits timers.now.about pass.old.known pass.new.known context base reading result }
{
    let on = |clock| Queue {
        context,
        base,
        clock,
    };
    let monotonic = wait_on(rt, timers, pass, on(ClockId::Monotonic), reading);
    let realtime = wait_on(rt, timers, pass, on(ClockId::Realtime), reading);
    let boottime = wait_on(rt, timers, pass, on(ClockId::Boottime), reading);
    lesser(monotonic, lesser(realtime, boottime))
}

/// How long the first timer of a queue still has.
fn wait_on<R: Wait>(
    rt: &R,
    timers: &Timers,
    pass: &mut Pass,
    queue: Queue,
    reading: Reading,
) -> Option<u64>
    requires pass { IsPassOf timers.now pass.old }
    requires base { queue.base < timers.now.about.bases }
    ensures pass { IsPassOf timers.now pass.new }
    ensures looks { LooksOn pass.old.known pass.new.known }
    ensures waits { FirstWaits timers.now.about pass.new.known queue.context queue.base queue.clock reading result }
{
    let expires = first_of(rt, timers, pass, queue)?;
    Some(expires.saturating_sub(reading.value(queue.clock)))
}

/// The hard expiry of the first timer of a queue.
fn first_of<R: Wait>(rt: &R, timers: &Timers, pass: &mut Pass, queue: Queue) -> Option<u64>
    requires pass { IsPassOf timers.now pass.old }
    requires base { queue.base < timers.now.about.bases }
    ensures pass { IsPassOf timers.now pass.new }
    ensures looks { LooksOn pass.old.known pass.new.known }
    ensures first { FirstExpires timers.now.about pass.new.known queue.context queue.base queue.clock result }
{
    let Queue {
        context,
        base,
        clock,
    } = queue;
    for _ in Retries::new(rt) {
        match timers.try_next(pass, context, base, clock) {
            NextAnswer::First { timer: _, expires } => return Some(expires),
            NextAnswer::NoneArmed => return None,
            NextAnswer::Contended => {}
        }
    }
    unreachable!()
}
