//! Timers for callers in C: on one thread at a time, and in `shared` on many. `include/hrt.h` declares the exports for C.
#![tactic(auto)]

ghost use Rattle.std.specs.Prelude.{◌≡◌, None};
ghost use Rattle.hulayban_c.specs.declared.codes.TheConstants.{DONE};
ghost use Rattle.hulayban_c.specs.Calls.{AnswersCancel, AnswersClaim, AnswersFinish, AnswersForward, OnTimers, AnswersNew, AnswersNext, AnswersPeek, AnswersStart};

use codes::{DONE, IN_USE, NO_MEMORY};
use crossing::{Answer, Declares, Time};
use handle::Handle;
use opening::{fault_new, open};
use std::alloc::Global;
use told::on_timers;

mod calls;
mod codes;
mod crossing;
mod handle;
mod home;
mod opening;
mod shared;
mod told;
mod unboxed;

/// Puts new timers behind a handle that has none: 1 to 64 bases, fewer than 2^32 timers, and a limit on entries from 1 to 2^48 - 16.
#[unsafe(no_mangle)]
pub extern "C" fn hrt_new(
    alloc: Global,
    timers: &mut Handle,
    bases: u32,
    declares: &[Declares],
    max_events: u64,
) -> i32
    ensures { AnswersNew timers.old.kept bases declares.now max_events result timers.new.kept }
{
    if let Some(home) = timers.take(alloc) {
        timers.put(home);
        return IN_USE;
    }
    if let Some(code) = fault_new(bases, declares, max_events) {
        return code;
    }
    let Ok(home) = open(alloc, bases, declares, max_events) else {
        return NO_MEMORY;
    };
    timers.put(home);
    DONE
}

/// Frees all timers of a handle, if it has any.
#[unsafe(no_mangle)]
pub extern "C" fn hrt_free(alloc: Global, timers: &mut Handle) -> i32
    ensures { (result ≡ DONE) × (timers.new.kept ≡ None) }
{
    drop(timers.take(alloc));
    DONE
}

/// Arms a timer on a base (`hrtimer_start_range_ns`).
#[unsafe(no_mangle)]
#[tactic(auto, using(crate::proofs::Returned::on_timers))]
pub extern "C" fn hrt_start(
    alloc: Global,
    timers: &mut Handle,
    timer: u32,
    mode: u32,
    ns: u64,
    slack: u64,
    base: u32,
    now: &Time,
    out: &mut Answer,
) -> i32
    ensures { OnTimers (λ old told new. AnswersStart old timer mode ns slack base now.now told new) timers.old.kept timers.new.kept result out.old out.new }
{
    on_timers!(alloc, out, timers.start(timer, mode, ns, slack, base, now))
}

/// Disarms a timer, if its function isn't running (`hrtimer_try_to_cancel`).
#[unsafe(no_mangle)]
#[tactic(auto, using(crate::proofs::Returned::on_timers))]
pub extern "C" fn hrt_cancel(
    alloc: Global,
    timers: &mut Handle,
    timer: u32,
    out: &mut Answer,
) -> i32
    ensures { OnTimers (λ old told new. AnswersCancel old timer told new) timers.old.kept timers.new.kept result out.old out.new }
{
    on_timers!(alloc, out, timers.cancel(timer))
}

/// Claims the timer of a context that is the next to expire on a base: its function is to run.
#[unsafe(no_mangle)]
#[tactic(auto, using(crate::proofs::Returned::on_timers))]
pub extern "C" fn hrt_claim(
    alloc: Global,
    timers: &mut Handle,
    context: u32,
    base: u32,
    now: &Time,
    out: &mut Answer,
) -> i32
    ensures { OnTimers (λ old told new. AnswersClaim old context base now.now told new) timers.old.kept timers.new.kept result out.old out.new }
{
    on_timers!(alloc, out, timers.claim(context, base, now))
}

/// Moves the expiry of a timer whose function runs past the reading by whole intervals (`hrtimer_forward`).
#[unsafe(no_mangle)]
#[tactic(auto, using(crate::proofs::Returned::on_timers))]
pub extern "C" fn hrt_forward(
    alloc: Global,
    timers: &mut Handle,
    timer: u32,
    now: &Time,
    interval: u64,
    out: &mut Answer,
) -> i32
    ensures { OnTimers (λ old told new. AnswersForward old timer now.now interval told new) timers.old.kept timers.new.kept result out.old out.new }
{
    on_timers!(alloc, out, timers.forward(timer, now, interval))
}

/// Ends the run of a timer's function. Any number but 0 asks for a restart.
#[unsafe(no_mangle)]
#[tactic(auto, using(crate::proofs::Returned::on_timers))]
pub extern "C" fn hrt_finish(
    alloc: Global,
    timers: &mut Handle,
    timer: u32,
    restart: u32,
    out: &mut Answer,
) -> i32
    ensures { OnTimers (λ old told new. AnswersFinish old timer restart told new) timers.old.kept timers.new.kept result out.old out.new }
{
    on_timers!(alloc, out, timers.finish(timer, restart))
}

/// How long a base may be left alone: the least time that a timer which is armed there still has to its expiry.
#[unsafe(no_mangle)]
#[tactic(auto, using(crate::proofs::Returned::on_timers))]
pub extern "C" fn hrt_next(
    alloc: Global,
    timers: &mut Handle,
    base: u32,
    now: &Time,
    out: &mut Answer,
) -> i32
    ensures { OnTimers (λ old told new. AnswersNext old base now.now told new) timers.old.kept timers.new.kept result out.old out.new }
{
    on_timers!(alloc, out, timers.next(base, now))
}

/// How a timer is kept.
#[unsafe(no_mangle)]
#[tactic(auto, using(crate::proofs::Returned::on_timers))]
pub extern "C" fn hrt_peek(alloc: Global, timers: &mut Handle, timer: u32, out: &mut Answer) -> i32
    ensures { OnTimers (λ old told new. AnswersPeek old timer told new) timers.old.kept timers.new.kept result out.old out.new }
{
    on_timers!(alloc, out, timers.peek(timer))
}
