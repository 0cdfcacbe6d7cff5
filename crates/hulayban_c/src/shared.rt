//! Timers for threads of C, each with a seat of its own. Every call tries each lock once, and waits for nobody.
ghost use Rattle.std.specs.Prelude.{◌≡◌};
ghost use Rattle.hulayban_c.specs.Calls.{OnTimers};
ghost use Rattle.hulayban_c.specs.Shared.{SharedCancel, SharedClaim, SharedFinish, SharedForward, SharedNext, SharedPeek, SharedStart};
ghost use Rattle.hulayban_c.specs.SharedSeats.{SharedLeave, SharedOpen, SharedSplit};

use crate::codes::{CARRIES, DONE, HOLDS_CLAIM, IN_USE, NO_MEMORY, NO_TIMERS};
use crate::crossing::{Declares, Time};
use crate::told::on_timers;
use answer::SharedAnswer;
use handle::SeatHandle;
use held::Held;
use opening::{fault_shared, open_shared};
use std::alloc::Global;

mod answer;
mod asking;
mod calls;
mod handle;
mod held;
mod laws;
mod opening;
mod seat;
mod starting;
mod told;
mod waiting;

/// Makes timers that threads share, and their first seat: 1 to 64 bases, at most 2^24 timers, and a limit on entries from 1 to 2^48 - 16.
#[unsafe(no_mangle)]
pub extern "C" fn hrt_shared_open(
    alloc: Global,
    seat: &mut SeatHandle,
    bases: u32,
    declares: &[Declares],
    max_events: u64,
) -> i32
    ensures { SharedOpen seat.old.kept bases declares.now max_events result seat.new.kept }
{
    if let Some(before) = seat.take(alloc) {
        seat.put(before);
        return IN_USE;
    }
    if let Some(code) = fault_shared(bases, declares, max_events) {
        return code;
    }
    let Ok(first) = open_shared(alloc, bases, declares, max_events) else {
        return NO_MEMORY;
    };
    seat.put(first);
    DONE
}

/// Makes one more seat at the timers of a seat, for another thread.
#[unsafe(no_mangle)]
pub extern "C" fn hrt_shared_split(
    alloc: Global,
    seat: &mut SeatHandle,
    new_seat: &mut SeatHandle,
) -> i32
    ensures { SharedSplit seat.old.kept new_seat.old.kept result seat.new.kept new_seat.new.kept }
{
    let Some(mut main) = seat.take(alloc) else {
        return NO_TIMERS;
    };
    if let Some(before) = new_seat.take(alloc) {
        new_seat.put(before);
        seat.put(main);
        return IN_USE;
    }
    let made = main.split(alloc);
    seat.put(main);
    match made {
        Ok(other) => {
            new_seat.put(other);
            DONE
        }
        Err(code) => code,
    }
}

/// Gives a seat back. The last one frees the timers.
#[unsafe(no_mangle)]
pub extern "C" fn hrt_shared_leave(alloc: Global, seat: &mut SeatHandle) -> i32
    ensures { SharedLeave seat.old.kept result seat.new.kept }
{
    let Some(left) = seat.take(alloc) else {
        return NO_TIMERS;
    };
    if let Held::Carries(_) = &left.held {
        seat.put(left);
        return CARRIES;
    }
    if left.claim.is_some() {
        seat.put(left);
        return HOLDS_CLAIM;
    }
    drop(left);
    DONE
}

/// Arms a timer on a base (`hrtimer_start_range_ns`). Where it has to go to another base and doesn't get the lock there, the seat carries it.
#[unsafe(no_mangle)]
#[tactic(auto, using(crate::proofs::Returned::on_timers))]
pub extern "C" fn hrt_shared_start(
    alloc: Global,
    seat: &mut SeatHandle,
    timer: u32,
    mode: u32,
    ns: u64,
    slack: u64,
    base: u32,
    now: &Time,
    out: &mut SharedAnswer,
) -> i32
    ensures { OnTimers (λ old told new. SharedStart old timer mode ns slack base now.now told new) seat.old.kept seat.new.kept result out.old out.new }
{
    on_timers!(alloc, out, seat.start(timer, mode, ns, slack, base, now))
}

/// Disarms a timer, if its function isn't running (`hrtimer_try_to_cancel`).
#[unsafe(no_mangle)]
#[tactic(auto, using(crate::proofs::Returned::on_timers))]
pub extern "C" fn hrt_shared_cancel(
    alloc: Global,
    seat: &mut SeatHandle,
    timer: u32,
    out: &mut SharedAnswer,
) -> i32
    ensures { OnTimers (λ old told new. SharedCancel old timer told new) seat.old.kept seat.new.kept result out.old out.new }
{
    on_timers!(alloc, out, seat.cancel(timer))
}

/// Claims the timer of a context that is the next to expire on a base: its function is to run, and the seat has the claim.
#[unsafe(no_mangle)]
#[tactic(auto, using(crate::proofs::Returned::on_timers))]
pub extern "C" fn hrt_shared_claim(
    alloc: Global,
    seat: &mut SeatHandle,
    context: u32,
    base: u32,
    now: &Time,
    out: &mut SharedAnswer,
) -> i32
    ensures { OnTimers (λ old told new. SharedClaim old context base now.now told new) seat.old.kept seat.new.kept result out.old out.new }
{
    on_timers!(alloc, out, seat.claim(context, base, now))
}

/// Moves the expiry of the timer of the seat's claim past the reading by whole intervals (`hrtimer_forward`).
#[unsafe(no_mangle)]
#[tactic(auto, using(crate::proofs::Returned::on_timers))]
pub extern "C" fn hrt_shared_forward(
    alloc: Global,
    seat: &mut SeatHandle,
    timer: u32,
    now: &Time,
    interval: u64,
    out: &mut SharedAnswer,
) -> i32
    ensures { OnTimers (λ old told new. SharedForward old timer now.now interval told new) seat.old.kept seat.new.kept result out.old out.new }
{
    on_timers!(alloc, out, seat.forward(timer, now, interval))
}

/// Ends the run of the function of the seat's claim. Any number but 0 asks for a restart.
#[unsafe(no_mangle)]
#[tactic(auto, using(crate::proofs::Returned::on_timers))]
pub extern "C" fn hrt_shared_finish(
    alloc: Global,
    seat: &mut SeatHandle,
    timer: u32,
    restart: u32,
    out: &mut SharedAnswer,
) -> i32
    ensures { OnTimers (λ old told new. SharedFinish old timer restart told new) seat.old.kept seat.new.kept result out.old out.new }
{
    on_timers!(alloc, out, seat.finish(timer, restart))
}

/// How long this thread may leave a base alone: the least wait that a look at each of its queues finds.
#[unsafe(no_mangle)]
#[tactic(auto, using(crate::proofs::Returned::on_timers))]
pub extern "C" fn hrt_shared_next(
    alloc: Global,
    seat: &mut SeatHandle,
    base: u32,
    now: &Time,
    out: &mut SharedAnswer,
) -> i32
    ensures { OnTimers (λ old told new. SharedNext old base now.now told new) seat.old.kept seat.new.kept result out.old out.new }
{
    on_timers!(alloc, out, seat.next(base, now))
}

/// How a timer is, by one load of its word.
#[unsafe(no_mangle)]
#[tactic(auto, using(crate::proofs::Returned::on_timers))]
pub extern "C" fn hrt_shared_peek(
    alloc: Global,
    seat: &mut SeatHandle,
    timer: u32,
    out: &mut SharedAnswer,
) -> i32
    ensures { OnTimers (λ old told new. SharedPeek old timer told new) seat.old.kept seat.new.kept result out.old out.new }
{
    on_timers!(alloc, out, seat.peek(timer))
}
