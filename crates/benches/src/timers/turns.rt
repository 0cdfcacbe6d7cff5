//! What the threads do: one kind of call, so many times.
ghost use Rattle.std.specs.Prelude.{◌≡◌, ◌*◌, ◌^◌, ◌<◌, ◌≤◌, length};
ghost use Rattle.benches.specs.WorkingTimers.{AreTwoPasses, IsUnclaimed, MadeEntries};

use crate::cases::Workers;
use crate::random::Random;
use crate::timers::single::{cancel, cancel_now, run_next, start};
use hr_timers::{Pass, Timers};
use std::sync::Wait;
use std::thread::{Threads, join_mut};

/// What a thread does in a turn, with a timer of its own.
#[derive(Clone, Copy, Debug, PartialEq, Eq)]
pub enum Op {
    StartCancel,
    StartCancelNow,
    /// A start that is due at once, then a claim of what is due on the base, and the claim's end.
    StartRun,
    Peek,
}

impl Op {
    pub fn name(self) -> &'static str {
        match self {
            Op::StartCancel => "start, cancel",
            Op::StartCancelNow => "start, cancel now",
            Op::StartRun => "start, claim, finish",
            Op::Peek => "peek",
        }
    }
}

/// A thread's own timer, and the base that it is on.
#[derive(Clone, Copy, Debug, PartialEq, Eq)]
struct Own {
    timer: u32,
    base: u32,
}

/// One turn. It answers how many entries it made.
fn turn<R: Wait>(
    rt: &R,
    timers: &Timers,
    pass: &mut Pass,
    own: Own,
    op: Op,
    random: &mut Random,
) -> u64
    requires ready { IsUnclaimed timers.now pass.old }
    requires within { (own.timer < length timers.now.about.timers) × (own.base < timers.now.about.bases) }
    requires bases { timers.now.about.bases ≡ 2 }
    ensures ready { IsUnclaimed timers.now pass.new }
    ensures worked { MadeEntries result pass.old pass.new }
    ensures most { result ≤ 5 }
{
    let Own { timer, base } = own;
    match op {
        Op::StartCancel => {
            let made = start(rt, timers, pass, timer, base, 2000 + random.expiry());
            made + cancel(rt, timers, pass, timer)
        }
        Op::StartCancelNow => {
            let made = start(rt, timers, pass, timer, base, 2000 + random.expiry());
            made + cancel_now(timers, pass, timer)
        }
        Op::StartRun => {
            let made = start(rt, timers, pass, timer, base, 500);
            made + run_next(rt, timers, pass, base)
        }
        Op::Peek => {
            timers.peek(pass, timer);
            0
        }
    }
}

/// So many turns of a thread.
fn turns<R: Wait>(rt: &R, timers: &Timers, pass: &mut Pass, own: Own, op: Op, times: u64) -> u64
    requires ready { IsUnclaimed timers.now pass.old }
    requires within { (own.timer < length timers.now.about.timers) × (own.base < timers.now.about.bases) }
    requires bases { timers.now.about.bases ≡ 2 }
    requires few { times < 2 ^ 32 }
    ensures ready { IsUnclaimed timers.now pass.new }
    ensures worked { MadeEntries result pass.old pass.new }
    ensures most { result ≤ 5 * times }
{
    let mut random = Random::of(u64::from(own.timer));
    let mut made = 0;
    for _ in 0..times {
        made += turn(rt, timers, pass, own, op, &mut random);
    }
    made
}

/// A thread's turns on base 0, and where another base is named, those of a second thread there. It answers how many entries they made.
pub fn turns_of_all<R: Threads + Wait + Sync>(
    rt: &R,
    timers: &Timers,
    first: &mut Pass,
    second: &mut Pass,
    workers: Workers,
    op: Op,
    times: u64,
) -> u64
    requires both { AreTwoPasses timers.now first.old second.old }
    requires size { (timers.now.about.bases ≡ 2) × (2 ≤ length timers.now.about.timers) }
    requires few { times < 2 ^ 32 }
    ensures both { AreTwoPasses timers.now first.new second.new }
    ensures most { result ≤ 10 * times }
{
    let own = Own { timer: 0, base: 0 };
    let Some(base) = workers.second() else {
        return turns(rt, timers, first, own, op, times);
    };
    let other = Own { timer: 1, base };
    let (one, two) = join_mut(
        rt,
        &mut || turns(rt, timers, first, own, op, times),
        &mut || turns(rt, timers, second, other, op, times),
    );
    one + two
}
