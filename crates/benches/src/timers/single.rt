//! Single calls of a pass that has no claims. Each answers how many entries it made.
ghost use Rattle.std.specs.Prelude.{◌≡◌, ◌+◌, ◌<◌, ◌≤◌, length};
ghost use Rattle.benches.specs.WorkingTimers.{IsUnclaimed, MadeEntries};

use hr_timers::{ClaimAnswer, NowAnswer, Pass, Timers};
use ktime::{Mode, Reading};
use seq_timer::{Asked, CancelAnswer};
use shared_timer_uses::Counted;
use std::sync::Wait;

/// The time of all calls.
pub const NOW: u64 = 1000;

pub fn start<R: Wait>(
    rt: &R,
    timers: &Timers,
    pass: &mut Pass,
    timer: u32,
    base: u32,
    ns: u64,
) -> u64
    requires ready { IsUnclaimed timers.now pass.old }
    requires within { (timer < length timers.now.about.timers) × (base < timers.now.about.bases) }
    ensures ready { IsUnclaimed timers.now pass.new }
    ensures worked { MadeEntries result pass.old pass.new }
    ensures most { result ≤ base + 2 }
{
    let asked = Asked {
        mode: Mode::Abs,
        ns,
        slack: 0,
        reading: Reading::at(NOW),
        base,
    };
    let mut counted = Counted { made: 0 };
    timers.start_logged(rt, pass, &mut counted, timer, &asked);
    counted.made
}

pub fn cancel<R: Wait>(rt: &R, timers: &Timers, pass: &mut Pass, timer: u32) -> u64
    requires ready { IsUnclaimed timers.now pass.old }
    requires within { timer < length timers.now.about.timers }
    ensures ready { IsUnclaimed timers.now pass.new }
    ensures worked { MadeEntries result pass.old pass.new }
    ensures most { result ≤ 1 }
{
    match timers.try_to_cancel(rt, pass, timer) {
        CancelAnswer::Cancelled { .. } => 1,
        CancelAnswer::Idle { .. } | CancelAnswer::Running { .. } => 0,
    }
}

pub fn cancel_now(timers: &Timers, pass: &mut Pass, timer: u32) -> u64
    requires ready { IsUnclaimed timers.now pass.old }
    requires within { timer < length timers.now.about.timers }
    ensures ready { IsUnclaimed timers.now pass.new }
    ensures worked { MadeEntries result pass.old pass.new }
    ensures most { result ≤ 1 }
{
    match timers.cancel_now(pass, timer) {
        NowAnswer::Tried(CancelAnswer::Cancelled { .. }) => 1,
        _ => 0,
    }
}

/// Claims the next timer of a base, and finishes the claim.
pub fn run_next<R: Wait>(rt: &R, timers: &Timers, pass: &mut Pass, base: u32) -> u64
    requires ready { IsUnclaimed timers.now pass.old }
    requires base { base < timers.now.about.bases }
    ensures ready { IsUnclaimed timers.now pass.new }
    ensures worked { MadeEntries result pass.old pass.new }
    ensures most { result ≤ 2 }
{
    match timers.claim_next(rt, pass, base, Reading::at(NOW)) {
        ClaimAnswer::Claimed(claim) => {
            timers.finish(rt, pass, claim, false);
            2
        }
        ClaimAnswer::NoneDue => 0,
        ClaimAnswer::BaseBusy {
            timer: _,
            generation: _,
        } => 0,
    }
}
