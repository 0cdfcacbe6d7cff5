//! Stopping a timer: a wait for its function's end, or one try.
ghost use Rattle.std.specs.Prelude.{◌≡◌, ◌<◌, ◌+◌, true, false, length, MatchBool};
ghost use Rattle.seq_timer.specs.Histories.{IsIdle};
ghost use Rattle.hr_timers.specs.Known.{IsPassOf};
ghost use Rattle.hr_timers.specs.Handlers.{KeepsPass};
ghost use Rattle.shared_timer_uses.specs.Callers.{StoppedFits, known_timer};

use hr_timers::{NowAnswer, Pass, Timers, cancel};
use seq_timer::CancelAnswer;
use std::sync::Wait;

/// Stops a timer, and waits for its function's end: by all that the pass has then seen the timer is neither armed nor does its function run.
/// It answers whether the timer was armed.
pub fn stop_and_wait<R: Wait>(rt: &R, timers: &Timers, pass: &mut Pass, timer: u32) -> bool
    requires pass { IsPassOf timers.now pass.old }
    requires timer { timer < length timers.now.about.timers }
    ensures pass { IsPassOf timers.now pass.new }
    ensures keeps { KeepsPass pass.old.known pass.new.known }
    ensures idle { IsIdle (known_timer timers.now.about pass.new.known timer) }
    ensures entries { MatchBool result (length pass.new.known.mine ≡ length pass.old.known.mine + 1) (pass.new.known.mine ≡ pass.old.known.mine) }
{
    matches!(
        cancel(rt, timers, pass, timer),
        CancelAnswer::Cancelled { .. }
    )
}

/// What a stop comes to that waits for nobody.
#[derive(Clone, Copy, Debug, PartialEq, Eq)]
pub enum Stopped {
    /// The timer was armed, and is not any more.
    Disarmed,
    /// It was neither armed nor running.
    AtRest,
    /// Its function runs.
    Running { generation: u64 },
    /// Another pass had the timer's base, or moved the timer. Nothing has changed.
    Busy,
}

/// Stops a timer, if that can be done without a wait.
pub fn stop_now(timers: &Timers, pass: &mut Pass, timer: u32) -> Stopped
    requires pass { IsPassOf timers.now pass.old }
    requires timer { timer < length timers.now.about.timers }
    ensures pass { IsPassOf timers.now pass.new }
    ensures keeps { KeepsPass pass.old.known pass.new.known }
    ensures stopped { StoppedFits timers.now.about pass.old.known pass.new.known timer result }
{
    match timers.cancel_now(pass, timer) {
        NowAnswer::Tried(CancelAnswer::Cancelled { .. }) => Stopped::Disarmed,
        NowAnswer::Tried(CancelAnswer::Idle { .. }) => Stopped::AtRest,
        NowAnswer::Tried(CancelAnswer::Running { generation, .. }) => {
            Stopped::Running { generation }
        }
        NowAnswer::Contended { .. } | NowAnswer::Moving { .. } | NowAnswer::Moved { .. } => {
            Stopped::Busy
        }
    }
}
