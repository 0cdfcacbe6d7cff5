//! How long a thread may leave a base alone: a look at each of its six queues.
ghost use Rattle.std.specs.Prelude.{◌≡◌, ◌<◌, MatchOption};
ghost use Rattle.hr_timers.specs.Known.{IsPassOf};
ghost use Rattle.hulayban_c.specs.Shared.{IsLeastWait, LooksIn, LooksOnce, WasContended};
ghost use Rattle.pass_names.specs.SharedHistory.{LooksOn};
ghost use Rattle.timer_core.specs.Waits.{sooner};

use hr_timers::{NextAnswer, Pass, Timers};
use ktime::{ClockId, Reading};
use seq_timer::Context;

/// The least wait of all timers that looks at a base's queues find, or `None` where another pass took the base's lock.
pub fn least_wait(
    timers: &Timers,
    pass: &mut Pass,
    base: u32,
    reading: Reading,
) -> Option<Option<u64>>
    requires pass { IsPassOf timers.now pass.old }
    requires base { base < timers.now.about.bases }
    ensures pass { IsPassOf timers.now pass.new }
    ensures looks { MatchOption result (WasContended pass.old pass.new base)
        (λ wait. LooksOn pass.old.known pass.new.known × IsLeastWait timers.now.about pass.old pass.new base reading wait) }
{
    let hard = least_in(timers, pass, Context::Hard, base, reading)?;
    let soft = least_in(timers, pass, Context::Soft, base, reading)?;
    Some(sooner(hard, soft))
}

/// The same of one context.
fn least_in(
    timers: &Timers,
    pass: &mut Pass,
    context: Context,
    base: u32,
    reading: Reading,
) -> Option<Option<u64>>
    requires pass { IsPassOf timers.now pass.old }
    requires base { base < timers.now.about.bases }
    ensures pass { IsPassOf timers.now pass.new }
    ensures looks { MatchOption result (WasContended pass.old pass.new base)
        (λ wait. LooksOn pass.old.known pass.new.known × LooksIn timers.now.about pass.old pass.new context base reading wait) }
{
    let mono = wait_on(timers, pass, context, base, ClockId::Monotonic, reading)?;
    let real = wait_on(timers, pass, context, base, ClockId::Realtime, reading)?;
    let boot = wait_on(timers, pass, context, base, ClockId::Boottime, reading)?;
    Some(sooner(mono, sooner(real, boot)))
}

/// The same of one context and one clock.
fn wait_on(
    timers: &Timers,
    pass: &mut Pass,
    context: Context,
    base: u32,
    clock: ClockId,
    reading: Reading,
) -> Option<Option<u64>>
    requires pass { IsPassOf timers.now pass.old }
    requires base { base < timers.now.about.bases }
    ensures pass { IsPassOf timers.now pass.new }
    ensures looks { MatchOption result (WasContended pass.old pass.new base)
        (λ wait. LooksOn pass.old.known pass.new.known × LooksOnce timers.now.about pass.old pass.new context base clock reading wait) }
{
    match timers.try_next(pass, context, base, clock) {
        NextAnswer::Contended => None,
        NextAnswer::NoneArmed => Some(None),
        NextAnswer::First { timer: _, expires } => {
            Some(Some(expires.saturating_sub(reading.value(clock))))
        }
    }
}

/// The lesser of two.
fn sooner(a: Option<u64>, b: Option<u64>) -> Option<u64>
    ensures { result ≡ sooner a b }
{
    match (a, b) {
        (None, b) => b,
        (Some(x), None) => Some(x),
        (Some(x), Some(y)) => Some(x.min(y)),
    }
}
