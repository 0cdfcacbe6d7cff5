//! Two threads that share timers over two bases, each with a pass of its own.
ghost use Rattle.std.specs.Prelude.{◌≡◌, ◌≢◌, ℕ, ◌+◌, ◌*◌, ◌<◌, ◌≤◌, [], length, IfOk, IfSome};
ghost use Rattle.pass_names.specs.Counts.{count};
ghost use Rattle.pass_names.specs.Names.{IsLast};
ghost use Rattle.pass_names.specs.Passes.{is_place};
ghost use Rattle.seq_timer.specs.Histories.{IsIdle};
ghost use Rattle.seq_timer.specs.Tables.{timer_at};
ghost use Rattle.hr_timers.specs.Known.{IsPassOf};
ghost use Rattle.hr_timers.specs.Ways.{most_to_start};
ghost use Rattle.hr_timers.specs.Handlers.{KeepsPass};
ghost use Rattle.shared_timer_uses.specs.Callers.{KeepsRunner, MakesEntries, MayRunOne, RanOnce, known_timer};

use crate::cancelling::stop_and_wait;
use crate::once::expire_once;
use crate::sink::Counted;
use hr_timers::{Log, Pass, Timers};
use ktime::{ClockId, Mode, Reading};
use seq_timer::Asked;
use std::alloc::{AllocError, Global};
use std::sync::Wait;
use std::thread::{Threads, join_mut};

/// Arms a timer on a base, and answers how many entries that made: two where the timer was moved to that base, more where it was sent on from
/// bases that are off line, none where its history is full.
pub fn start_counted<R: Wait>(
    rt: &R,
    timers: &Timers,
    pass: &mut Pass,
    timer: u32,
    base: u32,
    reading: Reading,
) -> u64
    requires pass { IsPassOf timers.now pass.old }
    requires timer { timer < length timers.now.about.timers }
    requires base { base < timers.now.about.bases }
    ensures pass { IsPassOf timers.now pass.new }
    ensures made { MakesEntries timer result pass.old.known pass.new.known }
    ensures few { result ≤ most_to_start (timer_at timers.now.about.timers timer).terms base }
{
    let mut counted = Counted { made: 0 };
    let asked = Asked {
        mode: Mode::Rel,
        ns: 0,
        slack: 0,
        reading,
        base,
    };
    timers.start_logged(rt, pass, &mut counted, timer, &asked);
    counted.made
}

/// Arms a timer on a base so many times, and answers how many entries that made.
pub fn start_often<R: Wait>(
    rt: &R,
    timers: &Timers,
    pass: &mut Pass,
    timer: u32,
    base: u32,
    times: u32,
) -> u64
    requires pass { IsPassOf timers.now pass.old }
    requires timer { timer < length timers.now.about.timers }
    requires base { base < timers.now.about.bases }
    ensures pass { IsPassOf timers.now pass.new }
    ensures made { MakesEntries timer result pass.old.known pass.new.known }
    ensures few { result ≤ most_to_start (timer_at timers.now.about.timers timer).terms base * times }
{
    let mut made = 0;
    for _ in 0..times {
        made += start_counted(rt, timers, pass, timer, base, Reading::at(0));
    }
    made
}

/// Two threads arm one timer, the one on base 0, the other on base 1.
fn start_both<R: Threads + Wait + Sync>(
    rt: &R,
    timers: &Timers,
    first: &mut Pass,
    second: &mut Pass,
    timer: u32,
    times: u32,
) -> (u64, u64)
    requires pass { IsPassOf timers.now first.old × IsPassOf timers.now second.old }
    requires timer { timer < length timers.now.about.timers }
    requires bases { 1 < timers.now.about.bases }
    ensures pass { IsPassOf timers.now first.new × IsPassOf timers.now second.new }
    ensures made { MakesEntries timer result.0 first.old.known first.new.known × MakesEntries timer result.1 second.old.known second.new.known }
    ensures few { (result.0 ≤ most_to_start (timer_at timers.now.about.timers timer).terms 0 * times) × (result.1 ≤ most_to_start (timer_at timers.now.about.timers timer).terms 1 * times) }
{
    join_mut(
        rt,
        &mut || start_often(rt, timers, first, timer, 0, times),
        &mut || start_often(rt, timers, second, timer, 1, times),
    )
}

/// The same with a pass that is split off for the purpose, and taken in again. It answers how many entries each thread made.
pub fn start_by_two<R: Threads + Wait + Sync>(
    rt: &R,
    timers: &Timers,
    main: &mut Pass,
    timer: u32,
    times: u32,
) -> (u64, u64)
    requires pass { IsPassOf timers.now main.old }
    requires timer { timer < length timers.now.about.timers }
    requires bases { 1 < timers.now.about.bases }
    requires unclaimed { main.old.known.claims ≡ [] }
    ensures pass { IsPassOf timers.now main.new }
    ensures mine { length main.new.known.mine ≡ length main.old.known.mine + result.0 + result.1 }
    ensures elsewhere { (i k : ℕ) → i ≢ timer → count (is_place i k) main.new.known.mine ≡ count (is_place i k) main.old.known.mine }
    ensures last { IsLast main.old.known.id → IsLast main.new.known.id }
    ensures unclaimed { main.new.known.claims ≡ [] }
    ensures few { (result.0 ≤ most_to_start (timer_at timers.now.about.timers timer).terms 0 * times) × (result.1 ≤ most_to_start (timer_at timers.now.about.timers timer).terms 1 * times) }
{
    let mut other = timers.split(main);
    let made = start_both(rt, timers, main, &mut other, timer, times);
    timers.retire(main, other);
    made
}

/// How many entries each thread made, and the timer's stamp after that.
#[derive(Clone, Copy, Debug, PartialEq, Eq)]
pub struct Counts {
    pub first: u64,
    pub second: u64,
    pub stamp: u64,
}

/// Makes one timer and two bases, and has two threads arm it, each so many times. No entry is lost: the timer's history has just those that
/// the two have made.
pub fn start_anew<R: Threads + Wait + Sync>(
    rt: &R,
    alloc: Global,
    times: u32,
) -> Result<Counts, AllocError>
    ensures { IfOk result (λ counts. counts.stamp ≡ counts.first + counts.second) }
{
    let (timers, mut pass) = Timers::make(alloc, 2, &[ClockId::Monotonic], 1 << 40)?;
    let (first, second) = start_by_two(rt, &timers, &mut pass, 0, times);
    let stamp = timers.peek(&mut pass, 0).stamp;
    timers.close(pass);
    Ok(Counts {
        first,
        second,
        stamp,
    })
}

/// One thread runs the function of the next timer that is due on a base, while another stops a timer and waits for its function's end.
pub fn expire_and_stop<R: Threads + Wait + Sync>(
    rt: &R,
    timers: &Timers,
    runner: &mut Pass,
    stopper: &mut Pass,
    base: u32,
    timer: u32,
    reading: Reading,
    log: &mut Log,
) -> (Option<u32>, bool)
    requires runner { MayRunOne timers.now runner.old log.old base }
    requires stopper { IsPassOf timers.now stopper.old }
    requires timer { timer < length timers.now.about.timers }
    ensures runner { KeepsRunner timers.now runner.old runner.new log.old log.new }
    ensures stopper { IsPassOf timers.now stopper.new × KeepsPass stopper.old.known stopper.new.known }
    ensures ran { IfSome result.0 (λ t. RanOnce timers.now.about base reading runner.old.known runner.new.known t log.old.receipts log.new.receipts) }
    ensures idle { IsIdle (known_timer timers.now.about stopper.new.known timer) }
{
    join_mut(
        rt,
        &mut || expire_once(rt, timers, runner, base, reading, log),
        &mut || stop_and_wait(rt, timers, stopper, timer),
    )
}
