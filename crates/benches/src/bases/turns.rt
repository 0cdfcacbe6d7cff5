//! What the threads do: a timer is started and cancelled under one lock of its base, so many times.
ghost use Rattle.std.specs.Prelude.{◌≡◌, ◌*◌, ◌^◌, ◌<◌, ◌≤◌, length};
ghost use Rattle.seq_timer.specs.declared.event.EventBy.TheVariants as events;
ghost use Rattle.benches.specs.WorkingBases.{AreBoth, HoldsOneBase, IsReady, Worked, WorkedOn, asked};

use crate::cases::Workers;
use crate::random::Random;
use base_row::{BaseRow, HeldBase, Pass};
use ktime::{Mode, Reading};
use seq_timer::{Asked, Event};
use std::sync::Wait;
use std::thread::{Threads, join_mut};

/// Which timers a thread starts, and on which base: `first` and every second one from there.
#[derive(Clone, Copy, Debug, PartialEq, Eq)]
pub struct Share {
    pub base: u32,
    pub first: u32,
    pub timers: u32,
}

/// A start on the base that is asked for, at an expiry that no reading here reaches.
pub fn start_event(base: u32, ns: u64) -> Event
    ensures { result ≡ events.Start (asked base ns) }
{
    Event::Start(Asked {
        mode: Mode::Abs,
        ns,
        slack: 0,
        reading: Reading::at(0),
        base,
    })
}

/// Starts a timer of a held base, and answers how many entries that made.
#[tactic(auto, using(crate::proofs::Near::may_start_here))]
pub fn start(row: &BaseRow, pass: &mut Pass, held: &mut HeldBase, timer: u32, ns: u64) -> u64
    requires holds { HoldsOneBase row.now pass.old held.old }
    requires within { timer < length row.now.about.timers }
    ensures holds { HoldsOneBase row.now pass.new held.new }
    ensures worked { WorkedOn result held.old held.new pass.old.knows pass.new.knows }
{
    let base = held.base();
    let state = row.state(pass, held, timer);
    if state.base() != base || state.is_moving() || state.stamp() >= state.limit() {
        return 0;
    }
    pass.known();
    match row.standing(pass, held).heir {
        Some(_) => 0,
        None => {
            row.append(pass, held, timer, start_event(base, ns));
            1
        }
    }
}

/// Cancels a timer that is armed on a held base, and answers how many entries that made.
fn cancel(row: &BaseRow, pass: &mut Pass, held: &mut HeldBase, timer: u32) -> u64
    requires holds { HoldsOneBase row.now pass.old held.old }
    requires within { timer < length row.now.about.timers }
    ensures holds { HoldsOneBase row.now pass.new held.new }
    ensures worked { WorkedOn result held.old held.new pass.old.knows pass.new.knows }
{
    let state = row.state(pass, held, timer);
    if state.base() != held.base() || state.is_moving() {
        return 0;
    }
    if state.armed().is_none() || state.running().is_some() {
        return 0;
    }
    row.append(pass, held, timer, Event::Cancel);
    1
}

/// Starts and cancels a timer under one lock of a base, and answers how many entries that made.
pub fn start_and_cancel<R: Wait>(
    rt: &R,
    row: &BaseRow,
    pass: &mut Pass,
    base: u32,
    timer: u32,
    ns: u64,
) -> u64
    requires ready { IsReady row.now pass.old }
    requires within { (timer < length row.now.about.timers) × (base < row.now.about.bases) }
    ensures ready { IsReady row.now pass.new }
    ensures worked { Worked result 1 pass.old.knows pass.new.knows }
    ensures most { result ≤ 2 }
{
    let mut held = row.lock_base(rt, pass, base);
    let started = start(row, pass, &mut held, timer, ns);
    let cancelled = cancel(row, pass, &mut held, timer);
    row.unlock_base(pass, held);
    started + cancelled
}

/// One of a thread's timers, drawn at random. Their number is a power of two.
fn drawn(share: Share, random: &mut Random) -> u32
    requires some { 0 < share.timers }
    requires few { (share.first < 2) × (share.timers < 2 ^ 16) }
    ensures { result < 2 * share.timers }
{
    let number = random.next() & u64::from(share.timers - 1);
    if number < u64::from(share.timers) {
        share.first + 2 * number as u32
    } else {
        share.first
    }
}

/// So many turns of a thread. It answers how many entries they made.
fn turns<R: Wait>(rt: &R, row: &BaseRow, pass: &mut Pass, share: Share, times: u64) -> u64
    requires ready { IsReady row.now pass.old }
    requires base { share.base < row.now.about.bases }
    requires some { (share.first < 2) × (0 < share.timers) × (2 * share.timers ≤ length row.now.about.timers) }
    requires few { (times < 2 ^ 32) × (share.timers < 2 ^ 16) }
    ensures ready { IsReady row.now pass.new }
    ensures worked { Worked result times pass.old.knows pass.new.knows }
    ensures most { result ≤ 2 * times }
{
    let mut random = Random::of(2 * u64::from(share.first));
    let mut made = 0;
    for _ in 0..times {
        let timer = drawn(share, &mut random);
        made += start_and_cancel(rt, row, pass, share.base, timer, 1000 + random.expiry());
    }
    made
}

/// A thread's turns on base 0, and where another base is named, those of a second thread there. It answers how many entries they made.
pub fn turns_of_all<R: Threads + Wait + Sync>(
    rt: &R,
    row: &BaseRow,
    first: &mut Pass,
    second: &mut Pass,
    workers: Workers,
    timers: u32,
    times: u64,
) -> u64
    requires both { AreBoth row.now first.old second.old }
    requires size { (row.now.about.bases ≡ 2) × (0 < timers) × (2 * timers ≤ length row.now.about.timers) }
    requires few { (times < 2 ^ 32) × (timers < 2 ^ 16) }
    ensures both { AreBoth row.now first.new second.new }
    ensures most { result ≤ 4 * times }
{
    let own = Share {
        base: 0,
        first: 0,
        timers,
    };
    let Some(base) = workers.second() else {
        return turns(rt, row, first, own, times);
    };
    let other = Share {
        base,
        first: 1,
        timers,
    };
    let (one, two) = join_mut(
        rt,
        &mut || turns(rt, row, first, own, times),
        &mut || turns(rt, row, second, other, times),
    );
    one + two
}
