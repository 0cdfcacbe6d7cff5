//! What the threads do: one or two read a new clock, and one writes.
ghost use Rattle.std.specs.Prelude.{◌≡◌, ◌+◌, ◌≤◌, length, IfOk};
ghost use Rattle.pass_names.specs.Names.{IsLast};
ghost use Rattle.clock_cell.specs.Views.{IsPassOfClock};
ghost use Rattle.benches.specs.Turns.{Read, Written};

use clock_cell::{ClockPass, SharedClock};
use std::alloc::{AllocError, Global};
use std::sync::Wait;
use std::sync::atomic::AtomicBool;
use std::sync::atomic::Ordering::SeqCst;
use std::thread::{Threads, join_mut};

/// How often each thread reads, and how often the writer writes at most. Where `stops` is set, the
/// writer ends once the readers have.
#[derive(Clone, Copy, Debug, PartialEq, Eq)]
pub struct Load {
    pub reads: u64,
    pub writes: u64,
    pub stops: bool,
}

/// How many writes were made, and the stamp of the clock after them.
#[derive(Clone, Copy, Debug, PartialEq, Eq)]
pub struct Done {
    pub made: u64,
    pub stamp: u64,
}

pub fn read_often<R: Wait>(rt: &R, clock: &SharedClock, pass: &mut ClockPass, times: u64)
    requires pass { IsPassOfClock clock.now pass.old }
    ensures pass { IsPassOfClock clock.now pass.new }
    ensures read { Read pass.old.knows pass.new.knows }
{
    for _ in 0..times {
        clock.read(rt, pass);
    }
}

/// Advances the clock by a nanosecond at a time, and answers how often it could.
fn write_often<R: Wait>(
    rt: &R,
    clock: &SharedClock,
    pass: &mut ClockPass,
    times: u64,
    stop: &AtomicBool,
) -> u64
    requires pass { IsPassOfClock clock.now pass.old }
    ensures pass { IsPassOfClock clock.now pass.new }
    ensures written { Written result pass.old.knows pass.new.knows }
    ensures most { result ≤ times }
{
    let mut made = 0;
    for _ in 0..times {
        if stop.load(SeqCst) {
            break;
        }
        if clock.advance(rt, pass, 1).is_ok() {
            made += 1;
        }
    }
    made
}

fn read_by_one<R: Wait>(
    rt: &R,
    clock: &SharedClock,
    pass: &mut ClockPass,
    load: Load,
    stop: &AtomicBool,
)
    requires pass { IsPassOfClock clock.now pass.old }
    ensures pass { IsPassOfClock clock.now pass.new }
    ensures read { Read pass.old.knows pass.new.knows }
{
    read_often(rt, clock, pass, load.reads);
    stop.store(load.stops, SeqCst);
}

fn read_by_two<R: Threads + Wait + Sync>(
    rt: &R,
    clock: &SharedClock,
    first: &mut ClockPass,
    second: &mut ClockPass,
    load: Load,
    stop: &AtomicBool,
)
    requires first { IsPassOfClock clock.now first.old }
    requires second { IsPassOfClock clock.now second.old }
    ensures first { IsPassOfClock clock.now first.new × Read first.old.knows first.new.knows }
    ensures second { IsPassOfClock clock.now second.new × Read second.old.knows second.new.knows }
{
    join_mut(
        rt,
        &mut || read_often(rt, clock, first, load.reads),
        &mut || read_often(rt, clock, second, load.reads),
    );
    stop.store(load.stops, SeqCst);
}

fn one_beside<R: Threads + Wait + Sync>(
    rt: &R,
    clock: &SharedClock,
    reader: &mut ClockPass,
    writer: &mut ClockPass,
    load: Load,
) -> u64
    requires pass { IsPassOfClock clock.now reader.old × IsPassOfClock clock.now writer.old }
    ensures pass { IsPassOfClock clock.now reader.new × IsPassOfClock clock.now writer.new }
    ensures read { Read reader.old.knows reader.new.knows }
    ensures written { Written result writer.old.knows writer.new.knows }
    ensures most { result ≤ load.writes }
{
    let stop = AtomicBool::new(false);
    let (_, made) = join_mut(
        rt,
        &mut || read_by_one(rt, clock, reader, load, &stop),
        &mut || write_often(rt, clock, writer, load.writes, &stop),
    );
    made
}

fn two_beside<R: Threads + Wait + Sync>(
    rt: &R,
    clock: &SharedClock,
    first: &mut ClockPass,
    second: &mut ClockPass,
    writer: &mut ClockPass,
    load: Load,
) -> u64
    requires pass { IsPassOfClock clock.now first.old × IsPassOfClock clock.now second.old × IsPassOfClock clock.now writer.old }
    ensures pass { IsPassOfClock clock.now first.new × IsPassOfClock clock.now second.new × IsPassOfClock clock.now writer.new }
    ensures read { Read first.old.knows first.new.knows × Read second.old.knows second.new.knows }
    ensures written { Written result writer.old.knows writer.new.knows }
    ensures most { result ≤ load.writes }
{
    let stop = AtomicBool::new(false);
    let (_, made) = join_mut(
        rt,
        &mut ||
            requires { IsPassOfClock clock.now first.now × IsPassOfClock clock.now second.now }
        { read_by_two(rt, clock, first, second, load, &stop) },
        &mut || write_often(rt, clock, writer, load.writes, &stop),
    );
    made
}

/// Ends the clock with its last pass, which has made all writes.
pub fn ended<R: Wait>(rt: &R, clock: SharedClock, mut pass: ClockPass, made: u64) -> Done
    requires pass { IsPassOfClock clock pass }
    requires last { IsLast pass.knows.pass.id }
    requires made { length pass.knows.pass.mine ≡ made }
    ensures { result ≡ record { made = made; stamp = made } }
{
    let stamp = clock.read(rt, &mut pass).stamp;
    clock.close(pass);
    Done { made, stamp }
}

/// One thread reads a new clock, and another writes.
pub fn one<R: Threads + Wait + Sync>(rt: &R, alloc: Global, load: Load) -> Result<Done, AllocError>
    ensures made { IfOk result (λ d. d.stamp ≡ d.made) }
    ensures most { IfOk result (λ d. d.made ≤ load.writes) }
{
    let (clock, mut reader) = SharedClock::make(alloc)?;
    let mut writer = clock.split(&mut reader);
    let made = one_beside(rt, &clock, &mut reader, &mut writer, load);
    clock.join(&mut reader, writer);
    Ok(ended(rt, clock, reader, made))
}

/// Two threads read a new clock, and a third writes.
pub fn two<R: Threads + Wait + Sync>(rt: &R, alloc: Global, load: Load) -> Result<Done, AllocError>
    ensures made { IfOk result (λ d. d.stamp ≡ d.made) }
    ensures most { IfOk result (λ d. d.made ≤ load.writes) }
{
    let (clock, mut first) = SharedClock::make(alloc)?;
    let mut second = clock.split(&mut first);
    let mut writer = clock.split(&mut first);
    let made = two_beside(rt, &clock, &mut first, &mut second, &mut writer, load);
    clock.join(&mut first, second);
    clock.join(&mut first, writer);
    Ok(ended(rt, clock, first, made))
}
