//! Taking a base off line, beside cancels and starts that move its timers one by one.
ghost use Rattle.std.specs.Prelude.{◌≡◌, [], length, IfOk};
ghost use Rattle.hr_timers.specs.Known.{IsEvacuable};
ghost use Rattle.benches.specs.WorkingTimers.{IsUnclaimed};

use crate::cases::Task;
use crate::random::Random;
use crate::timers::single::{NOW, cancel, start};
use crate::times::Times;
use hr_timers::{OfflineAnswer, Pass, Timers};
use ktime::{ClockId, Reading};
use seq_timer::Declared;
use std::alloc::{AllocError, Global};
use std::io;
use std::sync::Wait;
use std::time::{Clock, Instant};

/// How many timers are armed on the base that goes off line.
const TIMERS: u32 = 256;

/// At so many entries a timer takes no start any more.
const LIMIT: u64 = 1 << 40;

const REACH: u64 = 1024;

const ROUNDS: u64 = 21;

/// How many timers were moved off the base, and the median times of that and of moving them back, in nanoseconds.
#[derive(Clone, Copy, Debug, PartialEq, Eq)]
struct Done {
    moved: u64,
    offline: u128,
    back: u128,
}

/// Cancels each timer and starts it on base 1.
fn move_all<R: Wait>(rt: &R, timers: &Timers, pass: &mut Pass, random: &mut Random)
    requires ready { IsUnclaimed timers.now pass.old }
    requires size { (timers.now.about.bases ≡ 2) × (length timers.now.about.timers ≡ 256) }
    ensures ready { IsUnclaimed timers.now pass.new }
    ensures id { pass.new.known.id ≡ pass.old.known.id }
{
    for timer in 0..TIMERS {
        cancel(rt, timers, pass, timer);
        start(rt, timers, pass, timer, 1, 2000 + random.expiry());
    }
}

/// Takes base 1 off line, and answers how many timers went to base 0.
fn take_off<R: Wait>(rt: &R, timers: &Timers, pass: &mut Pass) -> u32
    requires ready { IsUnclaimed timers.now pass.old }
    requires first { pass.old.known.id.name ≡ [] }
    requires evacuable { IsEvacuable timers.now.about }
    requires bases { timers.now.about.bases ≡ 2 }
    ensures ready { IsUnclaimed timers.now pass.new }
    ensures id { pass.new.known.id ≡ pass.old.known.id }
{
    match timers.offline(rt, pass, 1, 0, TIMERS, Reading::at(NOW)) {
        OfflineAnswer::Offline { moved, .. } => moved,
        _ => 0,
    }
}

fn rounds<R: Wait + Clock>(
    rt: &R,
    alloc: Global,
    timers: &Timers,
    pass: &mut Pass,
    count: u64,
) -> io::Result<Done>
    requires ready { IsUnclaimed timers.now pass.old }
    requires first { pass.old.known.id.name ≡ [] }
    requires evacuable { IsEvacuable timers.now.about }
    requires size { (timers.now.about.bases ≡ 2) × (length timers.now.about.timers ≡ 256) }
    ensures ready { IsUnclaimed timers.now pass.new }
    ensures id { pass.new.known.id ≡ pass.old.known.id }
{
    let mut random = Random::new();
    let mut offline = Times::new(alloc);
    let mut back = Times::new(alloc);
    let mut moved = 0u64;
    move_all(rt, timers, pass, &mut random);
    for _ in 0..count {
        let begin = Instant::now(rt)?;
        let gone = take_off(rt, timers, pass);
        offline.take(Instant::now(rt)?.saturating_duration_since(begin))?;
        timers.online(rt, pass, 1);
        let begin = Instant::now(rt)?;
        move_all(rt, timers, pass, &mut random);
        back.take(Instant::now(rt)?.saturating_duration_since(begin))?;
        moved = moved.saturating_add(u64::from(gone));
    }
    Ok(Done {
        moved,
        offline: offline.median(),
        back: back.median(),
    })
}

/// What of so many nanoseconds one timer takes.
fn each(nanos: u128) -> u128 {
    nanos / u128::from(TIMERS)
}

/// Makes timers, and takes their base off line and on line so many times.
fn run<R: Wait + Clock>(rt: &R, alloc: Global, count: u64) -> io::Result<Done> {
    let timers = vec![in alloc; Declared::hard(ClockId::Monotonic); TIMERS as usize]?;
    let (timers, mut pass) = Timers::make_evacuable(alloc, 2, &timers, LIMIT, REACH)?;
    let done = rounds(rt, alloc, &timers, &mut pass, count);
    timers.close(pass);
    done
}

/// Prints a line of what moving all timers takes, by taking their base off line and one by one.
pub fn print_evacuations<R: Wait + Clock + Print>(
    rt: &R,
    alloc: Global,
    task: Task,
) -> io::Result<()> {
    match task {
        Task::Check => {
            let done = run(rt, alloc, 2)?;
            println!(rt; "offline\tone thread\t{} moved", done.moved)
        }
        Task::Measure => {
            let done = run(rt, alloc, ROUNDS)?;
            let (offline, back) = (each(done.offline), each(done.back));
            println!(rt; "hr_timers\toffline, a timer\tone thread\t{TIMERS}\t1\t{offline}")?;
            println!(rt; "hr_timers\tcancel, moving start\tone thread\t{TIMERS}\t1\t{back}")
        }
    }
}
