//! What is timed, how often, and the line that is printed for it.
ghost use Rattle.std.specs.Prelude.{◌≡◌, ◌<◌};

use crate::random::Random;
use crate::trees::moves::{filled, pair, postpone};
use std::io;
use std::time::{Clock, Instant};
use timer_queue::Queue;

/// What is timed.
#[derive(Clone, Copy)]
pub enum Op {
    /// A random timer is cancelled and started.
    Pair,
    /// The first timer is taken off and started later.
    Hold,
}

impl Op {
    /// The name that the table gives it.
    pub(crate) fn name(self) -> &'static str {
        match self {
            Op::Pair => "pair",
            Op::Hold => "hold",
        }
    }
}

/// Does this so many times, on a queue of the timers below `room`.
pub fn repeat<Q: Queue>(queue: &mut Q, op: Op, room: u32, count: u32, random: &mut Random)
    requires some { 0 < room }
    requires bound { Q.bound queue.old ≡ room }
    ensures bound { Q.bound queue.new ≡ room }
{
    for _ in 0..count {
        match op {
            Op::Pair => pair(queue, room, random),
            Op::Hold => {
                let _ = postpone(queue, random.expiry());
            }
        }
    }
}

/// Prints the nanoseconds that one takes, in seven runs: the least and the median.
pub(crate) fn row<Q: Queue + Drop>(
    rt: &(impl Print + AllocGlobal + Clock),
    name: &str,
    op: Op,
    room: u32,
) -> io::Result<()>
    requires { 0 < room }
{
    let mut random = Random::new();
    let mut queue = filled::<Q>(rt.alloc(), room, &mut random)?;
    repeat(&mut queue, op, room, 7500, &mut random);
    let mut tenths = Vec::new(rt.alloc());
    for _ in 0..7 {
        let start = Instant::now(rt)?;
        repeat(&mut queue, op, room, 60000, &mut random);
        let end = Instant::now(rt)?;
        tenths.push(end.saturating_duration_since(start).as_nanos() / 6000)?;
    }
    tenths.sort()?;
    let least = tenths.first().copied().unwrap_or(0);
    let median = tenths.get(3).copied().unwrap_or(0);
    println!(rt;
        "{name}\t{}\t{room}\t{}.{}\t{}.{}",
        op.name(),
        least / 10,
        least % 10,
        median / 10,
        median % 10
    )
}
