//! The queues of timers: `timer_tree` at all sizes, and the plain list beside it at small ones.
mod figures;
mod moves;

use crate::cases::Task;
use crate::random::Random;
use figures::{Op, repeat, row};
use moves::{filled, postpone};
use std::alloc::{AllocError, Global};
use std::io;
use std::time::Clock;
use timer_queue::{ListQueue, Queue};
use timer_tree::TimerTree;

/// Prints the table.
fn table(rt: &(impl Print + AllocGlobal + Clock)) -> io::Result<()> {
    for op in [Op::Pair, Op::Hold] {
        row::<TimerTree>(rt, "timer_tree", op, 1)?;
        row::<TimerTree>(rt, "timer_tree", op, 16)?;
        row::<TimerTree>(rt, "timer_tree", op, 256)?;
        row::<TimerTree>(rt, "timer_tree", op, 4096)?;
        row::<TimerTree>(rt, "timer_tree", op, 100000)?;
        row::<ListQueue>(rt, "list_queue", op, 1)?;
        row::<ListQueue>(rt, "list_queue", op, 16)?;
        row::<ListQueue>(rt, "list_queue", op, 256)?;
    }
    Ok(())
}

/// Prints the timers that come first, after some were started anew.
fn check<Q: Queue + Drop>(rt: &(impl Print + AllocGlobal)) -> io::Result<()> {
    let mut random = Random::new();
    let mut queue = filled::<Q>(rt.alloc(), 16, &mut random)?;
    repeat(&mut queue, Op::Pair, 16, 16, &mut random);
    for _ in 0..16 {
        if let Some(id) = postpone(&mut queue, random.expiry()) {
            println!(rt; "{id}")?;
        }
    }
    Ok(())
}

/// Does one thing so many times, untimed.
fn count_only<Q: Queue + Drop>(
    alloc: Global,
    op: Op,
    room: u32,
    count: u32,
) -> Result<(), AllocError> {
    let mut random = Random::new();
    let mut queue = filled::<Q>(alloc, room, &mut random)?;
    if room > 0 {
        repeat(&mut queue, op, room, count, &mut random);
    }
    Ok(())
}

/// Does what four words ask for. `false` where they ask for nothing.
pub fn counted(
    alloc: Global,
    name: &str,
    op: &str,
    room: &str,
    count: &str,
) -> Result<bool, AllocError> {
    let op = match op {
        "pair" => Op::Pair,
        "hold" => Op::Hold,
        _ => return Ok(false),
    };
    let (Ok(room), Ok(count)) = (room.parse::<u32>(), count.parse::<u32>()) else {
        return Ok(false);
    };
    match name {
        "timer_tree" => count_only::<TimerTree>(alloc, op, room, count)?,
        "list_queue" => count_only::<ListQueue>(alloc, op, room, count)?,
        _ => return Ok(false),
    }
    Ok(true)
}

/// Prints the table. In a check it prints the timers that come first on either queue: the two lists are the same.
pub fn print_lines(rt: &(impl Print + AllocGlobal + Clock), task: Task) -> io::Result<()> {
    match task {
        Task::Measure => table(rt),
        Task::Check => {
            check::<TimerTree>(rt)?;
            check::<ListQueue>(rt)
        }
    }
}
