//! Times the calls of the libraries, by one thread and by two. The first word is the bench: `trees`, `rows`, `bases`, `timers`, `clocks` or `objects`.
//! With the word `check` alone it makes a few calls of each and prints what they made, which is the same in each run. Two benches take more
//! words: `timers scale N`, and `trees QUEUE OP SIZE COUNT`.
#![tactic(auto)]

mod bases;
mod cases;
mod clocks;
mod figures;
mod objects;
mod random;
mod rows;
mod timers;
mod times;
mod trees;

use cases::{Bench, Task};
use std::sync::Wait;
use std::thread::Threads;
use std::time::Clock;
use std::{env, io};

/// Prints a bench's lines.
fn print_bench<R: Threads + Wait + Sync + Clock + Print + AllocGlobal>(
    rt: &R,
    bench: Bench,
    task: Task,
) -> io::Result<()> {
    match bench {
        Bench::Trees => trees::print_lines(rt, task),
        Bench::Rows => rows::print_lines(rt, rt.alloc(), task),
        Bench::Bases => bases::print_lines(rt, rt.alloc(), task),
        Bench::Timers => timers::print_lines(rt, rt.alloc(), task),
        Bench::Clocks => clocks::print_lines(rt, rt.alloc(), task),
        Bench::Objects => objects::print_lines(rt, rt.alloc(), task),
    }
}

/// Makes a few calls of each bench.
fn check_all<R: Threads + Wait + Sync + Clock + Print + AllocGlobal>(rt: &R) -> io::Result<()> {
    for bench in Bench::ALL {
        print_bench(rt, bench, Task::Check)?;
    }
    Ok(())
}

fn main(rt: HostRuntime) -> io::Result<()> {
    let words: Vec<String> = env::args(&rt)?.collect(rt.alloc())?;
    match words.as_slice() {
        [_, word] if word.as_str() == "check" => return check_all(&rt),
        [_, name] => {
            if let Some(bench) = Bench::named(name.as_str()) {
                return print_bench(&rt, bench, Task::Measure);
            }
        }
        [_, name, word, queued] if name.as_str() == "timers" && word.as_str() == "scale" => {
            if let Ok(queued) = queued.parse::<u32>() {
                return timers::print_scale(&rt, rt.alloc(), queued);
            }
        }
        [_, name, queue, op, room, count] if name.as_str() == "trees" => {
            if trees::counted(
                rt.alloc(),
                queue.as_str(),
                op.as_str(),
                room.as_str(),
                count.as_str(),
            )? {
                return Ok(());
            }
        }
        _ => {}
    }
    Err(io::ErrorKind::InvalidInput.into())
}
