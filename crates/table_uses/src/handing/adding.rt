//! Numbers that a giver hands to a worker, which adds to each.
ghost use Rattle.std.specs.Prelude.{◌≡◌, ◌+◌, ◌^◌, ◌<◌, ◌≤◌, [], IfOk, length, map, vec_capacity};
ghost use Rattle.handoff.specs.Seated.{AwaitsWork, HasEnded, IsDismissed, MayGive};

use handoff::{HandSeat, Handoff, Task};
use std::alloc::{AllocError, Global};
use std::sync::Wait;
use std::thread::{Threads, join_mut};

/// What is added to each number. It is the key of a handoff.
#[derive(Clone, Copy)]
pub struct Addend {
    pub by: u32,
}

/// A number that is handed over. It can't be dropped.
pub struct Load {
    pub number: u64,
}

impl Task<Addend> for Load {
    ghost use Rattle.std.specs.Prelude.{◌≡◌, ◌+◌, ◌^◌, ◌<◌};

    ghost can = { λ k v. v.number + k.by < 2 ^ 64 };

    ghost done = { λ k v w. w.number ≡ v.number + k.by };
}

/// Adds to a number.
pub(crate) fn add(key: Addend, load: Load) -> Load
    requires { load.number + key.by < 2 ^ 64 }
    ensures { result.number ≡ load.number + key.by }
{
    let Load { number } = load;
    Load {
        number: number + key.by as u64,
    }
}

/// Works on each number that is given, until the giver ends.
pub(crate) fn work<R: Wait>(
    rt: &R,
    handoff: &Handoff<Load, Addend>,
    worker: &mut HandSeat<Load, Addend>,
    key: Addend,
)
    requires key { handoff.now.key ≡ key }
    requires worker { AwaitsWork handoff.now worker.old }
    ensures ended { IsDismissed handoff.now worker.new }
{
    handoff.come();
    for _ in rt.forever() {
        match handoff.next(rt, worker) {
            Some(load) => handoff.give_back(worker, add(key, load)),
            None => return,
        }
    }
    unreachable!()
}

/// Has the worker add to a number. Where there is none, it is done here.
fn add_to<R: Wait>(
    rt: &R,
    handoff: &Handoff<Load, Addend>,
    giver: &mut HandSeat<Load, Addend>,
    key: Addend,
    number: u32,
) -> u64
    requires key { handoff.now.key ≡ key }
    requires giver { MayGive handoff.now giver.old }
    ensures giver { MayGive handoff.now giver.new }
    ensures sum { result ≡ number + key.by }
{
    let load = Load {
        number: number as u64,
    };
    if !handoff.has_worker(rt) {
        let Load { number } = add(key, load);
        return number;
    }
    handoff.give(giver, load);
    let Load { number } = handoff.take_back(rt, giver);
    number
}

/// Gives each number in turn and has it back, and then ends the worker's work.
pub(crate) fn give_all<R: Wait>(
    rt: &R,
    handoff: &Handoff<Load, Addend>,
    giver: &mut HandSeat<Load, Addend>,
    key: Addend,
    numbers: &[u32],
    sums: &mut Vec<u64>,
)
    requires key { handoff.now.key ≡ key }
    requires giver { MayGive handoff.now giver.old }
    requires empty { sums.old.items ≡ [] }
    requires room { length numbers.now ≤ vec_capacity sums.old }
    ensures sums { sums.new.items ≡ map (λ n. n + key.by) numbers.now }
    ensures giver { HasEnded handoff.now giver.new }
{
    for number in numbers {
        sums.push_reserved(add_to(rt, handoff, giver, key, *number));
    }
    handoff.end(giver);
}

/// Both at once: the worker in a thread of its own, where there is one to be had.
fn add_by_two<R: Threads + Wait + Sync>(
    rt: &R,
    handoff: &Handoff<Load, Addend>,
    giver: &mut HandSeat<Load, Addend>,
    worker: &mut HandSeat<Load, Addend>,
    key: Addend,
    numbers: &[u32],
    sums: &mut Vec<u64>,
)
    requires key { handoff.now.key ≡ key }
    requires giver { MayGive handoff.now giver.old }
    requires worker { AwaitsWork handoff.now worker.old }
    requires empty { sums.old.items ≡ [] }
    requires room { length numbers.now ≤ vec_capacity sums.old }
    ensures sums { sums.new.items ≡ map (λ n. n + key.by) numbers.now }
    ensures giver { HasEnded handoff.now giver.new }
{
    join_mut(
        rt,
        &mut || work(rt, handoff, worker, key),
        &mut || give_all(rt, handoff, giver, key, numbers, sums),
    );
}

/// Adds the same to all these numbers, on a second thread where there is one to be had.
pub fn add_to_all<R: Threads + Wait + Sync>(
    rt: &R,
    alloc: Global,
    numbers: &[u32],
    by: u32,
) -> Result<Vec<u64>, AllocError>
    ensures { IfOk result (λ v. v.items ≡ map (λ n. n + by) numbers.now) }
{
    let key = Addend { by };
    let mut sums = Vec::with_capacity(alloc, numbers.len())?;
    let (handoff, mut giver, mut worker) = Handoff::make(alloc, &key)?;
    add_by_two(
        rt,
        &handoff,
        &mut giver,
        &mut worker,
        key,
        numbers,
        &mut sums,
    );
    handoff.close(giver);
    Ok(sums)
}
