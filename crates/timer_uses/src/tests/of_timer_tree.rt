//! Tests of `timer_tree`: the tree beside the plain list, and the bound on its count.
ghost use Rattle.std.specs.Prelude.{◌≡◌, ◌+◌, ◌<◌, ◌≤◌, false, length};
ghost use Rattle.timer_queue.specs.Pairs.{has_id};

use super::assert_equal;
use std::alloc::{AllocError, Global};
use std::marker::Brand;
use std::sync::ledger::{Blank, Ledger};
use timer_queue::{ListQueue, Queue};
use timer_tree::{Steps, TimerTree};

#[test]
fn it_gives_what_a_list_gives(rt: HostRuntime) -> Result<(), AllocError> {
    let mut tree = TimerTree::make(rt.alloc(), 4096)?;
    let mut list = ListQueue::make(rt.alloc(), 4096)?;
    for id in 0..4096u32 {
        let expires = u64::from(id) * 1103515245 % 64;
        assert!(rt; !tree.has(id) && !list.has(id));
        tree.add(expires, id);
        list.add(expires, id);
    }
    for _ in 0..4096u32 {
        let first = list.first();
        assert_eq!(rt; tree.first(), first);
        if let Some((_, id)) = first {
            tree.erase(id);
            list.erase(id);
            assert!(rt; !tree.has(id));
        }
    }
    assert_equal(&rt, tree.first(), None);
    Ok(())
}

/// Adds to a tree of at most 1000 timers.
fn add_to_thousand<L: Ledger>(tree: &mut TimerTree, expires: u64, id: u32, steps: &mut Steps<L>)
    requires absent { has_id id tree.old.0 ≡ false }
    requires below { id < tree.old.1 }
    requires many { length tree.old.0 ≤ 1000 }
    ensures few { steps.new ≤ steps.old + 352 }
{
    tree.add_counted(expires, id, steps);
}

/// Adds the only timer of a tree and takes it out: tells which was the first, and whether it is still there.
fn count<L: Ledger>(alloc: Global, blank: Blank) -> Result<(Option<(u64, u32)>, bool), AllocError>
    requires name { blank.name ≡ L.name }
    requires parts { blank.parts ≡ L.parts }
    requires some { 0 < L.parts }
{
    let mut steps = Steps::<L>::new(blank);
    let mut tree = TimerTree::make(alloc, 1)?;
    add_to_thousand(&mut tree, 5, 0, &mut steps);
    let first = tree.first_counted(&mut steps);
    if tree.has_counted(0, &mut steps) {
        tree.erase_counted(0, &mut steps);
    }
    Ok((first, tree.has(0)))
}

#[test]
fn steps_are_few(rt: HostRuntime) -> Result<(), AllocError> {
    let counted = count::<Brand>(rt.alloc(), Blank::new(1))?;
    assert_equal(&rt, counted, (Some((5, 0)), false));
    Ok(())
}
