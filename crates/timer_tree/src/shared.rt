//! Trees that stand in one store of nodes: each timer stands in one of them at most, and a call on one leaves the others' nodes as they were.
ghost use Rattle.std.specs.Prelude.{◌≡◌, ◌+◌, ◌<◌, ◌≤◌, false, length, nat_eq, not, IsTrue};
ghost use Rattle.timer_tree.specs.Nodes.{node_at};
ghost use Rattle.timer_tree.specs.Places.{first_on, first_off, last_on, last_off};
ghost use Rattle.timer_queue.specs.Pairs.{put, without, first_of, has_id};
ghost use Rattle.timer_tree.specs.Rotate.{ranked};
ghost use Rattle.timer_tree.specs.Trees.{last_id, queue_at};
ghost use Rattle.timer_tree.specs.Contexts.{IsStored, Becomes};

use crate::add::{find, insert};
use crate::block::Block;
use crate::erase::take_out;
use crate::node::{NONE, Node, Side};
use crate::repair::{repair, settle};
use crate::steps::Steps;
use std::sync::ledger::Ledger;

/// Where a tree begins: its root, and the timers that are due first and last.
#[derive(Clone, Copy)]
pub(crate) struct Root {
    pub(crate) root: u32,
    pub(crate) first: u32,
    pub(crate) last: u32,
}

/// That of an empty tree.
pub(crate) const EMPTY: Root = Root {
    root: NONE,
    first: NONE,
    last: NONE,
};

/// Adds a timer that stands in no tree to one of the store's.
pub(crate) fn add_to<L: Ledger>(
    block: &mut Block,
    tree: &mut Root,
    expires: u64,
    id: u32,
    steps: &mut Steps<L>,
)
    requires stored { IsStored block.old tree.old.root tree.old.first (queue_at block.old tree.old.root) }
    requires last { tree.old.last ≡ last_id (queue_at block.old tree.old.root) }
    requires absent { has_id id (queue_at block.old tree.old.root) ≡ false }
    requires below { id < length block.old }
    ensures last { tree.new.last ≡ last_id (put expires id (queue_at block.old tree.old.root)) }
    ensures pairs { queue_at block.new tree.new.root ≡ put expires id (queue_at block.old tree.old.root) }
    ensures gives { Becomes (queue_at block.old tree.old.root) (put expires id (queue_at block.old tree.old.root)) block.old block.new
        tree.new.root tree.new.first steps.old steps.new }
{
    let parent = find(block, tree.root, tree.last, expires, steps);
    let link = insert(block, &mut tree.root, parent, expires, id, steps);
    put_first(&mut tree.first, link.side, parent, id);
    put_last(&mut tree.last, link.side, parent, id);
    settle(block, &mut tree.root, parent, link.leaf, id, steps);
}

/// Takes a timer out of the tree that it stands in.
pub(crate) fn erase_from<L: Ledger>(
    block: &mut Block,
    tree: &mut Root,
    id: u32,
    steps: &mut Steps<L>,
)
    requires stored { IsStored block.old tree.old.root tree.old.first (queue_at block.old tree.old.root) }
    requires last { tree.old.last ≡ last_id (queue_at block.old tree.old.root) }
    requires present { IsTrue (has_id id (queue_at block.old tree.old.root)) }
    ensures last { tree.new.last ≡ last_id (without id (queue_at block.old tree.old.root)) }
    ensures pairs { queue_at block.new tree.new.root ≡ without id (queue_at block.old tree.old.root) }
    ensures gives { Becomes (queue_at block.old tree.old.root) (without id (queue_at block.old tree.old.root)) block.old block.new
        tree.new.root tree.new.first steps.old steps.new }
{
    let node = block.read(id, steps);
    drop_first(&mut tree.first, node, id);
    drop_last(&mut tree.last, node, id);
    let broken = take_out(block, &mut tree.root, id, node, steps);
    forget(block, id, steps);
    repair(block, &mut tree.root, false, broken, steps);
}

/// The timer of a tree that is due first.
pub(crate) fn first_of<L: Ledger>(
    block: &Block,
    tree: &Root,
    steps: &mut Steps<L>,
) -> Option<(u64, u32)>
    requires stored { IsStored block.now tree.now.root tree.now.first (queue_at block.now tree.now.root) }
    ensures first { result ≡ first_of (queue_at block.now tree.now.root) }
    ensures steps { steps.new ≡ steps.old + 1 }
{
    if tree.first == NONE {
        steps.tick();
        return None;
    }
    let node = block.read(tree.first, steps);
    Some((node.expires, tree.first))
}

/// Whether a timer is in a tree of the store: its node has a rank then.
pub(crate) fn is_linked<L: Ledger>(block: &Block, id: u32, steps: &mut Steps<L>) -> bool
    ensures linked { result ≡ not (nat_eq (node_at block.now id).rank 0) }
    ensures steps { steps.new ≤ steps.old + 1 }
{
    if !block.holds(id) {
        return false;
    }
    let node = block.read(id, steps);
    node.rank != 0
}

/// Marks a timer that was taken out as not in the tree.
#[inline(always)]
fn forget<L: Ledger>(block: &mut Block, id: u32, steps: &mut Steps<L>)
    requires inside { id < length block.old }
    ensures block { block.new ≡ ranked block.old id 0 }
    ensures steps { steps.new ≡ steps.old + 1 }
{
    block.set_rank(id, 0, steps);
}

/// The first timer once this one is inserted on a side of this parent.
fn put_first(first: &mut u32, side: Side, parent: u32, id: u32)
    ensures { first.new ≡ first_on side parent first.old id }
{
    if let Side::Left = side
        && parent == *first
    {
        *first = id;
    }
}

/// The last timer once this one is inserted on a side of this parent.
fn put_last(last: &mut u32, side: Side, parent: u32, id: u32)
    ensures { last.new ≡ last_on side parent last.old id }
{
    let before = match side {
        Side::Left => NONE,
        Side::Right => *last,
    };
    if parent == before {
        *last = id;
    }
}

/// The first timer once this one, with this node, is taken out. The first node has at most one node on its right.
fn drop_first(first: &mut u32, node: Node, id: u32)
    ensures { first.new ≡ first_off node first.old id }
{
    if *first == id {
        *first = if node.right == NONE {
            node.parent
        } else {
            node.right
        };
    }
}

/// The last timer once this one, with this node, is taken out. The last node has at most one node on its left.
fn drop_last(last: &mut u32, node: Node, id: u32)
    ensures { last.new ≡ last_off node last.old id }
{
    if *last == id {
        *last = if node.left == NONE {
            node.parent
        } else {
            node.left
        };
    }
}
