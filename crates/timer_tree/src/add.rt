//! How a timer is added: the way down to its place, and its link there.
ghost use Rattle.std.specs.Prelude.{◌≡◌, ℕ, ◌+◌, ◌≤◌, ◌<◌, List, length, nat_lt, if◌then◌else◌};
ghost use Rattle.timer_tree.specs.Nodes.{none, IsLink};
ghost use Rattle.timer_tree.specs.Moves.{inserted};
ghost use Rattle.timer_tree.specs.Places.{IsFinding, IsPlace, side_of};
ghost use Rattle.timer_tree.specs.Trees.{last_id};
ghost use Rattle.timer_tree.specs.Contexts.{IsTree};

use crate::block::Block;
use crate::node::{NONE, Node, Side};
use crate::steps::Steps;
use std::sync::ledger::Ledger;

/// Where a timer was linked: on which side of its parent, and whether that was a leaf.
#[derive(Clone, Copy)]
pub(crate) struct Link {
    pub(crate) side: Side,
    pub(crate) leaf: bool,
}

/// Finds the parent of the place behind all timers that expire as early or earlier. Where all do, that is the last timer, and no way down is gone.
pub(crate) fn find<L: Ledger>(
    block: &Block,
    root: u32,
    last: u32,
    expires: u64,
    steps: &mut Steps<L>,
) -> u32
    requires { (ps : List (ℕ × ℕ)) × IsTree block.now root ps × (last ≡ last_id ps) }
    ensures place { (ps : List (ℕ × ℕ)) → IsTree block.now root ps → last ≡ last_id ps → IsPlace block.now root result expires ps steps.old steps.new }
    ensures link { IsLink (length block.now) result }
{
    if last == NONE {
        return NONE;
    }
    let node = block.read(last, steps);
    if node.expires <= expires {
        return last;
    }
    find_below(block, root, expires, steps)
}

/// The same by the way down from the root.
fn find_below<L: Ledger>(block: &Block, root: u32, expires: u64, steps: &mut Steps<L>) -> u32
    requires { (ps : List (ℕ × ℕ)) × IsTree block.now root ps }
    ensures place { (ps : List (ℕ × ℕ)) → IsTree block.now root ps → IsFinding block.now root result none expires ps steps.old steps.new }
    ensures link { IsLink (length block.now) result }
{
    let mut parent = NONE;
    let mut at = root;
    while at != NONE {
        let node = block.read(at, steps);
        parent = at;
        at = node.near(side_of(expires, node.expires));
    }
    parent
}

/// The side of a node where a timer belongs that expires at this time.
fn side_of(expires: u64, node: u64) -> Side
    ensures { result ≡ side_of expires node }
{
    if expires < node {
        Side::Left
    } else {
        Side::Right
    }
}

/// Links a timer into its place below this parent.
#[tactic(auto, unfolding(crate::specs::Moves::inserted))]
pub(crate) fn insert<L: Ledger>(
    block: &mut Block,
    root: &mut u32,
    parent: u32,
    expires: u64,
    id: u32,
    steps: &mut Steps<L>,
) -> Link
    requires inside { id < length block.old }
    requires parent { IsLink (length block.old) parent }
    ensures block { (block.new, root.new, result) ≡ inserted block.old root.old parent expires id }
    ensures steps { steps.new ≤ steps.old + 3 }
{
    let node = Node {
        expires,
        left: NONE,
        right: NONE,
        parent,
        rank: 1,
    };
    block.write(id, node, steps);
    if parent == NONE {
        *root = id;
        return Link {
            side: Side::Left,
            leaf: false,
        };
    }
    let node = block.read(parent, steps);
    let leaf = node.is_leaf();
    let side = side_of(expires, node.expires);
    match side {
        Side::Left => block.write(parent, Node { left: id, ..node }, steps),
        Side::Right => block.write(parent, Node { right: id, ..node }, steps),
    }
    Link { side, leaf }
}
