//! How a timer is taken out of the tree.
ghost use Rattle.std.specs.Prelude.{◌≡◌, ℕ, ◌+◌, ◌≤◌, ◌<◌, List, length, nat_eq, if◌then◌else◌};
ghost use Rattle.timer_tree.specs.Nodes.{node_at, none, IsLink, HasLinks};
ghost use Rattle.timer_tree.specs.Contexts.{Frame};
ghost use Rattle.timer_tree.specs.Takes.{IsLowering, IsTaking, IsTaken};
ghost use Rattle.timer_tree.specs.Moves.{only_child, spliced, substituted};

use crate::block::Block;
use crate::links::{adopt, relink};
use crate::node::{NONE, Node};
use crate::repair::Unbalanced;
use crate::rotate::{Numbered, Top};
use crate::steps::Steps;
use std::sync::ledger::Ledger;

/// Takes a timer out of the tree. The ranks may be wrong then from a node upwards.
pub(crate) fn take_out<L: Ledger>(
    block: &mut Block,
    root: &mut u32,
    id: u32,
    node: Node,
    steps: &mut Steps<L>,
) -> Unbalanced
    requires node { node ≡ node_at block.old id }
    requires inside { id < length block.old }
    requires links { HasLinks (length block.old) node }
    requires small { length block.old ≤ none }
    requires taking { (ps : List (ℕ × ℕ)) × IsTaking block.old root.old id ps }
    ensures { (ps : List (ℕ × ℕ)) → IsTaking block.old root.old id ps → IsTaken block.old id ps block.new root.new result steps.old steps.new }
{
    if node.left != NONE && node.right != NONE {
        let heir = leftmost(block, node.right, steps);
        let child = only_child(heir.node);
        splice(block, root, heir, steps);
        substitute(block, root, id, heir, steps);
        let at = parent_of_gap(heir, id);
        return Unbalanced {
            at,
            child: child.root,
            rank: child.rank,
        };
    }
    let at = node.parent;
    let child = only_child(node);
    splice(block, root, Numbered { n: id, node }, steps);
    Unbalanced {
        at,
        child: child.root,
        rank: child.rank,
    }
}

/// The parent of the place that a node was taken from, once it has the place of this timer.
fn parent_of_gap(heir: Numbered, id: u32) -> u32
    ensures { result ≡ (if nat_eq heir.node.parent id then heir.n else heir.node.parent) }
{
    if heir.node.parent == id {
        heir.n
    } else {
        heir.node.parent
    }
}

/// The subtree of a node with at most one, and its rank.
fn only_child(node: Node) -> Top
    requires { 0 < node.rank }
    ensures { result ≡ only_child node }
{
    let root = if node.left == NONE {
        node.right
    } else {
        node.left
    };
    Top {
        root,
        rank: node.rank - 1,
    }
}

/// Takes out a node with at most one subtree, which gets its place.
#[tactic(auto, unfolding(crate::specs::Moves::spliced))]
fn splice<L: Ledger>(block: &mut Block, root: &mut u32, gone: Numbered, steps: &mut Steps<L>)
    requires links { HasLinks (length block.old) gone.node }
    requires high { 0 < gone.node.rank }
    requires small { length block.old ≤ none }
    ensures block { (block.new, root.new) ≡ spliced block.old root.old gone }
    ensures room { length block.new ≡ length block.old }
    ensures steps { steps.new ≤ steps.old + 2 }
{
    let Numbered { n, node } = gone;
    let child = only_child(node).root;
    adopt(block, child, node.parent, steps);
    relink(block, root, node.parent, n, child, steps);
}

/// Becomes a node that was taken out another's place and links.
#[tactic(auto, unfolding(crate::specs::Moves::substituted))]
fn substitute<L: Ledger>(
    block: &mut Block,
    root: &mut u32,
    id: u32,
    heir: Numbered,
    steps: &mut Steps<L>,
)
    requires inside { id < length block.old }
    requires heir { heir.n < length block.old }
    requires small { length block.old ≤ none }
    ensures block { (block.new, root.new) ≡ substituted block.old root.old id heir }
    ensures room { length block.new ≡ length block.old }
    ensures steps { steps.new ≤ steps.old + 5 }
{
    let node = block.read(id, steps);
    adopt(block, node.left, heir.n, steps);
    adopt(block, node.right, heir.n, steps);
    let expires = heir.node.expires;
    block.write(heir.n, Node { expires, ..node }, steps);
    relink(block, root, node.parent, id, heir.n, steps);
}

/// The node that is due first in a subtree.
fn leftmost<L: Ledger>(block: &Block, from: u32, steps: &mut Steps<L>) -> Numbered
    requires { (root : ℕ) × (above : List Frame) × (ps : List (ℕ × ℕ)) ×
        IsLowering block.now root above ps from (node_at block.now from) steps.old (steps.old + 1) }
    ensures lowest { (root : ℕ) (above : List Frame) (ps : List (ℕ × ℕ)) →
        IsLowering block.now root above ps from (node_at block.now from) steps.old (steps.old + 1) →
        IsLowering block.now root above ps result.n result.node steps.old steps.new }
    ensures last { result.node.left ≡ none }
    ensures inside { result.n < length block.now }
    ensures links { HasLinks (length block.now) result.node }
    ensures high { 0 < result.node.rank }
{
    let mut n = from;
    let mut node = block.read(n, steps);
    while node.left != NONE {
        n = node.left;
        node = block.read(n, steps);
    }
    Numbered { n, node }
}
