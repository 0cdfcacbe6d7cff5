//! How the tree is rotated at a node.
ghost use Rattle.std.specs.Prelude.{◌≡◌, ◌+◌, ◌≤◌, ◌<◌, length};
ghost use Rattle.timer_tree.specs.Nodes.{node_at, none, far, HasLinks};
ghost use Rattle.timer_tree.specs.Rotate.{rotated_once, twice_by, rotated, rotated_up};
ghost use Rattle.timer_tree.specs.declared.node.Side.TheVariants as sides;

use crate::block::Block;
use crate::links::{adopt, rank_of, relink};
use crate::node::{NONE, Node, Side};
use crate::steps::Steps;
use std::sync::ledger::Ledger;

/// A subtree by the number at its root, and its rank.
#[derive(Clone, Copy)]
pub(crate) struct Top {
    pub(crate) root: u32,
    pub(crate) rank: u32,
}

/// A node with its number.
#[derive(Clone, Copy)]
pub(crate) struct Numbered {
    pub(crate) n: u32,
    pub(crate) node: Node,
}

/// Rotates the tree at a node whose subtree on this side is too high.
#[inline(always)]
pub(crate) fn rotate_at<L: Ledger>(
    block: &mut Block,
    root: &mut u32,
    side: Side,
    at: u32,
    high: u32,
    steps: &mut Steps<L>,
)
    requires at { at < length block.old }
    requires high { high < length block.old }
    requires small { length block.old ≤ none }
    ensures block { (block.new, root.new) ≡ rotated_up block.old root.old side at high }
    ensures steps { steps.new ≤ steps.old + 10 }
{
    match side {
        Side::Left => rotate_left(block, root, at, high, steps),
        Side::Right => rotate_right(block, root, at, high, steps),
    }
}

/// Rotates the tree where the left subtree is too high.
#[inline(never)]
fn rotate_left<L: Ledger>(
    block: &mut Block,
    root: &mut u32,
    at: u32,
    high: u32,
    steps: &mut Steps<L>,
)
    requires at { at < length block.old }
    requires high { high < length block.old }
    requires small { length block.old ≤ none }
    ensures block { (block.new, root.new) ≡ rotated_up block.old root.old sides.Left at high }
    ensures steps { steps.new ≤ steps.old + 10 }
{
    rotate_up(block, root, Side::Left, at, high, steps);
}

/// Rotates the tree where the right subtree is too high.
#[inline(never)]
fn rotate_right<L: Ledger>(
    block: &mut Block,
    root: &mut u32,
    at: u32,
    high: u32,
    steps: &mut Steps<L>,
)
    requires at { at < length block.old }
    requires high { high < length block.old }
    requires small { length block.old ≤ none }
    ensures block { (block.new, root.new) ≡ rotated_up block.old root.old sides.Right at high }
    ensures steps { steps.new ≤ steps.old + 10 }
{
    rotate_up(block, root, Side::Right, at, high, steps);
}

/// Rotates the tree at a node, and links the subtree to its parent.
#[inline(always)]
#[tactic(auto, unfolding(crate::specs::Rotate::rotated_up))]
fn rotate_up<L: Ledger>(
    block: &mut Block,
    root: &mut u32,
    side: Side,
    at: u32,
    high: u32,
    steps: &mut Steps<L>,
)
    requires at { at < length block.old }
    requires high { high < length block.old }
    requires small { length block.old ≤ none }
    ensures block { (block.new, root.new) ≡ rotated_up block.old root.old side at high }
    ensures steps { steps.new ≤ steps.old + 10 }
{
    let low = block.read(at, steps);
    let top = rotate(block, side, at, low, high, steps);
    relink(block, root, low.parent, at, top, steps);
}

/// Rotates a subtree, and gives its root.
#[inline(always)]
#[tactic(auto, unfolding(crate::specs::Rotate::rotated, crate::specs::Nodes::next))]
fn rotate<L: Ledger>(
    block: &mut Block,
    side: Side,
    n: u32,
    low: Node,
    m: u32,
    steps: &mut Steps<L>,
) -> u32
    requires low { n < length block.old }
    requires low_links { HasLinks (length block.old) low }
    requires high { m < length block.old }
    requires small { length block.old ≤ none }
    ensures block { (block.new, result) ≡ rotated block.old side n low m (node_at block.old m) }
    ensures room { length block.new ≡ length block.old }
    ensures top { result < length block.old }
    ensures steps { steps.new ≤ steps.old + 8 }
{
    let high = block.read(m, steps);
    let outer = rank_of(block, high.near(side), steps);
    let k = high.far(side);
    if outer.wrapping_add(1) == high.rank || k == NONE {
        rotate_once(block, side, n, low, m, high, steps);
        m
    } else {
        rotate_twice(block, side, n, low, m, high, steps);
        k
    }
}

/// Sets the high node above the low one.
#[tactic(auto, unfolding(crate::specs::Rotate::rotated_once, crate::specs::Nodes::next))]
#[inline(always)]
fn rotate_once<L: Ledger>(
    block: &mut Block,
    side: Side,
    n: u32,
    low: Node,
    m: u32,
    high: Node,
    steps: &mut Steps<L>,
)
    requires low { n < length block.old }
    requires low_links { HasLinks (length block.old) low }
    requires high { m < length block.old }
    requires high_links { HasLinks (length block.old) high }
    requires small { length block.old ≤ none }
    ensures block { block.new ≡ rotated_once block.old side n m (far side high) low.parent low.rank }
    ensures room { length block.new ≡ length block.old }
    ensures steps { steps.new ≤ steps.old + 4 }
{
    let k = high.far(side);
    let below = rank_of(block, k, steps).wrapping_add(1);
    adopt(block, k, n, steps);
    block.set_links(n, side, k, m, below, steps);
    block.set_links(m, side.other(), n, low.parent, low.rank, steps);
}

/// Sets the inner node above both.
#[tactic(auto, unfolding(crate::specs::Rotate::rotated_twice))]
#[inline(always)]
fn rotate_twice<L: Ledger>(
    block: &mut Block,
    side: Side,
    n: u32,
    low: Node,
    m: u32,
    high: Node,
    steps: &mut Steps<L>,
)
    requires low { n < length block.old }
    requires low_links { HasLinks (length block.old) low }
    requires high { m < length block.old }
    requires high_links { HasLinks (length block.old) high }
    requires inner { far side high < length block.old }
    requires small { length block.old ≤ none }
    ensures block { block.new ≡ twice_by block.old side n m (far side high) (node_at block.old (far side high)) low.parent low.rank }
    ensures room { length block.new ≡ length block.old }
    ensures steps { steps.new ≤ steps.old + 6 }
{
    let k = high.far(side);
    let inner = block.read(k, steps);
    let (near, far) = (inner.near(side), inner.far(side));
    adopt(block, near, m, steps);
    adopt(block, far, n, steps);
    block.set_links(n, side, far, k, inner.rank, steps);
    block.set_links(m, side.other(), near, k, inner.rank, steps);
    let top = inner.with_links(side, m, n, low.parent, low.rank);
    block.write(k, top, steps);
}
