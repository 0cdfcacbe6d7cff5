//! How ranks are put right from one node upwards.
ghost use Rattle.std.specs.Prelude.{◌≡◌, true, ℕ, ◌+◌, ◌≤◌, ◌<◌, List, length};
ghost use Rattle.timer_tree.specs.Nodes.{node_at, none, far, HasLinks, IsLink};
ghost use Rattle.timer_tree.specs.Contexts.{IsUnbalanced, IsRepairing, IsRepaired, IsOver};
ghost use Rattle.timer_tree.specs.declared.node.Node.{Node};
ghost use Rattle.timer_tree.specs.Moves.{ended, raised, risen, sunk, lowered, repair_step};
ghost use Rattle.timer_tree.specs.Rotate.{ranked};

use crate::block::Block;
use crate::links::rank_of;
use crate::node::{NONE, Node, Side};
use crate::rotate::rotate_at;
use crate::steps::Steps;
use std::sync::ledger::Ledger;

/// The node where a repair goes on, with the subtree below it that has changed, and its rank.
#[derive(Clone, Copy)]
pub(crate) struct Unbalanced {
    pub(crate) at: u32,
    pub(crate) child: u32,
    pub(crate) rank: u32,
}

/// Rebalances the tree above a timer that was inserted. Where its parent wasn't a leaf, all ranks are right.
#[inline(always)]
pub(crate) fn settle<L: Ledger>(
    block: &mut Block,
    root: &mut u32,
    parent: u32,
    leaf: bool,
    id: u32,
    steps: &mut Steps<L>,
)
    requires { (ps : List (ℕ × ℕ)) × (b : IsUnbalanced true block.old root.old (record { at = parent; child = id; rank = 1 }) ps) × IsOver b.context leaf }
    ensures { (ps : List (ℕ × ℕ)) (b : IsUnbalanced true block.old root.old (record { at = parent; child = id; rank = 1 }) ps) →
        IsOver b.context leaf → IsRepaired block.old block.new root.new ps (length b.context) steps.old steps.new }
{
    if parent == NONE {
        return;
    }
    if !leaf {
        return;
    }
    let rest = raise_leaf(block, parent, steps);
    repair(block, root, true, rest, steps);
}

/// Becomes a leaf that has got a subtree the rank 2. The repair goes on at its parent.
#[inline(always)]
fn raise_leaf<L: Ledger>(block: &mut Block, n: u32, steps: &mut Steps<L>) -> Unbalanced
    requires inside { n < length block.old }
    ensures block { block.new ≡ ranked block.old n 2 }
    ensures rest { result ≡ record { at = (node_at block.old n).parent; child = n; rank = 2 } }
    ensures steps { steps.new ≡ steps.old + 2 }
{
    let parent = block.read(n, steps).parent;
    go_on(block, n, parent, 2, steps)
}

/// Rebalances the tree above a subtree that has risen or sunk, as far as ranks change.
#[inline(always)]
pub(crate) fn repair<L: Ledger>(
    block: &mut Block,
    root: &mut u32,
    rising: bool,
    broken: Unbalanced,
    steps: &mut Steps<L>,
)
    requires { (xs : List Node) × (ps : List (ℕ × ℕ)) × (levels : ℕ) × (old : ℕ) × IsRepairing rising xs block.old root.old broken ps levels old steps.old }
    ensures { (xs : List Node) (ps : List (ℕ × ℕ)) (levels old : ℕ) → IsRepairing rising xs block.old root.old broken ps levels old steps.old →
        IsRepaired xs block.new root.new ps levels old steps.new }
{
    let Unbalanced {
        mut at,
        mut child,
        mut rank,
    } = broken;
    while at != NONE {
        let rest = Unbalanced { at, child, rank };
        let next = step(block, root, rising, rest, steps);
        at = next.at;
        child = next.child;
        rank = next.rank;
    }
}

/// One step of a repair.
#[inline(always)]
fn step<L: Ledger>(
    block: &mut Block,
    root: &mut u32,
    rising: bool,
    rest: Unbalanced,
    steps: &mut Steps<L>,
) -> Unbalanced
    requires inside { rest.at < length block.old }
    requires small { length block.old ≤ none }
    requires child { (node_at block.old rest.at).rank ≤ rest.rank → rest.child < length block.old }
    requires low { rest.rank ≤ 65 }
    ensures block { (block.new, root.new, result) ≡ repair_step rising block.old root.old rest }
    ensures steps { steps.new ≤ steps.old + 15 }
{
    if rising {
        rise_at(block, root, rest, steps)
    } else {
        sink_at(block, root, rest, steps)
    }
}

/// Becomes the node above a subtree that has risen one rank more where it needs that and its other subtree allows it. Where that doesn't,
/// the tree is rotated there.
#[inline(always)]
#[tactic(auto, unfolding(crate::specs::Moves::risen, crate::specs::Nodes::next))]
fn rise_at<L: Ledger>(
    block: &mut Block,
    root: &mut u32,
    rest: Unbalanced,
    steps: &mut Steps<L>,
) -> Unbalanced
    requires inside { rest.at < length block.old }
    requires small { length block.old ≤ none }
    requires child { (node_at block.old rest.at).rank ≤ rest.rank → rest.child < length block.old }
    ensures block { (block.new, root.new, result) ≡ risen block.old root.old rest (node_at block.old rest.at) }
    ensures steps { steps.new ≤ steps.old + 15 }
{
    let node = block.read(rest.at, steps);
    if node.rank > rest.rank {
        return end();
    }
    if node.left == rest.child {
        raise(
            block,
            root,
            Side::Left,
            rest,
            node.right,
            node.parent,
            node.rank,
            steps,
        )
    } else {
        raise(
            block,
            root,
            Side::Right,
            rest,
            node.left,
            node.parent,
            node.rank,
            steps,
        )
    }
}

/// Becomes a node one rank more where its other subtree allows that. Else the tree is rotated there.
#[inline(always)]
#[tactic(auto, unfolding(crate::specs::Moves::raised, crate::specs::Nodes::next))]
fn raise<L: Ledger>(
    block: &mut Block,
    root: &mut u32,
    side: Side,
    rest: Unbalanced,
    sibling: u32,
    parent: u32,
    rank: u32,
    steps: &mut Steps<L>,
) -> Unbalanced
    requires inside { rest.at < length block.old }
    requires small { length block.old ≤ none }
    requires child { rest.child < length block.old }
    requires sibling { IsLink (length block.old) sibling }
    ensures block { (block.new, root.new, result) ≡ raised block.old root.old side rest sibling parent rank }
    ensures steps { steps.new ≤ steps.old + 14 }
{
    if rank_of(block, sibling, steps).wrapping_add(1) == rank {
        return go_on(block, rest.at, parent, rank.wrapping_add(1), steps);
    }
    rotate_at(block, root, side, rest.at, rest.child, steps);
    end()
}

/// Becomes the node above a subtree that has sunk the rank that it needs. The repair ends where that is the one that it has.
#[inline(always)]
#[tactic(auto, unfolding(crate::specs::Moves::lowered))]
fn sink_at<L: Ledger>(
    block: &mut Block,
    root: &mut u32,
    rest: Unbalanced,
    steps: &mut Steps<L>,
) -> Unbalanced
    requires inside { rest.at < length block.old }
    requires small { length block.old ≤ none }
    requires low { rest.rank ≤ 65 }
    ensures block { (block.new, root.new, result) ≡ lowered block.old root.old rest (node_at block.old rest.at) }
    ensures steps { steps.new ≤ steps.old + 15 }
{
    let rank = block.read(rest.at, steps).rank;
    if rank > rest.rank + 2 {
        let node = block.read(rest.at, steps);
        return if node.left == rest.child {
            lower(block, root, Side::Left, rest, node, steps)
        } else {
            lower(block, root, Side::Right, rest, node, steps)
        };
    }
    if rank != 2 {
        return end();
    }
    let node = block.read(rest.at, steps);
    if node.is_high_leaf() {
        go_on(block, rest.at, node.parent, 1, steps)
    } else {
        end()
    }
}

/// Becomes a node one rank less where its other subtree allows that. Else the tree is rotated there.
#[inline(always)]
#[tactic(auto, unfolding(crate::specs::Moves::sunk))]
fn lower<L: Ledger>(
    block: &mut Block,
    root: &mut u32,
    side: Side,
    rest: Unbalanced,
    node: Node,
    steps: &mut Steps<L>,
) -> Unbalanced
    requires inside { rest.at < length block.old }
    requires small { length block.old ≤ none }
    requires links { HasLinks (length block.old) node }
    requires high { 2 < node.rank }
    ensures block { (block.new, root.new, result) ≡ sunk block.old root.old side rest (far side node) node.parent node.rank }
    ensures steps { steps.new ≤ steps.old + 13 }
{
    let n = node.far(side);
    if n == NONE {
        return go_on(block, rest.at, node.parent, node.rank - 1, steps);
    }
    let high = block.read(n, steps);
    if high.rank == node.rank - 1 {
        if rank_of(block, high.left, steps) > rest.rank
            || rank_of(block, high.right, steps) > rest.rank
        {
            rotate_at(block, root, side.other(), rest.at, n, steps);
            return end();
        }
        block.set_rank(n, node.rank - 2, steps);
    }
    go_on(block, rest.at, node.parent, node.rank - 1, steps)
}

/// Becomes a node another rank. The repair goes on at its parent.
#[inline(always)]
fn go_on<L: Ledger>(
    block: &mut Block,
    n: u32,
    parent: u32,
    rank: u32,
    steps: &mut Steps<L>,
) -> Unbalanced
    requires inside { n < length block.old }
    ensures block { block.new ≡ ranked block.old n rank }
    ensures rest { result ≡ record { at = parent; child = n; rank = rank } }
    ensures steps { steps.new ≡ steps.old + 1 }
{
    block.set_rank(n, rank, steps);
    Unbalanced {
        at: parent,
        child: n,
        rank,
    }
}

/// The repair goes on nowhere.
#[inline(always)]
fn end() -> Unbalanced
    ensures { result ≡ ended }
{
    Unbalanced {
        at: NONE,
        child: NONE,
        rank: 0,
    }
}
