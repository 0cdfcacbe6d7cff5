//! The block of nodes: each touch of a node is counted here.
ghost use Rattle.std.specs.Prelude.{◌≡◌, ◌+◌, ◌<◌, ◌≤◌, List, IfOk, length, replicate, slice_set, nat_lt};
ghost use Rattle.timer_tree.specs.Nodes.{node_at, blank, IsLink, HasLinks, AreLinked};
ghost use Rattle.timer_tree.specs.Links.{replaced, linked};
ghost use Rattle.timer_tree.specs.declared.node.Node.{Node};

use crate::node::{Node, Side};
use crate::steps::Steps;
use std::alloc::{AllocError, Global};
use std::marker::Model;
use std::sync::ledger::Ledger;

/// The block of nodes, one for each number below the room. Its memory is given back when it is dropped.
#[derive(Drop)]
pub(crate) struct Block {
    nodes: Vec<Node>,
}

impl Model for Block {
    ghost Value = { List Node };

    ghost view = { λ b. b.nodes.items };

    ghost invariant = { λ b. AreLinked b.nodes.items };
}

impl Block {
    /// Takes memory for so many nodes, none of them in the tree.
    pub(crate) fn make(alloc: Global, room: u32) -> Result<Block, AllocError>
        ensures { IfOk result (λ b. b ≡ replicate room blank) }
    {
        let nodes = vec![in alloc; Node::blank(); room as usize]?;
        Ok(Block { nodes })
    }

    /// Whether there is a node with this number. That touches none.
    pub(crate) fn holds(&self, n: u32) -> bool
        ensures { result ≡ nat_lt n (length self.now) }
    {
        (n as usize) < self.nodes.len()
    }

    /// Reads a node, and counts it.
    pub(crate) fn read<L: Ledger>(&self, n: u32, steps: &mut Steps<L>) -> Node
        requires inside { n < length self.now }
        ensures node { result ≡ node_at self.now n }
        ensures links { HasLinks (length self.now) result }
        ensures steps { steps.new ≡ steps.old + 1 }
    {
        steps.tick();
        self.nodes[n as usize]
    }

    /// Writes a node, and counts it.
    pub(crate) fn write<L: Ledger>(&mut self, n: u32, node: Node, steps: &mut Steps<L>)
        requires inside { n < length self.old }
        requires links { HasLinks (length self.old) node }
        ensures block { self.new ≡ slice_set self.old n node }
        ensures room { length self.new ≡ length self.old }
        ensures steps { steps.new ≡ steps.old + 1 }
    {
        steps.tick();
        self.nodes[n as usize] = node;
    }

    /// Becomes a node another parent, and counts it.
    pub(crate) fn set_parent<L: Ledger>(&mut self, n: u32, parent: u32, steps: &mut Steps<L>)
        requires inside { n < length self.old }
        requires link { IsLink (length self.old) parent }
        ensures block { self.new ≡ slice_set self.old n (record (node_at self.old n) { parent = parent }) }
        ensures room { length self.new ≡ length self.old }
        ensures steps { steps.new ≡ steps.old + 1 }
    {
        steps.tick();
        let node = &mut self.nodes[n as usize];
        node.parent = parent;
    }

    /// Becomes a node another node in place of one below it, and counts it.
    pub(crate) fn set_child<L: Ledger>(&mut self, n: u32, from: u32, to: u32, steps: &mut Steps<L>)
        requires inside { n < length self.old }
        requires link { IsLink (length self.old) to }
        ensures block { self.new ≡ slice_set self.old n (replaced (node_at self.old n) from to) }
        ensures room { length self.new ≡ length self.old }
        ensures steps { steps.new ≡ steps.old + 1 }
    {
        steps.tick();
        let node = &mut self.nodes[n as usize];
        if node.left == from {
            node.left = to;
        } else {
            node.right = to;
        }
    }

    /// Becomes a node another subtree on a side, another parent and another rank, and counts it.
    pub(crate) fn set_links<L: Ledger>(
        &mut self,
        n: u32,
        side: Side,
        child: u32,
        parent: u32,
        rank: u32,
        steps: &mut Steps<L>,
    )
        requires inside { n < length self.old }
        requires child { IsLink (length self.old) child }
        requires parent { IsLink (length self.old) parent }
        ensures block { self.new ≡ slice_set self.old n (linked side (node_at self.old n) child parent rank) }
        ensures room { length self.new ≡ length self.old }
        ensures steps { steps.new ≡ steps.old + 1 }
    {
        steps.tick();
        let node = &mut self.nodes[n as usize];
        match side {
            Side::Left => node.left = child,
            Side::Right => node.right = child,
        }
        node.parent = parent;
        node.rank = rank;
    }

    /// Becomes a node another rank, and counts it.
    pub(crate) fn set_rank<L: Ledger>(&mut self, n: u32, rank: u32, steps: &mut Steps<L>)
        requires inside { n < length self.old }
        ensures block { self.new ≡ slice_set self.old n (record (node_at self.old n) { rank = rank }) }
        ensures room { length self.new ≡ length self.old }
        ensures steps { steps.new ≡ steps.old + 1 }
    {
        steps.tick();
        let node = &mut self.nodes[n as usize];
        node.rank = rank;
    }
}
