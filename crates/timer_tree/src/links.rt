//! How links between nodes are read and written.
ghost use Rattle.std.specs.Prelude.{◌≡◌, ◌+◌, ◌≤◌, ◌<◌, length};
ghost use Rattle.timer_tree.specs.Nodes.{node_at, none, IsLink};
ghost use Rattle.timer_tree.specs.Links.{adopted, relinked};

use crate::block::Block;
use crate::node::NONE;
use crate::steps::Steps;
use std::sync::ledger::Ledger;

/// The rank of the subtree below a link.
pub(crate) fn rank_of<L: Ledger>(block: &Block, n: u32, steps: &mut Steps<L>) -> u32
    requires link { IsLink (length block.now) n }
    requires small { length block.now ≤ none }
    ensures rank { result ≡ (node_at block.now n).rank }
    ensures steps { steps.new ≤ steps.old + 1 }
{
    if n == NONE {
        0
    } else {
        block.read(n, steps).rank
    }
}

/// Becomes a subtree another parent.
pub(crate) fn adopt<L: Ledger>(block: &mut Block, n: u32, parent: u32, steps: &mut Steps<L>)
    requires link { IsLink (length block.old) n }
    requires parent { IsLink (length block.old) parent }
    requires small { length block.old ≤ none }
    ensures block { block.new ≡ adopted block.old n parent }
    ensures room { length block.new ≡ length block.old }
    ensures steps { steps.new ≤ steps.old + 1 }
{
    if n != NONE {
        block.set_parent(n, parent, steps);
    }
}

/// Puts a subtree in another's place below their parent, or at the root.
pub(crate) fn relink<L: Ledger>(
    block: &mut Block,
    root: &mut u32,
    parent: u32,
    from: u32,
    to: u32,
    steps: &mut Steps<L>,
)
    requires parent { IsLink (length block.old) parent }
    requires link { IsLink (length block.old) to }
    ensures block { (block.new, root.new) ≡ relinked block.old root.old parent from to }
    ensures room { length block.new ≡ length block.old }
    ensures steps { steps.new ≤ steps.old + 1 }
{
    if parent == NONE {
        *root = to;
        return;
    }
    block.set_child(parent, from, to, steps);
}
