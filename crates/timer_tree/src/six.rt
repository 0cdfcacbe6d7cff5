//! The six queues of a base as trees that stand in one store of nodes.
ghost use Rattle.std.specs.Prelude.{◌≡◌, ◌+◌, ◌*◌, ◌^◌, ◌<◌, ◌≤◌, ℕ, List, [], ◌∷◌, false, IsTrue, get_or, length};
ghost use Rattle.timer_queue.specs.Pairs.{IsQueue, first_of, has_any, has_id, put_among, without_among};
ghost use Rattle.timer_tree.specs.Forests.{AreStored, queues_of};

use crate::block::Block;
use crate::shared::{EMPTY, Root, add_to, erase_from, first_of, is_linked};
use crate::steps::Steps;
use std::alloc::{AllocError, Global};
use std::marker::{Brand, Model};
use std::sync::ledger::{Blank, Ledger};
use timer_queue::SixQueues;

/// Six queues of timers as balanced trees. All their nodes lie in one block, with one node for each timer: it is in one queue at most. The block is
/// taken by `make` and given back when the queues are dropped: adding and erasing take and give nothing.
#[derive(Drop)]
pub struct SixTrees {
    block: Block,
    trees: [Root; 6],
}

impl Model for SixTrees {
    ghost Value = { List (List (ℕ × ℕ)) × ℕ };

    ghost view = { λ t. (queues_of t.block t.trees, length t.block) };

    ghost invariant = { λ t. AreStored t.block t.trees × (length t.trees ≡ 6) };
}

impl SixTrees {
    /// As `add`, counting the links that are read or written.
    pub fn add_counted<L: Ledger>(
        &mut self,
        queue: u32,
        expires: u64,
        id: u32,
        steps: &mut Steps<L>,
    )
        requires queue { queue < 6 }
        requires absent { has_any id self.old.0 ≡ false }
        requires below { id < self.old.1 }
        ensures queues { self.new.0 ≡ put_among queue expires id self.old.0 }
        ensures bound { self.new.1 ≡ self.old.1 }
        // Where d binary digits hold the number of the queue's timers before the call and one more.
        ensures steps { (d : ℕ) → length (get_or self.old.0 queue []) + 1 < 2 ^ d → steps.new ≤ steps.old + 32 * (d + 1) }
    {
        let tree = &mut self.trees[queue as usize];
        add_to(&mut self.block, tree, expires, id, steps);
    }

    /// As `erase`, counting the links that are read or written.
    pub fn erase_counted<L: Ledger>(&mut self, queue: u32, id: u32, steps: &mut Steps<L>)
        requires queue { queue < 6 }
        requires present { IsTrue (has_id id (get_or self.old.0 queue [])) }
        ensures queues { self.new.0 ≡ without_among queue id self.old.0 }
        ensures bound { self.new.1 ≡ self.old.1 }
        // Where d binary digits hold the number of the queue's timers before the call and one more.
        ensures steps { (d : ℕ) → length (get_or self.old.0 queue []) + 1 < 2 ^ d → steps.new ≤ steps.old + 32 * (d + 1) }
    {
        let tree = &mut self.trees[queue as usize];
        erase_from(&mut self.block, tree, id, steps);
    }

    /// As `first`, counting the links that are read or written.
    pub fn first_counted<L: Ledger>(&self, queue: u32, steps: &mut Steps<L>) -> Option<(u64, u32)>
        requires queue { queue < 6 }
        ensures first { result ≡ first_of (get_or self.now.0 queue []) }
        ensures kept { IsQueue self.now.1 (get_or self.now.0 queue []) }
        ensures steps { steps.new ≡ steps.old + 1 }
    {
        let tree = &self.trees[queue as usize];
        first_of(&self.block, tree, steps)
    }

    /// As `has`, counting the links that are read or written.
    pub fn has_counted<L: Ledger>(&self, id: u32, steps: &mut Steps<L>) -> bool
        ensures has { result ≡ has_any id self.now.0 }
        ensures steps { steps.new ≤ steps.old + 1 }
    {
        is_linked(&self.block, id, steps)
    }

    /// Adds under a ledger of its own, whose count is let go.
    fn add_uncounted<L: Ledger>(&mut self, queue: u32, expires: u64, id: u32, blank: Blank)
        requires name { blank.name ≡ L.name }
        requires parts { blank.parts ≡ L.parts }
        requires some { 0 < L.parts }
        requires queue { queue < 6 }
        requires absent { has_any id self.old.0 ≡ false }
        requires below { id < self.old.1 }
        ensures queues { self.new.0 ≡ put_among queue expires id self.old.0 }
        ensures bound { self.new.1 ≡ self.old.1 }
    {
        let mut steps = Steps::<L>::new(blank);
        self.add_counted(queue, expires, id, &mut steps);
    }

    /// Erases under a ledger of its own, whose count is let go.
    fn erase_uncounted<L: Ledger>(&mut self, queue: u32, id: u32, blank: Blank)
        requires name { blank.name ≡ L.name }
        requires parts { blank.parts ≡ L.parts }
        requires some { 0 < L.parts }
        requires queue { queue < 6 }
        requires present { IsTrue (has_id id (get_or self.old.0 queue [])) }
        ensures queues { self.new.0 ≡ without_among queue id self.old.0 }
        ensures bound { self.new.1 ≡ self.old.1 }
    {
        let mut steps = Steps::<L>::new(blank);
        self.erase_counted(queue, id, &mut steps);
    }

    /// The first of a queue under a ledger of its own, whose count is let go.
    fn first_uncounted<L: Ledger>(&self, queue: u32, blank: Blank) -> Option<(u64, u32)>
        requires name { blank.name ≡ L.name }
        requires parts { blank.parts ≡ L.parts }
        requires some { 0 < L.parts }
        requires queue { queue < 6 }
        ensures first { result ≡ first_of (get_or self.now.0 queue []) }
        ensures kept { IsQueue self.now.1 (get_or self.now.0 queue []) }
    {
        let mut steps = Steps::<L>::new(blank);
        self.first_counted(queue, &mut steps)
    }

    /// Looks a timer up under a ledger of its own, whose count is let go.
    fn has_uncounted<L: Ledger>(&self, id: u32, blank: Blank) -> bool
        requires name { blank.name ≡ L.name }
        requires parts { blank.parts ≡ L.parts }
        requires some { 0 < L.parts }
        ensures { result ≡ has_any id self.now.0 }
    {
        let mut steps = Steps::<L>::new(blank);
        self.has_counted(id, &mut steps)
    }
}

impl SixQueues for SixTrees {
    ghost queues = { λ t. t.0 };

    ghost bound = { λ t. t.1 };

    // The block's room serves all six.
    ghost capacity = { λ t. t.1 ∷ [] };

    fn make(alloc: Global, room: u32) -> Result<SixTrees, AllocError> {
        let block = Block::make(alloc, room)?;
        Ok(SixTrees {
            block,
            trees: [EMPTY; 6],
        })
    }

    fn add(&mut self, queue: u32, expires: u64, id: u32) {
        self.add_uncounted::<Brand>(queue, expires, id, Blank::new(1));
    }

    fn erase(&mut self, queue: u32, id: u32) {
        self.erase_uncounted::<Brand>(queue, id, Blank::new(1));
    }

    fn first(&self, queue: u32) -> Option<(u64, u32)> {
        self.first_uncounted::<Brand>(queue, Blank::new(1))
    }

    fn has(&self, id: u32) -> bool {
        self.has_uncounted::<Brand>(id, Blank::new(1))
    }
}
