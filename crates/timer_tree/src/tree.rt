//! A queue of timers as a tree, and the calls that count what they touch.
ghost use Rattle.std.specs.Prelude.{◌≡◌, ℕ, ◌+◌, ◌*◌, ◌^◌, ◌<◌, ◌≤◌, false, List, length, IsTrue};
ghost use Rattle.timer_queue.specs.Pairs.{put, without, first_of, has_id, IsQueue};
ghost use Rattle.timer_tree.specs.Trees.{last_id, queue_at, times};
ghost use Rattle.timer_tree.specs.Contexts.{IsStored, AreUnranked};

use crate::block::Block;
use crate::shared::{EMPTY, Root, add_to, erase_from, first_of, is_linked};
use crate::six::SixTrees;
use crate::steps::Steps;
use std::alloc::{AllocError, Global};
use std::marker::{Brand, Model};
use std::sync::ledger::{Blank, Ledger};
use timer_queue::Queue;

/// A queue of timers as a balanced tree. Its nodes lie in one block that is taken by `make` and given back when the queue is
/// dropped: adding and erasing take and give nothing. Node n is the link of timer n, and the first and the last node's numbers are kept.
#[derive(Drop)]
pub struct TimerTree {
    block: Block,
    tree: Root,
}

impl Model for TimerTree {
    ghost Value = { List (ℕ × ℕ) × ℕ };

    ghost view = { λ t. (queue_at t.block t.tree.root, length t.block) };

    ghost invariant = { λ t. IsStored t.block t.tree.root t.tree.first (queue_at t.block t.tree.root)
        × AreUnranked t.block (λ k. times k (queue_at t.block t.tree.root)) × (t.tree.last ≡ last_id (queue_at t.block t.tree.root)) };
}

impl TimerTree {
    /// As `add`, counting the links that are read or written.
    pub fn add_counted<L: Ledger>(&mut self, expires: u64, id: u32, steps: &mut Steps<L>)
        requires absent { has_id id self.old.0 ≡ false }
        requires below { id < self.old.1 }
        ensures pairs { self.new.0 ≡ put expires id self.old.0 }
        ensures bound { self.new.1 ≡ self.old.1 }
        ensures kept { IsQueue self.new.1 self.new.0 }
        // Where d binary digits hold the number of timers before the call and one more.
        ensures steps { (d : ℕ) → length self.old.0 + 1 < 2 ^ d → steps.new ≤ steps.old + 32 * (d + 1) }
    {
        add_to(&mut self.block, &mut self.tree, expires, id, steps);
    }

    /// As `erase`, counting the links that are read or written.
    pub fn erase_counted<L: Ledger>(&mut self, id: u32, steps: &mut Steps<L>)
        requires present { IsTrue (has_id id self.old.0) }
        ensures pairs { self.new.0 ≡ without id self.old.0 }
        ensures bound { self.new.1 ≡ self.old.1 }
        ensures kept { IsQueue self.new.1 self.new.0 }
        // Where d binary digits hold the number of timers before the call and one more.
        ensures steps { (d : ℕ) → length self.old.0 + 1 < 2 ^ d → steps.new ≤ steps.old + 32 * (d + 1) }
    {
        erase_from(&mut self.block, &mut self.tree, id, steps);
    }

    /// As `first`, counting the links that are read or written.
    pub fn first_counted<L: Ledger>(&self, steps: &mut Steps<L>) -> Option<(u64, u32)>
        ensures first { result ≡ first_of self.now.0 }
        ensures kept { IsQueue self.now.1 self.now.0 }
        ensures steps { steps.new ≡ steps.old + 1 }
    {
        first_of(&self.block, &self.tree, steps)
    }

    /// As `has`, counting the links that are read or written.
    pub fn has_counted<L: Ledger>(&self, id: u32, steps: &mut Steps<L>) -> bool
        ensures has { result ≡ has_id id self.now.0 }
        ensures kept { IsQueue self.now.1 self.now.0 }
        ensures steps { steps.new ≤ steps.old + 1 }
    {
        is_linked(&self.block, id, steps)
    }

    /// Adds under a ledger of its own, whose count is let go.
    fn add_uncounted<L: Ledger>(&mut self, expires: u64, id: u32, blank: Blank)
        requires name { blank.name ≡ L.name }
        requires parts { blank.parts ≡ L.parts }
        requires some { 0 < L.parts }
        requires absent { has_id id self.old.0 ≡ false }
        requires below { id < self.old.1 }
        ensures pairs { self.new.0 ≡ put expires id self.old.0 }
        ensures bound { self.new.1 ≡ self.old.1 }
        ensures kept { IsQueue self.new.1 self.new.0 }
    {
        let mut steps = Steps::<L>::new(blank);
        self.add_counted(expires, id, &mut steps);
    }

    /// Erases under a ledger of its own, whose count is let go.
    fn erase_uncounted<L: Ledger>(&mut self, id: u32, blank: Blank)
        requires name { blank.name ≡ L.name }
        requires parts { blank.parts ≡ L.parts }
        requires some { 0 < L.parts }
        requires present { IsTrue (has_id id self.old.0) }
        ensures pairs { self.new.0 ≡ without id self.old.0 }
        ensures bound { self.new.1 ≡ self.old.1 }
        ensures kept { IsQueue self.new.1 self.new.0 }
    {
        let mut steps = Steps::<L>::new(blank);
        self.erase_counted(id, &mut steps);
    }

    /// The first under a ledger of its own, whose count is let go.
    fn first_uncounted<L: Ledger>(&self, blank: Blank) -> Option<(u64, u32)>
        requires name { blank.name ≡ L.name }
        requires parts { blank.parts ≡ L.parts }
        requires some { 0 < L.parts }
        ensures first { result ≡ first_of self.now.0 }
        ensures kept { IsQueue self.now.1 self.now.0 }
    {
        let mut steps = Steps::<L>::new(blank);
        self.first_counted(&mut steps)
    }

    /// Looks a timer up under a ledger of its own, whose count is let go.
    fn has_uncounted<L: Ledger>(&self, id: u32, blank: Blank) -> bool
        requires name { blank.name ≡ L.name }
        requires parts { blank.parts ≡ L.parts }
        requires some { 0 < L.parts }
        ensures has { result ≡ has_id id self.now.0 }
        ensures kept { IsQueue self.now.1 self.now.0 }
    {
        let mut steps = Steps::<L>::new(blank);
        self.has_counted(id, &mut steps)
    }
}

impl Queue for TimerTree {
    type Six = SixTrees;

    ghost pairs = { λ t. t.0 };

    ghost bound = { λ t. t.1 };

    // The block's room.
    ghost capacity = { λ t. t.1 };

    fn make(alloc: Global, room: u32) -> Result<TimerTree, AllocError> {
        let block = Block::make(alloc, room)?;
        Ok(TimerTree { block, tree: EMPTY })
    }

    fn add(&mut self, expires: u64, id: u32) {
        self.add_uncounted::<Brand>(expires, id, Blank::new(1));
    }

    fn erase(&mut self, id: u32) {
        self.erase_uncounted::<Brand>(id, Blank::new(1));
    }

    fn first(&self) -> Option<(u64, u32)> {
        self.first_uncounted::<Brand>(Blank::new(1))
    }

    fn has(&self, id: u32) -> bool {
        self.has_uncounted::<Brand>(id, Blank::new(1))
    }
}
