//! The six queues of a base as plain lists.
ghost use Rattle.std.specs.Prelude.{◌≡◌, ℕ, List, length};
ghost use Rattle.std.specs.List.{All};
ghost use Rattle.timer_queue.specs.Pairs.{has_any};
ghost use Rattle.timer_queue.specs.Lists.{capacities_of, pairs_of};

use crate::list::ListQueue;
use crate::queue::Queue;
use crate::six::SixQueues;
use std::alloc::{AllocError, Global};
use std::marker::Model;

/// Six queues, each a plain list with memory of its own.
#[derive(Drop)]
pub struct SixLists {
    lists: Vec<ListQueue>,
    most: u32,
}

impl Model for SixLists {
    ghost Value = { List (List (ℕ × ℕ)) × ℕ × List ℕ };

    ghost view = { λ s. (pairs_of s.lists.items, s.most, capacities_of s.lists.items) };

    ghost invariant = { λ s. (length s.lists.items ≡ 6) × All (λ q. q.1 ≡ s.most) s.lists.items };
}

impl SixQueues for SixLists {
    ghost queues = { λ s. s.0 };

    ghost bound = { λ s. s.1 };

    ghost capacity = { λ s. s.2 };

    fn make(alloc: Global, room: u32) -> Result<SixLists, AllocError> {
        let mut lists = Vec::with_capacity(alloc, 6)?;
        for _ in 0..6u32 {
            lists.push(ListQueue::make(alloc, room)?)?;
        }
        Ok(SixLists { lists, most: room })
    }

    fn add(&mut self, queue: u32, expires: u64, id: u32) {
        let list = &mut self.lists[queue as usize];
        list.add(expires, id);
    }

    fn erase(&mut self, queue: u32, id: u32) {
        let list = &mut self.lists[queue as usize];
        list.erase(id);
    }

    fn first(&self, queue: u32) -> Option<(u64, u32)> {
        let list = &self.lists[queue as usize];
        list.first()
    }

    fn has(&self, id: u32) -> bool {
        has_any(&self.lists, id)
    }
}

/// Whether a timer is in one of these lists.
fn has_any(lists: &[ListQueue], id: u32) -> bool
    ensures { result ≡ has_any id (pairs_of lists.now) }
{
    for list in lists {
        if list.has(id) {
            return true;
        }
    }
    false
}
