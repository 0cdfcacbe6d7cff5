//! A queue that is a plain list of pairs.
ghost use Rattle.std.specs.Prelude.{◌≡◌, ℕ, ◌≤◌, List, vec_capacity};
ghost use Rattle.timer_queue.specs.Pairs.{IsQueue, place_of};

use crate::queue::Queue;
use crate::six_lists::SixLists;
use std::alloc::{AllocError, Global};
use std::marker::Model;

/// A queue that is a plain list: adding and erasing pass over it.
#[derive(Drop)]
pub struct ListQueue {
    list: Vec<(u64, u32)>,
    room: u32,
}

impl Model for ListQueue {
    ghost Value = { List (ℕ × ℕ) × ℕ × ℕ };

    ghost view = { λ q. (q.list.items, q.room, vec_capacity q.list) };

    ghost invariant = { λ q. IsQueue q.room q.list.items × (q.room ≤ vec_capacity q.list) };
}

impl Queue for ListQueue {
    type Six = SixLists;

    ghost pairs = { λ q. q.0 };

    ghost bound = { λ q. q.1 };

    ghost capacity = { λ q. q.2 };

    fn make(alloc: Global, room: u32) -> Result<ListQueue, AllocError> {
        let list = Vec::with_capacity(alloc, room as usize)?;
        Ok(ListQueue { list, room })
    }

    fn add(&mut self, expires: u64, id: u32) {
        let at = place(&self.list, expires);
        let Ok(()) = self.list.insert(at, (expires, id)) else {
            unreachable!()
        };
    }

    fn erase(&mut self, id: u32) {
        self.list.retain(|pair| pair.1 != id);
    }

    fn first(&self) -> Option<(u64, u32)> {
        self.list.first().copied()
    }

    fn has(&self, id: u32) -> bool {
        self.list.iter().any(|pair| pair.1 == id)
    }
}

/// The index of the first pair that expires later, or the length.
fn place(list: &[(u64, u32)], expires: u64) -> usize
    ensures { result ≡ place_of expires list.now }
{
    for (at, pair) in list.iter().enumerate() {
        if expires < pair.0 {
            return at;
        }
    }
    list.len()
}
