//! What the six queues of a base do, whatever they are made of.
ghost use Rattle.std.specs.Prelude.{◌≡◌, ℕ, ◌<◌, ◌≤◌, List, [], IfOk, IsTrue, false, replicate, get_or};
ghost use Rattle.std.specs.List.{All};
ghost use Rattle.timer_queue.specs.Pairs.{IsQueue, first_of, has_any, has_id, put_among, without_among};

use std::alloc::{AllocError, Global};

/// Six queues of timers, as a base keeps them: one for each context and clock. Each timer is in one of them at most. Contracts see them as a list.
pub trait SixQueues {
    /// The pairs of each queue, the one that is due first at the front.
    ghost queues: { Self → List (List (ℕ × ℕ)) };

    /// The room: each timer number is below it.
    ghost bound: { Self → ℕ };

    /// For how many pairs there is memory, in each part of it.
    ghost capacity: { Self → List ℕ };

    /// Makes six empty queues for the timer numbers below `room`.
    fn make(alloc: Global, room: u32) -> Result<Self, AllocError>
        ensures queues { IfOk result (λ s. queues s ≡ replicate 6 []) }
        ensures bound { IfOk result (λ s. bound s ≡ room) }
        ensures capacity { IfOk result (λ s. All (λ n. room ≤ n) (capacity s)) };

    /// Adds a timer that is in none of them to one, behind all that expire as early or earlier. It takes no memory. `expires` is in nanoseconds.
    fn add(&mut self, queue: u32, expires: u64, id: u32)
        requires queue { queue < 6 }
        requires absent { has_any id (queues self.old) ≡ false }
        requires below { id < bound self.old }
        ensures queues { queues self.new ≡ put_among queue expires id (queues self.old) }
        ensures bound { bound self.new ≡ bound self.old }
        ensures capacity { capacity self.new ≡ capacity self.old };

    /// Takes a timer out of the queue that it is in. The others keep their order.
    fn erase(&mut self, queue: u32, id: u32)
        requires queue { queue < 6 }
        requires present { IsTrue (has_id id (get_or (queues self.old) queue [])) }
        ensures queues { queues self.new ≡ without_among queue id (queues self.old) }
        ensures bound { bound self.new ≡ bound self.old }
        ensures capacity { capacity self.new ≡ capacity self.old };

    /// The timer of a queue that is due first.
    fn first(&self, queue: u32) -> Option<(u64, u32)>
        requires { queue < 6 }
        ensures first { result ≡ first_of (get_or (queues self.now) queue []) }
        ensures kept { IsQueue (bound self.now) (get_or (queues self.now) queue []) };

    /// Whether a timer is in one of the queues.
    fn has(&self, id: u32) -> bool
        ensures { result ≡ has_any id (queues self.now) };
}
