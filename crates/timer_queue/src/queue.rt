//! What a queue of timers does, whatever it is made of.
ghost use Rattle.std.specs.Prelude.{◌≡◌, ℕ, ◌<◌, ◌≤◌, List, [], IfOk, IsTrue, false};
ghost use Rattle.timer_queue.specs.Pairs.{put, without, first_of, has_id, IsQueue};

use crate::six::SixQueues;
use std::alloc::{AllocError, Global};

/// A queue of timers, as one clock of one base keeps it. Contracts see it as a list of pairs (expiry, timer number) in the order in
/// which the timers are due; equal expiries stand in the order in which they were added.
pub trait Queue {
    /// What a base has of this kind: a queue for each context and clock.
    type Six: SixQueues + Drop;

    /// The pairs, the one that is due first at the front.
    ghost pairs: { Self → List (ℕ × ℕ) };

    /// The room: each timer number is below it.
    ghost bound: { Self → ℕ };

    /// For how many pairs the queue holds memory.
    ghost capacity: { Self → ℕ };

    /// Makes an empty queue for the timer numbers below `room`.
    fn make(alloc: Global, room: u32) -> Result<Self, AllocError>
        ensures pairs { IfOk result (λ q. pairs q ≡ []) }
        ensures bound { IfOk result (λ q. bound q ≡ room) }
        ensures capacity { IfOk result (λ q. room ≤ capacity q) };

    /// Adds a timer behind all that expire as early or earlier. It takes no memory. `expires` is in nanoseconds.
    fn add(&mut self, expires: u64, id: u32)
        requires absent { has_id id (pairs self.old) ≡ false }
        requires below { id < bound self.old }
        ensures pairs { pairs self.new ≡ put expires id (pairs self.old) }
        ensures bound { bound self.new ≡ bound self.old }
        ensures capacity { capacity self.new ≡ capacity self.old }
        ensures kept { IsQueue (bound self.new) (pairs self.new) };

    /// Takes a timer out. The others keep their order.
    fn erase(&mut self, id: u32)
        requires present { IsTrue (has_id id (pairs self.old)) }
        ensures pairs { pairs self.new ≡ without id (pairs self.old) }
        ensures bound { bound self.new ≡ bound self.old }
        ensures capacity { capacity self.new ≡ capacity self.old }
        ensures kept { IsQueue (bound self.new) (pairs self.new) };

    /// The timer that is due first.
    fn first(&self) -> Option<(u64, u32)>
        ensures first { result ≡ first_of (pairs self.now) }
        ensures kept { IsQueue (bound self.now) (pairs self.now) };

    /// Whether a timer is in the queue.
    fn has(&self, id: u32) -> bool
        ensures has { result ≡ has_id id (pairs self.now) }
        ensures kept { IsQueue (bound self.now) (pairs self.now) };
}
