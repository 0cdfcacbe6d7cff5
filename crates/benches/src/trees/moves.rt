//! Single moves of timers on any queue, and a queue to make them on.
ghost use Rattle.std.specs.Prelude.{◌≡◌, ◌+◌, ◌-◌, ◌^◌, ◌<◌, ◌≤◌, [], Some, min, IfOk, IfSome, IfNone, IsTrue};
ghost use Rattle.timer_queue.specs.Pairs.{put, without, first_of, has_id};

use crate::random::Random;
use std::alloc::{AllocError, Global};
use timer_queue::Queue;

/// Takes a timer off and puts it back with another expiry.
pub fn restart<Q: Queue>(queue: &mut Q, id: u32, expires: u64)
    requires present { IsTrue (has_id id (Q.pairs queue.old)) }
    requires below { id < Q.bound queue.old }
    ensures pairs { Q.pairs queue.new ≡ put expires id (without id (Q.pairs queue.old)) }
    ensures bound { Q.bound queue.new ≡ Q.bound queue.old }
{
    queue.erase(id);
    queue.add(expires, id);
}

/// Takes the first timer off and puts it back so many nanoseconds later. Gives its number.
pub fn postpone<Q: Queue>(queue: &mut Q, by: u64) -> Option<u32>
    ensures none { IfNone result ((Q.pairs queue.old ≡ []) × (Q.pairs queue.new ≡ [])) }
    ensures some { IfSome result (λ id. (at : _) × (first_of (Q.pairs queue.old) ≡ Some (at, id)) × (Q.pairs queue.new ≡ put (min (at + by) (2 ^ 64 - 1)) id (without id (Q.pairs queue.old)))) }
    ensures bound { Q.bound queue.new ≡ Q.bound queue.old }
{
    let (at, id) = queue.first()?;
    restart(queue, id, at.saturating_add(by));
    Some(id)
}

/// Makes a queue of the timers below `room`, each with a random expiry.
pub fn filled<Q: Queue + Drop>(
    alloc: Global,
    room: u32,
    random: &mut Random,
) -> Result<Q, AllocError>
    ensures { IfOk result (λ q. Q.bound q ≡ room) }
{
    let mut queue = Q::make(alloc, room)?;
    for id in 0..room {
        if !queue.has(id) {
            queue.add(random.expiry(), id);
        }
    }
    Ok(queue)
}

/// Starts one of the timers below `room` anew, picked at random.
pub fn pair<Q: Queue>(queue: &mut Q, room: u32, random: &mut Random)
    requires some { 0 < room }
    requires bound { Q.bound queue.old ≡ room }
    ensures bound { Q.bound queue.new ≡ room }
{
    let id = (random.next() % u64::from(room)) as u32;
    if queue.has(id) {
        restart(queue, id, random.expiry());
    }
}
