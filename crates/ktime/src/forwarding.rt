//! Moving the expiry of a periodic timer past now, by whole intervals.
ghost use Rattle.std.specs.Prelude.{◌≡◌, ◌≤◌, ◌<◌, ◌+◌, ℕ, suc, nat_lt, if◌then◌else◌};
ghost use Rattle.ktime.specs.Times.{last_time, next_after, passed, step_of, IsFewest};

use crate::times::LAST_TIME;

/// What a forward answers: how many periods passed, and the expiry after them.
#[derive(Clone, Copy, Debug, PartialEq, Eq)]
pub struct Forwarded {
    pub count: u64,
    /// In nanoseconds, at most the end of time.
    pub expires: u64,
}

/// The count is one for the expiry itself, if now has reached it, and then what passed of the next
/// instants: the definition, one instant at a time.
pub fn passed_counts_instants()
    ensures { (at now interval : ℕ) → passed at now interval ≡ (if nat_lt now at then 0 else suc (passed (at + step_of interval) now interval)) }
{}

/// What the definitions come to at some times: before the expiry, at it, past it by whole intervals and between them, with no interval, and at the
/// end of time.
pub fn forwards_at_some_times()
    ensures early { (passed 100 99 10 ≡ 0) × (next_after 100 99 10 ≡ 100) }
    ensures reached { (passed 100 100 10 ≡ 1) × (next_after 100 100 10 ≡ 110) }
    ensures late { (passed 100 130 10 ≡ 4) × (next_after 100 130 10 ≡ 140) }
    ensures between { (passed 100 139 10 ≡ 4) × (next_after 100 139 10 ≡ 140) }
    ensures no_interval { (passed 100 100 0 ≡ 1) × (next_after 100 100 0 ≡ 101) }
    ensures last { next_after last_time last_time 1 ≡ last_time }
{}

/// Moves an expiry past now by whole intervals (`hrtimer_forward`). An interval of 0 counts as the
/// resolution of one nanosecond.
pub fn forward(expires: u64, now: u64, interval: u64) -> Forwarded
    requires expires { expires ≤ last_time }
    requires now { now ≤ last_time }
    ensures count { result.count ≡ passed expires now interval }
    ensures next { result.expires ≡ next_after expires now interval }

    // As `hrtimer_forward` promises: the new expiry is the first past now that whole intervals reach.
    ensures early { now < expires → (result.count ≡ 0) × (result.expires ≡ expires) }
    ensures fewest { expires ≤ now → IsFewest expires now interval result.count }
{
    if now < expires {
        return Forwarded { count: 0, expires };
    }
    let step = interval.max(1);
    let elapsed = now - expires;
    let last = now - elapsed % step;
    Forwarded {
        count: elapsed / step + 1,
        expires: last.saturating_add(step).min(LAST_TIME),
    }
}
