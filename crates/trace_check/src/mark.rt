//! One expiry of a queue.
ghost use Rattle.std.specs.Prelude.{◌≡◌, ℕ, true};
ghost use Rattle.trace_check.specs.Holding.{is_covered, is_late};
ghost use Rattle.trace_check.specs.Traced.{is_ahead};

/// An expiry: its hard time, the number of the event that had armed its timer, and that of the event by which it came.
#[derive(Clone, Copy, Debug, PartialEq, Eq)]
pub struct Mark {
    pub expires: u64,
    pub order: u64,
    pub at: u64,
}

/// Whether a timer has its turn before another one of its queue.
pub fn is_before(expires: u64, order: u64, other_expires: u64, other_order: u64) -> bool
    ensures { result ≡ is_ahead expires order other_expires other_order }
{
    expires < other_expires || (expires == other_expires && order < other_order)
}

impl Mark {
    /// Whether this expiry passed a timer that waited since event `order`.
    pub fn is_late(&self, expires: u64, order: u64) -> bool
        ensures { result ≡ is_late expires order self.now }
    {
        order < self.at && !is_before(self.expires, self.order, expires, order)
    }

    /// Whether no timer is passed by this expiry that isn't passed by a later one.
    #[tactic(auto, unfolding(crate::specs::Holding::is_covered))]
    pub fn is_covered_by(&self, later: &Mark) -> bool
        ensures covered { result ≡ true → (expires order : ℕ) → is_late expires order self.now ≡ true → is_late expires order later.now ≡ true }
        ensures exact { result ≡ is_covered self.now later.now }
    {
        self.at <= later.at && !is_before(later.expires, later.order, self.expires, self.order)
    }
}
