//! What a caller holds whose pass carries a timer from one base to another.
ghost use Rattle.std.specs.Prelude.{◌≡◌};

use seq_timer::TimerState;
use std::marker::Model;

/// A pass that carries a timer to another base: nobody else makes an entry of the timer meanwhile, and a call on it is told that it is on the move. It
/// can't be dropped: `try_arrive` spends it.
pub struct Carrier {
    pub(crate) inner: base_row::Pass,
    pub(crate) timer: u32,
    pub(crate) state: TimerState,
    pub(crate) was_armed: bool,
}

impl Model for Carrier {
    ghost use Rattle.hr_timers.specs.Carriers.{CarrierOf, StandsCarrying};
    ghost use Rattle.hr_timers.specs.Known.{pass_of};

    ghost Value = { CarrierOf };

    ghost view = { λ c. record { pass = pass_of c.inner; timer = c.timer; state = c.state; was_armed = c.was_armed } };

    ghost invariant = { λ c. StandsCarrying c.inner.knows c.timer c.state };
}

impl Carrier {
    /// The timer that is carried.
    pub fn timer(&self) -> u32
        ensures { result ≡ self.now.timer }
    {
        self.timer
    }

    /// The base that it goes to.
    pub fn base(&self) -> u32
        ensures { result ≡ self.now.state.base }
    {
        self.state.base()
    }

    /// Whether it was armed before it was sent off.
    pub fn was_armed(&self) -> bool
        ensures { result ≡ self.now.was_armed }
    {
        self.was_armed
    }
}
