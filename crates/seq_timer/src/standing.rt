//! Whether a base is on line, and what changes that.
ghost use Rattle.std.specs.Prelude.{◌≡◌, ◌<◌};
ghost use Rattle.seq_timer.specs.Standings.{standing_after};

/// What happens to a base. Each event is one entry of its history.
#[derive(Clone, Copy, Debug, PartialEq, Eq)]
pub enum BaseEvent {
    /// The base is taken off line, and this base takes its timers (`hrtimers_cpu_dying`).
    Offline { heir: u32 },
    /// The base is on line again (`hrtimers_cpu_starting`).
    Online,
}

/// Whether a base is on line, and how many entries its history has.
#[derive(Clone, Copy, Debug, PartialEq, Eq)]
pub struct Standing {
    pub stamp: u64,
    /// The base that takes its timers, while it is off line.
    pub heir: Option<u32>,
}

impl Standing {
    /// The standing after an event of the base.
    pub fn after(self, event: BaseEvent) -> Standing
        requires few { self.stamp < 65535 }
        ensures { result ≡ standing_after self event }
    {
        let heir = match event {
            BaseEvent::Offline { heir } => Some(heir),
            BaseEvent::Online => None,
        };
        Standing {
            stamp: self.stamp + 1,
            heir,
        }
    }
}
