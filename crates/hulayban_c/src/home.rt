//! All timers of a handle.
ghost use Rattle.std.specs.Prelude.{◌≡◌, length};

use std::marker::Model;
use timer_core::Core;
use timer_tree::TimerTree;

/// All timers and bases of a handle, and how many there are. Contracts see it as its core.
#[derive(Drop)]
pub struct Home {
    pub core: Core<TimerTree>,
    pub timers: u32,
    pub bases: u32,
}

impl Model for Home {
    ghost use Rattle.std.specs.Prelude.{◌≡◌, length};
    ghost use Rattle.timer_core.specs.Kept.{Kept};

    ghost Value = { Kept };

    ghost view = { λ h. h.core };

    ghost invariant = { λ h. (length h.core.timers ≡ h.timers) × (length h.core.bases ≡ h.bases) };
}
