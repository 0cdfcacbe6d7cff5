//! What a timer is declared as.
ghost use Rattle.std.specs.Prelude.{◌≡◌};
ghost use Rattle.timer_objects.specs.declared.object.Kind.TheVariants as kinds;
ghost use Rattle.hulayban.specs.Systems.{declares, declared_as_object, declared_as_timer};

use ktime::ClockId;
use seq_timer::{Context, Declared};
use timer_objects::{Decl, Kind};

/// A timer: its clock and the context of its function, what stands over it, and the base on which that arms it.
#[derive(Clone, Copy, Debug, PartialEq, Eq)]
pub struct Declaration {
    pub clock: ClockId,
    pub context: Context,
    pub kind: Kind,
    pub base: u32,
}

impl Declaration {
    /// A timer by itself, of the hard context. Its starts name their base.
    pub fn raw(clock: ClockId) -> Declaration
        ensures { result ≡ declares kinds.Raw clock 0 }
    {
        Declaration::over(Kind::Raw, clock, 0)
    }

    /// What stands over a timer of the hard context: a POSIX timer, with queued signals or not, a descriptor, or a sleeper.
    pub fn over(kind: Kind, clock: ClockId, base: u32) -> Declaration
        ensures { result ≡ declares kind clock base }
    {
        Declaration {
            clock,
            context: Context::Hard,
            kind,
            base,
        }
    }

    /// What timers are told of it.
    pub(crate) fn timer(self) -> Declared
        ensures { result ≡ declared_as_timer self }
    {
        Declared {
            clock: self.clock,
            context: self.context,
        }
    }

    /// What objects are told of it.
    pub(crate) fn object(self) -> Decl
        ensures { result ≡ declared_as_object self }
    {
        Decl {
            kind: self.kind,
            clock: self.clock,
            base: self.base,
        }
    }
}
