//! What a caller holds: a pass, and the claims of timers whose functions it runs.
ghost use Rattle.std.specs.Prelude.{◌≡◌};

use crate::numbers::ClaimNumbers;
use std::marker::Model;

/// The right to call timers, with what its holder knows of them. It has no bytes, and can't be dropped: it is retired to another pass, or spent
/// by the end of the timers.
pub struct Pass {
    pub(crate) inner: base_row::Pass,
}

impl Model for Pass {
    ghost use Rattle.base_row.specs.Rests.{Rests};
    ghost use Rattle.hr_timers.specs.Known.{PassOf, pass_of};

    ghost Value = { PassOf };

    ghost view = { λ p. pass_of p.inner };

    ghost invariant = { λ p. Rests p.inner.knows };
}

/// A timer whose function is to run, by the call that claimed it. It can't be dropped: `finish` spends it.
pub struct Claim {
    pub(crate) numbers: ClaimNumbers,
}

impl Model for Claim {
    ghost use Rattle.hr_timers.specs.declared.numbers.ClaimNumbers.{ClaimNumbers};

    ghost Value = { ClaimNumbers };

    ghost view = { λ c. c.numbers };
}

impl Claim {
    /// All four at once.
    pub fn numbers(&self) -> ClaimNumbers
        ensures { result ≡ self.now }
    {
        self.numbers
    }

    pub fn timer(&self) -> u32
        ensures { result ≡ self.now.timer }
    {
        self.numbers.timer
    }

    /// The generation that was armed, and now runs.
    pub fn generation(&self) -> u64
        ensures { result ≡ self.now.generation }
    {
        self.numbers.generation
    }

    /// The base where the function runs.
    pub fn base(&self) -> u32
        ensures { result ≡ self.now.base }
    {
        self.numbers.base
    }

    /// The number of the claim's entry among the timer's.
    pub fn number(&self) -> u64
        ensures { result ≡ self.now.number }
    {
        self.numbers.number
    }
}
