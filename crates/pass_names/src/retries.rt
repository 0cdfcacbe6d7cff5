//! A loop that tries until it is left, and lets other threads get on between two tries.
ghost use Rattle.std.specs.Prelude.{IsSome};
ghost use Rattle.std.specs.Iterator.{at_most};
ghost use Rattle.std.specs.Sync.Forever.{forever_left};

use crossbeam_utils::Backoff;
use std::sync::{Forever, Wait};

/// Tries without an end: `for _ in Retries::new(rt) { .. }` is left only from within. Before each try
/// but the first it backs off, more and more, and in the end yields the processor.
#[derive(Drop)]
pub struct Retries<'a, R: Wait> {
    turns: Forever<'a, R>,
    backoff: Backoff,
    tried: bool,
}

impl<'a, R: Wait> Retries<'a, R> {
    /// No try was made yet.
    #[inline(always)]
    pub fn new(rt: &'a R) -> Retries<'a, R> {
        Retries {
            turns: rt.forever(),
            backoff: Backoff::new(),
            tried: false,
        }
    }
}

impl<'a, R: Wait> Iterator for Retries<'a, R> {
    type Item = ();

    ghost next_gives = { λ _ r _. IsSome r };

    ghost remaining = { λ s. at_most (forever_left s.turns) };

    #[inline(always)]
    fn next(&mut self) -> Option<()> {
        if self.tried {
            self.backoff.snooze();
        }
        self.tried = true;
        self.turns.next()
    }
}
