//! What the calls' clauses say together.
ghost use Rattle.std.specs.Prelude.{ℕ, ◌≤◌, List};
ghost use Rattle.seq_timer.specs.Systems.{rises_of};
ghost use Rattle.seq_timer.specs.declared.system.SystemEntry as entry;
ghost use Rattle.ordered_clock.specs.Moments.{IsReadBeforeItIsWritten, ReadsAt, clock_counter};

/// Who has seen what a call made behind its reading makes none of the writes that this reading had.
#[tactic(auto, using(crate::proofs::Moments::never))]
pub fn no_write_comes_after_its_reading()
    ensures { (stamp : ℕ) → IsReadBeforeItIsWritten stamp → ⊥ }
{}

/// A reading has each write that the pass had seen among the entries of the timers before.
#[tactic(auto, using(crate::proofs::Moments::no_older))]
pub fn a_reading_is_not_older_than_what_was_seen()
    ensures { (old new : List entry.SystemEntry) (stamp : ℕ) → ReadsAt old new stamp → rises_of clock_counter old ≤ stamp }
{}
