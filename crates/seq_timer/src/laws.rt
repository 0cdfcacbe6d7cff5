//! Laws over the histories of one timer, as clauses of functions without a body.
ghost use Rattle.std.specs.Prelude.{◌≡◌, ◌+◌, ◌<◌, ◌≤◌, ◌^◌, ℕ, true, false, List, length};
ghost use Rattle.std.specs.List.{AllByRecursion};
ghost use Rattle.seq_timer.specs.declared.context.Declared.{Declared};
ghost use Rattle.seq_timer.specs.declared.context.Terms.{Terms};
ghost use Rattle.seq_timer.specs.declared.observation.Observation.TheVariants as seen;
ghost use Rattle.seq_timer.specs.Histories.{Entry, HoldsAt, IsLegal, spans_of, state_after};
ghost use Rattle.seq_timer.specs.Laws.{AreApart, IsInOne, IsOfOneGeneration, is_cancelled, is_claimed};
ghost use Rattle.ktime.specs.Readings.{ClockReading};
ghost use Rattle.seq_timer.specs.Moves.{IsMovedTo, moved};
ghost use Rattle.seq_timer.specs.Steps.{HasRoom, IsBounded, Timer};

/// A generation that a cancel has answered is never claimed, neither before nor after: its function doesn't run.
pub fn a_cancelled_generation_never_runs()
    ensures claims { (declared : Declared) (terms : Terms) (generation : ℕ) (history : List Entry) → IsLegal declared terms history → is_cancelled generation history ≡ true → is_claimed generation history ≡ false }
    ensures spans { (declared : Declared) (terms : Terms) (generation : ℕ) (history : List Entry) → IsLegal declared terms history → is_cancelled generation history ≡ true → AllByRecursion (λ span. span.generation ≡ generation → ⊥) (spans_of history) }
{}

/// A timer's function never runs twice at once.
pub fn spans_do_not_overlap()
    ensures { (declared : Declared) (terms : Terms) (history : List Entry) → IsLegal declared terms history → AreApart (spans_of history) }
{}

/// A caller that is told that a generation runs is told so inside that generation's span.
pub fn running_is_told_inside_the_span()
    ensures { (declared : Declared) (terms : Terms) (stamp generation : ℕ) (history : List Entry) → IsLegal declared terms history → stamp ≤ length history → HoldsAt declared terms history stamp (seen.Running generation) → IsInOne generation stamp (spans_of history) }
{}

/// The claim, the forwards and the finish of a span speak of one generation.
pub fn a_span_has_one_generation()
    ensures { (declared : Declared) (terms : Terms) (history : List Entry) → IsLegal declared terms history → AllByRecursion (IsOfOneGeneration declared terms history) (spans_of history) }
{}

/// A timer's stamp is the number of its entries.
pub fn a_stamp_counts_entries()
    ensures { (declared : Declared) (terms : Terms) (history : List Entry) → IsLegal declared terms history → (state_after declared terms history).stamp ≡ length history }
{}

/// Few entries follow once the limit is reached, and once the reach past it is.
pub fn histories_end()
    ensures limit { (declared : Declared) (terms : Terms) (history : List Entry) → terms.reach ≡ 0 → IsLegal declared terms history → length history ≤ terms.limit + 3 }
    ensures reach { (declared : Declared) (terms : Terms) (history : List Entry) → IsLegal declared terms history → length history ≤ terms.limit + terms.reach + 80 }
    ensures stamp { (declared : Declared) (terms : Terms) (history : List Entry) → HasRoom terms → IsLegal declared terms history → length history < 2 ^ 48 }
{}

/// A timer that an evacuation moves is armed once more, on the heir, for the same times of the same clock.
pub fn a_move_keeps_the_expiry()
    ensures { (t : Timer) (heir : ℕ) (reading : ClockReading) → IsBounded t → IsMovedTo heir t (moved heir reading t) }
{}
