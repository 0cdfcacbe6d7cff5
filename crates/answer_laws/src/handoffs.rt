//! Seats of a handoff.
ghost use Rattle.std.specs.Prelude.{◌≡◌, ℕ, List, Option};
ghost use Rattle.handoff.specs.Seated.{HandoffOf, Has, SeatOf};
ghost use Rattle.handoff.specs.declared.rule.Part.{Part};

/// What a seat knows and carries after a call is fixed by what it does then. The value that a worker gets, or that comes back, is said by the task alone.
pub fn a_seat_is_fixed<T, K>()
    ensures { (h : HandoffOf K) (part : Part T) (slots : List (ℕ × Option T)) (s s' : SeatOf T K) → Has h part slots s → Has h part slots s'
        → (s.table_id ≡ s'.table_id) × (s.me ≡ s'.me) }
{}
