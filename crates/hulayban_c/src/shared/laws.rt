//! How seats come and go has one answer for each seat: laws with no code. For the calls by a pass `answer_laws` has those of `hr_timers`.
ghost use Rattle.std.specs.Prelude.{ℕ, ℤ, ◌≡◌, ◌≢◌, List, Option};
ghost use Rattle.hulayban_c.specs.SeatLaws.{AreAlikeKept, IsSeatIfAny};
ghost use Rattle.hulayban_c.specs.Seats.{SeatAt};
ghost use Rattle.hulayban_c.specs.SharedSeats.{SharedLeave, SharedOpen, SharedSplit};
ghost use Rattle.hulayban_c.specs.declared.codes.TheConstants.{NO_MEMORY};
ghost use Rattle.hulayban_c.specs.declared.crossing.Declares as declarations;

/// Where memory doesn't run out, new timers and their first seat have one answer, and what is behind the handle then is alike.
pub fn an_open_is_fixed()
    ensures { (was : Option SeatAt) (bases : ℕ) (declares : List declarations.Declares) (max_events : ℕ) (r r' : ℤ) (is is' : Option SeatAt)
        → SharedOpen was bases declares max_events r is → SharedOpen was bases declares max_events r' is' → r ≢ NO_MEMORY → r' ≢ NO_MEMORY
        → (r ≡ r') × AreAlikeKept is is' }
{}

/// The same of a split, and of the seat that it makes.
pub fn a_split_is_fixed()
    ensures { (was none : Option SeatAt) (r r' : ℤ) (is is' new new' : Option SeatAt) → IsSeatIfAny was → SharedSplit was none r is new
        → SharedSplit was none r' is' new' → r ≢ NO_MEMORY → r' ≢ NO_MEMORY → (r ≡ r') × AreAlikeKept is is' × AreAlikeKept new new' }
{}

/// A seat is left with one answer, and leaves the same behind its handle.
pub fn a_leave_is_fixed()
    ensures { (was : Option SeatAt) (r r' : ℤ) (is is' : Option SeatAt) → IsSeatIfAny was → SharedLeave was r is → SharedLeave was r' is'
        → (r ≡ r') × (is ≡ is') }
{}
