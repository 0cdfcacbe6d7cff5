//! What an answer means.
ghost use Rattle.std.specs.Prelude.{◌≡◌, List, MatchBool, ℕ};
ghost use Rattle.trace_read.specs.declared.verdict.Verdict.TheVariants.{Fits, NoEvents};
ghost use Rattle.trace_read.specs.Lines.{LinesFit, events_in, has_timer_event, trace_lines, verdict_on, Means};

/// An answer says that all lines of a text can be read and fit, or which line is the first that can't be read, or with which the lines so far don't
/// fit.
pub fn an_answer_means_what_it_says()
    ensures { (bytes : List ℕ) → Means (trace_lines bytes) (verdict_on bytes) }
{}

/// A text whose lines can all be read and fit is answered so, where one of them tells an event of a timer; else it has none.
pub fn what_fits_is_answered_so()
    ensures { (bytes : List ℕ) → LinesFit (trace_lines bytes) → MatchBool (has_timer_event (events_in (trace_lines bytes))) ((events : ℕ) × (verdict_on bytes ≡ Fits events)) (verdict_on bytes ≡ NoEvents) }
{}
