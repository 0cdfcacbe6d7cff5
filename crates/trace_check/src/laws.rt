//! Which traces fit.
ghost use Rattle.std.specs.Prelude.{◌≡◌, ◌↔◌, ◌+◌, ℕ, List, None, Some, take};
ghost use Rattle.trace_check.specs.declared.misfit.Misfit.{Misfit};
ghost use Rattle.trace_text.specs.declared.event.KernelEvent.{KernelEvent};
ghost use Rattle.trace_check.specs.Fits.{FitsTrace};
ghost use Rattle.trace_check.specs.Knowledge.{first_misfit, no_knowledge};

/// A trace fits exactly where none of its events is a misfit by what the events before it tell.
pub fn a_trace_fits_exactly_where_no_event_is_a_misfit()
    ensures { (es : List KernelEvent) → FitsTrace es ↔ (first_misfit (no_knowledge 0) es ≡ None) }
{}

/// The events before the first misfit fit, and with it they don't.
pub fn the_first_misfit_ends_all_histories()
    ensures { (es : List KernelEvent) (n : ℕ) (cause : Misfit) → first_misfit (no_knowledge 0) es ≡ Some (n, cause) → FitsTrace (take n es) × (FitsTrace (take (n + 1) es) → ⊥) }
{}
