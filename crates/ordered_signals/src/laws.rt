//! What the places of pushes and pops say together.
ghost use Rattle.std.specs.Prelude.{ℕ, ◌≤◌, ◌<◌, ◌+◌, List, length, slice_index};
ghost use Rattle.base_row.specs.Rings.{KeepsRings, put_counter, taken_counter};
ghost use Rattle.base_row.specs.declared.view.Opening as opening;
ghost use Rattle.ordered_clock.specs.Moments.{RisesAt};
ghost use Rattle.ordered_signals.specs.Places.{pops_told, pushes_told, signal_ring};
ghost use Rattle.seq_timer.specs.declared.system.SystemEntry as entry;

/// In the one history a pop stands behind the push of the signal that it takes: before its place there are as many pushes as its own number says.
pub fn a_pop_stands_behind_its_push()
    ensures { (o : opening.Opening) (old new : List entry.SystemEntry) (number : ℕ) → signal_ring < length o.rings → KeepsRings o new
        → (p : RisesAt (taken_counter o signal_ring) old new number) → number ≤ pushes_told o p.before }
{}

/// A push stands where fewer signals wait than there is room for: before its place there are so many pops that it finds some.
pub fn a_push_stands_where_there_is_room()
    ensures { (o : opening.Opening) (old new : List entry.SystemEntry) (number : ℕ) → signal_ring < length o.rings → KeepsRings o new
        → (p : RisesAt (put_counter o signal_ring) old new number) → number ≤ pops_told o p.before + slice_index o.rings signal_ring }
{}
