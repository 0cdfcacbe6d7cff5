//! Calls of a row of counted values.
ghost use Rattle.std.specs.Prelude.{◌≡◌, ℕ, List};
ghost use Rattle.counted_row.specs.Calls.{Commits, ReadsValue};
ghost use Rattle.counted_row.specs.Views.{Locks, PassOfRow, Sees, StateAfter};
ghost use Rattle.counted_row.specs.declared.view.Entry.{Entry};
ghost use Rattle.counted_row.specs.declared.view.Locked.{Locked};
ghost use Rattle.pass_names.specs.declared.Pass.{Pass};
ghost use Rattle.pass_names.specs.Passes.{Looks, Meets, Retires, entries};
ghost use Rattle.answer_laws.specs.Rows.{SameOfRow, SamePlaces};

use counted_row::Object;

/// A history leads a value to one state.
pub fn a_state_is_fixed<O: Object>()
    ensures { (made : List O) (i : ℕ) (log : List (Entry O.Call O.Reply)) (x y : O) → StateAfter O.meaning made i log x
        → StateAfter O.meaning made i log y → x ≡ y }
{}

/// After one history of a value two locks hand out the same: the value's state and its count.
pub fn a_locked_value_is_fixed<O: Object>()
    ensures { (p q q' : PassOfRow O O.Call O.Reply) (i : ℕ) (h h' : Locked O) → Locks O.meaning p q i h → Locks O.meaning p q' i h'
        → entries i q.knows.pass.seen ≡ entries i q'.knows.pass.seen → (h ≡ h') × SameOfRow q q' }
{}

/// What a look leaves is fixed but for what it saw (`sees`). A turn that made a call found one state after one history (`commits`), and so did a turn that
/// looked (`reads`).
pub fn what_calls_on_a_row_leave_is_fixed<O: Object>()
    ensures sees { (p q q' : PassOfRow O O.Call O.Reply) → Sees p q → Sees p q' → SameOfRow q q' }
    ensures commits { (p q q' : PassOfRow O O.Call O.Reply) (i : ℕ) (call : O.Call) (c : Commits O.meaning p q i call) (d : Commits O.meaning p q' i call)
        → c.adds.before ≡ d.adds.before → (c.state ≡ d.state) × (entries i q.knows.pass.seen ≡ entries i q'.knows.pass.seen) × SameOfRow q q' }
    ensures reads { (p q q' : PassOfRow O O.Call O.Reply) (i : ℕ) (c : ReadsValue O.meaning p q i) (d : ReadsValue O.meaning p q' i)
        → entries i q.knows.pass.seen ≡ entries i q'.knows.pass.seen → (c.state ≡ d.state) × SameOfRow q q' }
{}

/// What a look, a meeting and a retirement leave is fixed but for what was seen. That holds of the passes of rows, clocks and queues of signals.
pub fn what_passes_tell_is_fixed<E>()
    ensures looks { (p q q' : Pass E) → Looks p q → Looks p q' → SamePlaces q q' }
    ensures meets { (a b p q p' q' : Pass E) → Meets a b p q → Meets a b p' q' → SamePlaces p p' × SamePlaces q q' }
    ensures retires { (a b p p' : Pass E) → Retires a b p → Retires a b p' → SamePlaces p p' }
{}
