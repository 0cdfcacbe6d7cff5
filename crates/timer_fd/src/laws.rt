//! Descriptors as a kind of object, and laws of a descriptor's histories.
ghost use Rattle.std.specs.Prelude.{◌≡◌, ◌≤◌, ◌++◌, ◌∷◌, [], ℕ, length, List};
ghost use Rattle.ktime.specs.declared.clock_id.ClockId.{ClockId};
ghost use Rattle.timer_setting.specs.Kinds.{IsKind};
ghost use Rattle.timer_setting.specs.StepTables.{AnsweredCall};
ghost use Rattle.timer_setting.specs.declared.object_call.ObjectCall.{ObjectCall};
ghost use Rattle.timer_setting.specs.declared.object_call.ObjectReply.{ObjectReply};
ghost use Rattle.timer_fd.specs.Histories.{IsFdHistory, fd_state_after};
ghost use Rattle.timer_fd.specs.Steps.{FdAllows, fd_answer, fd_kind, fd_step};

/// A history has no more entries than its object's limit.
pub fn few_entries()
    ensures { (clock : ClockId) (base limit : ℕ) (history : List (AnsweredCall ObjectCall ObjectReply)) → IsFdHistory clock base limit history → length history ≤ limit }
{}

/// A history goes on by any call that the state after it allows, and the state goes on by its step.
pub fn one_more_entry()
    ensures legal { (clock : ClockId) (base limit : ℕ) (history : List (AnsweredCall ObjectCall ObjectReply)) (entry : AnsweredCall ObjectCall ObjectReply) → IsFdHistory clock base limit history → FdAllows (fd_state_after clock base limit history) entry.call → entry.reply ≡ fd_answer (fd_state_after clock base limit history) entry.call → IsFdHistory clock base limit (history ++ entry ∷ []) }
    ensures state { (clock : ClockId) (base limit : ℕ) (history : List (AnsweredCall ObjectCall ObjectReply)) (entry : AnsweredCall ObjectCall ObjectReply) → fd_state_after clock base limit (history ++ entry ∷ []) ≡ fd_step (fd_state_after clock base limit history) entry.call }
{}

/// Descriptors are a kind of object: what holds of the calls of every kind.
pub fn descriptors_are_a_kind()
    ensures { IsKind fd_kind }
{}
