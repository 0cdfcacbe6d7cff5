//! POSIX timers as a kind of object, and laws of a POSIX timer's histories.
ghost use Rattle.std.specs.Prelude.{◌≡◌, ◌≤◌, ◌++◌, ◌∷◌, [], ℕ, length, List};
ghost use Rattle.ktime.specs.declared.clock_id.ClockId.{ClockId};
ghost use Rattle.timer_setting.specs.Kinds.{IsKind};
ghost use Rattle.timer_setting.specs.StepTables.{AnsweredCall};
ghost use Rattle.timer_setting.specs.declared.object_call.ObjectCall.{ObjectCall};
ghost use Rattle.timer_setting.specs.declared.object_call.ObjectReply.{ObjectReply};
ghost use Rattle.posix_timer.specs.Queued.{queued_kind};
ghost use Rattle.posix_timer.specs.Histories.{IsPosixHistory, posix_state_after};
ghost use Rattle.posix_timer.specs.Steps.{PosixAllows, posix_answer, posix_kind, posix_step};

/// A history has no more entries than its object's limit.
pub fn few_entries()
    ensures { (clock : ClockId) (base limit : ℕ) (history : List (AnsweredCall ObjectCall ObjectReply)) → IsPosixHistory clock base limit history → length history ≤ limit }
{}

/// A history goes on by any call that the state after it allows, and the state goes on by its step.
pub fn one_more_entry()
    ensures legal { (clock : ClockId) (base limit : ℕ) (history : List (AnsweredCall ObjectCall ObjectReply)) (entry : AnsweredCall ObjectCall ObjectReply) → IsPosixHistory clock base limit history → PosixAllows (posix_state_after clock base limit history) entry.call → entry.reply ≡ posix_answer (posix_state_after clock base limit history) entry.call → IsPosixHistory clock base limit (history ++ entry ∷ []) }
    ensures state { (clock : ClockId) (base limit : ℕ) (history : List (AnsweredCall ObjectCall ObjectReply)) (entry : AnsweredCall ObjectCall ObjectReply) → posix_state_after clock base limit (history ++ entry ∷ []) ≡ posix_step (posix_state_after clock base limit history) entry.call }
{}

/// POSIX timers are a kind of object: what holds of the calls of every kind.
pub fn posix_timers_are_a_kind()
    ensures { IsKind posix_kind }
{}

/// So are POSIX timers whose signals go to a queue.
pub fn queued_timers_are_a_kind()
    ensures { IsKind queued_kind }
{}
