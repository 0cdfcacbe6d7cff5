//! Sleepers as a kind of object, and laws of a sleeper's histories.
ghost use Rattle.std.specs.Prelude.{◌≡◌, ◌≤◌, ◌++◌, ◌∷◌, [], ℕ, length, List, true};
ghost use Rattle.ktime.specs.declared.clock_id.ClockId.{ClockId};
ghost use Rattle.ktime.specs.Readings.{ClockReading};
ghost use Rattle.timer_setting.specs.Kinds.{IsKind};
ghost use Rattle.timer_setting.specs.declared.trigger_answer.TriggerAnswer.TheVariants.{Counted};
ghost use Rattle.timer_setting.specs.declared.answers.SleepAnswer.TheVariants.{Asleep};
ghost use Rattle.timer_setting.specs.declared.object_call.ObjectCall.TheVariants as calls;
ghost use Rattle.timer_setting.specs.declared.object_call.ObjectReply.TheVariants as replies;
ghost use Rattle.timer_setting.specs.declared.sleep_call.SleepCall.{SleepCall};
ghost use Rattle.sleeper.specs.Histories.{HasReached, IsSleeperHistory, SleeperEntry, begins_sleep, ends_sleep, how_many, sleeper_state_after};
ghost use Rattle.sleeper.specs.Steps.{SleeperAllows, sleeper_answer, sleeper_kind, sleeper_step};

/// A history has no more entries than its object's limit.
pub fn few_entries()
    ensures { (clock : ClockId) (base limit : ℕ) (history : List SleeperEntry) → IsSleeperHistory clock base limit history → length history ≤ limit }
{}

/// A history goes on by any call that the state after it allows, and the state goes on by its step.
pub fn one_more_entry()
    ensures legal { (clock : ClockId) (base limit : ℕ) (history : List SleeperEntry) (entry : SleeperEntry) → IsSleeperHistory clock base limit history → SleeperAllows (sleeper_state_after clock base limit history) entry.call → entry.reply ≡ sleeper_answer (sleeper_state_after clock base limit history) entry.call → IsSleeperHistory clock base limit (history ++ entry ∷ []) }
    ensures state { (clock : ClockId) (base limit : ℕ) (history : List SleeperEntry) (entry : SleeperEntry) → sleeper_state_after clock base limit (history ++ entry ∷ []) ≡ sleeper_step (sleeper_state_after clock base limit history) entry.call }
{}

/// Between a sleep that has begun and the next one stands exactly one end: its time came, or it was interrupted before. After the last
/// one stands one at most.
pub fn one_end_of_each_sleep()
    ensures between { (clock : ClockId) (base limit : ℕ) (before middle after : List SleeperEntry) (sleep next : SleeperEntry) → IsSleeperHistory clock base limit (before ++ sleep ∷ (middle ++ next ∷ after)) → begins_sleep sleep.reply ≡ true → begins_sleep next.reply ≡ true → how_many begins_sleep middle ≡ 0 → how_many ends_sleep middle ≡ 1 }
    ensures last { (clock : ClockId) (base limit : ℕ) (before after : List SleeperEntry) (sleep : SleeperEntry) → IsSleeperHistory clock base limit (before ++ sleep ∷ after) → begins_sleep sleep.reply ≡ true → how_many begins_sleep after ≡ 0 → how_many ends_sleep after ≤ 1 }
{}

/// A sleep's time comes only at a reading of its clock that has reached it.
pub fn no_sleep_ends_early()
    ensures { (clock : ClockId) (base limit : ℕ) (before middle after : List SleeperEntry) (call : SleepCall) (generation : ℕ) (reading : ClockReading) → IsSleeperHistory clock base limit (before ++ record { call = calls.Sleep call; reply = replies.Sleep Asleep } ∷ (middle ++ record { call = calls.Trigger generation reading; reply = replies.Trigger Counted } ∷ after)) → how_many begins_sleep middle ≡ 0 → HasReached clock call reading }
{}

/// Sleepers are a kind of object: what holds of the calls of every kind.
pub fn sleepers_are_a_kind()
    ensures { IsKind sleeper_kind }
{}
