//! What follows of a record that fits its script: laws with no code, each a clause of its function.
#![tactic(auto)]

ghost use Rattle.std.specs.Prelude.{ℕ, ◌≡◌, ◌≤◌, ◌<◌, List, length};
ghost use Rattle.std.specs.List.{AllByRecursion};
ghost use Rattle.script_text.specs.Scripts.{IsInRange};
ghost use Rattle.script_text.specs.declared.script.Script.{Script};
ghost use Rattle.record_text.specs.Numbers.{HasMachineNumbers, HasNoSlack, HasReplies};
ghost use Rattle.record_text.specs.Text.{text_of};
ghost use Rattle.record_text.specs.declared.version.Version.TheVariants as versions;
ghost use Rattle.record_text.specs.declared.record.Answer.TheVariants as answers;
ghost use Rattle.record_text.specs.declared.record.Label.{Label};
ghost use Rattle.record_text.specs.declared.record.RunRecord.{RunRecord};
ghost use Rattle.run_history.specs.Fits.{Fits, FitsIn};
ghost use Rattle.run_history.specs.Objects.{object_labels};
ghost use Rattle.run_history.specs.Order.{IsInOrder, IsLabel};
ghost use Rattle.run_history.specs.Signals.{most_signals};
ghost use Rattle.run_history.specs.Truths.{HadEntries};
ghost use Rattle.run_history.specs.Witnesses.{Witness};
ghost use Rattle.fit_laws.specs.EachTimer.{HasTimers};
ghost use Rattle.fit_laws.specs.ObjectTurns.{TurnBeginsAt, TurnEndsAt};
ghost use Rattle.signal_queue.specs.declared.signal.Signal.{Signal};
ghost use Rattle.fit_laws.specs.Readings.{HadSeen, HasEntryAt, HasWriteAt, TakesReading};
ghost use Rattle.fit_laws.specs.Signals.{AreDistinct, FoundFull, WasAnswered, NamedBefore, NamedNoLater, Names, Sent, SentBefore, SentNoLater};

/// A record that fits is right of each timer by itself: its list is a history of such a timer, and what calls did and were told was so by that list.
pub fn a_record_that_fits_is_right_of_each_timer()
    ensures { (s : Script) (r : RunRecord) → Fits s r → HasTimers s r }
{}

/// In a record that fits each entry of an object bears the label of a call. Along an object's list rounds follow one another, and a lane's calls keep their
/// order.
pub fn entries_of_an_object_keep_the_order_of_calls()
    ensures calls { (s : Script) (r : RunRecord) → Fits s r → (i : ℕ) → AllByRecursion (IsLabel s) (object_labels r i) }
    ensures order { (s : Script) (r : RunRecord) → Fits s r → (i : ℕ) → IsInOrder s (object_labels r i) }
{}

/// In the order by which a record fits, each turn of an object that began before a moment at which the object had so many entries ends before that moment,
/// by its call's entry. So what a call tells of an object holds while no other call has its turn of it.
pub fn no_call_has_its_turn_of_an_object_that_is_told_of()
    ensures { (w : Witness) → FitsIn w → (i entries n : ℕ) → i < length w.script.timers → HadEntries w i entries n → (c : Label) (stamp begun : ℕ)
        → TurnBeginsAt w i c stamp begun → begun < n → (ended : ℕ) × (begun < ended) × (ended < n) × TurnEndsAt w i c stamp ended }
{}

/// A record that fits a script of version 1 has no slack: a soft expiry is the expiry. The text of such a record shows neither.
pub fn a_record_of_version_one_has_no_slack()
    ensures { (s : Script) (r : RunRecord) → IsInRange s → s.version ≡ versions.One → Fits s r → HasNoSlack r }
{}

/// Each entry of a record that fits has a reply that its event has.
pub fn each_entry_of_a_record_that_fits_has_a_reply_of_its_event()
    ensures { (s : Script) (r : RunRecord) → Fits s r → HasReplies r }
{}

/// Of the records that fit a script, and whose numbers a program can hold, no two have one text.
pub fn the_text_of_a_record_that_fits_determines_it()
    ensures { (s : Script) (a b : RunRecord) → IsInRange s → Fits s a → Fits s b → HasMachineNumbers a → HasMachineNumbers b → text_of a ≡ text_of b → a ≡ b }
{}

/// In the order by which a record fits, each call that reads the clock has in its reading each write that stands before an entry that its lane had seen. So a
/// lane that was told of an entry never reads less than what was written before it.
pub fn a_reading_has_each_write_before_an_entry_that_was_seen()
    ensures { (w : Witness) → FitsIn w → (c : Label) → TakesReading w.script c → (entry write number : ℕ) → HadSeen w c entry → HasWriteAt w write number
        → write ≤ entry → number ≤ (w.traces c).at }
{}

/// In that order a call's reading has no write that stands behind an entry that the call made, nor one that it made itself. So no call goes by a write that
/// was made after its entry.
pub fn a_reading_has_no_write_behind_an_entry_of_its_call()
    ensures { (w : Witness) → FitsIn w → (c : Label) → TakesReading w.script c → (entry write number : ℕ) → HasEntryAt w c entry → HasWriteAt w write number
        → entry ≤ write → (w.traces c).at < number }
{}

/// In a record that fits each answer that names a signal names one that a queued timer's counted expiry sent, by a call that didn't begin only after the one
/// that is answered was over. No two answers name the same signal.
pub fn a_signal_that_is_named_was_sent()
    ensures sent { (s : Script) (r : RunRecord) → Fits s r → (c : Label) (x : Signal) → Names r c x → SentNoLater s r c x }
    ensures once { (s : Script) (r : RunRecord) → Fits s r → (c d : Label) (x : Signal) → Names r c x → Names r d x → c ≡ d }
{}

/// In a record that fits signals are named as they were sent. Where the call that sent one signal was over before the call that sent another one, and the
/// other is named, then the one is named too, by a call that didn't begin only after the call that names the other was over.
pub fn a_signal_that_was_sent_before_a_named_one_is_named()
    ensures { (s : Script) (r : RunRecord) → Fits s r → (c d : Label) (x y : Signal) → Names r c y → Sent s r d y → SentBefore s r d x
        → NamedNoLater s r c x }
{}

/// In a record that fits a call that found no signal left none that was sent before: each signal that was sent by a call that was over before is named, by a
/// call that didn't begin only after this one was over.
pub fn a_queue_that_was_found_empty_had_no_signal_that_was_sent_before()
    ensures { (s : Script) (r : RunRecord) → Fits s r → (c : Label) → WasAnswered r c answers.NoneQueued → (x : Signal) → SentBefore s r c x
        → NamedNoLater s r c x }
{}

/// In a record that fits an expiry that counted found room for its signal. Take signals that were all sent by calls that were over before it. If each of them is
/// left, or named only by calls that began after the expiry's call was over, there are fewer of them than may wait.
pub fn a_signal_that_was_sent_found_room()
    ensures { (s : Script) (r : RunRecord) → Fits s r → (c : Label) (y : Signal) → Sent s r c y → (xs : List Signal) → AreDistinct xs
        → AllByRecursion (λ x. SentBefore s r c x × (NamedNoLater s r c x → ⊥)) xs → length xs < most_signals }
{}

/// In a record that fits an expiry whose signal found no room did so beside as many others as may wait: each was sent by a call that didn't begin only after
/// this one was over, and none of them was named before.
pub fn a_queue_that_was_found_full_had_as_many_signals_as_may_wait()
    ensures { (s : Script) (r : RunRecord) → Fits s r → (c : Label) → FoundFull r c → (xs : List Signal) × (length xs ≡ most_signals) × AreDistinct xs
        × AllByRecursion (λ x. SentNoLater s r c x × (NamedBefore s r c x → ⊥)) xs }
{}
