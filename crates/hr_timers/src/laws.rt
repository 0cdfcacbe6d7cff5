//! What the calls' clauses say of the numbers in their answers: laws over what those clauses name.
ghost use Rattle.std.specs.Prelude.{◌≡◌, ◌+◌, ◌≤◌, ◌++◌, ℕ, Bool, List};
ghost use Rattle.seq_timer.specs.declared.context.Context.{Context};
ghost use Rattle.seq_timer.specs.Events.{Asked};
ghost use Rattle.ktime.specs.Readings.{ClockReading};
ghost use Rattle.seq_timer.specs.declared.observation.Peek.{Peek};
ghost use Rattle.seq_timer.specs.declared.answer.CancelAnswer.{CancelAnswer};
ghost use Rattle.seq_timer.specs.declared.answer.Finished.{Finished};
ghost use Rattle.seq_timer.specs.declared.answer.ForwardAnswer.{ForwardAnswer};
ghost use Rattle.base_row.specs.declared.view.Opening.{Opening};
ghost use Rattle.hr_timers.specs.declared.answer.StartAnswer as answers;
ghost use Rattle.hr_timers.specs.declared.numbers.ClaimNumbers as claimed;
ghost use Rattle.hr_timers.specs.Known.{KnownOfTimers, KnowsTimers, LocksGoOn, PassOf, timer_then};
ghost use Rattle.base_row.specs.Plays.{greater};
ghost use Rattle.seq_timer.specs.Steps.{most_entries};
ghost use Rattle.seq_timer.specs.Tables.{timer_at};
ghost use Rattle.hr_timers.specs.Calls.{Cancels, ClaimsNextDue, Finishes, Forwards, Peeks, StartsTimer};
ghost use Rattle.hr_timers.specs.Answered.{cancel_number, forward_number, start_number};

/// The number of an entry that a call answers is the timer's stamp, by all that the pass has then seen.
pub fn a_call_answers_the_stamp()
    ensures start { (o : Opening) (v w : KnownOfTimers) (t : ℕ) (asked : Asked) (a : answers.StartAnswer)
        → StartsTimer o v w t asked a → start_number a ≡ (timer_then o w.seen t).stamp }
    ensures cancel { (o : Opening) (v w : KnownOfTimers) (t : ℕ) (a : CancelAnswer) → Cancels o v w t a → cancel_number a ≡ (timer_then o w.seen t).stamp }
    ensures peek { (o : Opening) (v w : KnownOfTimers) (t : ℕ) (p : Peek) → Peeks o v w t p → p.stamp ≡ (timer_then o w.seen t).stamp }
    ensures claim { (o : Opening) (v w : KnownOfTimers) (c : claimed.ClaimNumbers) (x : Context) (base : ℕ) (reading : ClockReading)
        → ClaimsNextDue o v w x base reading c → c.number ≡ (timer_then o w.seen c.timer).stamp }
    ensures forward { (o : Opening) (v w : KnownOfTimers) (c : claimed.ClaimNumbers) (reading : ClockReading) (interval : ℕ) (a : ForwardAnswer)
        → Forwards o v w c reading interval a → forward_number a ≡ (timer_then o w.seen c.timer).stamp }
    ensures finish { (o : Opening) (v w : KnownOfTimers) (c : claimed.ClaimNumbers) (restart : Bool) (a : Finished)
        → Finishes o v w c restart a → a.number ≡ (timer_then o w.seen c.timer).stamp }
{}

/// So what a call answers is at most three past the timer's limit, and where the timer has a reach at most 67 past limit and reach, after
/// each call that leaves its pass one of the timers'.
pub fn no_answer_is_far_past_the_limit()
    ensures start { (o : Opening) (v w : KnownOfTimers) (t : ℕ) (asked : Asked) (a : answers.StartAnswer)
        → KnowsTimers o w → StartsTimer o v w t asked a → start_number a ≤ most_entries (timer_at o.timers t).terms }
    ensures cancel { (o : Opening) (v w : KnownOfTimers) (t : ℕ) (a : CancelAnswer) → KnowsTimers o w → Cancels o v w t a
        → cancel_number a ≤ most_entries (timer_at o.timers t).terms }
    ensures peek { (o : Opening) (v w : KnownOfTimers) (t : ℕ) (p : Peek) → KnowsTimers o w → Peeks o v w t p
        → p.stamp ≤ most_entries (timer_at o.timers t).terms }
    ensures claim { (o : Opening) (v w : KnownOfTimers) (c : claimed.ClaimNumbers) (x : Context) (base : ℕ) (reading : ClockReading)
        → KnowsTimers o w → ClaimsNextDue o v w x base reading c → c.number ≤ most_entries (timer_at o.timers c.timer).terms }
    ensures forward { (o : Opening) (v w : KnownOfTimers) (c : claimed.ClaimNumbers) (reading : ClockReading) (interval : ℕ) (a : ForwardAnswer)
        → KnowsTimers o w → Forwards o v w c reading interval a → forward_number a ≤ most_entries (timer_at o.timers c.timer).terms }
    ensures finish { (o : Opening) (v w : KnownOfTimers) (c : claimed.ClaimNumbers) (restart : Bool) (a : Finished)
        → KnowsTimers o w → Finishes o v w c restart a → a.number ≤ most_entries (timer_at o.timers c.timer).terms }
{}

/// What a pass has of base locks goes on over calls one behind the other (`next`). A `peek` and a `split` leave it as it is (`stays`); a pass
/// that meets another or takes it in gets the newer of both words of each lock (`meets`, `retires`).
pub fn locks_go_on_over_calls()
    ensures stays { (p q : PassOf) → q.takes ≡ p.takes → q.met ≡ p.met → LocksGoOn p q }
    ensures next { (p q r : PassOf) → LocksGoOn p q → LocksGoOn q r → LocksGoOn p r }
    ensures meets { (p q : PassOf) (met : List ℕ) → q.takes ≡ p.takes → q.met ≡ greater p.met met → LocksGoOn p q }
    ensures retires { (p q : PassOf) (takes : List (ℕ × ℕ)) (met : List ℕ) → q.takes ≡ p.takes ++ takes → q.met ≡ greater p.met met → LocksGoOn p q }
{}
