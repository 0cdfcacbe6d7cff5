//! What holds along every list of calls, and of every answer, as clauses of functions without a body.
ghost use Rattle.std.specs.Prelude.{◌≡◌, ◌<◌, ℕ, List, Option, length, get_or};
ghost use Rattle.ktime.specs.Readings.{ClockReading};
ghost use Rattle.seq_timer.specs.declared.context.Declared.{Declared};
ghost use Rattle.seq_timer.specs.declared.context.Terms.{Terms};
ghost use Rattle.seq_timer.specs.Steps.{opening};
ghost use Rattle.seq_timer.specs.Histories.{IsLegal, state_after};
ghost use Rattle.seq_timer.specs.Tables.{no_declared, timer_at};
ghost use Rattle.timer_core.specs.Kept.{Kept, opened};
ghost use Rattle.timer_core.specs.Runs.{MakeCalls, Call, history_along};
ghost use Rattle.timer_core.specs.Waits.{IsNextWait};

/// Along every list of calls each timer's entries are a legal history, and what is kept of the timer is the state after it.
pub fn calls_keep_histories_legal()
    ensures legal { (bases : ℕ) (terms : Terms) (id : ℕ) (list : List Declared) (calls : List Call) (end : Kept) → MakeCalls (opened bases list terms) calls end → id < length list → IsLegal (get_or list id no_declared) terms (history_along id (opening (get_or list id no_declared) terms) calls) }
    ensures kept { (bases : ℕ) (terms : Terms) (id : ℕ) (list : List Declared) (calls : List Call) (end : Kept) → MakeCalls (opened bases list terms) calls end → id < length list → state_after (get_or list id no_declared) terms (history_along id (opening (get_or list id no_declared) terms) calls) ≡ timer_at end.timers id }
{}

/// How long a base may be left alone after a reading is one number, or none.
pub fn the_wait_is_one()
    ensures { (k : Kept) (base : ℕ) (reading : ClockReading) (one other : Option ℕ) → IsNextWait k base reading one → IsNextWait k base reading other → one ≡ other }
{}
