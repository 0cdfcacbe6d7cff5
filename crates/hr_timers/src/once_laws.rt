//! What the calls that wait for nobody do together: laws over what their clauses name.
ghost use Rattle.std.specs.Prelude.{◌≡◌, ℕ, Bool};
ghost use Rattle.pass_names.specs.SharedHistory.{LooksOn};
ghost use Rattle.seq_timer.specs.Events.{Asked};
ghost use Rattle.seq_timer.specs.Steps.{Timer};
ghost use Rattle.seq_timer.specs.Systems.{entries_of};
ghost use Rattle.base_row.specs.declared.view.Opening.{Opening};
ghost use Rattle.hr_timers.specs.Calls.{StartsTimer};
ghost use Rattle.hr_timers.specs.Carrying.{Lands, SendsOff, landed_as};
ghost use Rattle.hr_timers.specs.Known.{KnownOfTimers};
ghost use Rattle.hr_timers.specs.Ways.{asking};
ghost use Rattle.hr_timers.specs.declared.once_answer.Landed as landings;

/// A timer that is sent off its base, and lands where it was sent to, was started as by the call that waits; in between its pass may look, while
/// nothing happens to the timer.
pub fn a_send_and_an_arrive_are_a_start()
    ensures { (o : Opening) (v x y w : KnownOfTimers) (t : ℕ) (s : Timer) (was_armed : Bool) (asked : Asked) (l : landings.Landed)
        → SendsOff o v x t asked.base s was_armed → LooksOn x y → entries_of t y.seen ≡ entries_of t x.seen → Lands o y w t s (asking asked s.base) l
        → StartsTimer o v w t asked (landed_as was_armed l) }
{}
