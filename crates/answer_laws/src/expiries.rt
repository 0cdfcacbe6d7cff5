//! Expiry runs.
ghost use Rattle.std.specs.Prelude.{◌≡◌, ℕ, List};
ghost use Rattle.ktime.specs.Readings.{ClockReading};
ghost use Rattle.base_row.specs.Calls.{AreFresh};
ghost use Rattle.base_row.specs.declared.log.Receipt.{Receipt};
ghost use Rattle.base_row.specs.declared.view.Opening.{Opening};
ghost use Rattle.hr_timers.specs.Expiring.{Expires};
ghost use Rattle.hr_timers.specs.declared.expiry.ExpireAnswer as expiries;
ghost use Rattle.hr_timers.specs.Known.{KnownOfTimers, KnowsTimers};
ghost use Rattle.seq_timer.specs.declared.context.Context as contexts;
ghost use Rattle.answer_laws.specs.Expiries.{run_at};

use hr_timers::Handler;

/// By the moments of its claims and finishes, by what its functions asked for, and by what was then seen, a run of expiries has one answer and one log. What
/// its functions did beside that is said by the handler alone.
pub fn an_expiry_run_is_fixed<H: Handler>()
    ensures { (o : Opening) → AreFresh o.timers
        → (x : contexts.Context) (base : ℕ) (reading : ClockReading) (budget : ℕ) (k n n' : KnownOfTimers) (h i i' : H)
        (log l l' : List Receipt) (a a' : expiries.ExpireAnswer) (c : Expires H.meaning o x base reading budget k h log n i l a)
        (d : Expires H.meaning o x base reading budget k h log n' i' l' a') → KnowsTimers o n → n.seen ≡ n'.seen
        → run_at H.meaning o x base reading budget k h log n i l a c ≡ run_at H.meaning o x base reading budget k h log n' i' l' a' d → (a ≡ a') × (l ≡ l') }
{}
