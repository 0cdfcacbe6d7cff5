//! What any pass can say of all that it has seen.
ghost use Rattle.std.specs.Prelude.{◌≡◌, ◌<◌, ◌≤◌, ℕ, length, true};
ghost use Rattle.seq_timer.specs.Tables.{runs_on};
ghost use Rattle.hr_timers.specs.Known.{IsPassOf};
ghost use Rattle.shared_timer_uses.specs.Callers.{known_timer};

use hr_timers::{Pass, Timers};
use seq_timer::Peek;

/// Looks at a timer. By all that the pass has then seen each timer's soft expiry is at most its hard one, and on a base one function of a context runs.
pub fn look(timers: &Timers, pass: &mut Pass, timer: u32) -> Peek
    requires pass { IsPassOf timers.now pass.old }
    requires timer { timer < length timers.now.about.timers }
    ensures pass { IsPassOf timers.now pass.new }
    ensures soft { (t : ℕ) → (known_timer timers.now.about pass.new.known t).soft ≤ (known_timer timers.now.about pass.new.known t).expires }
    ensures alone { (base t u : ℕ) → runs_on base (known_timer timers.now.about pass.new.known t) ≡ true
        → runs_on base (known_timer timers.now.about pass.new.known u) ≡ true
        → (known_timer timers.now.about pass.new.known t).declared.context ≡ (known_timer timers.now.about pass.new.known u).declared.context → t ≡ u }
{
    let word = timers.peek(pass, timer);
    timers.history(pass);
    word
}
