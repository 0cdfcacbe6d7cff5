//! The history of all timers and bases: one list of entries, each a step of its timer and of the base that the timer is on, or of a base, or of a
//! counter that stands in the same order.
ghost use Rattle.std.specs.Prelude.{◌≡◌, ◌<◌, ◌≤◌, ℕ, true, false, Some, None, List, length, slice_get};
ghost use Rattle.ktime.specs.declared.clock_id.ClockId.{ClockId};
ghost use Rattle.ktime.specs.Readings.{ClockReading, value_of};
ghost use Rattle.seq_timer.specs.declared.context.Context.{Context};
ghost use Rattle.seq_timer.specs.declared.context.Declared.{Declared};
ghost use Rattle.seq_timer.specs.declared.context.Terms.{Terms};
ghost use Rattle.seq_timer.specs.declared.system.SystemEntry as declared;
ghost use Rattle.seq_timer.specs.Contents.{Content, IsContentOf, front_of, no_content, running_in};
ghost use Rattle.seq_timer.specs.Histories.{IsLegal};
ghost use Rattle.seq_timer.specs.Standings.{AreShifts, IsStanding, first_standing, standing_after_all};
ghost use Rattle.seq_timer.specs.Steps.{Timer};
ghost use Rattle.seq_timer.specs.Tables.{IsStopped, IsUnused, in_context, is_armed_on, is_kept_on, runs_on};
ghost use Rattle.seq_timer.specs.Systems.{IsSystemHistory, entries_of, shifts_of, system_of};
ghost use Rattle.seq_timer.specs.Turns.{IsInTurn};

use crate::event::{Event, Reply};
use crate::standing::BaseEvent;

/// An entry of a timer. No value of it is made: it stands in what shared structures know.
pub struct TimerEntry {
    pub timer: u64,
    pub event: Event,
    pub reply: Reply,
}

/// An entry of a base. No value of it is made.
pub struct BaseEntry {
    pub base: u64,
    pub event: BaseEvent,
}

/// An entry of the history of all timers and bases. No value of it is made.
pub enum SystemEntry {
    Timer(TimerEntry),
    Base(BaseEntry),
    /// The counter of this number rose by one. It changes no timer and no base.
    Rise(u64),
}

/// Each timer's part of a history of all timers is a legal history of that timer.
pub fn each_part_is_legal()
    ensures { (bases : ℕ) (terms : Terms) (declareds : List Declared) (log : List declared.SystemEntry) → IsSystemHistory bases declareds terms log → (t : ℕ) (declared : Declared) → slice_get declareds t ≡ Some declared → IsLegal declared terms (entries_of t log) }
{}

/// At most one function of a context runs on a base.
pub fn one_function_runs_on_a_base()
    ensures { (bases : ℕ) (terms : Terms) (declareds : List Declared) (log : List declared.SystemEntry) → IsSystemHistory bases declareds terms log
        → (base t u : ℕ) → runs_on base ((system_of declareds terms log).timers t) ≡ true → runs_on base ((system_of declareds terms log).timers u) ≡ true
        → ((system_of declareds terms log).timers t).declared.context ≡ ((system_of declareds terms log).timers u).declared.context → t ≡ u }
{}

/// After each history what a base has agrees with the timers, also while some of them move between bases.
pub fn bases_agree_with_timers()
    ensures { (bases : ℕ) (terms : Terms) (declareds : List Declared) (log : List declared.SystemEntry) → IsSystemHistory bases declareds terms log
        → (base : ℕ) → IsContentOf (system_of declareds terms log).timers base ((system_of declareds terms log).bases base).content }
{}

/// A timer's stamp is the number of its entries.
pub fn stamps_count_entries()
    ensures { (terms : Terms) (declareds : List Declared) (log : List declared.SystemEntry) (t : ℕ) → ((system_of declareds terms log).timers t).stamp ≡ length (entries_of t log) }
{}

/// In a history of all timers each claim takes the timer whose turn it is, by the timers alone: on a base where no function runs, the one that is
/// to expire next, and of those that are kept on its clock for the same time the one that was armed first.
pub fn each_claim_is_in_turn()
    ensures { (bases : ℕ) (terms : Terms) (declareds : List Declared) (log : List declared.SystemEntry) → IsSystemHistory bases declareds terms log → IsInTurn bases declareds terms log }
{}

/// A timer's soft expiry is no later than its expiry; so where a base is stopped for a clock in a context, no timer that is kept there has an expiry that
/// the clock has reached.
pub fn no_expiry_is_missed()
    ensures soft { (terms : Terms) (declareds : List Declared) (log : List declared.SystemEntry) (t : ℕ)
        → ((system_of declareds terms log).timers t).soft ≤ ((system_of declareds terms log).timers t).expires }
    ensures stopped { (terms : Terms) (declareds : List Declared) (log : List declared.SystemEntry) (x : Context) (base : ℕ) (reading : ClockReading) (clock : ClockId)
        → IsStopped (in_context x (system_of declareds terms log).timers) base reading clock
        → (t : ℕ) → is_kept_on base clock (in_context x (system_of declareds terms log).timers t) ≡ true
        → value_of clock reading < (in_context x (system_of declareds terms log).timers t).expires }
{}

/// Each base's part of a history of all timers and bases goes off line and on line by turns, beginning on line, and its standing is what its part
/// leads to.
pub fn each_base_goes_by_turns()
    ensures turns { (bases : ℕ) (terms : Terms) (declareds : List Declared) (log : List declared.SystemEntry) → IsSystemHistory bases declareds terms log
        → (base : ℕ) → AreShifts base first_standing (shifts_of base log) }
    ensures stands { (terms : Terms) (declareds : List Declared) (log : List declared.SystemEntry) (base : ℕ)
        → ((system_of declareds terms log).bases base).standing ≡ standing_after_all first_standing (shifts_of base log) }
    ensures fits { (bases : ℕ) (terms : Terms) (declareds : List Declared) (log : List declared.SystemEntry) → IsSystemHistory bases declareds terms log
        → (base : ℕ) → IsStanding base ((system_of declareds terms log).bases base).standing }
{}

/// While a base is off line no timer is armed on it and no function runs there; and each timer has a reach, so that it could be moved.
pub fn an_off_line_base_is_unused()
    ensures unused { (bases : ℕ) (terms : Terms) (declareds : List Declared) (log : List declared.SystemEntry) → IsSystemHistory bases declareds terms log
        → (base heir : ℕ) → ((system_of declareds terms log).bases base).standing.heir ≡ Some heir → IsUnused (system_of declareds terms log).timers base }
    ensures reach { (bases : ℕ) (terms : Terms) (declareds : List Declared) (log : List declared.SystemEntry) → IsSystemHistory bases declareds terms log
        → (base heir : ℕ) → ((system_of declareds terms log).bases base).standing.heir ≡ Some heir → (t : ℕ) → t < length declareds → 0 < ((system_of declareds terms log).timers t).terms.reach }
{}

/// The front of a base is a timer that is armed there; where there is none no timer is, and where no function runs either the base has nothing.
pub fn the_front_is_armed()
    ensures armed { (timers : ℕ → Timer) (base : ℕ) (c : Content) (p : ℕ × ℕ) → IsContentOf timers base c → front_of c ≡ Some p
        → (is_armed_on base (timers p.1) ≡ true) × (p.0 ≡ (timers p.1).expires) }
    ensures unarmed { (timers : ℕ → Timer) (base : ℕ) (c : Content) → IsContentOf timers base c → front_of c ≡ None
        → (t : ℕ) → is_armed_on base (timers t) ≡ false }
    ensures clear { (c : Content) → front_of c ≡ None → ((x : Context) → running_in x c ≡ None) → c ≡ no_content }
{}
