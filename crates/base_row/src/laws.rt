//! What calls on a row say, in the words of their callers: laws over what the calls' clauses name, and one over the rule of the row's table.
ghost use Rattle.std.specs.Prelude.{◌≡◌, ◌<◌, ◌⊎◌, ℕ, [], ◌∷◌, List, length, Option, Some};
ghost use mathlib.Core.Option.{some};
ghost use lib.ListN.{get_elem?};
ghost use Rattle.atomic_table.specs.Table.{State};
ghost use Rattle.pass_names.specs.SharedHistory.{ExtendsBy, LooksOn, MeetWith, TakesIn};
ghost use Rattle.seq_timer.specs.Events.{Event};
ghost use Rattle.seq_timer.specs.declared.system.SystemEntry as entry;
ghost use Rattle.seq_timer.specs.Systems.{BaseContent, IsOn, entries_of};
ghost use Rattle.base_row.specs.declared.view.HeldContent as locked;
ghost use Rattle.base_row.specs.declared.view.Opening as opening;
ghost use Rattle.base_row.specs.declared.view.BaseView as view;
ghost use Rattle.base_row.specs.Rules.{RowHolds, timer_seen};
ghost use Rattle.base_row.specs.Calls.{Absorbs, Appended, AreFresh, LearnsFrom, LetsGo, GetsBase, SeesFurther, Waits, known_of, own_entry};

/// Taking a base's lock, letting it go and loading a word add no entry: what was seen goes on, and name, places and claims stay.
pub fn locks_and_loads_only_look()
    ensures locks { (base : ℕ) (v w : view.BaseView BaseContent) (h : locked.HeldContent BaseContent)
        → GetsBase base v w h → LooksOn (known_of v) (known_of w) }
    ensures waits { (base : ℕ) (v w : view.BaseView BaseContent) → Waits base v w → LooksOn (known_of v) (known_of w) }
    ensures frees { (o : opening.Opening) (h : locked.HeldContent BaseContent) (v w : view.BaseView BaseContent)
        → LetsGo o h v w → LooksOn (known_of v) (known_of w) }
    ensures loads { (v w : view.BaseView BaseContent) → SeesFurther v w → LooksOn (known_of v) (known_of w) }
{}

/// An entry stands right behind what its pass had seen of the timer, and its place last in mine.
pub fn an_entry_extends_its_timer()
    ensures { (o : opening.Opening) → AreFresh o.timers → (h : locked.HeldContent BaseContent) (t : ℕ) (event : Event)
        (v w : view.BaseView BaseContent) → Appended o h t event v w → ExtendsBy entries_of (known_of v) (known_of w) t (own_entry o v t event ∷ []) }
{}

/// Passes that are taken in and meet.
pub fn passes_tell_what_they_saw()
    ensures retire { (v u w : view.BaseView BaseContent) → Absorbs v u w → TakesIn (known_of v) (known_of u) (known_of w) }
    ensures meet { (a b new_a new_b : view.BaseView BaseContent) → LearnsFrom b a new_b → LearnsFrom a new_b new_a
        → MeetWith (known_of a) (known_of b) (known_of new_a) (known_of new_b) }
{}

/// What a pass that holds a base has seen of the timers on it, and of the one that it carries, is all that has happened to them.
pub fn a_holder_has_seen_all_of_its_timers()
    ensures { (o : opening.Opening) (log : List entry.SystemEntry) (s : State (Option BaseContent) (view.BaseView BaseContent))
        → RowHolds o log s → (j : ℕ) (v : view.BaseView BaseContent) → get_elem? s.views j ≡ some v
        → (h : locked.HeldContent BaseContent) → v.held ≡ Some h → (t : ℕ) → t < length o.timers
        → (IsOn h.base (timer_seen o v t) ⊎ (v.carry ≡ Some t)) → entries_of t log ≡ entries_of t v.seen }
{}
