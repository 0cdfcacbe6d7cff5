//! Calls on timers that try each lock once. One that did what the call that waits does has that call's law.
ghost use Rattle.std.specs.Prelude.{◌≡◌, ℕ, Bool};
ghost use Rattle.base_row.specs.Calls.{AreFresh};
ghost use Rattle.base_row.specs.declared.view.Opening.{Opening};
ghost use Rattle.hr_timers.specs.Carrying.{Lands, NeedsNoMove, SendsOff, SendsOn, StillCarries, WasSpent};
ghost use Rattle.hr_timers.specs.Known.{KnownOfTimers, KnowsTimers, PassOf};
ghost use Rattle.hr_timers.specs.Once.{HereFits, MissFits, NeedsMove, NextFits};
ghost use Rattle.hr_timers.specs.declared.answer.StartAnswer as starts;
ghost use Rattle.hr_timers.specs.declared.once_answer.HereAnswer.TheVariants as heres;
ghost use Rattle.hr_timers.specs.declared.once_answer.Landed as landings;
ghost use Rattle.hr_timers.specs.declared.once_answer.Miss as misses;
ghost use Rattle.hr_timers.specs.declared.once_answer.NextAnswer as nexts;
ghost use Rattle.ktime.specs.declared.clock_id.ClockId as clocks;
ghost use Rattle.seq_timer.specs.Events.{Asked};
ghost use Rattle.seq_timer.specs.Steps.{Timer};
ghost use Rattle.seq_timer.specs.declared.context.Context as contexts;
ghost use Rattle.answer_laws.specs.Outcomes.{SameOutcome, SameOwn, is_contended, start_moment};
ghost use Rattle.answer_laws.specs.Tries.{as_now, is_missed, miss_moment};

/// At one moment two misses tell the same, where both or none are contended.
pub fn a_miss_is_fixed()
    ensures { (o : Opening) → AreFresh o.timers → (p q q' : PassOf) (t : ℕ) (m m' : misses.Miss) (c : MissFits o p q t m) (d : MissFits o p q' t m')
        → KnowsTimers o q.known → miss_moment o p q t m c ≡ miss_moment o p q' t m' d → is_contended (as_now m) ≡ is_contended (as_now m')
        → (m ≡ m') × SameOwn q.known q'.known }
{}

/// At one moment a start that is made where the timer is has one answer, and by what was then seen it is first or not (`tried`). One that needs a move
/// names one base (`elsewhere`). Which of the two is free, and whether it was missed.
pub fn a_start_here_is_fixed()
    ensures tried { (o : Opening) (p q q' : PassOf) (t : ℕ) (asked : Asked) (a a' : starts.StartAnswer) (f f' : Bool)
        (c : HereFits o p q t asked (heres.Tried a f)) (d : HereFits o p q' t asked (heres.Tried a' f'))
        → start_moment o p.known q.known t asked a c.0 ≡ start_moment o p.known q'.known t asked a' d.0 → q.known.seen ≡ q'.known.seen
        → (a ≡ a') × (f ≡ f') × SameOutcome q.known q'.known t }
    ensures elsewhere { (o : Opening) (v w w' : KnownOfTimers) (t asked b b' : ℕ) (c : NeedsMove o v w t asked b) (d : NeedsMove o v w' t asked b')
        → c.at ≡ d.at → (b ≡ b') × SameOwn w w' }
{}

/// By what was then seen the first timer of a queue is one, or none is there. Whether the look is contended is free.
pub fn a_look_at_a_queue_is_fixed()
    ensures { (o : Opening) (p q q' : PassOf) (x : contexts.Context) (base : ℕ) (clock : clocks.ClockId) (a a' : nexts.NextAnswer)
        → NextFits o p q x base clock a → NextFits o p q' x base clock a' → q.known.seen ≡ q'.known.seen → is_missed a ≡ is_missed a'
        → (a ≡ a') × SameOwn q.known q'.known }
{}

/// At one moment, and sent to one base, a timer that is sent off leaves the same (`sent`). One that isn't names one stamp or base (`spent`, `stays`).
pub fn a_send_is_fixed()
    ensures sent { (o : Opening) (v w w' : KnownOfTimers) (t asked : ℕ) (s s' : Timer) (f f' : Bool) (c : SendsOff o v w t asked s f)
        (d : SendsOff o v w' t asked s' f') → c.at ≡ d.at → s.base ≡ s'.base → (s ≡ s') × (f ≡ f') × SameOutcome w w' t }
    ensures spent { (o : Opening) (v w w' : KnownOfTimers) (t n n' : ℕ) (c : WasSpent o v w t n) (d : WasSpent o v w' t n')
        → c.at ≡ d.at → (n ≡ n') × SameOwn w w' }
    ensures stays { (o : Opening) (v w w' : KnownOfTimers) (t asked b b' : ℕ) (c : NeedsNoMove o v w t asked b) (d : NeedsNoMove o v w' t asked b')
        → c.at ≡ d.at → (b ≡ b') × SameOwn w w' }
{}

/// A carried timer lands in one way, by what was then seen (`lands`), and at one moment it is sent on to one base (`goes_on`). Which of these is free, and
/// whether another pass had the lock (`carried`).
pub fn an_arrival_is_fixed()
    ensures lands { (o : Opening) (v w w' : KnownOfTimers) (t : ℕ) (s : Timer) (asked : Asked) (l l' : landings.Landed)
        → Lands o v w t s asked l → Lands o v w' t s asked l' → w.seen ≡ w'.seen → (l ≡ l') × SameOutcome w w' t }
    ensures goes_on { (o : Opening) (v w w' : KnownOfTimers) (t : ℕ) (s n n' : Timer) (c : SendsOn o v w t s n) (d : SendsOn o v w' t s n')
        → c.at ≡ d.at → (n ≡ n') × SameOutcome w w' t }
    ensures carried { (p q q' : PassOf) (t : ℕ) (s : Timer) → StillCarries p q t s → StillCarries p q' t s → SameOutcome q.known q'.known t }
{}
