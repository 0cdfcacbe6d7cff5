//! Calls on timers, each with and without a sink.
ghost use Rattle.std.specs.Prelude.{◌≡◌, ◌≢◌, ℕ, Bool, IsSome};
ghost use Rattle.ktime.specs.Readings.{ClockReading};
ghost use Rattle.base_row.specs.Calls.{AreFresh};
ghost use Rattle.base_row.specs.Plays.{RisesFrom};
ghost use Rattle.base_row.specs.declared.view.Opening.{Opening};
ghost use Rattle.hr_timers.specs.declared.answer.ClaimAnswer as claims;
ghost use Rattle.hr_timers.specs.declared.answer.NowAnswer as nows;
ghost use Rattle.hr_timers.specs.declared.answer.OfflineAnswer as offs;
ghost use Rattle.hr_timers.specs.declared.answer.OnlineAnswer as ons;
ghost use Rattle.hr_timers.specs.declared.answer.StartAnswer as starts;
ghost use Rattle.hr_timers.specs.declared.numbers.ClaimNumbers as claimed;
ghost use Rattle.hr_timers.specs.Calls.{Cancels, ClaimFits, ClaimsNextDue, Finishes, Forwards, NowFits, Peeks, StartsTimer};
ghost use Rattle.hr_timers.specs.Known.{KnownOfTimers, KnowsTimers, PassOf, timer_then};
ghost use Rattle.hr_timers.specs.Logged.{CancelsBehind, CancelsLogged, ClaimsLogged, FinishesLogged, ForwardsLogged, HadRisenOtherwise};
ghost use Rattle.pass_names.specs.SharedHistory.{LooksOn, MeetWith, TakesIn};
ghost use Rattle.seq_timer.specs.Events.{Asked};
ghost use Rattle.seq_timer.specs.declared.answer.CancelAnswer as cancels;
ghost use Rattle.seq_timer.specs.declared.answer.Finished as finished;
ghost use Rattle.seq_timer.specs.declared.answer.ForwardAnswer as forwards;
ghost use Rattle.seq_timer.specs.declared.context.Context as contexts;
ghost use Rattle.seq_timer.specs.declared.observation.Peek as peek;
ghost use Rattle.hr_timers.specs.Logged.{StartsLogged};
ghost use Rattle.hr_timers.specs.Moves.{OfflineFits, OnlineFits, TakesOffline};
ghost use Rattle.answer_laws.specs.Offline.{offline_at, plain_offline_at};
ghost use Rattle.answer_laws.specs.Outcomes.{BasesStay, SameOutcome, SameOwn, claim_moment, is_contended, now_moment, start_moment, unasked};

use hr_timers::ReceiptSink;

/// At one moment a peek tells one thing of a timer.
pub fn a_peek_is_fixed()
    ensures { (o : Opening) (v w w' : KnownOfTimers) (t : ℕ) (p p' : peek.Peek) (c : Peeks o v w t p) (d : Peeks o v w' t p')
        → c.at ≡ d.at → (p ≡ p') × SameOutcome w w' t }
{}

/// At one moment, and sent to the same bases, a start has one answer. It makes the same entries, and its sink has then the same.
pub fn a_start_is_fixed<S: ReceiptSink>()
    ensures plain { (o : Opening) (v w w' : KnownOfTimers) (t : ℕ) (asked : Asked) (a a' : starts.StartAnswer)
        (c : StartsTimer o v w t asked a) (d : StartsTimer o v w' t asked a') → start_moment o v w t asked a c ≡ start_moment o v w' t asked a' d
        → (a ≡ a') × SameOutcome w w' t }
    ensures logged { (o : Opening) (v w w' : KnownOfTimers) (t : ℕ) (asked : Asked) (a a' : starts.StartAnswer) (s r r' : S)
        (c : StartsLogged S.pushed o v w t asked a s r) (d : StartsLogged S.pushed o v w' t asked a' s r')
        → start_moment o v w t asked a c.starts ≡ start_moment o v w' t asked a' d.starts → (a ≡ a') × (r ≡ r') × SameOutcome w w' t }
{}

/// Of a timer whose function runs a start is fixed by its moment alone, but for the base that it names as asked for.
pub fn a_start_of_a_running_timer_is_fixed()
    ensures { (o : Opening) (v w w' : KnownOfTimers) (t : ℕ) (asked : Asked) (a a' : starts.StartAnswer) (c : StartsTimer o v w t asked a)
        (d : StartsTimer o v w' t asked a') → KnowsTimers o w → KnowsTimers o w' → IsSome (timer_then o c.at t).running → c.at ≡ d.at
        → (unasked a ≡ unasked a') × SameOwn w w' }
{}

/// Where no base goes off line or on line while it goes on, a start is fixed by its moment alone.
pub fn a_start_while_bases_stay_is_fixed()
    ensures { (o : Opening) (v w w' : KnownOfTimers) (t : ℕ) (asked : Asked) (a a' : starts.StartAnswer) (c : StartsTimer o v w t asked a)
        (d : StartsTimer o v w' t asked a') → KnowsTimers o w → KnowsTimers o w' → BasesStay o v.seen w.seen → BasesStay o v.seen w'.seen
        → c.at ≡ d.at → (a ≡ a') × SameOutcome w w' t }
{}

/// At one moment a cancel has one answer, and makes the same entries.
pub fn a_cancel_is_fixed<S: ReceiptSink>()
    ensures plain { (o : Opening) (v w w' : KnownOfTimers) (t : ℕ) (a a' : cancels.CancelAnswer) (c : Cancels o v w t a) (d : Cancels o v w' t a')
        → c.at ≡ d.at → (a ≡ a') × SameOutcome w w' t }
    ensures logged { (o : Opening) (v w w' : KnownOfTimers) (t : ℕ) (a a' : cancels.CancelAnswer) (s r r' : S)
        (c : CancelsLogged S.pushed o v w t a s r) (d : CancelsLogged S.pushed o v w' t a' s r')
        → c.cancels.at ≡ d.cancels.at → (a ≡ a') × (r ≡ r') × SameOutcome w w' t }
{}

/// At one moment a claim has one answer: the timer whose turn it is, or none, or the function that runs. Of a timer that is claimed the same entries were
/// seen (`entry`).
pub fn a_claim_is_fixed<S: ReceiptSink>()
    ensures plain { (o : Opening) → AreFresh o.timers → (v w w' : KnownOfTimers) (x : contexts.Context) (base : ℕ) (reading : ClockReading)
        (a a' : claims.ClaimAnswer) (c : ClaimFits o v w x base reading a) (d : ClaimFits o v w' x base reading a') → KnowsTimers o w
        → claim_moment o v w x base reading a c ≡ claim_moment o v w' x base reading a' d → (a ≡ a') × SameOwn w w' }
    ensures entry { (o : Opening) (v w w' : KnownOfTimers) (x : contexts.Context) (base : ℕ) (reading : ClockReading) (n n' : claimed.ClaimNumbers)
        (c : ClaimsNextDue o v w x base reading n) (d : ClaimsNextDue o v w' x base reading n') → c.at ≡ d.at → (n ≡ n') × SameOutcome w w' n.timer }
    ensures logged { (o : Opening) → AreFresh o.timers → (v w w' : KnownOfTimers) (x : contexts.Context) (base : ℕ) (reading : ClockReading)
        (a a' : claims.ClaimAnswer) (s r r' : S) (c : ClaimsLogged S.pushed o v w x base reading a s r)
        (d : ClaimsLogged S.pushed o v w' x base reading a' s r')
        → KnowsTimers o w → claim_moment o v w x base reading a c.claims ≡ claim_moment o v w' x base reading a' d.claims
        → (a ≡ a') × (r ≡ r') × SameOwn w w' }
{}

/// At one moment a forward has one answer, and makes the same entries.
pub fn a_forward_is_fixed<S: ReceiptSink>()
    ensures plain { (o : Opening) (v w w' : KnownOfTimers) (n : claimed.ClaimNumbers) (reading : ClockReading) (interval : ℕ) (a a' : forwards.ForwardAnswer)
        (c : Forwards o v w n reading interval a) (d : Forwards o v w' n reading interval a') → c.at ≡ d.at → (a ≡ a') × SameOutcome w w' n.timer }
    ensures logged { (o : Opening) (v w w' : KnownOfTimers) (n : claimed.ClaimNumbers) (reading : ClockReading) (interval : ℕ) (a a' : forwards.ForwardAnswer)
        (s r r' : S) (c : ForwardsLogged S.pushed o v w n reading interval a s r) (d : ForwardsLogged S.pushed o v w' n reading interval a' s r')
        → c.forwards.at ≡ d.forwards.at → (a ≡ a') × (r ≡ r') × SameOutcome w w' n.timer }
{}

/// At one moment a finish has one answer, and makes the same entry.
pub fn a_finish_is_fixed<S: ReceiptSink>()
    ensures plain { (o : Opening) (v w w' : KnownOfTimers) (n : claimed.ClaimNumbers) (restart : Bool) (a a' : finished.Finished)
        (c : Finishes o v w n restart a) (d : Finishes o v w' n restart a') → c.at ≡ d.at → (a ≡ a') × SameOutcome w w' n.timer }
    ensures logged { (o : Opening) (v w w' : KnownOfTimers) (n : claimed.ClaimNumbers) (restart : Bool) (a a' : finished.Finished) (s r r' : S)
        (c : FinishesLogged S.pushed o v w n restart a s r) (d : FinishesLogged S.pushed o v w' n restart a' s r')
        → c.finishes.at ≡ d.finishes.at → (a ≡ a') × (r ≡ r') × SameOutcome w w' n.timer }
{}

/// At one moment a cancel that waits for nobody has one answer, and where it answers Moved at one pair of moments. Whether it is contended is free.
pub fn a_cancel_now_is_fixed()
    ensures { (o : Opening) → AreFresh o.timers → (p q q' : PassOf) (t : ℕ) (a a' : nows.NowAnswer) (c : NowFits o p q t a) (d : NowFits o p q' t a')
        → KnowsTimers o q.known → now_moment o p q t a c ≡ now_moment o p q' t a' d → is_contended a ≡ is_contended a'
        → (a ≡ a') × SameOwn q.known q'.known }
{}

/// At one moment a cancel behind a rise of a counter has one answer, and makes the same entries (`cancels`). Where the counter could rise it isn't refused
/// (`refused`). Whether it is refused where the function runs is free.
pub fn a_cancel_behind_a_rise_is_fixed<S: ReceiptSink>()
    ensures cancels { (o : Opening) (counter from : ℕ) (v w w' : KnownOfTimers) (t : ℕ) (a a' : cancels.CancelAnswer) (s r r' : S)
        (c : CancelsBehind S.pushed o counter from v w t a s r) (d : CancelsBehind S.pushed o counter from v w' t a' s r')
        → c.cancels.cancels.at ≡ d.cancels.cancels.at → (a ≡ a') × (r ≡ r') × SameOutcome w w' t }
    ensures refused { (counter from : ℕ) (v w w' : KnownOfTimers) (h : HadRisenOtherwise counter from v w) (r : RisesFrom counter from v.seen w'.seen)
        → h.at ≢ r.before }
{}

/// By the moments of its moves, and by what was then seen, taking a base off line has one answer, and its sink has then the same.
pub fn taking_a_base_off_line_is_fixed<S: ReceiptSink>()
    ensures plain { (o : Opening) → AreFresh o.timers → (base heir : ℕ) (reading : ClockReading) (v w w' : KnownOfTimers) (budget : ℕ)
        (a a' : offs.OfflineAnswer) (c : TakesOffline o base heir reading v w budget a) (d : TakesOffline o base heir reading v w' budget a')
        → KnowsTimers o w → w.seen ≡ w'.seen → plain_offline_at o base heir reading v w budget a c ≡ plain_offline_at o base heir reading v w' budget a' d
        → (a ≡ a') × SameOwn w w' }
    ensures logged { (o : Opening) → AreFresh o.timers
        → (base heir : ℕ) (reading : ClockReading) (v w w' : KnownOfTimers) (budget : ℕ) (a a' : offs.OfflineAnswer)
        (s r r' : S) (c : OfflineFits S.pushed o base heir reading v w budget a s r) (d : OfflineFits S.pushed o base heir reading v w' budget a' s r')
        → KnowsTimers o w → w.seen ≡ w'.seen
        → offline_at S.pushed o base heir reading v w budget a s r c ≡ offline_at S.pushed o base heir reading v w' budget a' s r' d
        → (a ≡ a') × (r ≡ r') × SameOwn w w' }
{}

/// Taking a base on line again has one answer at whatever moment: only the first pass does so, and it knows how the base stands.
pub fn taking_a_base_on_line_is_fixed()
    ensures { (o : Opening) (v w w' : KnownOfTimers) (base : ℕ) (a a' : ons.OnlineAnswer) → KnowsTimers o w → KnowsTimers o w' → OnlineFits o v w base a
        → OnlineFits o v w' base a' → (a ≡ a') × SameOwn w w' }
{}

/// What a look, a meeting and a retirement leave is fixed but for what was seen.
pub fn what_passes_of_timers_tell_is_fixed()
    ensures looks { (v w w' : KnownOfTimers) → LooksOn v w → LooksOn v w' → SameOwn w w' }
    ensures meets { (v u p q p' q' : KnownOfTimers) → MeetWith v u p q → MeetWith v u p' q' → SameOwn p p' × SameOwn q q' }
    ensures retires { (v u w w' : KnownOfTimers) → TakesIn v u w → TakesIn v u w' → SameOwn w w' }
{}
