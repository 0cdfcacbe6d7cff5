//! The calls that change timers.
ghost use Rattle.std.specs.Prelude.{◌≡◌, ◌+◌, ◌<◌, ◌≤◌, ◌⊎◌, ◌^◌, ℕ, Some, None, IsSome, false, length, unwrap_or, [], ◌∷◌, if◌then◌else◌};
ghost use Rattle.seq_timer.specs.declared.event.EventBy.TheVariants as events;
ghost use Rattle.seq_timer.specs.Steps.{rearmed_by};
ghost use Rattle.seq_timer.specs.declared.context.Context.TheVariants as contexts;
ghost use Rattle.seq_timer.specs.Contents.{first_due, running_in};
ghost use Rattle.timer_core.specs.declared.answer.StartAnswer.TheVariants as starts;
ghost use Rattle.seq_timer.specs.declared.answer.CancelAnswer.TheVariants as cancels;
ghost use Rattle.timer_core.specs.declared.answer.ClaimAnswer.TheVariants as claims;
ghost use Rattle.seq_timer.specs.declared.answer.ForwardAnswer.TheVariants as forwards;
ghost use Rattle.seq_timer.specs.Calls.{asked_for, forwarded_as, moves_first, start_events, step_all};
ghost use Rattle.timer_core.specs.Answers.{IsClaim, started_as};
ghost use Rattle.timer_core.specs.Kept.{AreAllowed, IsBelowLimit, IsSameSize, IsSpent, Makes, content_at, timer_in};

use crate::answer::{ClaimAnswer, StartAnswer};
use crate::timers::Core;
use ktime::{Mode, Reading};
use seq_timer::{
    Asked, CancelAnswer, Context, Event, Finished, ForwardAnswer, Rearmed, Reply, TimerState,
};
use timer_queue::Queue;

impl<Q: Queue> Core<Q> {
    /// Arms a timer on a base, with no slack (`hrtimer_start`).
    pub fn start(
        &mut self,
        id: u32,
        mode: Mode,
        ns: u64,
        base: u32,
        reading: Reading,
    ) -> StartAnswer
        requires timer { id < length self.old.timers }
        requires base { base < length self.old.bases }
        ensures still { (timer_in self.old id).moving ≡ false }
        ensures spent { IsSpent (timer_in self.old id) → (result ≡ starts.Spent (timer_in self.old id).stamp) × (self.new ≡ self.old) }
        ensures started { IsBelowLimit (timer_in self.old id) → result ≡ started_as (timer_in self.old id) (timer_in self.new id) base }
        ensures entries { IsBelowLimit (timer_in self.old id) → Makes self.old id (start_events (timer_in self.old id) (asked_for mode ns 0 base reading)) self.new }
        ensures sizes { IsSameSize self.old self.new }
    {
        self.start_range(id, mode, ns, 0, base, reading)
    }

    /// Arms a timer on a base (`hrtimer_start_range_ns`). A timer that is armed is taken off first; one whose function is running keeps
    /// its base; another one is moved where it was on another base. `ns`, in nanoseconds, is the soft expiry; the expiry is `slack` later.
    pub fn start_range(
        &mut self,
        id: u32,
        mode: Mode,
        ns: u64,
        slack: u64,
        base: u32,
        reading: Reading,
    ) -> StartAnswer
        requires timer { id < length self.old.timers }
        requires base { base < length self.old.bases }
        ensures still { (timer_in self.old id).moving ≡ false }
        ensures spent { IsSpent (timer_in self.old id) → (result ≡ starts.Spent (timer_in self.old id).stamp) × (self.new ≡ self.old) }
        ensures started { IsBelowLimit (timer_in self.old id) → result ≡ started_as (timer_in self.old id) (timer_in self.new id) base }
        ensures entries { IsBelowLimit (timer_in self.old id) → Makes self.old id (start_events (timer_in self.old id) (asked_for mode ns slack base reading)) self.new }
        ensures sizes { IsSameSize self.old self.new }
    {
        let old = self.state(id);
        if old.stamp() >= old.limit() {
            return StartAnswer::Spent { stamp: old.stamp() };
        }
        let asked = Asked {
            mode,
            ns,
            slack,
            reading,
            base,
        };
        self.arm(id, asked);
        let now = self.state(id);
        StartAnswer::Started {
            was_armed: old.armed().is_some(),
            generation: now.stamp(),
            moved_to: moves_first(&old, base).then_some(base),
            placement: now.placement(),
        }
    }

    /// Makes the entries of a start.
    fn arm(&mut self, id: u32, asked: Asked)
        requires timer { id < length self.old.timers }
        requires base { asked.base < length self.old.bases }
        requires room { IsBelowLimit (timer_in self.old id) }
        ensures makes { Makes self.old id (start_events (timer_in self.old id) asked) self.new }
        ensures sizes { IsSameSize self.old self.new }
    {
        let base = asked.base;
        let timer = self.state(id);
        let start = Event::Start(asked);
        if moves_first(&timer, base) {
            self.move_and_step(id, base, start);
            return;
        }
        self.step(id, start);
    }

    /// Disarms a timer, if its function isn't running (`hrtimer_try_to_cancel`).
    pub fn try_to_cancel(&mut self, id: u32) -> CancelAnswer
        requires { id < length self.old.timers }
        ensures still { (timer_in self.old id).moving ≡ false }
        ensures running { (g : ℕ) → (timer_in self.old id).running ≡ Some g → (result ≡ cancels.Running g (timer_in self.old id).stamp) × (self.new ≡ self.old) }
        ensures cancelled { (g : ℕ) → (timer_in self.old id).running ≡ None → (timer_in self.old id).armed ≡ Some g → result ≡ cancels.Cancelled g ((timer_in self.old id).stamp + 1) }
        ensures entry { IsSome (timer_in self.old id).armed → (timer_in self.old id).running ≡ None → Makes self.old id (events.Cancel ∷ []) self.new }
        ensures idle { (timer_in self.old id).running ≡ None → (timer_in self.old id).armed ≡ None → (result ≡ cancels.Idle (timer_in self.old id).stamp) × (self.new ≡ self.old) }
        ensures sizes { IsSameSize self.old self.new }
    {
        let timer = self.state(id);
        let stamp = timer.stamp();
        if let Some(generation) = timer.running() {
            return CancelAnswer::Running { generation, stamp };
        }
        let Some(generation) = timer.armed() else {
            return CancelAnswer::Idle { stamp };
        };
        self.step(id, Event::Cancel);
        CancelAnswer::Cancelled {
            generation,
            number: stamp + 1,
        }
    }

    /// Claims the timer of the hard context that is the next to expire on a base.
    pub fn claim_next(&mut self, base: u32, reading: Reading) -> ClaimAnswer
        requires { base < length self.old.bases }
        ensures busy { (t g : ℕ) → running_in contexts.Hard (content_at self.old base) ≡ Some (t, g) → (result ≡ claims.BaseBusy t g) × (self.new ≡ self.old) }
        ensures none { running_in contexts.Hard (content_at self.old base) ≡ None → first_due contexts.Hard (timer_in self.old) (content_at self.old base) reading ≡ None → (result ≡ claims.NoneDue) × (self.new ≡ self.old) }
        ensures claimed { (e t : ℕ) → running_in contexts.Hard (content_at self.old base) ≡ None → first_due contexts.Hard (timer_in self.old) (content_at self.old base) reading ≡ Some (e, t) → result ≡ claims.Claimed t (unwrap_or (timer_in self.old t).armed 0) ((timer_in self.old t).stamp + 1) }
        ensures claim { IsClaim self.old contexts.Hard base reading result self.new }
        ensures sizes { IsSameSize self.old self.new }
    {
        self.claim_in(Context::Hard, base, reading)
    }

    /// Claims the timer of the soft context that is the next to expire on a base.
    pub fn claim_next_soft(&mut self, base: u32, reading: Reading) -> ClaimAnswer
        requires { base < length self.old.bases }
        ensures busy { (t g : ℕ) → running_in contexts.Soft (content_at self.old base) ≡ Some (t, g) → (result ≡ claims.BaseBusy t g) × (self.new ≡ self.old) }
        ensures none { running_in contexts.Soft (content_at self.old base) ≡ None → first_due contexts.Soft (timer_in self.old) (content_at self.old base) reading ≡ None → (result ≡ claims.NoneDue) × (self.new ≡ self.old) }
        ensures claimed { (e t : ℕ) → running_in contexts.Soft (content_at self.old base) ≡ None → first_due contexts.Soft (timer_in self.old) (content_at self.old base) reading ≡ Some (e, t) → result ≡ claims.Claimed t (unwrap_or (timer_in self.old t).armed 0) ((timer_in self.old t).stamp + 1) }
        ensures claim { IsClaim self.old contexts.Soft base reading result self.new }
        ensures sizes { IsSameSize self.old self.new }
    {
        self.claim_in(Context::Soft, base, reading)
    }

    /// Claims the timer of a context that is the next to expire on a base: its function is to run (`__run_hrtimer`). One function of a context
    /// runs on a base at a time.
    pub fn claim_in(&mut self, context: Context, base: u32, reading: Reading) -> ClaimAnswer
        requires { base < length self.old.bases }
        ensures busy { (t g : ℕ) → running_in context (content_at self.old base) ≡ Some (t, g) → (result ≡ claims.BaseBusy t g) × (self.new ≡ self.old) }
        ensures none { running_in context (content_at self.old base) ≡ None → first_due context (timer_in self.old) (content_at self.old base) reading ≡ None → (result ≡ claims.NoneDue) × (self.new ≡ self.old) }
        ensures claimed { (e t : ℕ) → running_in context (content_at self.old base) ≡ None → first_due context (timer_in self.old) (content_at self.old base) reading ≡ Some (e, t) → result ≡ claims.Claimed t (unwrap_or (timer_in self.old t).armed 0) ((timer_in self.old t).stamp + 1) }
        ensures claim { IsClaim self.old context base reading result self.new }
        ensures sizes { IsSameSize self.old self.new }
    {
        if let Some((timer, generation)) = self.running(context, base) {
            return ClaimAnswer::BaseBusy { timer, generation };
        }
        let Some((_, timer)) = self.first(context, base, reading) else {
            return ClaimAnswer::NoneDue;
        };
        let number = self.state(timer).stamp() + 1;
        match self.step(timer, Event::Claim { base, reading }) {
            Reply::Claim { generation } => ClaimAnswer::Claimed {
                timer,
                generation,
                number,
            },
            _ => unreachable!(),
        }
    }

    /// Moves the expiry of a timer whose function is running past the reading by whole intervals (`hrtimer_forward`). It doesn't arm it.
    pub fn forward(&mut self, timer: u32, reading: Reading, interval: u64) -> ForwardAnswer
        requires timer { timer < length self.old.timers }
        requires running { IsSome (timer_in self.old timer).running }
        ensures spent { IsSpent (timer_in self.old timer) → (result ≡ forwards.Spent (timer_in self.old timer).stamp) × (self.new ≡ self.old) }
        ensures armed { (g : ℕ) → IsBelowLimit (timer_in self.old timer) → (timer_in self.old timer).armed ≡ Some g → (result ≡ forwards.Armed g (timer_in self.old timer).stamp) × (self.new ≡ self.old) }
        ensures forwarded { IsBelowLimit (timer_in self.old timer) → (timer_in self.old timer).armed ≡ None → result ≡ forwarded_as (timer_in self.old timer) reading interval }
        ensures entry { IsBelowLimit (timer_in self.old timer) → (timer_in self.old timer).armed ≡ None → Makes self.old timer (events.Forward reading interval ∷ []) self.new }
        ensures sizes { IsSameSize self.old self.new }
    {
        let now = self.state(timer);
        let stamp = now.stamp();
        if stamp >= now.limit() {
            return ForwardAnswer::Spent { stamp };
        }
        if let Some(generation) = now.armed() {
            return ForwardAnswer::Armed { generation, stamp };
        }
        match self.step(timer, Event::Forward { reading, interval }) {
            Reply::Forward { moved } => ForwardAnswer::Forwarded {
                number: stamp + 1,
                moved,
            },
            _ => unreachable!(),
        }
    }

    /// Ends the run of a timer's function. `restart` is what the function answered: the timer is armed again, unless a start came in
    /// while the function ran or the limit on entries is reached.
    pub fn finish(&mut self, timer: u32, restart: bool) -> Finished
        requires timer { timer < length self.old.timers }
        requires running { IsSome (timer_in self.old timer).running }
        ensures number { result.number ≡ (timer_in self.old timer).stamp + 1 }
        ensures rearmed { result.rearmed ≡ rearmed_by (timer_in self.old timer) restart }
        ensures entry { Makes self.old timer (events.Finish restart ∷ []) self.new }
        ensures sizes { IsSameSize self.old self.new }
    {
        let stamp = self.state(timer).stamp();
        match self.step(timer, Event::Finish { restart }) {
            Reply::Finish { restarted, .. } => Finished {
                number: stamp + 1,
                rearmed: Rearmed::at(stamp, restarted),
            },
            _ => unreachable!(),
        }
    }
}

/// Whether a start that asks for a base first moves the timer there.
fn moves_first(timer: &TimerState, base: u32) -> bool
    ensures { result ≡ moves_first timer.now base }
{
    timer.running().is_none() && timer.base() != base
}
