//! How long a base may be left alone.
ghost use Rattle.std.specs.Prelude.{◌≡◌, ◌<◌, ◌≤◌, ℕ, IfSome, IfNone, false, length};
ghost use Rattle.seq_timer.specs.Contents.{front_on};
ghost use Rattle.seq_timer.specs.Tables.{IsLeading, in_context, is_armed_on, is_kept_on};
ghost use Rattle.timer_core.specs.Kept.{content_at, timer_in};
ghost use Rattle.timer_core.specs.Waits.{IsNextWait, IsWait, sooner};

use crate::timers::Core;
use ktime::{ClockId, Reading};
use seq_timer::Context;
use timer_queue::Queue;

impl<Q: Queue> Core<Q> {
    /// The first timer of a context and a clock to reach its expiry on a base, with that expiry, due or not.
    pub fn next(&self, context: Context, base: u32, clock: ClockId) -> Option<(u64, u32)>
        requires { base < length self.now.bases }
        ensures front { result ≡ front_on context clock (content_at self.now base) }
        ensures within { IfSome result (λ p. p.1 < length self.now.timers) }
        ensures own { IfSome result (λ p. timer_in self.now p.1 ≡ in_context context (timer_in self.now) p.1) }
        ensures leads { IfSome result (λ p. IsLeading (in_context context (timer_in self.now)) base clock p.1) }
        ensures expires { IfSome result (λ p. p.0 ≡ (timer_in self.now p.1).expires) }
        ensures soft { IfSome result (λ p. (timer_in self.now p.1).soft ≤ p.0) }
        ensures none { IfNone result ((id : ℕ) → is_kept_on base clock (in_context context (timer_in self.now) id) ≡ false) }
    {
        let (expires, id) = self.front(context, base, clock)?;
        self.timers[id as usize].bounded();
        Some((expires, id))
    }

    /// The same, but for the soft expiry.
    fn front(&self, context: Context, base: u32, clock: ClockId) -> Option<(u64, u32)>
        requires { base < length self.now.bases }
        ensures front { result ≡ front_on context clock (content_at self.now base) }
        ensures within { IfSome result (λ p. p.1 < length self.now.timers) }
        ensures own { IfSome result (λ p. timer_in self.now p.1 ≡ in_context context (timer_in self.now) p.1) }
        ensures leads { IfSome result (λ p. IsLeading (in_context context (timer_in self.now)) base clock p.1) }
        ensures expires { IfSome result (λ p. p.0 ≡ (timer_in self.now p.1).expires) }
        ensures none { IfNone result ((id : ℕ) → is_kept_on base clock (in_context context (timer_in self.now) id) ≡ false) }
    {
        let here = &self.bases[base as usize];
        here.front_on(context, clock)
    }

    /// How many nanoseconds after a reading the first timer that is armed on a base reaches its expiry, of both contexts and each on its own
    /// clock: 0 where one has reached it, and nothing where none is armed (`hrtimer_get_next_event`).
    pub fn next_wait(&self, base: u32, reading: Reading) -> Option<u64>
        requires { base < length self.now.bases }
        ensures { IsNextWait self.now base reading result }
    {
        let hard = self.wait_in(Context::Hard, base, reading);
        let soft = self.wait_in(Context::Soft, base, reading);
        sooner(hard, soft)
    }

    /// The same of one context.
    fn wait_in(&self, context: Context, base: u32, reading: Reading) -> Option<u64>
        requires { base < length self.now.bases }
        ensures { IsWait self.now base reading (λ id. is_armed_on base (in_context context (timer_in self.now) id)) result }
    {
        let mono = self.wait_on(context, base, ClockId::Monotonic, reading);
        let real = self.wait_on(context, base, ClockId::Realtime, reading);
        let boot = self.wait_on(context, base, ClockId::Boottime, reading);
        sooner(mono, sooner(real, boot))
    }

    /// The same of one context and one clock.
    fn wait_on(&self, context: Context, base: u32, clock: ClockId, reading: Reading) -> Option<u64>
        requires { base < length self.now.bases }
        ensures { IsWait self.now base reading (λ id. is_kept_on base clock (in_context context (timer_in self.now) id)) result }
    {
        let (expires, _) = self.next(context, base, clock)?;
        Some(expires.saturating_sub(reading.value(clock)))
    }
}

/// The lesser of two.
fn sooner(a: Option<u64>, b: Option<u64>) -> Option<u64>
    ensures { result ≡ sooner a b }
{
    match (a, b) {
        (None, b) => b,
        (Some(x), None) => Some(x),
        (Some(x), Some(y)) => Some(x.min(y)),
    }
}
