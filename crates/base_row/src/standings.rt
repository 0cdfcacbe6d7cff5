//! Bases off line and on line, under a base's lock, and what their words say.
ghost use Rattle.std.specs.Prelude.{◌≡◌, ◌+◌, ◌<◌, ℕ, length, Some, None, IfSome, IfNone, true, false};
ghost use Rattle.base_row.specs.Places.{word_at};
ghost use Rattle.base_row.specs.Rules.{base_place};
ghost use Rattle.base_row.specs.Plays.{MayEnterShift, Steady};
ghost use Rattle.base_row.specs.Calls.{IsBasePassOf, SeesFurther, Shifted, base_seen, timer_seen};
ghost use Rattle.seq_timer.specs.declared.context.Context.{Context};
ghost use Rattle.seq_timer.specs.Contents.{front_of, no_content, running_in};
ghost use Rattle.seq_timer.specs.Standings.{IsStanding};
ghost use Rattle.seq_timer.specs.Tables.{IsUnused, is_armed_on, timer_at};

use crate::held::{HeldBase, Pass};
use crate::parts::{pack_standing, timer_index, unpack_standing};
use crate::row::BaseRow;
use crate::steps::{enter_shift, look};
use seq_timer::{BaseEvent, Standing};
use std::marker::Brand;

impl BaseRow {
    /// Whether a held base is on line.
    pub fn standing(&self, pass: &Pass, held: &HeldBase) -> Standing
        requires row { IsBasePassOf self.now pass.now }
        requires held { pass.now.knows.held ≡ Some held.now }
        ensures held { result ≡ held.now.content.standing }
        ensures seen { result ≡ (base_seen self.now.about pass.now.knows held.now.base).standing }
        ensures fits { IsStanding held.now.base result }
        ensures unused { IfSome result.heir (λ h. IsUnused (timer_seen self.now.about pass.now.knows) held.now.base) }
        ensures reach { IfSome result.heir (λ h. (t : ℕ) → t < length self.now.about.timers → 0 < (timer_at self.now.about.timers t).terms.reach) }
    {
        pass.known();
        self.fresh();
        held.standing()
    }

    /// Loads a base's word. It waits for nobody.
    pub fn load_standing(&self, pass: &mut Pass, base: u32) -> Standing
        requires row { IsBasePassOf self.now pass.old }
        requires within { base < self.now.about.bases }
        ensures row { IsBasePassOf self.now pass.new }
        ensures sees { SeesFurther pass.old.knows pass.new.knows }
        ensures steady { Steady pass.old.knows pass.new.knows }
        ensures standing { result ≡ (base_seen self.now.about pass.new.knows base).standing }
        ensures fits { IsStanding base result }
    {
        let index = self.base_index(base);
        let number = look(&self.table.shared, &mut pass.seat, index);
        pass.known();
        self.fresh();
        unpack_standing(number)
    }

    /// Takes a held base off line, where no timer is armed on it and no function runs there, or on line again. Only the first pass does so.
    pub fn shift(&self, pass: &mut Pass, held: &mut HeldBase, event: BaseEvent)
        requires row { IsBasePassOf self.now pass.old }
        requires may { MayEnterShift pass.old.knows held.old event }
        ensures row { IsBasePassOf self.now pass.new }
        ensures held { pass.new.knows.held ≡ Some held.new }
        ensures shifts { Shifted self.now.about held.old event pass.old.knows pass.new.knows }
    {
        pass.known();
        self.fresh();
        let now = held.standing().after(event);
        held.shift(now, &event);
        let number = pack_standing(&now);
        let word = self.base_index(held.base());
        let cells = &self.table.shared;
        enter_shift::<Brand>(cells, &mut pass.seat, word, number, &event);
    }

    /// The first timer of a held base's first queue that isn't empty: it is armed there. Where there is none, no timer is.
    pub fn front(&self, pass: &Pass, held: &HeldBase) -> Option<u32>
        requires row { IsBasePassOf self.now pass.now }
        requires held { pass.now.knows.held ≡ Some held.now }
        ensures armed { IfSome result (λ t. is_armed_on held.now.base (timer_seen self.now.about pass.now.knows t) ≡ true) }
        ensures front { IfSome result (λ t. (expires : ℕ) × (front_of held.now.content.content ≡ Some (expires, t))) }
        ensures within { IfSome result (λ t. t < length self.now.about.timers) }
        ensures clear { IfNone result (((x : Context) → running_in x held.now.content.content ≡ None) → held.now.content.content ≡ no_content) }
        ensures none { IfNone result ((t : ℕ) → is_armed_on held.now.base (timer_seen self.now.about pass.now.knows t) ≡ false) }
    {
        pass.known();
        self.fresh();
        match held.front() {
            Some((_, timer)) => Some(timer),
            None => None,
        }
    }

    /// Which word a base has.
    fn base_index(&self, base: u32) -> usize
        requires { base < self.now.about.bases }
        ensures place { result ≡ word_at self.now.about.bases (base_place (length self.now.about.timers) base) }
        ensures inside { result < word_at self.now.about.bases (length self.now.about.timers + self.now.about.bases) }
    {
        timer_index(self.bases, self.timers + base as usize)
    }
}
