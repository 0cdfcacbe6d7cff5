//! Counters, whose rises stand among the entries of timers and bases.
ghost use Rattle.std.specs.Prelude.{◌≡◌, ◌≢◌, ◌+◌, ◌^◌, ◌<◌, ◌≤◌, length, MatchBool};
ghost use Rattle.base_row.specs.Places.{counter_at, word_at};
ghost use Rattle.base_row.specs.Rings.{counters_in, MayRiseTo};
ghost use Rattle.base_row.specs.Plays.{RaisesTo, RisesFrom, Steady};
ghost use Rattle.base_row.specs.Calls.{IsBasePassOf, SeesFurther};
ghost use Rattle.seq_timer.specs.Systems.{rises_of};

use crate::held::Pass;
use crate::parts::counter_index;
use crate::row::BaseRow;
use crate::steps::{raise, rise};

impl BaseRow {
    /// How often a counter has risen. It waits for nobody.
    pub fn counter(&self, pass: &mut Pass, counter: u32) -> u64
        requires row { IsBasePassOf self.now pass.old }
        requires within { counter < self.now.about.counters }
        ensures row { IsBasePassOf self.now pass.new }
        ensures sees { SeesFurther pass.old.knows pass.new.knows }
        ensures steady { Steady pass.old.knows pass.new.knows }
        ensures count { result ≡ rises_of counter pass.new.knows.seen }
    {
        self.load_count(pass, counter)
    }

    /// Raises a counter to at least `to`. It waits for nobody, and where the counter is known to be as far it touches no memory.
    pub fn raise_counter(&self, pass: &mut Pass, counter: u32, known: u64, to: u64)
        requires row { IsBasePassOf self.now pass.old }
        requires within { counter < self.now.about.counters }
        requires known { known ≤ rises_of counter pass.old.knows.seen }
        ensures row { IsBasePassOf self.now pass.new }
        ensures sees { SeesFurther pass.old.knows pass.new.knows }
        ensures steady { Steady pass.old.knows pass.new.knows }
        ensures raised { RaisesTo counter to pass.old.knows.seen pass.new.knows.seen }
        ensures count { to ≤ rises_of counter pass.new.knows.seen }
    {
        pass.rested();
        if known < to {
            self.raise_word(pass, counter, to);
        }
    }

    pub(crate) fn raise_word(&self, pass: &mut Pass, counter: u32, to: u64)
        requires row { IsBasePassOf self.now pass.old }
        requires within { counter < counters_in self.now.about }
        requires may { MayRiseTo self.now.about counter to pass.old.knows.seen }
        ensures row { IsBasePassOf self.now pass.new }
        ensures sees { SeesFurther pass.old.knows pass.new.knows }
        ensures steady { Steady pass.old.knows pass.new.knows }
        ensures raised { RaisesTo counter to pass.old.knows.seen pass.new.knows.seen }
        ensures count { to ≤ rises_of counter pass.new.knows.seen }
    {
        let word = self.counter_word(counter);
        raise(&self.table.shared, &mut pass.seat, counter, word, to);
    }

    /// Raises a counter by one, if it has risen `from` times. It waits for nobody.
    pub fn step_counter(&self, pass: &mut Pass, counter: u32, from: u64) -> bool
        requires row { IsBasePassOf self.now pass.old }
        requires within { counter < self.now.about.counters }
        requires small { from + 1 < 2 ^ 64 }
        ensures row { IsBasePassOf self.now pass.new }
        ensures sees { SeesFurther pass.old.knows pass.new.knows }
        ensures steady { Steady pass.old.knows pass.new.knows }
        ensures steps { MatchBool result (RisesFrom counter from pass.old.knows.seen pass.new.knows.seen) (rises_of counter pass.new.knows.seen ≢ from) }
    {
        let word = self.counter_word(counter);
        rise(&self.table.shared, &mut pass.seat, counter, word, from)
    }

    /// Which word a counter has.
    pub(crate) fn counter_word(&self, counter: u32) -> usize
        requires { counter < counters_in self.now.about }
        ensures place { result ≡ counter_at counter }
        ensures inside { result < word_at self.now.about.bases (length self.now.about.timers + self.now.about.bases) }
    {
        let _table = &self.table;
        counter_index(counter as usize)
    }
}
