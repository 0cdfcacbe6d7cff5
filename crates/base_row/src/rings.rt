//! Rings: the two counters of a bounded queue, of what was put in and of what was taken off. Their rises stand among the entries of timers and bases; at no
//! moment was more taken than put, or is more in a ring than has room.
ghost use Rattle.std.specs.Prelude.{◌≡◌, ◌+◌, ◌^◌, ◌≤◌, ◌<◌, length};
ghost use Rattle.base_row.specs.Calls.{IsBasePassOf, SeesFurther};
ghost use Rattle.base_row.specs.Plays.{RaisesTo, Steady};
ghost use Rattle.base_row.specs.Rings.{counters_in, put_counter, put_in, ring_room, taken_counter, taken_off};
ghost use Rattle.seq_timer.specs.Systems.{rises_of};

use crate::held::Pass;
use crate::row::BaseRow;
use crate::steps::look;

impl BaseRow {
    /// How much was put into a ring. It waits for nobody.
    pub fn put_count(&self, pass: &mut Pass, ring: u32) -> u64
        requires row { IsBasePassOf self.now pass.old }
        requires within { ring < length self.now.about.rings }
        ensures row { IsBasePassOf self.now pass.new }
        ensures sees { SeesFurther pass.old.knows pass.new.knows }
        ensures steady { Steady pass.old.knows pass.new.knows }
        ensures count { result ≡ put_in self.now.about ring pass.new.knows.seen }
    {
        self.load_count(pass, self.put_number(ring))
    }

    /// How much was taken off a ring. It waits for nobody.
    pub fn taken_count(&self, pass: &mut Pass, ring: u32) -> u64
        requires row { IsBasePassOf self.now pass.old }
        requires within { ring < length self.now.about.rings }
        ensures row { IsBasePassOf self.now pass.new }
        ensures sees { SeesFurther pass.old.knows pass.new.knows }
        ensures steady { Steady pass.old.knows pass.new.knows }
        ensures count { result ≡ taken_off self.now.about ring pass.new.knows.seen }
    {
        self.load_count(pass, self.taken_number(ring))
    }

    /// Has at least so much put into a ring, by what is seen to be taken off it and its room: one exchange.
    pub fn raise_put(&self, pass: &mut Pass, ring: u32, to: u64)
        requires row { IsBasePassOf self.now pass.old }
        requires within { ring < length self.now.about.rings }
        requires room { to ≤ taken_off self.now.about ring pass.old.knows.seen + ring_room self.now.about ring }
        ensures row { IsBasePassOf self.now pass.new }
        ensures sees { SeesFurther pass.old.knows pass.new.knows }
        ensures steady { Steady pass.old.knows pass.new.knows }
        ensures raised { RaisesTo (put_counter self.now.about ring) to pass.old.knows.seen pass.new.knows.seen }
        ensures count { to ≤ put_in self.now.about ring pass.new.knows.seen }
    {
        self.raise_word(pass, self.put_number(ring), to);
    }

    /// Has at least so much taken off a ring, by what is seen to be put in: one exchange.
    pub fn raise_taken(&self, pass: &mut Pass, ring: u32, to: u64)
        requires row { IsBasePassOf self.now pass.old }
        requires within { ring < length self.now.about.rings }
        requires there { to ≤ put_in self.now.about ring pass.old.knows.seen }
        ensures row { IsBasePassOf self.now pass.new }
        ensures sees { SeesFurther pass.old.knows pass.new.knows }
        ensures steady { Steady pass.old.knows pass.new.knows }
        ensures raised { RaisesTo (taken_counter self.now.about ring) to pass.old.knows.seen pass.new.knows.seen }
        ensures count { to ≤ taken_off self.now.about ring pass.new.knows.seen }
    {
        self.raise_word(pass, self.taken_number(ring), to);
    }

    pub(crate) fn load_count(&self, pass: &mut Pass, counter: u32) -> u64
        requires row { IsBasePassOf self.now pass.old }
        requires within { counter < counters_in self.now.about }
        ensures row { IsBasePassOf self.now pass.new }
        ensures sees { SeesFurther pass.old.knows pass.new.knows }
        ensures steady { Steady pass.old.knows pass.new.knows }
        ensures count { result ≡ rises_of counter pass.new.knows.seen }
    {
        let word = self.counter_word(counter);
        look(&self.table.shared, &mut pass.seat, word)
    }

    /// Which counter says how much was put into a ring.
    fn put_number(&self, ring: u32) -> u32
        requires { ring < length self.now.about.rings }
        ensures number { result ≡ put_counter self.now.about ring }
        ensures inside { result < counters_in self.now.about }
        ensures small { result + 1 < 2 ^ 32 }
    {
        let _table = &self.table;
        self.counters + (ring + ring)
    }

    /// Which counter says how much was taken off it: the next one.
    fn taken_number(&self, ring: u32) -> u32
        requires { ring < length self.now.about.rings }
        ensures number { result ≡ taken_counter self.now.about ring }
        ensures inside { result < counters_in self.now.about }
    {
        self.put_number(ring) + 1
    }
}
