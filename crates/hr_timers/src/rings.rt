//! Rings beside the timers: the two counters of a bounded queue, of what was put in and of what was taken off, whose rises stand in the one history of all
//! timers. At no moment was more taken than put, or is more in a ring than has room. Which element a rise is of is for the queue's callers to say.
ghost use Rattle.std.specs.Prelude.{◌≡◌, ◌+◌, ◌≤◌, ◌<◌, length, replicate, slice_get, [], IfOk};
ghost use Rattle.base_row.specs.Calls.{opening_ringed};
ghost use Rattle.base_row.specs.Places.{most_counters};
ghost use Rattle.base_row.specs.Plays.{RaisesTo};
ghost use Rattle.base_row.specs.Rings.{put_counter, put_in, ring_room, taken_counter, taken_off};
ghost use Rattle.hr_timers.specs.Known.{IsPassOf, KeepsLocks};
ghost use Rattle.pass_names.specs.SharedHistory.{LooksOn, first_known};
ghost use Rattle.seq_timer.specs.Steps.{HasRoom};

use crate::timers::Timers;
use crate::tokens::Pass;
use base_row::BaseRow;
use seq_timer::{Declared, Terms};
use std::alloc::{AllocError, Global};

impl Timers {
    /// Timers as `make_counting` makes them, with rings of so much room each beside the counters.
    pub fn make_ringed(
        alloc: Global,
        bases: u32,
        timers: &[Declared],
        terms: Terms,
        counters: u32,
        rings: &Vec<u64>,
    ) -> Result<(Timers, Pass), AllocError>
        requires few { (0 < bases) × (bases ≤ 64) × (length timers.now ≤ 16777216) }
        requires limit { 0 < terms.limit }
        requires room { HasRoom terms }
        requires counters { counters + (length rings.now.items + length rings.now.items) ≤ most_counters bases (length timers.now) }
        ensures pass { IfOk result (λ r. IsPassOf r.0 r.1) }
        ensures about { IfOk result (λ r. r.0.about ≡ opening_ringed bases timers.now terms counters rings.now.items) }
        ensures first { IfOk result (λ r. r.1.known ≡ first_known) }
        ensures locks { IfOk result (λ r. (r.1.takes ≡ []) × (r.1.met ≡ replicate bases 0)) }
    {
        let (row, inner) = BaseRow::make_ringed(alloc, bases, timers, terms, counters, rings)?;
        let timers = Timers {
            row,
            first_ring: rings.as_slice().first().copied(),
        };
        let pass = Pass { inner };
        timers.check(&pass);
        Ok((timers, pass))
    }

    /// How much room the first ring has, if there is one.
    pub fn first_ring(&self) -> Option<u64>
        ensures { result ≡ slice_get self.now.about.rings 0 }
    {
        self.first_ring
    }

    /// How much was put into a ring: one load.
    pub fn put_count(&self, pass: &mut Pass, ring: u32) -> u64
        requires pass { IsPassOf self.now pass.old }
        requires ring { ring < length self.now.about.rings }
        ensures pass { IsPassOf self.now pass.new }
        ensures looks { LooksOn pass.old.known pass.new.known }
        ensures count { result ≡ put_in self.now.about ring pass.new.known.seen }
        ensures locks { KeepsLocks pass.old pass.new }
    {
        let count = self.row.put_count(&mut pass.inner, ring);
        self.check(pass);
        count
    }

    /// How much was taken off a ring: one load.
    pub fn taken_count(&self, pass: &mut Pass, ring: u32) -> u64
        requires pass { IsPassOf self.now pass.old }
        requires ring { ring < length self.now.about.rings }
        ensures pass { IsPassOf self.now pass.new }
        ensures looks { LooksOn pass.old.known pass.new.known }
        ensures count { result ≡ taken_off self.now.about ring pass.new.known.seen }
        ensures locks { KeepsLocks pass.old pass.new }
    {
        let count = self.row.taken_count(&mut pass.inner, ring);
        self.check(pass);
        count
    }

    /// Has at least so much put into a ring, by what is seen to be taken off it and its room: one exchange.
    pub fn raise_put(&self, pass: &mut Pass, ring: u32, to: u64)
        requires pass { IsPassOf self.now pass.old }
        requires ring { ring < length self.now.about.rings }
        requires room { to ≤ taken_off self.now.about ring pass.old.known.seen + ring_room self.now.about ring }
        ensures pass { IsPassOf self.now pass.new }
        ensures looks { LooksOn pass.old.known pass.new.known }
        ensures raised { RaisesTo (put_counter self.now.about ring) to pass.old.known.seen pass.new.known.seen }
        ensures count { to ≤ put_in self.now.about ring pass.new.known.seen }
        ensures locks { KeepsLocks pass.old pass.new }
    {
        self.row.raise_put(&mut pass.inner, ring, to);
        self.check(pass);
    }

    /// Has at least so much taken off a ring, by what is seen to be put in: one exchange.
    pub fn raise_taken(&self, pass: &mut Pass, ring: u32, to: u64)
        requires pass { IsPassOf self.now pass.old }
        requires ring { ring < length self.now.about.rings }
        requires there { to ≤ put_in self.now.about ring pass.old.known.seen }
        ensures pass { IsPassOf self.now pass.new }
        ensures looks { LooksOn pass.old.known pass.new.known }
        ensures raised { RaisesTo (taken_counter self.now.about ring) to pass.old.known.seen pass.new.known.seen }
        ensures count { to ≤ taken_off self.now.about ring pass.new.known.seen }
        ensures locks { KeepsLocks pass.old pass.new }
    {
        self.row.raise_taken(&mut pass.inner, ring, to);
        self.check(pass);
    }
}
