//! Turns of objects: whether a call has its turn, and the rises that give a turn's beginning and its entry their places among the entries of timers.
ghost use Rattle.std.specs.Prelude.{◌≡◌, ◌+◌, ◌≤◌, ◌<◌, ◌^◌, [], None, length, true, false, MatchOption};
ghost use Rattle.base_row.specs.Plays.{RisesFrom};
ghost use Rattle.counted_row.specs.Views.{IsPassOfRow, Locks};
ghost use Rattle.hr_timers.specs.Known.{IsPassOf};
ghost use Rattle.pass_names.specs.SharedHistory.{LooksOn};
ghost use Rattle.timer_objects.specs.Meaning.{object_meaning};
ghost use Rattle.timer_objects.specs.Known.{HoldsObject, row_of};
ghost use Rattle.timer_objects.specs.Turns.{BeginsTurn, EndsTurn, StandsElsewhere, turns_counter, turns_told};

use crate::object::Object;
use crate::objects::Objects;
use counted_row::{Held, RowPass};
use hr_timers::{Pass, Timers};
use std::marker::Model;
use std::sync::Wait;

/// A turn of an object that a call has begun. It can't be dropped: only `end` takes it, so no call leaves its object in a turn.
pub(crate) struct Turn {
    id: u32,
    stamp: u64,
}

impl Model for Turn {
    ghost use Rattle.std.specs.Prelude.{ℕ};

    ghost Value = { ℕ × ℕ };

    ghost view = { λ t. (t.id, t.stamp) };
}

impl Turn {
    /// The turn of an object with so many entries that a rise of its counter has begun.
    pub(crate) fn begun(id: u32, stamp: u64) -> Turn
        ensures { result ≡ (id, stamp) }
    {
        Turn { id, stamp }
    }
}

impl Objects {
    /// Waits until the lock of an object is free, and takes it when no call has its turn. In fact none has as soon as it has the lock.
    pub(crate) fn lock_in_turn<R: Wait>(
        &self,
        rt: &R,
        timers: &Timers,
        pass: &mut Pass,
        objects_pass: &mut RowPass<Object>,
        id: u32,
    ) -> Held<Object>
        requires pass { IsPassOf timers.now pass.old }
        requires counters { length self.now.decls < timers.now.about.counters }
        requires row { IsPassOfRow (row_of self.now) objects_pass.old }
        requires idle { objects_pass.old.knows.held ≡ None }
        requires unclaimed { objects_pass.old.knows.claims ≡ [] }
        requires within { id < length self.now.decls }
        ensures pass { IsPassOf timers.now pass.new }
        ensures looks { LooksOn pass.old.known pass.new.known }
        ensures told { turns_told id pass.new.known ≡ result.stamp + result.stamp }
        ensures row { IsPassOfRow (row_of self.now) objects_pass.new }
        ensures locks { Locks object_meaning objects_pass.old objects_pass.new id result }
        ensures holds { HoldsObject self.now result }
    {
        for _ in rt.forever() {
            let held = self.lock(rt, objects_pass, id);
            if is_between_turns(timers, pass, id, held.stamp()) {
                return held;
            }
            self.release(objects_pass, held);
        }
        unreachable!()
    }
}

/// Which counter of the timers counts the turns of an object. There are never so many objects that one has none.
pub(crate) fn counter_of(id: u32) -> Option<u32>
    ensures { MatchOption result (2 ^ 32 ≤ turns_counter id) (λ counter. counter ≡ turns_counter id) }
{
    id.checked_add(1)
}

/// Whether an object with so many entries has no call in its turn.
fn is_between_turns(timers: &Timers, pass: &mut Pass, id: u32, stamp: u64) -> bool
    requires pass { IsPassOf timers.now pass.old }
    requires counter { turns_counter id < timers.now.about.counters }
    ensures pass { IsPassOf timers.now pass.new }
    ensures looks { LooksOn pass.old.known pass.new.known }
    ensures told { result ≡ true → turns_told id pass.new.known ≡ stamp + stamp }
    ensures why { result ≡ false → StandsElsewhere id (stamp + stamp) pass.new.known }
{
    let Some(counter) = counter_of(id) else {
        return false;
    };
    let risen = timers.counter(pass, counter);
    match stamp.checked_add(stamp) {
        Some(between) => risen == between,
        None => false,
    }
}

/// Begins a turn of an object with so many entries.
pub(crate) fn begin<R: Wait>(rt: &R, timers: &Timers, pass: &mut Pass, id: u32, stamp: u64) -> Turn
    requires pass { IsPassOf timers.now pass.old }
    requires counter { turns_counter id < timers.now.about.counters }
    requires small { stamp + stamp + 2 < 2 ^ 64 }
    ensures pass { IsPassOf timers.now pass.new }
    ensures turn { result ≡ (id, stamp) }
    ensures begins { BeginsTurn id stamp pass.old.known pass.new.known }
{
    raise(rt, timers, pass, id, stamp + stamp);
    Turn::begun(id, stamp)
}

/// Ends it, where the entry has its place.
pub(crate) fn end<R: Wait>(rt: &R, timers: &Timers, pass: &mut Pass, turn: Turn)
    requires pass { IsPassOf timers.now pass.old }
    requires counter { turns_counter turn.0 < timers.now.about.counters }
    requires small { turn.1 + turn.1 + 2 < 2 ^ 64 }
    ensures pass { IsPassOf timers.now pass.new }
    ensures ends { EndsTurn turn.0 turn.1 pass.old.known pass.new.known }
{
    let Turn { id, stamp } = turn;
    raise(rt, timers, pass, id, stamp + stamp + 1);
}

/// Raises the counter of an object's turns by one, from so many. In fact the first try does.
fn raise<R: Wait>(rt: &R, timers: &Timers, pass: &mut Pass, id: u32, from: u64)
    requires pass { IsPassOf timers.now pass.old }
    requires counter { turns_counter id < timers.now.about.counters }
    requires small { from + 1 < 2 ^ 64 }
    ensures pass { IsPassOf timers.now pass.new }
    ensures looks { LooksOn pass.old.known pass.new.known }
    ensures rises { RisesFrom (turns_counter id) from pass.old.known.seen pass.new.known.seen }
{
    for _ in rt.forever() {
        if try_to_raise(timers, pass, id, from) {
            return;
        }
    }
    unreachable!()
}

/// One try of it.
fn try_to_raise(timers: &Timers, pass: &mut Pass, id: u32, from: u64) -> bool
    requires pass { IsPassOf timers.now pass.old }
    requires counter { turns_counter id < timers.now.about.counters }
    requires small { from + 1 < 2 ^ 64 }
    ensures pass { IsPassOf timers.now pass.new }
    ensures looks { LooksOn pass.old.known pass.new.known }
    ensures rises { result ≡ true → RisesFrom (turns_counter id) from pass.old.known.seen pass.new.known.seen }
    ensures why { result ≡ false → StandsElsewhere id from pass.new.known }
{
    let Some(counter) = counter_of(id) else {
        return false;
    };
    timers.step_counter(pass, counter, from)
}
