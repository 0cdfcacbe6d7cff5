//! The shared clock.
ghost use Rattle.std.specs.Prelude.{◌≡◌, length, IfOk, [], MatchBool};
ghost use Rattle.pass_names.specs.Names.{AnswersFor, IsLast};
ghost use Rattle.pass_names.specs.Passes.{Looks, Retires, Meets, GoesOn};
ghost use Rattle.ktime.specs.Clocks.{at_stamp, after_write, AreAccepted, IsAccepted};
ghost use Rattle.ktime.specs.declared.write.Write.TheVariants.{Advance, Set, Suspend};
ghost use Rattle.clock_cell.specs.Turns.{Misses, Turned};
ghost use Rattle.clock_cell.specs.Views.{IsPassOfClock, AreOfOne, AnswersWrite, Hears, KnowsClock, AcceptsWrite, writes, seen_reading, first_clock_view, split_clock_view, new_clock_view, told_clock_view, joined_clock_view};

use crate::pass::ClockPass;
use crate::plays::Child;
use crate::steps::{ClockCell, absorb, enter, look, tell};
use crate::words::{cell_words, reading_in};
use ktime::{Clock, ClockFault, Reading, Write};
use std::alloc::{AllocError, Global};
use std::marker::{Brand, Model};
use std::sync::Wait;

/// What a write answers: the clock after it, or why it was refused.
pub type WriteAnswer = Result<Reading, ClockFault>;

/// What one turn of a write came to.
enum Turn {
    Made(Reading),
    Refused(ClockFault),
    /// Another write came between.
    Again,
}

/// A clock that many threads share. Its reading is kept as five words, which are read and exchanged
/// whole.
#[derive(Drop)]
pub struct SharedClock {
    cell: ClockCell,
}

impl Model for SharedClock {
    ghost use Rattle.atomic_table.specs.Seated.{TableId};

    ghost Value = { TableId };

    ghost view = { λ c. c.cell.table.shared.table_id };
}

impl SharedClock {
    /// A clock at its start, and the first pass.
    pub fn make(alloc: Global) -> Result<(SharedClock, ClockPass), AllocError>
        ensures pass { IfOk result (λ r. IsPassOfClock r.0 r.1) }
        ensures first { IfOk result (λ r. r.1.knows ≡ first_clock_view) }
        ensures known { IfOk result (λ r. KnowsClock r.1.knows) }
    {
        let opening = Clock::new().reading();
        let (cell, seat) = ClockCell::ruled(alloc, cell_words(&opening))?;
        Ok((SharedClock { cell }, ClockPass { seat }))
    }

    /// The clock as it is now, by one load.
    pub fn read<R: Wait>(&self, rt: &R, pass: &mut ClockPass) -> Reading
        requires pass { IsPassOfClock self.now pass.old }
        ensures pass { IsPassOfClock self.now pass.new }
        ensures reading { result ≡ seen_reading pass.new.knows }
        ensures count { result.stamp ≡ length (writes pass.new.knows) }
        ensures looks { Looks pass.old.knows.pass pass.new.knows.pass }
        ensures heard { Hears pass.old.knows pass.new.knows }
        ensures known { KnowsClock pass.new.knows }
    {
        reading_in(&look(rt, &self.cell, &mut pass.seat))
    }

    /// Makes one write, or refuses it as `Clock::write` does. It loads the clock and exchanges it for
    /// the one after the write, and begins anew where another write came between. That can be as often
    /// as the clock takes writes.
    pub fn write<R: Wait>(&self, rt: &R, pass: &mut ClockPass, write: Write) -> WriteAnswer
        requires pass { IsPassOfClock self.now pass.old }
        ensures pass { IsPassOfClock self.now pass.new }
        ensures answers { AnswersWrite write pass.old.knows pass.new.knows result }
    {
        loop {
            match self.turn(rt, pass, write) {
                Turn::Made(after) => return Ok(after),
                Turn::Refused(fault) => return Err(fault),
                Turn::Again => {}
            }
        }
    }

    /// Time passes, in nanoseconds.
    pub fn advance<R: Wait>(&self, rt: &R, pass: &mut ClockPass, by: u64) -> WriteAnswer
        requires pass { IsPassOfClock self.now pass.old }
        ensures pass { IsPassOfClock self.now pass.new }
        ensures answers { AnswersWrite (Advance by) pass.old.knows pass.new.knows result }
    {
        self.write(rt, pass, Write::Advance { by })
    }

    /// Sets the time of day, in nanoseconds, as `clock_settime(2)` does.
    pub fn set_real<R: Wait>(&self, rt: &R, pass: &mut ClockPass, to: u64) -> WriteAnswer
        requires pass { IsPassOfClock self.now pass.old }
        ensures pass { IsPassOfClock self.now pass.new }
        ensures answers { AnswersWrite (Set to) pass.old.knows pass.new.knows result }
    {
        self.write(rt, pass, Write::Set { to })
    }

    /// The machine sleeps, for so many nanoseconds.
    pub fn suspend<R: Wait>(&self, rt: &R, pass: &mut ClockPass, by: u64) -> WriteAnswer
        requires pass { IsPassOfClock self.now pass.old }
        ensures pass { IsPassOfClock self.now pass.new }
        ensures answers { AnswersWrite (Suspend by) pass.old.knows pass.new.knows result }
    {
        self.write(rt, pass, Write::Suspend { by })
    }

    /// One turn of a write: a load of the clock, and an exchange for the clock after the write.
    fn turn<R: Wait>(&self, rt: &R, pass: &mut ClockPass, write: Write) -> Turn
        requires pass { IsPassOfClock self.now pass.old }
        ensures pass { IsPassOfClock self.now pass.new }
        ensures turned { Turned write pass.old.knows pass.new.knows result }
        ensures heard { Hears pass.old.knows pass.new.knows }
        ensures known { KnowsClock pass.new.knows }
    {
        let seen = self.read(rt, pass);
        let after = match Clock::at(seen).write(write) {
            Ok(after) => after,
            Err(fault) => return Turn::Refused(fault),
        };
        if self.exchange(rt, pass, &seen, &after, write) {
            Turn::Made(after)
        } else {
            Turn::Again
        }
    }

    /// Puts the reading after a write in the place of the one before it, if that is still there.
    fn exchange<R: Wait>(
        &self,
        rt: &R,
        pass: &mut ClockPass,
        seen: &Reading,
        after: &Reading,
        write: Write,
    ) -> bool
        requires pass { IsPassOfClock self.now pass.old }
        requires after { after.now ≡ after_write seen.now write }
        requires accepted { IsAccepted seen.now write }
        ensures pass { IsPassOfClock self.now pass.new }
        ensures taken { MatchBool result (AcceptsWrite write pass.old.knows pass.new.knows after.now) (Misses seen.now pass.old.knows pass.new.knows) }
        ensures heard { Hears pass.old.knows pass.new.knows }
        ensures known { KnowsClock pass.new.knows }
    {
        enter::<Brand, R>(rt, &self.cell, &mut pass.seat, seen, after, write)
    }

    /// Makes one more pass, which has seen as much. It takes no memory.
    pub fn split(&self, pass: &mut ClockPass) -> ClockPass
        requires pass { IsPassOfClock self.now pass.old }
        ensures pass { IsPassOfClock self.now pass.new × IsPassOfClock self.now result }
        ensures splitter { pass.new.knows ≡ split_clock_view pass.old.knows }
        ensures new { result.knows ≡ new_clock_view pass.old.knows }
        ensures answers { AnswersFor pass.new.knows.pass.id result.knows.pass.id }
        ensures known { KnowsClock pass.new.knows × KnowsClock result.knows }
    {
        ClockPass {
            seat: self.cell.split_pass::<Child>(&mut pass.seat),
        }
    }

    /// Two passes tell each other what they have seen, which the next load of each shows. It takes no
    /// memory.
    pub fn meet(&self, a: &mut ClockPass, b: &mut ClockPass)
        requires pass { IsPassOfClock self.now a.old × IsPassOfClock self.now b.old }
        ensures pass { IsPassOfClock self.now a.new × IsPassOfClock self.now b.new }
        ensures second { b.new.knows ≡ told_clock_view b.old.knows a.old.knows }
        ensures first { a.new.knows ≡ told_clock_view a.old.knows b.new.knows }
        ensures meets { AreOfOne (writes a.old.knows) (writes b.old.knows) → Meets a.old.knows.pass b.old.knows.pass a.new.knows.pass b.new.knows.pass }
        ensures legal { AreAccepted (at_stamp 0) (writes a.new.knows) × AreAccepted (at_stamp 0) (writes b.new.knows) }
    {
        tell(&self.cell, &mut a.seat, &mut b.seat);
        tell(&self.cell, &mut b.seat, &mut a.seat);
    }

    /// Two passes tell each other what they have seen, as by `meet`, and both look: each has then seen
    /// all that both had seen. The second one looks first, so that the first has then seen as much. It
    /// answers both readings, the first one's before the second one's.
    pub fn meet_and_read<R: Wait>(
        &self,
        rt: &R,
        a: &mut ClockPass,
        b: &mut ClockPass,
    ) -> (Reading, Reading)
        requires pass { IsPassOfClock self.now a.old × IsPassOfClock self.now b.old }
        ensures pass { IsPassOfClock self.now a.new × IsPassOfClock self.now b.new }
        ensures readings { (result.0 ≡ seen_reading a.new.knows) × (result.1 ≡ seen_reading b.new.knows) }
        ensures count { (result.0.stamp ≡ length (writes a.new.knows)) × (result.1.stamp ≡ length (writes b.new.knows)) }
        ensures meets { Meets a.old.knows.pass b.old.knows.pass a.new.knows.pass b.new.knows.pass }
        ensures heard { Hears a.old.knows a.new.knows × Hears b.old.knows b.new.knows }
        ensures known { KnowsClock a.new.knows × KnowsClock b.new.knows }
    {
        let second = self.hear(rt, a, b);
        let first = self.hear(rt, b, a);
        (first, second)
    }

    /// Tells a pass what another has seen, and the one that was told looks.
    fn hear<R: Wait>(&self, rt: &R, from: &mut ClockPass, to: &mut ClockPass) -> Reading
        requires pass { IsPassOfClock self.now from.old × IsPassOfClock self.now to.old }
        ensures pass { IsPassOfClock self.now from.new × IsPassOfClock self.now to.new }
        ensures from { from.new.knows ≡ from.old.knows }
        ensures reading { result ≡ seen_reading to.new.knows }
        ensures count { result.stamp ≡ length (writes to.new.knows) }
        ensures looks { Looks to.old.knows.pass to.new.knows.pass }
        ensures told { GoesOn from.old.knows.pass.seen to.new.knows.pass.seen }
        ensures heard { Hears to.old.knows to.new.knows }
        ensures known { KnowsClock to.new.knows }
    {
        tell(&self.cell, &mut from.seat, &mut to.seat);
        self.read(rt, to)
    }

    /// A pass takes in another, which was split off it, or off one that it took in. What the other had
    /// seen is shown by the next load.
    pub fn join(&self, main: &mut ClockPass, other: ClockPass)
        requires pass { IsPassOfClock self.now main.old × IsPassOfClock self.now other }
        requires answers { AnswersFor main.old.knows.pass.id other.knows.pass.id }
        ensures pass { IsPassOfClock self.now main.new }
        ensures joined { main.new.knows ≡ joined_clock_view main.old.knows other.knows }
        ensures retires { AreOfOne (writes main.old.knows) (writes other.knows) → Retires main.old.knows.pass other.knows.pass main.new.knows.pass }
        ensures legal { AreAccepted (at_stamp 0) (writes main.new.knows) }
    {
        absorb(&self.cell, &mut main.seat, other.into_seat());
    }

    /// A pass takes in another, as by `join`, and looks: it has then seen all that both had seen.
    pub fn take_in<R: Wait>(&self, rt: &R, main: &mut ClockPass, other: ClockPass) -> Reading
        requires pass { IsPassOfClock self.now main.old × IsPassOfClock self.now other }
        requires answers { AnswersFor main.old.knows.pass.id other.knows.pass.id }
        ensures pass { IsPassOfClock self.now main.new }
        ensures reading { result ≡ seen_reading main.new.knows }
        ensures retires { Retires main.old.knows.pass other.knows.pass main.new.knows.pass }
        ensures heard { main.new.knows.heard ≡ [] }
        ensures known { KnowsClock main.new.knows }
    {
        self.join(main, other);
        self.read(rt, main)
    }

    /// Ends a clock with its last pass.
    pub fn close(self, pass: ClockPass)
        requires pass { IsPassOfClock self pass }
        requires last { IsLast pass.knows.pass.id }

        // Where the pass has looked since it took in another, all writes are its own, each once, and
        // it has seen them all.
        ensures known { pass.knows.heard ≡ [] → KnowsClock pass.knows }
    {
        drop(pass.into_seat());
        drop(self);
    }
}
