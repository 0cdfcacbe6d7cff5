//! What one thread has of a POSIX timer, a descriptor, a sleeper and another descriptor on one base: its passes of them and of the clock.
ghost use Rattle.std.specs.Prelude.{◌≡◌};
ghost use Rattle.pass_names.specs.Names.{AnswersFor, after_retire, after_split, child_of};

use crate::{advance_and_expire, expire_objects, set_timer, wait_for_count};
use clock_cell::{ClockPass, SharedClock};
use counted_row::RowPass;
use hr_timers::{Log, Pass, Timers};
use ktime::Reading;
use std::alloc::Global;
use std::marker::Model;
use std::sync::Wait;
use std::sync::atomic::{AtomicU32, Ordering};
use timer_objects::{BlockingRead, Callback, Kind, Object, ObjectLog, Objects, Reader};

/// How often a thread goes on while others read.
const TURNS: u64 = 1_000_000;

/// How many functions a run runs at most.
const BUDGET: u32 = 4;

/// What is run of the timers that have no object: none has none.
const CALLBACKS: [Callback; 4] = [Callback::Once; 4];

/// What the thread that doesn't read does to the clock.
#[derive(Clone, Copy)]
pub enum Write {
    /// Lets so much time pass, and runs the functions that are due then.
    Advance(u64),
    /// The same, but nobody tells the readers that the clock was set.
    Untold(u64),
    /// Sets the time of day.
    Set(u64),
}

/// One thread's passes, all of one name.
pub struct Side<'a> {
    pub timers: &'a Timers,
    pub objects: &'a Objects,
    pub clock: &'a SharedClock,
    pub pass: Pass,
    pub objects_pass: RowPass<Object>,
    pub clock_pass: ClockPass,
    pub alloc: Global,
}

impl<'a> Model for Side<'a> {
    ghost use Rattle.object_uses.specs.Sides.{IsSide, SideOf};

    ghost Value = { SideOf };

    ghost view = { λ s. record { timers = s.timers.now; objects = s.objects.now; clock = s.clock.now; name = s.pass.known.id } };

    ghost invariant = { λ s. IsSide s.timers.now s.objects.now s.clock.now s.pass s.objects_pass s.clock_pass };
}

impl<'a> Side<'a> {
    /// A side for another thread.
    pub fn split(&mut self) -> Side<'a>
        ensures splitter { self.new ≡ record self.old { name = after_split self.old.name } }
        ensures new { result ≡ record self.old { name = child_of self.old.name } }
    {
        Side {
            timers: self.timers,
            objects: self.objects,
            clock: self.clock,
            pass: self.timers.split(&mut self.pass),
            objects_pass: self.objects.split(&mut self.objects_pass),
            clock_pass: self.clock.split(&mut self.clock_pass),
            alloc: self.alloc,
        }
    }

    /// Takes in another side, for which it answers.
    pub fn retire<R: Wait>(&mut self, rt: &R, other: Side<'a>)
        requires same { other ≡ record self.old { name = other.name } }
        requires answers { AnswersFor self.old.name other.name }
        ensures { self.new ≡ record self.old { name = after_retire self.old.name other.entry.name } }
    {
        let Side {
            timers: _,
            objects: _,
            clock: _,
            pass,
            objects_pass,
            clock_pass,
            alloc: _,
        } = other;
        self.timers.retire(&mut self.pass, pass);
        self.objects.join(&mut self.objects_pass, objects_pass);
        self.clock.take_in(rt, &mut self.clock_pass, clock_pass);
    }

    /// Sets an object that can be set with these flags to this time of its clock, and then to each tenth nanosecond.
    #[tactic(auto, using(crate::proofs::Rooms::room_on))]
    fn set<R: Wait>(&mut self, rt: &R, id: u32, flags: u64, ns: u64)
        ensures { self.new ≡ self.old }
    {
        if id as usize >= self.objects.len() {
            return;
        }
        let kind = self.objects.kind(id);
        if kind == Kind::Raw || kind == Kind::Sleeper {
            return;
        }
        let (mut log, mut calls) = (Log::make(self.alloc), ObjectLog::make(self.alloc));
        if log.reserve(4).is_err() || calls.reserve(1).is_err() {
            return;
        }
        set_timer(
            rt,
            self.timers,
            &mut self.pass,
            self.objects,
            &mut self.objects_pass,
            &mut log,
            &mut calls,
            id,
            flags,
            ns,
            10,
            Reading::at(0),
        );
    }

    /// Sets the POSIX timer so, and with these flags both descriptors.
    pub fn set_all<R: Wait>(&mut self, rt: &R, flags: u64, ns: u64)
        ensures { self.new ≡ self.old }
    {
        self.set(rt, 0, 1, ns);
        self.set(rt, 1, flags, ns);
        self.set(rt, 3, flags, ns);
    }

    /// Waits until there is something to read, and reads it. Where memory is wanting, or the reader isn't a descriptor's, it answers what no read does here.
    #[tactic(auto, using(crate::proofs::Rooms::room_on))]
    fn read<R: Wait>(&mut self, rt: &R, reader: &mut Reader) -> BlockingRead
        ensures same { (self.new ≡ self.old) × (reader.new ≡ reader.old) }
    {
        let id = reader.id();
        if id as usize >= self.objects.len() || self.objects.kind(id) != Kind::Fd {
            return BlockingRead::ShortBuffer;
        }
        let (mut log, mut calls) = (Log::make(self.alloc), ObjectLog::make(self.alloc));
        if log.reserve(4).is_err() || calls.reserve(1).is_err() {
            return BlockingRead::ShortBuffer;
        }
        wait_for_count(
            rt,
            self.timers,
            &mut self.pass,
            self.objects,
            &mut self.objects_pass,
            &mut log,
            &mut calls,
            reader,
            self.clock,
            &mut self.clock_pass,
        )
    }

    /// Reads until there were so many expiries, or a read answers something else: how many were read, and the last answer. Then one reader fewer is left.
    pub fn read_until<R: Wait>(
        &mut self,
        rt: &R,
        reader: &mut Reader,
        wanted: u64,
        left: &AtomicU32,
    ) -> (u64, BlockingRead)
        ensures same { (self.new ≡ self.old) × (reader.new ≡ reader.old) }
    {
        let (mut sum, mut last) = (0u64, BlockingRead::Zero);
        for _turn in 0..wanted {
            last = self.read(rt, reader);
            let BlockingRead::Count { total } = last else {
                break
            };
            sum = sum.saturating_add(total);
            if sum >= wanted {
                break;
            }
        }
        left.fetch_sub(1, Ordering::SeqCst);
        (sum, last)
    }

    /// Runs the functions that are due.
    fn expire<R: Wait>(&mut self, rt: &R)
        ensures { self.new ≡ self.old }
    {
        let mut log = Log::make(self.alloc);
        if log.reserve(2 * BUDGET as usize).is_err() {
            return;
        }
        let reading = self.clock.read(rt, &mut self.clock_pass);
        let _ = expire_objects(
            rt,
            self.alloc,
            self.timers,
            &mut self.pass,
            self.objects,
            &mut self.objects_pass,
            &CALLBACKS,
            0,
            reading,
            BUDGET,
            &mut log,
        );
    }

    /// Lets time pass, tells the readers, and runs the functions that are due then.
    fn advance<R: Wait>(&mut self, rt: &R, by: u64)
        ensures { self.new ≡ self.old }
    {
        let mut log = Log::make(self.alloc);
        if log.reserve(2 * BUDGET as usize).is_err() {
            return;
        }
        let _ = advance_and_expire(
            rt,
            self.alloc,
            self.timers,
            &mut self.pass,
            self.objects,
            &mut self.objects_pass,
            &CALLBACKS,
            0,
            self.clock,
            &mut self.clock_pass,
            by,
            BUDGET,
            &mut log,
        );
    }

    /// Writes the clock.
    fn write<R: Wait>(&mut self, rt: &R, write: Write)
        ensures { self.new ≡ self.old }
    {
        match write {
            Write::Advance(by) => self.advance(rt, by),
            Write::Untold(by) => {
                let _ = self.clock.advance(rt, &mut self.clock_pass, by);
            }
            Write::Set(to) => {
                let _ = self.clock.set_real(rt, &mut self.clock_pass, to);
                self.objects.clock_was_set(rt);
            }
        }
    }

    /// Writes the clock so many times, and runs the functions that are due until no reader is left.
    pub fn run_until<R: Wait>(&mut self, rt: &R, clock: (Write, u64), left: &AtomicU32)
        ensures { self.new ≡ self.old }
    {
        let (write, times) = clock;
        for turn in 0..TURNS {
            if left.load(Ordering::SeqCst) == 0 {
                break;
            }
            if turn < times {
                self.write(rt, write);
            }
            self.expire(rt);
        }
    }
}
