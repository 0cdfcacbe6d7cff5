//! A queued timer, a descriptor and a sleeper on one base, with the passes and the logs of one thread.
ghost use Rattle.std.specs.Prelude.{◌≡◌, ◌≤◌, ◌<◌, OnOk};

use crate::{accept_signal, await_frame, expire_queued, leave_frame, read_count, set_timer};
use counted_row::RowPass;
use hr_timers::{ExpireAnswer, Log, Pass, Timers};
use ktime::{ClockId, Reading, TimeSpec};
use posix_timer::AcceptAnswer;
use seq_timer::{Declared, Terms};
use signal_queue::SignalPass;
use std::alloc::{AllocError, Global};
use std::marker::Model;
use std::sync::Wait;
use timer_fd::{ReadAnswer, SettimeAnswer};
use timer_objects::{
    Callback, Decl, Gettime, Kind, Object, ObjectLog, ObjectReceipt, Objects, Overrun, Readable,
    Slept,
};
use timer_setting::{InterruptAnswer, SleepAnswer};

/// The number of the queued timer.
pub const QUEUED: u32 = 0;

/// The number of the descriptor.
pub const FD: u32 = 1;

/// The number of the sleeper.
const SLEEPER: u32 = 2;

/// What a caller does.
#[derive(Clone, Copy, Debug, PartialEq, Eq)]
pub enum Step {
    /// A settime of this object, with these flags, value and interval in nanoseconds.
    Settime(u32, u64, u64, u64),
    /// A run of at most four functions.
    Expire,
    Accept,
    /// A read into a buffer of so many bytes.
    Read(u64),
    Gettime(u32),
    Readable,
    Overrun,
    /// A sleep up to this time.
    Sleep(u64),
    Interrupt,
    Slept,
}

/// What it is told.
#[derive(Clone, Copy, Debug, PartialEq, Eq)]
pub enum Told {
    Settime(SettimeAnswer),
    Expire(ExpireAnswer),
    Accept(AcceptAnswer),
    Read(ReadAnswer),
    Gettime(Gettime),
    Readable(Readable),
    Overrun(Overrun),
    Sleep(SleepAnswer),
    Interrupt(InterruptAnswer),
    Slept(Slept),
    NoMemory,
}

/// What a settime tells that replaces no setting.
pub const NONE: SettimeAnswer = SettimeAnswer::Old {
    left: 0,
    interval: 0,
};

/// The number of a receipt of the descriptor.
pub fn number_at(receipts: &[ObjectReceipt], i: usize) -> Option<u64> {
    let receipt = receipts.get(i)?;
    (receipt.object == FD).then_some(receipt.number)
}

/// A queued timer, which is object 0, a descriptor, which is object 1, and a sleeper, which is object 2, on base 0, and a pass of each kind.
pub struct Stand {
    pub timers: Timers,
    pub pass: Pass,
    pub objects: Objects,
    pub objects_pass: RowPass<Object>,
    pub signal_pass: SignalPass,
    /// The receipts of timers' entries.
    pub log: Log,
    /// The receipts of calls on objects.
    pub calls: ObjectLog,
    alloc: Global,
}

impl Model for Stand {
    ghost use Rattle.std.specs.Prelude.{ℕ};
    ghost use Rattle.object_uses.specs.Stands.{IsStand};

    /// For how many receipts of timers' entries there is room, and for how many of calls.
    ghost Value = { ℕ × ℕ };

    ghost view = { λ s. (s.log.spare, s.calls.spare) };

    ghost invariant = { λ s. IsStand s.timers s.pass s.objects s.objects_pass s.signal_pass };
}

/// An object of this kind over a timer on this clock.
fn decl_of(kind: Kind, clock: ClockId) -> Decl
    ensures { result ≡ record { kind = kind; clock = clock; base = 0 } }
{
    Decl {
        kind,
        clock,
        base: 0,
    }
}

impl Stand {
    /// All three objects over timers on this clock, with a limit on the entries of each. 64 signals may wait, whose pushes and pops have places.
    pub fn make(alloc: Global, clock: ClockId, limit: u64) -> Result<Stand, AllocError>
        requires limit { (0 < limit) × (limit ≤ 1000) }
    {
        let decls = [
            decl_of(Kind::Queued, clock),
            decl_of(Kind::Fd, clock),
            decl_of(Kind::Sleeper, clock),
        ];
        let declared = [
            Declared::hard(clock),
            Declared::hard(clock),
            Declared::hard(clock),
        ];
        let rings = vec![in alloc; 64; 1]?;
        let (timers, pass) = Timers::make_ringed(
            alloc,
            1,
            &declared,
            Terms::limited(limit),
            4,
            &rings,
        )?;
        let Ok((objects, objects_pass, signal_pass)) = Objects::make_queued(
            alloc, &decls, limit, 64,
        ) else {
            timers.close(pass);
            return Err(AllocError);
        };
        Ok(Stand {
            timers,
            pass,
            objects,
            objects_pass,
            signal_pass,
            log: Log::make(alloc),
            calls: ObjectLog::make(alloc),
            alloc,
        })
    }

    /// Makes room for so many receipts of either kind.
    pub fn reserve(&mut self, receipts: usize, calls: usize) -> Result<(), AllocError>
        ensures { OnOk result ((receipts ≤ self.new.0) × (calls ≤ self.new.1)) }
    {
        self.log.reserve(receipts)?;
        self.calls.reserve(calls)?;
        Ok(())
    }

    /// Makes a call at a reading, and answers what the caller is told.
    pub fn take<R: Wait>(&mut self, rt: &R, step: Step, reading: Reading) -> Told {
        if self.reserve(8, 1).is_err() {
            return Told::NoMemory;
        }
        match step {
            Step::Settime(id, flags, value, interval) => {
                Told::Settime(self.settime(rt, id.min(FD), flags, value, interval, reading))
            }
            Step::Expire => self.expire(rt, reading),
            Step::Accept => Told::Accept(self.accept(rt, reading)),
            Step::Read(len) => Told::Read(self.read(rt, len, reading)),
            Step::Gettime(id) => Told::Gettime(self.gettime(rt, id.min(FD), reading)),
            Step::Readable => Told::Readable(self.readable(rt, reading)),
            Step::Overrun => Told::Overrun(self.overrun(rt)),
            Step::Sleep(ns) => Told::Sleep(self.sleep(rt, ns, reading)),
            Step::Interrupt => Told::Interrupt(self.interrupt(rt, reading)),
            Step::Slept => Told::Slept(self.slept(rt)),
        }
    }

    #[tactic(auto, using(crate::proofs::Rooms::room_on))]
    fn settime<R: Wait>(
        &mut self,
        rt: &R,
        id: u32,
        flags: u64,
        value: u64,
        interval: u64,
        reading: Reading,
    ) -> SettimeAnswer
        requires room { (4 ≤ self.old.0) × (0 < self.old.1) }
        requires within { id < 2 }
    {
        set_timer(
            rt,
            &self.timers,
            &mut self.pass,
            &self.objects,
            &mut self.objects_pass,
            &mut self.log,
            &mut self.calls,
            id,
            flags,
            value,
            interval,
            reading,
        )
    }

    fn expire<R: Wait>(&mut self, rt: &R, reading: Reading) -> Told
        requires room { 8 ≤ self.old.0 }
    {
        let ran = expire_queued(
            rt,
            self.alloc,
            &self.timers,
            &mut self.pass,
            &self.objects,
            &mut self.objects_pass,
            &mut self.signal_pass,
            &[Callback::Once, Callback::Once, Callback::Once],
            0,
            reading,
            4,
            &mut self.log,
        );
        match ran {
            Ok(expired) => Told::Expire(expired.answer),
            Err(_) => Told::NoMemory,
        }
    }

    #[tactic(auto, using(crate::proofs::Rooms::room_on))]
    fn accept<R: Wait>(&mut self, rt: &R, reading: Reading) -> AcceptAnswer
        requires room { (4 ≤ self.old.0) × (0 < self.old.1) }
    {
        accept_signal(
            rt,
            &self.timers,
            &mut self.pass,
            &self.objects,
            &mut self.objects_pass,
            &mut self.log,
            &mut self.calls,
            QUEUED,
            reading,
        )
    }

    #[tactic(auto, using(crate::proofs::Rooms::room_on))]
    fn read<R: Wait>(&mut self, rt: &R, len: u64, reading: Reading) -> ReadAnswer
        requires room { (4 ≤ self.old.0) × (0 < self.old.1) }
    {
        read_count(
            rt,
            &self.timers,
            &mut self.pass,
            &self.objects,
            &mut self.objects_pass,
            &mut self.log,
            &mut self.calls,
            FD,
            len,
            reading,
        )
    }

    #[tactic(auto, using(crate::proofs::Rooms::room_on))]
    fn gettime<R: Wait>(&mut self, rt: &R, id: u32, reading: Reading) -> Gettime
        requires room { (4 ≤ self.old.0) × (0 < self.old.1) }
        requires within { id < 2 }
    {
        self.objects.gettime(
            rt,
            &self.timers,
            &mut self.pass,
            &mut self.objects_pass,
            &mut self.log,
            &mut self.calls,
            id,
            reading,
        )
    }

    fn readable<R: Wait>(&mut self, rt: &R, reading: Reading) -> Readable {
        self.objects.readable(
            rt,
            &self.timers,
            &mut self.pass,
            &mut self.objects_pass,
            &mut self.log,
            &mut self.calls,
            FD,
            reading,
        )
    }

    fn overrun<R: Wait>(&mut self, rt: &R) -> Overrun {
        self.objects.getoverrun(
            rt,
            &self.timers,
            &mut self.pass,
            &mut self.objects_pass,
            &mut self.log,
            &mut self.calls,
            QUEUED,
        )
    }

    #[tactic(auto, using(crate::proofs::Rooms::room_on))]
    fn sleep<R: Wait>(&mut self, rt: &R, ns: u64, reading: Reading) -> SleepAnswer
        requires room { (4 ≤ self.old.0) × (0 < self.old.1) }
    {
        let time = TimeSpec { sec: 0, nsec: ns };
        await_frame(
            rt,
            &self.timers,
            &mut self.pass,
            &self.objects,
            &mut self.objects_pass,
            &mut self.log,
            &mut self.calls,
            SLEEPER,
            time,
            reading,
        )
    }

    #[tactic(auto, using(crate::proofs::Rooms::room_on))]
    fn interrupt<R: Wait>(&mut self, rt: &R, reading: Reading) -> InterruptAnswer
        requires room { (4 ≤ self.old.0) × (0 < self.old.1) }
    {
        leave_frame(
            rt,
            &self.timers,
            &mut self.pass,
            &self.objects,
            &mut self.objects_pass,
            &mut self.log,
            &mut self.calls,
            SLEEPER,
            reading,
        )
    }

    fn slept<R: Wait>(&mut self, rt: &R) -> Slept {
        self.objects.slept(
            rt,
            &self.timers,
            &mut self.pass,
            &mut self.objects_pass,
            &mut self.log,
            &mut self.calls,
            SLEEPER,
        )
    }

    /// Ends the timers and the objects.
    pub fn close(self) {
        let Stand {
            timers,
            pass,
            objects,
            objects_pass,
            signal_pass,
            log: _,
            calls: _,
            alloc: _,
        } = self;
        timers.close(pass);
        objects.close_queued(objects_pass, signal_pass);
    }
}
