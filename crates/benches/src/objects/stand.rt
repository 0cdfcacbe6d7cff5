//! Timers with an object over each, and single calls. Each call answers whether it answered as it should.
ghost use Rattle.std.specs.Prelude.{◌≡◌, ◌*◌, ◌<◌, ◌≤◌, IfOk, OnOk};
ghost use Rattle.benches.specs.Stands.{IsBenchStand, KeepsStand};

use crate::objects::running::run_functions;
use counted_row::RowPass;
use hr_timers::{ExpireAnswer, Log, Pass, Timers};
use ktime::{ClockId, Reading, TimeSpec};
use posix_timer::AcceptAnswer;
use seq_timer::{Declared, Terms};
use std::alloc::{AllocError, Global};
use std::sync::Wait;
use timer_fd::{ReadAnswer, SettimeAnswer};
use timer_objects::{Callback, Decl, Kind, Object, ObjectLog, Objects};
use timer_setting::ABSTIME;

/// The time of all calls.
pub const NOW: u64 = 1 << 21;

/// At so many entries a timer or an object takes no call any more.
const LIMIT: u64 = 1 << 40;

/// So many objects of one kind on one base, with their timers, and a thread's passes and logs.
pub struct Stand {
    alloc: Global,
    pub count: u32,
    timers: Timers,
    pass: Pass,
    objects: Objects,
    objects_pass: RowPass<Object>,
    callbacks: Vec<Callback>,
    log: Log,
    object_log: ObjectLog,
}

impl Stand {
    pub fn open(alloc: Global, kind: Kind, count: u32) -> Result<Stand, AllocError>
        requires few { count ≤ 256 }
        ensures { IfOk result (λ s. IsBenchStand s × (s.count ≡ count)) }
    {
        let clock = ClockId::Monotonic;
        let callbacks = vec![in alloc; Callback::Once; count as usize]?;
        let declared = vec![in alloc; Declared::hard(clock); count as usize]?;
        let decl = Decl {
            kind,
            clock,
            base: 0,
        };
        let decls = vec![in alloc; decl; count as usize]?;
        let (timers, pass) = Timers::make_counting(
            alloc,
            1,
            &declared,
            Terms::limited(LIMIT),
            count + 1,
        )?;
        let Ok((objects, objects_pass)) = Objects::make(alloc, &decls, LIMIT) else {
            timers.close(pass);
            return Err(AllocError);
        };
        Ok(Stand {
            alloc,
            count,
            timers,
            pass,
            objects,
            objects_pass,
            callbacks,
            log: Log::make(alloc),
            object_log: ObjectLog::make(alloc),
        })
    }

    /// Begins new logs where there isn't room for so many receipts in each.
    fn make_room(&mut self, receipts: usize) -> Result<(), AllocError>
        requires stand { IsBenchStand self.old }
        requires few { receipts ≤ 1024 }
        ensures keeps { KeepsStand self.old self.new }
        ensures room { OnOk result ((receipts ≤ self.new.log.spare) × (receipts ≤ self.new.object_log.spare)) }
    {
        if self.log.spare() < receipts || self.object_log.spare() < receipts {
            self.log = Log::make(self.alloc);
            self.object_log = ObjectLog::make(self.alloc);
            self.log.reserve(1024)?;
            self.object_log.reserve(1024)?;
        }
        Ok(())
    }

    /// Arms an object's timer for this time, or disarms it by the value 0.
    pub fn set<R: Wait>(&mut self, rt: &R, id: u32, ns: u64) -> Result<bool, AllocError>
        requires stand { IsBenchStand self.old }
        requires within { id < self.old.count }
        ensures keeps { KeepsStand self.old self.new }
    {
        self.make_room(4)?;
        if matches!(
            self.objects.kind(id),
            Kind::Raw | Kind::Sleeper | Kind::Queued
        ) {
            return Ok(false);
        }
        let (timers, objects) = (&self.timers, &self.objects);
        let answer = objects.settime(
            rt,
            timers,
            &mut self.pass,
            &mut self.objects_pass,
            &mut self.log,
            &mut self.object_log,
            id,
            ABSTIME,
            TimeSpec { sec: 0, nsec: ns },
            TimeSpec { sec: 0, nsec: 0 },
            Reading::at(NOW),
        );
        Ok(matches!(answer, SettimeAnswer::Old { .. }))
    }

    /// Runs the functions of as many timers as there are.
    pub fn expire<R: Wait>(&mut self, rt: &R) -> Result<bool, AllocError>
        requires stand { IsBenchStand self.old }
        ensures keeps { KeepsStand self.old self.new }
    {
        self.make_room(2 * self.count as usize)?;
        let (timers, objects) = (&self.timers, &self.objects);
        let answer = run_functions(
            rt,
            self.alloc,
            timers,
            &mut self.pass,
            objects,
            &mut self.objects_pass,
            &self.callbacks,
            Reading::at(NOW),
            self.count,
            &mut self.log,
        )?;
        Ok(matches!(answer, ExpireAnswer::More { .. }))
    }

    /// Accepts a POSIX timer's signal, or reads a descriptor.
    pub fn take<R: Wait>(&mut self, rt: &R, id: u32) -> Result<bool, AllocError>
        requires stand { IsBenchStand self.old }
        requires within { id < self.old.count }
        ensures keeps { KeepsStand self.old self.new }
    {
        self.make_room(4)?;
        let (timers, objects) = (&self.timers, &self.objects);
        match objects.kind(id) {
            Kind::Posix => {
                let answer = objects.accept(
                    rt,
                    timers,
                    &mut self.pass,
                    &mut self.objects_pass,
                    &mut self.log,
                    &mut self.object_log,
                    id,
                    Reading::at(NOW),
                );
                Ok(answer == AcceptAnswer::Accepted { overrun: 0 })
            }
            Kind::Fd => {
                let answer = objects.read(
                    rt,
                    timers,
                    &mut self.pass,
                    &mut self.objects_pass,
                    &mut self.log,
                    &mut self.object_log,
                    id,
                    8,
                    Reading::at(NOW),
                );
                Ok(answer == ReadAnswer::Count { total: 1 })
            }
            Kind::Raw | Kind::Sleeper | Kind::Queued => Ok(false),
        }
    }

    /// Looks at an object: how often a POSIX timer has overrun, or whether a descriptor is ready to be read.
    pub fn look<R: Wait>(&mut self, rt: &R, id: u32) -> bool
        requires stand { IsBenchStand self.old }
        requires within { id < self.old.count }
        ensures keeps { KeepsStand self.old self.new }
    {
        let (timers, objects) = (&self.timers, &self.objects);
        match objects.kind(id) {
            Kind::Posix => {
                let answer = objects.getoverrun(
                    rt,
                    timers,
                    &mut self.pass,
                    &mut self.objects_pass,
                    &mut self.log,
                    &mut self.object_log,
                    id,
                );
                answer.overrun == 0
            }
            Kind::Fd => {
                let answer = objects.readable(
                    rt,
                    timers,
                    &mut self.pass,
                    &mut self.objects_pass,
                    &mut self.log,
                    &mut self.object_log,
                    id,
                    Reading::at(NOW),
                );
                !answer.ready
            }
            Kind::Raw | Kind::Sleeper | Kind::Queued => false,
        }
    }

    /// Ends the timers and the objects.
    pub fn close(self)
        requires stand { IsBenchStand self }
    {
        let Stand {
            alloc: _,
            count: _,
            timers,
            pass,
            objects,
            objects_pass,
            callbacks: _,
            log: _,
            object_log: _,
        } = self;
        timers.close(pass);
        objects.close(objects_pass);
    }
}
