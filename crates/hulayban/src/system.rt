//! Making and ending a system, and its handles.
ghost use Rattle.std.specs.Prelude.{◌≡◌, map, IfOk};
ghost use Rattle.pass_names.specs.Names.{AnswersFor};
ghost use Rattle.pass_names.specs.Passes.{HasEach};
ghost use Rattle.clock_cell.specs.Views.{KnowsClock};
ghost use Rattle.hr_timers.specs.Known.{HasEachPlace, HasEachShift};
ghost use Rattle.hulayban.specs.Systems.{CanMake, IsFirstHandle, IsHandleOf, IsOnly, IsSystemOf, RetiresHandle, SplitsHandle, callback_unused, handle_name, declared_as_object, declared_as_timer};

use crate::declaration::Declaration;
use crate::handle::{Handle, Logs};
use clock_cell::SharedClock;
use hr_timers::{Log, Timers};
use seq_timer::{Declared, Terms};
use std::alloc::{AllocError, Global};
use std::marker::Model;
use std::sync::Wait;
use timer_objects::{Callback, Decl, ObjectLog, Objects};

/// How many signals of queued timers may wait.
const SIGNALS: usize = 64;

/// Timers, objects, signals and a clock that threads share, each by a handle of its own.
#[derive(Drop)]
pub struct System {
    pub(crate) timers: Timers,
    pub(crate) objects: Objects,
    pub(crate) clock: SharedClock,
    /// Callbacks of which none is run.
    pub(crate) unused: Vec<Callback>,
    pub(crate) alloc: Global,
}

impl Model for System {
    ghost use Rattle.std.specs.Prelude.{◌≡◌, length};
    ghost use Rattle.timer_objects.specs.Callbacks.{bases_of};
    ghost use Rattle.hulayban.specs.Systems.{IsSystemWhole, SystemOf};

    ghost Value = { SystemOf };

    ghost view = { λ s. record { timers = s.timers; objects = s.objects; clock = s.clock } };

    ghost invariant = { λ s. IsSystemWhole (record { timers = s.timers; objects = s.objects; clock = s.clock })
        × (length s.unused.items ≡ length s.objects.decls) × (bases_of s.unused.items ≡ 0) };
}

impl System {
    /// So many bases and these timers, which take entries on these terms, with a queue of 64 signals and a clock at its start; and the first handle.
    pub fn make(
        alloc: Global,
        bases: u32,
        declared: &[Declaration],
        terms: Terms,
    ) -> Result<(System, Handle), AllocError>
        requires range { CanMake bases declared.now terms }
        ensures made { IfOk result (λ r. IsSystemOf bases declared.now terms r.0) }
        ensures only { IfOk result (λ r. IsOnly r.0 r.1) }
        ensures first { IfOk result (λ r. IsFirstHandle declared.now terms r.1) }
    {
        let timers = timers_of(alloc, declared)?;
        let decls = objects_of(alloc, declared)?;
        let unused = callbacks_of(alloc, declared)?;
        let counters = declared.len() as u32 + 1;
        let rings = vec![in alloc; SIGNALS as u64; 1]?;
        let (clock, clock_pass) = SharedClock::make(alloc)?;
        let made = Objects::make_queued(alloc, &decls, terms.limit, SIGNALS);
        let Ok((objects, objects_pass, signals)) = made else {
            clock.close(clock_pass);
            return Err(AllocError);
        };
        let made = Timers::make_ringed(alloc, bases, &timers, terms, counters, &rings);
        let Ok((timers, pass)) = made else {
            clock.close(clock_pass);
            objects.close_queued(objects_pass, signals);
            return Err(AllocError);
        };
        let handle = Handle {
            timers: pass,
            objects: objects_pass,
            clock: clock_pass,
            signals,
            logs: no_logs(alloc),
        };
        let system = System {
            timers,
            objects,
            clock,
            unused,
            alloc,
        };
        Ok((system, handle))
    }

    /// One more handle, for another thread. It has seen as much.
    pub fn split(&self, me: &mut Handle) -> Handle
        requires me { IsHandleOf self.now me.old }
        ensures splits { SplitsHandle self.now me.old me.new result }
        ensures answers { AnswersFor (handle_name me.new) (handle_name result) }
    {
        Handle {
            timers: self.timers.split(&mut me.timers),
            objects: self.objects.split(&mut me.objects),
            clock: self.clock.split(&mut me.clock),
            signals: self.objects.signals().split(&mut me.signals),
            logs: no_logs(self.alloc),
        }
    }

    /// A handle takes in another, which was split off it, or off one that it took in.
    pub fn retire<R: Wait>(&self, rt: &R, me: &mut Handle, other: Handle)
        requires me { IsHandleOf self.now me.old × IsHandleOf self.now other }
        requires answers { AnswersFor (handle_name me.old) (handle_name other) }
        ensures retires { RetiresHandle self.now me.old other me.new }
    {
        let Handle {
            timers,
            objects,
            clock,
            signals,
            logs: _,
        } = other;
        self.timers.retire(&mut me.timers, timers);
        self.objects.join(&mut me.objects, objects);
        self.clock.take_in(rt, &mut me.clock, clock);
        self.objects.signals().join(&mut me.signals, signals);
    }

    /// Ends the system with its only handle, which has seen all that was done, and has each entry among its own.
    pub fn close(self, me: Handle)
        requires only { IsOnly self me }
        ensures timers { HasEachPlace self.timers.about me.timers.known }
        ensures bases { HasEachShift self.timers.about me.timers.known }
        ensures objects { HasEach me.objects.knows.pass.seen me.objects.knows.pass.mine }
        ensures clock { KnowsClock me.clock.knows }
        ensures signals { HasEach me.signals.knows.pass.seen me.signals.knows.pass.mine }
    {
        let System {
            timers,
            objects,
            clock,
            unused: _,
            alloc: _,
        } = self;
        let Handle {
            timers: timers_pass,
            objects: objects_pass,
            clock: clock_pass,
            signals,
            logs: _,
        } = me;
        timers.close(timers_pass);
        objects.close_queued(objects_pass, signals);
        clock.close(clock_pass);
    }
}

/// Logs without receipts. They take no memory.
fn no_logs(alloc: Global) -> Logs {
    Logs {
        timers: Log::make(alloc),
        objects: ObjectLog::make(alloc),
    }
}

/// What the timers are told.
fn timers_of(alloc: Global, all: &[Declaration]) -> Result<Vec<Declared>, AllocError>
    ensures { IfOk result (λ v. v.items ≡ map declared_as_timer all.now) }
{
    all.iter().map(|one| one.timer()).collect(alloc)
}

/// What the objects are told.
fn objects_of(alloc: Global, all: &[Declaration]) -> Result<Vec<Decl>, AllocError>
    ensures { IfOk result (λ v. v.items ≡ map declared_as_object all.now) }
{
    all.iter().map(|one| one.object()).collect(alloc)
}

/// For each timer a callback that isn't run.
fn callbacks_of(alloc: Global, all: &[Declaration]) -> Result<Vec<Callback>, AllocError>
    ensures { IfOk result (λ v. v.items ≡ map callback_unused all.now) }
{
    all.iter().map(|_| Callback::Once).collect(alloc)
}
