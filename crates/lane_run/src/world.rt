//! What a script's calls are made on: its timers, its objects and the clock, with the first passes.
ghost use Rattle.std.specs.Prelude.{◌≡◌, ◌≤◌, ◌<◌, ◌+◌, [], ◌∷◌, IfOk, OnOk, length, map};
ghost use Rattle.run_history.specs.Signals.{most_signals};
ghost use Rattle.pass_names.specs.Passes.{HasEach};
ghost use Rattle.pass_names.specs.SharedHistory.{first_known};
ghost use Rattle.base_row.specs.Calls.{opening_ringed};
ghost use Rattle.hr_timers.specs.Known.{HasEachPlace, HasEachShift, IsPassOf};
ghost use Rattle.clock_cell.specs.Views.{KnowsClock};
ghost use Rattle.script_text.specs.Scripts.{IsInRange};
ghost use Rattle.script_text.specs.Declarations.{declared_as, terms_of};
ghost use Rattle.lane_notes.specs.Rounds.{TakesInPass};
ghost use Rattle.lane_notes.specs.Worlds.{AnswerFor, AreFirst, AreLast, ArePassesOf, IsWorldOf, SplitsPass, callback_of, decl_of};

use clock_cell::SharedClock;
use hr_timers::{Pass, Timers};
use lane_notes::WorldPass;
use record_text::Version;
use script_text::{Callback, Declaration, Kind, Script};
use seq_timer::{Context, Declared, Terms};
use std::alloc::{AllocError, Global};
use std::marker::Model;
use std::sync::Wait;
use timer_objects::{Decl, Objects};

/// The timers, objects and clock of a script, with the callbacks of its timers. Lanes share it.
#[derive(Drop)]
pub struct World {
    pub(crate) timers: Timers,
    pub(crate) objects: Objects,
    pub(crate) clock: SharedClock,
    pub(crate) callbacks: Vec<timer_objects::Callback>,
}

impl Model for World {
    ghost use Rattle.lane_notes.specs.Worlds.{IsWhole, WorldOf};

    ghost Value = { WorldOf };

    ghost view = { λ w. record { timers = w.timers; objects = w.objects; clock = w.clock; callbacks = w.callbacks.items } };

    ghost invariant = { λ w. IsWhole (record { timers = w.timers; objects = w.objects; clock = w.clock; callbacks = w.callbacks.items }) };
}

impl World {
    /// The world of a script before its first call, and its first passes.
    pub fn make(alloc: Global, script: &Script) -> Result<(World, WorldPass), AllocError>
        requires range { IsInRange script.now }
        ensures world { IfOk result (λ r. IsWorldOf script.now r.0) }
        ensures pass { IfOk result (λ r. ArePassesOf r.0 r.1) }
        ensures first { IfOk result (λ r. AreFirst r.0 r.1) }
        ensures last { IfOk result (λ r. AreLast r.1) }
    {
        let declared = script.timers.as_slice();
        let timers = timers_of(alloc, declared)?;
        let decls = decls_of(alloc, declared)?;
        let callbacks = callbacks_of(alloc, declared)?;
        let (clock, clock_pass) = SharedClock::make(alloc)?;
        let made = Objects::make_queued(alloc, &decls, script.limit, SIGNALS);
        let (objects, objects_pass, signal_pass) = match made {
            Ok(made) => made,
            Err(fault) => {
                clock.close(clock_pass);
                return Err(fault);
            }
        };
        match make_timers(alloc, script, &timers) {
            Ok((timers, pass)) => {
                let world = World {
                    timers,
                    objects,
                    clock,
                    callbacks,
                };
                let passes = WorldPass {
                    timers: pass,
                    objects: objects_pass,
                    clock: clock_pass,
                    signals: signal_pass,
                };
                Ok((world, passes))
            }
            Err(fault) => {
                clock.close(clock_pass);
                objects.close_queued(objects_pass, signal_pass);
                Err(fault)
            }
        }
    }

    /// Ends a world with its last passes.
    pub fn close(self, pass: WorldPass)
        requires pass { ArePassesOf self pass }
        requires last { AreLast pass }
        // The passes have each entry of each timer, base and object and each push and pop once, and the last one's writes are all that the clock took.
        ensures timers { HasEachPlace self.timers.about pass.timers.known }
        ensures bases { HasEachShift self.timers.about pass.timers.known }
        ensures objects { HasEach pass.objects.knows.pass.seen pass.objects.knows.pass.mine }
        ensures clock { pass.clock.knows.heard ≡ [] → KnowsClock pass.clock.knows }
        ensures signals { HasEach pass.signals.knows.pass.seen pass.signals.knows.pass.mine }
    {
        let World {
            timers,
            objects,
            clock,
            callbacks: _,
        } = self;
        let WorldPass {
            timers: timers_pass,
            objects: objects_pass,
            clock: clock_pass,
            signals: signal_pass,
        } = pass;
        timers.close(timers_pass);
        objects.close_queued(objects_pass, signal_pass);
        clock.close(clock_pass);
    }

    /// One more pass of each kind, which has seen as much.
    pub(crate) fn split(&self, main: &mut WorldPass) -> WorldPass
        requires pass { ArePassesOf self.now main.old }
        ensures pass { ArePassesOf self.now main.new × ArePassesOf self.now result }
        ensures splits { SplitsPass main.old main.new result }
    {
        WorldPass {
            timers: self.timers.split(&mut main.timers),
            objects: self.objects.split(&mut main.objects),
            clock: self.clock.split(&mut main.clock),
            signals: self.objects.signals().split(&mut main.signals),
        }
    }

    /// The first passes take in those that were split off them, and have then seen all that either had seen.
    pub(crate) fn take_in<R: Wait>(&self, rt: &R, main: &mut WorldPass, other: WorldPass)
        requires pass { ArePassesOf self.now main.old × ArePassesOf self.now other }
        requires answers { AnswerFor main.old other }
        ensures pass { ArePassesOf self.now main.new }
        ensures takes { TakesInPass main.old other main.new }
    {
        let WorldPass {
            timers,
            objects,
            clock,
            signals,
        } = other;
        self.timers.retire(&mut main.timers, timers);
        self.objects.join(&mut main.objects, objects);
        self.clock.take_in(rt, &mut main.clock, clock);
        self.objects.signals().join(&mut main.signals, signals);
    }
}

/// How many signals may wait.
const SIGNALS: usize = 64;

/// How many entries past its limit may move a timer off a base that goes off line, in version 2 of the script.
const REACH: u64 = 1024;

/// The timers of a script, declared so, with a counter for the clock's writes, one for each object's turns, and a ring for the signals. In version 2 their
/// bases may go off line.
fn make_timers(
    alloc: Global,
    script: &Script,
    timers: &[Declared],
) -> Result<(Timers, Pass), AllocError>
    requires range { IsInRange script.now }
    requires few { length timers.now ≡ length script.now.timers }
    ensures pass { IfOk result (λ r. IsPassOf r.0 r.1) }
    ensures about { IfOk result (λ r. r.0.about ≡ opening_ringed script.now.bases timers.now (terms_of script.now) (length script.now.timers + 1) (most_signals ∷ [])) }
    ensures first { IfOk result (λ r. r.1.known ≡ first_known) }
{
    let terms = match script.version {
        Version::One => Terms::limited(script.limit),
        Version::Two => Terms {
            limit: script.limit,
            reach: REACH,
        },
    };
    let counters = timers.len() as u32 + 1;
    let rings = vec![in alloc; SIGNALS as u64; 1]?;
    Timers::make_ringed(alloc, script.bases, timers, terms, counters, &rings)
}

/// As what timers are declared.
fn timers_of(alloc: Global, timers: &[Declaration]) -> Result<Vec<Declared>, AllocError>
    ensures { IfOk result (λ v. v.items ≡ map declared_as timers.now) }
{
    timers
        .iter()
        .map(|timer| declared_as(*timer))
        .collect(alloc)
}

/// As what a timer is declared. An object's is of the hard context.
fn declared_as(timer: Declaration) -> Declared
    ensures { result ≡ declared_as timer }
{
    let context = match timer.kind {
        Kind::Raw { context, .. } => context,
        Kind::Posix { .. } | Kind::Fd { .. } | Kind::Queued { .. } | Kind::Sleeper { .. } => {
            Context::Hard
        }
    };
    Declared {
        clock: timer.clock,
        context,
    }
}

/// What stands over each timer.
fn decls_of(alloc: Global, timers: &[Declaration]) -> Result<Vec<Decl>, AllocError>
    ensures { IfOk result (λ v. v.items ≡ map decl_of timers.now) }
{
    timers.iter().map(|timer| decl_of(*timer)).collect(alloc)
}

/// What stands over a declared timer. One by itself has base 0 here, which is not used.
fn decl_of(timer: Declaration) -> Decl
    ensures { result ≡ decl_of timer }
{
    let (kind, base) = match timer.kind {
        Kind::Raw { .. } => (timer_objects::Kind::Raw, 0),
        Kind::Posix { base } => (timer_objects::Kind::Posix, base),
        Kind::Fd { base } => (timer_objects::Kind::Fd, base),
        Kind::Queued { base } => (timer_objects::Kind::Queued, base),
        Kind::Sleeper { base } => (timer_objects::Kind::Sleeper, base),
    };
    Decl {
        kind,
        clock: timer.clock,
        base,
    }
}

/// The callback of each timer. That of an object's timer is not run.
fn callbacks_of(
    alloc: Global,
    timers: &[Declaration],
) -> Result<Vec<timer_objects::Callback>, AllocError>
    ensures { IfOk result (λ v. v.items ≡ map (λ d. callback_of d.kind) timers.now) }
{
    timers
        .iter()
        .map(|timer| callback_of(timer.kind))
        .collect(alloc)
}

/// The callback that a timer is declared with.
fn callback_of(kind: Kind) -> timer_objects::Callback
    ensures { result ≡ callback_of kind }
{
    match kind {
        Kind::Raw { callback, .. } => match callback {
            Callback::Once => timer_objects::Callback::Once,
            Callback::Every { interval } => timer_objects::Callback::Every(interval),
            Callback::Cancels => timer_objects::Callback::Cancels,
            Callback::Starts { ns, base } => timer_objects::Callback::Starts(ns, base),
        },
        Kind::Posix { .. } | Kind::Fd { .. } | Kind::Queued { .. } | Kind::Sleeper { .. } => {
            timer_objects::Callback::Once
        }
    }
}
