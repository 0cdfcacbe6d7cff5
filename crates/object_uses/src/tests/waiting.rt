//! A settime that meets the running function of its timer, by two threads: it waits, and its entry stands behind the trigger that the function
//! makes.
ghost use Rattle.std.specs.Prelude.{◌≡◌, ◌+◌, ◌≤◌, ◌<◌, length};
ghost use Rattle.hr_timers.specs.Known.{IsPassOf};
ghost use Rattle.hr_timers.specs.Handlers.{KeepsPass};
ghost use Rattle.timer_objects.specs.declared.object.Kind.TheVariants as kinds;
ghost use Rattle.timer_objects.specs.Known.{IsObjectsPass, decl_at, most_noted};
ghost use Rattle.timer_objects.specs.Calls.{HasSetting};
ghost use Rattle.object_uses.specs.Callers.{HasPasses, KeepsPasses, MayCall};

use super::assert_equal;
use super::stand::{FD, NONE, QUEUED, Stand, Step, Told, number_at};
use crate::set_timer;
use counted_row::RowPass;
use hr_timers::{Claim, ExpireAnswer, Handler, Log, Pass, Restart, Timers, expire};
use ktime::{ClockId, Reading};
use std::alloc::{AllocError, Global};
use std::sync::Wait;
use std::test::Fail;
use std::thread::{Threads, join_mut};
use timer_fd::SettimeAnswer;
use timer_objects::{Callback, Firing, Object, ObjectLog, Objects};

/// How often a thread looks for what the other one does.
const TURNS: u32 = 50_000_000;

/// How often a function looks on once the other thread is about to set its timer.
const WAITS: u32 = 100_000;

/// A function that waits until the queued timer is armed, or gives up, and then triggers the object over its own timer.
struct Gated<'a, 'b> {
    firing: &'a mut Firing<'b>,
    met: bool,
}

impl Handler for Gated<'_, '_> {
    ghost use Rattle.std.specs.Prelude.{◌≡◌, ◌+◌, length};
    ghost use Rattle.timer_objects.specs.Callbacks.{bases_of};
    ghost use Rattle.timer_objects.specs.Firings.{ready_of};
    ghost use Rattle.object_uses.specs.Waiting.{FiresLater};

    ghost meaning = { record {
      did = λ o h h' v w c reading restart. (h'.firing.ghost_name ≡ h.firing.ghost_name) × FiresLater o h.firing.now h'.firing.now v w c reading restart;
      ready = λ h. ready_of h.firing.now;
      timers = λ h. length h.firing.now.objects.now.decls;
      bases = λ h. bases_of h.firing.now.callbacks.now;
      counters = λ h. length h.firing.now.objects.now.decls + 1;
    } };

    fn fire<R: Wait>(
        &mut self,
        rt: &R,
        timers: &Timers,
        pass: &mut Pass,
        claim: &Claim,
        reading: Reading,
    ) -> Restart {
        let timer = claim.timer();
        self.met = meet(timers, pass, timer.saturating_sub(1));
        look_on(timers, pass, timer);
        self.firing.fire(rt, timers, pass, claim, reading)
    }
}

/// Whether a timer is armed before it was looked at too often.
fn meet(timers: &Timers, pass: &mut Pass, timer: u32) -> bool
    requires pass { IsPassOf timers.now pass.old }
    requires timer { timer < length timers.now.about.timers }
    ensures pass { IsPassOf timers.now pass.new }
    ensures keeps { KeepsPass pass.old.known pass.new.known }
{
    for _ in 0..TURNS {
        if timers.peek(pass, timer).enqueued {
            return true;
        }
    }
    false
}

/// Looks at a timer for a while, in which the other thread tries to set it.
fn look_on(timers: &Timers, pass: &mut Pass, timer: u32)
    requires pass { IsPassOf timers.now pass.old }
    requires timer { timer < length timers.now.about.timers }
    ensures pass { IsPassOf timers.now pass.new }
    ensures keeps { KeepsPass pass.old.known pass.new.known }
{
    for _ in 0..WAITS {
        timers.peek(pass, timer);
    }
}

/// What the thread that runs the function was told, and has noted.
#[derive(Drop)]
struct Ran {
    answer: ExpireAnswer,
    met: bool,
    triggers: ObjectLog,
}

/// Runs the function of one due timer, at 100.
fn run_one<R: Wait>(
    rt: &R,
    alloc: Global,
    timers: &Timers,
    pass: &mut Pass,
    objects: &Objects,
    objects_pass: &mut RowPass<Object>,
    log: &mut Log,
) -> Result<Ran, AllocError>
    requires passes { HasPasses timers.now objects.now pass.old objects_pass.old }
    requires three { length objects.now.decls ≡ 3 }
    requires base { 0 < timers.now.about.bases }
    requires room { 2 ≤ log.old.spare }
    ensures keeps { KeepsPasses timers.now objects.now pass.old pass.new objects_pass.old objects_pass.new }
{
    let callbacks = [Callback::Once, Callback::Once, Callback::Once];
    let mut firing = Firing::make(alloc, objects, objects_pass, &callbacks);
    if firing.reserve(1).is_err() {
        let _ = firing.into_logs();
        return Err(AllocError);
    }
    let mut gated = Gated {
        firing: &mut firing,
        met: false,
    };
    let answer = expire(rt, timers, pass, 0, Reading::at(100), 1, &mut gated, log);
    let Gated { firing: _, met } = gated;
    let (_, triggers) = firing.into_logs();
    Ok(Ran {
        answer,
        met,
        triggers,
    })
}

/// Sets an object to 500, at 100.
fn set_one<R: Wait>(
    rt: &R,
    timers: &Timers,
    pass: &mut Pass,
    objects: &Objects,
    objects_pass: &mut RowPass<Object>,
    log: &mut Log,
    calls: &mut ObjectLog,
    id: u32,
) -> SettimeAnswer
    requires may { MayCall timers.now objects.now pass.old objects_pass.old log.old calls.old id }
    requires kind { HasSetting (decl_at objects.now id).kind }
    ensures keeps { KeepsPasses timers.now objects.now pass.old pass.new objects_pass.old objects_pass.new }
    ensures room { (log.old.spare ≤ log.new.spare + most_noted objects.now timers.now.about id) × (calls.old.spare ≤ calls.new.spare + 1) }
{
    let now = Reading::at(100);
    set_timer(
        rt,
        timers,
        pass,
        objects,
        objects_pass,
        log,
        calls,
        id,
        1,
        500,
        0,
        now,
    )
}

/// Once the function of the descriptor's timer runs, sets the queued timer, which lets it go on, and then the descriptor.
#[tactic(auto, using(crate::proofs::Rooms::room_on))]
fn set_running<R: Wait>(
    rt: &R,
    timers: &Timers,
    pass: &mut Pass,
    objects: &Objects,
    objects_pass: &mut RowPass<Object>,
    log: &mut Log,
    calls: &mut ObjectLog,
) -> Option<SettimeAnswer>
    requires passes { HasPasses timers.now objects.now pass.old objects_pass.old }
    requires bases { timers.now.about.bases ≡ 1 }
    requires three { length objects.now.decls ≡ 3 }
    requires kinds { ((decl_at objects.now 0).kind ≡ kinds.Queued) × ((decl_at objects.now 1).kind ≡ kinds.Fd) }
    requires room { (8 ≤ log.old.spare) × (2 ≤ calls.old.spare) }
    ensures timers { IsPassOf timers.now pass.new }
    ensures keeps { KeepsPass pass.old.known pass.new.known }
    ensures objects { IsObjectsPass objects.now objects_pass.new }
    ensures name { objects_pass.new.knows.pass.id ≡ objects_pass.old.knows.pass.id }
{
    if !is_running(timers, pass) {
        return None;
    }
    set_one(rt, timers, pass, objects, objects_pass, log, calls, QUEUED);
    Some(set_one(rt, timers, pass, objects, objects_pass, log, calls, FD))
}

/// Whether the function of the descriptor's timer was seen to run before it was looked at too often.
fn is_running(timers: &Timers, pass: &mut Pass) -> bool
    requires pass { IsPassOf timers.now pass.old }
    requires timer { 1 < length timers.now.about.timers }
    ensures pass { IsPassOf timers.now pass.new }
    ensures keeps { KeepsPass pass.old.known pass.new.known }
{
    for _ in 0..TURNS {
        if timers.peek(pass, FD).running {
            return true;
        }
    }
    false
}

/// One thread runs the function, the other sets its timer.
fn run_and_set<R: Threads + Wait + Sync>(
    rt: &R,
    alloc: Global,
    timers: &Timers,
    runner: &mut Pass,
    setter: &mut Pass,
    objects: &Objects,
    objects_runner: &mut RowPass<Object>,
    objects_setter: &mut RowPass<Object>,
    runs: &mut Log,
    log: &mut Log,
    calls: &mut ObjectLog,
) -> (Result<Ran, AllocError>, Option<SettimeAnswer>)
    requires runner { HasPasses timers.now objects.now runner.old objects_runner.old }
    requires setter { HasPasses timers.now objects.now setter.old objects_setter.old }
    requires bases { timers.now.about.bases ≡ 1 }
    requires three { length objects.now.decls ≡ 3 }
    requires kinds { ((decl_at objects.now 0).kind ≡ kinds.Queued) × ((decl_at objects.now 1).kind ≡ kinds.Fd) }
    requires room { (2 ≤ runs.old.spare) × (8 ≤ log.old.spare) × (2 ≤ calls.old.spare) }
    ensures runner { KeepsPasses timers.now objects.now runner.old runner.new objects_runner.old objects_runner.new }
    ensures timers { IsPassOf timers.now setter.new }
    ensures keeps { KeepsPass setter.old.known setter.new.known }
    ensures objects { IsObjectsPass objects.now objects_setter.new }
    ensures name { objects_setter.new.knows.pass.id ≡ objects_setter.old.knows.pass.id }
{
    join_mut(
        rt,
        &mut || run_one(rt, alloc, timers, runner, objects, objects_runner, runs),
        &mut || { set_running(rt, timers, setter, objects, objects_setter, log, calls) },
    )
}

impl Stand {
    /// One thread runs the function of the descriptor's timer, the other sets that meanwhile.
    fn set_beside<R: Threads + Wait + Sync>(
        &mut self,
        rt: &R,
        alloc: Global,
        runs: &mut Log,
    ) -> (Result<Ran, AllocError>, Option<SettimeAnswer>)
        requires room { (8 ≤ self.old.0) × (2 ≤ self.old.1) × (2 ≤ runs.old.spare) }
    {
        let mut other = self.timers.split(&mut self.pass);
        let mut objects_other = self.objects.split(&mut self.objects_pass);
        let told = run_and_set(
            rt,
            alloc,
            &self.timers,
            &mut self.pass,
            &mut other,
            &self.objects,
            &mut self.objects_pass,
            &mut objects_other,
            runs,
            &mut self.log,
            &mut self.calls,
        );
        self.timers.retire(&mut self.pass, other);
        self.objects.join(&mut self.objects_pass, objects_other);
        told
    }
}

#[test]
fn settime_waits_for_the_trigger(rt: HostRuntime) -> Result<(), Fail> {
    let mut runs = Log::make(rt.alloc());
    runs.reserve(2)?;
    let mut stand = Stand::make(rt.alloc(), ClockId::Monotonic, 100)?;
    let set = stand.take(&rt, Step::Settime(FD, 1, 100, 0), Reading::at(0));
    assert_equal(&rt, set, Told::Settime(NONE));
    assert!(rt; stand.reserve(8, 2).is_ok());
    let (function, told) = stand.set_beside(&rt, rt.alloc(), &mut runs);
    let Ok(
        Ran {
            answer,
            met,
            triggers,
        },
    ) = function
    else {
        stand.close();
        return Err(AllocError.into());
    };
    assert!(rt; met);
    assert_equal(&rt, answer, ExpireAnswer::More { fired: 1 });
    assert_equal(&rt, told, Some(NONE));
    let numbers = (
        number_at(stand.calls.receipts(), 0),
        number_at(triggers.receipts(), 0),
        number_at(stand.calls.receipts(), 2),
    );
    assert_equal(&rt, numbers, (Some(1), Some(2), Some(3)));
    assert_equal(&rt, runs.receipts().len(), 2);
    assert_equal(&rt, stand.log.receipts().len(), 3);
    stand.close();
    Ok(())
}
