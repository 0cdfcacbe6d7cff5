//! An expiry run as a call of a lane.
ghost use Rattle.std.specs.Prelude.{◌≡◌, ◌≤◌, ◌<◌, ◌*◌, [], IfOk};
ghost use Rattle.hr_timers.specs.Known.{IsPassOf};
ghost use Rattle.hr_timers.specs.Handlers.{KeepsPass};
ghost use Rattle.hr_timers.specs.Handlers.{CanServe};
ghost use Rattle.timer_objects.specs.QueuedFirings.{queued_firing, queued_ready_of};
ghost use Rattle.script_text.specs.CallLines.{most_budget};
ghost use Rattle.lane_notes.specs.Called.{CallsExpire, LeavesLane, ReadsClock, claimed_in, expire_told, is_claim_event, lane_of};
ghost use Rattle.lane_notes.specs.Expiries.{RunsGated, RunsWith};
ghost use Rattle.lane_notes.specs.Worlds.{ArePassesOf, KeepPasses};

use crate::gate::{Gate, Point};
use crate::world::World;
use hr_timers::{Claim, ExpireAnswer, Handler, Log, Pass, Restart, Timers};
use ktime::Reading;
use lane_notes::{Lane, Notes, WorldPass, note_object_receipts, note_receipts};
use record_text::{Answer, ItemList, Label};
use seq_timer::{Context, Event};
use std::alloc::{AllocError, Global};
use std::sync::Wait;
use timer_objects::{ObjectLog, QueuedFiring, QueuedFiringWith};

/// The handler of objects and callbacks, with the gate's point before each function.
#[derive(Drop)]
struct Gated<'a, 'b, 'g, G> {
    firing: &'a mut QueuedFiringWith<'b, Log, ObjectLog>,
    gate: &'g G,
    label: Label,
}

impl<G: Gate> Handler for Gated<'_, '_, '_, G> {
    ghost use Rattle.std.specs.Prelude.{◌+◌, length};
    ghost use Rattle.timer_objects.specs.Callbacks.{bases_of};
    ghost use Rattle.timer_objects.specs.QueuedFirings.{queued_ready_of};
    ghost use Rattle.lane_notes.specs.Expiries.{FiresLent};

    ghost meaning = { record { did = λ o h h' v w c reading restart. FiresLent o h.firing.ghost_name h'.firing.ghost_name h.firing.now h'.firing.now v w c reading restart; ready = λ h. queued_ready_of h.firing.now; timers = λ h. length h.firing.now.objects.now.decls; bases = λ h. bases_of h.firing.now.callbacks.now; counters = λ h. length h.firing.now.objects.now.decls + 1 } };

    fn fire<R: Wait>(
        &mut self,
        rt: &R,
        timers: &Timers,
        pass: &mut Pass,
        claim: &Claim,
        reading: Reading,
    ) -> Restart {
        let Label { lane, call } = self.label;
        self.gate.at(lane, call, Point::Callback);
        self.firing.fire(rt, timers, pass, claim, reading)
    }
}

/// What an expiry run leaves: its answer, its own log, and those of its handler.
#[derive(Drop)]
struct Expired {
    answer: ExpireAnswer,
    log: Log,
    callback_log: Log,
    object_log: ObjectLog,
}

/// An expiry run on a base for the timers of a context, of at most so many functions.
pub(crate) fn expire<R: Wait, G: Gate>(
    rt: &R,
    alloc: Global,
    world: &World,
    gate: &G,
    lane: &mut Lane,
    context: Context,
    base: u32,
    budget: u64,
    reading: Reading,
) -> Result<Answer, AllocError>
    requires pass { ArePassesOf world.now lane.old.pass }
    requires reading { ReadsClock lane.old.pass lane.old.pass reading }
    requires base { base < world.now.timers.about.bases }
    requires budget { budget ≤ most_budget }
    ensures leaves { LeavesLane world.now lane.old lane.new }
    ensures call { IfOk result (λ a. CallsExpire world.now (lane_of lane.old) (lane_of lane.new) a context base budget) }
{
    let Expired {
        answer,
        log,
        callback_log,
        object_log,
    } = run_gated(
        rt,
        alloc,
        world,
        gate,
        lane.label,
        &mut lane.pass,
        context,
        base,
        budget,
        reading,
    )?;
    note_receipts(&mut lane.notes, lane.label, log.receipts())?;
    note_receipts(&mut lane.notes, lane.label, callback_log.receipts())?;
    note_object_receipts(&mut lane.notes, lane.label, object_log.receipts())?;
    let fired = claimed(alloc, &log)?;
    Ok(answer_of(answer, reading.stamp, fired))
}

/// The run itself.
fn run_gated<R: Wait, G: Gate>(
    rt: &R,
    alloc: Global,
    world: &World,
    gate: &G,
    label: Label,
    pass: &mut WorldPass,
    context: Context,
    base: u32,
    budget: u64,
    reading: Reading,
) -> Result<Expired, AllocError>
    requires pass { ArePassesOf world.now pass.old }
    requires base { base < world.now.timers.about.bases }
    requires budget { budget ≤ most_budget }
    ensures pass { ArePassesOf world.now pass.new }
    ensures keeps { KeepPasses pass.old pass.new }
    ensures clock { pass.new.clock ≡ pass.old.clock }
    ensures runs { IfOk result (λ e. RunsGated world.now pass.old pass.new context base budget reading e.log.receipts e.callback_log.receipts e.object_log.receipts e.answer) }
{
    let mut log = Log::make(alloc);
    log.reserve(2 * budget as usize)?;
    let mut firing = QueuedFiring::make(
        alloc,
        &world.objects,
        &mut pass.objects,
        &mut pass.signals,
        &world.callbacks,
    );
    if firing.reserve(budget as usize).is_err() {
        let _ = firing.into_logs();
        return Err(AllocError);
    }
    let timers = &world.timers;
    let answer = run_with(
        rt,
        timers,
        gate,
        label,
        &mut pass.timers,
        context,
        base,
        budget,
        reading,
        &mut firing,
        &mut log,
    );
    let (callback_log, object_log) = firing.into_logs();
    Ok(Expired {
        answer,
        log,
        callback_log,
        object_log,
    })
}

/// The run with a handler of objects.
fn run_with<R: Wait, G: Gate>(
    rt: &R,
    timers: &Timers,
    gate: &G,
    label: Label,
    pass: &mut Pass,
    context: Context,
    base: u32,
    budget: u64,
    reading: Reading,
    firing: &mut QueuedFiringWith<'_, Log, ObjectLog>,
    log: &mut Log,
) -> ExpireAnswer
    requires timers { IsPassOf timers.now pass.old }
    requires base { base < timers.now.about.bases }
    requires room { 2 * budget ≤ log.old.spare }
    requires ready { budget ≤ queued_ready_of firing.old }
    requires suits { CanServe queued_firing timers.now.about firing.old }
    ensures timers { IsPassOf timers.now pass.new }
    ensures keeps { KeepsPass pass.old.known pass.new.known }
    ensures runs { RunsWith timers.now.about context base reading budget pass.old.known firing.old log.old.receipts pass.new.known firing.new log.new.receipts result }
{
    let mut handler = Gated {
        firing,
        gate,
        label,
    };
    hr_timers::expire_in(
        rt,
        timers,
        pass,
        context,
        base,
        reading,
        budget,
        &mut handler,
        log,
    )
}

/// The timers that a run has claimed, in the order of their claims.
fn claimed(alloc: Global, log: &Log) -> Result<ItemList<u32>, AllocError>
    ensures { IfOk result (λ timers. timers ≡ claimed_in log.now.receipts) }
{
    let mut timers = ItemList::new(alloc);
    for receipt in log.receipts() {
        if is_claim_event(receipt.event) {
            timers.push(receipt.timer)?;
        }
    }
    Ok(timers)
}

/// Whether an event is a claim.
fn is_claim_event(event: Event) -> bool
    ensures { result ≡ is_claim_event event }
{
    matches!(event, Event::Claim { .. })
}

/// The answer of a run by this reading that has claimed these timers.
fn answer_of(answer: ExpireAnswer, reading: u64, fired: ItemList<u32>) -> Answer
    ensures { result ≡ expire_told reading fired answer }
{
    match answer {
        ExpireAnswer::More { .. } => Answer::More { reading, fired },
        ExpireAnswer::Done { .. } => Answer::Done { reading, fired },
        ExpireAnswer::BaseBusy {
            timer,
            generation,
            ..
        } => Answer::Busy {
            reading,
            fired,
            timer,
            generation,
        },
    }
}
