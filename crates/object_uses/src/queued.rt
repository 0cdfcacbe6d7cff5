//! Queued timers: an expiry run that puts their signals into the queue, and a loop that takes them off it.
ghost use Rattle.std.specs.Prelude.{◌≡◌, ◌≤◌, ◌<◌, ◌+◌, ◌*◌, ℕ, length, [], true, IfOk, OnErr};
ghost use Rattle.hr_timers.specs.Known.{IsPassOf};
ghost use Rattle.signal_queue.specs.Rules.{turns};
ghost use Rattle.signal_queue.specs.Turns.{waiting_after};
ghost use Rattle.timer_objects.specs.Known.{IsObjectsPass, most_noted};
ghost use Rattle.timer_objects.specs.Signals.{IsSignalPass};
ghost use Rattle.object_uses.specs.Callers.{HasPasses, KeepsPasses, MayRun};
ghost use Rattle.object_uses.specs.Queued.{KeepsSignals};

use crate::expiring::Expired;
use counted_row::RowPass;
use hr_timers::{Log, Pass, Timers, expire};
use ktime::Reading;
use signal_queue::SignalPass;
use std::alloc::{AllocError, Global};
use std::sync::Wait;
use timer_objects::{Callback, NextSignal, Object, ObjectLog, Objects, QueuedFiring};

/// The receipts of a timer's entries that a call on its object notes at most, where there are two bases or one.
const MOST_NOTED: usize = 4;

/// Runs the functions of at most so many timers that are due on a base: each triggers the object over its timer, and a queued timer's signal goes to the
/// queue. The passes of objects and of signals are lent for the run, and are theirs again after it.
pub fn expire_queued<R: Wait>(
    rt: &R,
    alloc: Global,
    timers: &Timers,
    pass: &mut Pass,
    objects: &Objects,
    objects_pass: &mut RowPass<Object>,
    signal_pass: &mut SignalPass,
    callbacks: &[Callback],
    base: u32,
    reading: Reading,
    budget: u32,
    log: &mut Log,
) -> Result<Expired, AllocError>
    requires timers { IsPassOf timers.now pass.old }
    requires objects { IsObjectsPass objects.now objects_pass.old }
    requires signals { IsSignalPass objects.now signal_pass.old }
    requires many { length timers.now.about.timers ≤ length objects.now.decls }
    requires counters { length objects.now.decls < timers.now.about.counters }
    requires run { MayRun timers.now objects.now callbacks.now base }
    requires room { 2 * budget ≤ log.old.spare }
    ensures keeps { KeepsPasses timers.now objects.now pass.old pass.new objects_pass.old objects_pass.new }
    ensures signals { KeepsSignals objects.now signal_pass.old signal_pass.new }
    ensures room { log.old.spare ≤ log.new.spare + 2 * budget }
{
    let mut firing = QueuedFiring::make(alloc, objects, objects_pass, signal_pass, callbacks);
    if firing.reserve(budget as usize).is_err() {
        let _ = firing.into_logs();
        return Err(AllocError);
    }
    let answer = expire(
        rt,
        timers,
        pass,
        base,
        reading,
        budget.into(),
        &mut firing,
        log,
    );
    let (callback_log, object_log) = firing.into_logs();
    Ok(Expired {
        answer,
        callback_log,
        object_log,
    })
}

/// What a loop over signals came to.
#[derive(Clone, Copy, Debug, PartialEq, Eq)]
pub struct Taken {
    /// How many signals were accepted.
    pub accepted: u64,
    /// How many were not: they were stale, or their timers' histories are full.
    pub stale: u64,
    /// It ended as no signal waited.
    pub is_drained: bool,
}

/// Takes the signals that wait, the oldest first, until none does or so many were taken.
pub fn take_signals<R: Wait>(
    rt: &R,
    timers: &Timers,
    pass: &mut Pass,
    objects: &Objects,
    objects_pass: &mut RowPass<Object>,
    signal_pass: &mut SignalPass,
    log: &mut Log,
    object_log: &mut ObjectLog,
    most: u32,
    reading: Reading,
) -> Result<Taken, AllocError>
    requires passes { HasPasses timers.now objects.now pass.old objects_pass.old }
    requires signals { IsSignalPass objects.now signal_pass.old }
    requires few { (id : ℕ) → id < length objects.now.decls → most_noted objects.now timers.now.about id ≤ 4 }
    ensures keeps { KeepsPasses timers.now objects.now pass.old pass.new objects_pass.old objects_pass.new }
    ensures signals { KeepsSignals objects.now signal_pass.old signal_pass.new }
    ensures drained { IfOk result (λ t. t.is_drained ≡ true → waiting_after [] (turns signal_pass.new.knows) ≡ []) }
{
    let mut taken = Taken {
        accepted: 0,
        stale: 0,
        is_drained: false,
    };
    for _ in 0..most {
        log.reserve(MOST_NOTED)?;
        object_log.reserve(1)?;
        let next = objects.next_signal(
            rt,
            timers,
            pass,
            objects_pass,
            signal_pass,
            log,
            object_log,
            reading,
        );
        match next {
            NextSignal::NoneQueued => {
                taken.is_drained = true;
                return Ok(taken);
            }
            NextSignal::Accepted { .. } => taken.accepted = taken.accepted.saturating_add(1),
            NextSignal::Spent { .. } | NextSignal::Stale { .. } => {
                taken.stale = taken.stale.saturating_add(1);
            }
        }
    }
    Ok(taken)
}
