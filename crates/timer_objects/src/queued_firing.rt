//! The handler that runs the functions of objects' timers where some are queued timers.
ghost use Rattle.std.specs.Prelude.{◌≡◌, ◌≤◌, [], length, None, OnOk};
ghost use Rattle.counted_row.specs.Views.{IsPassOfRow};
ghost use Rattle.timer_objects.specs.Known.{IsObjectsPass, row_of};
ghost use Rattle.timer_objects.specs.Signals.{IsSignalPass};

use crate::callback::{Callback, run};
use crate::log::ObjectLog;
use crate::object::{Kind, Object};
use crate::objects::Objects;
use crate::sending::send;
use crate::trigger::{trigger, trigger_of};
use counted_row::RowPass;
use hr_timers::{Claim, Handler, Log, Pass, Restart, Timers};
use ktime::Reading;
use signal_queue::SignalPass;
use std::alloc::{AllocError, Global};
use std::sync::Wait;

/// Runs the functions of timers as `Firing` does, and puts the signals of queued timers into the queue. It borrows a pass of that too.
pub struct QueuedFiringWith<'a, L, K> {
    objects: &'a Objects,
    objects_pass: &'a mut RowPass<Object>,
    signal_pass: &'a mut SignalPass,
    callbacks: &'a [Callback],
    log: L,
    object_log: K,
    ghost row: { IsPassOfRow (row_of objects.now) objects_pass.now },
    ghost idle: { objects_pass.now.knows.held ≡ None },
    ghost unclaimed: { objects_pass.now.knows.claims ≡ [] },
    ghost signals: { IsSignalPass objects.now signal_pass.now },
    ghost many: { length callbacks.now ≡ length objects.now.decls },
}

pub type QueuedFiring<'a> = QueuedFiringWith<'a, Log, ObjectLog>;

impl<'a> QueuedFiringWith<'a, Log, ObjectLog> {
    ghost use Rattle.timer_objects.specs.QueuedFirings.{IsSameQueuedLoan, queued_ready_of};

    /// A handler over these objects, with a callback for each; that of a timer by itself is run. Its logs are empty. It takes no memory.
    pub fn make(
        alloc: Global,
        objects: &'a Objects,
        objects_pass: &'a mut RowPass<Object>,
        signal_pass: &'a mut SignalPass,
        callbacks: &'a [Callback],
    ) -> QueuedFiringWith<'a, Log, ObjectLog>
        requires pass { IsObjectsPass objects.now objects_pass.old }
        requires signals { IsSignalPass objects.now signal_pass.old }
        requires many { length callbacks.now ≡ length objects.now.decls }
        ensures lent { (result.objects_pass.ghost_name ≡ objects_pass.entry.ghost_name) × (result.signal_pass.ghost_name ≡ signal_pass.entry.ghost_name) }
        ensures pass { (result.objects_pass.now ≡ objects_pass.old) × (result.signal_pass.now ≡ signal_pass.old) }
        ensures objects { result.objects.now ≡ objects.now }
        ensures callbacks { result.callbacks.now ≡ callbacks.now }
        ensures logs { (result.log.receipts ≡ []) × (result.object_log.receipts ≡ []) }
    {
        QueuedFiringWith {
            objects,
            objects_pass,
            signal_pass,
            callbacks,
            log: Log::make(alloc),
            object_log: ObjectLog::make(alloc),
        }
    }

    /// Makes room in its logs for so many functions more.
    pub fn reserve(&mut self, count: usize) -> Result<(), AllocError>
        ensures ok { OnOk result (count ≤ queued_ready_of self.new) }
        ensures kept { queued_ready_of self.old ≤ queued_ready_of self.new }
        ensures loan { IsSameQueuedLoan self.old self.new }
        ensures pass { (self.new.objects_pass.now ≡ self.old.objects_pass.now) × (self.new.signal_pass.now ≡ self.old.signal_pass.now) }
        ensures logs { (self.new.log.receipts ≡ self.old.log.receipts) × (self.new.object_log.receipts ≡ self.old.object_log.receipts) }
    {
        self.log.reserve(count.max(self.log.spare()))?;
        self.object_log.reserve(count.max(self.object_log.spare()))?;
        Ok(())
    }

    /// Gives the logs of what it has done.
    pub fn into_logs(self) -> (Log, ObjectLog)
        ensures logs { (result.0 ≡ self.entry.log) × (result.1 ≡ self.entry.object_log) }

        // The passes that were lent are as the handler has left them.
        ensures pass { (self.exit.1.0.now ≡ self.entry.objects_pass.now) × (self.exit.1.1.0.now ≡ self.entry.signal_pass.now) }
    {
        let QueuedFiringWith {
            objects: _,
            objects_pass: _,
            signal_pass: _,
            callbacks: _,
            log,
            object_log,
        } = self;
        (log, object_log)
    }
}

impl Handler for QueuedFiringWith<'_, Log, ObjectLog> {
    ghost use Rattle.timer_objects.specs.QueuedFirings.{queued_firing};

    ghost meaning = { queued_firing };

    fn fire<R: Wait>(
        &mut self,
        rt: &R,
        timers: &Timers,
        pass: &mut Pass,
        claim: &Claim,
        reading: Reading,
    ) -> Restart {
        let timer = claim.timer();
        let kind = self.objects.kind(timer);
        if kind == Kind::Queued {
            let objects_pass = &mut *self.objects_pass;
            let signal_pass = &mut *self.signal_pass;
            send(
                rt,
                timers,
                pass,
                self.objects,
                objects_pass,
                signal_pass,
                &mut self.object_log,
                claim,
                reading,
            );
            return Restart::Stop;
        }
        match trigger_of(kind, claim, reading) {
            None => {
                let callback = self.callbacks[timer as usize];
                run(rt, timers, pass, &mut self.log, callback, claim, reading)
            }
            Some(call) => {
                let lent = &mut *self.objects_pass;
                trigger(
                    rt,
                    timers,
                    pass,
                    self.objects,
                    lent,
                    &mut self.object_log,
                    call,
                    claim,
                    reading,
                );
                Restart::Stop
            }
        }
    }
}
