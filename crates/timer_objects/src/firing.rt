//! The handler that runs the functions of objects' timers.
ghost use Rattle.std.specs.Prelude.{◌≡◌, ◌≤◌, [], length, None, OnOk};
ghost use Rattle.counted_row.specs.Views.{IsPassOfRow};
ghost use Rattle.timer_objects.specs.Known.{IsObjectsPass, row_of};

use crate::callback::{Callback, run};
use crate::log::ObjectLog;
use crate::object::Object;
use crate::objects::Objects;
use crate::trigger::{trigger, trigger_of};
use counted_row::RowPass;
use hr_timers::{Claim, Handler, Log, Pass, Restart, Timers};
use ktime::Reading;
use std::alloc::{AllocError, Global};
use std::sync::Wait;

/// Runs the functions of timers: it triggers the object over a timer, or runs the callback that is stated for a timer by itself. It borrows the
/// objects and a pass of theirs, and owns the logs of what it does.
pub struct FiringWith<'a, L, K> {
    objects: &'a Objects,
    objects_pass: &'a mut RowPass<Object>,
    callbacks: &'a [Callback],
    log: L,
    object_log: K,
    ghost row: { IsPassOfRow (row_of objects.now) objects_pass.now },
    ghost idle: { objects_pass.now.knows.held ≡ None },
    ghost unclaimed: { objects_pass.now.knows.claims ≡ [] },
    ghost many: { length callbacks.now ≡ length objects.now.decls },
}

pub type Firing<'a> = FiringWith<'a, Log, ObjectLog>;

impl<'a> FiringWith<'a, Log, ObjectLog> {
    ghost use Rattle.timer_objects.specs.Firings.{IsSameLoan, ready_of};

    /// A handler over these objects, with a callback for each; that of a timer by itself is run. Its logs are empty. It takes no memory.
    pub fn make(
        alloc: Global,
        objects: &'a Objects,
        objects_pass: &'a mut RowPass<Object>,
        callbacks: &'a [Callback],
    ) -> FiringWith<'a, Log, ObjectLog>
        requires pass { IsObjectsPass objects.now objects_pass.old }
        requires many { length callbacks.now ≡ length objects.now.decls }
        ensures lent { result.objects_pass.ghost_name ≡ objects_pass.entry.ghost_name }
        ensures pass { result.objects_pass.now ≡ objects_pass.old }
        ensures objects { result.objects.now ≡ objects.now }
        ensures callbacks { result.callbacks.now ≡ callbacks.now }
        ensures logs { (result.log.receipts ≡ []) × (result.object_log.receipts ≡ []) }
    {
        FiringWith {
            objects,
            objects_pass,
            callbacks,
            log: Log::make(alloc),
            object_log: ObjectLog::make(alloc),
        }
    }

    /// Makes room in its logs for so many functions more.
    pub fn reserve(&mut self, count: usize) -> Result<(), AllocError>
        ensures ok { OnOk result (count ≤ ready_of self.new) }
        ensures kept { ready_of self.old ≤ ready_of self.new }
        ensures loan { IsSameLoan self.old self.new }
        ensures pass { self.new.objects_pass.now ≡ self.old.objects_pass.now }
        ensures logs { (self.new.log.receipts ≡ self.old.log.receipts) × (self.new.object_log.receipts ≡ self.old.object_log.receipts) }
    {
        self.log.reserve(count.max(self.log.spare()))?;
        self.object_log.reserve(count.max(self.object_log.spare()))?;
        Ok(())
    }

    /// Gives the logs of what it has done.
    pub fn into_logs(self) -> (Log, ObjectLog)
        ensures logs { (result.0 ≡ self.entry.log) × (result.1 ≡ self.entry.object_log) }

        // The pass that was lent is as the handler has left it.
        ensures pass { self.exit.1.0.now ≡ self.entry.objects_pass.now }
    {
        let FiringWith {
            objects: _,
            objects_pass: _,
            callbacks: _,
            log,
            object_log,
        } = self;
        (log, object_log)
    }
}

impl Handler for FiringWith<'_, Log, ObjectLog> {
    ghost use Rattle.timer_objects.specs.Firings.{firing};

    ghost meaning = { firing };

    fn fire<R: Wait>(
        &mut self,
        rt: &R,
        timers: &Timers,
        pass: &mut Pass,
        claim: &Claim,
        reading: Reading,
    ) -> Restart {
        let timer = claim.timer();
        match trigger_of(self.objects.kind(timer), claim, reading) {
            None => {
                let callback = self.callbacks[timer as usize];
                run(rt, timers, pass, &mut self.log, callback, claim, reading)
            }
            Some(call) => {
                let lent = &mut *self.objects_pass;
                trigger(
                    rt,
                    timers,
                    pass,
                    self.objects,
                    lent,
                    &mut self.object_log,
                    call,
                    claim,
                    reading,
                );
                Restart::Stop
            }
        }
    }
}
