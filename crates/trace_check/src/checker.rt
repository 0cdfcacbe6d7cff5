//! A checker of a kernel's trace, event by event.
ghost use Rattle.std.specs.Prelude.{◌≡◌, ◌+◌, ℕ, IfOk, OnOk, None};
ghost use Rattle.trace_check.specs.Checkers.{HoldsKnowledge};
ghost use Rattle.trace_check.specs.Knowledge.{Knowledge, learned, misfit, no_knowledge, outer_by, with_claim, with_known, with_outer};
ghost use Rattle.seq_timer.specs.Systems.{updated};

use crate::known::{KnownProcessor, KnownTimer, OrderedExpiry};
use crate::learning::context_at;
use crate::misfit::Misfit;
use crate::places::{ProcessorTable, QueueTable, is_passed, known_on, note_claim, note_on};
use crate::timers::{TimerTable, known, note};
use seq_timer::Context;
use std::alloc::{AllocError, Global};
use std::collections::HashMap;
use trace_text::{KernelEvent, Site};

/// What the events so far tell: of each timer that they name, of each processor, and the expiries that timers still wait behind.
#[derive(Drop)]
pub struct Checker {
    timers: TimerTable,
    processors: ProcessorTable,
    queues: QueueTable,
    count: u64,
    alloc: Global,
}

impl Checker {
    /// A checker that was told nothing.
    pub fn new(alloc: Global) -> Checker
        ensures { HoldsKnowledge result (no_knowledge 0) }
    {
        Checker {
            timers: HashMap::new(alloc),
            processors: HashMap::new(alloc),
            queues: HashMap::new(alloc),
            count: 0,
            alloc,
        }
    }

    /// Why no history shows the events so far with this one behind them, where there is none.
    fn misfit(&self, event: &KernelEvent) -> Option<Misfit>
        ensures { (k : Knowledge) → HoldsKnowledge self.now k → result ≡ misfit k event.now }
    {
        match *event {
            KernelEvent::SetUp { timer, .. } => known(&self.timers, timer).misfit_of_set_up(),
            KernelEvent::Start {
                timer,
                soft,
                expires,
                was_armed,
            } => known(&self.timers, timer).misfit_of_start(soft, expires, was_armed),
            KernelEvent::Cancel { timer } => known(&self.timers, timer).misfit_of_cancel(),
            KernelEvent::Entry { timer, site, now } => self.misfit_of_entry(timer, site, now),
            KernelEvent::Exit { timer, site } => {
                let there = known_on(&self.processors, site.processor);
                known(&self.timers, timer).misfit_of_exit(site, there)
            }
            KernelEvent::Lost => None,
        }
    }

    /// What is known of the context of the function that no line has told it of.
    fn outer(&self, there: KnownProcessor) -> Option<Context>
        ensures { (k : Knowledge) → HoldsKnowledge self.now k → result ≡ outer_by there.loose k.timers }
    {
        known(&self.timers, there.loose?).context
    }

    /// What is wrong with an expiry.
    fn misfit_of_entry(&self, timer: u64, site: Site, now: u64) -> Option<Misfit>
        ensures { (k : Knowledge) → HoldsKnowledge self.now k → result ≡ misfit k (KernelEvent.Entry timer site now) }
    {
        let known = known(&self.timers, timer);
        let passed = match known.claim(self.count, site) {
            Some(claim) => is_passed(&self.queues, &claim),
            None => false,
        };
        let there = known_on(&self.processors, site.processor);
        known.misfit_of_entry(site, now, there, self.outer(there), passed)
    }

    /// Notes what is known of a timer after one more event.
    fn note(&mut self, timer: u64, known: KnownTimer) -> Result<(), AllocError>
        ensures { (k : Knowledge) → HoldsKnowledge self.old k → OnOk result (HoldsKnowledge self.new (with_known k timer known)) }
    {
        self.count = self.count.checked_add(1).ok_or(AllocError)?;
        note(&mut self.timers, timer, known)
    }

    /// Notes what runs on a processor.
    fn note_on(&mut self, processor: u32, known: KnownProcessor) -> Result<(), AllocError>
        ensures { (k : Knowledge) → HoldsKnowledge self.old k → OnOk result (HoldsKnowledge self.new (record k { processors = updated k.processors processor known })) }
    {
        note_on(&mut self.processors, processor, known)
    }

    /// Notes that the function that no line has told the context of is soft, if there is one.
    fn note_outer(&mut self, loose: Option<u64>) -> Result<(), AllocError>
        ensures { (k : Knowledge) → HoldsKnowledge self.old k → OnOk result (HoldsKnowledge self.new (record k { timers = with_outer loose k.timers })) }
    {
        match loose {
            Some(timer) => {
                let known = known(&self.timers, timer).outer();
                note(&mut self.timers, timer, known)
            }
            None => Ok(()),
        }
    }

    /// Notes an expiry, where it takes part in the order of its queue.
    fn note_claim(&mut self, claim: Option<OrderedExpiry>) -> Result<(), AllocError>
        ensures { (k : Knowledge) → HoldsKnowledge self.old k → OnOk result (HoldsKnowledge self.new (record k { claims = with_claim claim k.claims })) }
    {
        match claim {
            Some(claim) => note_claim(self.alloc, &mut self.queues, claim),
            None => Ok(()),
        }
    }

    /// Forgets all but the count of events.
    fn begin_anew(&mut self) -> Result<(), AllocError>
        ensures { (k : Knowledge) → HoldsKnowledge self.old k → OnOk result (HoldsKnowledge self.new (no_knowledge (k.count + 1))) }
    {
        self.count = self.count.checked_add(1).ok_or(AllocError)?;
        self.timers = HashMap::new(self.alloc);
        self.processors = HashMap::new(self.alloc);
        self.queues = HashMap::new(self.alloc);
        Ok(())
    }

    /// What is known after one more event, which some history shows.
    fn learn(&mut self, event: KernelEvent) -> Result<(), AllocError>
        ensures { (k : Knowledge) → HoldsKnowledge self.old k → OnOk result (HoldsKnowledge self.new (learned k event)) }
    {
        match event {
            KernelEvent::SetUp {
                timer,
                clock,
                context,
            } => self.note(timer, KnownTimer::set_up(clock, context)),
            KernelEvent::Start {
                timer,
                soft,
                expires,
                ..
            } => {
                let known = known(&self.timers, timer);
                self.note(timer, known.started(self.count, soft, expires))
            }
            KernelEvent::Cancel { timer } => {
                let known = known(&self.timers, timer);
                self.note(timer, known.cancelled())
            }
            KernelEvent::Entry { timer, site, .. } => self.learn_entry(timer, site),
            KernelEvent::Exit { timer, site } => self.learn_exit(timer, site),
            KernelEvent::Lost => self.begin_anew(),
        }
    }

    /// What is known after an expiry.
    fn learn_entry(&mut self, timer: u64, site: Site) -> Result<(), AllocError>
        ensures { (k : Knowledge) (now : ℕ) → HoldsKnowledge self.old k → OnOk result (HoldsKnowledge self.new (learned k (KernelEvent.Entry timer site now))) }
    {
        let known = known(&self.timers, timer);
        let there = known_on(&self.processors, site.processor);
        let line = context_at(site.context, known.told);
        self.note_claim(known.claim(self.count, site))?;
        self.note_outer(there.loose)?;
        self.note_on(site.processor, there.entered(timer, line))?;
        self.note(timer, known.entered(site, there.is_inside()))
    }

    /// What is known after a return.
    fn learn_exit(&mut self, timer: u64, site: Site) -> Result<(), AllocError>
        ensures { (k : Knowledge) → HoldsKnowledge self.old k → OnOk result (HoldsKnowledge self.new (learned k (KernelEvent.Exit timer site))) }
    {
        let known = known(&self.timers, timer);
        let there = known_on(&self.processors, site.processor);
        self.note_on(site.processor, there.exited(timer, site, &known))?;
        self.note(timer, known.exited(site, there))
    }

    /// Takes one more event: the cause why no history shows the events so far with this one behind them, if there is none. After a cause, and
    /// where memory has run out, the checker isn't to be used any more.
    pub fn step(&mut self, event: KernelEvent) -> Result<Option<Misfit>, AllocError>
        ensures { (k : Knowledge) → HoldsKnowledge self.old k → IfOk result (λ cause. (cause ≡ misfit k event) × (cause ≡ None → HoldsKnowledge self.new (learned k event))) }
    {
        if let Some(cause) = self.misfit(&event) {
            return Ok(Some(cause));
        }
        self.learn(event)?;
        Ok(None)
    }
}
