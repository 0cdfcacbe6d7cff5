//! What a trace has in it, by numbers.
ghost use Rattle.std.specs.Prelude.{◌≡◌, ◌||◌, ℕ, false, List, [], ◌∷◌, OnOk, IfOk, IfSome, is_some, max, nat_eq};
ghost use Rattle.std.specs.List.{list_any};
ghost use Rattle.std.specs.HashMap.{get};
ghost use Rattle.std.specs.HashSet.{contains};
ghost use Rattle.trace_text.specs.declared.event.KernelEvent.{KernelEvent};
ghost use Rattle.trace_read.specs.Tallies.{IsHowMany, IsTallyOf, NamesProcessors, NamesTimers, armed_behind, with_event, later, later_by, latest_in, names_processor, names_timer, no_counts};

use seq_timer::Context;
use std::alloc::{AllocError, Global};
use std::collections::{BTreeMap, HashMap, HashSet};
use trace_text::{KernelEvent, Site};

/// How many events of each kind there were.
#[derive(Clone, Copy, Debug, PartialEq, Eq)]
pub struct EventCounts {
    pub set_ups: u64,
    pub starts: u64,
    pub cancels: u64,
    pub expiries: u64,
    pub returns: u64,
    pub losses: u64,
}

impl EventCounts {
    /// No event was counted.
    fn none() -> EventCounts
        ensures { result ≡ no_counts }
    {
        EventCounts {
            set_ups: 0,
            starts: 0,
            cancels: 0,
            expiries: 0,
            returns: 0,
            losses: 0,
        }
    }

    /// With one more event; `None` where a number would pass its end.
    fn with(self, event: &KernelEvent) -> Option<EventCounts>
        ensures { IfSome result (λ c. c ≡ with_event event.now self) }
    {
        Some(match event {
            KernelEvent::SetUp { .. } => EventCounts {
                set_ups: self.set_ups.checked_add(1)?,
                ..self
            },
            KernelEvent::Start { .. } => EventCounts {
                starts: self.starts.checked_add(1)?,
                ..self
            },
            KernelEvent::Cancel { .. } => EventCounts {
                cancels: self.cancels.checked_add(1)?,
                ..self
            },
            KernelEvent::Entry { .. } => EventCounts {
                expiries: self.expiries.checked_add(1)?,
                ..self
            },
            KernelEvent::Exit { .. } => EventCounts {
                returns: self.returns.checked_add(1)?,
                ..self
            },
            KernelEvent::Lost => EventCounts {
                losses: self.losses.checked_add(1)?,
                ..self
            },
        })
    }
}

/// The latest expiry on a processor, by the context that its line tells; one that tells none counts as hard.
#[derive(Clone, Copy, Debug, PartialEq, Eq)]
pub struct Latest {
    pub hard: Option<u64>,
    pub soft: Option<u64>,
}

impl Latest {
    /// With one more expiry, so late.
    fn with(self, context: Option<Context>, late: u64) -> Latest
        ensures { result ≡ later context late self }
    {
        match context {
            Some(Context::Soft) => Latest {
                soft: Some(late.max(self.soft.unwrap_or(0))),
                ..self
            },
            _ => Latest {
                hard: Some(late.max(self.hard.unwrap_or(0))),
                ..self
            },
        }
    }
}

/// What the events of a trace have in them, by numbers.
#[derive(Drop)]
pub struct Tally {
    counts: EventCounts,
    /// The timers that an event names, and the processors that an expiry or a return does.
    timers: HashSet<u64>,
    processors: HashSet<u32>,
    /// The hard expiry of each timer that is armed, as far as the events tell.
    armed: HashMap<u64, u64>,
    most_armed: u64,
    latest: BTreeMap<u32, Latest>,
    alloc: Global,
}

/// Notes the timer that an event names.
fn name_timer(timers: &mut HashSet<u64>, event: &KernelEvent) -> Result<(), AllocError>
    ensures { OnOk result ((t : ℕ) → contains nat_eq timers.new t ≡ (names_timer t event.now || contains nat_eq timers.old t)) }
{
    match *event {
        KernelEvent::SetUp { timer, .. }
        | KernelEvent::Start { timer, .. }
        | KernelEvent::Cancel { timer }
        | KernelEvent::Entry { timer, .. }
        | KernelEvent::Exit { timer, .. } => {
            timers.insert(timer)?;
        }
        KernelEvent::Lost => {}
    }
    Ok(())
}

/// Notes the processor that an event names.
fn name_processor(processors: &mut HashSet<u32>, event: &KernelEvent) -> Result<(), AllocError>
    ensures { OnOk result ((p : ℕ) → contains nat_eq processors.new p ≡ (names_processor p event.now || contains nat_eq processors.old p)) }
{
    match *event {
        KernelEvent::Entry { site, .. } | KernelEvent::Exit { site, .. } => {
            processors.insert(site.processor)?;
        }
        _ => {}
    }
    Ok(())
}

/// Notes which timers are armed behind an event.
fn note_armed(
    alloc: Global,
    armed: &mut HashMap<u64, u64>,
    event: &KernelEvent,
) -> Result<(), AllocError>
    ensures { OnOk result ((t : ℕ) → get nat_eq armed.new t ≡ armed_behind t event.now (get nat_eq armed.old t)) }
{
    match *event {
        KernelEvent::Start { timer, expires, .. } => {
            armed.insert(timer, expires)?;
        }
        KernelEvent::SetUp { timer, .. }
        | KernelEvent::Cancel { timer }
        | KernelEvent::Entry { timer, .. } => {
            armed.remove(&timer);
        }
        KernelEvent::Exit { .. } => {}
        KernelEvent::Lost => *armed = HashMap::new(alloc),
    }
    Ok(())
}

/// Notes how late an expiry comes on its processor.
fn note_expiry(latest: &mut BTreeMap<u32, Latest>, site: Site, late: u64) -> Result<(), AllocError>
    ensures here { OnOk result (latest_in latest.new site.processor ≡ later site.context late (latest_in latest.old site.processor)) }
    ensures others { OnOk result ((p : ℕ) → nat_eq p site.processor ≡ false → latest_in latest.new p ≡ latest_in latest.old p) }
{
    let was = latest.get(&site.processor).copied().unwrap_or(Latest {
        hard: None,
        soft: None,
    });
    latest.insert(site.processor, was.with(site.context, late))?;
    Ok(())
}

impl Tally {
    /// Nothing was noted yet.
    pub fn new(alloc: Global) -> Tally
        ensures { IsTallyOf result [] }
    {
        Tally {
            counts: EventCounts::none(),
            timers: HashSet::new(alloc),
            processors: HashSet::new(alloc),
            armed: HashMap::new(alloc),
            most_armed: 0,
            latest: BTreeMap::new(alloc),
            alloc,
        }
    }

    /// How many timers are named.
    pub fn timers(&self) -> usize
        ensures { (past : List KernelEvent) → IsTallyOf self.now past → NamesTimers past result }
    {
        self.timers.len()
    }

    /// How many processors an expiry or a return names.
    pub fn processors(&self) -> usize
        ensures { (past : List KernelEvent) → IsTallyOf self.now past → NamesProcessors past result }
    {
        self.processors.len()
    }

    /// Notes how late an event comes, where it is an expiry.
    fn note_late(&mut self, event: &KernelEvent) -> Result<(), AllocError>
        ensures late { OnOk result ((p : ℕ) → latest_in self.new.latest p ≡ later_by p event.now (λ t. get nat_eq self.old.armed t) (latest_in self.old.latest p)) }
        ensures same { OnOk result (self.new ≡ record self.old { latest = self.new.latest }) }
    {
        let KernelEvent::Entry { timer, site, now } = *event else {
            return Ok(());
        };
        let expires = self.armed.get(&timer).copied().unwrap_or(now);
        note_expiry(&mut self.latest, site, now.saturating_sub(expires))
    }

    /// Notes one more event.
    pub fn note(&mut self, event: &KernelEvent) -> Result<(), AllocError>
        ensures { (past : List KernelEvent) → IsTallyOf self.old past → OnOk result (IsTallyOf self.new (event.now ∷ past)) }
    {
        self.note_late(event)?;
        self.counts = self.counts.with(event).ok_or(AllocError)?;
        name_timer(&mut self.timers, event)?;
        name_processor(&mut self.processors, event)?;
        note_armed(self.alloc, &mut self.armed, event)?;
        self.most_armed = (self.armed.len() as u64).max(self.most_armed);
        Ok(())
    }

    /// How many events of each kind there were.
    pub fn counts(&self) -> EventCounts
        ensures { result ≡ self.now.counts }
    {
        self.counts
    }

    /// How many timers at most were known to be armed at once.
    pub fn most_armed(&self) -> u64
        ensures { result ≡ self.now.most_armed }
    {
        self.most_armed
    }

    /// Of each processor on which a timer expired the latest expiries, by the processors' numbers.
    pub fn latest(&self) -> &BTreeMap<u32, Latest>
        ensures { result.now ≡ self.now.latest }
    {
        &self.latest
    }
}
