//! What passes of a row know, as plain data.
use pass_names::PassId;
use seq_timer::{SystemEntry, TimerState};
use std::collections::LinkedList;

/// A claim that a pass has: a timer, the generation that runs, and the base. No value of it is made.
pub struct Claimed {
    pub timer: u64,
    pub generation: u64,
    pub base: u64,
}

/// A base whose lock is held, with what it has. No value of it is made.
pub struct HeldContent<B> {
    pub base: u64,
    /// The base's lock word while it is held.
    pub word: u64,
    pub content: B,
}

/// What was made: so many bases, these timers, so many counters, and rings.
pub struct Opening {
    pub bases: u64,
    pub timers: LinkedList<TimerState>,
    pub counters: u64,
    /// How much room each ring has. It has two counters more: how much was put in, and how much was taken off.
    pub rings: LinkedList<u64>,
}

/// What a pass knows. No value of it is made.
pub struct BaseView<B> {
    pub id: PassId,
    pub opening: Opening,
    /// The beginning of the history of all timers and bases that was seen.
    pub seen: LinkedList<SystemEntry>,
    /// What a pass that was taken in had seen, until this pass looks again.
    pub heard: LinkedList<SystemEntry>,
    /// The places of the pass's own entries: a timer, and the entry's number among the timer's. Bases are numbered on behind the timers.
    pub mine: LinkedList<(u64, u64)>,
    pub claims: LinkedList<Claimed>,
    pub held: Option<HeldContent<B>>,
    pub carry: Option<u64>,
    /// The pass's own takes: a base, and the take's number.
    pub takes: LinkedList<(u64, u64)>,
    /// For each base the newest lock word that the pass knows.
    pub met: LinkedList<u64>,
}
