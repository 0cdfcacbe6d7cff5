//! A log of a caller's own entries and looks.
ghost use Rattle.std.specs.Prelude.{◌≡◌, ◌≤◌, ◌<◌, ◌+◌, ℕ, [], ◌∷◌, ◌++◌, length, OnOk, OnErr};
ghost use Rattle.base_row.specs.declared.log.Noted.TheVariants as noteds;

use seq_timer::{Event, Observation, Reply};
use std::alloc::{AllocError, Global};
use std::marker::Model;

/// What an event answered, or what was seen of the timer in place of an entry.
#[derive(Clone, Copy, Debug, PartialEq, Eq)]
pub enum Noted {
    Entry(Reply),
    Look(Observation),
}

/// An entry of a timer, with its number among the timer's; or a look at the timer, with the stamp at which it stands.
#[derive(Clone, Copy, Debug, PartialEq, Eq)]
pub struct Receipt {
    pub timer: u32,
    pub number: u64,
    pub event: Event,
    pub reply: Noted,
}

/// Receipts of some kind in order, with room for more.
#[derive(Drop)]
pub struct ReceiptLog<T: Drop> {
    receipts: Vec<T>,
    spare: usize,
}

/// Receipts of timers' entries.
pub type Log = ReceiptLog<Receipt>;

impl<T: Drop> Model for ReceiptLog<T> {
    ghost use Rattle.std.specs.Prelude.{◌≤◌, ◌+◌, vec_len, vec_capacity};
    ghost use Rattle.base_row.specs.Logs.{LogOf};

    ghost Value = { LogOf T };

    ghost view = { λ l. record { receipts = l.receipts.items; spare = l.spare } };

    ghost invariant = { λ l. vec_len l.receipts + l.spare ≤ vec_capacity l.receipts };
}

impl<T: Drop> ReceiptLog<T> {
    /// A log without receipts. It takes no memory.
    pub fn make(alloc: Global) -> Self
        ensures { result ≡ record { receipts = []; spare = 0 } }
    {
        ReceiptLog {
            receipts: Vec::new(alloc),
            spare: 0,
        }
    }

    /// Sets the room to so many receipts behind those that are there.
    pub fn reserve(&mut self, count: usize) -> Result<(), AllocError>
        ensures ok { OnOk result ((self.new.receipts ≡ self.old.receipts) × (self.new.spare ≡ count)) }
        ensures err { OnErr result (self.new ≡ self.old) }
    {
        self.receipts.reserve(count)?;
        self.spare = count;
        Ok(())
    }

    /// For how many more receipts there is room.
    pub fn spare(&self) -> usize
        ensures { result ≡ self.now.spare }
    {
        self.spare
    }

    /// Adds a receipt in the room that was made. It takes no memory.
    pub fn push(&mut self, receipt: T)
        requires room { 0 < self.old.spare }
        ensures receipts { self.new.receipts ≡ self.old.receipts ++ receipt ∷ [] }
        ensures spare { self.new.spare + 1 ≡ self.old.spare }
    {
        self.receipts.push_reserved(receipt);
        self.spare -= 1;
    }

    /// Takes all receipts out. Their room is spare again, so one who clears the log after each run needs no more memory.
    pub fn clear(&mut self)
        ensures receipts { self.new.receipts ≡ [] }
        ensures spare { self.new.spare ≡ self.old.spare + length self.old.receipts }
    {
        let cleared = self.receipts.len();
        self.receipts.clear();
        self.spare += cleared;
    }

    /// The receipts, in the order in which they were noted.
    pub fn receipts(&self) -> &[T]
        ensures { result.now ≡ self.now.receipts }
    {
        self.receipts.as_slice()
    }
}

impl ReceiptLog<Receipt> {
    /// Adds a receipt of a look in the room that was made: what was seen of the timer at this stamp, where the event made no entry. It takes
    /// no memory.
    pub fn note_look(&mut self, timer: u32, stamp: u64, event: Event, observation: Observation)
        requires room { 0 < self.old.spare }
        ensures receipts { self.new.receipts ≡ self.old.receipts ++ record { timer = timer; number = stamp; event = event; reply = noteds.Look observation } ∷ [] }
        ensures spare { self.new.spare + 1 ≡ self.old.spare }
    {
        self.push(receipt_of(timer, stamp, event, Noted::Look(observation)));
    }
}

fn receipt_of(timer: u32, number: u64, event: Event, reply: Noted) -> Receipt
    ensures { result ≡ record { timer = timer; number = number; event = event; reply = reply } }
{
    Receipt {
        timer,
        number,
        event,
        reply,
    }
}

/// Where the receipts of entries go.
pub trait ReceiptSink {
    ghost use Rattle.base_row.specs.declared.log.Receipt.{Receipt};

    /// With one receipt more.
    ghost pushed: { Self → Receipt → Self };

    /// For how many more there is room.
    ghost room: { Self → ℕ };

    /// Takes the receipt of an entry.
    fn note(&mut self, timer: u32, number: u64, event: Event, reply: Reply)
        requires spare { 0 < room self.old }
        ensures takes { self.new ≡ pushed self.old (record { timer = timer; number = number; event = event; reply = noteds.Entry reply }) }
        ensures leaves { room self.old ≤ room self.new + 1 };
}

/// Keeps no receipts. It has always room for as many as a call on a timer makes.
#[derive(Clone, Copy, Drop)]
pub struct Unlogged;

impl ReceiptSink for Unlogged {
    ghost pushed = { λ s receipt. s };

    ghost room = { λ s. 8589934592 };

    fn note(&mut self, timer: u32, number: u64, event: Event, reply: Reply) {
        let _ = (timer, number, event, reply);
    }
}

impl ReceiptSink for Log {
    ghost use Rattle.base_row.specs.Logs.{kept};

    ghost pushed = { kept };

    ghost room = { λ l. l.spare };

    fn note(&mut self, timer: u32, number: u64, event: Event, reply: Reply) {
        self.push(receipt_of(timer, number, event, Noted::Entry(reply)));
    }
}
