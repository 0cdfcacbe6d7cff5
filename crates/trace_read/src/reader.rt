//! Reads a text line by line.
ghost use Rattle.std.specs.Prelude.{◌≡◌, ◌||◌, ◌++◌, ◌∷◌, [], List, ℕ, IfOk, OnOk, Option, Some, None, MatchOption};
ghost use Rattle.trace_read.specs.declared.verdict.Verdict.{Verdict};
ghost use Rattle.trace_read.specs.Lines.{event_told, has_timer_event, is_of_timer, known_after, line_verdict, verdict_on};
ghost use Rattle.trace_read.specs.Readers.{HasTaken, IsTallied, ReadsOn, HasReadSoFar, told_by};
ghost use Rattle.trace_read.specs.Tallies.{IsTallyOf, onto_past};
ghost use Rattle.trace_text.specs.declared.event.KernelEvent.{KernelEvent};
ghost use Rattle.trace_check.specs.Checkers.{HoldsKnowledge};
ghost use Rattle.trace_check.specs.Knowledge.{Knowledge};
ghost use Rattle.trace_text.specs.Reading.{event_line};

use crate::tally::Tally;
use crate::verdict::Verdict;
use std::alloc::{AllocError, Global};
use trace_check::Checker;
use trace_text::{KernelEvent, read_line};

/// Whether an event is a timer's, and no loss.
fn is_of_timer(event: &KernelEvent) -> bool
    ensures { result ≡ is_of_timer event.now }
{
    !matches!(event, KernelEvent::Lost)
}

/// What was read of a text: the line that was begun, its number, and what the lines before it tell.
#[derive(Drop)]
pub struct Reader {
    begun: Vec<u8>,
    number: u64,
    events: u64,
    /// One of the events is of a timer.
    timed: bool,
    checker: Checker,
    tally: Tally,
    alloc: Global,
}

impl Reader {
    /// Nothing was read yet.
    pub fn new(alloc: Global) -> Reader
        ensures { HasReadSoFar result verdict_on told_by }
    {
        Reader {
            begun: Vec::new(alloc),
            number: 1,
            events: 0,
            timed: false,
            checker: Checker::new(alloc),
            tally: Tally::new(alloc),
            alloc,
        }
    }

    /// The answer to the line that was begun, where it can't be read or no history shows it; else the checker has taken it.
    fn judge(&mut self) -> Result<Option<Verdict>, AllocError>
        ensures answer { (k : Knowledge) (past : List KernelEvent) → HoldsKnowledge self.old.checker k → self.old.events ≡ k.count → IsTallyOf self.old.tally past → IfOk result (λ v. (v ≡ line_verdict self.old.number k (event_line self.old.begun.items)) × (v ≡ None → HasTaken self.new (known_after k (event_line self.old.begun.items)) (self.old.timed || has_timer_event (event_told (event_line self.old.begun.items))) (onto_past past (event_told (event_line self.old.begun.items))))) }
        ensures number { self.new.number ≡ self.old.number }
        ensures begun { self.new.begun ≡ self.old.begun }
    {
        let line = self.number;
        let event = match read_line(self.alloc, &self.begun)? {
            Ok(Some(event)) => event,
            Ok(None) => return Ok(None),
            Err(what) => return Ok(Some(Verdict::Unreadable { line, what })),
        };
        if let Some(cause) = self.checker.step(event)? {
            return Ok(Some(Verdict::Refused { line, cause }));
        }
        if self.events == u64::MAX {
            return Err(AllocError);
        }
        self.events += 1;
        self.timed = self.timed || is_of_timer(&event);
        self.tally.note(&event)?;
        Ok(None)
    }

    /// Takes the newline that ends the line that was begun.
    fn end_line(&mut self) -> Result<Option<Verdict>, AllocError>
        ensures { (answer : List ℕ → Verdict) (told : List ℕ → List KernelEvent) → HasReadSoFar self.old answer told → IfOk result (λ v. ReadsOn v self.new answer told (10 ∷ [])) }
    {
        if let Some(verdict) = self.judge()? {
            return Ok(Some(verdict));
        }
        if self.number == u64::MAX {
            return Err(AllocError);
        }
        self.number += 1;
        self.begun.clear();
        Ok(None)
    }

    /// Takes one more byte of the line that was begun.
    fn take_byte(&mut self, byte: u8) -> Result<(), AllocError>
        ensures { (answer : List ℕ → Verdict) (told : List ℕ → List KernelEvent) → HasReadSoFar self.old answer told → (byte ≡ 10 → ⊥) → OnOk result (HasReadSoFar self.new (λ rest. answer (byte ∷ rest)) (λ rest. told (byte ∷ rest))) }
    {
        self.begun.push(byte)?;
        Ok(())
    }

    /// Takes more of the text. There is an answer where no more of it is to be read.
    pub fn take(&mut self, piece: &[u8]) -> Result<Option<Verdict>, AllocError>
        ensures { (answer : List ℕ → Verdict) (told : List ℕ → List KernelEvent) → HasReadSoFar self.old answer told → IfOk result (λ v. ReadsOn v self.new answer told piece.now) }
    {
        for byte in piece {
            if *byte != b'\n' {
                self.take_byte(*byte)?;
                continue;
            }
            if let Some(verdict) = self.end_line()? {
                return Ok(Some(verdict));
            }
        }
        Ok(None)
    }

    /// The answer to the text, where no more of it comes.
    pub fn end(&mut self) -> Result<Verdict, AllocError>
        ensures { (answer : List ℕ → Verdict) (told : List ℕ → List KernelEvent) → HasReadSoFar self.old answer told → IfOk result (λ v. (answer [] ≡ v) × IsTallied v self.new.tally (told [])) }
    {
        if let Some(verdict) = self.judge()? {
            return Ok(verdict);
        }
        Ok(if self.timed {
            Verdict::Fits {
                events: self.events,
            }
        } else {
            Verdict::NoEvents
        })
    }

    /// The answer to the text, where this is all that comes.
    pub fn take_last(&mut self, piece: &[u8]) -> Result<Verdict, AllocError>
        ensures { (answer : List ℕ → Verdict) (told : List ℕ → List KernelEvent) → HasReadSoFar self.old answer told → IfOk result (λ v. (answer piece.now ≡ v) × IsTallied v self.new.tally (told piece.now)) }
    {
        match self.take(piece)? {
            Some(verdict) => Ok(verdict),
            None => self.end(),
        }
    }

    /// What the events so far were, by numbers.
    pub fn tally(&self) -> &Tally
        ensures { result.now ≡ self.now.tally }
    {
        &self.tally
    }

    /// The same, where no more is to be read.
    pub fn into_tally(self) -> Tally
        ensures { result ≡ self.tally }
    {
        let Reader { tally, .. } = self;
        tally
    }
}
