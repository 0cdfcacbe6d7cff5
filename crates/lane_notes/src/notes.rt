//! The notes of a lane, each with the label of its call.
ghost use Rattle.std.specs.Prelude.{◌≡◌, ◌++◌, [], OnOk};
ghost use Rattle.lane_notes.specs.Notes.{both_noted, no_notes, with_base_note, with_write_note};

use record_text::{CallbackReply, ClockLine, Entry, Label, ObjectEntry};
use seq_timer::BaseEvent;
use std::alloc::{AllocError, Global};
use std::marker::Model;

/// An entry of a timer, with its number among the timer's, from 1.
#[derive(Clone, Copy, Debug, PartialEq, Eq, Drop)]
pub struct EntryNote {
    pub label: Label,
    pub timer: u32,
    pub number: u64,
    pub entry: Entry,
}

/// What a callback was told of its timer after so many entries.
#[derive(Clone, Copy, Debug, PartialEq, Eq, Drop)]
pub struct LookNote {
    pub label: Label,
    pub timer: u32,
    pub number: u64,
    pub reply: CallbackReply,
}

/// An entry of an object, with its number among the object's, from 1.
#[derive(Clone, Copy, Debug, PartialEq, Eq, Drop)]
pub struct ObjectNote {
    pub label: Label,
    pub object: u32,
    pub number: u64,
    pub entry: ObjectEntry,
}

/// An expiry of this generation that an object refused after so many entries, its history being full.
#[derive(Clone, Copy, Debug, PartialEq, Eq, Drop)]
pub struct SkipNote {
    pub label: Label,
    pub object: u32,
    pub number: u64,
    pub generation: u64,
}

/// An entry of a base, with its number among the base's, from 1.
#[derive(Clone, Copy, Debug, PartialEq, Eq, Drop)]
pub struct BaseNote {
    pub label: Label,
    pub base: u32,
    pub number: u64,
    pub event: BaseEvent,
}

/// A write that the clock took, with the clock's stamp after it.
#[derive(Clone, Copy, Debug, PartialEq, Eq, Drop)]
pub struct WriteNote {
    pub stamp: u64,
    pub line: ClockLine,
}

/// Notes in the order in which they were made.
#[derive(Drop)]
pub struct Notes {
    pub entries: Vec<EntryNote>,
    pub looks: Vec<LookNote>,
    pub objects: Vec<ObjectNote>,
    pub skips: Vec<SkipNote>,
    pub bases: Vec<BaseNote>,
    pub writes: Vec<WriteNote>,
}

impl Model for Notes {
    ghost use Rattle.lane_notes.specs.Notes.{NotesOf, notes_of};

    ghost Value = { NotesOf };

    ghost view = { λ n. notes_of n.entries.items n.looks.items n.objects.items n.skips.items n.bases.items n.writes.items };
}

impl Notes {
    /// No notes. It takes no memory.
    pub fn new(alloc: Global) -> Notes
        ensures { result ≡ no_notes }
    {
        Notes {
            entries: Vec::new(alloc),
            looks: Vec::new(alloc),
            objects: Vec::new(alloc),
            skips: Vec::new(alloc),
            bases: Vec::new(alloc),
            writes: Vec::new(alloc),
        }
    }

    /// Adds the other's notes, of each kind behind those that are there. A list of the other's is taken as it is where there is none here.
    pub fn append(&mut self, other: Notes) -> Result<(), AllocError>
        ensures { OnOk result (self.new ≡ both_noted self.old other) }
    {
        join(&mut self.entries, other.entries)?;
        join(&mut self.looks, other.looks)?;
        join(&mut self.objects, other.objects)?;
        join(&mut self.skips, other.skips)?;
        join(&mut self.bases, other.bases)?;
        join(&mut self.writes, other.writes)
    }

    /// Adds an entry of a base.
    pub fn note_base(&mut self, note: BaseNote) -> Result<(), AllocError>
        ensures { OnOk result (self.new ≡ with_base_note self.old note) }
    {
        self.bases.push(note)?;
        Ok(())
    }

    /// Adds a write of the clock.
    pub fn note_write(&mut self, stamp: u64, line: ClockLine) -> Result<(), AllocError>
        ensures { OnOk result (self.new ≡ with_write_note self.old stamp line) }
    {
        self.writes.push(WriteNote { stamp, line })?;
        Ok(())
    }
}

/// Adds items behind those that are there; where there are none, the new list is taken as it is.
fn join<T: Copy + Drop>(list: &mut Vec<T>, more: Vec<T>) -> Result<(), AllocError>
    ensures { OnOk result (list.new.items ≡ list.old.items ++ more.items) }
{
    if list.is_empty() {
        *list = more;
        return Ok(());
    }
    list.extend_from_slice(&more)?;
    Ok(())
}
