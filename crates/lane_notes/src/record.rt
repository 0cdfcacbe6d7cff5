//! The record that is made of all lanes' notes.
ghost use Rattle.std.specs.Prelude.{◌≡◌, IfOk};
ghost use Rattle.lane_notes.specs.Notes.{NotesOf};
ghost use Rattle.lane_notes.specs.Sorted.{IsSortedFrom};
ghost use Rattle.lane_notes.specs.Records.{base_line, look_of, object_line, record_from, skip_of, timer_line};

use crate::lines::{Lined, Shown, items_of, items_of_lists, lines_of_lists};
use crate::notes::{BaseNote, EntryNote, LookNote, Notes, ObjectNote, SkipNote, WriteNote};
use crate::placed::sort;
use record_text::{
    Answer, BaseLine, ClockLine, ItemList, Look, ObjectLine, RunRecord, Skip, TimerLine, Version,
};
use std::alloc::{AllocError, Global};

/// The record of all notes, of this version, with so many bases and timers and with the answers of each lane. A note of a base or a timer past
/// them is left out, and so is a look or a skip at a number that has no line.
pub fn record_of(
    alloc: Global,
    version: Version,
    notes: Notes,
    bases: usize,
    timers: usize,
    answers: Vec<ItemList<Answer>>,
) -> Result<RunRecord, AllocError>
    ensures { IfOk result (λ r. (sorted : NotesOf) × IsSortedFrom notes sorted × (r ≡ record_from version sorted bases timers answers.items)) }
{
    let notes = sorted(notes);
    Ok(RunRecord {
        version,
        clock: items_of(alloc, &notes.writes)?,
        bases: items_of_lists(alloc, &notes.bases, bases)?,
        timers: lines_of_lists(alloc, &notes.entries, &notes.looks, timers)?,
        objects: lines_of_lists(alloc, &notes.objects, &notes.skips, timers)?,
        answers: ItemList::from_vec(answers),
    })
}

/// The notes of each kind in their order.
fn sorted(notes: Notes) -> Notes
    ensures { IsSortedFrom notes result }
{
    let mut notes = notes;
    sort(&mut notes.entries);
    sort(&mut notes.looks);
    sort(&mut notes.objects);
    sort(&mut notes.skips);
    sort(&mut notes.bases);
    sort(&mut notes.writes);
    notes
}

impl Lined for EntryNote {
    type Under = LookNote;

    type Line = TimerLine;

    ghost line = { timer_line };

    fn line(&self, alloc: Global, looks: &[LookNote]) -> Result<TimerLine, AllocError> {
        let looks = items_of(alloc, looks)?;
        Ok(TimerLine {
            label: self.label,
            entry: self.entry,
            looks,
        })
    }
}

impl Lined for ObjectNote {
    type Under = SkipNote;

    type Line = ObjectLine;

    ghost line = { object_line };

    fn line(&self, alloc: Global, skips: &[SkipNote]) -> Result<ObjectLine, AllocError> {
        let skips = items_of(alloc, skips)?;
        Ok(ObjectLine {
            label: self.label,
            entry: self.entry,
            skips,
        })
    }
}

impl Shown for LookNote {
    type Item = Look;

    ghost item = { look_of };

    fn item(&self) -> Look {
        Look {
            label: self.label,
            reply: self.reply,
        }
    }
}

impl Shown for SkipNote {
    type Item = Skip;

    ghost item = { skip_of };

    fn item(&self) -> Skip {
        Skip {
            label: self.label,
            generation: self.generation,
        }
    }
}

impl Shown for BaseNote {
    type Item = BaseLine;

    ghost item = { base_line };

    fn item(&self) -> BaseLine {
        BaseLine {
            label: self.label,
            event: self.event,
        }
    }
}

impl Shown for WriteNote {
    type Item = ClockLine;

    ghost item = { λ note. note.line };

    fn item(&self) -> ClockLine {
        self.line
    }
}
