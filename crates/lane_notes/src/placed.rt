//! The order of notes: by the list that they belong to, the number there, and the label.
ghost use Rattle.std.specs.Prelude.{◌≡◌};
ghost use Rattle.std.specs.List.Sorted.{IsPermutation};
ghost use Rattle.lane_notes.specs.Sorted.{Place, StandInOrder, place_parts, place_of_base, place_of_entry, place_of_look, place_of_object, place_of_skip, place_of_write};

use crate::notes::{BaseNote, EntryNote, LookNote, ObjectNote, SkipNote, WriteNote};
use record_text::Label;

/// A note that belongs to a list, at a number of it.
pub(crate) trait Placed: Copy + Drop {
    ghost place: { Self → Place };

    /// The list, the number there, and the label of the note's call.
    fn place(&self) -> (u32, u64, Label)
        ensures { result ≡ place_parts (place self.now) };
}

impl Placed for EntryNote {
    ghost place = { place_of_entry };

    fn place(&self) -> (u32, u64, Label) {
        (self.timer, self.number, self.label)
    }
}

impl Placed for LookNote {
    ghost place = { place_of_look };

    fn place(&self) -> (u32, u64, Label) {
        (self.timer, self.number, self.label)
    }
}

impl Placed for ObjectNote {
    ghost place = { place_of_object };

    fn place(&self) -> (u32, u64, Label) {
        (self.object, self.number, self.label)
    }
}

impl Placed for SkipNote {
    ghost place = { place_of_skip };

    fn place(&self) -> (u32, u64, Label) {
        (self.object, self.number, self.label)
    }
}

impl Placed for BaseNote {
    ghost place = { place_of_base };

    fn place(&self) -> (u32, u64, Label) {
        (self.base, self.number, self.label)
    }
}

impl Placed for WriteNote {
    ghost place = { place_of_write };

    fn place(&self) -> (u32, u64, Label) {
        (0, self.stamp, self.line.label)
    }
}

/// Puts notes in their order.
pub(crate) fn sort<T: Placed>(notes: &mut Vec<T>)
    ensures same { IsPermutation notes.old.items notes.new.items }
    ensures order { StandInOrder T.place notes.new.items }
{
    notes.sort_unstable_by_key(|note| {
        let (list, number, label) = note.place();
        (list, number, label.lane, label.call)
    });
}
