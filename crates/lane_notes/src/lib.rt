//! What lanes note of their calls, the record that is made of all notes, and what lanes share and leave.
#![tactic(auto)]

pub use entries::note_receipts;
pub use lane::{Lane, WorldPass};
pub use notes::{BaseNote, EntryNote, LookNote, Notes, ObjectNote, SkipNote, WriteNote};
pub use objects::note_object_receipts;
pub use record::record_of;

mod entries;
mod filing;
mod lane;
mod lines;
mod notes;
mod object_entries;
mod objects;
mod placed;
mod record;
