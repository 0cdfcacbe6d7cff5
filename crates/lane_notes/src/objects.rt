//! The notes of a lane's receipts of objects: an entry's receipt becomes an object's note, that of an expiry which a full history refused
//! becomes a skip's note.
ghost use Rattle.std.specs.Prelude.{◌≡◌, ◌∷◌, [], OnOk};
ghost use Rattle.lane_notes.specs.Objects.{with_object_receipts};

use crate::notes::{Notes, ObjectNote, SkipNote};
use crate::object_entries::told;
use record_text::Label;
use std::alloc::AllocError;
use timer_objects::ObjectReceipt;

/// Adds the notes of a call's receipts.
pub fn note_object_receipts(
    notes: &mut Notes,
    label: Label,
    receipts: &[ObjectReceipt],
) -> Result<(), AllocError>
    ensures { OnOk result (notes.new ≡ with_object_receipts notes.old label receipts.now) }
{
    for receipt in receipts {
        note_object_receipt(notes, label, receipt)?;
    }
    Ok(())
}

/// Adds the note of one receipt.
fn note_object_receipt(
    notes: &mut Notes,
    label: Label,
    receipt: &ObjectReceipt,
) -> Result<(), AllocError>
    ensures { OnOk result (notes.new ≡ with_object_receipts notes.old label (receipt.now ∷ [])) }
{
    let object = receipt.object;
    let number = receipt.number;
    let (entry, skipped) = told(receipt.call, receipt.reply);
    if let Some(entry) = entry {
        notes.objects.push(ObjectNote {
            label,
            object,
            number,
            entry,
        })?;
    }
    if let Some(generation) = skipped {
        notes.skips.push(SkipNote {
            label,
            object,
            number,
            generation,
        })?;
    }
    Ok(())
}
