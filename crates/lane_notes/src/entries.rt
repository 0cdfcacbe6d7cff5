//! The notes of a lane's receipts of timers: an entry's receipt becomes an entry's note, a look's one a look's note.
ghost use Rattle.std.specs.Prelude.{◌≡◌, ◌∷◌, [], OnOk};
ghost use Rattle.lane_notes.specs.Entries.{look_noted, with_receipts};

use crate::notes::{EntryNote, LookNote, Notes};
use hr_timers::{Noted, Receipt};
use record_text::{CallbackReply, Entry, Label};
use seq_timer::Observation;
use std::alloc::AllocError;

/// Adds the notes of a call's receipts.
pub fn note_receipts(
    notes: &mut Notes,
    label: Label,
    receipts: &[Receipt],
) -> Result<(), AllocError>
    ensures { OnOk result (notes.new ≡ with_receipts notes.old label receipts.now) }
{
    for receipt in receipts {
        note_receipt(notes, label, receipt)?;
    }
    Ok(())
}

/// Adds the note of one receipt.
fn note_receipt(notes: &mut Notes, label: Label, receipt: &Receipt) -> Result<(), AllocError>
    ensures { OnOk result (notes.new ≡ with_receipts notes.old label (receipt.now ∷ [])) }
{
    let timer = receipt.timer;
    let number = receipt.number;
    match receipt.reply {
        Noted::Entry(reply) => {
            let event = receipt.event.stamped();
            notes.entries.push(EntryNote {
                label,
                timer,
                number,
                entry: Entry { event, reply },
            })?;
        }
        Noted::Look(observation) => {
            let Some(reply) = look_noted(observation) else {
                return Ok(());
            };
            notes.looks.push(LookNote {
                label,
                timer,
                number,
                reply,
            })?;
        }
    }
    Ok(())
}

/// What a callback was told by a look.
fn look_noted(observation: Observation) -> Option<CallbackReply>
    ensures { result ≡ look_noted observation }
{
    match observation {
        Observation::Running { generation } => Some(CallbackReply::Running { generation }),
        Observation::Armed { generation } => Some(CallbackReply::Armed { generation }),
        Observation::Spent => Some(CallbackReply::Spent),
        Observation::Peek(_) | Observation::Idle => None,
    }
}
