//! The words of an object's entries.
ghost use Rattle.std.specs.Prelude.{◌≡◌, ◌<◌, ◌^◌, ◌++◌, ◌∷◌, [], OnOk};
ghost use Rattle.std.specs.Fmt.{decimal};
ghost use Rattle.record_text.specs.Numbers.{armed_number, rearming_numbers, object_entry_numbers, sleeping_numbers, AreMachineNumbers};
ghost use Rattle.record_text.specs.Answers.{answer_numbers, answer_words};
ghost use Rattle.record_text.specs.Text.{armed_word, rearming_words, sleeping_words, spaced, object_entry_words};

use crate::record::{Answer, Armed, ObjectEntry};
use crate::writing::sections::HasWords;
use crate::writing::text_buffer::TextBuffer;
use crate::writing::words::{counted_word, write_numbers, write_word};
use std::alloc::AllocError;

impl HasWords for ObjectEntry {
    ghost words = { object_entry_words };

    ghost numbers = { object_entry_numbers };

    fn write_words(&self, out: &mut TextBuffer) -> Result<(), AllocError> {
        match *self {
            ObjectEntry::Settime {
                flags,
                value,
                interval,
                reading,
                arm,
                reply,
            } => {
                write_word(out, "settime", &[flags, value, interval])?;
                write_outcome(out, reading, arm, &reply.answer())?;
            }
            ObjectEntry::Trigger {
                generation,
                reading,
                counted,
            } => {
                write_word(out, "trigger", &[generation, reading])?;
                write_word(out, counted_word(counted), &[])?;
            }
            ObjectEntry::Overflow {
                generation,
                reading,
            } => {
                write_word(out, "trigger", &[generation, reading])?;
                write_word(out, "full", &[])?;
            }
            _ => write_rearming(out, self)?,
        }
        Ok(())
    }
}

/// Writes the words of an entry of a call that arms an expired timer again, or of a sleeper's call.
fn write_rearming(out: &mut TextBuffer, entry: &ObjectEntry) -> Result<(), AllocError>
    ensures text { OnOk result (out.new ≡ out.old ++ spaced (rearming_words entry.now)) }
    ensures numbers { OnOk result (AreMachineNumbers (rearming_numbers entry.now)) }
{
    match *entry {
        ObjectEntry::Accept {
            reading,
            arm,
            reply,
        } => {
            write_word(out, "accept", &[])?;
            write_outcome(out, reading, arm, &reply.answer())?;
        }
        ObjectEntry::Read {
            reading,
            arm,
            reply,
        } => {
            write_word(out, "read", &[])?;
            write_outcome(out, reading, arm, &reply.answer())?;
        }
        ObjectEntry::Gettime {
            reading,
            arm,
            left,
            interval,
        } => {
            write_word(out, "gettime", &[reading])?;
            write_armed(out, arm)?;
            write_numbers(out, &[left, interval])?;
        }
        _ => write_sleeping(out, entry)?,
    }
    Ok(())
}

/// Writes the words of an entry of a sleeper's call. It writes nothing for another entry.
fn write_sleeping(out: &mut TextBuffer, entry: &ObjectEntry) -> Result<(), AllocError>
    ensures text { OnOk result (out.new ≡ out.old ++ spaced (sleeping_words entry.now)) }
    ensures numbers { OnOk result (AreMachineNumbers (sleeping_numbers entry.now)) }
{
    match *entry {
        ObjectEntry::Sleep {
            flags,
            time,
            reading,
            arm,
            reply,
        } => {
            write_word(out, "sleep", &[flags, time])?;
            write_outcome(out, reading, arm, &reply.answer())?;
        }
        ObjectEntry::Interrupt { reading, reply } => {
            write_word(out, "interrupt", &[reading])?;
            reply.answer().write_words(out)?;
        }
        _ => {}
    }
    Ok(())
}

/// Writes what came of a call: its reading, what it made of the object's timer, and its answer.
fn write_outcome(
    out: &mut TextBuffer,
    reading: u64,
    arm: Armed,
    answer: &Answer,
) -> Result<(), AllocError>
    ensures text { OnOk result (out.new ≡ out.old ++ spaced (decimal reading ∷ armed_word arm ∷ answer_words answer.now)) }
    ensures numbers { OnOk result (AreMachineNumbers (reading ∷ armed_number arm ∷ answer_numbers answer.now)) }
{
    write_numbers(out, &[reading])?;
    write_armed(out, arm)?;
    answer.write_words(out)?;
    Ok(())
}

fn write_armed(out: &mut TextBuffer, arm: Armed) -> Result<(), AllocError>
    ensures text { OnOk result (out.new ≡ out.old ++ spaced (armed_word arm ∷ [])) }
    ensures numbers { OnOk result (armed_number arm < 2 ^ 128) }
{
    match arm {
        Armed::None => write_word(out, "none", &[])?,
        Armed::Generation { generation } => write_numbers(out, &[generation])?,
        Armed::Unarmed => write_word(out, "unarmed", &[])?,
    }
    Ok(())
}
