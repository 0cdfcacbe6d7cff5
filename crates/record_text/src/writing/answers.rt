//! The words of answers.
ghost use Rattle.std.specs.Prelude.{◌≡◌, ◌++◌, ◌∷◌, OnOk, codes, length, map};
ghost use Rattle.std.specs.Fmt.{decimal};
ghost use Rattle.record_text.specs.Numbers.{AreMachineNumbers};
ghost use Rattle.record_text.specs.Answers.{answer_numbers, object_answer_numbers, shift_answer_numbers, signal_answer_numbers, sleeper_answer_numbers, answer_words, object_answer_words, shift_answer_words, signal_answer_words, sleeper_answer_words};
ghost use Rattle.record_text.specs.Text.{spaced};

use crate::item_list::ItemList;
use crate::record::Answer;
use crate::writing::sections::HasWords;
use crate::writing::text_buffer::TextBuffer;
use crate::writing::words::write_word;
use std::alloc::AllocError;

impl HasWords for Answer {
    ghost words = { answer_words };

    ghost numbers = { answer_numbers };

    fn write_words(&self, out: &mut TextBuffer) -> Result<(), AllocError> {
        match *self {
            Answer::ClockSpent => write_word(out, "clockspent", &[])?,
            Answer::Started {
                generation,
                base,
                was_armed,
            } => write_word(out, "started", &[generation, base.into(), was_armed.into()])?,
            Answer::Spent { stamp } => write_word(out, "spent", &[stamp])?,
            Answer::Cancelled { generation } => write_word(out, "cancelled", &[generation])?,
            Answer::Running { generation, stamp } => write_word(
                out,
                "running",
                &[generation, stamp],
            )?,
            Answer::Idle { stamp } => write_word(out, "idle", &[stamp])?,
            Answer::Peek {
                stamp,
                base,
                enqueued,
                running,
                moving,
            } => {
                let state = [
                    stamp,
                    base.into(),
                    enqueued.into(),
                    running.into(),
                    moving.into(),
                ];
                write_word(out, "peek", &state)?;
            }
            Answer::Done { reading, ref fired } => write_run(out, "done", reading, fired)?,
            Answer::More { reading, ref fired } => write_run(out, "more", reading, fired)?,
            Answer::Busy {
                reading,
                ref fired,
                timer,
                generation,
            } => write_busy(out, reading, timer, generation, fired)?,
            Answer::Clock { stamp } => write_word(out, "clock", &[stamp])?,
            Answer::Range { would_be } => {
                write_word(out, "range", &[])?;
                out.write_wide(would_be)?;
            }
            _ => write_shift_answer(out, self)?,
        }
        Ok(())
    }
}

/// Writes the words of an answer to a call that takes a base off line or on line again, or to an object's call.
fn write_shift_answer(out: &mut TextBuffer, answer: &Answer) -> Result<(), AllocError>
    ensures text { OnOk result (out.new ≡ out.old ++ spaced (shift_answer_words answer.now)) }
    ensures numbers { OnOk result (AreMachineNumbers (shift_answer_numbers answer.now)) }
{
    match *answer {
        Answer::Offline { moved, stamp } => write_word(out, "off", &[moved, stamp])?,
        Answer::OfflineBusy {
            moved,
            timer,
            generation,
        } => write_word(out, "busy", &[moved, timer.into(), generation])?,
        Answer::OfflineMore { moved } => write_word(out, "more", &[moved])?,
        Answer::OfflineSpent {
            moved,
            timer,
            stamp,
        } => write_word(out, "spent", &[moved, timer.into(), stamp])?,
        Answer::Already { stamp } => write_word(out, "already", &[stamp])?,
        Answer::HeirOffline { stamp } => write_word(out, "heiroff", &[stamp])?,
        Answer::BaseSpent { stamp } => write_word(out, "basespent", &[stamp])?,
        Answer::Online { stamp } => write_word(out, "on", &[stamp])?,
        _ => write_object_answer(out, answer)?,
    }
    Ok(())
}

/// Writes the words of what a call of a POSIX timer or a descriptor alone is answered, or of a sleeper's call.
fn write_object_answer(out: &mut TextBuffer, answer: &Answer) -> Result<(), AllocError>
    ensures text { OnOk result (out.new ≡ out.old ++ spaced (object_answer_words answer.now)) }
    ensures numbers { OnOk result (AreMachineNumbers (object_answer_numbers answer.now)) }
{
    match *answer {
        Answer::Old { left, interval } => write_word(out, "old", &[left, interval])?,
        Answer::Canceled => write_word(out, "canceled", &[])?,
        Answer::Unarmed { stamp } => write_word(out, "unarmed", &[stamp])?,
        Answer::Invalid => write_word(out, "einval", &[])?,
        Answer::LeftAt {
            left,
            interval,
            reading,
            stamp,
        } => write_word(out, "left", &[left, interval, reading, stamp])?,
        Answer::Left { left, interval } => write_word(out, "left", &[left, interval])?,
        Answer::Accepted { overrun } => write_word(out, "accepted", &[overrun])?,
        Answer::NoSignal => write_word(out, "nosignal", &[])?,
        Answer::Overrun { overrun, stamp } => write_word(out, "overrun", &[overrun, stamp])?,
        Answer::Count { total } => write_word(out, "count", &[total])?,
        Answer::Again => write_word(out, "again", &[])?,
        Answer::Readable {
            ready,
            reading,
            stamp,
        } => write_word(out, "readable", &[ready.into(), reading, stamp])?,
        _ => write_sleeper_answer(out, answer)?,
    }
    Ok(())
}

/// Writes the words of what a sleeper's call alone is answered, or a call that takes a signal of the queue.
fn write_sleeper_answer(out: &mut TextBuffer, answer: &Answer) -> Result<(), AllocError>
    ensures text { OnOk result (out.new ≡ out.old ++ spaced (sleeper_answer_words answer.now)) }
    ensures numbers { OnOk result (AreMachineNumbers (sleeper_answer_numbers answer.now)) }
{
    match *answer {
        Answer::Asleep => write_word(out, "asleep", &[])?,
        Answer::Slept => write_word(out, "done", &[])?,
        Answer::Occupied { stamp } => write_word(out, "occupied", &[stamp])?,
        Answer::SleepLeft { ns } => write_word(out, "left", &[ns])?,
        Answer::Interrupted => write_word(out, "interrupted", &[])?,
        Answer::Sleeping { stamp } => write_word(out, "sleeping", &[stamp])?,
        Answer::SleptAt { stamp } => write_word(out, "done", &[stamp])?,
        Answer::Awake { stamp } => write_word(out, "awake", &[stamp])?,
        _ => write_signal_answer(out, answer)?,
    }
    Ok(())
}

/// Writes the words of what a call that takes a signal of the queue is answered. It writes nothing for another answer.
fn write_signal_answer(out: &mut TextBuffer, answer: &Answer) -> Result<(), AllocError>
    ensures text { OnOk result (out.new ≡ out.old ++ spaced (signal_answer_words answer.now)) }
    ensures numbers { OnOk result (AreMachineNumbers (signal_answer_numbers answer.now)) }
{
    match *answer {
        Answer::Signal {
            timer,
            number,
            overrun,
        } => write_word(out, "signal", &[timer.into(), number, overrun])?,
        Answer::StaleSignal { timer, number } => {
            write_word(out, "stale", &[timer.into(), number])?
        }
        Answer::SpentSignal { timer, number } => {
            write_word(out, "spent", &[timer.into(), number])?
        }
        Answer::NoneQueued => write_word(out, "empty", &[])?,
        _ => {}
    }
    Ok(())
}

/// Writes what an expiry run did that met no running timer: this word, its reading, and the timers that fired.
fn write_run(
    out: &mut TextBuffer,
    word: &str,
    reading: u64,
    fired: &ItemList<u32>,
) -> Result<(), AllocError>
    ensures text { OnOk result (out.new ≡ out.old ++ spaced (word.now ∷ decimal (length fired.now) ∷ decimal reading ∷ map decimal fired.now)) }
    ensures numbers { OnOk result (AreMachineNumbers (length fired.now ∷ reading ∷ fired.now)) }
{
    let fired = fired.as_slice();
    write_word(out, word, &[fired.len() as u64, reading])?;
    write_fired(out, fired)?;
    Ok(())
}

/// Writes what an expiry run did that met this running timer.
fn write_busy(
    out: &mut TextBuffer,
    reading: u64,
    timer: u32,
    generation: u64,
    fired: &ItemList<u32>,
) -> Result<(), AllocError>
    ensures text { OnOk result (out.new ≡ out.old ++ spaced (codes "busy" ∷ decimal (length fired.now) ∷ decimal reading ∷ decimal timer ∷ decimal generation ∷ map decimal fired.now)) }
    ensures numbers { OnOk result (AreMachineNumbers (length fired.now ∷ reading ∷ timer ∷ generation ∷ fired.now)) }
{
    let fired = fired.as_slice();
    let met = [fired.len() as u64, reading, timer.into(), generation];
    write_word(out, "busy", &met)?;
    write_fired(out, fired)?;
    Ok(())
}

/// Writes the timers that fired, each after a space.
fn write_fired(out: &mut TextBuffer, fired: &[u32]) -> Result<(), AllocError>
    ensures text { OnOk result (out.new ≡ out.old ++ spaced (map decimal fired.now)) }
    ensures numbers { OnOk result (AreMachineNumbers fired.now) }
{
    for timer in fired {
        out.write_number((*timer).into())?;
    }
    Ok(())
}
