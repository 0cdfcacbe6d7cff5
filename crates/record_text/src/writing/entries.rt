//! The words of a base's and of a timer's entries, and of what callbacks were told in place of one.
ghost use Rattle.std.specs.Prelude.{◌≡◌, ◌++◌, ◌∷◌, [], OnOk};
ghost use Rattle.seq_timer.specs.declared.event.EventBy.TheVariants as events;
ghost use Rattle.seq_timer.specs.declared.event.Reply.TheVariants as replies;
ghost use Rattle.record_text.specs.Numbers.{AreMachineNumbers, shift_numbers, told_numbers};
ghost use Rattle.record_text.specs.Text.{entry_numbers, entry_words, event_parts, numbers_in, reply_parts, shift_words, spaced, told_words, words_of};

use crate::record::{CallbackReply, Entry};
use crate::version::Version;
use crate::writing::sections::HasWords;
use crate::writing::text_buffer::TextBuffer;
use crate::writing::words::{clock_word, mode_word, restart_word, write_numbers, write_word};
use seq_timer::{AskedBy, BaseEvent, EventBy, Moved, Placement, Reply, Restarted};
use std::alloc::AllocError;

impl HasWords for BaseEvent {
    ghost words = { shift_words };

    ghost numbers = { shift_numbers };

    fn write_words(&self, out: &mut TextBuffer) -> Result<(), AllocError> {
        match *self {
            BaseEvent::Offline { heir } => write_word(out, "offline", &[heir.into()])?,
            BaseEvent::Online => write_word(out, "online", &[])?,
        }
        Ok(())
    }
}

/// Writes an entry as a record of this version shows it.
#[tactic(auto, using(crate::proofs::RecordTexts::spaced_both, crate::proofs::RecordTexts::machine_numbers_both))]
pub(crate) fn write_entry(
    out: &mut TextBuffer,
    version: Version,
    entry: &Entry,
) -> Result<(), AllocError>
    ensures text { OnOk result (out.new ≡ out.old ++ spaced (entry_words version entry.now)) }
    ensures numbers { OnOk result (AreMachineNumbers (entry_numbers entry.now)) }
{
    write_event(out, version, &entry.event)?;
    write_reply(out, version, &entry.reply)?;
    Ok(())
}

/// Writes what happened.
fn write_event(
    out: &mut TextBuffer,
    version: Version,
    event: &EventBy<u64>,
) -> Result<(), AllocError>
    ensures text { OnOk result (out.new ≡ out.old ++ spaced (words_of version (event_parts event.now))) }
    ensures numbers { OnOk result (AreMachineNumbers (numbers_in (event_parts event.now))) }
{
    match *event {
        EventBy::Out { base } => write_word(out, "out", &[base.into()])?,
        EventBy::Start(asked) => write_asked(out, version, asked)?,
        EventBy::Cancel => write_word(out, "cancel", &[])?,
        EventBy::Claim { base, reading } => write_word(out, "claim", &[base.into(), reading])?,
        EventBy::Forward { reading, interval } => write_word(out, "forward", &[reading, interval])?,
        EventBy::Finish { restart } => {
            write_word(out, "finish", &[])?;
            write_word(out, restart_word(restart), &[])?;
        }
    }
    Ok(())
}

/// Writes what a start was asked for.
fn write_asked(
    out: &mut TextBuffer,
    version: Version,
    asked: AskedBy<u64>,
) -> Result<(), AllocError>
    ensures text { OnOk result (out.new ≡ out.old ++ spaced (words_of version (event_parts (events.Start asked)))) }
    ensures numbers { OnOk result (AreMachineNumbers (numbers_in (event_parts (events.Start asked)))) }
{
    let AskedBy {
        mode,
        ns,
        slack,
        reading,
        base,
    } = asked;
    let (mode, base) = (mode_word(mode), base.into());
    write_word(out, "start", &[])?;
    match version {
        Version::One => write_word(out, mode, &[ns, reading, base])?,
        Version::Two => write_word(out, mode, &[ns, slack, reading, base])?,
    }
    Ok(())
}

/// Writes what an event came to.
fn write_reply(out: &mut TextBuffer, version: Version, reply: &Reply) -> Result<(), AllocError>
    ensures text { OnOk result (out.new ≡ out.old ++ spaced (words_of version (reply_parts reply.now))) }
    ensures numbers { OnOk result (AreMachineNumbers (numbers_in (reply_parts reply.now))) }
{
    match *reply {
        Reply::Out { was_armed } => write_numbers(out, &[was_armed.into()])?,
        Reply::Start {
            placement,
            was_armed,
        } => write_placement(out, version, placement, was_armed)?,
        Reply::Cancel { generation } | Reply::Claim { generation } => {
            write_numbers(out, &[generation])?;
        }
        Reply::Forward { moved } => write_moved(out, version, moved)?,
        Reply::Finish {
            generation,
            restarted,
        } => write_finished(out, version, generation, restarted)?,
    }
    Ok(())
}

/// Writes what a start came to.
fn write_placement(
    out: &mut TextBuffer,
    version: Version,
    placement: Placement,
    was_armed: bool,
) -> Result<(), AllocError>
    ensures text { OnOk result (out.new ≡ out.old ++ spaced (words_of version (reply_parts (replies.Start placement was_armed)))) }
    ensures numbers { OnOk result (AreMachineNumbers (numbers_in (reply_parts (replies.Start placement was_armed)))) }
{
    let Placement {
        base,
        clock,
        soft,
        expires,
    } = placement;
    let (clock, was) = (clock_word(clock), was_armed.into());
    write_numbers(out, &[base.into()])?;
    match version {
        Version::One => write_word(out, clock, &[expires, was])?,
        Version::Two => write_word(out, clock, &[soft, expires, was])?,
    }
    Ok(())
}

/// Writes what a forward came to.
fn write_moved(out: &mut TextBuffer, version: Version, moved: Moved) -> Result<(), AllocError>
    ensures text { OnOk result (out.new ≡ out.old ++ spaced (words_of version (reply_parts (replies.Forward moved)))) }
    ensures numbers { OnOk result (AreMachineNumbers (numbers_in (reply_parts (replies.Forward moved)))) }
{
    let Moved {
        count,
        soft,
        expires,
    } = moved;
    match version {
        Version::One => write_numbers(out, &[count, expires])?,
        Version::Two => write_numbers(out, &[count, soft, expires])?,
    }
    Ok(())
}

/// Writes what a finish came to.
fn write_finished(
    out: &mut TextBuffer,
    version: Version,
    generation: u64,
    restarted: Restarted,
) -> Result<(), AllocError>
    ensures text { OnOk result (out.new ≡ out.old ++ spaced (words_of version (reply_parts (replies.Finish generation restarted)))) }
    ensures numbers { OnOk result (AreMachineNumbers (numbers_in (reply_parts (replies.Finish generation restarted)))) }
{
    write_numbers(out, &[generation])?;
    match restarted {
        Restarted::No => write_word(out, "none", &[])?,
        Restarted::Again { generation: again } => write_numbers(out, &[again])?,
        Restarted::Spent => write_word(out, "spent", &[])?,
    }
    Ok(())
}

impl HasWords for CallbackReply {
    ghost words = { told_words };

    ghost numbers = { told_numbers };

    fn write_words(&self, out: &mut TextBuffer) -> Result<(), AllocError> {
        match *self {
            CallbackReply::Running { generation } => write_word(out, "running", &[generation])?,
            CallbackReply::Armed { generation } => write_word(out, "armed", &[generation])?,
            CallbackReply::Spent => write_word(out, "spent", &[])?,
        }
        Ok(())
    }
}
