//! Words and numbers in a record's text, and the names of versions, clocks, modes, writes and outcomes.
ghost use Rattle.std.specs.Prelude.{◌≡◌, ◌++◌, ◌∷◌, OnOk, map};
ghost use Rattle.std.specs.Fmt.{decimal};
ghost use Rattle.record_text.specs.Numbers.{AreMachineNumbers};
ghost use Rattle.record_text.specs.Text.{counted_word, restart_word, spaced, write_ns, write_name};
ghost use Rattle.record_text.specs.Words.{clock_word, mode_word, version_word};

use crate::version::Version;
use crate::writing::text_buffer::TextBuffer;
use ktime::{ClockId, Mode, Write};
use std::alloc::AllocError;

/// Writes a word and numbers behind it, each after a space.
#[inline(always)]
pub(crate) fn write_word(
    out: &mut TextBuffer,
    word: &str,
    numbers: &[u64],
) -> Result<(), AllocError>
    ensures text { OnOk result (out.new ≡ out.old ++ spaced (word.now ∷ map decimal numbers.now)) }
    ensures numbers { OnOk result (AreMachineNumbers numbers.now) }
{
    out.write_bytes(b" ")?;
    out.write_bytes(word.as_bytes())?;
    write_numbers(out, numbers)
}

/// Writes numbers, each after a space.
#[inline(always)]
pub(crate) fn write_numbers(out: &mut TextBuffer, numbers: &[u64]) -> Result<(), AllocError>
    ensures text { OnOk result (out.new ≡ out.old ++ spaced (map decimal numbers.now)) }
    ensures numbers { OnOk result (AreMachineNumbers numbers.now) }
{
    for number in numbers {
        out.write_number(*number)?;
    }
    Ok(())
}

pub(crate) fn version_word(version: Version) -> &'static str
    ensures { result.now ≡ version_word version }
{
    match version {
        Version::One => "1",
        Version::Two => "2",
    }
}

pub(crate) fn clock_word(clock: ClockId) -> &'static str
    ensures { result.now ≡ clock_word clock }
{
    match clock {
        ClockId::Monotonic => "monotonic",
        ClockId::Realtime => "realtime",
        ClockId::Boottime => "boottime",
    }
}

pub(crate) fn mode_word(mode: Mode) -> &'static str
    ensures { result.now ≡ mode_word mode }
{
    match mode {
        Mode::Abs => "abs",
        Mode::Rel => "rel",
        Mode::Keep => "keep",
    }
}

pub(crate) fn write_name(write: Write) -> &'static str
    ensures { result.now ≡ write_name write }
{
    match write {
        Write::Advance { .. } => "advance",
        Write::Set { .. } => "set",
        Write::Suspend { .. } => "suspend",
    }
}

pub(crate) fn write_ns(write: Write) -> u64
    ensures { result ≡ write_ns write }
{
    match write {
        Write::Advance { by } | Write::Suspend { by } => by,
        Write::Set { to } => to,
    }
}

pub(crate) fn restart_word(asked: bool) -> &'static str
    ensures { result.now ≡ restart_word asked }
{
    if asked { "again" } else { "stop" }
}

pub(crate) fn counted_word(counted: bool) -> &'static str
    ensures { result.now ≡ counted_word counted }
{
    if counted { "counted" } else { "stale" }
}
