//! Clocks and modes.
ghost use Rattle.std.specs.Prelude.{◌≡◌};
ghost use Rattle.trace_text.specs.Fields.{clock_named, context_by, context_numbered, mode_field, mode_named, mode_numbered, mode_with};

use crate::numbers::number;
use ktime::{ClockId, Mode};
use seq_timer::Context;

/// How a timer is set up: with absolute or relative times, and in which context, where that is told.
#[derive(Clone, Copy, Debug, PartialEq, Eq)]
pub struct TimerMode {
    pub mode: Mode,
    pub context: Option<Context>,
}

/// The clock of this name, among those that the model has.
#[tactic(auto, unfolding(crate::specs::Fields::clock_named))]
pub fn clock(word: &[u8]) -> Option<ClockId>
    ensures { result ≡ clock_named word.now }
{
    if word == b"CLOCK_MONOTONIC".as_slice() {
        Some(ClockId::Monotonic)
    } else if word == b"CLOCK_REALTIME".as_slice() {
        Some(ClockId::Realtime)
    } else if word == b"CLOCK_BOOTTIME".as_slice() {
        Some(ClockId::Boottime)
    } else {
        None
    }
}

/// The context that a mode tells behind `ABS` or `REL` and `|PINNED`, where it tells one.
#[tactic(auto, unfolding(crate::specs::Fields::context_by))]
fn context(rest: &[u8]) -> Option<Option<Context>>
    ensures { result ≡ context_by rest.now }
{
    if rest == b"".as_slice() {
        Some(None)
    } else if rest == b"|SOFT".as_slice() {
        Some(Some(Context::Soft))
    } else if rest == b"|HARD".as_slice() {
        Some(Some(Context::Hard))
    } else {
        None
    }
}

/// A mode behind `ABS` or `REL`.
fn with(mode: Mode, rest: &[u8]) -> Option<TimerMode>
    ensures { result ≡ mode_with mode rest.now }
{
    let context = context(rest.strip_prefix(b"|PINNED").unwrap_or(rest))?;
    Some(TimerMode { mode, context })
}

/// The context that a mode's number tells, by what of it is above `HRTIMER_MODE_REL` and `HRTIMER_MODE_PINNED`.
#[tactic(auto, unfolding(crate::specs::Fields::context_numbered))]
fn context_of(n: u64) -> Option<Option<Context>>
    ensures { result ≡ context_numbered n }
{
    match n {
        0 => Some(None),
        1 => Some(Some(Context::Soft)),
        2 => Some(Some(Context::Hard)),
        _ => None,
    }
}

/// A mode by its number (`enum hrtimer_mode`).
fn numbered(n: u64) -> Option<TimerMode>
    ensures { result ≡ mode_numbered n }
{
    let context = context_of(n / 4)?;
    let mode = if n % 2 == 0 { Mode::Abs } else { Mode::Rel };
    Some(TimerMode { mode, context })
}

/// A mode as `decode_hrtimer_mode` prints it.
fn named(word: &[u8]) -> Option<TimerMode>
    ensures { result ≡ mode_named word.now }
{
    if let Some(rest) = word.strip_prefix(b"ABS") {
        if let Some(mode) = with(Mode::Abs, rest) {
            return Some(mode);
        }
    }
    with(Mode::Rel, word.strip_prefix(b"REL")?)
}

/// A mode by its name, as tracefs prints it, or by its number, as perf does.
pub fn mode(word: &[u8]) -> Option<TimerMode>
    ensures { result ≡ mode_field word.now }
{
    if let Some(mode) = named(word) {
        return Some(mode);
    }
    numbered(number(16, u64::MAX, word.strip_prefix(b"0x")?)?)
}
