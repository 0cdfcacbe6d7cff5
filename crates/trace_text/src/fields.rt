//! The fields behind an event's name.
ghost use Rattle.std.specs.Prelude.{◌≡◌, map, option_map};
ghost use Rattle.trace_text.specs.Fields.{field, time_field, timer_field, was_armed_of};

use crate::numbers::number;
use crate::unreadable::Unreadable;
use ktime::LAST_TIME;

/// What a field says: what stands behind its key in the first word that has it.
pub fn field<'a>(key: &[u8], words: &[&'a [u8]]) -> Option<&'a [u8]>
    ensures { option_map (λ w. w.now) result ≡ field key.now (map (λ w. w.now) words.now) }
{
    for word in words {
        if let Some(value) = word.strip_prefix(key) {
            return Some(value);
        }
    }
    None
}

/// The timer's address.
pub fn timer(words: &[&[u8]]) -> Result<u64, Unreadable>
    ensures { result ≡ timer_field (map (λ w. w.now) words.now) }
{
    let Some(word) = field(b"hrtimer=", words) else {
        return Err(Unreadable::Timer);
    };
    number(16, u64::MAX, word.strip_prefix(b"0x").unwrap_or(word)).ok_or(Unreadable::Timer)
}

/// The time that a field says.
pub fn time(key: &[u8], cause: Unreadable, words: &[&[u8]]) -> Result<u64, Unreadable>
    ensures { result ≡ time_field key.now cause (map (λ w. w.now) words.now) }
{
    let Some(word) = field(key, words) else {
        return Err(cause);
    };
    number(10, LAST_TIME, word).ok_or(cause)
}

/// Whether the timer was queued before, where that is told.
#[tactic(auto, unfolding(crate::specs::Fields::was_armed_in))]
pub fn was_armed(words: &[&[u8]]) -> Result<Option<bool>, Unreadable>
    ensures { result ≡ was_armed_of (map (λ w. w.now) words.now) }
{
    let Some(word) = field(b"was_armed=", words) else {
        return Ok(None);
    };
    if word == b"0".as_slice() {
        Ok(Some(false))
    } else if word == b"1".as_slice() {
        Ok(Some(true))
    } else {
        Err(Unreadable::WasArmed)
    }
}
