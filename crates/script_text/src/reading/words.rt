//! The clock, the mode or the number that a word spells.
ghost use Rattle.std.specs.Prelude.{◌≡◌, ◌≤◌, length, MatchOption};
ghost use Rattle.std.specs.Str.Parse.{AllDigits, digits_value};
ghost use Rattle.script_text.specs.Reading.{number_in, clock_in, mode_in, value_in};

use crate::form::{Field, Value};
use crate::refusal::Cause;
use ktime::{ClockId, LAST_TIME, Mode};

/// How many digits the end of time has.
const MOST_DIGITS: usize = 19;

/// The number that the bytes of a word write, if each of them is a digit.
fn number_by_digits(word: &[u8]) -> Option<u64>
    requires { length word.now ≤ 19 }
    ensures { MatchOption result (AllDigits 10 word.now → ⊥) (λ n. AllDigits 10 word.now × (n ≡ digits_value 10 word.now)) }
{
    let mut n = 0;
    for byte in word {
        if !byte.is_ascii_digit() {
            return None;
        }
        n = 10 * n + u64::from(*byte - b'0');
    }
    Some(n)
}

/// The number that this word spells, if it is at most the end of time.
pub fn number(word: &[u8]) -> Option<u64>
    ensures { result ≡ number_in word.now }
{
    if word == b"0".as_slice() {
        return Some(0);
    }
    if word.is_empty() {
        return None;
    }
    if word.len() > MOST_DIGITS {
        return None;
    }
    if word[0] < b'1' {
        return None;
    }
    let n = number_by_digits(word)?;
    if n > LAST_TIME {
        return None;
    }
    Some(n)
}

#[tactic(auto, unfolding(crate::specs::Reading::clock_in))]
pub fn clock(word: &[u8]) -> Option<ClockId>
    ensures { result ≡ clock_in word.now }
{
    if word == b"monotonic".as_slice() {
        Some(ClockId::Monotonic)
    } else if word == b"realtime".as_slice() {
        Some(ClockId::Realtime)
    } else if word == b"boottime".as_slice() {
        Some(ClockId::Boottime)
    } else {
        None
    }
}

#[tactic(auto, unfolding(crate::specs::Reading::mode_in))]
pub fn mode(word: &[u8]) -> Option<Mode>
    ensures { result ≡ mode_in word.now }
{
    if word == b"rel".as_slice() {
        Some(Mode::Rel)
    } else if word == b"abs".as_slice() {
        Some(Mode::Abs)
    } else {
        None
    }
}

/// What this word fills a field with.
#[tactic(auto, unfolding(crate::specs::Reading::word_in))]
pub fn value(field: Field, word: &[u8]) -> Result<Value, Cause>
    ensures { result ≡ value_in field word.now }
{
    match field {
        Field::Clock => Ok(Value::Clock(clock(word).ok_or(Cause::UnknownWord)?)),
        Field::Mode => Ok(Value::Mode(mode(word).ok_or(Cause::UnknownWord)?)),
        _ => Ok(Value::Number(number(word).ok_or(Cause::BadNumber)?)),
    }
}
