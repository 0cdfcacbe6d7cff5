//! Reads one line by itself.
ghost use Rattle.std.specs.Prelude.{◌≡◌, IfOk, MatchResult, Ok, Err, map};
ghost use Rattle.std.specs.List.{list_any};
ghost use Rattle.script_text.specs.Forms.{row};
ghost use Rattle.script_text.specs.Reading.{line_of_form, is_bad_byte, is_empty_word, line_in, values_in};

use crate::form::{Form, Line};
use crate::reading::cutting::{Words, cut};
use crate::reading::forms::form;
use crate::reading::words::value;
use crate::refusal::Cause;
use crate::value_list::ValueList;
use record_text::Version;
use std::alloc::{AllocError, Global};

/// Puts what these words fill the fields of a form with in place of what is in a list.
fn fill(
    form: Form,
    words: &[&[u8]],
    values: &mut ValueList,
) -> Result<Result<(), Cause>, AllocError>
    ensures { IfOk result (λ r. MatchResult r (λ u. values_in (row form) (map (λ w. w.now) words.now) ≡ Ok values.new)
        (λ cause. values_in (row form) (map (λ w. w.now) words.now) ≡ Err cause)) }
{
    values.clear();
    for (field, word) in form.fields().iter().zip(words) {
        let Some(field) = field else {
            continue;
        };
        match value(*field, word) {
            Ok(v) => values.push(v)?,
            Err(cause) => return Ok(Err(cause)),
        }
    }
    Ok(Ok(()))
}

/// Puts the line of a form that these words spell in place of another.
fn fill_line(form: Form, words: &[&[u8]], line: &mut Line) -> Result<Result<(), Cause>, AllocError>
    ensures { IfOk result (λ r. MatchResult r (λ u. line_of_form form (map (λ w. w.now) words.now) ≡ Ok line.new)
        (λ cause. line_of_form form (map (λ w. w.now) words.now) ≡ Err cause)) }
{
    if words.len() != form.fields().len() {
        return Ok(Err(Cause::WordCount));
    }
    line.form = form;
    fill(form, words, &mut line.values)
}

/// Whether a byte among these is no letter, digit, sign or space.
fn has_bad_byte(line: &[u8]) -> bool
    ensures { result ≡ list_any is_bad_byte line.now }
{
    line.iter().any(|b| *b < b' ' || *b > b'~')
}

/// Whether a word is empty, as one is beside a space too many.
fn has_empty_word(words: &[&[u8]]) -> bool
    ensures { result ≡ list_any is_empty_word (map (λ w. w.now) words.now) }
{
    words.iter().any(|word| word.is_empty())
}

/// Puts the line that these bytes spell in this version in place of another, or says the first cause that refuses them and needs
/// no line before them.
pub fn read_line(
    alloc: Global,
    version: Version,
    bytes: &[u8],
    line: &mut Line,
) -> Result<Result<(), Cause>, AllocError>
    ensures { IfOk result (λ r. MatchResult r (λ u. line_in version bytes.now ≡ Ok line.new) (λ cause. line_in version bytes.now ≡ Err cause)) }
{
    if has_bad_byte(bytes) {
        return Ok(Err(Cause::BadByte));
    }
    let mut words = Words::new(alloc);
    cut(bytes, &mut words)?;
    if has_empty_word(&words) {
        return Ok(Err(Cause::BadSpace));
    }
    match form(version, &words) {
        Ok(form) => fill_line(form, &words, line),
        Err(cause) => Ok(Err(cause)),
    }
}
