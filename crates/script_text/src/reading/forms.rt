//! The form that the words of a line choose.
ghost use Rattle.std.specs.Prelude.{◌≡◌, ◌&&◌, bytes_eq, codes, drop, map};
ghost use Rattle.record_text.specs.declared.version.Version.TheVariants as versions;
ghost use Rattle.script_text.specs.Forms.{has_form, comes_by};
ghost use Rattle.script_text.specs.Reading.{begins_with_digit, find_form_by_first, form_in, find_form};

use crate::form::{CALLS, Form, PLAIN, RAW, SOFT, comes_by};
use crate::refusal::Cause;
use record_text::Version;

/// Whether this word names a form of this version, by the form's name.
fn is_named(version: Version, word: &[u8], name: &[u8], form: Form) -> bool
    ensures { result ≡ (bytes_eq word.now name.now && has_form version form) }
{
    word == name && form.is_in(version)
}

/// The form that a word names among these, in this version.
fn find_form(version: Version, forms: &[(&[u8], Form)], word: &[u8]) -> Result<Form, Cause>
    ensures { result ≡ find_form version (map (λ f. (f.0.now, f.1)) forms.now) word.now }
{
    for (name, form) in forms {
        if is_named(version, word, name, *form) {
            return Ok(*form);
        }
    }
    Err(Cause::UnknownWord)
}

/// The form that the word at a position of a line names among these.
fn find_form_at(
    version: Version,
    forms: &[(&[u8], Form)],
    words: &[&[u8]],
    at: usize,
) -> Result<Form, Cause>
    ensures { result
        ≡ find_form_by_first version (map (λ f. (f.0.now, f.1)) forms.now) (drop at (map (λ w. w.now) words.now)) }
{
    match words.get(at) {
        Some(word) => find_form(version, forms, word),
        None => Err(Cause::WordCount),
    }
}

#[tactic(auto, unfolding(crate::specs::Reading::begins_with_digit))]
fn begins_with_digit(word: &[u8]) -> bool
    ensures { result ≡ begins_with_digit word.now }
{
    word.first().is_some_and(|b| b.is_ascii_digit())
}

/// Whether this word begins a soft timer's line, in a version that has such lines.
fn begins_soft(version: Version, word: &[u8]) -> bool
    ensures { result ≡ (bytes_eq word.now (codes "soft") && comes_by versions.Two version) }
{
    word == b"soft".as_slice() && comes_by(Version::Two, version)
}

/// The form of a line of these words in this version.
pub fn form(version: Version, words: &[&[u8]]) -> Result<Form, Cause>
    ensures { result ≡ form_in version (map (λ w. w.now) words.now) }
{
    let Some(first) = words.first() else {
        return Err(Cause::WordCount);
    };
    if begins_with_digit(first) {
        return find_form_at(version, CALLS, words, 1);
    }
    if *first == b"raw".as_slice() {
        return find_form_at(version, RAW, words, 3);
    }
    if begins_soft(version, first) {
        return find_form_at(version, SOFT, words, 3);
    }
    find_form_at(version, PLAIN, words, 0)
}
