//! Reads a script, line after line.
ghost use Rattle.std.specs.Prelude.{◌≡◌, ◌<◌, ◌^◌, IfOk, IfErr, OnOk, MatchResult, Ok, Err, map, length};
ghost use Rattle.script_text.specs.Scripts.{Reads, without_empty_tail, is_skipped};
ghost use Rattle.script_text.specs.Drafts.{IsWithinLimits, empty};
ghost use Rattle.script_text.specs.Refusals.{Gives, IsReason, IsRefused, script_from, script_in, with_line_in};
ghost use Rattle.script_text.specs.declared.refusal.Refused.{Refused};
ghost use Rattle.script_text.specs.declared.script.Script.{Script};

use crate::form::{Form, Line};
use crate::reading::cutting::split_at;
use crate::reading::drafts::Draft;
use crate::reading::lines::read_line;
use crate::reading::placing::check_line;
use crate::refusal::{Cause, ParseError, Refused};
use crate::script::Script;
use crate::value_list::ValueList;
use std::alloc::{AllocError, Global};

/// How many bytes a script may have.
const MOST_BYTES: usize = 1048576;

/// Reads a script, or says which line is refused and why.
pub fn parse(alloc: Global, bytes: &[u8]) -> Result<Script, ParseError>
    ensures script { IfOk result (λ s. Reads bytes.now s) }
    ensures refusal { IfErr result (λ e. IsReason bytes.now e) }

    // What is read is given, and what is refused is refused, unless memory runs out.
    ensures reads { (s : Script) → Reads bytes.now s → Gives result (Ok s) }
    ensures refuses { (r : Refused) → IsRefused bytes.now r → Gives result (Err r) }
{
    match read_script(alloc, bytes)? {
        Ok(script) => Ok(script),
        Err(refused) => Err(ParseError::Refused(refused)),
    }
}

#[tactic(auto, unfolding(crate::specs::Refusals::script_in))]
fn read_script(alloc: Global, bytes: &[u8]) -> Result<Result<Script, Refused>, AllocError>
    ensures { IfOk result (λ r. r ≡ script_in bytes.now) }
{
    if bytes.len() > MOST_BYTES {
        return Ok(Err(Refused {
            line: 0,
            cause: Cause::TooLong,
        }));
    }
    let parts = split_at(alloc, bytes, b'\n')?;
    read_lines(alloc, without_empty_tail(&parts))
}

/// The lines among the parts between newlines: the last part is none if it is empty.
fn without_empty_tail<'a, 'b>(parts: &'a [&'b [u8]]) -> &'a [&'b [u8]]
    ensures { map (λ l. l.now) result.now ≡ without_empty_tail (map (λ p. p.now) parts.now) }
{
    let [lines @ .., last] = parts else {
        return parts;
    };
    if last.is_empty() {
        return lines;
    }
    parts
}

/// The script of these lines, or the first that is refused.
fn read_lines(alloc: Global, lines: &[&[u8]]) -> Result<Result<Script, Refused>, AllocError>
    requires { length lines.now < 2 ^ 31 }
    ensures { IfOk result (λ r. r ≡ script_from 1 empty (map (λ l. l.now) lines.now)) }
{
    let mut draft = Draft::new(alloc);
    let mut place = Line {
        form: Form::Round,
        values: ValueList::new(alloc),
    };
    let mut number = 0;
    for line in lines {
        number += 1;
        if is_skipped(line) {
            continue;
        }
        if let Err(cause) = add_line(alloc, &mut draft, line, &mut place)? {
            return Ok(Err(Refused {
                line: number,
                cause,
            }));
        }
    }
    if draft.headers < 4 {
        return Ok(Err(Refused {
            line: number + 1,
            cause: Cause::Unfinished,
        }));
    }
    Ok(Ok(draft.script()?))
}

/// An empty line, and one that begins with `#`, are skipped.
fn is_skipped(line: &[u8]) -> bool
    ensures { result ≡ is_skipped line.now }
{
    match line {
        [] => true,
        [first, ..] => *first == b'#',
    }
}

/// Adds what one more line tells, or says the first cause that refuses it. What the line was read as stays in its place.
#[tactic(auto, unfolding(crate::specs::Refusals::with_line_in))]
fn add_line(
    alloc: Global,
    draft: &mut Draft,
    bytes: &[u8],
    line: &mut Line,
) -> Result<Result<(), Cause>, AllocError>
    requires { IsWithinLimits draft.old }
    ensures added { IfOk result (λ r. MatchResult r (λ u. with_line_in draft.old bytes.now ≡ Ok draft.new) (λ cause. with_line_in draft.old bytes.now ≡ Err cause)) }
    ensures room { IfOk result (λ r. OnOk r (IsWithinLimits draft.new)) }
{
    if let Err(cause) = read_line(alloc, draft.version, bytes, line)? {
        return Ok(Err(cause));
    }
    if let Some(cause) = check_line(draft, line) {
        return Ok(Err(cause));
    }
    draft.add(alloc, line)?;
    Ok(Ok(()))
}
