//! Bytes cut at one of them: a script into its lines, a line into its words.
ghost use Rattle.std.specs.Prelude.{◌≡◌, ◌==◌, ◌++◌, IfOk, OnOk, map};
ghost use Rattle.std.specs.List.{slice_split};
ghost use Rattle.script_text.specs.Reading.{words_in};

use smallvec::SmallVec;
use std::alloc::{AllocError, Global};

/// The words of a line. Eight of them, as many as any line has that is read, take no memory.
pub type Words<'a> = SmallVec<&'a [u8], 8>;

/// The parts before, between and after these bytes.
pub fn split_at(alloc: Global, bytes: &[u8], at: u8) -> Result<Vec<&[u8]>, AllocError>
    ensures { IfOk result (λ v. map (λ x. x.now) v.items ≡ slice_split (λ b. b == at) bytes.now) }
{
    bytes.split(|b| *b == at).collect(alloc)
}

/// Puts the words of a line, which is cut at its spaces, behind those that are there.
pub fn cut<'a>(line: &'a [u8], words: &mut Words<'a>) -> Result<(), AllocError>
    ensures { OnOk result (map (λ x. x.now) words.new.items ≡ map (λ x. x.now) words.old.items ++ words_in line.now) }
{
    let mut start = 0;
    for (at, byte) in line.iter().enumerate() {
        if *byte != b' ' {
            continue;
        }
        words.push(&line[start..at])?;
        start = at + 1;
    }
    words.push(&line[start..])?;
    Ok(())
}
