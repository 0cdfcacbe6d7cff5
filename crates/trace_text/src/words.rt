//! The words of a line.
ghost use Rattle.std.specs.Prelude.{◌≡◌, IfOk, map};
ghost use Rattle.trace_text.specs.Words.{trace_words};

use std::alloc::{AllocError, Global};

/// What stands between the spaces of a line.
pub fn words(alloc: Global, line: &[u8]) -> Result<Vec<&[u8]>, AllocError>
    ensures { IfOk result (λ v. map (λ w. w.now) v.items ≡ trace_words line.now) }
{
    line.split(|b| *b == b' ')
        .filter(|w| !w.is_empty())
        .collect(alloc)
}
