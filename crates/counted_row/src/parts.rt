//! What a row's table is made of.
ghost use Rattle.std.specs.Prelude.{◌≡◌, Some, IfOk, map, replicate};
ghost use Rattle.counted_row.specs.Places.{row_word_at};

use crate::cell::ValueCell;
use std::alloc::{AllocError, Global};

/// The words for so many values, each 0.
pub fn zeros(alloc: Global, count: usize) -> Result<Vec<u64>, AllocError>
    ensures { IfOk result (λ v. v.items ≡ replicate (row_word_at count) 0) }
{
    if count >= usize::MAX / 16 {
        return Err(AllocError);
    }
    Ok(vec![in alloc; 0u64; 16 * count + 16]?)
}

/// Each value in a slot of its own.
pub fn filled<O: Drop>(alloc: Global, values: Vec<O>) -> Result<Vec<ValueCell<O>>, AllocError>
    ensures { IfOk result (λ v. v.items ≡ map Some values.items) }
{
    values
        .into_iter()
        .map(|value: O| ValueCell::of(value))
        .collect(alloc)
}
