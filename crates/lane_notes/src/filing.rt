//! Notes put into lists, by the number of the list that they belong to or by the number in it.
ghost use Rattle.std.specs.Prelude.{◌≡◌, ◌+◌, filter, replicate, [], IfOk, OnOk};
ghost use Rattle.lane_notes.specs.Records.{each_below, filed_at, is_filed_at, put_in_list};

use crate::placed::Placed;
use record_text::ItemList;
use std::alloc::{AllocError, Global};

/// By what notes are put into lists.
#[derive(Clone, Copy)]
pub(crate) enum By {
    List,
    Number,
}

/// The notes of each list, or of each number, from 0 to `last`. A note past them is left out.
pub(crate) fn filed<T: Placed>(
    alloc: Global,
    notes: &[T],
    last: usize,
    by: By,
) -> Result<Vec<ItemList<T>>, AllocError>
    ensures { IfOk result (λ lists. lists.items ≡ each_below (λ j. filter (is_filed_at T.place by j) notes.now) (last + 1)) }
{
    let mut lists = empty_lists(alloc, last)?;
    for note in notes {
        put(&mut lists, place_by(note, by), *note)?;
    }
    Ok(lists)
}

/// Where a note is put.
fn place_by<T: Placed>(note: &T, by: By) -> usize
    ensures { result ≡ filed_at by (T.place note.now) }
{
    let (list, number, _) = note.place();
    match by {
        By::List => list as usize,
        By::Number => number as usize,
    }
}

/// Adds an item to the list at this place, if there is one.
fn put<T: Drop>(lists: &mut Vec<ItemList<T>>, place: usize, item: T) -> Result<(), AllocError>
    ensures { OnOk result (lists.new.items ≡ put_in_list place item lists.old.items) }
{
    if place < lists.len() {
        let list = &mut lists[place];
        list.push(item)?;
    }
    Ok(())
}

/// Empty lists at the places from 0 to `last`.
fn empty_lists<T: Drop>(alloc: Global, last: usize) -> Result<Vec<ItemList<T>>, AllocError>
    ensures { IfOk result (λ lists. lists.items ≡ replicate (last + 1) []) }
{
    let mut lists = Vec::new(alloc);
    for _made in 0..last {
        lists.push(ItemList::new(alloc))?;
    }
    lists.push(ItemList::new(alloc))?;
    Ok(lists)
}
