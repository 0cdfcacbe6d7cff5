//! The lines of each list of notes, with what was noted at each one's number under it.
ghost use Rattle.std.specs.Prelude.{◌≡◌, List, map, IfOk};
ghost use Rattle.lane_notes.specs.Records.{each_below, line_at_number, noted_items, noted_lines, numbered_from};

use crate::filing::{By, filed};
use crate::placed::Placed;
use record_text::ItemList;
use std::alloc::{AllocError, Global};

/// A note that the record shows as an item of this type.
pub(crate) trait Shown: Copy + Drop {
    type Item: Drop;

    ghost item: { Self → Self.Item };

    fn item(&self) -> Self::Item
        ensures { result ≡ item self.now };
}

/// A note that is a line of its list, with notes of another kind under it.
pub(crate) trait Lined: Placed {
    type Under: Placed;

    type Line: Drop;

    ghost line: { Self → List Self.Under → Self.Line };

    fn line(&self, alloc: Global, under: &[Self::Under]) -> Result<Self::Line, AllocError>
        ensures { IfOk result (λ made. made ≡ line self.now under.now) };
}

/// The lines of each list, for so many lists.
pub(crate) fn lines_of_lists<N: Lined>(
    alloc: Global,
    notes: &[N],
    under: &[N::Under],
    count: usize,
) -> Result<ItemList<ItemList<N::Line>>, AllocError>
    ensures { IfOk result (λ lists. lists ≡ each_below (λ l. noted_lines N.Under.place N.line N.place l notes.now under.now) count) }
{
    let notes_of = filed(alloc, notes, count, By::List)?;
    let under_of = filed(alloc, under, count, By::List)?;
    let mut lists = ItemList::new(alloc);
    for list in 0..count {
        let lines = lines_of_list(alloc, notes_of[list].as_slice(), under_of[list].as_slice())?;
        lists.push(lines)?;
    }
    Ok(lists)
}

/// The lines of one list.
fn lines_of_list<N: Lined>(
    alloc: Global,
    notes: &[N],
    under: &[N::Under],
) -> Result<ItemList<N::Line>, AllocError>
    ensures { IfOk result (λ lines. lines ≡ numbered_from (line_at_number N.Under.place N.line under.now) 1 notes.now) }
{
    let at = filed(alloc, under, notes.len(), By::Number)?;
    let mut lines = ItemList::new(alloc);
    for index in 0..notes.len() {
        let line = notes[index].line(alloc, at[index + 1].as_slice())?;
        lines.push(line)?;
    }
    Ok(lines)
}

/// The items of each list, for so many lists.
pub(crate) fn items_of_lists<N: Placed + Shown>(
    alloc: Global,
    notes: &[N],
    count: usize,
) -> Result<ItemList<ItemList<N::Item>>, AllocError>
    ensures { IfOk result (λ lists. lists ≡ each_below (λ l. noted_items N.place N.item l notes.now) count) }
{
    let notes_of = filed(alloc, notes, count, By::List)?;
    let mut lists = ItemList::new(alloc);
    for list in 0..count {
        let items = items_of(alloc, notes_of[list].as_slice())?;
        lists.push(items)?;
    }
    Ok(lists)
}

/// The items that notes are shown as, in their order.
pub(crate) fn items_of<N: Shown>(
    alloc: Global,
    notes: &[N],
) -> Result<ItemList<N::Item>, AllocError>
    ensures { IfOk result (λ items. items ≡ map N.item notes.now) }
{
    let mut items = ItemList::new(alloc);
    for note in notes {
        items.push(note.item())?;
    }
    Ok(items)
}
