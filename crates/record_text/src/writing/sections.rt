//! Lists written as lines, their items numbered on.
ghost use Rattle.std.specs.Prelude.{◌≡◌, ◌≤◌, ◌++◌, ℕ, List, OnOk, map};
ghost use Rattle.record_text.specs.Numbers.{numbers_of, AreMachineNumbers, HaveMachineNumbers};
ghost use Rattle.record_text.specs.Text.{line_text, lines_in_lists, lines_text, numbered, spaced, RecordLine};

use crate::item_list::ItemList;
use crate::version::Version;
use crate::writing::text_buffer::TextBuffer;
use std::alloc::AllocError;

/// What is written as words: an entry, a reply or an answer.
pub(crate) trait HasWords {
    ghost words: { Self → List (List ℕ) };

    /// The numbers among its words.
    ghost numbers: { Self → List ℕ };

    /// Writes its words, each after a space.
    fn write_words(&self, out: &mut TextBuffer) -> Result<(), AllocError>
        ensures text { OnOk result (out.new ≡ out.old ++ spaced (words self.now)) }
        ensures numbers { OnOk result (AreMachineNumbers (numbers self.now)) };
}

/// An item of a list that is written as lines: its own one, and one for each that stands below it.
pub(crate) trait HasLines {
    /// Its lines, by the number of its list and its own.
    ghost lines: { ℕ → ℕ → Self → List RecordLine };

    /// Writes them as a record of this version shows them.
    fn write_lines(
        &self,
        out: &mut TextBuffer,
        version: Version,
        list: usize,
        number: usize,
    ) -> Result<(), AllocError>
        ensures text { OnOk result (out.new ≡ out.old ++ lines_text version (lines list number self.now)) }
        ensures numbers { OnOk result (HaveMachineNumbers (lines list number self.now)) };
}

/// What stands below an item, as one line with the numbers of that item.
pub(crate) trait HasLineBelow {
    ghost line: { ℕ → ℕ → Self → RecordLine };

    /// Writes it as a record of this version shows it.
    fn write_line(
        &self,
        out: &mut TextBuffer,
        version: Version,
        list: usize,
        number: usize,
    ) -> Result<(), AllocError>
        ensures text { OnOk result (out.new ≡ out.old ++ line_text version (line list number self.now)) }
        ensures numbers { OnOk result (AreMachineNumbers (numbers_of (line list number self.now))) };
}

/// Writes the items of lists: the lists are numbered from 0, and the items of each from `first`.
#[tactic(auto, using(crate::proofs::RecordTexts::lines_text_both, crate::proofs::RecordTexts::numbers_both))]
pub(crate) fn write_lists<X: HasLines + Drop>(
    out: &mut TextBuffer,
    version: Version,
    first: usize,
    lists: &[ItemList<X>],
) -> Result<(), AllocError>
    requires { first ≤ 1 }
    ensures text { OnOk result (out.new ≡ out.old ++ lines_text version (lines_in_lists X.lines first 0 lists.now)) }
    ensures numbers { OnOk result (HaveMachineNumbers (lines_in_lists X.lines first 0 lists.now)) }
{
    for (list, items) in lists.iter().enumerate() {
        write_list(out, version, list, first, items.as_slice())?;
    }
    Ok(())
}

/// Writes the items of the list with this number, numbered from `first`.
#[tactic(auto, using(crate::proofs::RecordTexts::lines_text_both, crate::proofs::RecordTexts::numbers_both))]
pub(crate) fn write_list<X: HasLines>(
    out: &mut TextBuffer,
    version: Version,
    list: usize,
    first: usize,
    items: &[X],
) -> Result<(), AllocError>
    requires { first ≤ 1 }
    ensures text { OnOk result (out.new ≡ out.old ++ lines_text version (numbered (X.lines list) first items.now)) }
    ensures numbers { OnOk result (HaveMachineNumbers (numbered (X.lines list) first items.now)) }
{
    for (index, item) in items.iter().enumerate() {
        item.write_lines(out, version, list, first + index)?;
    }
    Ok(())
}

/// Writes what stands below the item with these numbers.
pub(crate) fn write_below<K: HasLineBelow>(
    out: &mut TextBuffer,
    version: Version,
    list: usize,
    number: usize,
    below: &[K],
) -> Result<(), AllocError>
    ensures text { OnOk result (out.new ≡ out.old ++ lines_text version (map (K.line list number) below.now)) }
    ensures numbers { OnOk result (HaveMachineNumbers (map (K.line list number) below.now)) }
{
    for item in below {
        item.write_line(out, version, list, number)?;
    }
    Ok(())
}
