//! The rule of a row's table, and what each step on it tells.
use crate::cell::ValueCell;
use crate::object::Object;
use crate::view::View;
use atomic_table::{Join, Play, Split, TableRule};
use std::marker::{Brand, PhantomData};
use std::snapshot::Snapshot;

pub struct RowRule;

impl<O: Object> TableRule<ValueCell<O>, View<O, O::Call, O::Reply>, Snapshot<Vec<O>>> for RowRule {
    ghost use Rattle.counted_row.specs.Rules.{RowInvariant};
    ghost use Rattle.counted_row.specs.Views.{first_view};

    ghost holds = { λ k s. RowInvariant O.meaning k.value.items s };

    ghost first = { λ k. first_view k.value.items };
}

/// A load: all histories so far are seen.
pub struct Look;

impl<O: Object> Play<ValueCell<O>, View<O, O::Call, O::Reply>> for Look {
    ghost use Rattle.counted_row.specs.Plays.{Looked};

    ghost then = { Looked O.meaning };
}

/// A load that leaves what the seat has seen as it is.
pub struct Check;

impl<O: Object> Play<ValueCell<O>, View<O, O::Call, O::Reply>> for Check {
    ghost use Rattle.counted_row.specs.Plays.{Checked};

    ghost then = { Checked O.meaning };
}

/// An exchange from a free lock to a taken one.
pub struct Take;

impl<O: Object> Play<ValueCell<O>, View<O, O::Call, O::Reply>> for Take {
    ghost use Rattle.counted_row.specs.Plays.{Took};

    ghost then = { Took O.meaning };
}

/// Which call a commit makes, by its code. Each commit picks it.
pub trait CallPick {
    ghost use base.Stored.{Gv};

    ghost code: { Gv };
}

impl CallPick for Brand {
    ghost use base.Stored.{coded_ℕ};

    ghost code = { coded_ℕ.code 0 };
}

/// The store of a commit.
pub struct Enter<K: CallPick> {
    of: PhantomData<K>,
}

impl<O: Object, K: CallPick> Play<ValueCell<O>, View<O, O::Call, O::Reply>> for Enter<K> {
    ghost use Rattle.std.specs.Prelude.{◌≡◌};
    ghost use Rattle.counted_row.specs.Plays.{Enters};

    ghost then = { Enters O.meaning (λ c. O.Call.row.coded.code c ≡ K.code) };
}

/// The store of a release.
pub struct Free;

impl<O: Object> Play<ValueCell<O>, View<O, O::Call, O::Reply>> for Free {
    ghost use Rattle.counted_row.specs.Plays.{Freed};

    ghost then = { Freed O.meaning };
}

/// A pass is split off, or taken in.
pub struct Child;

impl<O, C, R> Split<View<O, C, R>> for Child {
    ghost use Rattle.counted_row.specs.Views.{split_view, new_view};

    ghost left = { split_view };

    ghost right = { new_view };
}

impl<O, C, R> Join<View<O, C, R>> for Child {
    ghost use Rattle.counted_row.specs.Plays.{joined_view, gone_view};

    ghost both = { joined_view };

    ghost spent = { gone_view };
}

/// A note of what a pass has seen is made, or taken in.
pub struct Note;

impl<O, C, R> Split<View<O, C, R>> for Note {
    ghost use Rattle.counted_row.specs.Plays.{note_of};

    ghost left = { λ v. v };

    ghost right = { note_of };
}

impl<O, C, R> Join<View<O, C, R>> for Note {
    ghost use Rattle.counted_row.specs.Plays.{told_view, gone_view};

    ghost both = { told_view };

    ghost spent = { gone_view };
}
