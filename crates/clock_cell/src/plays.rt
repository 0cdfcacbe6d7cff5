//! The rule of a clock's cell, and what each step on it tells.
use crate::view::ClockView;
use atomic_table::{Join, Split};
use crossbeam_utils::rule::{Outcome, Protocol};
use std::marker::{Brand, PhantomData};

pub struct ClockRule;

impl Protocol<[u64; 5], ClockView> for ClockRule {
    ghost use Rattle.clock_cell.specs.Rules.{ClockInvariant};
    ghost use Rattle.clock_cell.specs.Views.{first_clock_view};

    ghost holds = { ClockInvariant };

    ghost first = { first_clock_view };
}

/// A load: all writes so far are seen.
pub struct Look;

impl Outcome<[u64; 5], ClockView> for Look {
    ghost use Rattle.clock_cell.specs.Plays.{Loaded};

    ghost then = { λ v before after w. Loaded v after w };
}

/// Which write an exchange makes. Each exchange picks it.
pub trait WritePick {
    ghost use Rattle.ktime.specs.declared.write.Write.{Write};

    ghost write: { Write };
}

impl WritePick for Brand {
    ghost use Rattle.ktime.specs.declared.write.Write.TheVariants.{Advance};

    ghost write = { Advance 0 };
}

/// An exchange from one reading to the one after the write.
pub struct Enter<K: WritePick> {
    of: PhantomData<K>,
}

impl<K: WritePick> Outcome<[u64; 5], ClockView> for Enter<K> {
    ghost use Rattle.clock_cell.specs.Plays.{Exchanged};

    ghost then = { Exchanged K.write };
}

/// A pass is split off, or taken in.
pub struct Child;

/// A note of what a pass has seen is made, or taken in.
pub struct Note;

/// A pass moves to a new seat.
pub struct Whole;

impl Split<ClockView> for Child {
    ghost use Rattle.clock_cell.specs.Views.{split_clock_view, new_clock_view};

    ghost left = { split_clock_view };

    ghost right = { new_clock_view };
}

impl Split<ClockView> for Whole {
    ghost use Rattle.clock_cell.specs.Plays.{gone_clock_view};

    ghost left = { λ _. gone_clock_view };

    ghost right = { λ v. v };
}

impl Split<ClockView> for Note {
    ghost use Rattle.clock_cell.specs.Plays.{clock_note_of};

    ghost left = { λ v. v };

    ghost right = { clock_note_of };
}

impl Join<ClockView> for Child {
    ghost use Rattle.clock_cell.specs.Views.{joined_clock_view};
    ghost use Rattle.clock_cell.specs.Plays.{gone_clock_view};

    ghost both = { joined_clock_view };

    ghost spent = { gone_clock_view };
}

impl Join<ClockView> for Note {
    ghost use Rattle.clock_cell.specs.Views.{told_clock_view};
    ghost use Rattle.clock_cell.specs.Plays.{gone_clock_view};

    ghost both = { told_clock_view };

    ghost spent = { gone_clock_view };
}
