//! The rule of a queue, and what each step on its ring tells.
use crate::signal::Signal;
use crate::view::QueueView;
use crossbeam_queue::protocol::{Join, Lesson, Outcome, Protocol, Split};
use std::marker::{Brand, PhantomData};

pub struct QueueRule;

impl Protocol<Signal, QueueView> for QueueRule {
    ghost use Rattle.signal_queue.specs.Rules.{QueueInvariant};
    ghost use Rattle.signal_queue.specs.Views.{first_queue_view};

    ghost holds = { QueueInvariant };

    ghost first = { first_queue_view };
}

/// A push; and what is shown where there is no room.
pub struct Puts;

impl Outcome<Signal, QueueView> for Puts {
    ghost use Rattle.signal_queue.specs.declared.signal.Turn.TheVariants.{Pushed};
    ghost use Rattle.signal_queue.specs.Calls.{MakesTurn};

    ghost then = { λ v x w. MakesTurn (Pushed x) v w };
}

impl Lesson<Signal, QueueView> for Puts {
    ghost use Rattle.signal_queue.specs.Calls.{RuleHeld};

    ghost fact = { RuleHeld };
}

/// A pop; and what is shown where nothing waits.
pub struct Takes;

impl Outcome<Signal, QueueView> for Takes {
    ghost use Rattle.signal_queue.specs.declared.signal.Turn.TheVariants.{Popped};
    ghost use Rattle.signal_queue.specs.Calls.{MakesTurn};

    ghost then = { λ v x w. MakesTurn (Popped x) v w };
}

impl Lesson<Signal, QueueView> for Takes {
    ghost use Rattle.signal_queue.specs.Calls.{RuleHeld};

    ghost fact = { RuleHeld };
}

/// A pass is split off, or taken in.
pub struct Child;

impl Split<QueueView> for Child {
    ghost use Rattle.signal_queue.specs.Views.{split_queue_view, new_queue_view};

    ghost left = { split_queue_view };

    ghost right = { new_queue_view };
}

impl Join<QueueView> for Child {
    ghost use Rattle.signal_queue.specs.Views.{joined_queue_view, gone_queue_view};

    ghost both = { joined_queue_view };

    ghost spent = { gone_queue_view };
}

/// An end is given back, or lent.
pub struct Loan;

impl Split<QueueView> for Loan {
    ghost use Rattle.signal_queue.specs.Views.{rid_queue_view, end_queue_view};

    ghost left = { rid_queue_view };

    ghost right = { end_queue_view };
}

impl Join<QueueView> for Loan {
    ghost use Rattle.signal_queue.specs.Views.{lent_queue_view, gone_queue_view};

    ghost both = { lent_queue_view };

    ghost spent = { gone_queue_view };
}

/// How many signals may wait. Whoever makes a queue picks it.
pub trait Room {
    ghost use Rattle.std.specs.Prelude.{ℕ};

    ghost room: { ℕ };
}

impl Room for Brand {
    ghost room = { 0 };
}

/// The first pass learns how many signals may wait, and gives the end for pops up.
pub struct Opens<B: Room> {
    of: PhantomData<B>,
}

impl<B: Room> Split<QueueView> for Opens<B> {
    ghost use Rattle.signal_queue.specs.Views.{opened_view, opened_end};

    ghost left = { opened_view B.room };

    ghost right = { opened_end B.room };
}
