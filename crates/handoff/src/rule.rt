//! What is known of a handoff: its rule, and what each step tells.

use atomic_table::{Play, Split, TableRule};
use std::marker::PhantomData;

/// A value that is handed to a worker and back.
pub trait Task<K> {
    /// It may be handed to a worker.
    ghost can: { K → Self → Type 0 };

    /// What it became by the worker's work.
    ghost done: { K → Self → Self → Type 0 };
}

/// What a seat does. No value of it is made.
pub enum Part<T> {
    /// It is the only one of its handoff.
    First,
    /// It is the only one, and has the empty slot.
    Alone,
    /// The giver's: it may give, and has the empty slot.
    Idle,
    /// The giver's: it has given this value, and waits for it.
    Gave(T),
    /// The giver's: it gives nothing any more.
    Ended,
    /// The worker's: it waits for a value.
    Ready,
    /// The worker's: it works on what was given as this value.
    Works(T),
    /// The worker's: it was told of the end.
    Dismissed,
}

/// What a seat knows. No value of it is made.
pub struct View<T, K> {
    pub key: K,
    pub part: Part<T>,
}

/// The rule of a handoff.
pub struct Handing<T> {
    task: PhantomData<T>,
}

impl<T: Task<K>, K> TableRule<Option<T>, View<T, K>, K> for Handing<T> {
    ghost use Rattle.handoff.specs.declared.rule.Part.TheVariants.{First};
    ghost use Rattle.handoff.specs.Handoffs.{IsHandoff, knows};

    ghost holds = { λ key. IsHandoff (T.can key) (T.done key) key };

    ghost first = { λ key. knows key First };
}

/// The first seat takes the empty slot.
pub struct Begins;

impl<T, K> Play<Option<T>, View<T, K>> for Begins {
    ghost use Rattle.handoff.specs.Handoffs.{BeginsGiving};

    ghost then = { BeginsGiving };
}

/// The worker gets a seat of its own.
pub struct Seats;

impl<T, K> Split<View<T, K>> for Seats {
    ghost use Rattle.handoff.specs.declared.rule.Part.TheVariants.{Idle, Ready};
    ghost use Rattle.handoff.specs.Handoffs.{knows};

    ghost left = { λ v. knows v.key Idle };

    ghost right = { λ v. knows v.key Ready };
}

/// The giver puts the slot back with a value in it.
pub struct Gives;

impl<T, K> Play<Option<T>, View<T, K>> for Gives {
    ghost use Rattle.handoff.specs.Handoffs.{GivesValue};

    ghost then = { GivesValue };
}

/// The giver looks whether the worker has put the slot back.
pub struct TakesBack<T> {
    task: PhantomData<T>,
}

impl<T: Task<K>, K> Play<Option<T>, View<T, K>> for TakesBack<T> {
    ghost use Rattle.handoff.specs.Handoffs.{TakesValue};

    ghost then = { TakesValue T.done };
}

/// The giver puts the empty slot back.
pub struct Ends;

impl<T, K> Play<Option<T>, View<T, K>> for Ends {
    ghost use Rattle.handoff.specs.Handoffs.{EndsGiving};

    ghost then = { EndsGiving };
}

/// The worker looks whether there is a value.
pub struct Looks<T> {
    task: PhantomData<T>,
}

impl<T: Task<K>, K> Play<Option<T>, View<T, K>> for Looks<T> {
    ghost use Rattle.handoff.specs.Handoffs.{LooksForWork};

    ghost then = { LooksForWork T.can };
}

/// The worker looks whether the giver has ended.
pub struct SeesEnd;

impl<T, K> Play<Option<T>, View<T, K>> for SeesEnd {
    ghost use Rattle.handoff.specs.Handoffs.{LooksForEnd};

    ghost then = { LooksForEnd };
}

/// The worker puts the slot back with the value in it.
pub struct GivesBack;

impl<T, K> Play<Option<T>, View<T, K>> for GivesBack {
    ghost use Rattle.handoff.specs.Handoffs.{ReturnsValue};

    ghost then = { ReturnsValue };
}
