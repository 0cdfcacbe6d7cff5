//! What is known of a row by a pass, as plain data. No value of these types is made.
use pass_names::Pass;
use std::collections::LinkedList;

/// A call with the reply that it got.
pub struct Entry<C, R> {
    pub call: C,
    pub reply: R,
}

/// A value whose lock is held: which one, how many entries its history has, and its state. No value
/// of it is made.
pub struct Locked<O> {
    pub index: u64,
    pub stamp: u64,
    pub state: O,
}

/// What a pass of a row knows. No value of it is made.
pub struct View<O, C, R> {
    pub pass: Pass<Entry<C, R>>,
    /// The values that the row was made of.
    pub opening: LinkedList<O>,
    /// Histories of a pass that was taken in, until this pass looks again.
    pub heard: LinkedList<LinkedList<Entry<C, R>>>,
    /// The open claims of the pass's own calls: a value, and the claim's name.
    pub claims: LinkedList<(u64, LinkedList<u64>)>,
    pub held: Option<Locked<O>>,
}
