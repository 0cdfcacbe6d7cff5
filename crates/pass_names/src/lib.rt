//! What a caller of a shared structure knows, as plain data: its pass's name, the histories that it
//! has seen and the places of its own entries. No value of these types is made; they stand in the
//! contracts and proofs of the crates that hand out passes. Beside them the loop by which calls of
//! these crates try again.
#![tactic(auto)]

mod laws;
mod retries;

pub use laws::a_pass_answers_for_its_split;
pub use retries::Retries;
use std::collections::LinkedList;

/// A pass's name and the passes that it answers for.
pub struct PassId {
    /// Whether a pass bears this name.
    pub live: bool,
    /// Empty for the first pass. The k-th pass split off another has that one's name, then k.
    pub name: LinkedList<u64>,
    /// How many passes were split off.
    pub made: u64,
    /// The names of the passes that were split off this one, or off one that it took in, and that no
    /// pass has taken in yet.
    pub split: LinkedList<LinkedList<u64>>,
}

/// What a pass knows of the histories of the values 0, 1, .., each a list of entries.
pub struct Pass<E> {
    pub id: PassId,
    /// The beginning of each history that was seen.
    pub seen: LinkedList<LinkedList<E>>,
    /// The places of the pass's own entries: a value, and the entry's number from 1.
    pub mine: LinkedList<(u64, u64)>,
}
