//! What is known of a queue, as plain data. No value of it is made.
use crate::signal::Turn;
use pass_names::Pass;
use std::collections::LinkedList;

/// What a pass of a queue knows, or one of its ends.
pub struct QueueView {
    /// The queue's turns are the history of the value 0.
    pub pass: Pass<Turn>,
    /// Beginnings of the queue's history that were seen with passes that were taken in, and with ends that were lent.
    pub heard: LinkedList<LinkedList<Turn>>,
    /// How many signals may wait.
    pub room: usize,
    /// It alone may push.
    pub pushes: bool,
    /// It alone may pop.
    pub pops: bool,
    /// With an end: how many signals were pushed, or popped, by those that had it.
    pub made: usize,
}
