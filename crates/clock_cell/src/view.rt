//! What is known of a clock by a pass, as plain data. No value of it is made.
use ktime::Write;
use pass_names::Pass;
use std::collections::LinkedList;

/// What a pass of a clock knows. No value of it is made.
pub struct ClockView {
    /// The clock's writes are the history of the value 0.
    pub pass: Pass<Write>,
    /// Beginnings of the clock's writes that were seen with another pass, or before the pass was told
    /// of another. The next look shows that what is then seen goes on from them.
    pub heard: LinkedList<LinkedList<Write>>,
}
