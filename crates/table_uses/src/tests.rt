//! The callers, run; and the tests of `counted_row`, `signal_queue` and `handoff`.
mod handing;
mod of_counted_row;
mod of_handoff;
mod of_signal_queue;
mod rows;
mod signals;

use std::fmt::Debug;
use std::process::Abort;

/// Fails the test where these differ, and shows both. This is proved once; an `assert_eq!` is proved in each test that has it.
fn assert_equal<T: PartialEq + Debug + Drop>(rt: &impl Abort, got: T, wanted: T) {
    assert_eq!(rt; got, wanted);
}
