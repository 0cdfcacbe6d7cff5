//! The callers, run; and the calls of objects by one thread and by two.
mod beside;
mod blocking;
mod calls;
mod greatest;
mod lanes;
mod of_logs;
mod passes;
mod queued;
mod side;
mod stand;
mod waiting;

use std::fmt::Debug;
use std::process::Abort;

/// Fails the test where these differ, and shows both. This is proved once; an `assert_eq!` is proved in each test that has it.
fn assert_equal<T: PartialEq + Debug + Drop>(rt: &impl Abort, got: T, wanted: T) {
    assert_eq!(rt; got, wanted);
}
