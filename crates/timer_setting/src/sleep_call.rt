//! A sleep, as it stands in an object's history.
use crate::arming::Arm;
use ktime::Reading;

/// A sleep with valid arguments: its flags, its time in nanoseconds, the clock's reading, and the outcome of the start that it wanted.
#[derive(Clone, Copy, Debug, PartialEq, Eq)]
pub struct SleepCall {
    pub flags: u64,
    pub time: u64,
    pub reading: Reading,
    pub arm: Arm,
}
