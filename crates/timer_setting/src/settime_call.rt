//! A settime, as it stands in an object's history.
use crate::arming::Arm;
use ktime::Reading;

/// A settime with valid arguments: its flags, its value and its interval in nanoseconds, the clock's reading, and the outcome of the start
/// that it wanted.
#[derive(Clone, Copy, Debug, PartialEq, Eq)]
pub struct SettimeCall {
    pub flags: u64,
    pub value: u64,
    pub interval: u64,
    pub reading: Reading,
    pub arm: Arm,
}
