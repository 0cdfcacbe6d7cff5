//! Where a lane can be held between its calls, for tests that force a schedule.

/// A place in a lane's work on one call.
#[derive(Clone, Copy, Debug, PartialEq, Eq)]
pub enum Point {
    /// Before the call.
    Call,
    /// In a callback of the call, before the callback's work.
    Callback,
    /// After the call.
    After,
}

/// A gate that every lane passes at each point of each of its calls, each lane on a thread of its own where one can be had.
pub trait Gate: Sync {
    /// Returns once the lane may go on. Lanes and a lane's calls count from 0.
    fn at(&self, lane: u32, call: u32, point: Point);
}

/// A gate that never holds a lane.
#[derive(Clone, Copy, Debug)]
pub struct OpenGate;

impl Gate for OpenGate {
    fn at(&self, _lane: u32, _call: u32, _point: Point) {}
}
