//! What lanes share and leave: the passes of their world, and what a lane keeps of its calls.
use crate::notes::Notes;
use clock_cell::ClockPass;
use counted_row::RowPass;
use hr_timers::Pass;
use record_text::{Answer, Label};
use signal_queue::SignalPass;
use timer_objects::Object;

/// A pass of each kind. It can't be dropped.
pub struct WorldPass {
    pub timers: Pass,
    pub objects: RowPass<Object>,
    pub clock: ClockPass,
    pub signals: SignalPass,
}

/// What a lane works with in a round: the label of its next call, its passes, its notes and answers. Once it wants memory it makes no call.
pub struct Lane {
    pub label: Label,
    pub pass: WorldPass,
    pub notes: Notes,
    pub answers: Vec<Answer>,
    pub wants_memory: bool,
}
