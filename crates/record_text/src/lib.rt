//! The record that a run leaves, and its text.
#![tactic(auto)]

pub use item_list::ItemList;
pub use record::{
    AcceptReply, Answer, Armed, BaseLine, CallbackReply, ClockLine, Entry, InterruptReply, Label,
    Look, ObjectEntry, ObjectLine, ReadReply, RunRecord, SettimeReply, Skip, SleepReply, TimerLine,
};
pub use version::Version;
pub use writing::{text, text_determines_the_record};

mod item_list;
mod record;
mod version;
mod writing;
