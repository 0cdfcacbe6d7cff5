//! A timer descriptor as a pure object over a high-resolution timer that its caller starts: what each call needs, what it leaves and what it answers.
#![tactic(auto)]

pub use fd_state::FdState;
pub use laws::{descriptors_are_a_kind, few_entries, one_more_entry};
pub use settime_arguments::{TFD_TIMER_ABSTIME, TFD_TIMER_CANCEL_ON_SET, times_of};
pub use timer_setting::{
    Arm, BadArgument, GettimeAnswer, ObjectCall, ObjectReply, ObjectTimer, Phase, ReadAnswer,
    SettimeAnswer, SettimeCall, TriggerAnswer, Wanted,
};

mod fd_state;
mod laws;
mod settime_arguments;
