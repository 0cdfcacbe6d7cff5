//! A sleeper as a pure object over a high-resolution timer that its caller starts: what each call needs, what it leaves and what it answers.
#![tactic(auto)]

pub use answers::SleptAnswer;
pub use laws::{
    few_entries, no_sleep_ends_early, one_end_of_each_sleep, one_more_entry, sleepers_are_a_kind,
};
pub use sleep::{Sleep, sleep_start};
pub use sleep_arguments::{TIMER_ABSTIME, time_of};
pub use sleeper_state::SleeperState;
pub use timer_setting::{
    Arm, InterruptAnswer, ObjectCall, ObjectReply, ObjectTimer, Phase, SleepAnswer, SleepCall,
    TriggerAnswer, Wanted,
};

mod answers;
mod laws;
mod sleep;
mod sleep_arguments;
mod sleeper_state;
