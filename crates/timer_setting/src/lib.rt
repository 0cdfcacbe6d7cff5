//! What objects of all kinds over a timer share: their calls and answers, a settime's arguments, the start that a step wants and its outcome, the timer
//! that an object keeps, and the histories of such objects.
#![tactic(auto)]

pub use answers::{
    AcceptAnswer, GettimeAnswer, InterruptAnswer, ReadAnswer, SettimeAnswer, SleepAnswer,
};
pub use arguments::{ABSTIME, BadArgument, times_of};
pub use arming::{Arm, Wanted};
pub use object_call::{ObjectCall, ObjectReply};
pub use object_timer::ObjectTimer;
pub use phase::{Phase, phase_after};
pub use settime_call::SettimeCall;
pub use setting::Setting;
pub use sleep_call::SleepCall;
pub use trigger_answer::TriggerAnswer;

mod answers;
mod arguments;
mod arming;
mod object_call;
mod object_timer;
mod phase;
mod settime_call;
mod setting;
mod sleep_call;
mod trigger_answer;
