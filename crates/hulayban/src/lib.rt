//! A system of timers, objects, signals and a clock that many threads share, each thread by one handle.
#![tactic(auto)]

pub use clock_cell::WriteAnswer;
pub use declaration::Declaration;
pub use expiring::NoFunctions;
pub use handle::Handle;
pub use hr_timers::{
    ExpireAnswer, Handler, NowAnswer, OfflineAnswer, OnlineAnswer, Restart, StartAnswer,
};
pub use ktime::{ClockId, Mode, Reading, TimeSpec, Write};
pub use lane::{Done, Lane};
pub use laws::{a_next_expiry_is_fixed, handles_share_one_history};
pub use objects::Settime;
pub use place::Place;
pub use seq_timer::{CancelAnswer, Context, Peek, Terms};
pub use session::Session;
pub use sleeper::SleptAnswer;
pub use system::System;
pub use timer_objects::{Gettime, Kind, NextSignal, Overrun, Readable, Slept};
pub use timer_setting::{AcceptAnswer, InterruptAnswer, ReadAnswer, SettimeAnswer, SleepAnswer};
pub use timers::Request;

mod bases;
mod clock;
mod declaration;
mod expiring;
mod handle;
mod lane;
mod lanes;
mod laws;
mod looking;
mod objects;
mod place;
mod running;
mod serving;
mod session;
mod session_objects;
mod signals;
mod sleeping;
mod system;
mod timers;
