//! High-resolution timers for many threads: they stand on bases that are locked one at a time, under one history of all timers. And expiry runs of a base.
#![tactic(auto)]

mod answer;
mod asked;
mod cancelling;
mod carrier;
mod carrying;
mod claiming;
mod counting;
mod evacuable;
mod evacuating;
mod expiry;
mod handler;
mod laws;
mod lending;
mod logged;
mod moving;
mod moving_once;
mod numbers;
mod once;
mod once_answer;
mod once_laws;
mod once_lock;
mod rings;
mod starting;
mod starting_once;
mod timers;
mod tokens;
mod trying_now;
mod trying_once;
mod under_lock;

pub use answer::{ClaimAnswer, NowAnswer, OfflineAnswer, OnlineAnswer, StartAnswer};
pub use base_row::{Log, Noted, Receipt, ReceiptLog, ReceiptSink, Unlogged};
pub use carrier::Carrier;
pub use carrying::ArriveAnswer;
pub use expiry::{ExpireAnswer, cancel, expire, expire_in, expire_soft};
pub use handler::{Handler, Restart};
pub use laws::{a_call_answers_the_stamp, locks_go_on_over_calls, no_answer_is_far_past_the_limit};
pub use numbers::ClaimNumbers;
pub use once_answer::{HereAnswer, Landed, Miss, NextAnswer, Unsent};
pub use once_laws::a_send_and_an_arrive_are_a_start;
pub use timers::Timers;
pub use tokens::{Claim, Pass};
