//! Bases behind locks and timers with a word each, under one history of all timers.
#![tactic(auto)]

mod cell;
mod counters;
mod entries;
mod held;
mod laws;
mod log;
mod parts;
mod plays;
mod rings;
mod row;
mod slot;
mod slots;
mod standings;
mod steps;
mod view;

pub use held::{HeldBase, Pass};
pub use laws::{
    a_holder_has_seen_all_of_its_timers, an_entry_extends_its_timer, locks_and_loads_only_look,
    passes_tell_what_they_saw,
};
pub use log::{Log, Noted, Receipt, ReceiptLog, ReceiptSink, Unlogged};
pub use parts::most_counters;
pub use row::BaseRow;
pub use slot::BaseSlot;
pub use view::{BaseView, Claimed, HeldContent, Opening};
