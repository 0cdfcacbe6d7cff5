//! Values behind locks, each with a counted history of the calls that were made on it.
#![tactic(auto)]

mod cell;
mod handles;
mod object;
mod parts;
mod plays;
mod row;
mod slots;
mod steps;
mod view;

pub use handles::{Held, RowPass};
pub use object::Object;
pub use row::Row;
pub use view::{Entry, Locked, View};
