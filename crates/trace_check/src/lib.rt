//! Whether a kernel's trace of its timers is a history that the model gives.
#![tactic(auto)]

pub use checker::Checker;
pub use known::{ArmedKnown, FunctionKnown, HalfKnown, KnownProcessor, KnownTimer, OrderedExpiry};
pub use laws::{
    a_trace_fits_exactly_where_no_event_is_a_misfit, the_first_misfit_ends_all_histories,
};
pub use misfit::Misfit;

mod checker;
mod known;
mod laws;
mod learning;
mod mark;
mod misfit;
mod misfits;
mod places;
mod processors;
mod queue;
mod timers;
