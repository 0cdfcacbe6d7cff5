//! Scripts of timer calls, and their text.
#![tactic(auto)]

pub use form::{Field, Form, Line, Part, Value};
pub use generating::generate;
pub use reading::laws::{
    at_most_one_script_is_read, bytes_are_read_or_refused, version_one_is_hard,
};
pub use reading::parsing::parse;
pub use reading::words::number;
pub use refusal::{Cause, ParseError, Refused};
pub use script::{Call, Callback, Declaration, Kind, LaneCall, Round, Script, StartRequest};
pub use summing::summary;
pub use value_list::ValueList;

mod form;
mod generating;
mod reading;
mod refusal;
mod script;
mod summing;
mod value_list;
