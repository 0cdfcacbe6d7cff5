//! The tests of each crate, a module each.

mod of_lane_notes;
mod of_record_text;
mod of_script_text;
