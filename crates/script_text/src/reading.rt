//! Reads a script.

mod cutting;
mod drafts;
mod forms;
pub mod laws;
mod lines;
mod meaning;
pub mod parsing;
mod placing;
pub mod words;
