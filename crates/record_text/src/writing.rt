//! The text of a record.

pub use lines::text;
pub use unique::text_determines_the_record;

mod answers;
mod entries;
mod lines;
mod object_entries;
mod sections;
mod text_buffer;
mod unique;
mod words;
