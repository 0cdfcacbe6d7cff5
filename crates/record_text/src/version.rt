//! The versions of the texts.
/// The version of a script's text and of its record's. What a script of version 2 has more stands in docs/SCRIPT.md.
#[derive(Clone, Copy, Debug, PartialEq, Eq)]
pub enum Version {
    One,
    Two,
}
