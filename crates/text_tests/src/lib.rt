//! The tests of what reads scripts and writes records.
#![tactic(auto)]

#[cfg(test)]
mod tests;
