//! The numbers by which a claim is known.

/// A timer, the generation of it that runs, the base where it runs, and the number of the claim's entry among the timer's.
#[derive(Clone, Copy, Debug, PartialEq, Eq)]
pub struct ClaimNumbers {
    pub timer: u32,
    pub generation: u64,
    pub base: u32,
    pub number: u64,
}
