//! The check of a kernel's trace for callers in C. `include/hrt_trace.h` declares the export for C.
#![tactic(auto)]

mod causes;
mod checking;
mod codes;
