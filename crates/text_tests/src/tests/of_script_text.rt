//! Scripts that are read, refused and generated.

mod generating;
mod reading;
