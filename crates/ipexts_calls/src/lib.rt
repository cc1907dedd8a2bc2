//! Calls for a program in C or Rust that measures this project's parsers and writers, or compares their results with
//! another implementation's.
#![tactic(auto)]

mod compared;
mod digests;
mod measured;
