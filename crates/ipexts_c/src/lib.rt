//! The interface for C and other languages: chains of IP extension headers and packets, parsed into plain numbers.
//! Each function calls one of `ip_spans`, with its clauses. A slice is a pointer and a length, and may be null if it
//! is empty. `include/wolfaren.h` documents the same functions in C.
#![tactic(auto)]

mod bytes;
mod capture_writers;
mod captures;
mod chain_counts;
mod chains;
mod defragmenter;
mod faults;
mod filters;
mod frames;
mod headers;
mod names;
mod packets;
mod results;
mod rewrites;
mod statistics;
mod terms;
mod texts;
mod version;
mod writes;
