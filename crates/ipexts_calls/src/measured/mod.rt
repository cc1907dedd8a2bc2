//! Calls that `bench/` measures. Each passes a result to a function that isn't inlined and reads every part of it, or
//! reads in place the few parts that a filter needs, and returns a digest of the parts read.
mod calls;
mod dissections;
mod filters;
mod headers;
mod ipv4;
mod packets;
mod parses;
mod reads;
pub mod structs;
mod whole_packets;
