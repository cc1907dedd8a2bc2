//! Test vectors for counts by key, and for those of the chains of packets.
#![tactic(auto)]

#[cfg(test)]
mod chains;
