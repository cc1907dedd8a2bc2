//! Test vectors for frames of link layers.
#![tactic(auto)]

#[cfg(test)]
mod frames;
