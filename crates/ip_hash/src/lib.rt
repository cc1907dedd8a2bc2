//! SipHash-1-3, a hash function made against keys that a sender chooses: who doesn't know the seed can't choose inputs
//! of one hash.
//!
//! `sip_hash` hashes words of 8 bytes, and `sip_hash_bytes` bytes, each as a word of its own.
#![tactic(auto)]

mod siphash;

pub use siphash::{sip_hash, sip_hash_bytes};
