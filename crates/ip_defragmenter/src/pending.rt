//! Packets of which fragments have arrived.

use crate::FragmentKey;
use thiserror::Error;

/// A packet that isn't whole yet.
#[derive(Clone, Copy, Debug, PartialEq, Eq)]
pub struct Pending {
    /// The context in which its fragments arrive.
    pub context: u32,
    /// What its fragments have in common.
    pub key: FragmentKey,
    /// When its first fragment arrived, in nanoseconds since any moment.
    pub since: u64,
}

/// A packet was given up.
#[derive(Clone, Copy, Debug, PartialEq, Eq)]
pub struct Loss {
    /// The context in which its fragments arrived.
    pub context: u32,
    /// What its fragments have in common.
    pub key: FragmentKey,
    /// Why it was given up.
    pub reason: LossReason,
}

/// Why a packet was given up.
#[derive(Clone, Copy, Debug, PartialEq, Eq, Error)]
pub enum LossReason {
    /// It wasn't whole in time after its first fragment (RFC 8200, section 4.5).
    #[error("the packet was not whole in time")]
    TimedOut,
    /// All slots were in use, and it was the oldest.
    #[error("all slots were in use, and the packet was the oldest")]
    Displaced,
}
