//! What becomes of a packet that is added.

use crate::{FragmentError, Loss, StoreError};
use thiserror::Error;

/// What became of a packet that was added, and the packet that was given up for it.
#[derive(Clone, Copy, Debug, PartialEq, Eq)]
pub struct Added {
    /// What became of the packet.
    pub outcome: Outcome,
    /// The index of its packet's slot, if it has one. If its packet is whole, the slot is free again.
    pub slot: Option<usize>,
    /// The packet that was given up for it, in the same slot, if any.
    pub lost: Option<Loss>,
}

/// What became of a packet that was added.
#[derive(Clone, Copy, Debug, PartialEq, Eq, Error)]
pub enum Outcome {
    /// It isn't a fragment, or it is an atomic fragment, which is a packet by itself (RFC 6946).
    #[error("the packet is not a fragment")]
    NotFragment,
    /// Fragments of its packet are missing.
    #[error("fragments of the packet are missing")]
    MoreWanted,
    /// Its packet is whole: the memory with this index has it until another packet is stored there.
    #[error("the packet is whole")]
    Whole(usize),
    /// It is a fragment, and was dropped.
    #[error(transparent)]
    Dropped(DropReason),
}

/// Why a fragment was dropped.
#[derive(Clone, Copy, Debug, PartialEq, Eq, Error)]
pub enum DropReason {
    /// It can't be used.
    #[error(transparent)]
    Unusable(FragmentError),
    /// Its packet's memory refuses it.
    #[error(transparent)]
    Refused(StoreError),
    /// There are no slots.
    #[error("there are no slots")]
    NoSlot,
}
