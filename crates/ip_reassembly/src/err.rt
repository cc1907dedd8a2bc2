//! Why fragments are refused.
ghost use Rattle.std.specs.Prelude.{◌≡◌};
ghost use Rattle.ip_reassembly.specs.Refusal.{is_conflict};

use thiserror::Error;

/// A fragment is refused.
#[derive(Clone, Copy, Debug, PartialEq, Eq, Hash, Error)]
pub enum AddError {
    /// More fragments follow, and the fragment's length is 0 or not a multiple of 8 (RFC 791, section 3.2; RFC 8200,
    /// section 4.5).
    #[error("the length of a fragment that is not the last is not a positive multiple of 8")]
    Unaligned,
    /// The fragment ends after byte 65,535 of the payload or after the buffer (RFC 8200, section 4.5).
    #[error("the payload is longer than 65535 bytes or than the buffer")]
    TooLong,
    /// A byte of the fragment has already arrived, in another fragment (RFC 5722; RFC 8200, section 4.5).
    #[error("the fragment overlaps another one")]
    Overlap,
    /// The fragment ends after a last fragment, or is a last one that ends before another one (RFC 8200, section 4.5).
    #[error("the fragments have two ends")]
    TwoEnds,
    /// The packet was abandoned.
    #[error("the packet was abandoned")]
    Abandoned,
}

impl AddError {
    /// Returns whether the fragment contradicts one that was accepted: an overlap, or two ends.
    pub fn is_conflict(&self) -> bool
        ensures { result ≡ is_conflict self.now }
    {
        match self {
            AddError::Overlap | AddError::TwoEnds => true,
            AddError::Unaligned | AddError::TooLong | AddError::Abandoned => false,
        }
    }
}
