//! The error of a check value of a length that no authentication header has.
ghost use Rattle.std.specs.Prelude.{IsNone};

use crate::err::Source;
use thiserror::Error;

/// Why bytes can't be the integrity check value of an authentication header (RFC 4302, section 2.6).
#[derive(Clone, Debug, PartialEq, Eq, Hash, Drop, Error)]
pub enum IcvLenError {
    /// There are this many bytes, more than 1016.
    #[error("Error the IP authentication header ICV length is too large. The ICV size ({0} bytes) is larger then what can be be represented by the 'payload len' field in an IP authentication header.")]
    TooBig(usize),
    /// There are this many bytes, not a multiple of 4.
    #[error("Error the IP authentication header ICV length of {0} bytes is not a multiple of 4. This is required as the payload length field can only express lengths in multiple of 4 bytes.")]
    Unaligned(usize),
}

impl IcvLenError {
    /// Returns the error's cause: always `None`.
    pub fn source(&self) -> Option<Source<'_>>
        ensures { IsNone result }
    {
        None
    }
}
