//! The error of the bytes of an authentication header.
ghost use Rattle.std.specs.Prelude.{IsNone};

use crate::err::Source;
use thiserror::Error;

/// An error in the bytes of an authentication header.
#[derive(Clone, Debug, PartialEq, Eq, Hash, Drop, Error)]
pub enum HeaderError {
    /// The payload length field is 0. It counts units of 4 bytes after the first two, so the fixed part of the header
    /// alone makes it 1 (RFC 4302, section 2.2).
    #[error("IP Authentication Header Error: Payload Length too small (0). The payload length must be at least 1.")]
    ZeroPayloadLen,
}

impl HeaderError {
    /// Returns the error's cause: always `None`.
    pub fn source(&self) -> Option<Source<'_>>
        ensures { IsNone result }
    {
        None
    }
}
