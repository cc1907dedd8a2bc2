//! The error of a payload of a length that no header in the uniform format (RFC 6564) has.
ghost use Rattle.std.specs.Prelude.{IsNone};

use crate::err::Source;
use thiserror::Error;

/// Why bytes can't be the payload of an IPv6 header in the uniform format (RFC 6564; RFC 8200, sections 4.3, 4.4,
/// 4.6).
#[derive(Clone, Debug, PartialEq, Eq, Hash, Drop, Error)]
pub enum ExtPayloadLenError {
    /// There are this many bytes, fewer than 6.
    #[error("IPv6 extensions header payload length is too small. The payload size ({0} bytes) is less then 6 octets which is the minimum IPv6 extension header payload size.")]
    TooSmall(usize),
    /// There are this many bytes, more than 2046.
    #[error("IPv6 extensions header payload length is too large. The payload size ({0} bytes) is larger then what can be be represented by the 'extended header size' field in an IPv6 extension header.")]
    TooBig(usize),
    /// There are this many bytes, and 2 more are not a multiple of 8.
    #[error("IPv6 extensions header 'payload length ({0} bytes) + 2' is not multiple of 8 (+ 2 for the `next_header` and `header_length` fields). This is required as the header length field can only express lengths in multiple of 8 bytes.")]
    Unaligned(usize),
}

impl ExtPayloadLenError {
    /// Returns the error's cause: always `None`.
    pub fn source(&self) -> Option<Source<'_>>
        ensures { IsNone result }
    {
        None
    }
}
