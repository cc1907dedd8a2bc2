//! The error of an IP header of either version.
ghost use Rattle.std.specs.Prelude.{IsNone};

use crate::err::PacketSource;
use thiserror::Error;

/// Why a packet's first byte doesn't start a base header of either IP version.
#[derive(Clone, Debug, PartialEq, Eq, Hash, Drop, Error)]
pub enum HeaderError {
    /// The version is neither 4 nor 6.
    #[error("IP Header Error: Encountered '{version_number}' as IP version number in the IP header (only '4' or '6' are supported).")]
    UnsupportedIpVersion {
        /// The version, the high half of byte 0.
        version_number: u8,
    },
    /// The version is 4, and the internet header length is below 5, the length of a header without options in
    /// units of 4 bytes (RFC 791, section 3.1).
    #[error("IPv4 Header Error: The 'internet header length' value '{ihl}' present in the IPv4 header is smaller than the minimum size of an IPv4 header. The minimum allowed value is '5'.")]
    Ipv4HeaderLengthSmallerThanHeader {
        /// The internet header length, the low half of byte 0.
        ihl: u8,
    },
}

impl HeaderError {
    /// Returns the error's cause: always `None`.
    pub fn source(&self) -> Option<PacketSource<'_>>
        ensures { IsNone result }
    {
        None
    }
}
