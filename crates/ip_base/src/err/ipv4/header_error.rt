//! The error of the bytes of an IPv4 header.
use thiserror::Error;

/// An error in the bytes of an IPv4 base header.
#[derive(Clone, Debug, PartialEq, Eq, Hash, Drop, Error)]
pub enum HeaderError {
    /// The version isn't 4.
    #[error("IPv4 header: version number {version_number} where 4 is required")]
    UnexpectedVersion {
        /// The version, the high half of byte 0.
        version_number: u8,
    },
    /// The internet header length is below 5, the length of a header without options in units of 4 bytes (RFC
    /// 791, section 3.1).
    #[error("IPv4 header: length {ihl} where at least 5 is required")]
    HeaderLengthSmallerThanHeader {
        /// The internet header length, the low half of byte 0.
        ihl: u8,
    },
}
