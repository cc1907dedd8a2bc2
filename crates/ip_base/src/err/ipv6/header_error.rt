//! The error of the bytes of an IPv6 header.
use thiserror::Error;

/// An error in the bytes of an IPv6 base header.
#[derive(Clone, Debug, PartialEq, Eq, Hash, Drop, Error)]
pub enum HeaderError {
    /// The version isn't 6.
    #[error("IPv6 header: version number {version_number} where 6 is required")]
    UnexpectedVersion {
        /// The version, the high half of byte 0.
        version_number: u8,
    },
}
