//! The error of a parse of an IPv6 header.
use super::HeaderError;
use crate::err::LenError;
use thiserror::Error;

/// Why a slice doesn't start with an IPv6 base header.
#[derive(Clone, Debug, PartialEq, Eq, Hash, Drop, Error)]
pub enum HeaderSliceError {
    /// There are fewer bytes than the header needs.
    #[error(transparent)]
    Len(LenError),
    /// The bytes are not a valid header.
    #[error(transparent)]
    Content(HeaderError),
}
