//! The error of a parse of an authentication header.
ghost use Rattle.std.specs.Prelude.{◌≡◌, Some};
ghost use Rattle.std.specs.Option.{option_map};
ghost use Rattle.ip_base.specs.Cause.{cause_in};

use super::HeaderError;
use crate::err::Source;
use ip_base::err::LenError;
use thiserror::Error;

/// Why a slice doesn't start with an authentication header.
#[derive(Clone, Debug, PartialEq, Eq, Hash, Drop, Error)]
pub enum HeaderSliceError {
    /// There are fewer bytes than the header needs.
    #[error(transparent)]
    Len(LenError),
    /// The bytes are not a valid header.
    #[error(transparent)]
    Content(HeaderError),
}

impl HeaderSliceError {
    ghost use Rattle.ip_ext_headers.specs.AuthSliceError.{cause_of};
    ghost use Rattle.ip_ext_headers.specs.HeaderFault.{auth_moved, AuthOffsetFits};

    /// Returns the error with `offset` bytes added to the offset of a length error. Nothing else changes. The sum of
    /// the offsets must be below 2^64.
    pub fn add_slice_offset(self, offset: usize) -> HeaderSliceError
        requires { AuthOffsetFits self offset }
        ensures { result ≡ auth_moved offset self }
    {
        match self {
            HeaderSliceError::Len(e) => HeaderSliceError::Len(e.add_offset(offset)),
            HeaderSliceError::Content(e) => HeaderSliceError::Content(e),
        }
    }

    /// Returns the error's cause.
    pub fn source(&self) -> Option<Source<'_>>
        ensures { option_map cause_in result ≡ Some (cause_of self.now) }
    {
        match self {
            HeaderSliceError::Len(e) => Some(Source::Len(e)),
            HeaderSliceError::Content(e) => Some(Source::IpAuth(e)),
        }
    }
}
