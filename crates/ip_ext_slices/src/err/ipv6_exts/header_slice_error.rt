//! The error of a parse of IPv6 extension headers.
ghost use Rattle.std.specs.Prelude.{◌≡◌, Some};
ghost use Rattle.std.specs.Option.{option_map};
ghost use Rattle.ip_base.specs.ChainCause.{chain_cause_in};

use super::HeaderError;
use crate::err::ChainSource;
use ip_base::err::LenError;
use thiserror::Error;

/// Why an IPv6 chain ends at an extension header's number.
#[derive(Clone, Debug, PartialEq, Eq, Hash, Drop, Error)]
pub enum HeaderSliceError {
    /// There are fewer bytes than the header needs.
    #[error(transparent)]
    Len(LenError),
    /// A header is malformed, or hop-by-hop options are not at the start.
    #[error(transparent)]
    Content(HeaderError),
}

impl HeaderSliceError {
    ghost use Rattle.ip_ext_slices.specs.ChainFault.{exts_moved, ExtsOffsetFits};
    ghost use Rattle.ip_ext_slices.specs.SliceError.{len_of, content_of, cause_of};

    /// Returns the error with `offset` bytes added to the offset of a length error. Nothing else changes. The sum of
    /// the offsets must be below 2^64.
    pub fn add_slice_offset(self, offset: usize) -> HeaderSliceError
        requires { ExtsOffsetFits self offset }
        ensures { result ≡ exts_moved offset self }
    {
        match self {
            HeaderSliceError::Len(e) => HeaderSliceError::Len(e.add_offset(offset)),
            HeaderSliceError::Content(e) => HeaderSliceError::Content(e),
        }
    }

    /// Returns the length error, if this is one.
    pub fn len_error(&self) -> Option<&LenError>
        ensures { option_map (λ e. e.now) result ≡ len_of self.now }
    {
        match self {
            HeaderSliceError::Len(e) => Some(e),
            HeaderSliceError::Content(_) => None,
        }
    }

    /// Returns the error in the bytes, if this is one.
    pub fn content(&self) -> Option<&HeaderError>
        ensures { option_map (λ e. e.now) result ≡ content_of self.now }
    {
        match self {
            HeaderSliceError::Len(_) => None,
            HeaderSliceError::Content(e) => Some(e),
        }
    }

    /// Returns the error's cause.
    pub fn source(&self) -> Option<ChainSource<'_>>
        ensures { option_map chain_cause_in result ≡ Some (cause_of self.now) }
    {
        match self {
            HeaderSliceError::Len(e) => Some(ChainSource::Len(e)),
            HeaderSliceError::Content(e) => Some(ChainSource::Ipv6Exts(e)),
        }
    }
}
