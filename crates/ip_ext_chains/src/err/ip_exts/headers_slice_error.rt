//! The error of a parse of extension headers of either version.
ghost use Rattle.std.specs.Prelude.{◌≡◌, Some};
ghost use Rattle.std.specs.Option.{option_map};
ghost use Rattle.ip_base.specs.ChainCause.{chain_cause_in};

use super::HeaderError;
use crate::err::{ChainSource, LenError};
use thiserror::Error;

/// Why the extension headers of a packet of either IP version end at an extension header's number.
#[derive(Clone, Debug, PartialEq, Eq, Hash, Drop, Error)]
pub enum HeadersSliceError {
    /// There are fewer bytes than the header needs.
    #[error(transparent)]
    Len(LenError),
    /// A header is malformed, or IPv6 hop-by-hop options are not at the start.
    #[error(transparent)]
    Content(HeaderError),
}

impl HeadersSliceError {
    ghost use Rattle.ip_ext_chains.specs.HeadersSliceError.{len_of, content_of, cause_of};

    /// Returns the length error, if this is one.
    pub fn len_error(&self) -> Option<&LenError>
        ensures { option_map (λ e. e.now) result ≡ len_of self.now }
    {
        match self {
            HeadersSliceError::Len(e) => Some(e),
            HeadersSliceError::Content(_) => None,
        }
    }

    /// Returns the error in the bytes, if this is one.
    pub fn content(&self) -> Option<&HeaderError>
        ensures { option_map (λ e. e.now) result ≡ content_of self.now }
    {
        match self {
            HeadersSliceError::Len(_) => None,
            HeadersSliceError::Content(e) => Some(e),
        }
    }

    /// Returns the error's cause.
    pub fn source(&self) -> Option<ChainSource<'_>>
        ensures { option_map chain_cause_in result ≡ Some (cause_of self.now) }
    {
        match self {
            HeadersSliceError::Len(e) => Some(ChainSource::Len(e)),
            HeadersSliceError::Content(e) => Some(ChainSource::IpExts(e)),
        }
    }
}
