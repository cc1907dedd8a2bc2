//! The error of a read of IPv6 extension headers within a limit.
ghost use Rattle.std.specs.Prelude.{◌≡◌, Some};
ghost use Rattle.std.specs.Option.{option_map};
ghost use Rattle.ip_base.specs.ChainCause.{chain_cause_in};

use super::HeaderError;
use crate::err::{ChainSource, LenError};
use ip_ext_headers::err::io::LimitedReadError;
use std::io;
use thiserror::Error;

/// The error of a read of IPv6 extension headers within a limit.
#[derive(Debug, Drop, Error)]
pub enum HeaderLimitedReadError {
    /// The reader failed.
    #[error("IPv6 Extension Header IO Error: {0}")]
    Io(io::Error),
    /// A header needs more bytes than the limit leaves.
    #[error(transparent)]
    Len(LenError),
    /// A header is malformed, or hop-by-hop options are not at the start.
    #[error(transparent)]
    Content(HeaderError),
}

impl HeaderLimitedReadError {
    ghost use Rattle.ip_ext_chains.specs.ChainLimitedReadError.{io_of, len_of, content_of, cause_of};
    ghost use Rattle.ip_ext_chains.specs.ReadError.{of_limited_error};

    /// Converts the error of a limited read.
    pub(crate) fn of_limited(error: LimitedReadError) -> HeaderLimitedReadError
        ensures { result ≡ of_limited_error error }
    {
        match error {
            LimitedReadError::Io(e) => HeaderLimitedReadError::Io(e),
            LimitedReadError::Len(e) => HeaderLimitedReadError::Len(e),
        }
    }

    /// Returns the reader's error, if this is one.
    pub fn io(self) -> Option<io::Error>
        ensures { result ≡ io_of self }
    {
        match self {
            HeaderLimitedReadError::Io(e) => Some(e),
            _ => None,
        }
    }

    /// Returns the length error, if this is one.
    pub fn len(self) -> Option<LenError>
        ensures { result ≡ len_of self }
    {
        match self {
            HeaderLimitedReadError::Len(e) => Some(e),
            _ => None,
        }
    }

    /// Returns the error in the bytes, if this is one.
    pub fn content(self) -> Option<HeaderError>
        ensures { result ≡ content_of self }
    {
        match self {
            HeaderLimitedReadError::Content(e) => Some(e),
            _ => None,
        }
    }

    /// Returns the error's cause.
    pub fn source(&self) -> Option<ChainSource<'_>>
        ensures { option_map chain_cause_in result ≡ Some (cause_of self.now) }
    {
        match self {
            HeaderLimitedReadError::Io(e) => Some(ChainSource::Io(e)),
            HeaderLimitedReadError::Len(e) => Some(ChainSource::Len(e)),
            HeaderLimitedReadError::Content(e) => Some(ChainSource::Ipv6Exts(e)),
        }
    }
}
