//! The error of a read of IPv6 extension headers.
ghost use Rattle.std.specs.Prelude.{◌≡◌, Some};
ghost use Rattle.std.specs.Option.{option_map};
ghost use Rattle.ip_base.specs.ChainCause.{chain_cause_in};

use super::HeaderError;
use crate::err::ChainSource;
use std::io;
use thiserror::Error;

/// The error of a read of IPv6 extension headers.
#[derive(Debug, Drop, Error)]
pub enum HeaderReadError {
    /// The reader failed.
    #[error("IPv6 Extension Header IO Error: {0}")]
    Io(io::Error),
    /// A header is malformed, or hop-by-hop options are not at the start.
    #[error(transparent)]
    Content(HeaderError),
}

impl HeaderReadError {
    ghost use Rattle.ip_ext_chains.specs.ChainReadError.{io_of, content_of, cause_of};

    /// Returns the reader's error, if this is one.
    pub fn io_error(self) -> Option<io::Error>
        ensures { result ≡ io_of self }
    {
        match self {
            HeaderReadError::Io(e) => Some(e),
            HeaderReadError::Content(_) => None,
        }
    }

    /// Returns the error in the bytes, if this is one.
    pub fn content_error(self) -> Option<HeaderError>
        ensures { result ≡ content_of self }
    {
        match self {
            HeaderReadError::Io(_) => None,
            HeaderReadError::Content(e) => Some(e),
        }
    }

    /// Returns the error's cause.
    pub fn source(&self) -> Option<ChainSource<'_>>
        ensures { option_map chain_cause_in result ≡ Some (cause_of self.now) }
    {
        match self {
            HeaderReadError::Io(e) => Some(ChainSource::Io(e)),
            HeaderReadError::Content(e) => Some(ChainSource::Ipv6Exts(e)),
        }
    }
}
