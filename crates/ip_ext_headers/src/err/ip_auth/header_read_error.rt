//! The error of a read of an authentication header.
ghost use Rattle.std.specs.Prelude.{◌≡◌, Some};
ghost use Rattle.std.specs.Option.{option_map};
ghost use Rattle.ip_base.specs.Cause.{cause_in};

use super::HeaderError;
use crate::err::Source;
use std::io;
use thiserror::Error;

/// The error of a read of an authentication header.
#[derive(Debug, Drop, Error)]
pub enum HeaderReadError {
    /// The reader failed.
    #[error("IP Authentication Header IO Error: {0}")]
    Io(io::Error),
    /// The bytes are not a valid header.
    #[error(transparent)]
    Content(HeaderError),
}

impl HeaderReadError {
    ghost use Rattle.ip_ext_headers.specs.AuthReadError.{io_of, content_of, cause_of};

    /// Returns the reader's error, if this is one.
    pub fn io(self) -> Option<io::Error>
        ensures { result ≡ io_of self }
    {
        match self {
            HeaderReadError::Io(e) => Some(e),
            HeaderReadError::Content(_) => None,
        }
    }

    /// Returns the error in the bytes, if this is one.
    pub fn content(self) -> Option<HeaderError>
        ensures { result ≡ content_of self }
    {
        match self {
            HeaderReadError::Io(_) => None,
            HeaderReadError::Content(e) => Some(e),
        }
    }

    /// Returns the error's cause.
    pub fn source(&self) -> Option<Source<'_>>
        ensures { option_map cause_in result ≡ Some (cause_of self.now) }
    {
        match self {
            HeaderReadError::Io(e) => Some(Source::Io(e)),
            HeaderReadError::Content(e) => Some(Source::IpAuth(e)),
        }
    }
}
