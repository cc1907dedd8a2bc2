//! The error of a read of an authentication header within a limit.
ghost use Rattle.std.specs.Prelude.{◌≡◌, Some};
ghost use Rattle.std.specs.Option.{option_map};
ghost use Rattle.ip_base.specs.Cause.{cause_in};

use super::HeaderError;
use crate::err::Source;
use ip_base::err::LenError;
use ip_base::err::io::LimitedReadError;
use std::io;
use thiserror::Error;

/// The error of a read of an authentication header within a limit.
#[derive(Debug, Drop, Error)]
pub enum HeaderLimitedReadError {
    /// The reader failed.
    #[error("IP Authentication Header IO Error: {0}")]
    Io(io::Error),
    /// The header needs more bytes than the limit leaves.
    #[error(transparent)]
    Len(LenError),
    /// The bytes are not a valid header.
    #[error(transparent)]
    Content(HeaderError),
}

impl HeaderLimitedReadError {
    ghost use Rattle.ip_ext_headers.specs.AuthLimitedReadError.{io_of, len_of, content_of, cause_of};
    ghost use Rattle.ip_ext_headers.specs.AuthReading.{of_limited_error};

    /// Converts the error of a limited read.
    pub(crate) fn of_limited(error: LimitedReadError) -> HeaderLimitedReadError
        ensures { result ≡ of_limited_error error }
    {
        match error {
            LimitedReadError::Io(e) => HeaderLimitedReadError::Io(e),
            LimitedReadError::Len(e) => HeaderLimitedReadError::Len(e),
        }
    }

    /// Returns the reader's error, if this is one.
    pub fn io(self) -> Option<io::Error>
        ensures { result ≡ io_of self }
    {
        match self {
            HeaderLimitedReadError::Io(e) => Some(e),
            HeaderLimitedReadError::Len(_) => None,
            HeaderLimitedReadError::Content(_) => None,
        }
    }

    /// Returns the length error, if this is one.
    pub fn len(self) -> Option<LenError>
        ensures { result ≡ len_of self }
    {
        match self {
            HeaderLimitedReadError::Io(_) => None,
            HeaderLimitedReadError::Len(e) => Some(e),
            HeaderLimitedReadError::Content(_) => None,
        }
    }

    /// Returns the error in the bytes, if this is one.
    pub fn content(self) -> Option<HeaderError>
        ensures { result ≡ content_of self }
    {
        match self {
            HeaderLimitedReadError::Io(_) => None,
            HeaderLimitedReadError::Len(_) => None,
            HeaderLimitedReadError::Content(e) => Some(e),
        }
    }

    /// Returns the error's cause.
    pub fn source(&self) -> Option<Source<'_>>
        ensures { option_map cause_in result ≡ Some (cause_of self.now) }
    {
        match self {
            HeaderLimitedReadError::Io(e) => Some(Source::Io(e)),
            HeaderLimitedReadError::Len(e) => Some(Source::Len(e)),
            HeaderLimitedReadError::Content(e) => Some(Source::IpAuth(e)),
        }
    }
}
