//! The error of a read within a limit.
ghost use Rattle.std.specs.Prelude.{◌≡◌, Some};
ghost use Rattle.std.specs.Option.{option_map};
ghost use Rattle.ip_base.specs.Cause.{cause_in};

use crate::err::{LenError, Source};
use std::io;
use thiserror::Error;

/// The error of a read within a limit.
#[derive(Debug, Drop, Error)]
pub enum LimitedReadError {
    /// The reader failed.
    #[error(transparent)]
    Io(io::Error),
    /// The request exceeds the limit.
    #[error(transparent)]
    Len(LenError),
}

impl LimitedReadError {
    ghost use Rattle.ip_base.specs.LimitedReadError.{io_of, len_of, cause_of};

    /// Returns the reader's error, if this is one.
    pub fn io(self) -> Option<io::Error>
        ensures { result ≡ io_of self }
    {
        match self {
            LimitedReadError::Io(e) => Some(e),
            LimitedReadError::Len(_) => None,
        }
    }

    /// Returns the length error, if this is one.
    pub fn len(self) -> Option<LenError>
        ensures { result ≡ len_of self }
    {
        match self {
            LimitedReadError::Io(_) => None,
            LimitedReadError::Len(e) => Some(e),
        }
    }

    /// Returns the error's cause.
    pub fn source(&self) -> Option<Source<'_>>
        ensures { option_map cause_in result ≡ Some (cause_of self.now) }
    {
        match self {
            LimitedReadError::Io(e) => Some(Source::Io(e)),
            LimitedReadError::Len(e) => Some(Source::Len(e)),
        }
    }
}
