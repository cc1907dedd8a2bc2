//! The error of a write of IPv4 extension headers.
ghost use Rattle.std.specs.Prelude.{◌≡◌, Some};
ghost use Rattle.std.specs.Option.{option_map};
ghost use Rattle.ip_base.specs.ChainCause.{chain_cause_in};

use super::ExtsWalkError;
use crate::err::ChainSource;
use std::alloc::AllocError;
use thiserror::Error;

/// Why an IPv4 packet's extension headers weren't written.
#[derive(Debug, Drop, Error)]
pub enum HeaderWriteError {
    /// The vector has no room and can't grow.
    #[error("out of memory")]
    Io(AllocError),
    /// A header is present, but the packet's protocol number doesn't refer to it.
    #[error(transparent)]
    Content(ExtsWalkError),
}

impl HeaderWriteError {
    ghost use Rattle.ip_ext_chains.specs.Ipv4WriteError.{io_of, content_of, cause_of};

    /// Returns the allocation error, if this is one.
    pub fn io(&self) -> Option<&AllocError>
        ensures { option_map (λ e. e.now) result ≡ io_of self.now }
    {
        match self {
            HeaderWriteError::Io(e) => Some(e),
            HeaderWriteError::Content(_) => None,
        }
    }

    /// Returns the error of the walk, if this is one.
    pub fn content(&self) -> Option<&ExtsWalkError>
        ensures { option_map (λ e. e.now) result ≡ content_of self.now }
    {
        match self {
            HeaderWriteError::Io(_) => None,
            HeaderWriteError::Content(e) => Some(e),
        }
    }

    /// Returns the error's cause.
    pub fn source(&self) -> Option<ChainSource<'_>>
        ensures { option_map chain_cause_in result ≡ Some (cause_of self.now) }
    {
        match self {
            HeaderWriteError::Io(e) => Some(ChainSource::Memory(e)),
            HeaderWriteError::Content(e) => Some(ChainSource::Ipv4Walk(e)),
        }
    }
}
