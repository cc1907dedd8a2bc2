//! The error of a walk over IPv4 extension headers.
ghost use Rattle.std.specs.Prelude.{IsNone};

use crate::IpNumber;
use crate::err::ChainSource;
use thiserror::Error;

/// Why a walk over an IPv4 packet's extension headers doesn't reach the header.
#[derive(Clone, Debug, PartialEq, Eq, Hash, Drop, Error)]
pub enum ExtsWalkError {
    /// A header is present, but no number refers to it.
    #[error("IPv4 extensions '{missing_ext:?}' is defined but is not referenced by the 'protocol' the IPv4 header.")]
    ExtNotReferenced {
        /// The protocol number of that header.
        missing_ext: IpNumber,
    },
}

impl ExtsWalkError {
    /// Returns the error's cause: always `None`.
    pub fn source(&self) -> Option<ChainSource<'_>>
        ensures { IsNone result }
    {
        None
    }
}
