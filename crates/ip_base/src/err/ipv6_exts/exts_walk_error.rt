//! The error of a walk over IPv6 extension headers.
ghost use Rattle.std.specs.Prelude.{IsNone};

use crate::IpNumber;
use crate::err::ChainSource;
use thiserror::Error;

/// Why a walk along the next header numbers doesn't reach every header of a value.
#[derive(Clone, Debug, PartialEq, Eq, Hash, Drop, Error)]
pub enum ExtsWalkError {
    /// A header's next header is hop-by-hop options, and the value has them. They may only follow the IPv6 header
    /// directly (RFC 8200, section 4.1).
    #[error("IPv6 extensions hop-by-hop is not located directly after the IPv6 header (required by IPv6).")]
    HopByHopNotAtStart,
    /// No header that is reached refers to the header.
    #[error("IPv6 extensions '{missing_ext:?}' is defined but is not referenced by any of the 'next_header' of the other extension headers or the IPv6 header.")]
    ExtNotReferenced {
        /// The protocol number of the first header that isn't reached, in the order of the places.
        missing_ext: IpNumber,
    },
}

impl ExtsWalkError {
    /// Returns the error's cause: always `None`.
    pub fn source(&self) -> Option<ChainSource<'_>>
        ensures { IsNone result }
    {
        None
    }
}
