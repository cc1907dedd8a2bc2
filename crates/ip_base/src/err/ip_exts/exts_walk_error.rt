//! The error of a walk over extension headers of either version.
ghost use Rattle.std.specs.Prelude.{◌≡◌, Some};
ghost use Rattle.std.specs.Option.{option_map};
ghost use Rattle.ip_base.specs.ChainCause.{chain_cause_in};

use crate::err::{ChainSource, ipv4_exts, ipv6_exts};
use thiserror::Error;

/// Why a walk over a packet's extension headers, of either IP version, doesn't reach every header.
#[derive(Clone, Debug, PartialEq, Eq, Hash, Drop, Error)]
pub enum ExtsWalkError {
    /// IPv4 extension headers.
    #[error(transparent)]
    Ipv4Exts(ipv4_exts::ExtsWalkError),
    /// IPv6 extension headers.
    #[error(transparent)]
    Ipv6Exts(ipv6_exts::ExtsWalkError),
}

impl ExtsWalkError {
    ghost use Rattle.ip_base.specs.IpWalkError.{cause_of};

    /// Returns the cause of the version's error.
    pub fn source(&self) -> Option<ChainSource<'_>>
        ensures { option_map chain_cause_in result ≡ Some (cause_of self.now) }
    {
        match self {
            ExtsWalkError::Ipv4Exts(e) => Some(ChainSource::Ipv4Walk(e)),
            ExtsWalkError::Ipv6Exts(e) => Some(ChainSource::Ipv6Walk(e)),
        }
    }
}
