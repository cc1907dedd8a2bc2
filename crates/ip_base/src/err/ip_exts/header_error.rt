//! The error of the bytes of extension headers of either version.
ghost use Rattle.std.specs.Prelude.{◌≡◌, Some};
ghost use Rattle.std.specs.Option.{option_map};
ghost use Rattle.ip_base.specs.ChainCause.{chain_cause_in};

use crate::err::{ChainSource, ip_auth, ipv6_exts};
use thiserror::Error;

/// An error in the bytes of a packet's extension headers, of either IP version.
#[derive(Clone, Debug, PartialEq, Eq, Hash, Drop, Error)]
pub enum HeaderError {
    /// An IPv4 authentication header is malformed.
    #[error(transparent)]
    Ipv4Ext(ip_auth::HeaderError),
    /// The IPv6 chain is malformed.
    #[error(transparent)]
    Ipv6Ext(ipv6_exts::HeaderError),
}

impl HeaderError {
    ghost use Rattle.ip_base.specs.IpHeaderError.{cause_of};

    /// Returns the cause of the version's error.
    pub fn source(&self) -> Option<ChainSource<'_>>
        ensures { option_map chain_cause_in result ≡ Some (cause_of self.now) }
    {
        match self {
            HeaderError::Ipv4Ext(e) => Some(ChainSource::IpAuth(e)),
            HeaderError::Ipv6Ext(e) => Some(ChainSource::Ipv6Exts(e)),
        }
    }
}
