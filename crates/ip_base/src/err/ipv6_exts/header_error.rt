//! The error of the bytes of IPv6 extension headers.
ghost use Rattle.std.specs.Prelude.{◌≡◌};
ghost use Rattle.std.specs.Option.{option_map};
ghost use Rattle.ip_base.specs.ChainCause.{chain_cause_in};

use crate::err::{ChainSource, ip_auth};
use thiserror::Error;

/// An error in the bytes of an IPv6 chain.
#[derive(Clone, Debug, PartialEq, Eq, Hash, Drop, Error)]
pub enum HeaderError {
    /// A header's next header is hop-by-hop options. They may only follow the IPv6 header directly (RFC 8200, section
    /// 4.1).
    #[error("IPv6 Extension Header Error: Encountered an IPv6 hop-by-hop header not directly after the IPv6 header. This is not allowed according to RFC 8200.")]
    HopByHopNotAtStart,
    /// The bytes of an authentication header are malformed.
    #[error(transparent)]
    IpAuth(ip_auth::HeaderError),
}

impl HeaderError {
    ghost use Rattle.ip_base.specs.Ipv6HeaderError.{cause_of};

    /// Returns the authentication header's error, if it is one.
    pub fn source(&self) -> Option<ChainSource<'_>>
        ensures { option_map chain_cause_in result ≡ cause_of self.now }
    {
        match self {
            HeaderError::HopByHopNotAtStart => None,
            HeaderError::IpAuth(e) => Some(ChainSource::IpAuth(e)),
        }
    }
}
