//! The error of the IP headers of a packet.
ghost use Rattle.std.specs.Prelude.{◌≡◌, Some};
ghost use Rattle.std.specs.Option.{option_map};
ghost use Rattle.ip_base.specs.PacketCause.{packet_cause_in};

use super::HeaderError;
use crate::err::{PacketSource, ip_auth, ipv6_exts};
use thiserror::Error;

/// An error in the bytes of a packet's headers.
#[derive(Clone, Debug, PartialEq, Eq, Hash, Drop, Error)]
pub enum HeadersError {
    /// An error in the base header.
    #[error(transparent)]
    Ip(HeaderError),
    /// An error in an IPv4 authentication header.
    #[error(transparent)]
    Ipv4Ext(ip_auth::HeaderError),
    /// An error in the IPv6 extension headers.
    #[error(transparent)]
    Ipv6Ext(ipv6_exts::HeaderError),
}

impl HeadersError {
    ghost use Rattle.ip_base.specs.HeadersError.{cause_of};

    /// Returns the error's cause.
    pub fn source(&self) -> Option<PacketSource<'_>>
        ensures { option_map packet_cause_in result ≡ Some (cause_of self.now) }
    {
        match self {
            HeadersError::Ip(e) => Some(PacketSource::Ip(e)),
            HeadersError::Ipv4Ext(e) => Some(PacketSource::IpAuth(e)),
            HeadersError::Ipv6Ext(e) => Some(PacketSource::Ipv6Exts(e)),
        }
    }
}
