//! The error of a parse of an IPv6 packet.
ghost use Rattle.std.specs.Prelude.{◌≡◌, Some};
ghost use Rattle.std.specs.Option.{option_map};
ghost use Rattle.ip_base.specs.PacketCause.{packet_cause_in};

use super::HeaderError;
use crate::err::{LenError, PacketSource, ipv6_exts};
use thiserror::Error;

/// Why a slice doesn't start with an IPv6 packet.
#[derive(Clone, Debug, PartialEq, Eq, Hash, Drop, Error)]
pub enum SliceError {
    /// There are fewer bytes than a header or the packet needs.
    #[error(transparent)]
    Len(LenError),
    /// The bytes of the base header are malformed.
    #[error(transparent)]
    Header(HeaderError),
    /// The bytes of the extension headers are not a valid chain.
    #[error(transparent)]
    Exts(ipv6_exts::HeaderError),
}

impl SliceError {
    ghost use Rattle.etherparse_ip.specs.Ipv6SliceError.{cause_of};

    /// Returns the error's cause.
    pub fn source(&self) -> Option<PacketSource<'_>>
        ensures { option_map packet_cause_in result ≡ Some (cause_of self.now) }
    {
        match self {
            SliceError::Len(e) => Some(PacketSource::Len(e)),
            SliceError::Header(e) => Some(PacketSource::Ipv6Header(e)),
            SliceError::Exts(e) => Some(PacketSource::Ipv6Exts(e)),
        }
    }
}
