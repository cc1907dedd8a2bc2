//! The error of a parse of an IPv4 packet.
ghost use Rattle.std.specs.Prelude.{◌≡◌, Some};
ghost use Rattle.std.specs.Option.{option_map};
ghost use Rattle.ip_base.specs.PacketCause.{packet_cause_in};

use super::HeaderError;
use crate::err::{LenError, PacketSource, ip_auth};
use thiserror::Error;

/// Why a slice doesn't start with an IPv4 packet.
#[derive(Clone, Debug, PartialEq, Eq, Hash, Drop, Error)]
pub enum SliceError {
    /// There are fewer bytes than a header or the packet needs.
    #[error(transparent)]
    Len(LenError),
    /// The bytes of the base header are malformed.
    #[error(transparent)]
    Header(HeaderError),
    /// The bytes of an authentication header are malformed.
    #[error(transparent)]
    Exts(ip_auth::HeaderError),
}

impl SliceError {
    ghost use Rattle.etherparse_ip.specs.Ipv4SliceError.{cause_of};

    /// Returns the error's cause.
    pub fn source(&self) -> Option<PacketSource<'_>>
        ensures { option_map packet_cause_in result ≡ Some (cause_of self.now) }
    {
        match self {
            SliceError::Len(e) => Some(PacketSource::Len(e)),
            SliceError::Header(e) => Some(PacketSource::Ipv4Header(e)),
            SliceError::Exts(e) => Some(PacketSource::IpAuth(e)),
        }
    }
}
