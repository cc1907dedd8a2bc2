//! The error of a parse of a packet of either version.
ghost use Rattle.std.specs.Prelude.{◌≡◌, Some};
ghost use Rattle.std.specs.Option.{option_map};
ghost use Rattle.ip_base.specs.PacketCause.{packet_cause_in};

use super::HeadersError;
use crate::err::{LenError, PacketSource};
use thiserror::Error;

/// Why a slice doesn't start with a packet of either IP version.
#[derive(Clone, Debug, PartialEq, Eq, Hash, Drop, Error)]
pub enum SliceError {
    /// There are fewer bytes than a header or the packet needs.
    #[error(transparent)]
    Len(LenError),
    /// The bytes of a header are malformed.
    #[error(transparent)]
    IpHeaders(HeadersError),
}

impl SliceError {
    ghost use Rattle.ip_base.specs.IpSliceError.{cause_of};

    /// Returns the error's cause.
    pub fn source(&self) -> Option<PacketSource<'_>>
        ensures { option_map packet_cause_in result ≡ Some (cause_of self.now) }
    {
        match self {
            SliceError::Len(e) => Some(PacketSource::Len(e)),
            SliceError::IpHeaders(e) => Some(PacketSource::IpHeaders(e)),
        }
    }
}
