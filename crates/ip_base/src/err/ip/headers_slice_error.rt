//! The error of a parse of the IP headers of a packet.
ghost use Rattle.std.specs.Prelude.{◌≡◌, Some};
ghost use Rattle.std.specs.Option.{option_map};
ghost use Rattle.ip_base.specs.PacketCause.{packet_cause_in};

use super::HeadersError;
use crate::err::{LenError, PacketSource};
use thiserror::Error;

/// Why a slice doesn't start with the headers of a packet of either IP version.
#[derive(Clone, Debug, PartialEq, Eq, Hash, Drop, Error)]
pub enum HeadersSliceError {
    /// There are fewer bytes than a header needs.
    #[error(transparent)]
    Len(LenError),
    /// The bytes of a header are malformed.
    #[error(transparent)]
    Content(HeadersError),
}

impl HeadersSliceError {
    ghost use Rattle.ip_base.specs.PacketHeadersError.{cause_of, headers_moved, HeadersOffsetFits};

    /// Returns the error with `offset` bytes added to the offset of a length error. Nothing else changes. The sum of
    /// the offsets must be below 2^64.
    pub fn add_slice_offset(self, offset: usize) -> HeadersSliceError
        requires { HeadersOffsetFits self offset }
        ensures { result ≡ headers_moved offset self }
    {
        match self {
            HeadersSliceError::Len(e) => HeadersSliceError::Len(e.add_offset(offset)),
            HeadersSliceError::Content(e) => HeadersSliceError::Content(e),
        }
    }

    /// Returns the error's cause.
    pub fn source(&self) -> Option<PacketSource<'_>>
        ensures { option_map packet_cause_in result ≡ Some (cause_of self.now) }
    {
        match self {
            HeadersSliceError::Len(e) => Some(PacketSource::Len(e)),
            HeadersSliceError::Content(e) => Some(PacketSource::IpHeaders(e)),
        }
    }
}
