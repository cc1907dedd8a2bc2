//! The codes of errors.
ghost use Rattle.std.specs.Prelude.{◌≡◌};
ghost use Rattle.ip_codes.specs.Codes.{error_kind};

use ip_base::err::ip::{HeaderError, HeadersError, SliceError};
use ip_base::err::ipv6_exts;

/// The codes of the kinds of errors.
pub mod kind {
    /// No error.
    pub const NONE: u8 = 0;

    /// Too few bytes.
    pub const TOO_SHORT: u8 = 1;

    /// Hop-by-hop options after another header.
    pub const HOP_BY_HOP_NOT_AT_START: u8 = 2;

    /// An authentication header whose length field is 0.
    pub const ZERO_PAYLOAD_LEN: u8 = 3;

    /// A version that is neither 4 nor 6.
    pub const UNSUPPORTED_IP_VERSION: u8 = 4;

    /// An IPv4 header length below 5.
    pub const IPV4_HEADER_LENGTH: u8 = 5;
}

/// Returns the code of the kind of an error in a packet.
#[inline(always)]
pub fn error_kind_of(error: &SliceError) -> u8
    ensures { result ≡ error_kind error.now }
{
    match error {
        SliceError::Len(_) => kind::TOO_SHORT,
        SliceError::IpHeaders(HeadersError::Ip(HeaderError::UnsupportedIpVersion { .. })) => {
            kind::UNSUPPORTED_IP_VERSION
        }
        SliceError::IpHeaders(
            HeadersError::Ip(HeaderError::Ipv4HeaderLengthSmallerThanHeader { .. }),
        ) => kind::IPV4_HEADER_LENGTH,
        SliceError::IpHeaders(HeadersError::Ipv4Ext(_)) => kind::ZERO_PAYLOAD_LEN,
        SliceError::IpHeaders(HeadersError::Ipv6Ext(ipv6_exts::HeaderError::HopByHopNotAtStart)) =>
            { kind::HOP_BY_HOP_NOT_AT_START }
        SliceError::IpHeaders(HeadersError::Ipv6Ext(ipv6_exts::HeaderError::IpAuth(_))) => {
            kind::ZERO_PAYLOAD_LEN
        }
    }
}
