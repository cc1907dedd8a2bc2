//! The layers of headers that are truncated or faulty.
ghost use Rattle.std.specs.Prelude.{◌≡◌};
ghost use Rattle.ip_codes.specs.EndLayer.{error_layer, end_layer};

use ip_base::err::ip::{HeaderError, HeadersError, SliceError};
use ip_base::err::{Layer, ipv6_exts};
use ip_dissect::End;

/// Returns the layer of the header that is truncated or faulty, or else the one that the error names.
#[inline(always)]
pub fn end_layer(end: &End) -> Option<Layer>
    ensures { result ≡ end_layer end.now }
{
    match end {
        End::Truncated { error, header } => Some(header.unwrap_or(error.layer)),
        End::Fault { error, header } => Some(header.unwrap_or(error_layer(error))),
        _ => None,
    }
}

/// Returns the layer that an error in a packet names.
fn error_layer(error: &SliceError) -> Layer
    ensures { result ≡ error_layer error.now }
{
    match error {
        SliceError::Len(error) => error.layer,
        SliceError::IpHeaders(HeadersError::Ip(HeaderError::UnsupportedIpVersion { .. })) => {
            Layer::IpHeader
        }
        SliceError::IpHeaders(
            HeadersError::Ip(HeaderError::Ipv4HeaderLengthSmallerThanHeader { .. }),
        ) => Layer::Ipv4Header,
        SliceError::IpHeaders(HeadersError::Ipv4Ext(_)) => Layer::IpAuthHeader,
        SliceError::IpHeaders(HeadersError::Ipv6Ext(ipv6_exts::HeaderError::HopByHopNotAtStart)) =>
            { Layer::Ipv6HopByHopHeader }
        SliceError::IpHeaders(HeadersError::Ipv6Ext(ipv6_exts::HeaderError::IpAuth(_))) => {
            Layer::IpAuthHeader
        }
    }
}
