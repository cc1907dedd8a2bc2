//! What a header says of the packet.
ghost use Rattle.std.specs.Prelude.{◌≡◌};
ghost use Rattle.ip_spec.specs.Header.{IsHeader};
ghost use Rattle.ip_spec.specs.Chain.{ExtHeader};
ghost use Rattle.ip_dissect.specs.Fragment.{fragments};
ghost use Rattle.ip_rewrite.specs.Without.{has_segments};

use ip_base::{IpNumber, ip_number};
use ip_ext_headers::Ipv6FragmentHeaderSlice;

/// Returns whether a header fragments the payload.
#[inline(always)]
pub(crate) fn fragments(number: IpNumber, header: &[u8]) -> bool
    requires { IsHeader number.0 header.now }
    ensures { (h : ExtHeader) → h ≡ record { number = number.0; bytes = header.now }
        → result ≡ fragments h }
{
    if number != ip_number::IPV6_FRAG {
        return false;
    }
    match Ipv6FragmentHeaderSlice::from_slice(header) {
        Ok(fields) => fields.is_fragmenting_payload(),
        Err(_) => false,
    }
}

/// Returns whether a header is a routing header with segments left (RFC 8200, section 4.4).
#[inline(always)]
pub(crate) fn has_segments(number: IpNumber, header: &[u8]) -> bool
    requires { IsHeader number.0 header.now }
    ensures { (h : ExtHeader) → h ≡ record { number = number.0; bytes = header.now }
        → result ≡ has_segments h }
{
    // no branch: which headers are routing headers can't be predicted
    (number == ip_number::IPV6_ROUTE) & (header[3] != 0)
}
