//! The fields of base headers: the stated length, and the fragment.
ghost use Rattle.std.specs.Prelude.{◌≡◌, ◌≤◌};
ghost use Rattle.ip_base.specs.Ipv4Header.{ipv4_fragment_offset};
ghost use Rattle.ip_base.specs.Ipv4HeaderSlice as ipv4_header;
ghost use Rattle.ip_base.specs.Ipv6HeaderSlice as ipv6_header;
ghost use Rattle.ip_dissect.specs.Fragment.{ipv4_fragment};
ghost use Rattle.ip_dissect.specs.Extent.{ipv4_stated, ipv6_stated};

use crate::Fragment;
use ip_base::{Ipv4HeaderSlice, Ipv6Header, Ipv6HeaderSlice};

/// Returns the length that an IPv4 base header states.
#[inline(always)]
pub(crate) fn ipv4_stated_len(base: Ipv4HeaderSlice<'_>) -> Option<usize>
    ensures { result ≡ ipv4_stated (ipv4_header.bytes base.entry) }
{
    let total_len = base.total_len();
    if total_len == 0 {
        return None;
    }
    Some(usize::from(total_len))
}

/// Returns the length that an IPv6 base header states, base header included.
#[inline(always)]
pub(crate) fn ipv6_stated_len(base: Ipv6HeaderSlice<'_>) -> Option<usize>
    ensures { result ≡ ipv6_stated (ipv6_header.bytes base.entry) }
{
    let payload_length = base.payload_length();
    if payload_length == 0 {
        return None;
    }
    Some(Ipv6Header::LEN + usize::from(payload_length))
}

/// Returns the fragment offset of an IPv4 base header, in units of 8 bytes.
#[inline(always)]
pub(crate) fn ipv4_offset(base: Ipv4HeaderSlice<'_>) -> u16
    ensures value { result ≡ ipv4_fragment_offset (ipv4_header.bytes base.entry) }
    ensures fits { result ≤ 8191 }
{
    base.fragments_offset().value()
}

/// Returns which fragment an IPv4 packet is.
#[inline(always)]
pub(crate) fn ipv4_fragment(base: Ipv4HeaderSlice<'_>) -> Option<Fragment>
    ensures { result ≡ ipv4_fragment (ipv4_header.bytes base.entry) }
{
    if !base.is_fragmenting_payload() {
        return None;
    }
    let identification = u32::from(base.identification());
    Some(Fragment::new(identification, base.more_fragments(), ipv4_offset(base)))
}
