//! The source of an IPv6 packet's length.
ghost use Rattle.std.specs.Prelude.{◌≡◌, length};
ghost use Rattle.etherparse_ip.specs.LenSources.{front, ipv6_len_source};

use ip_base::{Ipv6Header, LenSource};

/// Returns the bytes of the packet with this payload length at the start of the slice, and the source of their
/// length.
#[inline(always)]
pub(crate) fn ipv6_front(payload_length: u16, slice: &[u8]) -> (&[u8], LenSource)
    ensures source { result.1 ≡ ipv6_len_source payload_length (length slice.now) }
    ensures front { result.0.now ≡ front result.1 payload_length slice.now }
{
    let stated = Ipv6Header::LEN + usize::from(payload_length);
    if slice.len() < stated {
        return (slice, LenSource::Slice);
    }
    if payload_length == 0 && slice.len() > Ipv6Header::LEN {
        return (slice, LenSource::Slice);
    }
    (&slice[..stated], LenSource::Ipv6HeaderPayloadLen)
}
