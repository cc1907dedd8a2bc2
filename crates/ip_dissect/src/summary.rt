//! The parts of a packet as lengths and numbers.
ghost use Rattle.std.specs.Prelude.{◌≡◌, length, Some};
ghost use Rattle.ip_base.specs.Prefix.{IsPrefix};
ghost use Rattle.ip_base.specs.Ipv4HeaderSlice as ipv4_header;
ghost use Rattle.ip_base.specs.Ipv6HeaderSlice as ipv6_header;
ghost use Rattle.ip_dissect.specs.Extent.{packet_bytes, missing_of, ipv4_chain, ipv6_chain};
ghost use Rattle.ip_dissect.specs.End.{base_end, is_too_short};
ghost use Rattle.ip_dissect.specs.declared.end.End.{End};
ghost use Rattle.ip_dissect.specs.Dissection.{without_base, ipv4_dissected, ipv6_dissected};
ghost use Rattle.ip_dissect.specs.Summary.{summary_of};

use crate::fields::{ipv4_fragment, ipv4_offset, ipv4_stated_len, ipv6_stated_len};
use crate::ipv4_chain::ipv4_chain;
use crate::walk::{after, pass};
use crate::{Fragment, HeaderVisitor};
use ip_base::{IpNumber, Ipv4HeaderSlice, Ipv6HeaderSlice, ip_number};

/// The parts of a packet as lengths and numbers.
#[derive(Clone, Copy, Debug, PartialEq, Eq)]
pub struct Summary {
    /// The length of the base header in bytes.
    pub base_len: usize,
    /// The length of the extension headers in bytes.
    pub extensions_len: usize,
    /// How many extension headers there are.
    pub header_count: usize,
    /// How many payload bytes are here.
    pub payload_len: usize,
    /// How many bytes of the stated length are not here.
    pub missing: usize,
    /// How many bytes follow the packet.
    pub padding_len: usize,
    /// The packet's length in bytes by its base header, as in `Dissection`.
    pub stated_len: Option<usize>,
    /// Which fragment the packet is, as in `Dissection`.
    pub fragment: Option<Fragment>,
    /// The IP version, 4 or 6; 0 if there is no base header.
    pub version: u8,
    /// The protocol number of what follows the headers.
    pub next_header: IpNumber,
    /// Whether the payload continues that of an earlier fragment.
    pub is_later_fragment: bool,
    /// Whether the headers end with an error, or there is no base header.
    pub has_error: bool,
}

/// Returns the bytes of a packet whose base header has `base_len` bytes and states this length.
#[inline(always)]
pub(crate) fn packet_of<'a>(bytes: &'a [u8], base: &[u8], stated_len: Option<usize>) -> &'a [u8]
    ensures bytes { result.now ≡ packet_bytes base.now stated_len bytes.now }
{
    let Some(stated_len) = stated_len else {
        return bytes;
    };
    let len = stated_len.max(base.len());
    if len < bytes.len() {
        &bytes[..len]
    } else {
        bytes
    }
}

/// Returns how many bytes of the stated length are not among the `present`.
#[inline(always)]
pub(crate) fn missing(stated_len: Option<usize>, present: usize) -> usize
    ensures { result ≡ missing_of stated_len present }
{
    match stated_len {
        Some(stated_len) => stated_len.saturating_sub(present),
        None => 0,
    }
}

/// Returns whether the total length is below the header length.
#[inline(always)]
pub(crate) fn is_too_short(base: Ipv4HeaderSlice<'_>) -> bool
    ensures { result ≡ is_too_short (ipv4_header.bytes base.entry) }
{
    let total_len = usize::from(base.total_len());
    total_len != 0 && total_len < base.slice().len()
}

/// Summaries bytes that don't start with a base header: all of them are padding.
#[inline(always)]
pub(crate) fn no_summary(bytes: &[u8]) -> Summary
    ensures { (e : End) → base_end bytes.now ≡ Some e → result ≡ summary_of (without_base bytes.now e) }
{
    Summary {
        version: 0,
        base_len: 0,
        stated_len: None,
        extensions_len: 0,
        header_count: 0,
        next_header: ip_number::IPV6_NO_NEXT_HEADER,
        payload_len: 0,
        fragment: None,
        missing: 0,
        padding_len: bytes.len(),
        is_later_fragment: false,
        has_error: true,
    }
}

/// Summaries the IPv6 packet with this base header.
#[inline(always)]
pub(crate) fn ipv6_summary<V: HeaderVisitor>(
    base: Ipv6HeaderSlice<'_>,
    bytes: &[u8],
    visitor: &mut V,
) -> Summary
    requires { IsPrefix (ipv6_header.bytes base) bytes.now }
    ensures summary { result ≡ summary_of (ipv6_dissected (ipv6_header.bytes base.entry) bytes.now) }
    ensures visited { V.visited visitor.old (length (ipv6_header.bytes base.entry))
        (ipv6_chain (ipv6_header.bytes base.entry) bytes.now) visitor.new }
{
    let stated_len = ipv6_stated_len(base);
    let slice = base.slice();
    let packet = packet_of(bytes, slice, stated_len);
    let after_base = after(packet, slice.len());
    let passed = pass(base.next_header(), after_base, slice.len(), visitor);
    Summary {
        version: 6,
        base_len: slice.len(),
        stated_len,
        extensions_len: after_base.len() - passed.rest.len(),
        header_count: passed.found.count,
        next_header: passed.number,
        payload_len: passed.rest.len(),
        fragment: passed.found.fragment,
        missing: missing(stated_len, bytes.len()),
        padding_len: bytes.len() - packet.len(),
        is_later_fragment: passed.found.later,
        has_error: passed.has_error,
    }
}

/// Summaries the IPv4 packet with this base header.
#[inline(always)]
pub(crate) fn ipv4_summary<V: HeaderVisitor>(
    base: Ipv4HeaderSlice<'_>,
    bytes: &[u8],
    visitor: &mut V,
) -> Summary
    requires { IsPrefix (ipv4_header.bytes base) bytes.now }
    ensures summary { result ≡ summary_of (ipv4_dissected (ipv4_header.bytes base.entry) bytes.now) }
    ensures visited { V.visited visitor.old (length (ipv4_header.bytes base.entry))
        (ipv4_chain (ipv4_header.bytes base.entry) bytes.now) visitor.new }
{
    let stated_len = ipv4_stated_len(base);
    let slice = base.slice();
    let packet = packet_of(bytes, slice, stated_len);
    let after_base = after(packet, slice.len());
    let chain = ipv4_chain(base, after_base, visitor);
    let is_short = is_too_short(base);
    let is_later = ipv4_offset(base) != 0;
    Summary {
        version: 4,
        base_len: slice.len(),
        stated_len,
        extensions_len: after_base.len() - chain.rest.len(),
        header_count: chain.header_count,
        next_header: chain.number,
        payload_len: chain.rest.len(),
        fragment: ipv4_fragment(base),
        missing: missing(stated_len, bytes.len()),
        padding_len: bytes.len() - packet.len(),
        is_later_fragment: !is_short & is_later,
        has_error: is_short | chain.has_error,
    }
}
