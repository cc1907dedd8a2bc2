//! The longest chain at the start of bytes, with the spans of its headers.
ghost use Rattle.std.specs.Prelude.{◌≡◌, ◌≤◌, length};
ghost use Rattle.ip_ext_slices.specs.Longest.{longest_chain};
ghost use Rattle.ip_ext_slices.specs.Ipv4Longest.{longest_ipv4_chain};
ghost use Rattle.ip_spans.specs.HeaderSpan.{spans_from, filled};
ghost use Rattle.ip_spans.specs.ChainParts.{chain_parts, ipv4_chain_parts};

use crate::fault_fields::FaultFields;
use crate::header_span::{HeaderSpan, put_ipv4_span, put_spans};
use etherparse_ip::Ipv4ExtensionsSlice;
use ip_base::IpNumber;
use ip_ext_slices::Ipv6ExtensionsSlice;

/// The longest chain of extension headers at the start of some bytes, and its end.
#[repr(C)]
#[derive(Clone, Copy, Debug, PartialEq, Eq)]
pub struct ChainParts {
    /// The number of headers.
    pub headers: usize,
    /// The headers' length in bytes: what follows them starts at this offset.
    pub len: usize,
    /// The error at the end of the chain, if any.
    pub fault: FaultFields,
    /// The protocol number of what follows.
    pub next_header: u32,
    /// 1 if some fragment header of the chain fragments the payload, otherwise 0.
    pub fragmented: u32,
}

/// Parses the longest chain of IPv6 extension headers at the start of `bytes`, from the number `first` (RFC 8200,
/// section 4). Stores the `HeaderSpan` of each header at the front of `spans`, as many as fit; the other elements are
/// unchanged. `headers` counts all headers.
#[inline(always)]
pub fn parse_chain(first: u8, bytes: &[u8], spans: &mut [HeaderSpan]) -> ChainParts
    ensures chain { result ≡ chain_parts first bytes.now }
    ensures within { result.len ≤ length bytes.now }
    ensures spans { spans.new ≡ filled (spans_from 0 (longest_chain first bytes.now)) spans.old }
{
    let (chain, next_header, _, fault) = Ipv6ExtensionsSlice::from_slice_lax(
        IpNumber(first),
        bytes,
    );
    let len = chain.slice().len();
    let fragmented = u32::from(chain.is_fragmenting_payload());
    let fault = FaultFields::of_chain(len, &fault);
    let headers = put_spans(&chain, 0, spans);
    ChainParts {
        headers,
        len,
        fault,
        next_header: u32::from(next_header.0),
        fragmented,
    }
}

/// Parses an IPv4 chain, of at most one authentication header (RFC 4302, section 2), as `parse_chain` does.
/// `fragmented` is 0: fragmentation is a matter of the IPv4 header.
#[inline(always)]
pub fn parse_ipv4_chain(first: u8, bytes: &[u8], spans: &mut [HeaderSpan]) -> ChainParts
    ensures chain { result ≡ ipv4_chain_parts first bytes.now }
    ensures within { result.len ≤ length bytes.now }
    ensures spans { spans.new ≡ filled (spans_from 0 (longest_ipv4_chain first bytes.now)) spans.old }
{
    let (chain, next_header, _, fault) = Ipv4ExtensionsSlice::from_slice_lax(
        IpNumber(first),
        bytes,
    );
    let (headers, len) = put_ipv4_span(chain.auth, 0, spans);
    let fault = FaultFields::of_ipv4_chain(len, &fault);
    ChainParts {
        headers,
        len,
        fault,
        next_header: u32::from(next_header.0),
        fragmented: 0,
    }
}
