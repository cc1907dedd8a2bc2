//! Packets without extension headers.
ghost use Rattle.std.specs.Prelude.{◌≡◌, ◌≤◌, length, is_some, IfSome};
ghost use Rattle.ip_base.specs.Prefix.{IsPrefix};
ghost use Rattle.ip_base.specs.Ipv4HeaderSlice as ipv4_header;
ghost use Rattle.ip_base.specs.Ipv6HeaderSlice as ipv6_header;
ghost use Rattle.ip_dissect.specs.Dissection.{ipv4_dissected, ipv6_dissected};
ghost use Rattle.ip_dissect.specs.Summary.{summary_of, is_plain, plain_summary};

use crate::Summary;
use crate::fields::{ipv4_stated_len, ipv6_stated_len};
use crate::summary::is_too_short;
use ip_base::{IpNumber, Ipv4HeaderSlice, Ipv6HeaderSlice, ip_number};
use ip_ext_slices::is_extension;

/// Summaries the IPv6 packet with this base header if no extension header follows it.
#[inline(always)]
pub(crate) fn ipv6_plain(base: Ipv6HeaderSlice<'_>, bytes: &[u8]) -> Option<Summary>
    requires { IsPrefix (ipv6_header.bytes base) bytes.now }
    ensures plain { is_some result ≡ is_plain (ipv6_dissected (ipv6_header.bytes base.entry) bytes.now) }
    ensures summary { IfSome result (λ o.
        o ≡ summary_of (ipv6_dissected (ipv6_header.bytes base.entry) bytes.now)) }
{
    let number = base.next_header();
    if is_extension(number) {
        return None;
    }
    Some(plain_summary(6, base.slice(), ipv6_stated_len(base), number, bytes))
}

/// Summaries the IPv4 packet with this base header if it is no fragment, and no authentication header follows.
#[inline(always)]
pub(crate) fn ipv4_plain(base: Ipv4HeaderSlice<'_>, bytes: &[u8]) -> Option<Summary>
    requires { IsPrefix (ipv4_header.bytes base) bytes.now }
    ensures plain { is_some result ≡ is_plain (ipv4_dissected (ipv4_header.bytes base.entry) bytes.now) }
    ensures summary { IfSome result (λ o.
        o ≡ summary_of (ipv4_dissected (ipv4_header.bytes base.entry) bytes.now)) }
{
    let number = base.protocol();
    if is_too_short(base) || base.is_fragmenting_payload() || number == ip_number::AUTH {
        return None;
    }
    Some(plain_summary(4, base.slice(), ipv4_stated_len(base), number, bytes))
}

/// Summaries a packet whose payload, of this number, follows its base header. The stated length is at least that of the base
/// header.
#[inline(always)]
fn plain_summary(
    version: u8,
    base: &[u8],
    stated_len: Option<usize>,
    number: IpNumber,
    bytes: &[u8],
) -> Summary
    requires prefix { IsPrefix base.now bytes.now }
    requires whole { IfSome stated_len (λ n. length base.now ≤ n) }
    ensures { result ≡ plain_summary version base.now stated_len number bytes.now }
{
    let stated = stated_len.unwrap_or(bytes.len());
    let len = stated.min(bytes.len());
    Summary {
        version,
        base_len: base.len(),
        stated_len,
        extensions_len: 0,
        header_count: 0,
        next_header: number,
        payload_len: len - base.len(),
        fragment: None,
        missing: stated - len,
        padding_len: bytes.len() - len,
        is_later_fragment: false,
        has_error: false,
    }
}
