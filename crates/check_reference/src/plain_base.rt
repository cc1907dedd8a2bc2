//! A base header and the length that it states, read byte by byte.
ghost use Rattle.std.specs.Prelude.{◌≡◌, ◌≤◌, length};
ghost use Rattle.ip_base.specs.Ipv4Header.{total_len, ipv4_fragment_offset};
ghost use Rattle.ip_base.specs.LenError.{too_short};
ghost use Rattle.ip_base.specs.declared.len_source.LenSource.TheVariants.{Slice};
ghost use Rattle.ip_base.specs.declared.err.ip.headers_error.HeadersError.TheVariants.{Ip};
ghost use Rattle.ip_base.specs.declared.err.ip.slice_error.SliceError.TheVariants.{IpHeaders};
ghost use Rattle.ip_dissect.specs.End.{base_end};
ghost use Rattle.ip_dissect.specs.Extent.{packet_bytes, missing_of, ipv4_stated, ipv6_stated};
ghost use Rattle.ip_dissect.specs.Fragment.{ipv4_fragment};
ghost use Rattle.ip_dissect.specs.declared.end.End.TheVariants.{Truncated, Fault};

use crate::plain_fragment::fragment_with;
use etherparse_ip::err::ip::{HeaderError, HeadersError, SliceError};
use ip_base::LenSource;
use ip_base::err::{Layer, LenError};
use ip_dissect::{End, Fragment};

/// Returns why the bytes don't start with a whole base header, or `None` if they do.
pub(crate) fn plain_base_end(bytes: &[u8]) -> Option<End>
    ensures { result ≡ base_end bytes.now }
{
    let len = bytes.len();
    if len == 0 {
        return Some(truncated(0, Layer::IpHeader, 1));
    }
    match bytes[0] / 16 {
        4 => {
            let ihl = bytes[0] % 16;
            if ihl < 5 {
                return Some(malformed(HeaderError::Ipv4HeaderLengthSmallerThanHeader { ihl }));
            }
            let header_len = 4 * usize::from(ihl);
            if len < header_len {
                return Some(truncated(len, Layer::Ipv4Header, header_len));
            }
            None
        }
        6 => {
            if len < 40 {
                return Some(truncated(len, Layer::Ipv6Header, 40));
            }
            None
        }
        version_number => Some(malformed(HeaderError::UnsupportedIpVersion { version_number })),
    }
}

/// Returns the end of bytes that are too few for this layer.
fn truncated(len: usize, layer: Layer, required_len: usize) -> End
    ensures { result ≡ Truncated (too_short Slice len 0 layer required_len) None }
{
    let error = LenError {
        required_len,
        len,
        len_source: LenSource::Slice,
        layer,
        layer_start_offset: 0,
    };
    End::Truncated {
        error,
        header: None,
    }
}

/// Returns the end at a malformed base header.
fn malformed(error: HeaderError) -> End
    ensures { result ≡ Fault (IpHeaders (Ip error)) None }
{
    End::Fault {
        error: SliceError::IpHeaders(HeadersError::Ip(error)),
        header: None,
    }
}

/// Returns the total length field of an IPv4 header.
pub(crate) fn ipv4_total_len(base: &[u8]) -> u16
    requires { 20 ≤ length base.now }
    ensures { result ≡ total_len base.now }
{
    u16::from_be_bytes([base[2], base[3]])
}

/// Returns the length that an IPv4 header states.
pub(crate) fn plain_ipv4_stated(base: &[u8]) -> Option<usize>
    requires { 20 ≤ length base.now }
    ensures { result ≡ ipv4_stated base.now }
{
    match ipv4_total_len(base) {
        0 => None,
        total_len => Some(usize::from(total_len)),
    }
}

/// Returns the length that an IPv6 header states, that of the header included.
pub(crate) fn plain_ipv6_stated(base: &[u8]) -> Option<usize>
    requires { 40 ≤ length base.now }
    ensures { result ≡ ipv6_stated base.now }
{
    match u16::from_be_bytes([base[4], base[5]]) {
        0 => None,
        payload_length => Some(40 + usize::from(payload_length)),
    }
}

/// Returns the fragment offset of an IPv4 header, in units of 8 bytes.
pub(crate) fn ipv4_offset(base: &[u8]) -> u16
    requires { 20 ≤ length base.now }
    ensures value { result ≡ ipv4_fragment_offset base.now }
    ensures fits { result ≤ 8191 }
{
    256 * u16::from(base[6] & 0x1f) + u16::from(base[7])
}

/// Returns which fragment an IPv4 packet is.
pub(crate) fn plain_ipv4_fragment(base: &[u8]) -> Option<Fragment>
    requires { 20 ≤ length base.now }
    ensures { result ≡ ipv4_fragment base.now }
{
    let more_fragments = base[6] & 0x20 != 0;
    let offset = ipv4_offset(base);
    if !more_fragments && offset == 0 {
        return None;
    }
    let identification = u16::from_be_bytes([base[4], base[5]]);
    Some(fragment_with(u32::from(identification), more_fragments, offset))
}

/// Returns the bytes of a packet with this base header and stated length.
pub(crate) fn packet_of<'a>(base: &[u8], stated: Option<usize>, bytes: &'a [u8]) -> &'a [u8]
    requires { length base.now ≤ length bytes.now }
    ensures bytes { result.now ≡ packet_bytes base.now stated bytes.now }
    ensures base { length base.now ≤ length result.now }
    ensures within { length result.now ≤ length bytes.now }
{
    let Some(stated) = stated else {
        return bytes;
    };
    let len = stated.max(base.len());
    if len < bytes.len() {
        &bytes[..len]
    } else {
        bytes
    }
}

/// Returns how many of the stated bytes are not among the `present`.
pub(crate) fn missing_of(stated: Option<usize>, present: usize) -> usize
    ensures { result ≡ missing_of stated present }
{
    match stated {
        Some(stated) if present < stated => stated - present,
        _ => 0,
    }
}
