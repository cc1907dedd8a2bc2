//! Why the headers of a packet end where they do. These functions are kept out of line, since most packets have no error.
ghost use Rattle.std.specs.Prelude.{◌≡◌, ◌==◌, ◌+◌, ◌*◌, ◌^◌, ◌<◌, ◌≤◌, ◌&&◌, not, nat_lt, length, slice_index, Some, None, IsSome, if◌then◌else◌};
ghost use Rattle.std.specs.Option.{option_map_or, option_map, ForSome};
ghost use Rattle.ip_base.specs.Prefix.{IsPrefix};
ghost use Rattle.ip_base.specs.LenError.{too_short};
ghost use Rattle.ip_base.specs.Ipv4Header.{version};
ghost use Rattle.ip_base.specs.Ipv4HeaderSlice as ipv4_header;
ghost use Rattle.ip_base.specs.declared.len_source.LenSource.TheVariants.{Slice};
ghost use Rattle.ip_base.specs.declared.err.ip.headers_error.HeadersError.TheVariants.{Ip, Ipv4Ext, Ipv6Ext};
ghost use Rattle.ip_base.specs.declared.err.ip.slice_error.SliceError.TheVariants.{IpHeaders};
ghost use Rattle.ip_ext_headers.specs.HeaderFault.{AuthOffsetFits, auth_in_packet};
ghost use Rattle.ip_ext_slices.specs.ChainFault.{slice_fault};
ghost use Rattle.ip_dissect.specs.End.{base_end, ipv4_end, len_end, auth_end, exts_end, required_of, needing, states_zero};
ghost use Rattle.ip_dissect.specs.declared.end.End.TheVariants.{Truncated, Fault, Payload};

use crate::End;
use crate::fields::{ipv4_offset, ipv4_stated_len};
use crate::summary::{is_too_short, packet_of};
use crate::walk::after;
use ip_base::err::ip::{HeaderError, HeadersError, SliceError};
use ip_base::err::{Layer, LenError};
use ip_base::{IpNumber, Ipv4HeaderSlice, Ipv6Header, LenSource};
use ip_ext_slices::err::{ip_auth, ipv6_exts};
use ip_ext_slices::{authentication_header_at, fault};

/// Returns the end of bytes that don't start with a whole base header.
#[cold]
#[inline(never)]
pub(crate) fn base_error(bytes: &[u8]) -> End
    requires { IsSome (base_end bytes.now) }
    ensures { base_end bytes.now ≡ Some result }
{
    if bytes.is_empty() {
        return truncated(bytes, Layer::IpHeader, 1);
    }
    match bytes[0] >> 4 {
        4 => ipv4_base_error(bytes),
        6 => truncated(bytes, Layer::Ipv6Header, Ipv6Header::LEN),
        version_number => malformed(HeaderError::UnsupportedIpVersion { version_number }),
    }
}

/// Returns the end of bytes of version 4 that don't start with a whole base header.
fn ipv4_base_error(bytes: &[u8]) -> End
    requires some { 1 ≤ length bytes.now }
    requires version { version bytes.now ≡ 4 }
    requires error { IsSome (base_end bytes.now) }
    ensures { base_end bytes.now ≡ Some result }
{
    let ihl = bytes[0] & 0b1111;
    if ihl < 5 {
        return malformed(HeaderError::Ipv4HeaderLengthSmallerThanHeader { ihl });
    }
    truncated(bytes, Layer::Ipv4Header, usize::from(ihl) * 4)
}

/// Returns the end of bytes that are too few for this layer.
fn truncated(bytes: &[u8], layer: Layer, required_len: usize) -> End
    ensures { result ≡ Truncated (too_short Slice (length bytes.now) 0 layer required_len) None }
{
    End::Truncated {
        error: LenError::slice_too_short(bytes, layer, required_len),
        header: None,
    }
}

/// Returns the end at a malformed base header.
fn malformed(error: HeaderError) -> End
    ensures { result ≡ Fault (IpHeaders (Ip error)) None }
{
    End::Fault {
        error: SliceError::IpHeaders(HeadersError::Ip(error)),
        header: None,
    }
}

/// Returns the end of the IPv4 packet with this base header.
#[cold]
#[inline(never)]
pub(crate) fn ipv4_end(base: Ipv4HeaderSlice<'_>, bytes: &[u8]) -> End
    requires { IsPrefix (ipv4_header.bytes base) bytes.now }
    ensures { result ≡ ipv4_end (ipv4_header.bytes base.entry) bytes.now }
{
    let slice = base.slice();
    if is_too_short(base) {
        let error = LenError {
            required_len: slice.len(),
            layer_start_offset: 0,
            len_source: LenSource::Ipv4HeaderTotalLen,
            layer: Layer::Ipv4Packet,
            len: usize::from(base.total_len()),
        };
        return End::Fault {
            error: SliceError::Len(error),
            header: None,
        };
    }
    if ipv4_offset(base) != 0 {
        return End::LaterFragment;
    }
    let stated_len = ipv4_stated_len(base);
    let after_base = after(packet_of(bytes, slice, stated_len), slice.len());
    match authentication_header_at(base.protocol(), after_base) {
        Ok(_) => End::Payload,
        Err(error) => end_of_auth(error, after_base, slice.len(), stated_len),
    }
}

/// Returns the end at the number of an IPv6 extension header after `len` bytes of them, where an error is.
#[cold]
#[inline(never)]
pub(crate) fn end_at_extension(
    number: IpNumber,
    rest: &[u8],
    len: usize,
    stated_len: Option<usize>,
) -> End
    requires fits { 40 + len < 2 ^ 64 }
    requires fault { IsSome (slice_fault (40 + len) (len == 0) number.0 rest.now) }
    ensures { result ≡ option_map_or (exts_end stated_len rest.now) (slice_fault (40 + len) (len == 0)
        number.0 rest.now) Payload }
{
    match fault(len == 0, number, rest, Ipv6Header::LEN + len) {
        (ipv6_exts::HeaderSliceError::Len(error), header) => {
            if states_zero(header, rest) {
                let error = ipv6_exts::HeaderError::IpAuth(ip_auth::HeaderError::ZeroPayloadLen);
                return ipv6_malformed(error, header);
            }
            end_of_len(
                needing(header, rest, error),
                Some(header),
                stated_len,
                LenSource::Ipv6HeaderPayloadLen,
            )
        }
        (ipv6_exts::HeaderSliceError::Content(error), header) => ipv6_malformed(error, header),
    }
}

/// Returns the end at a malformed IPv6 extension header.
fn ipv6_malformed(error: ipv6_exts::HeaderError, header: Layer) -> End
    ensures { result ≡ Fault (IpHeaders (Ipv6Ext error)) (Some header) }
{
    End::Fault {
        error: SliceError::IpHeaders(HeadersError::Ipv6Ext(error)),
        header: Some(header),
    }
}

/// Returns the end at a malformed authentication header after an IPv4 base header.
fn ipv4_malformed(error: ip_auth::HeaderError) -> End
    ensures { result ≡ Fault (IpHeaders (Ipv4Ext error)) None }
{
    End::Fault {
        error: SliceError::IpHeaders(HeadersError::Ipv4Ext(error)),
        header: None,
    }
}

/// Returns the end at an error of an authentication header, of which the bytes `rest` are here, after an IPv4 base header of
/// `base_len` bytes.
fn end_of_auth(
    error: ip_auth::HeaderSliceError,
    rest: &[u8],
    base_len: usize,
    stated_len: Option<usize>,
) -> End
    requires { AuthOffsetFits error base_len }
    ensures { result ≡ auth_end stated_len rest.now (auth_in_packet Slice base_len error) }
{
    match error {
        ip_auth::HeaderSliceError::Len(error) => {
            if states_zero(Layer::IpAuthHeader, rest) {
                return ipv4_malformed(ip_auth::HeaderError::ZeroPayloadLen);
            }
            let error = LenError {
                len_source: LenSource::Slice,
                ..error.add_offset(base_len)
            };
            end_of_len(
                needing(Layer::IpAuthHeader, rest, error),
                None,
                stated_len,
                LenSource::Ipv4HeaderTotalLen,
            )
        }
        ip_auth::HeaderSliceError::Content(error) => ipv4_malformed(error),
    }
}

/// Returns how many bytes a header needs: those that its length byte states, if that is among the bytes `rest` that are here,
/// and otherwise `least`.
fn required_len(header: Layer, least: usize, rest: &[u8]) -> usize
    ensures { result ≡ required_of header least rest.now }
{
    if rest.len() < 2 {
        return least;
    }
    let units = usize::from(rest[1]);
    match header {
        Layer::Ipv6FragHeader => least,
        Layer::IpAuthHeader => 4 * (units + 2),
        _ => 8 * (units + 1),
    }
}

/// Returns the error with the number of bytes that the header needs by its length byte, if that is among the bytes `rest`.
fn needing(header: Layer, rest: &[u8], error: LenError) -> LenError
    ensures { result ≡ needing header rest.now error }
{
    LenError {
        required_len: required_len(header, error.required_len, rest),
        ..error
    }
}

/// Returns whether the header, of which the bytes `rest` are here, is an authentication header that states a length of 0.
fn states_zero(header: Layer, rest: &[u8]) -> bool
    ensures { result ≡ states_zero header rest.now }
{
    match header {
        Layer::IpAuthHeader => rest.len() >= 2 && rest[1] == 0,
        _ => false,
    }
}

/// Returns the end at a header for which there are too few bytes. It doesn't fit the packet if the stated length
/// leaves fewer bytes than it needs; otherwise it is truncated.
fn end_of_len(
    error: LenError,
    header: Option<Layer>,
    stated_len: Option<usize>,
    field: LenSource,
) -> End
    ensures { result ≡ len_end stated_len field error header }
{
    let Some(stated_len) = stated_len else {
        return End::Truncated { error, header };
    };
    let len = stated_len.saturating_sub(error.layer_start_offset);
    if len < error.required_len {
        let error = SliceError::Len(LenError {
            len,
            len_source: field,
            ..error
        });
        return End::Fault { error, header };
    }
    End::Truncated { error, header }
}
