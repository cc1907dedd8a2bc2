//! The step from one header of an IPv6 chain to the next.
ghost use Rattle.std.specs.Prelude.{◌≡◌, ◌≤◌, ◌+◌, ◌*◌, ◌↔◌, ◌==◌, length, take, slice_index, nat_lt, if◌then◌else◌, IsTrue, Option, Some, IsSome, IfSome, IfNone, ℕ};
ghost use Rattle.std.specs.Option.{option_map};
ghost use Rattle.ip_spec.specs.Header.{IsExtensionNumber};
ghost use Rattle.ip_spec.specs.Chain.{IsNext, IsEnd};
ghost use Rattle.ip_ext_slices.specs.ChainFault.{slice_fault, error_by_cause};
ghost use Rattle.ip_ext_slices.specs.Ipv6ExtensionSlice.{header_of};

use crate::Ipv6ExtensionSlice;
use crate::err::ipv6_exts::{HeaderError, HeaderSliceError};
use ip_base::err::{Layer, LenError};
use ip_base::{IpNumber, LenSource, ip_number};
use ip_ext_headers::err::ip_auth;
use ip_ext_headers::{IpAuthHeaderSlice, Ipv6FragmentHeaderSlice, Ipv6RawExtHeaderSlice};

/// Parses the header of this number at the start of `bytes`. `first` says that no header precedes it: hop-by-hop
/// options are allowed only there (RFC 8200, section 4.1). Returns `None` if the chain ends here.
#[inline]
pub fn header_at(first: bool, number: IpNumber, bytes: &[u8]) -> Option<Ipv6ExtensionSlice<'_>>
    ensures next { IfSome result (λ h. IsNext first number.0 bytes.now (header_of h)) }
    ensures end { IfNone result (IsEnd first number.0 bytes.now) }
{
    match number {
        ip_number::IPV6_HOP_BY_HOP if !first => None,
        ip_number::IPV6_HOP_BY_HOP => {
            let header = Ipv6RawExtHeaderSlice::from_slice(bytes).ok()?;
            Some(Ipv6ExtensionSlice::HopByHop(header))
        }
        ip_number::IPV6_ROUTE => {
            let header = Ipv6RawExtHeaderSlice::from_slice(bytes).ok()?;
            Some(Ipv6ExtensionSlice::Routing(header))
        }
        ip_number::IPV6_DEST_OPTIONS => {
            let header = Ipv6RawExtHeaderSlice::from_slice(bytes).ok()?;
            Some(Ipv6ExtensionSlice::DestinationOptions(header))
        }
        ip_number::IPV6_FRAG => {
            let header = Ipv6FragmentHeaderSlice::from_slice(bytes).ok()?;
            Some(Ipv6ExtensionSlice::Fragment(header))
        }
        ip_number::AUTH => {
            let header = IpAuthHeaderSlice::from_slice(bytes).ok()?;
            Some(Ipv6ExtensionSlice::Authentication(header))
        }
        _ => None,
    }
}

/// Returns the length of the header of this number at the start of `bytes`, in bytes. `first` says that no header
/// precedes it. Returns `None` if the chain ends here. `header_at` branches on the kind of header, which a processor
/// can't predict in a chain of several kinds.
#[inline(always)]
pub fn header_len_at(first: bool, number: IpNumber, bytes: &[u8]) -> Option<usize>
    ensures next { IfSome result (λ len. IsNext first number.0 bytes.now
        record { number = number.0; bytes = take len bytes.now }) }
    ensures within { IfSome result (λ len. len ≤ length bytes.now) }
    ensures end { IfNone result (IsEnd first number.0 bytes.now) }
{
    if !is_extension(number) || bytes.len() < 8 {
        return None;
    }
    if number == ip_number::IPV6_FRAG {
        return Some(8);
    }
    if number == ip_number::IPV6_HOP_BY_HOP && !first {
        return None;
    }
    let is_auth = number == ip_number::AUTH;
    let unit = if is_auth { 4 } else { 8 };
    let len = 8 + unit * usize::from(bytes[1]);
    if (is_auth & (bytes[1] == 0)) | (len > bytes.len()) {
        return None;
    }
    Some(len)
}

/// Returns whether the number is an extension header's (RFC 8200, section 4; RFC 4302, section 2).
#[inline(always)]
pub fn is_extension(number: IpNumber) -> bool
    ensures { IsTrue result ↔ IsExtensionNumber number.0 }
{
    matches!(
        number,
        ip_number::IPV6_HOP_BY_HOP
            | ip_number::IPV6_ROUTE
            | ip_number::IPV6_FRAG
            | ip_number::AUTH
            | ip_number::IPV6_DEST_OPTIONS
    )
}

/// Returns the error's cause at an extension header's number where the chain ends: how many bytes which layer needs,
/// or the error in the header. `first` says that no header precedes it.
#[inline(always)]
fn cause(first: bool, number: IpNumber, bytes: &[u8]) -> Result<(usize, Layer), HeaderError>
    ensures { (k : ℕ) → IsSome (slice_fault k first number.0 bytes.now)
        → option_map (λ f. f.0) (slice_fault k first number.0 bytes.now)
        ≡ Some (error_by_cause k (length bytes.now) result) }
{
    match number {
        ip_number::IPV6_HOP_BY_HOP if !first => Err(HeaderError::HopByHopNotAtStart),
        ip_number::IPV6_FRAG => Ok((8, Layer::Ipv6FragHeader)),
        ip_number::AUTH if bytes.len() < 12 => Ok((12, Layer::IpAuthHeader)),
        ip_number::AUTH if bytes[1] == 0 => {
            Err(HeaderError::IpAuth(ip_auth::HeaderError::ZeroPayloadLen))
        }
        ip_number::AUTH => Ok(((usize::from(bytes[1]) + 2) * 4, Layer::IpAuthHeader)),
        _ => Ok((required_raw_len(bytes), Layer::Ipv6ExtHeader)),
    }
}

/// Returns the error at an extension header's number where the chain ends, with `bytes` left, `offset` bytes after its
/// start, and the layer that the error is in. `first` says that no header precedes it. Each kind of error is built
/// where it is returned. Inlined, so that a caller that is kept out of line itself doesn't move the error through
/// memory.
#[inline(always)]
pub fn fault(
    first: bool,
    number: IpNumber,
    bytes: &[u8],
    offset: usize,
) -> (HeaderSliceError, Layer)
    requires { IsSome (slice_fault offset first number.0 bytes.now) }
    ensures { slice_fault offset first number.0 bytes.now ≡ Some result }
{
    let layer = match number {
        ip_number::IPV6_HOP_BY_HOP => Layer::Ipv6HopByHopHeader,
        ip_number::IPV6_ROUTE => Layer::Ipv6RouteHeader,
        ip_number::IPV6_FRAG => Layer::Ipv6FragHeader,
        ip_number::AUTH => Layer::IpAuthHeader,
        _ => Layer::Ipv6DestOptionsHeader,
    };
    let (required_len, short) = match cause(first, number, bytes) {
        Err(error) => return (HeaderSliceError::Content(error), layer),
        Ok(cause) => cause,
    };
    let error = LenError {
        required_len,
        len: bytes.len(),
        len_source: LenSource::Slice,
        layer: short,
        layer_start_offset: offset,
    };
    (HeaderSliceError::Len(error), layer)
}

/// Returns what `fault` returns. Kept out of line, since most chains end without an error.
#[cold]
#[inline(never)]
pub(crate) fn cold_fault(
    first: bool,
    number: IpNumber,
    bytes: &[u8],
    offset: usize,
) -> (HeaderSliceError, Layer)
    requires { IsSome (slice_fault offset first number.0 bytes.now) }
    ensures { slice_fault offset first number.0 bytes.now ≡ Some result }
{
    fault(first, number, bytes, offset)
}

/// Returns the error of a chain that leads to the number with `rest` left, `offset` bytes after its start; `first`
/// says that it has no header yet. Returns `None` if a header follows, or if the number is not an extension header's.
/// Offsets in the error count from where `offset` does.
#[cold]
#[inline(never)]
pub fn fault_at(
    first: bool,
    number: IpNumber,
    rest: &[u8],
    offset: usize,
) -> Option<(HeaderSliceError, Layer)>
    ensures { result ≡ slice_fault offset first number.0 rest.now }
{
    if !is_extension(number) {
        return None;
    }
    match header_at(first, number, rest) {
        Some(_) => None,
        None => Some(fault(first, number, rest, offset)),
    }
}

/// Returns how many bytes a header in the uniform format (RFC 6564) needs: 8 if there are too few bytes for its own
/// length field.
#[inline]
fn required_raw_len(bytes: &[u8]) -> usize
    ensures { result ≡ (if nat_lt (length bytes.now) 8 then 8
        else 8 * (slice_index bytes.now 1 + 1)) }
{
    if bytes.len() < 8 {
        return 8;
    }
    (usize::from(bytes[1]) + 1) * 8
}
