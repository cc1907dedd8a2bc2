//! The error of a chain computed in the simplest way: from the table of errors, row by row.
ghost use Rattle.std.specs.Prelude.{◌≡◌, length, Some};
ghost use Rattle.std.specs.Option.{option_map};
ghost use Rattle.ip_ext_headers.specs.HeaderFault.{raw_fault, fragment_fault, auth_fault};
ghost use Rattle.ip_base.specs.LenError.{too_short};
ghost use Rattle.ip_base.specs.declared.len_source.LenSource.TheVariants.{Slice};
ghost use Rattle.ip_ext_slices.specs.ChainFault.{slice_fault, auth_at};
ghost use Rattle.ip_ext_slices.specs.declared.err.ipv6_exts.header_slice_error.HeaderSliceError.TheVariants.{Len};

use ip_base::LenSource;
use ip_base::err::{Layer, LenError};
use ip_ext_headers::err::ip_auth;
use ip_ext_slices::err::ipv6_exts::{HeaderError, HeaderSliceError};

/// An error and the layer that it is in.
type Fault = (HeaderSliceError, Layer);

/// Returns the error at the number, with `left` left, `offset` bytes after the chain's start; `first` says that no
/// header precedes. Returns `None` if a header follows, or if the number is not an extension header's.
pub fn plain_fault(
    first: bool,
    number: u8,
    left: &[u8],
    offset: usize,
) -> Option<(HeaderSliceError, Layer)>
    ensures { result ≡ slice_fault offset first number left.now }
{
    match number {
        0 if !first => Some((
            HeaderSliceError::Content(HeaderError::HopByHopNotAtStart),
            Layer::Ipv6HopByHopHeader,
        )),
        0 => plain_raw_fault(left, offset, Layer::Ipv6HopByHopHeader),
        43 => plain_raw_fault(left, offset, Layer::Ipv6RouteHeader),
        60 => plain_raw_fault(left, offset, Layer::Ipv6DestOptionsHeader),
        44 => plain_fragment_fault(left, offset),
        51 => plain_auth_fault(left, offset),
        _ => None,
    }
}

/// Returns the error that `required` bytes are needed.
fn short(inner: Layer, left: &[u8], offset: usize, required: usize, layer: Layer) -> Fault
    ensures { result ≡ (Len (too_short Slice (length left.now) offset inner required), layer) }
{
    let error = LenError {
        required_len: required,
        len: left.len(),
        len_source: LenSource::Slice,
        layer: inner,
        layer_start_offset: offset,
    };
    (HeaderSliceError::Len(error), layer)
}

/// Returns the error of hop-by-hop options, routing and destination options.
fn plain_raw_fault(left: &[u8], offset: usize, layer: Layer) -> Option<Fault>
    ensures { result ≡ option_map (λ e. (Len e, layer))
        (raw_fault Slice (length left.now) offset left.now) }
{
    if left.len() < 8 {
        return Some(short(Layer::Ipv6ExtHeader, left, offset, 8, layer));
    }
    let required = 8 * (usize::from(left[1]) + 1);
    if left.len() < required {
        return Some(short(Layer::Ipv6ExtHeader, left, offset, required, layer));
    }
    None
}

/// Returns the error of a fragment header.
fn plain_fragment_fault(left: &[u8], offset: usize) -> Option<Fault>
    ensures { result ≡ option_map (λ e. (Len e, Layer.Ipv6FragHeader))
        (fragment_fault Slice (length left.now) offset left.now) }
{
    if left.len() < 8 {
        return Some(short(
            Layer::Ipv6FragHeader,
            left,
            offset,
            8,
            Layer::Ipv6FragHeader,
        ));
    }
    None
}

/// Returns the error of an authentication header.
fn plain_auth_fault(left: &[u8], offset: usize) -> Option<Fault>
    ensures { result ≡ option_map auth_at (auth_fault Slice (length left.now) offset left.now) }
{
    if left.len() < 12 {
        return Some(short(Layer::IpAuthHeader, left, offset, 12, Layer::IpAuthHeader));
    }
    if left[1] == 0 {
        let error = HeaderError::IpAuth(ip_auth::HeaderError::ZeroPayloadLen);
        return Some((HeaderSliceError::Content(error), Layer::IpAuthHeader));
    }
    let required = 4 * (usize::from(left[1]) + 2);
    if left.len() < required {
        return Some(short(
            Layer::IpAuthHeader,
            left,
            offset,
            required,
            Layer::IpAuthHeader,
        ));
    }
    None
}
