//! Borrowed chains and headers, their errors, and the parts of any digest. Equal digests of the same kind mean equal
//! results.
use ip_ext_chains::err::ipv6_exts::{HeaderError, HeaderSliceError};
use ip_ext_chains::err::{Layer, LenError, ip_auth};
use ip_ext_chains::{IpNumber, Ipv6ExtensionSlice, Ipv6ExtensionsSlice, LenSource};
use ip_ext_headers::{IpAuthHeaderSlice, Ipv6FragmentHeaderSlice, Ipv6RawExtHeaderSlice};

/// Returns the digest `sum` extended by one part.
pub fn with(sum: u64, part: u64) -> u64 {
    sum.wrapping_mul(9).wrapping_add(part)
}

/// Returns the digest of bytes: their length and first byte.
pub fn of_bytes(bytes: &[u8]) -> u64 {
    let first = match bytes.first() {
        Some(byte) => u64::from(*byte),
        None => 256,
    };
    with(bytes.len() as u64, first)
}

/// Returns the digest of every part of a lax parse's result.
#[inline(never)]
pub fn of_lax(
    headers: &Ipv6ExtensionsSlice<'_>,
    number: IpNumber,
    rest: &[u8],
    fault: &Option<(HeaderSliceError, Layer)>,
) -> u64 {
    let chain = of_chain(headers, number, rest);
    match fault {
        None => chain,
        Some((fault, layer)) => with(with(chain, of_fault(fault)), u64::from(layer_code(layer))),
    }
}

/// Returns the digest of every part of a strict parse's result without an error.
#[inline(never)]
pub fn of_strict(headers: &Ipv6ExtensionsSlice<'_>, number: IpNumber, rest: &[u8]) -> u64 {
    of_chain(headers, number, rest)
}

/// Returns the digest of a strict parse's error.
#[inline(never)]
pub fn of_strict_fault(fault: &HeaderSliceError) -> u64 {
    of_fault(fault)
}

/// Returns the digest of a chain, the number to which it leads and the bytes after it.
fn of_chain(headers: &Ipv6ExtensionsSlice<'_>, number: IpNumber, rest: &[u8]) -> u64 {
    let first = match headers.first_header() {
        Some(first) => u64::from(first.0),
        None => 256,
    };
    let flags = with(first, u64::from(headers.is_fragmenting_payload()));
    let chain = with(flags, of_bytes(headers.slice()));
    with(with(chain, u64::from(number.0)), of_bytes(rest))
}

/// Returns the digest of a chain's error.
pub fn of_fault(fault: &HeaderSliceError) -> u64 {
    match fault {
        HeaderSliceError::Len(fault) => of_len_error(fault),
        HeaderSliceError::Content(fault) => of_content(fault),
    }
}

/// Returns the digest of a chain's content error.
pub fn of_content(fault: &HeaderError) -> u64 {
    match fault {
        HeaderError::HopByHopNotAtStart => 1,
        HeaderError::IpAuth(ip_auth::HeaderError::ZeroPayloadLen) => 2,
    }
}

/// Returns the digest of a single authentication header's error.
pub fn of_auth_fault(fault: &ip_auth::HeaderSliceError) -> u64 {
    match fault {
        ip_auth::HeaderSliceError::Len(fault) => of_len_error(fault),
        ip_auth::HeaderSliceError::Content(ip_auth::HeaderError::ZeroPayloadLen) => 2,
    }
}

/// Returns the digest of a length error.
pub fn of_len_error(fault: &LenError) -> u64 {
    let lens = with(fault.required_len as u64, fault.len as u64);
    let place = with(
        fault.layer_start_offset as u64,
        u64::from(layer_code(&fault.layer)),
    );
    with(
        with(lens, u64::from(len_source_code(&fault.len_source))),
        place,
    )
}

/// Returns a number for each layer.
pub fn layer_code(layer: &Layer) -> u8 {
    match layer {
        Layer::Ipv4Header => 1,
        Layer::Ipv4Packet => 2,
        Layer::IpAuthHeader => 3,
        Layer::Ipv6Header => 4,
        Layer::Ipv6Packet => 5,
        Layer::Ipv6ExtHeader => 6,
        Layer::Ipv6HopByHopHeader => 7,
        Layer::Ipv6DestOptionsHeader => 8,
        Layer::Ipv6RouteHeader => 9,
        Layer::Ipv6FragHeader => 10,
        _ => 0,
    }
}

/// Returns a number for each length source.
pub fn len_source_code(source: &LenSource) -> u8 {
    match source {
        LenSource::Slice => 0,
        LenSource::Ipv4HeaderTotalLen => 1,
        LenSource::Ipv6HeaderPayloadLen => 2,
    }
}

/// Returns the length of a header, counted by its kind.
#[inline(always)]
pub fn of_kind(header: &Ipv6ExtensionSlice<'_>) -> u64 {
    match header {
        Ipv6ExtensionSlice::HopByHop(header) => header.slice().len() as u64,
        Ipv6ExtensionSlice::Routing(header) => (header.slice().len() as u64).wrapping_mul(2),
        Ipv6ExtensionSlice::Fragment(header) => (header.slice().len() as u64).wrapping_mul(3),
        Ipv6ExtensionSlice::DestinationOptions(header) => {
            (header.slice().len() as u64).wrapping_mul(4)
        }
        Ipv6ExtensionSlice::Authentication(header) => (header.slice().len() as u64).wrapping_mul(5),
    }
}

/// Returns the digest of the headers' sum, the number after them, the number of bytes that follow, and whether there
/// is an error.
#[inline(always)]
pub fn of_end(sum: u64, number: IpNumber, rest: &[u8], is_fault: bool) -> u64 {
    let place = with(with(sum, u64::from(number.0)), rest.len() as u64);
    with(place, u64::from(is_fault))
}

/// Returns the digest of every part of a header that an iterator returns.
#[inline(never)]
pub fn of_header(header: &Ipv6ExtensionSlice<'_>) -> u64 {
    match header {
        Ipv6ExtensionSlice::HopByHop(header) => with(0, of_raw(header)),
        Ipv6ExtensionSlice::Routing(header) => with(43, of_raw(header)),
        Ipv6ExtensionSlice::DestinationOptions(header) => with(60, of_raw(header)),
        Ipv6ExtensionSlice::Fragment(header) => with(44, of_fragment(header)),
        Ipv6ExtensionSlice::Authentication(header) => with(51, of_auth(header)),
    }
}

/// Returns the digest of every part of a header in the uniform format (RFC 6564).
pub fn of_raw(header: &Ipv6RawExtHeaderSlice<'_>) -> u64 {
    let bytes = of_bytes(header.slice());
    with(
        with(bytes, u64::from(header.next_header().0)),
        of_bytes(header.payload()),
    )
}

/// Returns the digest of every part of a fragment header.
pub fn of_fragment(header: &Ipv6FragmentHeaderSlice<'_>) -> u64 {
    let offset = u64::from(header.fragment_offset().value());
    let flags = with(u64::from(header.more_fragments()), offset);
    let fields = with(flags, u64::from(header.identification()));
    with(
        with(of_bytes(header.slice()), u64::from(header.next_header().0)),
        fields,
    )
}

/// Returns the digest of every part of an authentication header.
pub fn of_auth(header: &IpAuthHeaderSlice<'_>) -> u64 {
    let numbers = with(u64::from(header.spi()), u64::from(header.sequence_number()));
    let fields = with(numbers, of_bytes(header.raw_icv()));
    with(
        with(of_bytes(header.slice()), u64::from(header.next_header().0)),
        fields,
    )
}
