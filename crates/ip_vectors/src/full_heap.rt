//! Calls that need no memory, on a heap without free memory.
use crate::checks::{assert_bytes, assert_same, assert_that};
use crate::long_chains::SIX;
use crate::memory::{six_headers, take_all};
use etherparse_ip::err::ipv6_exts::{HeaderError, HeaderSliceError};
use etherparse_ip::err::{Layer, LenError, io, ip, ip_auth, ipv4, ipv6};
use etherparse_ip::io::LimitedReader;
use etherparse_ip::{
    IpAuthHeaderSlice, IpNumber, IpSlice, Ipv4Extensions, Ipv4ExtensionsSlice, Ipv4Slice,
    Ipv6Extensions, Ipv6ExtensionsRuns, Ipv6ExtensionsSlice, Ipv6RawExtHeader,
    Ipv6RawExtHeaderSlice, Ipv6Slice, LenSource, clear_chain, fitting_headers,
};
use linked_list_allocator::LocalHeap;
use std::process::Abort;
use std::test::Fail;

/// Returns the first bytes, or all if there are fewer.
fn front(bytes: &[u8], len: usize) -> &[u8] {
    bytes.get(..len).unwrap_or(bytes)
}

/// Returns a length error with the slice as its source.
fn too_short(required_len: usize, len: usize, layer: Layer, offset: usize) -> LenError {
    LenError {
        required_len,
        len,
        len_source: LenSource::Slice,
        layer,
        layer_start_offset: offset,
    }
}

/// The error that ends a chain: too few bytes, with those required, those left, the layer and the offset, or
/// hop-by-hop options after a header.
#[derive(Clone, Copy)]
enum Fault {
    TooShort(usize, usize, Layer, usize),
    HopByHopNotAtStart,
}

fn error_of(fault: Fault) -> HeaderSliceError {
    match fault {
        Fault::TooShort(required_len, len, layer, offset) => {
            HeaderSliceError::Len(too_short(required_len, len, layer, offset))
        }
        Fault::HopByHopNotAtStart => HeaderSliceError::Content(HeaderError::HopByHopNotAtStart),
    }
}

/// The start number and the bytes of a chain, the length of its headers and the number that follows them, both also
/// for six places, the error that ends the chain, and whether the six places end before it.
type Row<'a> = (
    u8,
    &'a [u8],
    (usize, u8),
    (usize, u8),
    Option<(Fault, Layer)>,
    bool,
);

/// Parses the chain and compares the results with the row.
fn check_chain(rt: &impl Abort, row: Row<'_>) {
    let (start, bytes, (len, next), (places_len, places_next), fault, ends_before) = row;
    let start = IpNumber(start);
    let (chain, number, rest, error) = Ipv6ExtensionsSlice::from_slice_lax(start, bytes);
    assert_same(rt, bytes, (chain.slice().len(), number.0), (len, next));
    assert_same(rt, bytes, Some(rest), bytes.get(len..));
    let strict = Ipv6ExtensionsSlice::from_slice(start, bytes).err();
    check_fault(rt, bytes, error, strict, fault);
    let (fitting, fitting_number, fitting_rest, fitting_fault) = fitting_headers(start, bytes);
    let fault = if ends_before { None } else { fault };
    let (exts, number, rest, error) = Ipv6Extensions::from_slice_lax(start, bytes);
    let end = (exts.header_len(), number.0);
    assert_same(rt, bytes, end, (places_len, places_next));
    let end = (fitting.slice().len(), fitting_number.0);
    assert_same(rt, bytes, end, (places_len, places_next));
    assert_same(rt, bytes, Some(fitting_rest), bytes.get(places_len..));
    assert_same(rt, bytes, &fitting_fault, &error);
    assert_same(rt, bytes, Some(rest), bytes.get(places_len..));
    let strict = Ipv6Extensions::from_slice(start, bytes).err();
    check_fault(rt, bytes, error, strict, fault);
}

/// Checks the error of the lax parse, and that the strict parse returns it.
fn check_fault(
    rt: &impl Abort,
    bytes: &[u8],
    lax: Option<(HeaderSliceError, Layer)>,
    strict: Option<HeaderSliceError>,
    fault: Option<(Fault, Layer)>,
) {
    let expected = fault.map(|(error, layer)| (error_of(error), layer));
    assert_same(rt, bytes, lax, expected);
    assert_same(rt, bytes, strict, fault.map(|(error, _)| error_of(error)));
}

#[test]
fn chains(rt: HostRuntime) -> Result<(), Fail> {
    let heap = LocalHeap::new(rt.alloc(), 64)?;
    let mut out: Vec<u8, &LocalHeap> = Vec::new(&heap);
    let _blocks = take_all(&rt, rt.alloc(), &heap)?;
    let auth_error = ip_auth::HeaderSliceError::Len(too_short(12, 0, Layer::IpAuthHeader, 0));
    let (exts, number, rest, fault) = Ipv4Extensions::from_slice_lax(IpNumber(17), &[0, 1, 2, 3]);
    assert!(rt; exts.is_empty() && number.0 == 17 && rest == [0, 1, 2, 3].as_slice());
    assert_same(&rt, "IPv4, no extension number", fault, None);
    let (exts, number, rest, fault) = Ipv4ExtensionsSlice::from_slice_lax(IpNumber(51), &[]);
    assert!(rt; exts.is_empty() && number.0 == 51 && rest.is_empty());
    assert_same(&rt, "IPv4, no bytes", fault, Some(auth_error));
    for row in CHAINS {
        check_chain(&rt, row);
    }
    let mut headers = Ipv6ExtensionsSlice::from_slice_lax(IpNumber(60), &[43, 0, 0, 0, 0, 0, 0, 0])
        .0
        .into_iter();
    assert!(rt; matches!(headers.next(), Some(header) if header.number().0 == 60));
    assert!(rt; headers.next().is_none());
    let none = Ipv6Extensions::default();
    assert!(rt; matches!(none.next_header(IpNumber(0)), Ok(IpNumber(0))));
    assert!(rt; none.write(&mut out, IpNumber(0)).is_ok() && out.is_empty());
    Ok(())
}

const CHAINS: [Row<'static>; 6] = [
    (
        60,
        &[60, 0, 0, 0, 0, 0, 0, 0, 17, 0, 0, 0, 0, 0, 0, 0],
        (16, 17),
        (8, 60),
        None,
        true,
    ),
    (
        60,
        &[
            43, 0, 0, 0, 0, 0, 0, 0, 60, 0, 0, 0, 0, 0, 0, 0, 17, 0, 0, 0, 0, 0, 0, 0,
        ],
        (24, 17),
        (24, 17),
        None,
        false,
    ),
    (
        60,
        &[43, 0, 0, 0, 0, 0, 0, 0],
        (8, 43),
        (8, 43),
        Some((
            Fault::TooShort(8, 0, Layer::Ipv6ExtHeader, 8),
            Layer::Ipv6RouteHeader,
        )),
        false,
    ),
    (
        0,
        &[0, 0, 0, 0, 0, 0, 0, 0],
        (8, 0),
        (8, 0),
        Some((Fault::HopByHopNotAtStart, Layer::Ipv6HopByHopHeader)),
        false,
    ),
    (
        0,
        &[],
        (0, 0),
        (0, 0),
        Some((
            Fault::TooShort(8, 0, Layer::Ipv6ExtHeader, 0),
            Layer::Ipv6HopByHopHeader,
        )),
        false,
    ),
    (
        44,
        &[44, 0, 0, 0, 0, 0, 0, 1, 17, 0, 0],
        (8, 44),
        (8, 44),
        Some((
            Fault::TooShort(8, 3, Layer::Ipv6FragHeader, 8),
            Layer::Ipv6FragHeader,
        )),
        true,
    ),
];

#[test]
fn links_and_runs(rt: HostRuntime) -> Result<(), Fail> {
    let heap = LocalHeap::new(rt.alloc(), 128)?;
    let mut out: Vec<u8, &LocalHeap> = Vec::with_capacity(&heap, 52)?;
    let _blocks = take_all(&rt, rt.alloc(), &heap)?;
    let mut exts = six_headers()?;
    assert_same(&rt, "linked", exts.set_next_headers(IpNumber(17)).0, 0);
    assert!(rt; matches!(exts.next_header(IpNumber(0)), Ok(IpNumber(17))));
    assert!(rt; exts.write(&mut out, IpNumber(0)).is_ok());
    assert_bytes(&rt, "written", &out, &SIX);
    let three = [
        44, 0, 0, 0, 0, 0, 0, 0, 44, 0, 0, 0, 0, 0, 0, 0, 17, 0, 0, 0, 0, 0, 0, 0,
    ];
    let mut runs = Ipv6ExtensionsRuns::new(IpNumber(44), &three);
    for _ in 0..3 {
        assert!(rt; matches!(runs.next(), Some(exts) if exts.fragment.is_some()));
    }
    let end = (IpNumber(17), [].as_slice(), None);
    assert_same(&rt, "end after three", runs.end(), Some(end));
    let mut passed = Ipv6ExtensionsRuns::new(IpNumber(44), &three);
    assert!(rt; passed.skip_run() && passed.skip_run() && passed.skip_run() && !passed.skip_run());
    let mut runs = Ipv6ExtensionsRuns::new(IpNumber(44), &[44, 0, 0, 0, 0, 0, 0, 1, 17, 0, 0]);
    assert!(rt; matches!(runs.next(), Some(exts) if exts.fragment.is_some()));
    assert!(rt; matches!(runs.next(), Some(exts) if exts.is_empty()));
    let error = HeaderSliceError::Len(too_short(8, 3, Layer::Ipv6FragHeader, 8));
    let fault = Some((error, Layer::Ipv6FragHeader));
    let end = (IpNumber(44), [17, 0, 0].as_slice(), fault);
    assert_same(&rt, "end at a truncated header", runs.end(), Some(end));
    Ok(())
}

#[test]
fn cleared_copies(rt: HostRuntime) -> Result<(), Fail> {
    let heap = LocalHeap::new(rt.alloc(), 64)?;
    let mut copy: Vec<u8, &LocalHeap> = Vec::with_capacity(&heap, 16)?;
    let bytes = [44, 255, 0, 255, 1, 2, 3, 4, 17, 255, 0, 6, 5, 6, 7, 8, 9];
    let (headers, _, _, _) = Ipv6ExtensionsSlice::from_slice_lax(IpNumber(44), &bytes);
    copy.extend_from_slice(headers.slice())?;
    let _blocks = take_all(&rt, rt.alloc(), &heap)?;
    clear_chain(&headers, copy.as_mut_slice());
    let cleared = [44, 0, 0, 249, 1, 2, 3, 4, 17, 0, 0, 0, 5, 6, 7, 8];
    assert_bytes(&rt, "cleared", &copy, &cleared);
    Ok(())
}

#[test]
fn single_headers(rt: HostRuntime) -> Result<(), Fail> {
    let heap = LocalHeap::new(rt.alloc(), 64)?;
    let _blocks = take_all(&rt, rt.alloc(), &heap)?;
    let mut bytes = [0; 2048];
    for (len, payload_len, required_len) in [
        (11usize, 0, 12usize),
        (12, 2, 16),
        (1027, 255, 1028),
    ] {
        bytes[1] = payload_len;
        let refused = IpAuthHeaderSlice::from_slice(front(&bytes, len)).err();
        let error = too_short(required_len, len, Layer::IpAuthHeader, 0);
        let error = ip_auth::HeaderSliceError::Len(error);
        assert_same(&rt, len, refused, Some(error));
    }
    let auth = IpAuthHeaderSlice::from_slice(&bytes);
    assert!(rt; matches!(auth, Ok(header) if header.raw_icv().len() == 1016));
    let raw = Ipv6RawExtHeaderSlice::from_slice(&bytes);
    assert!(rt; matches!(raw, Ok(header) if header.payload().len() == 2046));
    let refused = Ipv6RawExtHeaderSlice::from_slice(front(&bytes, 2047)).err();
    let error = too_short(2048, 2047, Layer::Ipv6ExtHeader, 0);
    assert_same(&rt, "one byte less", refused, Some(error));
    bytes[1] = 0;
    let refused = IpAuthHeaderSlice::from_slice(front(&bytes, 12)).err();
    let zero = ip_auth::HeaderSliceError::Content(ip_auth::HeaderError::ZeroPayloadLen);
    assert_same(&rt, "a length of zero", refused, Some(zero));
    Ok(())
}

#[test]
fn limited_reads(rt: HostRuntime) -> Result<(), Fail> {
    let heap = LocalHeap::new(rt.alloc(), 64)?;
    let _blocks = take_all(&rt, rt.alloc(), &heap)?;
    for (limit, required_len, read_len) in [(7usize, 8, 2), (1, 2, 0)] {
        let options: &[u8] = &[17, 0, 0, 0, 0, 0, 0, 0];
        let source = LenSource::Ipv6HeaderPayloadLen;
        let mut reader = LimitedReader::new(options, limit, source, 40, Layer::Ipv6Header);
        let mut error = too_short(required_len, limit, Layer::Ipv6ExtHeader, 40);
        error.len_source = source;
        match Ipv6RawExtHeader::read_limited(&mut reader) {
            Err(io::LimitedReadError::Len(e)) => assert_same(&rt, limit, e, error),
            _ => assert_that(&rt, limit, false),
        }
        assert_same(&rt, limit, reader.read_len(), read_len);
    }
    Ok(())
}

/// Returns an IPv6 packet with these eight bytes after its base header.
fn ipv6_packet(payload_length: u8, next_header: u8, last: [u8; 8]) -> [u8; 48] {
    let mut bytes = [0; 48];
    bytes[0] = 0x60;
    bytes[5] = payload_length;
    bytes[6] = next_header;
    bytes[40..].copy_from_slice(&last);
    bytes
}

/// Checks the payload of an IPv6 packet and the source of its length, as the lax parse returns them. The strict parse
/// returns the same, or this error.
fn check_ipv6(
    rt: &impl Abort,
    bytes: &[u8],
    payload: &[u8],
    source: LenSource,
    refused: Option<LenError>,
) {
    match Ipv6Slice::from_slice_lax(bytes) {
        Ok(packet) => {
            assert_bytes(rt, bytes, packet.payload().payload, payload);
            assert_same(rt, bytes, packet.payload().len_source, source);
        }
        Err(_) => assert_that(rt, bytes, false),
    }
    match Ipv6Slice::from_slice(bytes) {
        Ok(packet) => {
            assert_that(rt, bytes, refused.is_none());
            assert_bytes(rt, bytes, packet.payload().payload, payload);
            assert_same(rt, bytes, packet.payload().len_source, source);
        }
        Err(e) => assert_same(rt, bytes, Some(e), refused.map(ipv6::SliceError::Len)),
    }
}

#[test]
fn ipv6_packets(rt: HostRuntime) -> Result<(), Fail> {
    let heap = LocalHeap::new(rt.alloc(), 64)?;
    let _blocks = take_all(&rt, rt.alloc(), &heap)?;
    let last = [1, 2, 3, 4, 5, 6, 7, 8];
    let jumbo = ipv6_packet(0, 17, last);
    check_ipv6(
        &rt,
        front(&jumbo, 40),
        &[],
        LenSource::Ipv6HeaderPayloadLen,
        None,
    );
    check_ipv6(&rt, &jumbo, &last, LenSource::Slice, None);
    let error = too_short(49, 48, Layer::Ipv6Packet, 0);
    check_ipv6(
        &rt,
        &ipv6_packet(9, 17, last),
        &last,
        LenSource::Slice,
        Some(error),
    );
    let routing = ipv6_packet(0, 60, [43, 0, 0, 0, 0, 0, 0, 0]);
    let error = ipv6::SliceError::Len(too_short(8, 0, Layer::Ipv6ExtHeader, 48));
    let refused = Ipv6Slice::from_slice(&routing).err();
    assert_same(&rt, "strict", refused, Some(error));
    let error = ipv6::SliceError::Len(too_short(8, 0, Layer::Ipv6ExtHeader, 48));
    let refused = Ipv6Slice::from_slice_lax(&routing).err();
    assert_same(&rt, "lax", refused, Some(error));
    Ok(())
}

#[test]
fn ipv4_packets_and_first_bytes(rt: HostRuntime) -> Result<(), Fail> {
    let heap = LocalHeap::new(rt.alloc(), 64)?;
    let _blocks = take_all(&rt, rt.alloc(), &heap)?;
    let error = ip::SliceError::Len(too_short(1, 0, Layer::IpHeader, 0));
    assert_same(&rt, "no bytes", IpSlice::from_slice(&[]).err(), Some(error));
    for (first, error) in [
        (
            0x44,
            ip::HeaderError::Ipv4HeaderLengthSmallerThanHeader { ihl: 4 },
        ),
        (
            0x10,
            ip::HeaderError::UnsupportedIpVersion { version_number: 1 },
        ),
    ] {
        let error = ip::SliceError::IpHeaders(ip::HeadersError::Ip(error));
        assert_same(&rt, first, IpSlice::from_slice(&[first]).err(), Some(error));
    }
    let error = ipv4::SliceError::Len(too_short(20, 1, Layer::Ipv4Header, 0));
    let refused = Ipv4Slice::from_slice(&[0x44]).err();
    assert_same(&rt, "one byte", refused, Some(error));
    let mut bytes = [
        0x45, 0, 0, 19, 0, 0, 0, 0, 64, 17, 0, 0, 10, 0, 0, 1, 10, 0, 0, 2, 1, 2, 3, 4,
    ];
    let mut error = too_short(20, 19, Layer::Ipv4Packet, 0);
    error.len_source = LenSource::Ipv4HeaderTotalLen;
    let refused = Ipv4Slice::from_slice(front(&bytes, 20)).err();
    let error = ipv4::SliceError::Len(error);
    assert_same(&rt, "a total length of 19", refused, Some(error));
    bytes[3] = 22;
    match Ipv4Slice::from_slice(&bytes) {
        Ok(packet) => assert_bytes(&rt, "total length 22", packet.payload().payload, &[1, 2]),
        Err(_) => assert!(rt; false, "a packet with bytes after it"),
    }
    Ok(())
}
