//! Chains borrowed from bytes.
use crate::checks::{assert_bytes, assert_same, assert_that};
use check_reference::{plain_fault, plain_longest_chain};
use ip_base::err::{Layer, LenError};
use ip_base::{IpNumber, LenSource, ip_number};
use ip_ext_chains::err::ip_auth;
use ip_ext_chains::err::ipv6_exts::{HeaderError, HeaderSliceError};
use ip_ext_chains::{
    Ipv6ExtensionSlice, Ipv6ExtensionSliceIter, Ipv6ExtensionsCursor, Ipv6ExtensionsSlice,
};
use ip_ext_slices::{authentication_header_at, fault, header_len_at, is_extension};
use std::alloc::Global;
use std::process::Abort;
use std::test::Fail;

/// Start number and bytes; the number and length of each header; the next number, the rest and the error.
#[derive(Drop)]
struct Row<'a> {
    name: &'a str,
    start: u8,
    bytes: &'a [u8],
    headers: &'a [(u8, usize)],
    number: u8,
    rest: &'a [u8],
    fault: Option<(HeaderSliceError, Layer)>,
}

pub(crate) fn missing(
    required_len: usize,
    len: usize,
    inner: Layer,
    offset: usize,
    layer: Layer,
) -> Option<(HeaderSliceError, Layer)> {
    let error = LenError {
        required_len,
        len,
        len_source: LenSource::Slice,
        layer: inner,
        layer_start_offset: offset,
    };
    Some((HeaderSliceError::Len(error), layer))
}

impl Row<'_> {
    /// Returns the next number, the rest and the error.
    fn end(&self) -> (u8, &[u8], &Option<(HeaderSliceError, Layer)>) {
        (self.number, self.rest, &self.fault)
    }
}

/// Checks the row with the parses of the chain crate.
fn check_parse(rt: &impl Abort, row: &Row<'_>) -> Result<(), Fail> {
    let name = row.name;
    let start = IpNumber(row.start);
    let (chain, number, rest, fault) = Ipv6ExtensionsSlice::from_slice_lax(start, row.bytes);
    let len = row.bytes.len().saturating_sub(row.rest.len());
    assert_bytes(rt, name, chain.slice(), &row.bytes[..len]);
    assert_same(rt, name, chain.is_empty(), row.headers.is_empty());
    let first = row.headers.first().map(|(number, _)| *number);
    assert_same(rt, name, chain.first_header().map(|number| number.0), first);
    check_end(rt, name, Some((number, rest, fault)), row.end());
    check_strict(rt, row, &chain);
    check_iterator(rt, row, chain)
}

/// Checks that the strict parse returns this chain, or the row's error.
fn check_strict(rt: &impl Abort, row: &Row<'_>, chain: &Ipv6ExtensionsSlice<'_>) {
    let name = row.name;
    match (
        Ipv6ExtensionsSlice::from_slice(IpNumber(row.start), row.bytes),
        &row.fault,
    ) {
        (Ok(strict), None) => {
            assert_that(rt, name, strict.0 == *chain);
            check_end(rt, name, Some((strict.1, strict.2, None)), row.end());
        }
        (Err(error), Some((expected, _))) => assert_same(rt, name, &error, expected),
        _ => assert_that(rt, name, false),
    }
}

/// Checks that there is a header of this number and length, and that its copy is equal.
fn check_header(
    rt: &impl Abort,
    name: &str,
    header: Option<Ipv6ExtensionSlice<'_>>,
    expected: (u8, usize),
) -> Result<(), Fail> {
    match header {
        Some(header) => {
            assert_same(
                rt,
                name,
                (header.number().0, header.slice().len()),
                expected,
            );
            assert_that(rt, name, header.clone()? == header);
        }
        None => assert_that(rt, name, false),
    }
    Ok(())
}

/// The next number, the rest and the error at the end of a chain.
pub(crate) type End<'a> = (IpNumber, &'a [u8], Option<(HeaderSliceError, Layer)>);

/// Checks that there is an end, with this next number, rest and error.
pub(crate) fn check_end(
    rt: &impl Abort,
    name: &str,
    end: Option<End<'_>>,
    expected: (u8, &[u8], &Option<(HeaderSliceError, Layer)>),
) {
    match end {
        Some((number, rest, fault)) => {
            assert_same(rt, name, number.0, expected.0);
            assert_bytes(rt, name, rest, expected.1);
            assert_same(rt, name, &fault, expected.2);
        }
        None => assert_that(rt, name, false),
    }
}

/// Checks that the iterator returns the row's headers, and `None` from then on.
fn check_iterator(
    rt: &impl Abort,
    row: &Row<'_>,
    chain: Ipv6ExtensionsSlice<'_>,
) -> Result<(), Fail> {
    let mut headers = chain.into_iter();
    for expected in row.headers {
        check_header(rt, row.name, headers.next(), *expected)?;
    }
    for _ in 0..3 {
        assert_that(rt, row.name, headers.next().is_none());
    }
    Ok(())
}

/// Checks that the cursor returns the row's headers, reports the end from the last of them on, and returns nothing
/// after it.
fn check_cursor(rt: &impl Abort, row: &Row<'_>) -> Result<(), Fail> {
    let name = row.name;
    let mut headers = Ipv6ExtensionsCursor::new(IpNumber(row.start), row.bytes);
    let mut number = row.start;
    let mut rest = row.bytes;
    for expected in row.headers {
        assert_same(rt, name, headers.next_number().0, number);
        assert_bytes(rt, name, headers.rest(), rest);
        assert_that(rt, name, headers.end().is_none());
        check_header(rt, name, headers.next(), *expected)?;
        number = rest.first().copied().unwrap_or(0);
        rest = rest.get(expected.1..).unwrap_or(&[]);
    }
    for _ in 0..3 {
        assert_that(rt, name, headers.clone()? == headers);
        check_end(rt, name, headers.end(), row.end());
        assert_that(rt, name, headers.next().is_none());
    }
    Ok(())
}

/// Checks the row with the slow plain program.
fn check_plain(rt: &impl Abort, alloc: Global, row: &Row<'_>) -> Result<(), Fail> {
    let name = row.name;
    let plain = plain_longest_chain(alloc, row.start, row.bytes)?;
    assert_same(rt, name, plain.headers.len(), row.headers.len());
    for (header, expected) in plain.headers.iter().zip(row.headers) {
        assert_same(rt, name, (header.number, header.bytes.len()), *expected);
    }
    let offset = row.bytes.len().saturating_sub(row.rest.len());
    let fault = plain_fault(plain.headers.is_empty(), plain.number, plain.rest, offset);
    let end = (IpNumber(plain.number), plain.rest, fault);
    check_end(rt, name, Some(end), row.end());
    Ok(())
}

fn check(rt: &impl Abort, alloc: Global, row: &Row<'_>) -> Result<(), Fail> {
    check_parse(rt, row)?;
    check_cursor(rt, row)?;
    check_plain(rt, alloc, row)
}

#[test]
fn no_extension_number(rt: HostRuntime) -> Result<(), Fail> {
    let row = Row {
        name: "UDP goes on",
        start: 17,
        bytes: &[0, 1, 2, 3],
        headers: &[],
        number: 17,
        rest: &[0, 1, 2, 3],
        fault: None,
    };
    check(&rt, rt.alloc(), &row)
}

#[test]
fn headers_of_one_kind(rt: HostRuntime) -> Result<(), Fail> {
    let repeated = Row {
        name: "destination options twice",
        start: 60,
        bytes: &[60, 0, 0, 0, 0, 0, 0, 0, 17, 0, 0, 0, 0, 0, 0, 0],
        headers: &[(60, 8), (60, 8)],
        number: 17,
        rest: &[],
        fault: None,
    };
    check(&rt, rt.alloc(), &repeated)?;
    let truncated = Row {
        name: "a second fragment header is truncated",
        start: 44,
        bytes: &[44, 0, 0, 0, 0, 0, 0, 1, 17, 0, 0],
        headers: &[(44, 8)],
        number: 44,
        rest: &[17, 0, 0],
        fault: missing(8, 3, Layer::Ipv6FragHeader, 8, Layer::Ipv6FragHeader),
    };
    check(&rt, rt.alloc(), &truncated)
}

#[test]
fn headers_of_all_kinds(rt: HostRuntime) -> Result<(), Fail> {
    let bytes = [
        60, 0, 0, 0, 0, 0, 0, 0, 43, 0, 0, 0, 0, 0, 0, 0, 44, 0, 0, 0, 0, 0, 0, 0, 51, 0, 0, 1, 0,
        0, 0, 0, 60, 1, 0, 0, 0, 0, 0, 0, 0, 0, 0, 0, 17, 0, 0, 0, 0, 0, 0, 0, 9, 9,
    ];
    let row = Row {
        name: "one header of each kind and destination options again",
        start: 0,
        bytes: &bytes,
        headers: &[(0, 8), (60, 8), (43, 8), (44, 8), (51, 12), (60, 8)],
        number: 17,
        rest: &[9, 9],
        fault: None,
    };
    check(&rt, rt.alloc(), &row)?;
    let chain = Ipv6ExtensionsSlice::from_slice_lax(IpNumber(0), &bytes).0;
    assert!(rt; chain.is_fragmenting_payload());
    assert!(rt; chain.clone()? == chain);
    let shorter = Ipv6ExtensionsSlice::from_slice_lax(IpNumber(0), &bytes[..24]).0;
    assert!(rt; !shorter.is_fragmenting_payload());
    assert!(rt; shorter != chain);
    Ok(())
}

#[test]
fn faults_after_a_header(rt: HostRuntime) -> Result<(), Fail> {
    let ends = Row {
        name: "a routing header is named, and no bytes are left",
        start: 60,
        bytes: &[43, 0, 0, 0, 0, 0, 0, 0],
        headers: &[(60, 8)],
        number: 43,
        rest: &[],
        fault: missing(8, 0, Layer::Ipv6ExtHeader, 8, Layer::Ipv6RouteHeader),
    };
    check(&rt, rt.alloc(), &ends)?;
    let hop_by_hop = Row {
        name: "hop by hop options after hop by hop options",
        start: 0,
        bytes: &[0, 0, 0, 0, 0, 0, 0, 0],
        headers: &[(0, 8)],
        number: 0,
        rest: &[],
        fault: Some((
            HeaderSliceError::Content(HeaderError::HopByHopNotAtStart),
            Layer::Ipv6HopByHopHeader,
        )),
    };
    check(&rt, rt.alloc(), &hop_by_hop)
}

#[test]
fn faults_at_the_start(rt: HostRuntime) -> Result<(), Fail> {
    let zero = Row {
        name: "an authentication header with length 0",
        start: 51,
        bytes: &[17, 0, 0, 0, 0, 0, 0, 0, 0, 0, 0, 0],
        headers: &[],
        number: 51,
        rest: &[17, 0, 0, 0, 0, 0, 0, 0, 0, 0, 0, 0],
        fault: Some((
            HeaderSliceError::Content(HeaderError::IpAuth(ip_auth::HeaderError::ZeroPayloadLen)),
            Layer::IpAuthHeader,
        )),
    };
    check(&rt, rt.alloc(), &zero)?;
    let nothing = Row {
        name: "hop by hop options are named, and there are no bytes",
        start: 0,
        bytes: &[],
        headers: &[],
        number: 0,
        rest: &[],
        fault: missing(8, 0, Layer::Ipv6ExtHeader, 0, Layer::Ipv6HopByHopHeader),
    };
    check(&rt, rt.alloc(), &nothing)
}

#[test]
fn defaults(rt: HostRuntime) -> Result<(), Fail> {
    let chain = Ipv6ExtensionsSlice::default();
    assert!(rt; chain.is_empty());
    assert_same(&rt, "no first header", chain.first_header(), None);
    assert_bytes(&rt, "no bytes", chain.slice(), &[]);
    let empty = chain.into_iter();
    assert!(rt; empty != Ipv6ExtensionSliceIter::default());
    assert!(rt; empty.clone()? == empty);
    assert!(rt; Ipv6ExtensionSliceIter::default().next().is_none());
    let mut cursor = Ipv6ExtensionsCursor::default();
    assert!(rt; cursor == Ipv6ExtensionsCursor::new(IpNumber(59), &[]));
    assert!(rt; cursor.next().is_none() && cursor.end().is_some());
    Ok(())
}

/// Checks that cursors over the same bytes differ if one has moved, or if they started at different numbers.
#[test]
fn cursors_that_differ(rt: HostRuntime) -> Result<(), Fail> {
    let bytes: &[u8] = &[60, 0, 0, 0, 0, 0, 0, 0, 59, 0, 0, 0, 0, 0, 0, 0];
    let before = Ipv6ExtensionsCursor::new(IpNumber(43), bytes);
    let mut past_routing = before.clone()?;
    let mut after_options = Ipv6ExtensionsCursor::new(IpNumber(60), bytes);
    assert!(rt; before == past_routing && before != after_options);
    assert!(rt; past_routing.next().is_some() && after_options.next().is_some());
    assert!(rt; before != past_routing && past_routing != after_options);
    let begun_there = Ipv6ExtensionsCursor::new(IpNumber(60), past_routing.rest());
    assert!(rt; begun_there != past_routing);
    Ok(())
}

/// Returns the iterator after the last header: a fragment header with next header `number`.
fn exhausted(number: u8) -> Ipv6ExtensionSliceIter<'static> {
    let bytes: &'static [u8] = match number {
        17 => &[17, 0, 0, 0, 0, 0, 0, 0],
        59 => &[59, 0, 0, 0, 0, 0, 0, 0],
        _ => &[6, 0, 0, 0, 0, 0, 0, 0],
    };
    let mut headers = Ipv6ExtensionsSlice::from_slice_lax(IpNumber(44), bytes)
        .0
        .into_iter();
    for _ in 0..3u8 {
        let _ = headers.next();
    }
    headers
}

#[test]
fn number_after_the_last_header(rt: HostRuntime) {
    let seventeen = Ipv6ExtensionsSlice::default().into_iter();
    let fifty_nine = Ipv6ExtensionSliceIter::default();
    assert!(rt; exhausted(17) == seventeen);
    assert!(rt; exhausted(59) == fifty_nine);
    assert!(rt; exhausted(6) != seventeen && exhausted(6) != fifty_nine);
    assert!(rt; exhausted(6) == exhausted(6));
}

#[test]
fn five_hundred_headers(rt: HostRuntime) -> Result<(), Fail> {
    let mut bytes = [0u8; 4096];
    for (i, byte) in bytes.iter_mut().enumerate() {
        if i % 8 == 0 {
            *byte = if i < 4088 { 44 } else { 17 };
        }
    }
    let (chain, number, rest, fault) = Ipv6ExtensionsSlice::from_slice_lax(IpNumber(44), &bytes);
    assert!(rt; number == IpNumber(17) && rest.is_empty() && fault.is_none());
    assert_same(&rt, "iterator", chain.into_iter().count(), 512);
    let cursor = Ipv6ExtensionsCursor::new(IpNumber(44), &bytes);
    assert_same(&rt, "cursor", cursor.count(), 512);
    let plain = plain_longest_chain(rt.alloc(), 44, &bytes)?;
    assert!(rt; plain.number == 17 && plain.rest.is_empty());
    assert_same(&rt, "plain", plain.headers.len(), 512);
    Ok(())
}

#[test]
fn errors_told_from_further_to_the_front(rt: HostRuntime) {
    let error = |offset| LenError {
        required_len: 1,
        len: 2,
        len_source: LenSource::Slice,
        layer: Layer::Icmpv4,
        layer_start_offset: offset,
    };
    let moved = ip_auth::HeaderSliceError::Len(error(3)).add_slice_offset(200);
    assert!(rt; moved == ip_auth::HeaderSliceError::Len(error(203)));
    let zero = ip_auth::HeaderSliceError::Content(ip_auth::HeaderError::ZeroPayloadLen);
    let same = ip_auth::HeaderSliceError::Content(ip_auth::HeaderError::ZeroPayloadLen);
    assert!(rt; zero.add_slice_offset(200) == same);
    let moved = HeaderSliceError::Len(error(3)).add_slice_offset(200);
    assert!(rt; moved == HeaderSliceError::Len(error(203)));
    let late = HeaderSliceError::Content(HeaderError::HopByHopNotAtStart);
    let same = HeaderSliceError::Content(HeaderError::HopByHopNotAtStart);
    assert!(rt; late.add_slice_offset(200) == same);
}

#[test]
fn numbers_of_extension_headers(rt: HostRuntime) {
    for number in 0..=255u8 {
        let expected = matches!(number, 0 | 43 | 44 | 51 | 60);
        assert_same(&rt, number, is_extension(IpNumber(number)), expected);
    }
}

/// Rows: whether no header precedes, the number, the bytes, and the length of the header there (RFC 8200, section 4; RFC
/// 4302, section 2.2).
#[test]
fn lengths_of_next_headers(rt: HostRuntime) {
    let rows: [(bool, u8, &[u8], Option<usize>); 12] = [
        (
            true,
            0,
            &[17, 1, 0, 0, 0, 0, 0, 0, 0, 0, 0, 0, 0, 0, 0, 0, 9],
            Some(16),
        ),
        (false, 0, &[17, 0, 0, 0, 0, 0, 0, 0], None),
        (false, 43, &[17, 0, 0, 0, 0, 0, 0, 0], Some(8)),
        (false, 43, &[17, 0, 0, 0, 0, 0, 0], None),
        (false, 44, &[17, 255, 0, 0, 0, 0, 0, 0], Some(8)),
        (false, 44, &[17, 0, 0, 0, 0, 0, 0], None),
        (false, 51, &[17, 1, 0, 0, 0, 0, 0, 0, 0, 0, 0, 0], Some(12)),
        (false, 51, &[17, 0, 0, 0, 0, 0, 0, 0, 0, 0, 0, 0], None),
        (false, 51, &[17, 1, 0, 0, 0, 0, 0, 0, 0, 0, 0], None),
        (
            false,
            60,
            &[17, 1, 0, 0, 0, 0, 0, 0, 0, 0, 0, 0, 0, 0, 0],
            None,
        ),
        (true, 135, &[17, 0, 0, 0, 0, 0, 0, 0], None),
        (true, 17, &[], None),
    ];
    'rows: for (first, number, bytes, len) in rows {
        assert_same(
            &rt,
            number,
            header_len_at(first, IpNumber(number), bytes),
            len,
        );
    }
}

#[test]
fn errors_where_headers_are_missing(rt: HostRuntime) {
    let error = fault(true, ip_number::IPV6_ROUTE, &[17, 2, 0], 40);
    let expected = missing(8, 3, Layer::Ipv6ExtHeader, 40, Layer::Ipv6RouteHeader);
    assert_same(&rt, 43, Some(error), expected);
}

/// Returns the length of the authentication header after an IPv4 base header: 0 for none, and `None` for an error.
fn authentication_len(number: IpNumber, bytes: &[u8]) -> Option<usize> {
    match authentication_header_at(number, bytes) {
        Ok(Some(header)) => Some(header.slice().len()),
        Ok(None) => Some(0),
        Err(_) => None,
    }
}

#[test]
fn authentication_headers_after_ipv4(rt: HostRuntime) {
    let bytes: &[u8] = &[17, 1, 0, 0, 0, 0, 0, 7, 0, 0, 0, 0, 9];
    assert_same(
        &rt,
        13,
        authentication_len(ip_number::AUTH, bytes),
        Some(12),
    );
    assert_same(
        &rt,
        11,
        authentication_len(ip_number::AUTH, &bytes[..11]),
        None,
    );
    assert_same(
        &rt,
        44,
        authentication_len(ip_number::IPV6_FRAG, bytes),
        Some(0),
    );
}
