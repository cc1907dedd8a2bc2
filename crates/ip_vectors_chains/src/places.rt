//! Chains whose headers are stored in six places.
use crate::chains::{check_end, missing};
use crate::checks::{assert_bytes, assert_same, assert_that};
use check_reference::{fitting_len, plain_longest_chain};
use ip_base::IpNumber;
use ip_base::err::Layer;
use ip_ext_chains::err::ip_auth;
use ip_ext_chains::err::ipv6_exts::{HeaderError, HeaderSliceError};
use ip_ext_chains::{Ipv6Extensions, Ipv6ExtensionsSlice, Ipv6RawExtHeader, Ipv6RoutingExtensions};
use ip_ext_headers::{IpAuthHeaderSlice, Ipv6FragmentHeaderSlice, Ipv6RawExtHeaderSlice};
use std::alloc::Global;
use std::process::Abort;
use std::test::Fail;

/// Start number and bytes; the offset and length of the header in each place; the next number, the rest and the
/// error.
#[derive(Drop)]
struct Row<'a> {
    name: &'a str,
    start: u8,
    bytes: &'a [u8],
    places: [Option<(usize, usize)>; 6],
    number: u8,
    rest: usize,
    fault: Option<(HeaderSliceError, Layer)>,
}

/// Returns the bytes in which a header is expected.
fn part_of<'a>(bytes: &'a [u8], place: &Option<(usize, usize)>) -> Option<&'a [u8]> {
    match place {
        Some((at, len)) => bytes.get(*at..)?.get(..*len),
        None => None,
    }
}

/// Returns the bytes as a header in the uniform format (RFC 6564).
fn raw(bytes: Option<&[u8]>) -> Option<Ipv6RawExtHeader> {
    let header = Ipv6RawExtHeaderSlice::from_slice(bytes?).ok()?;
    Some(header.to_header())
}

/// Returns the struct that the row expects.
fn expected(row: &Row<'_>) -> Ipv6Extensions {
    let [hop_by_hop, destination, routing, fragment, auth, last] = &row.places;
    let routing = match raw(part_of(row.bytes, routing)) {
        Some(routing) => Some(Ipv6RoutingExtensions {
            routing,
            final_destination_options: raw(part_of(row.bytes, last)),
        }),
        None => None,
    };
    let fragment = match part_of(row.bytes, fragment) {
        Some(bytes) => match Ipv6FragmentHeaderSlice::from_slice(bytes) {
            Ok(header) => Some(header.to_header()),
            Err(_) => None,
        },
        None => None,
    };
    let auth = match part_of(row.bytes, auth) {
        Some(bytes) => match IpAuthHeaderSlice::from_slice(bytes) {
            Ok(header) => Some(header.to_header()),
            Err(_) => None,
        },
        None => None,
    };
    Ipv6Extensions {
        hop_by_hop_options: raw(part_of(row.bytes, hop_by_hop)),
        destination_options: raw(part_of(row.bytes, destination)),
        routing,
        fragment,
        auth,
    }
}

/// Checks the row with both parses and the plain program.
fn check(rt: &impl Abort, alloc: Global, row: &Row<'_>) -> Result<(), Fail> {
    check_plain(rt, alloc, row)?;
    check_parses(rt, row)
}

/// Checks the row with both parses, and the lengths of the struct's headers.
fn check_parses(rt: &impl Abort, row: &Row<'_>) -> Result<(), Fail> {
    let name = row.name;
    let start = IpNumber(row.start);
    let expected = expected(row);
    let (exts, number, rest, fault) = Ipv6Extensions::from_slice_lax(start, row.bytes);
    assert_that(rt, name, exts == expected);
    let len = row.bytes.len().saturating_sub(row.rest);
    let end = (row.number, &row.bytes[len..], &row.fault);
    check_end(rt, name, Some((number, rest, fault)), end);
    assert_same(rt, name, exts.header_len(), len);
    assert_same(rt, name, exts.is_empty(), row.bytes.len() == row.rest);
    assert_that(rt, name, exts.clone()? == exts);
    match (Ipv6Extensions::from_slice(start, row.bytes), &row.fault) {
        (Ok((strict, number, rest)), None) => {
            assert_that(rt, name, strict == exts);
            assert_same(rt, name, (number.0, rest.len()), (row.number, row.rest));
        }
        (Err(error), Some((expected, _))) => assert_same(rt, name, &error, expected),
        _ => assert_that(rt, name, false),
    }
    Ok(())
}

/// Checks that both slice parses return this number, this number of bytes left, and this error.
fn check_slice(
    rt: &impl Abort,
    row: &Row<'_>,
    number: u8,
    rest: usize,
    fault: &Option<(HeaderSliceError, Layer)>,
) -> Result<(), Fail> {
    let name = row.name;
    let start = IpNumber(row.start);
    let (slices, reached, left, told) = Ipv6ExtensionsSlice::from_slice_lax(start, row.bytes);
    assert_same(rt, name, (reached.0, left.len()), (number, rest));
    assert_same(rt, name, &told, fault);
    let consumed = row.bytes.len().saturating_sub(rest);
    assert_bytes(rt, name, slices.slice(), &row.bytes[..consumed]);
    match (Ipv6ExtensionsSlice::from_slice(start, row.bytes), fault) {
        (Ok((strict, reached, left)), None) => {
            assert_that(rt, name, strict == slices);
            assert_same(rt, name, (reached.0, left.len()), (number, rest));
        }
        (Err(error), Some((expected, _))) => assert_same(rt, name, &error, expected),
        _ => assert_that(rt, name, false),
    }
    Ok(())
}

/// Checks that the slow plain program consumes as many bytes.
fn check_plain(rt: &impl Abort, alloc: Global, row: &Row<'_>) -> Result<(), Fail> {
    let name = row.name;
    let plain = plain_longest_chain(alloc, row.start, row.bytes)?;
    let fitting = fitting_len(plain.headers.as_slice());
    let (mut read, mut number) = (0usize, row.start);
    for header in plain.headers.iter().take(fitting) {
        read = read.saturating_add(header.bytes.len());
        number = header.bytes.first().copied().unwrap_or(number);
    }
    assert_same(rt, name, read, row.bytes.len().saturating_sub(row.rest));
    assert_same(rt, name, number, row.number);
    Ok(())
}

#[test]
fn headers_in_their_places(rt: HostRuntime) -> Result<(), Fail> {
    let twice = Row {
        name: "a second header of options has no place",
        start: 60,
        bytes: &[60, 0, 0, 0, 0, 0, 0, 0, 17, 0, 0, 0, 0, 0, 0, 0],
        places: [None, Some((0, 8)), None, None, None, None],
        number: 60,
        rest: 8,
        fault: None,
    };
    check(&rt, rt.alloc(), &twice)?;
    let no_headers = Row {
        name: "UDP goes on",
        start: 17,
        bytes: &[0, 1, 2, 3],
        places: [None, None, None, None, None, None],
        number: 17,
        rest: 4,
        fault: None,
    };
    check(&rt, rt.alloc(), &no_headers)
}

#[test]
fn options_before_routing_and_after_it(rt: HostRuntime) -> Result<(), Fail> {
    let both_sides = Row {
        name: "options before routing and after it",
        start: 60,
        bytes: &[
            43, 0, 0, 0, 0, 0, 0, 0, 60, 0, 0, 0, 0, 0, 0, 0, 17, 0, 0, 0, 0, 0, 0, 0,
        ],
        places: [None, Some((0, 8)), Some((8, 8)), None, None, Some((16, 8))],
        number: 17,
        rest: 0,
        fault: None,
    };
    check(&rt, rt.alloc(), &both_sides)?;
    let final_only = Row {
        name: "options after routing don't take the other place",
        start: 43,
        bytes: &[
            60, 0, 0, 0, 0, 0, 0, 0, 60, 0, 0, 0, 0, 0, 0, 0, 17, 0, 0, 0, 0, 0, 0, 0,
        ],
        places: [None, None, Some((0, 8)), None, None, Some((8, 8))],
        number: 60,
        rest: 8,
        fault: None,
    };
    check(&rt, rt.alloc(), &final_only)
}

#[test]
fn faults_in_places(rt: HostRuntime) -> Result<(), Fail> {
    let zero = HeaderError::IpAuth(ip_auth::HeaderError::ZeroPayloadLen);
    let no_bytes = Row {
        name: "no bytes at hop by hop options",
        start: 0,
        bytes: &[],
        places: [None, None, None, None, None, None],
        number: 0,
        rest: 0,
        fault: missing(8, 0, Layer::Ipv6ExtHeader, 0, Layer::Ipv6HopByHopHeader),
    };
    check(&rt, rt.alloc(), &no_bytes)?;
    let zero_len = Row {
        name: "an authentication header of length 0 after options",
        start: 60,
        bytes: &[51, 0, 0, 0, 0, 0, 0, 0, 17, 0, 0, 0, 0, 0, 0, 0, 0, 0, 0, 0],
        places: [None, Some((0, 8)), None, None, None, None],
        number: 51,
        rest: 12,
        fault: Some((HeaderSliceError::Content(zero), Layer::IpAuthHeader)),
    };
    check(&rt, rt.alloc(), &zero_len)
}

#[test]
fn hop_by_hop_options_that_come_late(rt: HostRuntime) -> Result<(), Fail> {
    let late = HeaderSliceError::Content(HeaderError::HopByHopNotAtStart);
    let hop_by_hop_twice = Row {
        name: "hop by hop options lead to themselves",
        start: 0,
        bytes: &[0, 0, 0, 0, 0, 0, 0, 0],
        places: [Some((0, 8)), None, None, None, None, None],
        number: 0,
        rest: 0,
        fault: Some((late.clone()?, Layer::Ipv6HopByHopHeader)),
    };
    check(&rt, rt.alloc(), &hop_by_hop_twice)?;
    let late_hop_by_hop = Row {
        name: "hop by hop options after a fragment header",
        start: 44,
        bytes: &[0, 0, 0, 0, 0, 0, 0, 0, 17, 0, 0, 0, 0, 0, 0, 0],
        places: [None, None, None, Some((0, 8)), None, None],
        number: 0,
        rest: 8,
        fault: Some((late, Layer::Ipv6HopByHopHeader)),
    };
    check(&rt, rt.alloc(), &late_hop_by_hop)
}

#[test]
fn occupied_places(rt: HostRuntime) -> Result<(), Fail> {
    let short_and_occupied = Row {
        name: "a second fragment header that is too short isn't looked at",
        start: 44,
        bytes: &[44, 0, 0, 0, 0, 0, 0, 1, 17, 0, 0],
        places: [None, None, None, Some((0, 8)), None, None],
        number: 44,
        rest: 3,
        fault: None,
    };
    check(&rt, rt.alloc(), &short_and_occupied)?;
    let after_occupied = Row {
        name: "no error is reported after a number whose place is occupied",
        start: 44,
        bytes: &[
            44, 0, 0, 0, 0, 0, 0, 0, 0, 0, 0, 0, 0, 0, 0, 0, 17, 0, 0, 0, 0, 0, 0, 0,
        ],
        places: [None, None, None, Some((0, 8)), None, None],
        number: 44,
        rest: 16,
        fault: None,
    };
    check(&rt, rt.alloc(), &after_occupied)?;
    let late = HeaderSliceError::Content(HeaderError::HopByHopNotAtStart);
    let late = Some((late, Layer::Ipv6HopByHopHeader));
    check_slice(&rt, &after_occupied, 0, 8, &late)?;
    let whole_and_occupied = Row {
        name: "the whole chain has places, and the place of its last number is occupied",
        start: 44,
        bytes: &[60, 0, 0, 0, 0, 0, 0, 0, 44, 0, 0, 0, 0, 0, 0, 0],
        places: [None, Some((8, 8)), None, Some((0, 8)), None, None],
        number: 44,
        rest: 0,
        fault: None,
    };
    check(&rt, rt.alloc(), &whole_and_occupied)?;
    let no_more = missing(8, 0, Layer::Ipv6FragHeader, 16, Layer::Ipv6FragHeader);
    check_slice(&rt, &whole_and_occupied, 44, 0, &no_more)
}

/// Hop-by-hop options, destination options, routing, fragment, authentication and destination options.
const SIX: [u8; 52] = [
    60, 0, 0, 0, 0, 0, 0, 0, 43, 0, 0, 0, 0, 0, 0, 0, 44, 0, 0, 0, 0, 0, 0, 0, 51, 0, 0, 0, 0, 0,
    0, 0, 60, 1, 0, 0, 0, 0, 0, 0, 0, 0, 0, 0, 17, 0, 0, 0, 0, 0, 0, 0,
];

/// Returns, for a truncation at `kept`, the length of the whole headers, the number after them, and the bytes that the
/// next header needs.
fn six_truncated_at(kept: usize) -> (usize, u8, usize) {
    match kept {
        0..8 => (0, 0, 8),
        8..16 => (8, 60, 8),
        16..24 => (16, 43, 8),
        24..32 => (24, 44, 8),
        32..44 => (32, 51, 12),
        44..52 => (44, 60, 8),
        _ => (52, 17, 0),
    }
}

/// Returns the two layers of the error for a truncated header of this number.
fn layers(number: u8) -> (Layer, Layer) {
    match number {
        0 => (Layer::Ipv6ExtHeader, Layer::Ipv6HopByHopHeader),
        43 => (Layer::Ipv6ExtHeader, Layer::Ipv6RouteHeader),
        44 => (Layer::Ipv6FragHeader, Layer::Ipv6FragHeader),
        51 => (Layer::IpAuthHeader, Layer::IpAuthHeader),
        _ => (Layer::Ipv6ExtHeader, Layer::Ipv6DestOptionsHeader),
    }
}

#[test]
fn six_places_truncated_at_each_byte(rt: HostRuntime) -> Result<(), Fail> {
    let whole = [(0, 8), (8, 8), (16, 8), (24, 8), (32, 12), (44, 8)];
    for kept in 0..=SIX.len() {
        let (read, number, required) = six_truncated_at(kept);
        let placed_fields = |place: (usize, usize)| -> Option<(usize, usize)> {
            if place.0.saturating_add(place.1) <= read {
                Some(place)
            } else {
                None
            }
        };
        let (inner, layer) = layers(number);
        let left = kept.saturating_sub(read);
        let row = Row {
            name: "six places, kept short",
            start: 0,
            bytes: &SIX[..kept],
            places: [
                placed_fields(whole[0]),
                placed_fields(whole[1]),
                placed_fields(whole[2]),
                placed_fields(whole[3]),
                placed_fields(whole[4]),
                placed_fields(whole[5]),
            ],
            number,
            rest: left,
            fault: if required == 0 {
                None
            } else {
                missing(required, left, inner, read, layer)
            },
        };
        check(&rt, rt.alloc(), &row)?;
        check_slice(&rt, &row, row.number, row.rest, &row.fault)?;
    }
    Ok(())
}

#[test]
fn routing_headers_are_as_long_as_their_parts(rt: HostRuntime) -> Result<(), Fail> {
    let zeros = [0u8; 2046];
    let rows = [
        (&zeros[..6], &zeros[..14], 8, 24),
        (&zeros[..2046], &zeros[..6], 2048, 2056),
        (&zeros[..2046], &zeros[..2046], 2048, 4096),
    ];
    for (routing, options, alone, both) in rows {
        let mut headers = Ipv6RoutingExtensions {
            routing: Ipv6RawExtHeader::new_raw(IpNumber(60), routing)?,
            final_destination_options: None,
        };
        assert_same(&rt, "routing alone", headers.header_len(), alone);
        headers.final_destination_options = Some(Ipv6RawExtHeader::new_raw(IpNumber(17), options)?);
        assert_same(&rt, "both", headers.header_len(), both);
    }
    let bounds = (
        Ipv6RoutingExtensions::MIN_LEN,
        Ipv6RoutingExtensions::MAX_LEN,
    );
    assert_same(&rt, "bounds", bounds, (8, 4096));
    Ok(())
}
