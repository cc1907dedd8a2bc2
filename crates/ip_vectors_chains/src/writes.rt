//! Walks, links and writes of the headers in six places.
use crate::checks::{assert_bytes, assert_same, assert_that};
use ip_base::{IpFragOffset, IpNumber};
use ip_ext_chains::err::ipv6_exts::{ExtsWalkError, HeaderWriteError};
use ip_ext_chains::{Ipv6Extensions, Ipv6RoutingExtensions};
use ip_ext_headers::{IpAuthHeader, Ipv6FragmentHeader, Ipv6RawExtHeader};
use std::alloc::{AllocError, Global};
use std::process::Abort;
use std::test::Fail;

fn raw(next: u8) -> Ipv6RawExtHeader {
    let mut header = Ipv6RawExtHeader::default();
    header.next_header = IpNumber(next);
    header
}

fn fragment(next: u8) -> Result<Ipv6FragmentHeader, Fail> {
    Ok(Ipv6FragmentHeader::new(IpNumber(next), IpFragOffset::try_new(0)?, false, 0))
}

/// Returns all six places occupied, each raw header of 8 bytes and the authentication header of 12.
fn all_six() -> Result<Ipv6Extensions, Fail> {
    Ok(Ipv6Extensions {
        hop_by_hop_options: Some(raw(1)),
        destination_options: Some(raw(2)),
        routing: Some(Ipv6RoutingExtensions {
            routing: raw(3),
            final_destination_options: Some(raw(4)),
        }),
        fragment: Some(fragment(5)?),
        auth: Some(IpAuthHeader::new(IpNumber(6), 0, 0, &[])?),
    })
}

/// Returns whether the walk is refused, and the write after it appended exactly these bytes.
fn is_refused(
    exts: &Ipv6Extensions,
    first: u8,
    fault: &ExtsWalkError,
    written: &Result<(), HeaderWriteError>,
) -> bool {
    let walk = exts.next_header(IpNumber(first));
    matches!(walk, Err(e) if e == *fault)
        && matches!(written, Err(HeaderWriteError::Content(e)) if *e == *fault)
}

#[test]
fn no_headers_are_written_as_no_bytes(rt: HostRuntime) -> Result<(), Fail> {
    let exts = Ipv6Extensions::default();
    assert_same(&rt, "number", exts.next_header(IpNumber(0))?.0, 0);
    let mut out = Vec::new(rt.alloc());
    exts.write(&mut out, IpNumber(0))?;
    assert_bytes(&rt, "bytes", &out, &[]);
    Ok(())
}

#[test]
fn a_header_that_nothing_names(rt: HostRuntime) -> Result<(), Fail> {
    let mut exts = Ipv6Extensions::default();
    exts.fragment = Some(fragment(60)?);
    exts.destination_options = Some(raw(17));
    let mut out = Vec::new(rt.alloc());
    let written = exts.write(&mut out, IpNumber(60));
    let fault = ExtsWalkError::ExtNotReferenced {
        missing_ext: IpNumber(44),
    };
    assert!(rt; is_refused(&exts, 60, &fault, &written));
    assert_bytes(&rt, "bytes", &out, &[17, 0, 0, 0, 0, 0, 0, 0]);
    // From the fragment header's number on, both are reached.
    assert_same(
        &rt,
        "from the fragment header",
        exts.next_header(IpNumber(44))?.0,
        17,
    );
    Ok(())
}

#[test]
fn hop_by_hop_options_after_a_header(rt: HostRuntime) -> Result<(), Fail> {
    let mut exts = Ipv6Extensions::default();
    exts.hop_by_hop_options = Some(raw(17));
    exts.fragment = Some(fragment(0)?);
    let mut out = Vec::new(rt.alloc());
    let written = exts.write(&mut out, IpNumber(44));
    assert!(rt; is_refused(&exts, 44, &ExtsWalkError::HopByHopNotAtStart, &written));
    assert_bytes(&rt, "bytes", &out, &[0, 0, 0, 0, 0, 0, 0, 0]);
    // Without headers, the result is the start number.
    exts.hop_by_hop_options = None;
    assert_same(&rt, "no headers", exts.next_header(IpNumber(44))?.0, 0);
    Ok(())
}

#[test]
fn all_places_linked(rt: HostRuntime) -> Result<(), Fail> {
    let mut exts = all_six()?;
    assert_same(
        &rt,
        "first number",
        exts.set_next_headers(IpNumber(17)).0,
        0,
    );
    assert_same(&rt, "last number", exts.next_header(IpNumber(0))?.0, 17);
    let mut out = Vec::new(rt.alloc());
    exts.write(&mut out, IpNumber(0))?;
    assert_same(&rt, "length", out.len(), 52);
    for (offset, link) in [
        (0usize, 60u8),
        (8, 43),
        (16, 44),
        (24, 51),
        (32, 60),
        (44, 17),
    ] {
        assert_same(&rt, offset, out.get(offset).copied(), Some(link));
    }
    let (again, number, rest) = Ipv6Extensions::from_slice(IpNumber(0), out.as_slice())?;
    assert!(rt; again == exts);
    assert_same(&rt, "end", (number, rest.len()), (IpNumber(17), 0));
    Ok(())
}

#[test]
fn reserved_bits_are_written_as_zero(rt: HostRuntime) -> Result<(), Fail> {
    let bytes = [17, 0xff, 0, 0xe1, 1, 2, 3, 4];
    let (exts, number, _, fault) = Ipv6Extensions::from_slice_lax(IpNumber(44), &bytes);
    assert!(rt; number == IpNumber(17) && fault.is_none());
    match &exts.fragment {
        Some(header) => {
            assert_same(&rt, "next header", header.next_header.0, 17);
            assert_same(&rt, "offset", header.fragment_offset.value(), 28);
            assert!(rt; header.more_fragments && exts.is_fragmenting_payload());
            assert_same(&rt, "identification", header.identification, 0x0102_0304);
        }
        None => assert!(rt; false, "there is no fragment header"),
    }
    let mut out = Vec::new(rt.alloc());
    exts.write(&mut out, IpNumber(44))?;
    assert_bytes(&rt, "bytes", &out, &[17, 0, 0, 0xe1, 1, 2, 3, 4]);
    Ok(())
}

/// Returns three bytes in a vector with room for `room`, or for three if that is more.
fn with_room(alloc: Global, room: usize) -> Result<Vec<u8>, AllocError> {
    let mut out = Vec::with_capacity(alloc, room)?;
    out.extend_from_slice(&[1, 2, 3])?;
    Ok(out)
}

#[test]
fn a_vector_grows_no_further_than_the_headers_need(rt: HostRuntime) -> Result<(), Fail> {
    let mut one = Ipv6Extensions::default();
    one.fragment = Some(fragment(0)?);
    for mut exts in [Ipv6Extensions::default(), one, all_six()?] {
        let first = exts.set_next_headers(IpNumber(17));
        for room in [0usize, 3, 11, 30, 55, 100] {
            let mut written = with_room(rt.alloc(), room)?;
            exts.write(&mut written, first)?;
            let mut reserved = with_room(rt.alloc(), room)?;
            reserved.reserve(exts.header_len())?;
            assert_same(&rt, room, written.capacity(), reserved.capacity());
        }
    }
    Ok(())
}

/// Appends bytes that count up from 100, and again from 100 after 156 of them.
fn push_counting(out: &mut Vec<u8>, count: usize) -> Result<(), AllocError> {
    for i in 0..count {
        out.push(100 + (i % 156) as u8)?;
    }
    Ok(())
}

/// Appends a header in the uniform format (RFC 6564) with this number of units of 8 bytes after the first.
fn push_raw(out: &mut Vec<u8>, next: u8, units: u8) -> Result<(), AllocError> {
    out.extend_from_slice(&[next, units])?;
    push_counting(out, 8 * usize::from(units) + 6)
}

/// Returns a chain that occupies all six places, with this many units of 8 bytes after the first in each raw header,
/// and this many words of 4 bytes of check value.
fn chain_of_six(alloc: Global, units: u8, words: u8) -> Result<Vec<u8>, AllocError> {
    let mut out = Vec::new(alloc);
    push_raw(&mut out, 60, units)?;
    push_raw(&mut out, 43, units)?;
    push_raw(&mut out, 44, units)?;
    out.extend_from_slice(&[51, 0, 0, 9, 1, 2, 3, 4])?;
    out.extend_from_slice(&[60, words.wrapping_add(1), 0, 0])?;
    push_counting(&mut out, 4 * usize::from(words) + 8)?;
    push_raw(&mut out, 17, units)?;
    Ok(out)
}

/// Returns the payload of a header, and no bytes without one.
fn payload_of(header: Option<&Ipv6RawExtHeader>) -> &[u8] {
    match header {
        Some(header) => header.payload(),
        None => &[],
    }
}

/// Checks that the raw headers have this payload, and the authentication header has this check value.
fn check_payloads(rt: &impl Abort, row: u8, exts: &Ipv6Extensions, payload: &[u8], icv: &[u8]) {
    let first = exts.hop_by_hop_options.as_ref();
    assert_bytes(rt, (row, "hop-by-hop options"), payload_of(first), payload);
    let before = exts.destination_options.as_ref();
    assert_bytes(
        rt,
        (row, "destination options"),
        payload_of(before),
        payload,
    );
    if let Some(routing) = &exts.routing {
        assert_bytes(rt, (row, "routing"), routing.routing.payload(), payload);
        let after = routing.final_destination_options.as_ref();
        assert_bytes(rt, (row, "final options"), payload_of(after), payload);
    }
    if let Some(auth) = &exts.auth {
        assert_bytes(rt, (row, "check value"), auth.raw_icv(), icv);
    }
    assert_that(rt, row, exts.routing.is_some() && exts.auth.is_some());
}

/// Payloads of 6 to 70 bytes and check values of 0 to 68. Those of 16 to 63 bytes are copied in blocks of 16.
#[test]
fn each_byte_of_a_payload_comes_back(rt: HostRuntime) -> Result<(), Fail> {
    let mut counting = Vec::new(rt.alloc());
    push_counting(&mut counting, 80)?;
    for words in 0..=17u8 {
        let units = words / 2;
        let bytes = chain_of_six(rt.alloc(), units, words)?;
        let (exts, number, rest, fault) = Ipv6Extensions::from_slice_lax(IpNumber(0), &bytes);
        assert_that(
            &rt,
            words,
            number == IpNumber(17) && rest.is_empty() && fault.is_none(),
        );
        let payload = counting.get(..8 * usize::from(units) + 6).unwrap_or(&[]);
        // The check value follows 8 counted bytes.
        let icv = counting.get(8..8 + 4 * usize::from(words)).unwrap_or(&[]);
        check_payloads(&rt, words, &exts, payload, icv);
        let mut written = Vec::new(rt.alloc());
        exts.write(&mut written, IpNumber(0))?;
        assert_bytes(&rt, words, &written, &bytes);
    }
    Ok(())
}
