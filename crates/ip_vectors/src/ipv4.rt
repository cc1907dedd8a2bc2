//! IPv4 extension headers.
use crate::checks::{assert_bytes, assert_same, assert_that};
use check_reference::{next_len, plain_fault};
use ip_base::err::{Layer, LenError};
use ip_base::{IpNumber, LenSource};
use ip_ext_chains::err::ip_auth::{HeaderError, HeaderSliceError};
use ip_ext_chains::err::ipv4_exts::ExtsWalkError;
use ip_ext_chains::err::ipv6_exts;
use ip_ext_chains::{Ipv4Extensions, Ipv4ExtensionsSlice};
use ip_ext_headers::IpAuthHeader;
use std::process::Abort;
use std::test::Fail;

/// Start number and bytes; the length of the header; the next number, the number of bytes left, and the error.
#[derive(Drop)]
struct Row<'a> {
    name: &'a str,
    start: u8,
    bytes: &'a [u8],
    header: Option<usize>,
    number: u8,
    rest: usize,
    fault: Option<HeaderSliceError>,
}

/// Checks the row with the slow plain program: only number 51 can have a header or an error.
fn check_plain(rt: &impl Abort, row: &Row<'_>) {
    let (mut header, mut fault) = (None, None);
    if row.start == 51 {
        header = next_len(true, 51, row.bytes);
        fault = plain_fault(true, 51, row.bytes, 0);
    }
    let number = match header {
        Some(_) => row.bytes.first().copied(),
        None => Some(row.start),
    };
    let fault = match fault {
        Some((ipv6_exts::HeaderSliceError::Len(e), _)) => Some(HeaderSliceError::Len(e)),
        Some((ipv6_exts::HeaderSliceError::Content(ipv6_exts::HeaderError::IpAuth(e)), _)) => {
            Some(HeaderSliceError::Content(e))
        }
        _ => None,
    };
    let name = row.name;
    assert_same(rt, name, (header, number), (row.header, Some(row.number)));
    assert_same(rt, name, &fault, &row.fault);
}

/// Checks the row with all forms of the parse.
fn check(rt: &impl Abort, row: &Row<'_>) -> Result<(), Fail> {
    let name = row.name;
    check_plain(rt, row);
    let start = IpNumber(row.start);
    let consumed = row.bytes.len().saturating_sub(row.rest);
    let answer = (IpNumber(row.number), &row.bytes[consumed..]);
    let (slices, number, rest, fault) = Ipv4ExtensionsSlice::from_slice_lax(start, row.bytes);
    let len = slices.auth.map(|header| header.slice().len());
    assert_same(rt, name, len, row.header);
    assert_same(rt, name, (number, rest), answer);
    assert_same(rt, name, &fault, &row.fault);
    assert_same(rt, name, slices.is_empty(), row.header.is_none());
    let (headers, number, rest, fault) = Ipv4Extensions::from_slice_lax(start, row.bytes);
    assert_that(rt, name, headers == slices.to_header());
    assert_same(rt, name, (number, rest), answer);
    assert_same(rt, name, &fault, &row.fault);
    match (
        Ipv4ExtensionsSlice::from_slice(start, row.bytes),
        Ipv4Extensions::from_slice(start, row.bytes),
        &row.fault,
    ) {
        (Ok(strict), Ok(owned), None) => {
            assert_that(rt, name, strict.0 == slices && owned.0 == headers);
            assert_same(rt, name, (strict.1, strict.2), answer);
            assert_same(rt, name, (owned.1, owned.2), answer);
        }
        (Err(a), Err(b), Some(expected)) => assert_that(rt, name, a == *expected && b == *expected),
        _ => assert_that(rt, name, false),
    }
    Ok(())
}

/// Bytes, and the results of the parses.
const ROWS: [Row<'static>; 6] = [
    Row {
        name: "no extension number",
        start: 17,
        bytes: &[0, 1, 2, 3],
        header: None,
        number: 17,
        rest: 4,
        fault: None,
    },
    Row {
        name: "no bytes",
        start: 51,
        bytes: &[],
        header: None,
        number: 51,
        rest: 0,
        fault: Some(HeaderSliceError::Len(LenError {
            required_len: 12,
            len: 0,
            len_source: LenSource::Slice,
            layer: Layer::IpAuthHeader,
            layer_start_offset: 0,
        })),
    },
    Row {
        name: "a header",
        start: 51,
        bytes: &[17, 1, 0, 0, 0, 0, 0, 0, 0, 0, 0, 0],
        header: Some(12),
        number: 17,
        rest: 0,
        fault: None,
    },
    Row {
        name: "a header, and its number again",
        start: 51,
        bytes: &[51, 1, 0, 0, 0, 0, 0, 0, 0, 0, 0, 0, 17, 1],
        header: Some(12),
        number: 51,
        rest: 2,
        fault: None,
    },
    Row {
        name: "a header of length 0",
        start: 51,
        bytes: &[17, 0, 0, 0, 0, 0, 0, 0, 0, 0, 0, 0],
        header: None,
        number: 51,
        rest: 12,
        fault: Some(HeaderSliceError::Content(HeaderError::ZeroPayloadLen)),
    },
    Row {
        name: "a fragment header is none here",
        start: 44,
        bytes: &[17, 0, 0, 0, 0, 0, 0, 0],
        header: None,
        number: 44,
        rest: 8,
        fault: None,
    },
];

#[test]
fn parses(rt: HostRuntime) -> Result<(), Fail> {
    for row in ROWS {
        check(&rt, &row)?;
    }
    Ok(())
}

#[test]
fn a_header_that_was_made_is_parsed(rt: HostRuntime) -> Result<(), Fail> {
    let made = IpAuthHeader::new(IpNumber(17), 0, 0, &[])?;
    let (headers, _, _, _) = Ipv4Extensions::from_slice_lax(IpNumber(51), &made.to_bytes());
    assert!(rt; headers.auth == Some(made));
    Ok(())
}

#[test]
fn linked_and_written(rt: HostRuntime) -> Result<(), Fail> {
    let mut headers = Ipv4Extensions {
        auth: Some(IpAuthHeader::new(IpNumber(17), 1, 2, &[9, 8, 7, 6])?),
    };
    assert_same(&rt, "length", headers.header_len(), 16);
    let missing = ExtsWalkError::ExtNotReferenced {
        missing_ext: IpNumber(51),
    };
    let refused = headers.next_header(IpNumber(17)).err();
    assert_same(&rt, "another number", refused.as_ref(), Some(&missing));
    let mut out = Vec::new(rt.alloc());
    match headers.write(&mut out, IpNumber(17)) {
        Err(e) => assert!(rt; e.io().is_none() && e.content() == Some(&missing)),
        Ok(()) => assert!(rt; false, "another number names the header"),
    }
    assert!(rt; out.is_empty());
    assert_same(&rt, "linked", headers.set_next_headers(IpNumber(6)).0, 51);
    assert_same(&rt, "end", headers.next_header(IpNumber(51))?.0, 6);
    assert!(rt; headers.write(&mut out, IpNumber(51)).is_ok());
    let expected = [6, 2, 0, 0, 0, 0, 0, 1, 0, 0, 0, 2, 9, 8, 7, 6];
    assert_bytes(&rt, "written", &out, &expected);
    let copy = headers.clone()?;
    assert!(rt; copy == headers && !copy.is_empty());

    let mut none = Ipv4Extensions::default();
    assert!(rt; none.is_empty() && none.clone()? == none && none != copy);
    assert_same(&rt, "length of none", none.header_len(), 0);
    assert_same(&rt, "none linked", none.set_next_headers(IpNumber(6)).0, 6);
    assert_same(&rt, "end of none", none.next_header(IpNumber(51))?.0, 51);
    assert!(rt; none.write(&mut out, IpNumber(17)).is_ok());
    assert_same(&rt, "bytes written", out.len(), 16);
    assert!(rt; Ipv4ExtensionsSlice::default().to_header() == none);
    Ok(())
}

#[test]
fn a_vector_grows_no_further_than_the_header_needs(rt: HostRuntime) -> Result<(), Fail> {
    let one = Ipv4Extensions {
        auth: Some(IpAuthHeader::new(IpNumber(17), 1, 2, &[7; 4])?),
    };
    for headers in [Ipv4Extensions::default(), one] {
        for room in [0usize, 15, 16, 40] {
            let mut written = Vec::with_capacity(rt.alloc(), room)?;
            assert_that(&rt, room, headers.write(&mut written, IpNumber(51)).is_ok());
            let mut reserved: Vec<u8> = Vec::with_capacity(rt.alloc(), room)?;
            reserved.reserve(headers.header_len())?;
            assert_same(&rt, room, written.capacity(), reserved.capacity());
        }
    }
    Ok(())
}
