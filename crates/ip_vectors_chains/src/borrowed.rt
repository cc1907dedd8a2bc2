//! Borrowed chains: the headers that fit six places, and copies of a chain with its reserved bits zero.
use crate::chains::check_end;
use crate::checks::{assert_bytes, assert_same, assert_that};
use check_reference::{PlainHeader, fitting_len, plain_longest_chain};
use ip_base::IpNumber;
use ip_base::err::Layer;
use ip_ext_chains::err::ipv6_exts::{HeaderError, HeaderSliceError};
use ip_ext_chains::{
    Ipv6Extensions, Ipv6ExtensionsRuns, Ipv6ExtensionsSlice, clear_chain, fitting_headers,
};
use std::alloc::{AllocError, Global};
use std::process::Abort;
use std::test::Fail;

/// Start number and bytes; the length of the headers that fit six places, the number that follows them, and the error
/// there; the number of runs; and the bytes of all headers as they are written.
#[derive(Drop)]
struct Row<'a> {
    name: &'a str,
    start: u8,
    bytes: &'a [u8],
    fitting: usize,
    number: u8,
    fault: Option<(HeaderSliceError, Layer)>,
    runs: usize,
    written: &'a [u8],
}

/// Checks the row with the plain program, the borrowed headers and the runs.
fn check(rt: &impl Abort, alloc: Global, row: &Row<'_>) -> Result<(), Fail> {
    check_plain(rt, alloc, row)?;
    check_fitting(rt, row);
    check_cleared(rt, alloc, row)?;
    check_runs(rt, row);
    check_cleared_runs(rt, alloc, row)
}

/// Checks the headers that fit six places, and what follows them.
fn check_fitting(rt: &impl Abort, row: &Row<'_>) {
    let name = row.name;
    let (headers, number, rest, fault) = fitting_headers(IpNumber(row.start), row.bytes);
    let (fitting, left) = row.bytes.split_at(row.fitting.min(row.bytes.len()));
    assert_bytes(rt, name, headers.slice(), fitting);
    let first = if fitting.is_empty() {
        None
    } else {
        Some(IpNumber(row.start))
    };
    assert_same(rt, name, headers.first_header(), first);
    check_end(
        rt,
        name,
        Some((number, rest, fault)),
        (row.number, left, &row.fault),
    );
}

/// Appends the headers of the chain with their reserved bits zero.
fn push_cleared(headers: &Ipv6ExtensionsSlice<'_>, out: &mut Vec<u8>) -> Result<(), AllocError> {
    let start = out.len();
    out.extend_from_slice(headers.slice())?;
    clear_chain(headers, &mut out.as_mut_slice()[start..]);
    Ok(())
}

/// Checks the cleared bytes of the headers that fit and of all headers, after three other bytes.
fn check_cleared(rt: &impl Abort, alloc: Global, row: &Row<'_>) -> Result<(), Fail> {
    let start = IpNumber(row.start);
    let (all, _, _, _) = Ipv6ExtensionsSlice::from_slice_lax(start, row.bytes);
    let (fitting, _, _, _) = fitting_headers(start, row.bytes);
    let mut out = Vec::from_slice(alloc, &[1, 2, 3])?;
    push_cleared(&all, &mut out)?;
    push_cleared(&fitting, &mut out)?;
    let mut expected = Vec::from_slice(alloc, &[1, 2, 3])?;
    expected.extend_from_slice(row.written)?;
    expected.extend_from_slice(row.written.get(..row.fitting).unwrap_or(&[]))?;
    assert_bytes(rt, row.name, &out, &expected);
    Ok(())
}

/// Checks how many runs are passed over, and that the end is known from the last one on.
fn check_runs(rt: &impl Abort, row: &Row<'_>) {
    let mut runs = Ipv6ExtensionsRuns::new(IpNumber(row.start), row.bytes);
    for _ in 0..row.runs {
        assert_that(rt, row.name, runs.end().is_none());
        assert_that(rt, row.name, runs.skip_run());
    }
    for _ in 0..3 {
        assert_that(rt, row.name, runs.end().is_some());
        assert_that(rt, row.name, !runs.skip_run());
    }
}

/// Checks the number of runs of the parsed headers, and the copy in which they are cleared.
fn check_cleared_runs(rt: &impl Abort, alloc: Global, row: &Row<'_>) -> Result<(), Fail> {
    let (all, number, _, _) = Ipv6ExtensionsSlice::from_slice_lax(IpNumber(row.start), row.bytes);
    let mut copy = Vec::from_slice(alloc, all.slice())?;
    let runs = Ipv6ExtensionsRuns::from_headers(all, number);
    assert_same(rt, row.name, runs.clear_runs(copy.as_mut_slice()), row.runs);
    assert_bytes(rt, row.name, &copy, row.written);
    Ok(())
}

/// Appends the header with its reserved bits zero (RFC 8200, section 4.5; RFC 4302, section 2.3).
fn push_plain(header: &PlainHeader<'_>, out: &mut Vec<u8>) -> Result<(), AllocError> {
    let mut at = 0usize;
    for byte in header.bytes {
        let kept = match (header.number, at) {
            (44, 1) | (51, 2 | 3) => 0,
            (44, 3) => *byte & 0b1111_1001,
            _ => 255,
        };
        out.push(*byte & kept)?;
        at = at.saturating_add(1);
    }
    Ok(())
}

/// Checks the row's bytes with the slow plain program.
fn check_plain(rt: &impl Abort, alloc: Global, row: &Row<'_>) -> Result<(), Fail> {
    let plain = plain_longest_chain(alloc, row.start, row.bytes)?;
    let mut written = Vec::new(alloc);
    for header in &plain.headers {
        push_plain(header, &mut written)?;
    }
    assert_bytes(rt, row.name, &written, row.written);
    let count = fitting_len(plain.headers.as_slice());
    let mut fitting = 0usize;
    for header in plain.headers.iter().take(count) {
        fitting = fitting.saturating_add(header.bytes.len());
    }
    assert_same(rt, row.name, fitting, row.fitting);
    Ok(())
}

/// Returns the error of hop-by-hop options after a header.
fn later_hop_by_hop() -> Option<(HeaderSliceError, Layer)> {
    Some((
        HeaderSliceError::Content(HeaderError::HopByHopNotAtStart),
        Layer::Ipv6HopByHopHeader,
    ))
}

#[test]
fn reserved_bits(rt: HostRuntime) -> Result<(), Fail> {
    let fragment = Row {
        name: "reserved bits of a fragment header",
        start: 44,
        bytes: &[17, 0xff, 0, 0xe7, 1, 2, 3, 4, 5],
        fitting: 8,
        number: 17,
        fault: None,
        runs: 1,
        written: &[17, 0, 0, 0xe1, 1, 2, 3, 4],
    };
    check(&rt, rt.alloc(), &fragment)?;
    let auth = Row {
        name: "reserved bits of authentication headers, and none of options",
        start: 60,
        bytes: &[
            51, 0, 255, 255, 255, 255, 255, 255, 51, 1, 255, 255, 0, 0, 0, 1, 0, 0, 0, 2, 6, 2,
            255, 255, 0, 0, 0, 3, 0, 0, 0, 4, 9, 8, 7, 6,
        ],
        fitting: 20,
        number: 51,
        fault: None,
        runs: 2,
        written: &[
            51, 0, 255, 255, 255, 255, 255, 255, 51, 1, 0, 0, 0, 0, 0, 1, 0, 0, 0, 2, 6, 2, 0, 0,
            0, 0, 0, 3, 0, 0, 0, 4, 9, 8, 7, 6,
        ],
    };
    check(&rt, rt.alloc(), &auth)
}

#[test]
fn headers_that_fit(rt: HostRuntime) -> Result<(), Fail> {
    let none = Row {
        name: "UDP goes on",
        start: 17,
        bytes: &[0, 1, 2, 3],
        fitting: 0,
        number: 17,
        fault: None,
        runs: 1,
        written: &[],
    };
    check(&rt, rt.alloc(), &none)?;
    let both_sides = Row {
        name: "options before routing and after it, and once more",
        start: 60,
        bytes: &[
            43, 0, 0, 0, 0, 0, 0, 0, 60, 0, 0, 0, 0, 0, 0, 0, 60, 0, 0, 0, 0, 0, 0, 0, 17, 0, 0, 0,
            0, 0, 0, 0,
        ],
        fitting: 24,
        number: 60,
        fault: None,
        runs: 2,
        written: &[
            43, 0, 0, 0, 0, 0, 0, 0, 60, 0, 0, 0, 0, 0, 0, 0, 60, 0, 0, 0, 0, 0, 0, 0, 17, 0, 0, 0,
            0, 0, 0, 0,
        ],
    };
    check(&rt, rt.alloc(), &both_sides)
}

#[test]
fn ends_of_headers_that_fit(rt: HostRuntime) -> Result<(), Fail> {
    let truncated = Row {
        name: "a second fragment header is truncated: its place is occupied",
        start: 44,
        bytes: &[44, 255, 0, 6, 0, 0, 0, 1, 17, 0, 0],
        fitting: 8,
        number: 44,
        fault: None,
        runs: 2,
        written: &[44, 0, 0, 0, 0, 0, 0, 1],
    };
    check(&rt, rt.alloc(), &truncated)?;
    let hop_by_hop = Row {
        name: "hop by hop options after a fragment header",
        start: 44,
        bytes: &[0, 255, 0, 255, 0, 0, 0, 0, 17, 0, 0, 0, 0, 0, 0, 0],
        fitting: 8,
        number: 0,
        fault: later_hop_by_hop(),
        runs: 1,
        written: &[0, 0, 0, 249, 0, 0, 0, 0],
    };
    check(&rt, rt.alloc(), &hop_by_hop)
}

/// The numbers of the headers of a chain in the tests below.
const NUMBERS: [u8; 5] = [0, 60, 43, 44, 51];

/// Returns the bytes of five headers, whose numbers the digits of `code` select, with all reserved bits set. The last
/// leads to UDP.
fn five_headers(alloc: Global, code: usize) -> Result<(u8, Vec<u8>), AllocError> {
    let mut bytes = Vec::new(alloc);
    let mut next = 17;
    let mut code = code;
    // From the last header to the first, each before the others.
    for _ in 0..5 {
        let number = NUMBERS[code % 5];
        code /= 5;
        let mut chain = Vec::new(alloc);
        if number == 51 {
            chain.extend_from_slice(&[next, 1, 255, 255, 1, 2, 3, 4, 5, 6, 7, 8])?;
        } else {
            let second = if number == 44 { 255 } else { 0 };
            chain.extend_from_slice(&[next, second, 0, 255, 1, 2, 3, 4])?;
        }
        chain.extend_from_slice(&bytes)?;
        bytes = chain;
        next = number;
    }
    Ok((next, bytes))
}

/// Checks that the headers that fit are those that the struct has, with the same end, and are cleared as it writes them.
fn check_struct(rt: &impl Abort, alloc: Global, start: u8, bytes: &[u8]) -> Result<(), Fail> {
    let start = IpNumber(start);
    let (headers, number, rest, fault) = fitting_headers(start, bytes);
    let (exts, next, left, expected) = Ipv6Extensions::from_slice_lax(start, bytes);
    check_end(
        rt,
        "end",
        Some((number, rest, fault)),
        (next.0, left, &expected),
    );
    let mut borrowed = Vec::new(alloc);
    push_cleared(&headers, &mut borrowed)?;
    let mut owned = Vec::new(alloc);
    exts.write(&mut owned, start)?;
    assert_bytes(rt, bytes, &borrowed, &owned);
    Ok(())
}

/// Checks that the longest chain is cleared as its runs write it, one after the other, and has as many as are passed
/// over.
fn check_all_runs(rt: &impl Abort, alloc: Global, start: u8, bytes: &[u8]) -> Result<(), Fail> {
    let start = IpNumber(start);
    let (headers, _, _, _) = Ipv6ExtensionsSlice::from_slice_lax(start, bytes);
    let mut borrowed = Vec::new(alloc);
    push_cleared(&headers, &mut borrowed)?;
    let mut owned = Vec::new(alloc);
    let mut runs = Ipv6ExtensionsRuns::new(start, bytes);
    let mut passed = Ipv6ExtensionsRuns::new(start, bytes);
    let mut next = start;
    while let Some(run) = runs.next() {
        run.write(&mut owned, next)?;
        assert_that(rt, bytes, passed.skip_run());
        next = runs.next_number();
        assert_same(rt, bytes, passed.next_number(), next);
    }
    assert_that(rt, bytes, !passed.skip_run());
    assert_bytes(rt, bytes, &borrowed, &owned);
    Ok(())
}

#[test]
fn chains_of_five_headers(rt: HostRuntime) -> Result<(), Fail> {
    for code in 0..3125usize {
        let (start, bytes) = five_headers(rt.alloc(), code)?;
        check_struct(&rt, rt.alloc(), start, &bytes)?;
        check_all_runs(&rt, rt.alloc(), start, &bytes)?;
    }
    Ok(())
}

#[test]
fn truncated_chains_of_five_headers(rt: HostRuntime) -> Result<(), Fail> {
    for code in 0..125usize {
        let (start, bytes) = five_headers(rt.alloc(), 25 * code)?;
        for kept in 0..bytes.len() {
            check_struct(&rt, rt.alloc(), start, &bytes[..kept])?;
            check_all_runs(&rt, rt.alloc(), start, &bytes[..kept])?;
        }
    }
    Ok(())
}
