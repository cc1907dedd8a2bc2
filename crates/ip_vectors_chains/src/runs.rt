//! The runs of a chain: structs of six places, one after the other.
use crate::chains::check_end;
use crate::checks::{assert_same, assert_that};
use check_reference::{PlainHeader, fitting_len, plain_longest_chain};
use ip_base::err::{Layer, LenError};
use ip_base::{IpNumber, LenSource};
use ip_ext_chains::err::ipv6_exts::{HeaderError, HeaderSliceError};
use ip_ext_chains::{Ipv6Extensions, Ipv6ExtensionsRuns};
use std::alloc::Global;
use std::process::Abort;
use std::test::Fail;

/// The occupied places: hop by hop, destination, routing, fragment, authentication, final destination.
type Filled = [bool; 6];

const NONE: Filled = [false, false, false, false, false, false];

const HOP_BY_HOP: Filled = [true, false, false, false, false, false];

const DESTINATION: Filled = [false, true, false, false, false, false];

const FRAGMENT: Filled = [false, false, false, true, false, false];

const ROUTING_AND_FINAL: Filled = [false, false, true, false, false, true];

/// Start number and bytes; the items; the next number, the rest and the error at the end.
#[derive(Drop)]
struct Row<'a> {
    name: &'a str,
    start: u8,
    bytes: &'a [u8],
    items: &'a [Filled],
    number: u8,
    rest: &'a [u8],
    fault: Option<(HeaderSliceError, Layer)>,
}

fn filled(exts: &Ipv6Extensions) -> Filled {
    let last = match &exts.routing {
        Some(routing) => routing.final_destination_options.is_some(),
        None => false,
    };
    [
        exts.hop_by_hop_options.is_some(),
        exts.destination_options.is_some(),
        exts.routing.is_some(),
        exts.fragment.is_some(),
        exts.auth.is_some(),
        last,
    ]
}

/// Returns the error of a missing fragment header at the offset, with this many bytes left.
fn no_fragment_header(len: usize, offset: usize) -> Option<(HeaderSliceError, Layer)> {
    let error = LenError {
        required_len: 8,
        len,
        len_source: LenSource::Slice,
        layer: Layer::Ipv6FragHeader,
        layer_start_offset: offset,
    };
    Some((HeaderSliceError::Len(error), Layer::Ipv6FragHeader))
}

/// Returns the error of hop-by-hop options after a header.
fn later_hop_by_hop() -> Option<(HeaderSliceError, Layer)> {
    Some((
        HeaderSliceError::Content(HeaderError::HopByHopNotAtStart),
        Layer::Ipv6HopByHopHeader,
    ))
}

/// Checks the row with the runs and the slow plain program.
fn check(rt: &impl Abort, alloc: Global, row: &Row<'_>) -> Result<(), Fail> {
    check_plain(rt, alloc, row)?;
    check_runs(rt, row)
}

/// Checks that the items and the end are the row's; the end is known from the last item on, and nothing follows it.
fn check_runs(rt: &impl Abort, row: &Row<'_>) -> Result<(), Fail> {
    let name = row.name;
    let mut runs = Ipv6ExtensionsRuns::new(IpNumber(row.start), row.bytes);
    for expected in row.items {
        assert_that(rt, name, runs.end().is_none());
        let run = runs.next();
        assert_same(rt, name, run.as_ref().map(filled), Some(*expected));
    }
    for _ in 0..3 {
        check_end(rt, name, runs.end(), (row.number, row.rest, &row.fault));
        assert_that(rt, name, runs.next().is_none());
    }
    Ok(())
}

/// Checks that the slow plain program splits the chain into as many pieces. If an extension header's number follows
/// the chain and its place is occupied, it counts as a header that doesn't fit; except for 0, which is an error
/// there.
fn check_plain(rt: &impl Abort, alloc: Global, row: &Row<'_>) -> Result<(), Fail> {
    let plain = plain_longest_chain(alloc, row.start, row.bytes)?;
    let mut headers = plain.headers;
    if matches!(plain.number, 43 | 44 | 51 | 60) {
        headers.push(PlainHeader {
            number: plain.number,
            bytes: &[],
        })?;
    }
    let mut left = headers.as_slice();
    let mut pieces: usize = 1;
    for _ in 0..headers.len() {
        let fitting = fitting_len(left);
        if fitting < left.len() {
            left = left.get(fitting..).unwrap_or(&[]);
            pieces = pieces.saturating_add(1);
        }
    }
    let name = row.name;
    assert_same(rt, name, pieces, row.items.len());
    assert_same(rt, name, (plain.number, plain.rest), (row.number, row.rest));
    Ok(())
}

#[test]
fn runs_of_one_place(rt: HostRuntime) -> Result<(), Fail> {
    let three = Row {
        name: "three fragment headers",
        start: 44,
        bytes: &[
            44, 0, 0, 0, 0, 0, 0, 0, 44, 0, 0, 0, 0, 0, 0, 0, 17, 0, 0, 0, 0, 0, 0, 0,
        ],
        items: &[FRAGMENT, FRAGMENT, FRAGMENT],
        number: 17,
        rest: &[],
        fault: None,
    };
    check(&rt, rt.alloc(), &three)?;
    let hop_by_hop = Row {
        name: "hop by hop options after two fragment headers",
        start: 44,
        bytes: &[
            44, 0, 0, 0, 0, 0, 0, 0, 0, 0, 0, 0, 0, 0, 0, 0, 17, 0, 0, 0, 0, 0, 0, 0,
        ],
        items: &[FRAGMENT, FRAGMENT],
        number: 0,
        rest: &[17, 0, 0, 0, 0, 0, 0, 0],
        fault: later_hop_by_hop(),
    };
    check(&rt, rt.alloc(), &hop_by_hop)
}

#[test]
fn runs_that_end_at_a_missing_header(rt: HostRuntime) -> Result<(), Fail> {
    let truncated = Row {
        name: "a second fragment header is truncated",
        start: 44,
        bytes: &[44, 0, 0, 0, 0, 0, 0, 1, 17, 0, 0],
        items: &[FRAGMENT, NONE],
        number: 44,
        rest: &[17, 0, 0],
        fault: no_fragment_header(3, 8),
    };
    check(&rt, rt.alloc(), &truncated)?;
    let ends = Row {
        name: "a second fragment header is named, and no bytes are left",
        start: 44,
        bytes: &[44, 0, 0, 0, 0, 0, 0, 0],
        items: &[FRAGMENT, NONE],
        number: 44,
        rest: &[],
        fault: no_fragment_header(0, 8),
    };
    check(&rt, rt.alloc(), &ends)
}

#[test]
fn runs_of_many_places(rt: HostRuntime) -> Result<(), Fail> {
    let routed = Row {
        name: "destination options twice after a routing header",
        start: 43,
        bytes: &[
            60, 0, 0, 0, 0, 0, 0, 0, 60, 0, 0, 0, 0, 0, 0, 0, 17, 0, 0, 0, 0, 0, 0, 0,
        ],
        items: &[ROUTING_AND_FINAL, DESTINATION],
        number: 17,
        rest: &[],
        fault: None,
    };
    check(&rt, rt.alloc(), &routed)?;
    let one = Row {
        name: "destination options on both sides of a routing header",
        start: 60,
        bytes: &[
            43, 0, 0, 0, 0, 0, 0, 0, 60, 0, 0, 0, 0, 0, 0, 0, 17, 0, 0, 0, 0, 0, 0, 0,
        ],
        items: &[[false, true, true, false, false, true]],
        number: 17,
        rest: &[],
        fault: None,
    };
    check(&rt, rt.alloc(), &one)
}

#[test]
fn one_run(rt: HostRuntime) -> Result<(), Fail> {
    let nothing = Row {
        name: "UDP goes on",
        start: 17,
        bytes: &[0, 1, 2, 3],
        items: &[NONE],
        number: 17,
        rest: &[0, 1, 2, 3],
        fault: None,
    };
    check(&rt, rt.alloc(), &nothing)?;
    let hop_by_hop = Row {
        name: "hop by hop options after hop by hop options",
        start: 0,
        bytes: &[0, 0, 0, 0, 0, 0, 0, 0],
        items: &[HOP_BY_HOP],
        number: 0,
        rest: &[],
        fault: later_hop_by_hop(),
    };
    check(&rt, rt.alloc(), &hop_by_hop)
}

/// Checks the numbers before each run, and the one after the last.
#[test]
fn numbers_before_runs(rt: HostRuntime) -> Result<(), Fail> {
    let rows: [(&str, u8, &[u8], &[u8]); 4] = [
        ("UDP goes on", 17, &[1, 2, 3], &[17, 17]),
        (
            "a third fragment header is truncated",
            44,
            &[44, 0, 0, 0, 0, 0, 0, 1, 44, 0, 0, 0, 0, 0, 0, 2, 17, 0],
            &[44, 44, 44, 44],
        ),
        (
            "destination options and a fragment header, twice",
            60,
            &[
                44, 0, 0, 0, 0, 0, 0, 0, 60, 0, 0, 0, 0, 0, 0, 0, 44, 0, 0, 0, 0, 0, 0, 0, 6, 0, 0,
                0, 0, 0, 0, 0,
            ],
            &[60, 60, 6],
        ),
        (
            "routing between two fragment headers",
            44,
            &[
                43, 0, 0, 0, 0, 0, 0, 0, 44, 0, 0, 0, 0, 0, 0, 0, 17, 0, 0, 0, 0, 0, 0, 0,
            ],
            &[44, 44, 17],
        ),
    ];
    for (name, start, bytes, numbers) in rows {
        let mut runs = Ipv6ExtensionsRuns::new(IpNumber(start), bytes);
        for number in numbers {
            assert_same(&rt, name, runs.next_number().0, *number);
            let _run = runs.next();
        }
        assert_that(&rt, name, runs.end().is_some());
    }
    Ok(())
}

#[test]
fn a_run_for_each_of_4096_headers(rt: HostRuntime) -> Result<(), Fail> {
    let mut bytes = Vec::new(rt.alloc());
    for header in 0..4096u32 {
        let next = if header == 4095 { 17 } else { 44 };
        bytes.extend_from_slice(&[next, 0, 0, 0, 0, 0, 0, 0])?;
    }
    let mut runs = Ipv6ExtensionsRuns::new(IpNumber(44), bytes.as_slice());
    let mut count = 0u32;
    while let Some(exts) = runs.next() {
        assert_same(&rt, count, filled(&exts), FRAGMENT);
        count = count.saturating_add(1);
    }
    assert_same(&rt, "runs", count, 4096);
    check_end(&rt, "end", runs.end(), (17, &[], &None));
    for _ in 0..3 {
        assert!(&rt; runs.next().is_none());
    }
    Ok(())
}
