//! Packets at several places in one buffer: what they count, which of them a filter matches, and where their payloads
//! are. The values are worked out by hand.
use crate::checks::{assert_same, assert_that};
use crate::samples::{ipv4_bytes, ipv6_bytes};
use ip_batches::{Batch, PacketSpan};
use ip_filter::Filter;
use ip_spans::{DissectionParts, FaultFields};
use ip_statistics::Statistics;
use std::alloc::{AllocError, Global};
use std::process::Abort;
use std::test::Fail;

/// The length of the buffer: UDP over IPv4, and TCP after destination options over IPv6.
const BUFFER_LEN: usize = 28 + 56;

/// Returns the buffer.
fn buffer(alloc: Global) -> Result<Vec<u8>, AllocError> {
    let mut buffer = ipv4_bytes(alloc, 0x45, 28, [0, 0], 17, &[0; 8])?;
    let after = [6, 0, 1, 4, 0, 0, 0, 0, 1, 2, 3, 4, 5, 6, 7, 8];
    let second = ipv6_bytes(alloc, 16, 60, &after)?;
    buffer.extend_from_slice(second.as_slice())?;
    Ok(buffer)
}

/// Returns a span.
fn span(offset: usize, len: usize) -> PacketSpan {
    PacketSpan { offset, len }
}

/// Returns the second packet, the first one, no bytes, the second one truncated in its options, and all bytes.
fn spans() -> [PacketSpan; 5] {
    [
        span(28, 56),
        span(0, 28),
        span(BUFFER_LEN, 0),
        span(28, 44),
        span(0, BUFFER_LEN),
    ]
}

/// Returns parts that no call stores.
fn no_parts() -> DissectionParts {
    DissectionParts {
        base_len: 7,
        stated_len: 7,
        headers: 7,
        payload_offset: 7,
        payload_len: 7,
        missing: 7,
        padding: 7,
        fault: FaultFields {
            required_len: 7,
            len: 7,
            offset: 7,
            kind: 7,
            header: 7,
            layer: 7,
            len_source: 7,
            value: 7,
        },
        identification: 7,
        fragment_offset: 7,
        version: 7,
        payload_number: 7,
        fragment: 7,
        end: 7,
    }
}

#[test]
fn counts(rt: HostRuntime) -> Result<(), Fail> {
    let (buffer, spans) = (buffer(rt.alloc())?, spans());
    let mut statistics = Statistics::new();
    statistics.ipv6 = u64::MAX - 1;
    let batch = Batch::try_new(buffer.as_slice(), &spans);
    assert_that(&rt, "within", batch.is_ok());
    if let Ok(batch) = batch {
        batch.count(&mut statistics);
    }
    let versions = (statistics.packets, statistics.ipv4, statistics.ipv6);
    assert_same(&rt, "versions", versions, (5, 2, u64::MAX));
    let ends = (statistics.at_payload, statistics.at_truncated_header);
    assert_same(&rt, "ends", ends, (3, 2));
    let numbers = (statistics.payload_numbers[6], statistics.headers[60]);
    assert_same(&rt, "numbers", numbers, (1, 1));
    Ok(())
}

#[test]
fn matches(rt: HostRuntime) -> Result<(), Fail> {
    let (buffer, spans) = (buffer(rt.alloc())?, spans());
    let mut matches = [7; 6];
    let filter = Filter::parse(b"udp or header dstopts");
    let batch = Batch::try_new(buffer.as_slice(), &spans);
    assert_that(&rt, "a filter", filter.is_ok() && batch.is_ok());
    if let (Ok(filter), Ok(batch)) = (filter, batch) {
        batch.filter(&filter, &mut matches);
    }
    assert_same(&rt, "matches", matches, [1, 1, 0, 0, 1, 7]);
    Ok(())
}

#[test]
fn dissections(rt: HostRuntime) -> Result<(), Fail> {
    let (buffer, spans) = (buffer(rt.alloc())?, spans());
    let mut parts = [no_parts(); 3];
    if let Ok(batch) = Batch::try_new(buffer.as_slice(), &spans[..2]) {
        batch.dissect(&mut parts);
    }
    let second = (parts[0].version, parts[0].headers, parts[0].payload_offset);
    assert_same(&rt, "second", second, (6, 1, 48));
    let first = (parts[1].version, parts[1].payload_offset, parts[1].padding);
    assert_same(&rt, "first", first, (4, 20, 0));
    assert_same(&rt, "unchanged", parts[2], no_parts());
    Ok(())
}

#[test]
fn spans_outside(rt: HostRuntime) -> Result<(), Fail> {
    let buffer = buffer(rt.alloc())?;
    let rows = [
        span(0, BUFFER_LEN + 1),
        span(BUFFER_LEN, 1),
        span(BUFFER_LEN + 1, 0),
        span(usize::MAX, 1),
        span(1, usize::MAX),
        span(usize::MAX, usize::MAX),
    ];
    for wrong in rows {
        let mut spans = spans();
        spans[2] = wrong;
        spans[4] = wrong;
        let batch = Batch::try_new(buffer.as_slice(), &spans);
        assert_same(&rt, wrong, batch.err(), Some(2));
    }
    Ok(())
}
