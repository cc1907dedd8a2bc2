//! Statistics of single packets: the counts of each row are worked out by hand from RFC 791, RFC 4302 and RFC 8200, the
//! codes are those of `include/wolfaren.h`.
use crate::checks::assert_same;
use crate::samples::{ipv4_bytes, ipv6_bytes};
use ip_statistics::{CaptureStatistics, Statistics};
use std::process::Abort;
use std::test::Fail;

/// What one packet counts.
#[derive(Clone, Copy)]
struct Counted<'a> {
    /// The version; 0 without an IP header.
    version: u8,
    /// The code of the end, and of the kind of fragment.
    end: u8,
    fragment: u8,
    /// Whether bytes are missing.
    incomplete: bool,
    /// The indices of the chain's number of headers and of its length.
    chain: (usize, usize),
    /// The numbers of the extension headers.
    headers: &'a [u8],
    /// The payload's number and its length in bytes.
    payload: (u8, u64),
    /// The index of the truncated header or of the fault.
    error: usize,
}

/// An IPv4 packet with a UDP payload of 8 bytes, which the rows change.
const UDP: Counted<'static> = Counted {
    version: 4,
    end: 0,
    fragment: 0,
    incomplete: false,
    chain: (0, 0),
    headers: &[],
    payload: (17, 8),
    error: 0,
};

/// Counts one at the index.
fn count(counts: &mut [u64], index: usize) {
    if let Some(count) = counts.get_mut(index) {
        *count = count.saturating_add(1);
    }
}

/// Returns the statistics of one packet.
fn statistics_of(counted: &Counted<'_>) -> Statistics {
    let mut wanted = Statistics::new();
    wanted.packets = 1;
    wanted.incomplete = u64::from(counted.incomplete);
    put_version(&mut wanted, counted);
    put_fragment(&mut wanted, counted);
    put_end(&mut wanted, counted);
    for number in counted.headers {
        count(&mut wanted.headers, usize::from(*number));
    }
    wanted
}

/// Puts the counts of the version and of the chain.
fn put_version(wanted: &mut Statistics, counted: &Counted<'_>) {
    match counted.version {
        4 => wanted.ipv4 = 1,
        6 => wanted.ipv6 = 1,
        _ => wanted.without_header = 1,
    }
    if counted.version != 0 {
        count(&mut wanted.chain_headers, counted.chain.0);
        count(&mut wanted.chain_bytes, counted.chain.1);
    }
}

/// Puts the count of the fragment.
fn put_fragment(wanted: &mut Statistics, counted: &Counted<'_>) {
    match counted.fragment {
        1 => wanted.atomic_fragments = 1,
        2 => wanted.first_fragments = 1,
        3 => wanted.middle_fragments = 1,
        4 => wanted.last_fragments = 1,
        _ => {}
    }
}

/// Puts the counts of the end.
fn put_end(wanted: &mut Statistics, counted: &Counted<'_>) {
    let number = usize::from(counted.payload.0);
    match counted.end {
        0 => {
            wanted.at_payload = 1;
            wanted.payload_bytes = counted.payload.1;
            count(&mut wanted.payload_numbers, number);
        }
        1 => {
            wanted.at_later_fragment = 1;
            wanted.payload_bytes = counted.payload.1;
            count(&mut wanted.later_fragment_numbers, number);
        }
        2 => {
            wanted.at_truncated_header = 1;
            count(&mut wanted.truncated_headers, counted.error);
        }
        _ => {
            wanted.at_fault = 1;
            count(&mut wanted.faults, counted.error);
        }
    }
}

/// Counts the packet alone and compares the counts. Counts it in `all` in the same walk, and merges the counts into
/// `merged`.
fn check(
    rt: &impl Abort,
    name: &str,
    bytes: &[u8],
    counted: &Counted<'_>,
    all: &mut Statistics,
    merged: &mut Statistics,
) {
    let mut found = Statistics::new();
    found.count_and_visit(bytes, all);
    assert_same(rt, name, &found, &statistics_of(counted));
    merged.merge(&found);
}

/// An authentication header of 24 bytes before TCP, and 4 bytes.
const AUTHENTICATION: [u8; 28] = [
    6, 4, 0, 0, 0, 0, 0, 1, 0, 0, 0, 2, 1, 1, 1, 1, 1, 1, 1, 1, 1, 1, 1, 1, 9, 9, 9, 9,
];

/// An IPv4 packet: its name, total length, flags and fragment offset, protocol, the bytes after its base header, and
/// what it counts.
type Ipv4Row<'a> = (&'a str, u16, [u8; 2], u8, &'a [u8], Counted<'a>);

#[test]
fn ipv4_packets(rt: HostRuntime) -> Result<(), Fail> {
    let fragment = Counted { end: 1, ..UDP };
    let fault = Counted { end: 3, ..UDP };
    #[rattlefmt::skip]
    let rows: [Ipv4Row<'_>; 9] = [
        ("whole", 28, [0, 0], 17, &[0; 8], UDP),
        ("padding", 28, [0, 0], 17, &[0; 14], UDP),
        ("authentication", 48, [0, 0], 51, &AUTHENTICATION,
            Counted { chain: (1, 6), headers: &[51], payload: (6, 4), ..UDP }),
        ("first fragment", 28, [0x20, 0], 17, &[0; 8], Counted { fragment: 2, ..UDP }),
        ("middle fragment", 28, [0x20, 1], 17, &[0; 8], Counted { fragment: 3, ..fragment }),
        ("last fragment", 48, [0, 2], 51, &AUTHENTICATION,
            Counted { fragment: 4, payload: (51, 28), ..fragment }),
        ("truncated", 44, [0, 0], 51, &[6, 4, 0, 0, 0, 0, 0, 1],
            Counted { end: 2, incomplete: true, error: 4, ..UDP }),
        ("length of 0", 32, [0, 0], 51, &[6, 0, 0, 0, 0, 0, 0, 1, 0, 0, 0, 2],
            Counted { error: 16 * 3 + 4, ..fault }),
        ("total length", 16, [0, 0], 17, &[0; 8], Counted { error: 16 + 3, ..fault }),
    ];
    let (mut all, mut merged) = (Statistics::new(), Statistics::new());
    for (name, total_len, flags, protocol, after, counted) in &rows {
        let bytes = ipv4_bytes(rt.alloc(), 0x45, *total_len, *flags, *protocol, after)?;
        check(&rt, name, bytes.as_slice(), counted, &mut all, &mut merged);
    }
    assert_same(&rt, "merged", &all, &merged);
    let sums = (all.packets, all.ipv4, all.payload_bytes);
    assert_same(&rt, "sums", sums, (9, 9, 8 + 8 + 4 + 8 + 8 + 28));
    Ok(())
}

/// Each extension header once, an atomic fragment header among them, and 8 bytes of UDP.
#[rattlefmt::skip]
const EACH_HEADER: [u8; 52] = [
    43, 0, 1, 4, 0, 0, 0, 0, // hop-by-hop options
    44, 0, 4, 0, 0, 0, 0, 0, // routing
    51, 0, 0, 0, 0, 0, 0, 7, // fragment
    60, 1, 0, 0, 0, 0, 0, 1, 0, 0, 0, 2, // authentication
    17, 0, 1, 4, 0, 0, 0, 0, // destination options
    0, 1, 0, 2, 0, 8, 0, 0, // UDP
];

/// An IPv6 packet: its name, payload length, next header, the bytes after its base header, and what it counts.
type Ipv6Row<'a> = (&'a str, u16, u8, &'a [u8], Counted<'a>);

#[test]
fn ipv6_packets(rt: HostRuntime) -> Result<(), Fail> {
    let whole = Counted { version: 6, ..UDP };
    let fragment = Counted {
        chain: (1, 2),
        headers: &[44],
        ..whole
    };
    let fault = Counted { end: 3, ..whole };
    #[rattlefmt::skip]
    let rows: [Ipv6Row<'_>; 11] = [
        ("whole", 8, 17, &[0; 8], whole),
        ("no length", 0, 6, &[0; 5], Counted { payload: (6, 5), ..whole }),
        ("each header", 52, 0, &EACH_HEADER,
            Counted { fragment: 1, chain: (5, 11), headers: &[0, 43, 44, 51, 60], ..whole }),
        ("no next header", 16, 60, &[60, 0, 1, 4, 0, 0, 0, 0, 59, 0, 1, 4, 0, 0, 0, 0],
            Counted { chain: (2, 4), headers: &[60, 60], payload: (59, 0), ..whole }),
        ("first fragment", 16, 44, &[17, 0, 0, 1, 0, 0, 0, 7, 1, 2, 3, 4, 5, 6, 7, 8],
            Counted { fragment: 2, ..fragment }),
        ("middle fragment", 16, 44, &[17, 0, 0, 9, 0, 0, 0, 7, 1, 2, 3, 4, 5, 6, 7, 8],
            Counted { end: 1, fragment: 3, ..fragment }),
        ("last fragment", 16, 44, &[60, 0, 0, 8, 0, 0, 0, 7, 17, 0, 1, 4, 0, 0, 0, 0],
            Counted { end: 1, fragment: 4, payload: (60, 8), ..fragment }),
        ("truncated", 24, 43, &[17, 0, 4, 0],
            Counted { end: 2, incomplete: true, error: 10, ..whole }),
        ("too short", 4, 60, &[17, 0, 1, 4], Counted { error: 16 + 9, ..fault }),
        ("hop-by-hop", 16, 60, &[0, 0, 1, 4, 0, 0, 0, 0, 17, 0, 1, 4, 0, 0, 0, 0],
            Counted { chain: (1, 2), headers: &[60], error: 16 * 2 + 8, ..fault }),
        ("length of 0", 12, 51, &[6, 0, 0, 0, 0, 0, 0, 1, 0, 0, 0, 2],
            Counted { error: 16 * 3 + 4, ..fault }),
    ];
    let (mut all, mut merged) = (Statistics::new(), Statistics::new());
    for (name, payload_length, next_header, after, counted) in &rows {
        let bytes = ipv6_bytes(rt.alloc(), *payload_length, *next_header, after)?;
        check(&rt, name, bytes.as_slice(), counted, &mut all, &mut merged);
    }
    assert_same(&rt, "merged", &all, &merged);
    let sums = (all.ipv6, all.headers[44], all.payload_bytes);
    assert_same(&rt, "sums", sums, (11, 4, 8 + 5 + 8 + 8 + 8 + 8));
    Ok(())
}

#[test]
fn packets_without_a_header(rt: HostRuntime) {
    let none = Counted { version: 0, ..UDP };
    let rows: [(&str, &[u8], u8, usize); 5] = [
        ("no bytes", &[], 2, 1),
        ("IPv4 header", &[0x45; 19], 2, 2),
        ("IPv6 header", &[0x60; 39], 2, 5),
        ("version 5", &[0x50; 40], 3, 16 * 4 + 1),
        ("header length", &[0x44; 40], 3, 16 * 5 + 2),
    ];
    let (mut all, mut merged) = (Statistics::new(), Statistics::new());
    for (name, bytes, end, error) in rows {
        let counted = Counted { end, error, ..none };
        check(&rt, name, bytes, &counted, &mut all, &mut merged);
    }
    assert_same(&rt, "merged", &all, &merged);
}

#[test]
fn long_chains(rt: HostRuntime) -> Result<(), Fail> {
    let rows = [(0, 2), (30, 62), (31, 64), (62, 64), (63, 65), (255, 67)];
    for (len, index) in rows {
        let mut bytes = ipv6_bytes(rt.alloc(), 0, 60, &[17, len, 1, 0])?;
        bytes.extend_from_slice(&[0; 2048])?;
        let mut found = Statistics::new();
        found.count_packet(bytes.as_slice());
        assert_same(&rt, len, found.chain_headers[1], 1);
        assert_same(&rt, len, found.chain_bytes.get(index), Some(&1));
    }
    let mut bytes = ipv6_bytes(rt.alloc(), 0, 60, &[])?;
    for _ in 0..17 {
        bytes.extend_from_slice(&[60, 0, 1, 4, 0, 0, 0, 0])?;
    }
    let mut found = Statistics::new();
    found.count_packet(bytes.as_slice());
    let counts = (
        found.chain_headers[16],
        found.chain_bytes[34],
        found.headers[60],
    );
    assert_same(&rt, "17 headers", counts, (1, 1, 17));
    Ok(())
}

#[test]
fn largest_counts(rt: HostRuntime) {
    let mut found = Statistics::new();
    found.without_header = u64::MAX;
    found.truncated_headers[1] = u64::MAX - 1;
    found.count_packet(&[]);
    found.count_packet(&[]);
    let counts = (
        found.packets,
        found.without_header,
        found.truncated_headers[1],
    );
    assert_same(&rt, "counts", counts, (2, u64::MAX, u64::MAX));
    let mut other = Statistics::new();
    other.packets = u64::MAX - 1;
    other.faults[0] = 3;
    found.merge(&other);
    let counts = (found.packets, found.without_header, found.faults[0]);
    assert_same(&rt, "merged counts", counts, (u64::MAX, u64::MAX, 3));
}

#[test]
fn captures(rt: HostRuntime) {
    let empty = |version: u32| CaptureStatistics {
        version,
        size: 8152,
        other_frames: 0,
        truncated_frames: 0,
        packets: Statistics::new(),
    };
    let mut found = empty(0);
    found.count_other_frame();
    found.clear();
    assert_same(&rt, "cleared", &found, &empty(1));
    found.count_other_frame();
    found.count_truncated_frame();
    found.packets.count_packet(&[]);
    assert!(rt; !found.merge(&empty(2)));
    let mut sum = empty(1);
    sum.truncated_frames = u64::MAX;
    assert!(rt; sum.merge(&found));
    let counts = (sum.other_frames, sum.truncated_frames, sum.packets.packets);
    assert_same(&rt, "sum", counts, (1, u64::MAX, 1));
    let counts = (found.other_frames, found.packets.packets);
    assert_same(&rt, "merged", counts, (1, 1));
}
