//! Packets without extension headers beside others that differ in little, and what filters say of each. What holds of
//! each packet is worked out by hand from RFC 791, RFC 4302 and RFC 8200.
use crate::checks::assert_same;
use crate::plain_summary::plain_summary;
use crate::samples::{ipv4_bytes, ipv6_bytes};
use ip_filter::Filter;
use std::alloc::Global;
use std::process::Abort;
use std::test::Fail;

/// What holds of a packet.
#[derive(Clone, Copy)]
struct Row<'a> {
    name: &'a str,
    /// Whether it has no extension headers, is no fragment, and its headers end without an error.
    is_plain: bool,
    /// Formulas that hold.
    holding: &'a [&'a str],
    /// Formulas that don't.
    others: &'a [&'a str],
}

/// Checks what the formula says of the packet.
fn check_formula(rt: &impl Abort, name: &str, text: &str, bytes: &[u8], wanted: bool) {
    let parsed = Filter::parse(text.as_bytes());
    let found = parsed.map(|filter| filter.matches(bytes));
    assert_same(rt, (name, text), found, Ok(wanted));
}

/// Checks the row.
fn check(rt: &impl Abort, row: &Row<'_>, bytes: &[u8]) {
    let is_plain = plain_summary(bytes).is_some();
    assert_same(rt, row.name, is_plain, row.is_plain);
    for text in row.holding {
        check_formula(rt, row.name, text, bytes, true);
    }
    for text in row.others {
        check_formula(rt, row.name, text, bytes, false);
    }
}

/// An IPv6 packet: its payload length, its next header, the bytes after its base header, and what holds.
type Ipv6Row = (u16, u8, &'static [u8], Row<'static>);

const IPV6_PLAIN: [Ipv6Row; 7] = [
    (
        8,
        17,
        &[1, 2, 3, 4, 5, 6, 7, 8, 9],
        Row {
            name: "UDP and a byte of padding",
            is_plain: true,
            holding: &["leads-to udp and headers = 0", "payload = 8", "version 6"],
            others: &["fragment or fault or truncated", "incomplete", "header ah"],
        },
    ),
    (
        0,
        6,
        &[1, 2, 3, 4],
        Row {
            name: "no payload length",
            is_plain: true,
            holding: &["leads-to tcp and payload = 4 and not incomplete"],
            others: &["fault or truncated", "header hopopt"],
        },
    ),
    (
        8,
        58,
        &[1, 2, 3, 4],
        Row {
            name: "4 of 8 bytes of ICMP",
            is_plain: true,
            holding: &["incomplete and leads-to icmp6", "chain-bytes = 0"],
            others: &["truncated", "fault"],
        },
    ),
    (
        8,
        135,
        &[59, 0, 1, 0, 0, 0, 0, 0],
        Row {
            name: "a mobility header, which is not of the chain",
            is_plain: true,
            holding: &["leads-to 135 and headers = 0 and payload = 8"],
            others: &["headers > 0", "leads-to no-next"],
        },
    ),
    (
        8,
        50,
        &[44, 0, 0, 1, 0, 0, 0, 1],
        Row {
            name: "ESP, whose bytes would be a fragment header",
            is_plain: true,
            holding: &["leads-to esp and payload = 8", "spi 0x2c000001"],
            others: &["header frag", "fragment", "header ah or id 1 or spi 1"],
        },
    ),
    (
        4,
        59,
        &[1, 2, 3, 4],
        Row {
            name: "no next header",
            is_plain: true,
            holding: &["leads-to no-next and payload = 4"],
            others: &["fault", "truncated"],
        },
    ),
    (
        4,
        4,
        &[1, 2, 3, 4],
        Row {
            name: "an IPv4 packet in it",
            is_plain: true,
            holding: &["version 6 and leads-to 4"],
            others: &["version 4"],
        },
    ),
];

const IPV6_HEADERS: [Ipv6Row; 5] = [
    (
        16,
        0,
        &[17, 0, 1, 4, 0, 0, 0, 0, 1, 2, 3, 4, 5, 6, 7, 8],
        Row {
            name: "hop-by-hop options",
            is_plain: false,
            holding: &[
                "header hopopt and leads-to udp",
                "headers = 1",
                "payload = 8",
            ],
            others: &["leads-to hopopt", "headers = 0", "header frag"],
        },
    ),
    (
        16,
        43,
        &[6, 0, 0, 0, 0, 0, 0, 0, 1, 2, 3, 4, 5, 6, 7, 8],
        Row {
            name: "a routing header",
            is_plain: false,
            holding: &["header route and leads-to tcp", "chain-bytes = 8"],
            others: &["leads-to route", "payload = 16"],
        },
    ),
    (
        20,
        51,
        &[17, 1, 0, 0, 0, 0, 1, 2, 0, 0, 0, 3, 1, 2, 3, 4, 5, 6, 7, 8],
        Row {
            name: "an authentication header",
            is_plain: false,
            holding: &["header ah and spi 258", "leads-to udp and payload = 8"],
            others: &["spi 3", "leads-to ah", "chain-bytes = 0"],
        },
    ),
    (
        16,
        60,
        &[59, 0, 1, 4, 0, 0, 0, 0, 1, 2, 3, 4, 5, 6, 7, 8],
        Row {
            name: "destination options",
            is_plain: false,
            holding: &["header dstopts and leads-to no-next"],
            others: &["leads-to dstopts", "payload = 16"],
        },
    ),
    (
        16,
        44,
        &[17, 0, 0, 0, 0, 0, 0, 9, 1, 2, 3, 4, 5, 6, 7, 8],
        Row {
            name: "an atomic fragment",
            is_plain: false,
            holding: &["header frag and id 9", "leads-to udp and not fragment"],
            others: &["leads-to frag", "first-fragment or later-fragment"],
        },
    ),
];

const IPV6_FRAGMENTS_AND_ERRORS: [Ipv6Row; 8] = [
    (
        16,
        44,
        &[17, 0, 0, 1, 0, 0, 0, 9, 1, 2, 3, 4, 5, 6, 7, 8],
        Row {
            name: "a first fragment",
            is_plain: false,
            holding: &["first-fragment and id 9", "leads-to udp"],
            others: &["later-fragment", "not fragment", "payload = 16"],
        },
    ),
    (
        16,
        44,
        &[60, 0, 0, 8, 0, 0, 0, 9, 17, 0, 1, 4, 0, 0, 0, 0],
        Row {
            name: "a last fragment, whose payload is not options",
            is_plain: false,
            holding: &["later-fragment and leads-to dstopts", "headers = 1"],
            others: &["header dstopts", "leads-to udp", "leads-to frag"],
        },
    ),
    (
        24,
        43,
        &[17, 2, 0, 0, 0, 0, 0, 0],
        Row {
            name: "8 of 24 bytes of a routing header",
            is_plain: false,
            holding: &[
                "truncated and leads-to route and incomplete",
                "truncated routing",
            ],
            others: &[
                "fault",
                "header route",
                "not truncated",
                "truncated fragment",
            ],
        },
    ),
    (
        8,
        43,
        &[17, 2, 0, 0, 0, 0, 0, 0],
        Row {
            name: "a routing header that is longer than the payload",
            is_plain: false,
            holding: &[
                "fault too-short and leads-to route",
                "fault too-short routing",
            ],
            others: &[
                "truncated",
                "header route",
                "not fault",
                "fault too-short hop-by-hop",
            ],
        },
    ),
    (
        16,
        60,
        &[0, 0, 1, 4, 0, 0, 0, 0, 17, 0, 1, 4, 0, 0, 0, 0],
        Row {
            name: "hop-by-hop options after destination options",
            is_plain: false,
            holding: &["fault not-at-start hop-by-hop and leads-to hopopt"],
            others: &["header hopopt", "truncated", "leads-to udp"],
        },
    ),
    (
        12,
        51,
        &[17, 0, 0, 0, 0, 0, 1, 2, 0, 0, 0, 3],
        Row {
            name: "an authentication header of length 0",
            is_plain: false,
            holding: &["fault zero-length authentication and leads-to ah"],
            others: &["header ah or spi 258", "fault too-short"],
        },
    ),
    (
        0,
        0,
        &[],
        Row {
            name: "no bytes of hop-by-hop options",
            is_plain: false,
            holding: &["truncated and headers = 0"],
            others: &["fault", "header hopopt"],
        },
    ),
    (
        8,
        0,
        &[],
        Row {
            name: "8 bytes of hop-by-hop options that are missing",
            is_plain: false,
            holding: &["truncated and incomplete"],
            others: &["fault", "not truncated"],
        },
    ),
];

/// Checks the rows of a table.
fn check_ipv6(rt: &impl Abort, alloc: Global, table: &[Ipv6Row]) -> Result<(), Fail> {
    for (payload_length, next_header, after, row) in table {
        let bytes = ipv6_bytes(alloc, *payload_length, *next_header, after)?;
        check(rt, row, bytes.as_slice());
    }
    Ok(())
}

#[test]
fn ipv6_packets(rt: HostRuntime) -> Result<(), Fail> {
    check_ipv6(&rt, rt.alloc(), &IPV6_PLAIN)?;
    check_ipv6(&rt, rt.alloc(), &IPV6_HEADERS)?;
    check_ipv6(&rt, rt.alloc(), &IPV6_FRAGMENTS_AND_ERRORS)
}

/// An IPv4 packet: its first byte, its total length, its flags and offset, its protocol, the bytes after the first 20,
/// and what holds.
type Ipv4Row = (u8, u16, [u8; 2], u8, &'static [u8], Row<'static>);

const IPV4_PLAIN: [Ipv4Row; 7] = [
    (
        0x45,
        24,
        [0, 0],
        17,
        &[1, 2, 3, 4, 5],
        Row {
            name: "UDP and a byte of padding",
            is_plain: true,
            holding: &["version 4 and leads-to udp", "payload = 4 and headers = 0"],
            others: &["fragment or fault or truncated", "incomplete", "id 0"],
        },
    ),
    (
        0x45,
        24,
        [0xc0, 0],
        17,
        &[1, 2, 3, 4],
        Row {
            name: "must not be fragmented, and the reserved bit",
            is_plain: true,
            holding: &["not (fragment or first-fragment or later-fragment)"],
            others: &["id 0", "fault"],
        },
    ),
    (
        0x45,
        20,
        [0, 0],
        6,
        &[1, 2],
        Row {
            name: "a total length of the header alone",
            is_plain: true,
            holding: &["payload = 0 and leads-to tcp and not fault"],
            others: &["payload = 2", "incomplete"],
        },
    ),
    (
        0x46,
        24,
        [0, 0],
        6,
        &[1, 1, 1, 1, 2],
        Row {
            name: "a total length of the header and its options alone",
            is_plain: true,
            holding: &["payload = 0 and not fault"],
            others: &["payload = 4", "truncated"],
        },
    ),
    (
        0x45,
        0,
        [0, 0],
        44,
        &[17, 0, 0, 1, 0, 0, 0, 9],
        Row {
            name: "no total length, and a protocol that is an IPv6 header's",
            is_plain: true,
            holding: &["leads-to frag and payload = 8 and headers = 0"],
            others: &["header frag", "fragment", "id 9"],
        },
    ),
    (
        0x45,
        28,
        [0, 0],
        60,
        &[17, 0, 1, 4, 0, 0, 0, 0],
        Row {
            name: "destination options, which are no header in IPv4",
            is_plain: true,
            holding: &["leads-to dstopts and payload = 8"],
            others: &["header dstopts", "leads-to udp"],
        },
    ),
    (
        0x45,
        28,
        [0, 0],
        0,
        &[1, 2, 3, 4],
        Row {
            name: "4 of 8 bytes after protocol 0",
            is_plain: true,
            holding: &["incomplete and leads-to hopopt"],
            others: &["truncated", "fault", "header hopopt"],
        },
    ),
];

const IPV4_OTHERS: [Ipv4Row; 10] = [
    (
        0x45,
        24,
        [0x20, 0],
        17,
        &[1, 2, 3, 4],
        Row {
            name: "a first fragment",
            is_plain: false,
            holding: &["first-fragment and id 0 and leads-to udp"],
            others: &["later-fragment", "not fragment", "header frag"],
        },
    ),
    (
        0x45,
        24,
        [0, 1],
        17,
        &[1, 2, 3, 4],
        Row {
            name: "a last fragment at 8 bytes",
            is_plain: false,
            holding: &["later-fragment and leads-to udp and payload = 4"],
            others: &["first-fragment", "not fragment", "header frag"],
        },
    ),
    (
        0x45,
        32,
        [0x30, 0],
        51,
        &[17, 1, 0, 0, 0, 0, 1, 2, 0, 0, 0, 3],
        Row {
            name: "a middle fragment, whose payload is no authentication header",
            is_plain: false,
            holding: &["later-fragment and leads-to ah and payload = 12"],
            others: &["header ah or spi 258", "leads-to udp", "headers = 1"],
        },
    ),
    (
        0x45,
        34,
        [0, 0],
        51,
        &[17, 1, 0, 0, 0, 0, 1, 2, 0, 0, 0, 3, 1, 2],
        Row {
            name: "an authentication header",
            is_plain: false,
            holding: &["header ah and spi 258 and leads-to udp", "payload = 2"],
            others: &["leads-to ah", "headers = 0", "fragment"],
        },
    ),
    (
        0x45,
        32,
        [0, 0],
        51,
        &[17, 1, 0, 0],
        Row {
            name: "4 of 12 bytes of an authentication header",
            is_plain: false,
            holding: &["truncated and incomplete and leads-to ah"],
            others: &["fault", "header ah", "not truncated"],
        },
    ),
    (
        0x45,
        24,
        [0, 0],
        51,
        &[17, 1, 0, 0, 0, 0, 1, 2, 0, 0, 0, 3],
        Row {
            name: "an authentication header that is longer than the packet",
            is_plain: false,
            holding: &["fault too-short authentication and leads-to ah"],
            others: &["truncated authentication", "header ah", "not fault"],
        },
    ),
    (
        0x45,
        32,
        [0, 0],
        51,
        &[17, 0, 0, 0, 0, 0, 1, 2, 0, 0, 0, 3],
        Row {
            name: "an authentication header of length 0",
            is_plain: false,
            holding: &["fault zero-length"],
            others: &["fault too-short", "header ah", "truncated"],
        },
    ),
    (
        0x45,
        19,
        [0, 0],
        17,
        &[1, 2, 3, 4],
        Row {
            name: "a total length below the header",
            is_plain: false,
            holding: &["fault too-short IPv4-packet and version 4 and leads-to udp"],
            others: &[
                "not fault",
                "truncated",
                "fault header-length",
                "fault too-short authentication",
            ],
        },
    ),
    (
        0x46,
        23,
        [0, 0],
        17,
        &[1, 1, 1, 1, 2],
        Row {
            name: "a total length below the header and its options",
            is_plain: false,
            holding: &["fault too-short and version 4"],
            others: &["not fault", "payload > 0"],
        },
    ),
    (
        0x44,
        24,
        [0, 0],
        17,
        &[1, 2, 3, 4],
        Row {
            name: "a header length below 5",
            is_plain: false,
            holding: &["fault header-length"],
            others: &["version 4", "truncated", "leads-to udp", "headers = 0"],
        },
    ),
];

/// Checks the rows of a table.
fn check_ipv4(rt: &impl Abort, alloc: Global, table: &[Ipv4Row]) -> Result<(), Fail> {
    for (first, total_len, fragment, protocol, after, row) in table {
        let bytes = ipv4_bytes(alloc, *first, *total_len, *fragment, *protocol, after)?;
        check(rt, row, bytes.as_slice());
    }
    Ok(())
}

#[test]
fn ipv4_packets(rt: HostRuntime) -> Result<(), Fail> {
    check_ipv4(&rt, rt.alloc(), &IPV4_PLAIN)?;
    check_ipv4(&rt, rt.alloc(), &IPV4_OTHERS)
}

#[test]
fn bytes_without_a_base_header(rt: HostRuntime) -> Result<(), Fail> {
    let truncated = Row {
        name: "a part of a base header",
        is_plain: false,
        holding: &["truncated"],
        others: &[
            "fault",
            "version 4",
            "version 6",
            "leads-to udp",
            "headers = 0",
        ],
    };
    let ipv6 = ipv6_bytes(rt.alloc(), 0, 17, &[])?;
    let ipv4 = ipv4_bytes(rt.alloc(), 0x46, 24, [0, 0], 17, &[1, 1, 1])?;
    for bytes in [
        ipv6.get(..39),
        ipv4.get(..19),
        ipv4.get(..23),
        ipv4.get(..0),
    ] {
        check(&rt, &truncated, bytes.unwrap_or(&[]));
    }
    let version = Row {
        name: "version 5",
        is_plain: false,
        holding: &["fault unsupported-version"],
        others: &["truncated", "version 4", "version 6", "headers = 0"],
    };
    check(&rt, &version, &[0x50; 40]);
    Ok(())
}
