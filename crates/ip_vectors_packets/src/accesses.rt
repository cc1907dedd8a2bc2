//! Accesses to bytes: the tests of their texts, and what they say of packets, worked out by hand from pcap-filter(7), RFC 791,
//! RFC 792, RFC 4443, RFC 8200 and RFC 9293.
use crate::checks::{assert_same, assert_that};
use crate::samples::{ipv4_bytes, ipv6_bytes};
use ip_filter::{Expected, Filter, ParseError, Test};
use std::process::Abort;
use std::test::Fail;

/// Returns the test of the bytes from a base header (31) or a transport header (32) on: its version or number, the offset and
/// size, the mask, and the comparison and number.
fn access(kind: u8, header: u8, place: (u64, u8), mask: u64, compared: (u8, u64)) -> Test {
    Test {
        number: compared.1,
        address_high: place.0,
        address_low: mask,
        kind,
        comparison: compared.0,
        version: header,
        prefix_len: place.1,
        if_met: 64,
        if_not: 65,
    }
}

#[test]
fn texts(rt: HostRuntime) -> Result<(), Fail> {
    const ALL: u64 = 0xffff_ffff;
    let rows = [
        ("tcp[13] & 2 != 0", access(32, 6, (13, 1), 2, (2, 0))),
        (
            "tcp[tcpflags]&(tcp-syn|tcp-ack)!=0",
            access(32, 6, (13, 1), 0x12, (2, 0)),
        ),
        (
            "tcp[tcpflags] & (tcp-rst|tcp-ack) == (tcp-rst|tcp-ack)",
            access(32, 6, (13, 1), 0x14, (1, 0x14)),
        ),
        ("tcp[0xd] = tcp-push", access(32, 6, (13, 1), ALL, (1, 8))),
        ("ip[8] < 5", access(31, 4, (8, 1), ALL, (3, 5))),
        (
            "ip[6:2] & 0x1fff = 0",
            access(31, 4, (6, 2), 0x1fff, (1, 0)),
        ),
        (
            "ip[12:4] >= 0xe0000000",
            access(31, 4, (12, 4), ALL, (6, 0xe000_0000)),
        ),
        ("ip6[6] == 44", access(31, 6, (6, 1), ALL, (1, 44))),
        ("udp[0:2] = 53", access(32, 17, (0, 2), ALL, (1, 53))),
        ("sctp[12:1]>0", access(32, 132, (12, 1), ALL, (5, 0))),
        (
            "icmp[icmptype] = icmp-echo",
            access(32, 1, (0, 1), ALL, (1, 8)),
        ),
        ("icmp[icmpcode] <= 1", access(32, 1, (1, 1), ALL, (4, 1))),
        (
            "icmp6[icmp6type] != icmp6-echo",
            access(32, 58, (0, 1), ALL, (2, 128)),
        ),
        ("icmp6[icmp6code] = 4", access(32, 58, (1, 1), ALL, (1, 4))),
        (
            "tcp[4294967295:4] & 4294967295 = (1 | 0x2 | tcp-cwr)",
            access(32, 6, (4_294_967_295, 4), ALL, (1, 0x83)),
        ),
        ("dccp[8] & (1) = 1", access(32, 33, (8, 1), 1, (1, 1))),
    ];
    for (text, wanted) in &rows {
        let parsed = Filter::parse(text.as_bytes());
        assert_that(&rt, text, parsed.is_ok());
        if let Ok(filter) = parsed {
            assert_that(&rt, text, filter.used_tests() == [*wanted].as_slice());
        }
    }
    Ok(())
}

#[test]
fn errors(rt: HostRuntime) -> Result<(), Fail> {
    let rows = [
        ("tcp[13]", 7, Expected::MaskOrComparison),
        ("tcp[13] 2", 8, Expected::MaskOrComparison),
        ("tcp[13] && fault", 8, Expected::MaskOrComparison),
        ("ip[2:2] - 4 = 0", 8, Expected::MaskOrComparison),
        ("tcp[13] &", 9, Expected::Bits),
        ("tcp[13] & = 2", 10, Expected::Bits),
        ("tcp[13] & 2", 11, Expected::Comparison),
        ("tcp[13] & 2 & 4 = 0", 12, Expected::Comparison),
        ("tcp[13] & (2) fault", 14, Expected::Comparison),
        ("tcp[13] & 4294967296 = 0", 10, Expected::Bits),
        ("tcp[13] =", 9, Expected::Bits),
        ("tcp[13] = tcp-psh", 10, Expected::Bits),
        ("tcp[13] = tcp[12]", 10, Expected::Bits),
        ("tcp[13] = ((2))", 11, Expected::JoinedBits),
        ("tcp[13] = ()", 11, Expected::JoinedBits),
        ("tcp[13] = (", 11, Expected::JoinedBits),
        ("tcp[13] = (2 |", 14, Expected::JoinedBits),
        ("tcp[13] = (2", 12, Expected::JoinedBitsEnd),
        ("tcp[13] = (2 || 4)", 13, Expected::JoinedBitsEnd),
        ("tcp[13] = 2 | 4", 12, Expected::OperatorOrEnd),
        ("tcp[13] = 2 4", 12, Expected::OperatorOrEnd),
        ("(tcp[13] = 2 4", 13, Expected::OperatorOrClose),
        ("tcp[0:3] = 1", 0, Expected::Operand),
        ("tcp[0:8] = 1", 0, Expected::Operand),
        ("tcp[0:] = 1", 0, Expected::Operand),
        ("tcp[] = 1", 0, Expected::Operand),
        ("tcp[1 = 1", 0, Expected::Operand),
        ("tcp[1]] = 1", 0, Expected::Operand),
        ("tcp[01] = 1", 0, Expected::Operand),
        ("tcp[4294967296] = 1", 0, Expected::Operand),
        ("ether[0] & 1 = 0", 0, Expected::Operand),
        ("[0] = 1", 0, Expected::Operand),
        ("tcp [13] = 1", 4, Expected::OperatorOrEnd),
        ("port 80 or tcp[13] = 2 or 443", 26, Expected::Operand),
    ];
    for (text, offset, expected) in &rows {
        let refused = Filter::parse(text.as_bytes());
        let error = ParseError {
            offset: *offset,
            expected: *expected,
        };
        assert_that(&rt, text, refused == Err(error));
    }
    Ok(())
}

/// Checks what each formula says of the packet.
fn check(rt: &impl Abort, name: &str, bytes: &[u8], holding: &[&str], others: &[&str]) {
    for text in holding {
        let found = Filter::parse(text.as_bytes()).map(|filter| filter.matches(bytes));
        assert_same(rt, (name, text), found, Ok(true));
    }
    for text in others {
        let found = Filter::parse(text.as_bytes()).map(|filter| filter.matches(bytes));
        assert_same(rt, (name, text), found, Ok(false));
    }
}

/// A TCP header from port 443 to 50,000, with the flags SYN and ACK.
const TCP: [u8; 20] = [
    0x01, 0xbb, 0xc3, 0x50, 1, 2, 3, 4, 0, 0, 0, 0, 0x50, 0x12, 0, 0, 0, 0, 0, 0,
];

#[test]
fn base_headers(rt: HostRuntime) -> Result<(), Fail> {
    let alloc = rt.alloc();
    let bytes = ipv4_bytes(alloc, 0x45, 40, [0x40, 0], 6, &TCP)?;
    let holding = [
        "ip[0] = 0x45",
        "ip[2:2] = 40",
        "ip[6:2] & 0x1fff = 0",
        "ip[8] > 63 and ip[8] < 65",
        "ip[12:4] = 0x0a000001",
        "ip[20:2] = 443",
        "ip[39] = 0",
        "ip[36:4] = 0",
        "ip[12] & 6 != 4",
    ];
    let others = [
        "ip[1:2] = 40",
        "ip[40] >= 0",
        "ip[37:4] >= 0",
        "ip[39:2] != 1",
        "ip[4294967295:4] >= 0",
        "ip6[0] >= 0",
        "ip[12:4] = 0x0100000a",
        "ip[12] & 2 = 0",
    ];
    check(&rt, "IPv4", bytes.as_slice(), &holding, &others);
    let options = [6, 0, 1, 4, 0, 0, 0, 0, 0x01, 0xbb, 0xc3, 0x50];
    let bytes = ipv6_bytes(alloc, 12, 0, &options)?;
    let holding = [
        "ip6[0] & 0xf0 = 0x60",
        "ip6[4:2] = 12",
        "ip6[6] = 0",
        "ip6[7] = 64",
        "ip6[40] = 6",
        "ip6[48:4] = 0x01bbc350",
    ];
    let others = ["ip[0] >= 0", "ip6[52] >= 0", "ip6[6] = 6"];
    check(&rt, "IPv6", bytes.as_slice(), &holding, &others);
    Ok(())
}

#[test]
fn transport_headers(rt: HostRuntime) -> Result<(), Fail> {
    let alloc = rt.alloc();
    let holding = [
        "tcp[tcpflags] & (tcp-syn|tcp-ack) == (tcp-syn|tcp-ack)",
        "tcp[13] & 2 != 0",
        "tcp[0:2] = 443",
        "tcp[4:4] = 0x01020304",
        "tcp[12] & 0xf0 = 0x50",
        "tcp[16:4] = 0",
    ];
    let others = [
        "tcp[13] & tcp-fin != 0",
        "tcp[13] = 2",
        "tcp[1:2] = 443",
        "tcp[17:4] >= 0",
        "udp[0:2] = 443",
        "icmp6[0] >= 0",
        "dccp[0] != 1",
    ];
    let bytes = ipv4_bytes(alloc, 0x45, 40, [0, 0], 6, &TCP)?;
    check(&rt, "IPv4", bytes.as_slice(), &holding, &others);
    let bytes = ipv6_bytes(alloc, 20, 6, &TCP)?;
    check(&rt, "IPv6", bytes.as_slice(), &holding, &others);
    let mut after = Vec::from_array(alloc, [6, 0, 1, 4, 0, 0, 0, 0])?;
    after.extend_from_slice(&TCP)?;
    let bytes = ipv6_bytes(alloc, 28, 60, after.as_slice())?;
    check(&rt, "options", bytes.as_slice(), &holding, &others);
    let bytes = ipv6_bytes(alloc, 21, 60, after.as_slice())?;
    let cut = ["tcp[13] >= 0", "tcp[12:4] != 1", "tcp[20] != 0"];
    check(&rt, "13 bytes", bytes.as_slice(), &["tcp[12] = 0x50"], &cut);
    Ok(())
}

#[test]
fn fragments_and_messages(rt: HostRuntime) -> Result<(), Fail> {
    let alloc = rt.alloc();
    let bytes = ipv4_bytes(alloc, 0x45, 40, [0, 1], 6, &TCP)?;
    let none = ["tcp[0] >= 0", "tcp[0] != 9"];
    check(
        &rt,
        "later",
        bytes.as_slice(),
        &["ip[7] = 1", "ip[20] = 1"],
        &none,
    );
    let bytes = ipv4_bytes(alloc, 0x45, 40, [0x20, 0], 6, &TCP)?;
    check(&rt, "first", bytes.as_slice(), &["tcp[0:2] = 443"], &[]);
    let later = [6, 0, 0, 8, 0, 0, 0, 9, 0x01, 0xbb, 0xc3, 0x50, 0, 8, 0, 0];
    let bytes = ipv6_bytes(alloc, 16, 44, &later)?;
    check(
        &rt,
        "IPv6, later",
        bytes.as_slice(),
        &["ip6[43] = 8"],
        &none,
    );
    let echo = [8, 0, 0, 0, 0, 1, 0, 2];
    let bytes = ipv4_bytes(alloc, 0x45, 28, [0, 0], 1, &echo)?;
    let holding = ["icmp[icmptype] = icmp-echo", "icmp[6:2] = 2"];
    let others = ["icmp[icmptype] != icmp-echo", "icmp6[0] = 8"];
    check(&rt, "ICMP", bytes.as_slice(), &holding, &others);
    let bytes = ipv6_bytes(alloc, 8, 1, &echo)?;
    check(&rt, "ICMP of IPv6", bytes.as_slice(), &[], &["icmp[0] = 8"]);
    let bytes = ipv6_bytes(alloc, 8, 58, &echo)?;
    check(
        &rt,
        "ICMPv6",
        bytes.as_slice(),
        &["icmp6[0] = 8"],
        &["icmp[0] = 8"],
    );
    let bytes = ipv4_bytes(alloc, 0x45, 28, [0, 0], 58, &echo)?;
    check(
        &rt,
        "ICMPv6 of IPv4",
        bytes.as_slice(),
        &[],
        &["icmp6[0] = 8"],
    );
    let truncated = ipv6_bytes(alloc, 24, 43, &[6, 2, 0, 0])?;
    check(
        &rt,
        "truncated",
        truncated.as_slice(),
        &["ip6[40] = 6"],
        &none,
    );
    check(
        &rt,
        "no header",
        &[0x45, 0, 0, 40, 0, 0, 0, 0, 3],
        &[],
        &["ip[8] < 5"],
    );
    Ok(())
}

#[test]
fn tests_of_any_contents(rt: HostRuntime) -> Result<(), Fail> {
    let bytes = ipv4_bytes(rt.alloc(), 0x45, 40, [0, 0], 6, &TCP)?;
    let met = access(31, 4, (2, 2), 0xffff, (1, 40));
    let rows = [
        (met, true),
        (
            Test {
                prefix_len: 1,
                ..met
            },
            false,
        ),
        (
            Test {
                prefix_len: 3,
                ..met
            },
            false,
        ),
        (
            Test {
                prefix_len: 0,
                comparison: 6,
                number: 0,
                ..met
            },
            false,
        ),
        (Test { version: 0, ..met }, false),
        (Test { version: 6, ..met }, false),
        (
            Test {
                comparison: 7,
                ..met
            },
            false,
        ),
        (
            Test {
                address_high: 18_446_744_073_709_551_615,
                comparison: 6,
                number: 0,
                ..met
            },
            false,
        ),
        (
            Test {
                address_low: 18_446_744_073_709_551_615,
                ..met
            },
            true,
        ),
        (
            Test {
                number: 18_446_744_073_709_551_615,
                comparison: 3,
                ..met
            },
            true,
        ),
        (Test { kind: 38, ..met }, false),
    ];
    for (test, wanted) in &rows {
        let mut filter = Filter {
            count: 1,
            tests: [*test; 64],
        };
        assert_same(&rt, *test, filter.matches(bytes.as_slice()), *wanted);
        filter.count = 0;
        assert_same(&rt, *test, filter.matches(bytes.as_slice()), false);
    }
    Ok(())
}
