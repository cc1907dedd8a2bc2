//! Terms and formulas over whole packets: what holds of each packet is worked out by hand.
use crate::checks::assert_same;
use crate::samples::{ipv4_bytes, ipv6_bytes};
use ip_filter::{Comparison, FaultKind, Filter, Network, Quantity, Term, Test};
use std::process::Abort;
use std::test::Fail;

/// Checks which of the terms hold of the packet.
fn check(rt: &impl Abort, name: &str, bytes: &[u8], holding: &[Term], others: &[Term]) {
    for term in holding {
        assert!(rt; term.holds(bytes), "{name}: {term:?}");
    }
    for term in others {
        assert!(rt; !term.holds(bytes), "{name}: {term:?}");
    }
}

/// Returns the IPv4 addresses that begin as 10.0.0.`last` does.
fn ipv4(last: u32, len: u8) -> Network {
    Network::Ipv4 {
        address: 0x0a00_0000 + last % 256,
        len,
    }
}

/// Returns the IPv6 addresses that begin as 2001:db8::`last` does.
fn ipv6(last: u128, len: u8) -> Network {
    Network::Ipv6 {
        address: 0x2001_0db8_0000_0000_0000_0000_0000_0000 + last % 256,
        len,
    }
}

/// Hop-by-hop options before 8 bytes of UDP.
const HOP_BY_HOP: [u8; 16] = [17, 0, 1, 4, 0, 0, 0, 0, 1, 2, 3, 4, 5, 6, 7, 8];

#[test]
fn whole_packet(rt: HostRuntime) -> Result<(), Fail> {
    let bytes = ipv6_bytes(rt.alloc(), 16, 0, &HOP_BY_HOP)?;
    let holding = [
        Term::Version(6),
        Term::Header(0),
        Term::LeadsTo(17),
        Term::Compared(Quantity::Headers, Comparison::Equal, 1),
        Term::Compared(Quantity::Headers, Comparison::Less, 2),
        Term::Compared(Quantity::ChainBytes, Comparison::AtLeast, 8),
        Term::Compared(Quantity::ChainBytes, Comparison::Greater, 7),
        Term::Compared(Quantity::Payload, Comparison::AtMost, 8),
        Term::Compared(Quantity::Payload, Comparison::NotEqual, 7),
        Term::Source(ipv6(1, 128)),
        Term::Source(ipv6(2, 32)),
        Term::Destination(ipv6(3, 127)),
        Term::Either(ipv6(2, 128)),
        Term::Either(Network::Ipv6 { address: 0, len: 0 }),
    ];
    check(&rt, "hop-by-hop options", bytes.as_slice(), &holding, &[]);
    Ok(())
}

#[test]
fn whole_packet_in_no_term(rt: HostRuntime) -> Result<(), Fail> {
    let bytes = ipv6_bytes(rt.alloc(), 16, 0, &HOP_BY_HOP)?;
    let others = [
        Term::Version(4),
        Term::Header(60),
        Term::LeadsTo(6),
        Term::Compared(Quantity::Headers, Comparison::Less, 1),
        Term::Compared(Quantity::ChainBytes, Comparison::Greater, 8),
        Term::Compared(Quantity::Payload, Comparison::NotEqual, 8),
        Term::Source(ipv6(2, 128)),
        Term::Source(ipv6(3, 127)),
        Term::Destination(ipv6(3, 128)),
        Term::Either(ipv6(3, 200)),
        Term::Either(ipv4(1, 0)),
        Term::Fragment,
        Term::Truncated,
        Term::Incomplete,
        Term::Fault,
        Term::SecurityParameters(0),
        Term::Identification(0),
    ];
    check(&rt, "hop-by-hop options", bytes.as_slice(), &[], &others);
    Ok(())
}

#[test]
fn middle_fragment(rt: HostRuntime) -> Result<(), Fail> {
    let middle = [
        44, 0, 0x05, 0xc9, 0, 0, 0, 7, 0xde, 0xad, 0xbe, 0xef, 1, 2, 3, 4,
    ];
    let bytes = ipv6_bytes(rt.alloc(), 16, 44, &middle)?;
    let holding = [
        Term::Fragment,
        Term::LaterFragment,
        Term::Header(44),
        Term::LeadsTo(44),
        Term::Identification(7),
        Term::Compared(Quantity::Headers, Comparison::AtMost, 1),
    ];
    let others = [
        Term::FirstFragment,
        Term::Fault,
        Term::Truncated,
        Term::Identification(8),
    ];
    check(&rt, "middle fragment", bytes.as_slice(), &holding, &others);
    Ok(())
}

#[test]
fn atomic_fragment(rt: HostRuntime) -> Result<(), Fail> {
    let atomic = ipv6_bytes(rt.alloc(), 8, 44, &[17, 0, 0, 0, 0, 0, 0, 9])?;
    let kinds = [Term::Fragment, Term::FirstFragment, Term::LaterFragment];
    check(
        &rt,
        "atomic fragment",
        atomic.as_slice(),
        &[Term::Identification(9)],
        &kinds,
    );
    Ok(())
}

#[test]
fn first_fragment(rt: HostRuntime) -> Result<(), Fail> {
    let auth = [6, 1, 0, 0, 0, 0, 1, 2, 0, 0, 0, 3, 1, 2, 3, 4];
    let first = ipv4_bytes(rt.alloc(), 0x45, 36, [0x20, 0], 51, &auth)?;
    let holding = [
        Term::Version(4),
        Term::Header(51),
        Term::LeadsTo(6),
        Term::Fragment,
        Term::FirstFragment,
        Term::SecurityParameters(0x102),
        Term::Compared(Quantity::ChainBytes, Comparison::Equal, 12),
        Term::Source(ipv4(0, 31)),
        Term::Destination(ipv4(3, 31)),
        Term::Either(ipv4(2, 32)),
    ];
    let others = [
        Term::LaterFragment,
        Term::SecurityParameters(0x103),
        Term::Source(ipv4(2, 31)),
        Term::Destination(ipv4(0, 31)),
        Term::Either(ipv6(1, 0)),
    ];
    check(&rt, "first fragment", first.as_slice(), &holding, &others);
    Ok(())
}

#[test]
fn truncated_header(rt: HostRuntime) -> Result<(), Fail> {
    let short = ipv6_bytes(rt.alloc(), 24, 43, &[17, 2, 0, 0, 0, 0, 0, 0])?;
    let holding = [
        Term::Truncated,
        Term::Incomplete,
        Term::LeadsTo(43),
        Term::Compared(Quantity::Headers, Comparison::Equal, 0),
    ];
    check(
        &rt,
        "truncated",
        short.as_slice(),
        &holding,
        &[Term::Fault, Term::Header(43)],
    );
    Ok(())
}

#[test]
fn faults(rt: HostRuntime) -> Result<(), Fail> {
    let alloc = rt.alloc();
    let late = [0, 0, 1, 4, 0, 0, 0, 0, 17, 0, 1, 4, 0, 0, 0, 0];
    let late = ipv6_bytes(alloc, 16, 60, &late)?;
    let holding = [Term::Fault, Term::FaultOf(FaultKind::HopByHopNotAtStart)];
    let others = [Term::Truncated, Term::FaultOf(FaultKind::TooShort)];
    check(
        &rt,
        "late hop-by-hop options",
        late.as_slice(),
        &holding,
        &others,
    );
    let beyond = ipv6_bytes(alloc, 8, 43, &[17, 2, 0, 0, 0, 0, 0, 0])?;
    let holding = [Term::FaultOf(FaultKind::TooShort)];
    check(
        &rt,
        "header beyond the packet",
        beyond.as_slice(),
        &holding,
        &[Term::Truncated],
    );
    let holding = [Term::FaultOf(FaultKind::UnsupportedIpVersion)];
    let others = [
        Term::Version(0),
        Term::Version(5),
        Term::LeadsTo(59),
        Term::Compared(Quantity::Headers, Comparison::Equal, 0),
        Term::Compared(Quantity::Payload, Comparison::AtLeast, 0),
    ];
    check(&rt, "version 5", &[0x50], &holding, &others);
    Ok(())
}

/// Returns a test that IPv6 packets meet, and where it leads.
fn ipv6_then(if_met: u8, if_not: u8) -> Test {
    Test {
        number: 1 << 6,
        address_high: 0,
        address_low: 0,
        kind: 1,
        comparison: 0,
        version: 0,
        prefix_len: 0,
        if_met,
        if_not,
    }
}

/// Returns the filter with these tests, followed by tests that it doesn't use, which would let every packet pass.
fn filter(used: &[Test]) -> Filter {
    let mut filter = Filter {
        count: 0,
        tests: [ipv6_then(64, 64); 64],
    };
    for test in used {
        if filter.count < 64 {
            filter.tests[filter.count] = *test;
            filter.count += 1;
        }
    }
    filter
}

#[test]
fn programs(rt: HostRuntime) -> Result<(), Fail> {
    let bytes = ipv6_bytes(rt.alloc(), 0, 17, &[1, 2, 3, 4])?;
    let of_kind = |kind: u8| Test {
        kind,
        ..ipv6_then(64, 65)
    };
    let rows = [
        ("met", filter(&[ipv6_then(64, 65)]), true, false),
        ("negated", filter(&[ipv6_then(65, 64)]), false, true),
        ("no tests", filter(&[]), false, false),
        ("past all", filter(&[ipv6_then(255, 64)]), false, true),
        (
            "to an unused test",
            filter(&[ipv6_then(1, 64)]),
            false,
            true,
        ),
        ("to itself", filter(&[ipv6_then(0, 64)]), false, true),
        (
            "back",
            filter(&[ipv6_then(1, 65), ipv6_then(0, 64)]),
            false,
            false,
        ),
        (
            "past one",
            filter(&[ipv6_then(2, 1), ipv6_then(65, 64), ipv6_then(64, 65)]),
            true,
            true,
        ),
        ("kind 0", filter(&[of_kind(0)]), false, false),
        ("kind 31", filter(&[of_kind(31)]), false, false),
        ("kind 255", filter(&[of_kind(255)]), false, false),
    ];
    for (name, filter, matches, other) in &rows {
        assert_same(&rt, name, filter.matches(bytes.as_slice()), *matches);
        assert_same(&rt, (name, "not IP"), filter.matches_other(), *other);
    }
    Ok(())
}

#[test]
fn count_that_is_too_large(rt: HostRuntime) -> Result<(), Fail> {
    let bytes = ipv6_bytes(rt.alloc(), 0, 17, &[1, 2, 3, 4])?;
    let mut filter = Filter {
        count: usize::MAX,
        tests: [ipv6_then(64, 65); 64],
    };
    for (index, test) in filter.tests.iter_mut().enumerate() {
        test.if_met = (index % 64) as u8 + 1;
    }
    assert!(rt; filter.matches(bytes.as_slice()));
    Ok(())
}

#[test]
fn numbers_that_are_too_large(rt: HostRuntime) -> Result<(), Fail> {
    let bytes = ipv6_bytes(rt.alloc(), 0, 17, &[1, 2, 3, 4])?;
    for (kind, number) in [(2, 256 + 17), (6, 1 << 32), (7, 1 << 32)] {
        let test = Test {
            kind,
            number,
            ..ipv6_then(64, 65)
        };
        assert_same(&rt, kind, filter(&[test]).matches(bytes.as_slice()), false);
    }
    Ok(())
}

/// A test of a layer takes any flags, of an error or not.
#[test]
fn flags_in_a_layer(rt: HostRuntime) -> Result<(), Fail> {
    let truncated = ipv6_bytes(rt.alloc(), 64, 43, &[59, 1])?;
    let whole = ipv6_bytes(rt.alloc(), 0, 17, &[1, 2, 3, 4])?;
    let rows = [
        ("version 6, a routing header", 1 << 6, 10, true),
        ("version 6, an extension header", 1 << 6, 7, true),
        ("missing bytes, a routing header", 1 << 10, 10, true),
        ("version 6, a fragment header", 1 << 6, 11, false),
        ("version 4, a routing header", 1 << 4, 10, false),
        ("no flag, a routing header", 0, 10, false),
    ];
    for (name, address_low, number, matches) in rows {
        let test = Test {
            kind: 26,
            number,
            address_low,
            ..ipv6_then(64, 65)
        };
        assert_same(
            &rt,
            name,
            filter(&[test]).matches(truncated.as_slice()),
            matches,
        );
        assert_same(
            &rt,
            (name, "whole"),
            filter(&[test]).matches(whole.as_slice()),
            false,
        );
    }
    Ok(())
}

/// A prefix that is too long has all bits of the address.
#[test]
fn prefixes_that_are_too_long(rt: HostRuntime) -> Result<(), Fail> {
    let bytes = ipv6_bytes(rt.alloc(), 0, 17, &[1, 2, 3, 4])?;
    for len in [129, 200, 255] {
        check(
            &rt,
            "IPv6",
            bytes.as_slice(),
            &[Term::Source(ipv6(1, len))],
            &[Term::Source(ipv6(0, len))],
        );
    }
    let bytes = ipv4_bytes(rt.alloc(), 0x45, 28, [0, 0], 17, &[1, 2, 3, 4, 5, 6, 7, 8])?;
    for len in [33, 200, 255] {
        check(
            &rt,
            "IPv4",
            bytes.as_slice(),
            &[Term::Source(ipv4(1, len))],
            &[Term::Source(ipv4(0, len))],
        );
    }
    Ok(())
}
