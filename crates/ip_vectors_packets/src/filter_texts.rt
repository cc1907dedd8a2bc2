//! The texts of filters: the tests of each are worked out by hand from the grammar, as is the place of each error.
use crate::checks::{assert_same, assert_that};
use ip_filter::{Expected, Filter, ParseError, Test};
use std::process::Abort;
use std::test::Fail;

/// Checks the tests of the filter that the text writes.
fn check(rt: &impl Abort, text: &str, tests: &[Test]) {
    let parsed = Filter::parse(text.as_bytes());
    assert_that(rt, text, parsed.is_ok());
    if let Ok(filter) = parsed {
        assert_that(rt, text, filter.used_tests() == tests);
    }
}

/// The index at which a packet has passed, and the one at which it has not.
const PASSED: u8 = 64;

const REFUSED: u8 = 65;

/// Returns the test of this kind with a number, and where it leads.
fn number(kind: u8, number: u64, if_met: u8, if_not: u8) -> Test {
    Test {
        number,
        address_high: 0,
        address_low: 0,
        kind,
        comparison: 0,
        version: 0,
        prefix_len: 0,
        if_met,
        if_not,
    }
}

/// Returns the test whether one of the flags is set, and where it leads.
fn flags(flags: u64, if_met: u8, if_not: u8) -> Test {
    number(1, flags, if_met, if_not)
}

/// Returns the last test, which compares a count.
fn count(kind: u8, comparison: u8, number: u64) -> Test {
    Test {
        number,
        address_high: 0,
        address_low: 0,
        kind,
        comparison,
        version: 0,
        prefix_len: 0,
        if_met: PASSED,
        if_not: REFUSED,
    }
}

/// Returns the last test, of addresses in a network.
fn network(kind: u8, version: u8, address: (u64, u64), prefix_len: u8) -> Test {
    Test {
        number: 0,
        address_high: address.0,
        address_low: address.1,
        kind,
        comparison: 0,
        version,
        prefix_len,
        if_met: PASSED,
        if_not: REFUSED,
    }
}

/// Returns the last test, of what follows the headers of a packet of this version.
fn of_version(version: u8, protocol: u64) -> Test {
    Test {
        version,
        ..number(27, protocol, PASSED, REFUSED)
    }
}

/// Returns the last test, of flags.
fn last(bits: u64) -> Test {
    flags(bits, PASSED, REFUSED)
}

#[test]
fn terms_of_headers(rt: HostRuntime) -> Result<(), Fail> {
    let rows = [
        ("header hop-by-hop", last(1)),
        ("header routing", last(1 << 43)),
        ("header fragment", last(1 << 44)),
        ("header authentication", last(1 << 51)),
        ("header destination-options", last(1 << 60)),
        ("leads-to routing", number(2, 43, PASSED, REFUSED)),
        ("header hopopt", last(1)),
        ("header route", last(1 << 43)),
        ("header 0x2C", last(1 << 44)),
        ("leads-to no-next", number(2, 59, PASSED, REFUSED)),
        ("leads-to ah", number(2, 51, PASSED, REFUSED)),
        ("leads-to 50", number(2, 50, PASSED, REFUSED)),
        ("leads-to 135", number(2, 135, PASSED, REFUSED)),
        ("leads-to 60", number(2, 60, PASSED, REFUSED)),
        ("leads-to 255", number(2, 255, PASSED, REFUSED)),
    ];
    for (text, wanted) in &rows {
        check(&rt, text, &[*wanted]);
    }
    Ok(())
}

#[test]
fn terms(rt: HostRuntime) -> Result<(), Fail> {
    let rows = [
        ("version 4", last(1 << 4)),
        ("version 6", last(1 << 6)),
        ("fragment", last(0x300)),
        ("first-fragment", last(0x100)),
        ("later-fragment", last(0x200)),
        ("truncated", last(0x800)),
        ("incomplete", last(0x400)),
        ("fault", last(0x1f000)),
        ("fault header-length", last(0x10000)),
        ("truncated IP-header", ports(26, 1, 0x800)),
        ("truncated IPv6-extension", ports(26, 7, 0x800)),
        ("truncated fragment", ports(26, 11, 0x800)),
        ("fault too-short routing", ports(26, 10, 0x1000)),
        ("fault not-at-start hop-by-hop", ports(26, 8, 0x2000)),
        ("fault header-length IPv4-header", ports(26, 2, 0x10000)),
        ("fault too-short IPv4-packet", ports(26, 3, 0x1000)),
        ("fault zero-length IPv6-extension", ports(26, 7, 0x4000)),
        ("headers<=3", count(3, 4, 3)),
        ("headers==3", count(3, 1, 3)),
        (
            "chain-bytes != 18446744073709551615",
            count(4, 2, 18_446_744_073_709_551_615),
        ),
        ("\tpayload >0\r\n", count(5, 5, 0)),
        ("spi 0xffffffff", number(6, 4_294_967_295, PASSED, REFUSED)),
        ("id 7", number(7, 7, PASSED, REFUSED)),
        ("src 10.0.0.0/8", network(8, 4, (0, 0x0a00_0000), 8)),
        ("dst 192.0.2.1", network(9, 4, (0, 0xc000_0201), 32)),
        (
            "net 2001:db8::/0",
            network(10, 6, (0x2001_0db8_0000_0000, 0), 0),
        ),
        (
            "net ::ffff:192.0.2.1",
            network(10, 6, (0, 0xffff_c000_0201), 128),
        ),
    ];
    for (text, wanted) in &rows {
        check(&rt, text, &[*wanted]);
    }
    Ok(())
}

/// Returns the last test, of ports in a range, of flags of TCP of which some count, or of flags by an error in a layer.
fn ports(kind: u8, first: u64, last: u64) -> Test {
    Test {
        address_low: last,
        ..number(kind, first, PASSED, REFUSED)
    }
}

#[test]
fn terms_of_fields_and_ports(rt: HostRuntime) -> Result<(), Fail> {
    let rows = [
        ("ip", last(1 << 4)),
        ("ip6", last(1 << 6)),
        ("tcp", number(2, 6, PASSED, REFUSED)),
        ("udp-lite", number(2, 136, PASSED, REFUSED)),
        ("leads-to sctp", number(2, 132, PASSED, REFUSED)),
        ("length >= 1280", count(11, 6, 1280)),
        ("hop-limit = 255", count(12, 1, 255)),
        ("ttl<2", count(12, 3, 2)),
        ("dscp != 0", count(13, 2, 0)),
        ("ecn = 3", count(14, 1, 3)),
        ("flow > 0xffff", count(15, 5, 65535)),
        ("src port 53", ports(16, 53, 53)),
        ("dst port 1024-65535", ports(17, 1024, 65535)),
        ("port 0-0x10", ports(18, 0, 16)),
        ("no-transport", number(19, 0, PASSED, REFUSED)),
        ("no-length", number(30, 0, PASSED, REFUSED)),
        ("icmp-type 128", number(20, 128, PASSED, REFUSED)),
        ("icmp-code 0", number(21, 0, PASSED, REFUSED)),
        ("icmp6-type 128", number(28, 128, PASSED, REFUSED)),
        ("icmp6-code 255", number(29, 255, PASSED, REFUSED)),
        ("icmp", of_version(4, 1)),
        ("icmp6", of_version(6, 58)),
        ("leads-to icmp", number(2, 1, PASSED, REFUSED)),
        ("leads-to icmp6", number(2, 58, PASSED, REFUSED)),
        ("option 0xc2", number(25, 194, PASSED, REFUSED)),
        ("routing-type 4", number(23, 4, PASSED, REFUSED)),
        ("segments-left>=2", count(24, 6, 2)),
        ("tcp-flags syn", ports(22, 2, 2)),
        ("tcp-flags cwr,ece,urg,ack", ports(22, 0xf0, 0xf0)),
        ("tcp-flags fin,fin", ports(22, 1, 1)),
        ("tcp-flags syn/syn,ack", ports(22, 2, 0x12)),
        ("tcp-flags rst,psh/fin,psh,rst", ports(22, 12, 13)),
        ("host 10.0.0.1", network(10, 4, (0, 0x0a00_0001), 32)),
        ("src ::1", network(8, 6, (0, 1), 128)),
    ];
    for (text, wanted) in &rows {
        check(&rt, text, &[*wanted]);
    }
    Ok(())
}

/// The names of libpcap's expressions, with the numbers of IANA's registry of ICMP types.
#[test]
fn names_of_icmp_types(rt: HostRuntime) -> Result<(), Fail> {
    let rows = [
        ("icmp-type icmp-echoreply", number(20, 0, PASSED, REFUSED)),
        ("icmp-type icmp-unreach", number(20, 3, PASSED, REFUSED)),
        (
            "icmp-type icmp-sourcequench",
            number(20, 4, PASSED, REFUSED),
        ),
        ("icmp-type icmp-redirect", number(20, 5, PASSED, REFUSED)),
        ("icmp-type icmp-echo", number(20, 8, PASSED, REFUSED)),
        (
            "icmp-type icmp-routeradvert",
            number(20, 9, PASSED, REFUSED),
        ),
        (
            "icmp-type icmp-routersolicit",
            number(20, 10, PASSED, REFUSED),
        ),
        ("icmp-type icmp-timxceed", number(20, 11, PASSED, REFUSED)),
        ("icmp-type icmp-paramprob", number(20, 12, PASSED, REFUSED)),
        ("icmp-type icmp-tstamp", number(20, 13, PASSED, REFUSED)),
        (
            "icmp-type icmp-tstampreply",
            number(20, 14, PASSED, REFUSED),
        ),
        ("icmp-type icmp-ireq", number(20, 15, PASSED, REFUSED)),
        ("icmp-type icmp-ireqreply", number(20, 16, PASSED, REFUSED)),
        ("icmp-type icmp-maskreq", number(20, 17, PASSED, REFUSED)),
        ("icmp-type icmp-maskreply", number(20, 18, PASSED, REFUSED)),
    ];
    for (text, wanted) in &rows {
        check(&rt, text, &[*wanted]);
    }
    Ok(())
}

/// The names of libpcap's expressions, with the numbers of IANA's registry of ICMPv6 types.
#[test]
fn names_of_icmp6_types(rt: HostRuntime) -> Result<(), Fail> {
    let rows = [
        (
            "icmp6-type icmp6-destinationunreach",
            number(28, 1, PASSED, REFUSED),
        ),
        (
            "icmp6-type icmp6-packettoobig",
            number(28, 2, PASSED, REFUSED),
        ),
        (
            "icmp6-type icmp6-timeexceeded",
            number(28, 3, PASSED, REFUSED),
        ),
        (
            "icmp6-type icmp6-parameterproblem",
            number(28, 4, PASSED, REFUSED),
        ),
        ("icmp6-type icmp6-echo", number(28, 128, PASSED, REFUSED)),
        (
            "icmp6-type icmp6-echoreply",
            number(28, 129, PASSED, REFUSED),
        ),
        (
            "icmp6-type icmp6-multicastlistenerquery",
            number(28, 130, PASSED, REFUSED),
        ),
        (
            "icmp6-type icmp6-multicastlistenerreportv1",
            number(28, 131, PASSED, REFUSED),
        ),
        (
            "icmp6-type icmp6-multicastlistenerdone",
            number(28, 132, PASSED, REFUSED),
        ),
        (
            "icmp6-type icmp6-routersolicit",
            number(28, 133, PASSED, REFUSED),
        ),
        (
            "icmp6-type icmp6-routeradvert",
            number(28, 134, PASSED, REFUSED),
        ),
        (
            "icmp6-type icmp6-neighborsolicit",
            number(28, 135, PASSED, REFUSED),
        ),
        (
            "icmp6-type icmp6-neighboradvert",
            number(28, 136, PASSED, REFUSED),
        ),
        (
            "icmp6-type icmp6-redirect",
            number(28, 137, PASSED, REFUSED),
        ),
        (
            "icmp6-type icmp6-routerrenum",
            number(28, 138, PASSED, REFUSED),
        ),
        (
            "icmp6-type icmp6-nodeinformationquery",
            number(28, 139, PASSED, REFUSED),
        ),
        (
            "icmp6-type icmp6-nodeinformationresponse",
            number(28, 140, PASSED, REFUSED),
        ),
        (
            "icmp6-type icmp6-ineighbordiscoverysolicit",
            number(28, 141, PASSED, REFUSED),
        ),
        (
            "icmp6-type icmp6-ineighbordiscoveryadvert",
            number(28, 142, PASSED, REFUSED),
        ),
        (
            "icmp6-type icmp6-multicastlistenerreportv2",
            number(28, 143, PASSED, REFUSED),
        ),
        (
            "icmp6-type icmp6-homeagentdiscoveryrequest",
            number(28, 144, PASSED, REFUSED),
        ),
        (
            "icmp6-type icmp6-homeagentdiscoveryreply",
            number(28, 145, PASSED, REFUSED),
        ),
        (
            "icmp6-type icmp6-mobileprefixsolicit",
            number(28, 146, PASSED, REFUSED),
        ),
        (
            "icmp6-type icmp6-mobileprefixadvert",
            number(28, 147, PASSED, REFUSED),
        ),
        (
            "icmp6-type icmp6-certpathsolicit",
            number(28, 148, PASSED, REFUSED),
        ),
        (
            "icmp6-type icmp6-certpathadvert",
            number(28, 149, PASSED, REFUSED),
        ),
        (
            "icmp6-type icmp6-multicastrouteradvert",
            number(28, 151, PASSED, REFUSED),
        ),
        (
            "icmp6-type icmp6-multicastroutersolicit",
            number(28, 152, PASSED, REFUSED),
        ),
        (
            "icmp6-type icmp6-multicastrouterterm",
            number(28, 153, PASSED, REFUSED),
        ),
    ];
    for (text, wanted) in &rows {
        check(&rt, text, &[*wanted]);
    }
    Ok(())
}

/// The flags of `fragment`, `fault` and `incomplete`.
const FRAGMENT: u64 = 0x300;

const FAULT: u64 = 0x1f000;

const INCOMPLETE: u64 = 0x400;

#[test]
fn formulas(rt: HostRuntime) -> Result<(), Fail> {
    let rows = [
        (
            "fragment or fault and incomplete",
            [flags(FRAGMENT, PASSED, 1), flags(FAULT, 2, REFUSED)],
        ),
        (
            "fragment and fault or incomplete",
            [flags(FRAGMENT, 1, 2), flags(FAULT, PASSED, 2)],
        ),
    ];
    for (text, first) in &rows {
        check(&rt, text, &[first[0], first[1], last(INCOMPLETE)]);
    }
    let not_fragment = flags(FRAGMENT, REFUSED, 1);
    check(&rt, "not fragment and fault", &[not_fragment, last(FAULT)]);
    let both = [flags(FRAGMENT, 1, PASSED), flags(FAULT, REFUSED, PASSED)];
    check(&rt, "not (fragment and fault)", &both);
    check(&rt, "!not!(! fragment)", &[last(FRAGMENT)]);
    let deep = "((((((((((((((((fragment))))))))))))))))";
    check(&rt, deep, &[last(FRAGMENT)]);
    Ok(())
}

#[test]
fn masks_are_joined(rt: HostRuntime) -> Result<(), Fail> {
    let rows = [
        ("fragment or fault or incomplete", last(0x1f700)),
        ("!(!fragment&&!fault)||incomplete", last(0x1f700)),
        (
            "not fragment and not fault",
            flags(0x1f300, REFUSED, PASSED),
        ),
        ("not (fragment or fault)", flags(0x1f300, REFUSED, PASSED)),
        ("header 43 or header 44", last(3 << 43)),
    ];
    for (text, wanted) in &rows {
        check(&rt, text, &[*wanted]);
    }
    let either = flags(FRAGMENT | FAULT, 1, REFUSED);
    let text = "(fragment or fault)and incomplete";
    check(&rt, text, &[either, last(INCOMPLETE)]);
    Ok(())
}

#[test]
fn flags_come_first(rt: HostRuntime) -> Result<(), Fail> {
    let id = number(7, 7, PASSED, REFUSED);
    let rows = [
        ("id 7 and fault", flags(FAULT, 1, REFUSED)),
        ("id 7 and not fault", flags(FAULT, REFUSED, 1)),
        ("id 7 or fault", flags(FAULT, PASSED, 1)),
        ("id 7 or not fault", flags(FAULT, 1, PASSED)),
        (
            "id 7 and not (fragment or fault)",
            flags(0x1f300, REFUSED, 1),
        ),
        ("id 7 or fragment or fault", flags(0x1f300, PASSED, 1)),
        ("fragment or id 7 or fault", flags(0x1f300, PASSED, 1)),
    ];
    for (text, first) in &rows {
        check(&rt, text, &[*first, id]);
    }
    let moved = [
        flags(1 << 4, PASSED, 1),
        flags(FAULT, REFUSED, 2),
        number(7, 7, 3, REFUSED),
        number(6, 5, PASSED, REFUSED),
    ];
    check(&rt, "id 7 and not fault and spi 5 or ip", &moved);
    Ok(())
}

/// Checks where the text is refused, and what is expected there.
fn check_error(rt: &impl Abort, text: &str, offset: usize, expected: Expected) {
    let error = ParseError { offset, expected };
    assert_that(rt, text, Filter::parse(text.as_bytes()) == Err(error));
}

#[test]
fn first_errors(rt: HostRuntime) -> Result<(), Fail> {
    let rows = [
        ("", 0, Expected::Operand),
        ("  ", 2, Expected::Operand),
        ("Fragment", 0, Expected::Operand),
        ("fragment and ", 13, Expected::Operand),
        ("fragment or or fault", 12, Expected::Operand),
        ("not", 3, Expected::Operand),
        ("fragment fault", 9, Expected::OperatorOrEnd),
        ("fragment & fault", 9, Expected::OperatorOrEnd),
        ("fragment)", 8, Expected::OperatorOrEnd),
        ("fault too-shrt", 6, Expected::OperatorOrEnd),
        ("fault routing", 6, Expected::OperatorOrEnd),
        ("fault too-short Routing", 16, Expected::OperatorOrEnd),
        ("truncated too-short", 10, Expected::OperatorOrEnd),
        ("truncated fragment routing", 19, Expected::OperatorOrEnd),
        ("(fragment", 9, Expected::OperatorOrClose),
        ("(fragment fault)", 10, Expected::OperatorOrClose),
        (
            "(((((((((((((((((fragment)))))))))))))))))",
            16,
            Expected::LessNesting,
        ),
    ];
    for (text, offset, expected) in &rows {
        check_error(&rt, text, *offset, *expected);
    }
    Ok(())
}

#[test]
fn errors_in_arguments(rt: HostRuntime) -> Result<(), Fail> {
    let rows = [
        ("version 5", 8, Expected::Version),
        ("header", 6, Expected::Header),
        ("header 256", 7, Expected::Header),
        ("header 010", 7, Expected::Header),
        ("header 50", 7, Expected::Header),
        ("fault or header 0x87", 16, Expected::Header),
        ("header 4", 7, Expected::Header),
        ("header 59", 7, Expected::Header),
        ("header 255", 7, Expected::Header),
        ("header esp", 7, Expected::Header),
        ("header tcp", 7, Expected::Header),
        ("leads-to +6", 9, Expected::Protocol),
        ("headers 3", 8, Expected::Comparison),
        ("headers = = 3", 10, Expected::Count),
        ("payload > 18446744073709551616", 10, Expected::Count),
        ("spi 4294967296", 4, Expected::Number),
        ("id 0x", 3, Expected::Number),
        ("src 10.0.0.0/33", 4, Expected::NetworkOrPort),
        ("dst host", 8, Expected::Address),
        ("src or", 6, Expected::Destination),
        ("dst and dst port 1", 8, Expected::Source),
        ("src or src 10.0.0.1", 7, Expected::Destination),
        ("tcp dst or not src port 1", 11, Expected::Source),
        ("src or dst", 10, Expected::NetworkOrPort),
        ("src and dst and", 12, Expected::NetworkOrPort),
        ("src and dst proto 6", 12, Expected::NetworkOrPort),
        ("src or dst or port 1", 11, Expected::NetworkOrPort),
        ("src and dst host ::/1", 17, Expected::Address),
        ("tcp multicast", 4, Expected::OperatorOrEnd),
        ("multicast", 0, Expected::Operand),
        ("ip multicast 1", 13, Expected::OperatorOrEnd),
        ("ip multicast or 10.0.0.1", 16, Expected::Operand),
        ("src port or", 9, Expected::Ports),
        ("dst proto 6", 4, Expected::NetworkOrPort),
        ("tcp src net", 11, Expected::Network),
        ("src host 10.0.0.0/8", 9, Expected::Address),
        ("portrange 2-1", 10, Expected::Ports),
        ("ip proto", 8, Expected::Protocol),
        ("proto 256", 6, Expected::Protocol),
        ("src port", 8, Expected::Ports),
        ("dst port 65536", 9, Expected::Ports),
        ("port 2-1", 5, Expected::Ports),
        ("port 1-", 5, Expected::Ports),
        ("port 1-2-3", 5, Expected::Ports),
        ("net port 1", 4, Expected::Network),
        ("host 10.0.0.0/8", 5, Expected::Address),
        ("icmp-type 256", 10, Expected::IcmpType),
        ("icmp-type icmp6-echo", 10, Expected::IcmpType),
        ("icmp6-type 256", 11, Expected::Icmp6Type),
        ("icmp6-type echo", 11, Expected::Icmp6Type),
        ("icmp-code 256", 10, Expected::Byte),
        ("icmp6-code", 10, Expected::Byte),
        ("option 256", 7, Expected::Byte),
        ("routing-type 256", 13, Expected::Byte),
        ("segments-left", 13, Expected::Comparison),
        ("segments-left = x", 16, Expected::Count),
        ("tcp-flags", 9, Expected::TcpFlags),
        ("tcp-flags SYN", 10, Expected::TcpFlags),
        ("tcp-flags syn,", 10, Expected::TcpFlags),
        ("tcp-flags ,syn", 10, Expected::TcpFlags),
        ("tcp-flags syn/", 10, Expected::TcpFlags),
        ("tcp-flags /syn", 10, Expected::TcpFlags),
        ("tcp-flags fin/syn", 10, Expected::TcpFlags),
        ("tcp-flags syn/syn/syn", 10, Expected::TcpFlags),
        ("tcp-flags syn ack", 14, Expected::OperatorOrEnd),
        ("ttl 1", 4, Expected::Comparison),
        ("tcp port", 8, Expected::Ports),
        ("tcp port and udp", 9, Expected::Ports),
        ("tcp 443", 4, Expected::OperatorOrEnd),
        ("tcp udp port 443", 4, Expected::OperatorOrEnd),
        ("tcp port 443 80", 13, Expected::OperatorOrEnd),
        ("net 2001:db8::/129", 4, Expected::Network),
        ("net 256", 4, Expected::Network),
        ("net 010", 4, Expected::Network),
        ("net 10.", 4, Expected::Network),
        ("net 192.168.1.", 4, Expected::Network),
        ("net 1.2.3.4.5", 4, Expected::Network),
        ("net 10.1/33", 4, Expected::Network),
        ("src 192.168", 4, Expected::NetworkOrPort),
        ("host 192.168", 5, Expected::Address),
        ("net 10.0.0.0 mask", 17, Expected::Mask),
        ("net 10 mask 255.0.255.0", 12, Expected::Mask),
        ("net 10 mask 0.255.0.0", 12, Expected::Mask),
        ("net 10 mask 255.0.0.1", 12, Expected::Mask),
        ("net 10 mask 255.0.0.0/8", 12, Expected::Mask),
        ("net 10 mask ffff::", 12, Expected::Mask),
        ("net 10 mask mask", 12, Expected::Mask),
        ("net 10.0.0.0/8 mask 255.0.0.0", 15, Expected::OperatorOrEnd),
        ("net ::1 mask 255.0.0.0", 8, Expected::OperatorOrEnd),
        ("net mask 255.0.0.0", 4, Expected::Network),
        ("src 10.0.0.0 mask 255.0.0.0", 13, Expected::OperatorOrEnd),
        ("host 10.0.0.0 mask 255.0.0.0", 14, Expected::OperatorOrEnd),
        ("net 10 or 11 mask 255.0.0.0", 13, Expected::OperatorOrEnd),
        ("(net 10 mask 255 255", 17, Expected::OperatorOrClose),
    ];
    for (text, offset, expected) in &rows {
        check_error(&rt, text, *offset, *expected);
    }
    Ok(())
}

#[test]
fn sixty_five_terms(rt: HostRuntime) -> Result<(), Fail> {
    let mut text = String::new(rt.alloc());
    for _ in 0..63 {
        text.push_str("id 7 or ")?;
    }
    text.push_str("id 7")?;
    let parsed = Filter::parse(text.as_bytes());
    assert_that(&rt, "64 terms", parsed.is_ok());
    if let Ok(filter) = parsed {
        assert_same(&rt, "64 terms", filter.count, 64);
    }
    text.push_str(" or fault")?;
    let error = ParseError {
        offset: 509,
        expected: Expected::FewerTerms,
    };
    let refused = Filter::parse(text.as_bytes());
    assert_that(&rt, "65 terms", refused == Err(error));
    Ok(())
}

#[test]
fn primitives(rt: HostRuntime) -> Result<(), Fail> {
    let rows = [
        ("tcp port 443", "(tcp and port 443)"),
        ("not udp dst port 53", "not (udp and dst port 53)"),
        ("ip host 192.0.2.1", "(ip and host 192.0.2.1)"),
        ("ip6 net 2001:db8::/32", "(ip6 and net 2001:db8::/32)"),
        ("icmp src 192.0.2.1", "(icmp and src 192.0.2.1)"),
        ("src host 192.0.2.1", "src 192.0.2.1"),
        ("dst net 10.0.0.0/8", "dst 10.0.0.0/8"),
        ("src portrange 1-1023", "src port 1-1023"),
        ("portrange 1-1023", "port 1-1023"),
        ("sctp portrange 1-9", "(sctp and port 1-9)"),
        ("proto 17", "leads-to 17"),
        ("proto ospf or udp", ""),
        ("proto gre", "leads-to 47"),
        ("ip proto 2", "(ip and leads-to 2)"),
        ("proto 44", "(header 44 or leads-to 44)"),
        ("ip6 proto 44", "(ip6 and (header 44 or leads-to 44))"),
        ("proto ah", "(header 51 or leads-to 51)"),
        ("src or dst port 53", "port 53"),
        ("dst || src host 192.0.2.1", "net 192.0.2.1"),
        ("tcp src or dst portrange 1-9", "(tcp and port 1-9)"),
        ("src and dst port 53", "(src port 53 and dst port 53)"),
        (
            "not dst && src 10.0.0.0/8",
            "not (src 10.0.0.0/8 and dst 10.0.0.0/8)",
        ),
        (
            "udp src and dst port 53",
            "(udp and (src port 53 and dst port 53))",
        ),
        ("ip multicast", "dst 224.0.0.0/3"),
        ("net 10", "net 10.0.0.0/8"),
        ("src net 192.168", "src 192.168.0.0/16"),
        (
            "ip net 192.168.1 or 0",
            "(ip and net 192.168.1.0/24) or (ip and net 0.0.0.0/8)",
        ),
        ("net 192.168/12", "net 192.168.0.0/12"),
        ("net 0xa.1", "net 10.1.0.0/16"),
        ("net 10.0.0.0 mask 255.0.0.0", "net 10.0.0.0/8"),
        ("net 192.168.16 mask 255.255.240", "net 192.168.16.0/20"),
        ("src net 10 mask 255.128.0.0", "src 10.0.0.0/9"),
        ("dst net 0.0.0.0 mask 0.0.0.0", "dst 0.0.0.0/0"),
        ("net 192.0.2.1 mask 255.255.255.255", "net 192.0.2.1"),
        ("net 192.0.2.0 mask 255.255.255.254", "net 192.0.2.0/31"),
        ("net 128.0.0.0 mask 128.0.0.0", "net 128.0.0.0/1"),
        (
            "src and dst net 10.0.0.0 mask 255.0.0.0",
            "(src 10.0.0.0/8 and dst 10.0.0.0/8)",
        ),
        (
            "ip dst net 10 mask 255.0.0.0 or 11",
            "(ip and dst 10.0.0.0/8) or (ip and dst 11.0.0.0/8)",
        ),
        ("ip6 multicast and udp", "dst ff00::/8 and udp"),
    ];
    for (text, longer) in &rows {
        check_alike(&rt, text, longer);
    }
    Ok(())
}

/// Checks that the filters of two texts are the same one, or that the first text is none if the second is empty.
fn check_alike(rt: &impl Abort, text: &str, longer: &str) {
    let parsed = Filter::parse(text.as_bytes());
    assert_that(rt, text, parsed.is_ok() != longer.is_empty());
    if let Ok(filter) = parsed {
        assert_that(rt, longer, Filter::parse(longer.as_bytes()) == Ok(filter));
    }
}

#[test]
fn identifiers_alone(rt: HostRuntime) -> Result<(), Fail> {
    let rows = [
        ("port 80 or 443", "port 80 or port 443"),
        (
            "tcp port 80 or 443",
            "(tcp and port 80) or (tcp and port 443)",
        ),
        (
            "src host 192.0.2.1 or 192.0.2.2",
            "src 192.0.2.1 or src 192.0.2.2",
        ),
        (
            "host 192.0.2.1 and not 192.0.2.2",
            "host 192.0.2.1 and not host 192.0.2.2",
        ),
        (
            "port 80 and (443 or 22)",
            "port 80 and (port 443 or port 22)",
        ),
        ("(port 80 or fault) or 443", ""),
        (
            "(fault or port 80) && 443",
            "(fault or port 80) and port 443",
        ),
        (
            "dst 10.0.0.0/8 or ::1 or 2001:db8::/32",
            "dst 10.0.0.0/8 or dst ::1 or dst 2001:db8::/32",
        ),
        ("proto 6 or 17", "leads-to 6 or leads-to 17"),
        (
            "udp port 53 and src 192.0.2.1 or 192.0.2.2",
            "(udp and port 53) and src 192.0.2.1 or src 192.0.2.2",
        ),
        ("port 80 or tcp or 443", ""),
        ("port 80 or 10.0.0.1", ""),
        ("host 10.0.0.1 or 443", ""),
        ("fault or 443", ""),
        ("443", ""),
        ("length > 100 or 200", ""),
        ("header 44 or 60", ""),
    ];
    for (text, longer) in &rows {
        check_alike(&rt, text, longer);
    }
    check_error(&rt, "port 80 or 10.0.0.1", 11, Expected::Operand);
    check_error(&rt, "port 80 or tcp or 443", 18, Expected::Operand);
    check_error(&rt, "port 80 or (", 12, Expected::Operand);
    Ok(())
}

#[test]
fn primitives_of_several_terms(rt: HostRuntime) -> Result<(), Fail> {
    let mut text = String::new(rt.alloc());
    for _ in 0..62 {
        text.push_str("id 7 or ")?;
    }
    text.push_str("tcp ")?;
    text.push_str("port 80")?;
    assert_that(&rt, "64 terms", Filter::parse(text.as_bytes()).is_ok());
    text.push_str(" or 443")?;
    check_error(&rt, &text, 508, Expected::FewerTerms);
    let mut both = String::new(rt.alloc());
    for _ in 0..62 {
        both.push_str("id 7 or ")?;
    }
    both.push_str("src and dst port 1")?;
    assert_that(&rt, "64 terms", Filter::parse(both.as_bytes()).is_ok());
    let mut more = String::new(rt.alloc());
    for _ in 0..63 {
        more.push_str("id 7 or ")?;
    }
    let rows = [
        ("tcp", 507, true),
        ("proto 6", 510, true),
        ("tcp port 80", 508, false),
        ("proto 44", 510, false),
        ("src or dst port 80", 511, true),
        ("src and dst port 80", 508, false),
        ("src and udp", 508, false),
        ("tcp src or dst port 80", 508, false),
    ];
    for (primitive, offset, fits) in &rows {
        let mut text = more.clone()?;
        text.push_str(primitive)?;
        assert_that(
            &rt,
            primitive,
            Filter::parse(text.as_bytes()).is_ok() == *fits,
        );
        if !*fits {
            check_error(&rt, &text, *offset, Expected::FewerTerms);
        }
    }
    Ok(())
}
