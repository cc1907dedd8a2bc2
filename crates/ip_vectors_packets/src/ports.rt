//! Ports, types of ICMP and fields of base headers: what filters say of packets, worked out by hand from RFC 768, RFC 791,
//! RFC 792, RFC 4443, RFC 8200 and RFC 9293.
use crate::checks::assert_same;
use crate::samples::{ipv4_bytes, ipv6_bytes};
use ip_filter::Filter;
use std::process::Abort;
use std::test::Fail;

/// Checks what each formula says of the packet.
fn check(rt: &impl Abort, name: &str, bytes: &[u8], holding: &[&str], others: &[&str]) {
    for text in holding {
        let found = Filter::parse(text.as_bytes()).map(|filter| filter.matches(bytes));
        assert_same(rt, (name, text), found, Ok(true));
    }
    for text in others {
        let found = Filter::parse(text.as_bytes()).map(|filter| filter.matches(bytes));
        assert_same(rt, (name, text), found, Ok(false));
    }
}

/// Ports 443 and 50,000, as far as `len`.
fn ports(len: usize) -> &'static [u8] {
    const PORTS: [u8; 8] = [0x01, 0xbb, 0xc3, 0x50, 0, 8, 0, 0];
    PORTS.get(..len).unwrap_or(&[])
}

#[test]
fn protocols_with_ports(rt: HostRuntime) -> Result<(), Fail> {
    for protocol in [6, 17, 33, 132, 136] {
        let bytes = ipv6_bytes(rt.alloc(), 8, protocol, ports(8))?;
        let holding = ["src port 443", "dst port 50000", "port 443", "port 400-500"];
        let others = ["src port 50000", "dst port 443", "port 444-49999"];
        check(&rt, "ports", bytes.as_slice(), &holding, &others);
    }
    for protocol in [1, 47, 50, 58, 59, 135] {
        let bytes = ipv6_bytes(rt.alloc(), 8, protocol, ports(8))?;
        let others = ["port 0-65535", "src port 443"];
        check(&rt, "no ports", bytes.as_slice(), &[], &others);
    }
    Ok(())
}

#[test]
fn ports_follow_extension_headers(rt: HostRuntime) -> Result<(), Fail> {
    let alloc = rt.alloc();
    let options = [6, 0, 1, 4, 0, 0, 0, 0, 0x01, 0xbb, 0xc3, 0x50];
    let bytes = ipv6_bytes(alloc, 12, 0, &options)?;
    let holding = ["src port 443 and dst port 50000", "tcp"];
    check(&rt, "options", bytes.as_slice(), &holding, &["port 1540"]);
    let auth = [6, 1, 0, 80, 0, 0, 1, 2, 0, 0, 0, 3, 0x01, 0xbb, 0xc3, 0x50];
    let bytes = ipv4_bytes(alloc, 0x45, 36, [0, 0], 51, &auth)?;
    let others = ["port 80", "port 1537", "port 258"];
    check(&rt, "authentication", bytes.as_slice(), &holding, &others);
    let options = [1, 1, 1, 1, 0x01, 0xbb, 0xc3, 0x50];
    let bytes = ipv4_bytes(alloc, 0x46, 28, [0, 0], 17, &options)?;
    check(
        &rt,
        "IPv4 options",
        bytes.as_slice(),
        &["port 443"],
        &["port 257"],
    );
    Ok(())
}

#[test]
fn ports_of_fragments(rt: HostRuntime) -> Result<(), Fail> {
    let alloc = rt.alloc();
    let first = [17, 0, 0, 1, 0, 0, 0, 9, 0x01, 0xbb, 0xc3, 0x50, 0, 8, 0, 0];
    let bytes = ipv6_bytes(alloc, 16, 44, &first)?;
    check(
        &rt,
        "first",
        bytes.as_slice(),
        &["src port 443 and first-fragment"],
        &["dst port 443"],
    );
    let later = [17, 0, 0, 8, 0, 0, 0, 9, 0x01, 0xbb, 0xc3, 0x50, 0, 8, 0, 0];
    let bytes = ipv6_bytes(alloc, 16, 44, &later)?;
    let others = ["port 0-65535"];
    check(
        &rt,
        "last",
        bytes.as_slice(),
        &["udp and later-fragment"],
        &others,
    );
    let bytes = ipv4_bytes(alloc, 0x45, 28, [0, 1], 17, ports(8))?;
    check(&rt, "IPv4, last", bytes.as_slice(), &["udp"], &others);
    Ok(())
}

#[test]
fn ports_that_are_missing(rt: HostRuntime) -> Result<(), Fail> {
    let alloc = rt.alloc();
    for len in 0..2 {
        let bytes = ipv6_bytes(alloc, 8, 6, ports(len))?;
        check(&rt, "none", bytes.as_slice(), &["tcp"], &["port 0-65535"]);
    }
    for len in 2..4 {
        let bytes = ipv6_bytes(alloc, 8, 6, ports(len))?;
        let holding = ["src port 443 and port 443"];
        check(
            &rt,
            "source alone",
            bytes.as_slice(),
            &holding,
            &["dst port 0-65535"],
        );
    }
    let bytes = ipv6_bytes(alloc, 4, 17, ports(4))?;
    check(
        &rt,
        "both",
        bytes.as_slice(),
        &["dst port 50000"],
        &["dst port 443"],
    );
    let bytes = ipv6_bytes(alloc, 3, 17, ports(8))?;
    check(
        &rt,
        "padding",
        bytes.as_slice(),
        &["src port 443"],
        &["dst port 50000"],
    );
    let truncated = ipv6_bytes(alloc, 24, 43, &[17, 2, 0, 0])?;
    let others = ["port 0-65535", "udp"];
    check(&rt, "truncated", truncated.as_slice(), &[], &others);
    Ok(())
}

#[test]
fn icmp_messages(rt: HostRuntime) -> Result<(), Fail> {
    let alloc = rt.alloc();
    let message = [3, 4, 0, 0, 0, 0, 0, 0];
    let bytes = ipv4_bytes(alloc, 0x45, 28, [0, 0], 1, &message)?;
    let holding = ["icmp and icmp-type 3 and icmp-code 4"];
    let others = [
        "icmp-type 4",
        "icmp-code 3",
        "icmp6",
        "icmp6-type 3",
        "icmp6-code 4",
    ];
    check(&rt, "ICMP", bytes.as_slice(), &holding, &others);
    let bytes = ipv6_bytes(alloc, 8, 58, &message)?;
    let holding = ["icmp6 and icmp6-type 3 and icmp6-code 4"];
    let others = [
        "icmp6-type 4",
        "icmp6-code 3",
        "icmp",
        "icmp-type 3",
        "icmp-code 4",
    ];
    check(&rt, "ICMPv6", bytes.as_slice(), &holding, &others);
    let bytes = ipv4_bytes(alloc, 0x45, 21, [0, 0], 1, &message)?;
    check(
        &rt,
        "a type",
        bytes.as_slice(),
        &["icmp-type 3"],
        &["icmp-code 4"],
    );
    let bytes = ipv4_bytes(alloc, 0x45, 28, [0, 1], 1, &message)?;
    check(
        &rt,
        "last",
        bytes.as_slice(),
        &["icmp"],
        &["icmp-type 3", "icmp-code 4"],
    );
    let bytes = ipv4_bytes(alloc, 0x45, 28, [0, 0], 6, &message)?;
    check(
        &rt,
        "TCP",
        bytes.as_slice(),
        &["tcp"],
        &["icmp-type 3", "icmp-code 4"],
    );
    Ok(())
}

/// ICMP of the other version: a type of one would be another type of the other (RFC 792; RFC 4443, section 2.1).
#[test]
fn icmp_of_the_other_version(rt: HostRuntime) -> Result<(), Fail> {
    let alloc = rt.alloc();
    let message = [3, 4, 0, 0, 0, 0, 0, 0];
    let others = [
        "icmp",
        "icmp6",
        "icmp-type 3",
        "icmp-code 4",
        "icmp6-type 3",
        "icmp6-code 4",
    ];
    let bytes = ipv6_bytes(alloc, 8, 1, &message)?;
    check(
        &rt,
        "ICMP in IPv6",
        bytes.as_slice(),
        &["leads-to icmp and not icmp"],
        &others,
    );
    let options = [1, 0, 1, 4, 0, 0, 0, 0, 3, 4, 0, 0];
    let bytes = ipv6_bytes(alloc, 12, 60, &options)?;
    check(
        &rt,
        "ICMP after options",
        bytes.as_slice(),
        &["leads-to 1 and header dstopts"],
        &others,
    );
    let bytes = ipv4_bytes(alloc, 0x45, 28, [0, 0], 58, &message)?;
    check(
        &rt,
        "ICMPv6 in IPv4",
        bytes.as_slice(),
        &["leads-to icmp6"],
        &others,
    );
    let options = [58, 0, 1, 4, 0, 0, 0, 0, 128, 0, 0, 0];
    let bytes = ipv6_bytes(alloc, 12, 60, &options)?;
    check(
        &rt,
        "ICMPv6 after options",
        bytes.as_slice(),
        &["icmp6 and icmp6-type 128 and icmp6-code 0"],
        &["icmp", "icmp-type 128", "icmp6-type 1"],
    );
    let bytes = ipv6_bytes(
        alloc,
        16,
        44,
        &[58, 0, 0, 8, 0, 0, 0, 9, 3, 4, 0, 0, 0, 0, 0, 0],
    )?;
    check(
        &rt,
        "ICMPv6, last",
        bytes.as_slice(),
        &["icmp6 and later-fragment"],
        &["icmp6-type 3", "icmp6-code 4"],
    );
    Ok(())
}

/// The security parameters index of ESP is its first 4 bytes (RFC 4303, section 2.1).
#[test]
fn indices_of_esp(rt: HostRuntime) -> Result<(), Fail> {
    let alloc = rt.alloc();
    let esp = [1, 2, 3, 4, 0, 0, 0, 5];
    let others = ["spi 5", "spi 0", "spi 258"];
    let bytes = ipv4_bytes(alloc, 0x45, 28, [0, 0], 50, &esp)?;
    check(&rt, "IPv4", bytes.as_slice(), &["spi 0x01020304"], &others);
    let auth = [50, 1, 0, 80, 0, 0, 1, 2, 0, 0, 0, 3, 1, 2, 3, 4];
    let bytes = ipv6_bytes(alloc, 16, 51, &auth)?;
    let holding = ["spi 258 and spi 0x01020304"];
    check(&rt, "both", bytes.as_slice(), &holding, &["spi 3"]);
    let options = [50, 0, 1, 4, 0, 0, 0, 0, 1, 2, 3];
    let bytes = ipv6_bytes(alloc, 11, 60, &options)?;
    let others = ["spi 0x010203", "spi 0x01020300"];
    check(&rt, "3 bytes", bytes.as_slice(), &["esp"], &others);
    let first = [50, 0, 0, 1, 0, 0, 0, 9, 1, 2, 3, 4, 0, 0, 0, 5];
    let bytes = ipv6_bytes(alloc, 16, 44, &first)?;
    check(
        &rt,
        "first",
        bytes.as_slice(),
        &["spi 0x01020304 and first-fragment"],
        &["spi 9"],
    );
    let last = [50, 0, 0, 8, 0, 0, 0, 9, 1, 2, 3, 4, 0, 0, 0, 5];
    let bytes = ipv6_bytes(alloc, 16, 44, &last)?;
    check(
        &rt,
        "last",
        bytes.as_slice(),
        &["esp"],
        &["spi 0x01020304", "spi 9"],
    );
    let bytes = ipv6_bytes(alloc, 8, 17, &esp)?;
    check(&rt, "UDP", bytes.as_slice(), &["udp"], &["spi 0x01020304"]);
    Ok(())
}

#[test]
fn fields_of_base_headers(rt: HostRuntime) -> Result<(), Fail> {
    let alloc = rt.alloc();
    let mut ipv6 = [0; 48];
    ipv6[0] = 0x6b;
    ipv6[1] = 0x9c;
    ipv6[2] = 0xde;
    ipv6[3] = 0xf1;
    ipv6[5] = 8;
    ipv6[6] = 59;
    ipv6[7] = 64;
    let holding = [
        "dscp = 46 and ecn = 1",
        "flow = 0xcdef1",
        "hop-limit = 64",
        "length = 48 and ip6",
    ];
    let others = ["ttl != 64", "length < 48", "dscp > 46"];
    check(&rt, "IPv6", &ipv6, &holding, &others);
    let mut ipv4 = [0; 28];
    ipv4[0] = 0x45;
    ipv4[1] = 0xba;
    ipv4[3] = 28;
    ipv4[8] = 1;
    ipv4[9] = 59;
    let holding = ["dscp = 46 and ecn = 2", "ttl = 1", "length = 28 and ip"];
    let others = ["flow >= 0", "hop-limit > 1"];
    check(&rt, "IPv4", &ipv4, &holding, &others);
    check(
        &rt,
        "no header",
        &[],
        &["truncated"],
        &["length >= 0", "ttl >= 0", "dscp >= 0", "ecn >= 0"],
    );
    Ok(())
}
