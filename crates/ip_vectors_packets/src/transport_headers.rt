//! Which packets lack the header of their upper layer, worked out by hand from RFC 768, RFC 792, RFC 1858, RFC 3828,
//! RFC 4340, RFC 4443, RFC 7112, RFC 7113, RFC 9260 and RFC 9293.
use crate::checks::assert_same;
use crate::samples::{ipv4_bytes, ipv6_bytes};
use ip_filter::Filter;
use std::alloc::Global;
use std::process::Abort;
use std::test::Fail;

/// Checks whether `no-transport` holds of the packet.
fn check(rt: &impl Abort, name: &str, bytes: &[u8], lacks: bool) {
    let found = Filter::parse(b"no-transport".as_slice()).map(|filter| filter.matches(bytes));
    assert_same(rt, name, found, Ok(lacks));
}

/// A header of 48 bytes in which byte 4 is the data offset of DCCP, the low bit of byte 8 its X, and the high half of byte
/// 12 the data offset of TCP.
fn header(dccp: u8, extended: u8, tcp: u8) -> [u8; 48] {
    [
        0x01,
        0xbb,
        0xc3,
        0x50,
        dccp,
        0,
        0,
        0,
        extended,
        0,
        0,
        0,
        tcp << 4,
        2,
        0,
        0,
        0,
        0,
        0,
        0,
        0,
        0,
        0,
        0,
        0,
        0,
        0,
        0,
        0,
        0,
        0,
        0,
        0,
        0,
        0,
        0,
        0,
        0,
        0,
        0,
        0,
        0,
        0,
        0,
        0,
        0,
        0,
        0,
    ]
}

/// Checks how many bytes of the header are needed after an IPv6 base header: with one fewer, `no-transport` holds.
fn check_len(
    rt: &impl Abort,
    alloc: Global,
    protocol: u8,
    header: &[u8; 48],
    needed: usize,
) -> Result<(), Fail> {
    for len in 0..header.len() {
        let start = header.get(..len).unwrap_or(&[]);
        let bytes = ipv6_bytes(alloc, len as u16, protocol, start)?;
        check(rt, "header", bytes.as_slice(), len < needed);
    }
    Ok(())
}

#[test]
fn length_of_each_header(rt: HostRuntime) -> Result<(), Fail> {
    let plain = header(0, 0, 0);
    for (protocol, needed) in [
        (17, 8),
        (136, 8),
        (132, 12),
        (58, 4),
        (47, 0),
        (50, 0),
        (59, 0),
    ] {
        check_len(&rt, rt.alloc(), protocol, &plain, needed)?;
    }
    for (offset, needed) in [(5, 20), (6, 24), (8, 32)] {
        check_len(&rt, rt.alloc(), 6, &header(0, 0, offset), needed)?;
    }
    for (offset, extended, needed) in [
        (3, 0, 12),
        (4, 0, 16),
        (4, 1, 16),
        (5, 1, 20),
        (3, 14, 12),
    ] {
        check_len(&rt, rt.alloc(), 33, &header(offset, extended, 0), needed)?;
    }
    Ok(())
}

#[test]
fn data_offsets_that_are_too_small(rt: HostRuntime) -> Result<(), Fail> {
    for offset in 0..5 {
        let bytes = ipv6_bytes(rt.alloc(), 48, 6, &header(0, 0, offset))?;
        check(&rt, "TCP", bytes.as_slice(), true);
    }
    for (offset, extended) in [(0, 0), (2, 0), (2, 1), (3, 1)] {
        let bytes = ipv6_bytes(rt.alloc(), 48, 33, &header(offset, extended, 0))?;
        check(&rt, "DCCP", bytes.as_slice(), true);
    }
    Ok(())
}

#[test]
fn messages_of_each_version(rt: HostRuntime) -> Result<(), Fail> {
    let alloc = rt.alloc();
    let message = [8, 0, 0, 0, 0, 1, 0];
    let bytes = ipv4_bytes(alloc, 0x45, 27, [0, 0], 1, &message)?;
    check(&rt, "7 bytes of ICMP", bytes.as_slice(), true);
    let bytes = ipv4_bytes(alloc, 0x45, 28, [0, 0], 1, &[8, 0, 0, 0, 0, 1, 0, 0])?;
    check(&rt, "8 bytes of ICMP", bytes.as_slice(), false);
    let bytes = ipv4_bytes(alloc, 0x45, 20, [0, 0], 58, &[])?;
    check(&rt, "58 in IPv4", bytes.as_slice(), false);
    let bytes = ipv6_bytes(alloc, 0, 1, &[])?;
    check(&rt, "1 in IPv6", bytes.as_slice(), false);
    Ok(())
}

/// The fragments that get past a filter which needs a port or a type.
#[test]
fn fragments_without_their_header(rt: HostRuntime) -> Result<(), Fail> {
    let alloc = rt.alloc();
    let tiny = [0x01, 0xbb, 0xc3, 0x50, 0, 0, 0, 1];
    let bytes = ipv4_bytes(alloc, 0x45, 28, [0x20, 0], 6, &tiny)?;
    check(&rt, "tiny, RFC 1858, section 3", bytes.as_slice(), true);
    let tiny = [6, 0, 0, 1, 0, 0, 0, 9, 0x01, 0xbb, 0xc3, 0x50, 0, 0, 0, 1];
    let bytes = ipv6_bytes(alloc, 16, 44, &tiny)?;
    check(&rt, "tiny, IPv6", bytes.as_slice(), true);
    let advertised_later = [60, 0, 0, 1, 0, 0, 0, 9, 58, 0, 1, 4, 0, 0, 0, 0];
    let bytes = ipv6_bytes(alloc, 16, 44, &advertised_later)?;
    check(&rt, "RFC 7113, section 2", bytes.as_slice(), true);
    let later = [6, 0, 0, 8, 0, 0, 0, 9, 0x01, 0xbb, 0xc3, 0x50, 0, 0, 0, 1];
    let bytes = ipv6_bytes(alloc, 16, 44, &later)?;
    check(&rt, "later", bytes.as_slice(), false);
    let bytes = ipv6_bytes(alloc, 24, 43, &[6, 2, 0, 0])?;
    check(&rt, "truncated routing header", bytes.as_slice(), false);
    Ok(())
}
