//! The fields of IP headers, in bytes that scapy wrote with these values.
use crate::checks::{assert_bytes, assert_same};
use ip_base::{IpNumber, Ipv4HeaderSlice, Ipv6HeaderSlice};
use std::net::{Ipv4Addr, Ipv6Addr};
use std::test::Fail;

/// Code point 46, congestion notification 1, both flags, offset 258, and options.
#[test]
fn fields_of_an_ipv4_header(rt: HostRuntime) -> Result<(), Fail> {
    let bytes = [
        0x46, 0xb9, 0, 0x18, 0x12, 0x34, 0x61, 0x02, 0x40, 0x11, 0xab, 0xcd, 0xc0, 0, 2, 1, 0xc6,
        0x33, 0x64, 2, 1, 1, 1, 0, 0xff,
    ];
    let header = Ipv4HeaderSlice::from_slice(&bytes)?;
    assert_same(&rt, "bytes", header.slice(), &bytes[..24]);
    assert_same(&rt, "dcp", header.dcp(), 46);
    assert_same(&rt, "ecn", header.ecn(), 1);
    assert_same(&rt, "total length", header.total_len(), 24);
    assert_same(&rt, "identification", header.identification(), 0x1234);
    assert!(rt; header.dont_fragment());
    assert!(rt; header.more_fragments());
    assert_same(&rt, "offset", header.fragments_offset().value(), 258);
    assert_same(&rt, "ttl", header.ttl(), 64);
    assert_same(&rt, "protocol", header.protocol(), IpNumber::UDP);
    assert_same(&rt, "checksum", header.header_checksum(), 0xabcd);
    assert_same(&rt, "source", header.source(), [192, 0, 2, 1]);
    assert_same(&rt, "destination", header.destination(), [198, 51, 100, 2]);
    assert!(rt; header.source_addr() == Ipv4Addr::new(192, 0, 2, 1));
    assert!(rt; header.destination_addr() == Ipv4Addr::new(198, 51, 100, 2));
    assert_bytes(&rt, "options", header.options(), &[1, 1, 1, 0]);
    Ok(())
}

/// No code point, congestion notification 3, no flag, and no options.
#[test]
fn fields_of_an_ipv4_header_without_options(rt: HostRuntime) -> Result<(), Fail> {
    let bytes = [
        0x45, 3, 0x56, 0x78, 0xff, 0xfe, 0, 0, 0xff, 0x84, 0x12, 0x34, 10, 11, 12, 13, 20, 21, 22,
        23,
    ];
    let header = Ipv4HeaderSlice::from_slice(&bytes)?;
    assert_same(&rt, "dcp", header.dcp(), 0);
    assert_same(&rt, "ecn", header.ecn(), 3);
    assert_same(&rt, "total length", header.total_len(), 0x5678);
    assert_same(&rt, "identification", header.identification(), 0xfffe);
    assert!(rt; !header.dont_fragment());
    assert!(rt; !header.more_fragments());
    assert_same(&rt, "offset", header.fragments_offset().value(), 0);
    assert_same(&rt, "ttl", header.ttl(), 255);
    assert_same(&rt, "protocol", header.protocol().0, 132);
    assert_same(&rt, "checksum", header.header_checksum(), 0x1234);
    assert_same(&rt, "source", header.source(), [10, 11, 12, 13]);
    assert_same(&rt, "destination", header.destination(), [20, 21, 22, 23]);
    assert!(rt; header.options().is_empty());
    Ok(())
}

/// Traffic class 184, flow label 0xabcde and hop limit 7.
#[test]
fn fields_of_an_ipv6_header(rt: HostRuntime) -> Result<(), Fail> {
    let bytes = [
        0x6b, 0x8a, 0xbc, 0xde, 0x11, 0x22, 0x3b, 7, 0x20, 1, 0x0d, 0xb8, 3, 4, 5, 6, 7, 8, 9, 10,
        11, 12, 13, 14, 0xff, 2, 0x21, 0x22, 0x23, 0x24, 0x25, 0x26, 0x27, 0x28, 0x29, 0x2a, 0x2b,
        0x2c, 0x2d, 0x2e, 0xff,
    ];
    let header = Ipv6HeaderSlice::from_slice(&bytes)?;
    assert_same(&rt, "bytes", header.slice(), &bytes[..40]);
    assert_same(&rt, "traffic class", header.traffic_class(), 184);
    assert_same(&rt, "flow label", header.flow_label(), 0xa_bcde);
    assert_same(&rt, "payload length", header.payload_length(), 0x1122);
    let none = IpNumber::IPV6_NO_NEXT_HEADER;
    assert_same(&rt, "next header", header.next_header(), none);
    assert_same(&rt, "hop limit", header.hop_limit(), 7);
    let source = [0x20, 1, 0x0d, 0xb8, 3, 4, 5, 6, 7, 8, 9, 10, 11, 12, 13, 14];
    assert_same(&rt, "source", header.source(), source);
    let destination = [
        0xff, 2, 0x21, 0x22, 0x23, 0x24, 0x25, 0x26, 0x27, 0x28, 0x29, 0x2a, 0x2b, 0x2c, 0x2d, 0x2e,
    ];
    assert_same(&rt, "destination", header.destination(), destination);
    let address = Ipv6Addr::new(0x2001, 0xdb8, 0x304, 0x506, 0x708, 0x90a, 0xb0c, 0xd0e);
    assert!(rt; header.source_addr() == address);
    let address = Ipv6Addr::new(
        0xff02, 0x2122, 0x2324, 0x2526, 0x2728, 0x292a, 0x2b2c, 0x2d2e,
    );
    assert!(rt; header.destination_addr() == address);
    Ok(())
}
