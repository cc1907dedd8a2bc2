//! Base headers and packets.
use crate::checks::{assert_bytes, assert_same, assert_that};
use crate::samples::{ipv4_bytes, ipv6_bytes, len_error, len_error_at};
use etherparse_ip::err::{Layer, ip, ip_auth, ipv4, ipv6, ipv6_exts};
use etherparse_ip::{
    IpNumber, IpPayloadSlice, IpSlice, Ipv4Header, Ipv4HeaderSlice, Ipv4Slice, Ipv6Header,
    Ipv6HeaderSlice, Ipv6Slice, LenSource,
};
use std::net::{IpAddr, Ipv4Addr, Ipv6Addr};
use std::process::Abort;
use std::test::Fail;

/// The lengths of the base header and of the extension headers; the payload's number and bytes, whether it is a
/// fragment, and the source of its length.
#[derive(Clone, Copy, Debug, PartialEq)]
struct Parts<'a> {
    header: usize,
    exts: usize,
    number: u8,
    payload: &'a [u8],
    fragmented: bool,
    source: LenSource,
}

/// Returns the parts of a packet with this payload and headers of these lengths.
fn parts_of<'a>(header: usize, exts: usize, payload: &IpPayloadSlice<'a>) -> Parts<'a> {
    Parts {
        header,
        exts,
        number: payload.ip_number.0,
        payload: payload.payload,
        fragmented: payload.fragmented,
        source: payload.len_source,
    }
}

/// Returns the parts of an IPv4 packet.
fn ipv4_parts<'a>(packet: &Ipv4Slice<'a>) -> Parts<'a> {
    let exts = packet
        .extensions()
        .auth
        .map_or(0, |header| header.slice().len());
    parts_of(packet.header().slice().len(), exts, packet.payload())
}

/// Returns the parts of an IPv6 packet.
fn ipv6_parts<'a>(packet: &Ipv6Slice<'a>) -> Parts<'a> {
    let exts = packet.extensions().slice().len();
    parts_of(packet.header().slice().len(), exts, packet.payload())
}

/// Parses the packet with `IpSlice` and compares its parts with these. The accessors of both types agree with them.
fn check_either(rt: &impl Abort, name: &str, bytes: &[u8], parts: Parts<'_>) -> Result<(), Fail> {
    let packet = match IpSlice::from_slice(bytes) {
        Ok(packet) => packet,
        Err(_) => {
            assert_that(rt, name, false);
            return Ok(());
        }
    };
    let (found, number, fragmented) = match &packet {
        IpSlice::Ipv4(packet) => {
            let fragmented = packet.header().is_fragmenting_payload();
            assert_same(rt, name, packet.is_payload_fragmented(), fragmented);
            (ipv4_parts(packet), packet.payload_ip_number(), fragmented)
        }
        IpSlice::Ipv6(packet) => (
            ipv6_parts(packet),
            packet.payload_ip_number(),
            packet.is_payload_fragmented(),
        ),
    };
    assert_same(rt, name, found, parts);
    assert_same(rt, name, number.0, parts.number);
    assert_same(rt, name, fragmented, parts.fragmented);
    assert_same(rt, name, packet.payload_ip_number(), number);
    assert_same(rt, name, packet.is_fragmenting_payload(), fragmented);
    assert_same(rt, name, packet.payload().payload, parts.payload);
    assert_same(rt, name, packet.ipv4().is_some(), bytes[0] >> 4 == 4);
    assert_same(rt, name, packet.ipv6().is_some(), bytes[0] >> 4 == 6);
    assert_that(rt, name, packet.clone()? == packet);
    Ok(())
}

#[test]
fn ipv6_lengths(rt: HostRuntime) -> Result<(), Fail> {
    let by_header = LenSource::Ipv6HeaderPayloadLen;
    let rows: [(&str, u16, usize, usize, LenSource, bool); 5] = [
        ("no payload is stated", 0, 0, 0, by_header, true),
        ("a jumbogram", 0, 8, 8, LenSource::Slice, true),
        ("all that is stated", 8, 8, 8, by_header, true),
        ("bytes after the packet", 5, 8, 5, by_header, true),
        ("more than is there", 9, 8, 8, LenSource::Slice, false),
    ];
    for (name, stated, there, payload, source, fits) in rows {
        let bytes = ipv6_bytes(rt.alloc(), stated, 17, &[1, 2, 3, 4, 5, 6, 7, 8][..there])?;
        let parts = Parts {
            header: 40,
            exts: 0,
            number: 17,
            payload: &[1, 2, 3, 4, 5, 6, 7, 8][..payload],
            fragmented: false,
            source,
        };
        let lax = Ipv6Slice::from_slice_lax(&bytes).map(|packet| ipv6_parts(&packet));
        assert_same(&rt, name, lax, Ok(parts));
        let strict = Ipv6Slice::from_slice(&bytes).map(|packet| ipv6_parts(&packet));
        if fits {
            assert_same(&rt, name, strict, Ok(parts));
            check_either(&rt, name, &bytes, parts)?;
        } else {
            let error = len_error(49, 48, LenSource::Slice, Layer::Ipv6Packet);
            assert_same(&rt, name, strict, Err(ipv6::SliceError::Len(error)));
        }
    }
    Ok(())
}

#[test]
fn a_truncated_chain_in_a_jumbogram(rt: HostRuntime) -> Result<(), Fail> {
    let jumbo = ipv6_bytes(rt.alloc(), 0, 60, &[43, 0, 0, 0, 0, 0, 0, 0])?;
    let truncated = len_error_at(8, 0, LenSource::Slice, Layer::Ipv6ExtHeader, 48);
    for parsed in [
        Ipv6Slice::from_slice(&jumbo),
        Ipv6Slice::from_slice_lax(&jumbo),
    ] {
        let parts = parsed.map(|packet| ipv6_parts(&packet));
        let error = ipv6::SliceError::Len(truncated.clone()?);
        assert_same(&rt, "Ipv6Slice", parts, Err(error));
    }
    let number = IpSlice::from_slice(&jumbo).map(|packet| packet.payload_ip_number());
    assert_same(&rt, "IpSlice", number, Err(ip::SliceError::Len(truncated)));
    Ok(())
}

#[test]
fn headers_after_that_of_a_later_fragment(rt: HostRuntime) -> Result<(), Fail> {
    let chain = [
        60, 0, 1, 0, 1, 2, 3, 4, 17, 0, 0, 0, 0, 0, 0, 0, 5, 6, 7, 8, 9, 10, 11, 12,
    ];
    let later = ipv6_bytes(rt.alloc(), 24, 44, &chain)?;
    let parts = Parts {
        header: 40,
        exts: 16,
        number: 17,
        payload: &[5, 6, 7, 8, 9, 10, 11, 12],
        fragmented: true,
        source: LenSource::Ipv6HeaderPayloadLen,
    };
    check_either(&rt, "a later fragment", &later, parts)
}

#[test]
fn hop_by_hop_options_after_a_header(rt: HostRuntime) -> Result<(), Fail> {
    let zero = ipv6_bytes(rt.alloc(), 8, 60, &[0, 0, 0, 0, 0, 0, 0, 0])?;
    let content = ipv6_exts::HeaderError::HopByHopNotAtStart;
    let parts = Ipv6Slice::from_slice(&zero).map(|packet| ipv6_parts(&packet));
    let error = ipv6::SliceError::Exts(content.clone()?);
    assert_same(&rt, "Ipv6Slice", parts, Err(error));
    let number = IpSlice::from_slice(&zero).map(|packet| packet.payload_ip_number());
    let error = ip::SliceError::IpHeaders(ip::HeadersError::Ipv6Ext(content));
    assert_same(&rt, "IpSlice", number, Err(error));
    Ok(())
}

/// Returns the expected parts of an IPv4 packet. Its total length is the source of the payload's length.
fn ipv4_wanted(
    header: usize,
    exts: usize,
    number: u8,
    payload: &[u8],
    fragmented: bool,
) -> Parts<'_> {
    Parts {
        header,
        exts,
        number,
        payload,
        fragmented,
        source: LenSource::Ipv4HeaderTotalLen,
    }
}

/// Parses the IPv4 packet with `Ipv4Slice` and `IpSlice` and compares its parts with these.
fn check_ipv4(rt: &impl Abort, name: &str, bytes: &[u8], parts: Parts<'_>) -> Result<(), Fail> {
    let packet = Ipv4Slice::from_slice(bytes).map(|packet| ipv4_parts(&packet));
    assert_same(rt, name, packet, Ok(parts));
    check_either(rt, name, bytes, parts)
}

#[test]
fn ipv4_packets(rt: HostRuntime) -> Result<(), Fail> {
    let alloc = rt.alloc();
    let auth = [17, 1, 0, 0, 0, 0, 0, 0, 0, 0, 0, 0, 8, 9];
    let rows: [(&str, Vec<u8>, Parts<'_>); 4] = [
        (
            "bytes after the packet",
            ipv4_bytes(alloc, 0x45, 22, [0, 0], 17, &[1, 2, 3, 4])?,
            ipv4_wanted(20, 0, 17, &[1, 2], false),
        ),
        (
            "no payload",
            ipv4_bytes(alloc, 0x45, 20, [0, 0], 6, &[])?,
            ipv4_wanted(20, 0, 6, &[], false),
        ),
        (
            "options",
            ipv4_bytes(alloc, 0x46, 26, [0, 0], 17, &[1, 1, 1, 0, 5, 6])?,
            ipv4_wanted(24, 0, 17, &[5, 6], false),
        ),
        (
            "an authentication header",
            ipv4_bytes(alloc, 0x45, 34, [0, 0], 51, &auth)?,
            ipv4_wanted(20, 12, 17, &[8, 9], false),
        ),
    ];
    for (name, bytes, parts) in &rows {
        check_ipv4(&rt, name, bytes, *parts)?;
    }
    Ok(())
}

#[test]
fn ipv4_fragments(rt: HostRuntime) -> Result<(), Fail> {
    for (name, fragment, fragmented) in [
        ("don't fragment", [0x40, 0], false),
        ("more fragments", [0x20, 0], true),
        ("a later fragment", [0, 1], true),
        ("the highest bit of the offset", [0x10, 0], true),
    ] {
        let bytes = ipv4_bytes(rt.alloc(), 0x45, 20, fragment, 17, &[])?;
        check_ipv4(&rt, name, &bytes, ipv4_wanted(20, 0, 17, &[], fragmented))?;
    }
    Ok(())
}

#[test]
fn an_authentication_header_of_length_0(rt: HostRuntime) -> Result<(), Fail> {
    let auth = [17, 0, 0, 0, 0, 0, 0, 0, 0, 0, 0, 0];
    let bytes = ipv4_bytes(rt.alloc(), 0x45, 32, [0, 0], 51, &auth)?;
    let zero = ip_auth::HeaderError::ZeroPayloadLen;
    let parts = Ipv4Slice::from_slice(&bytes).map(|packet| ipv4_parts(&packet));
    let error = ipv4::SliceError::Exts(zero.clone()?);
    assert_same(&rt, "Ipv4Slice", parts, Err(error));
    let number = IpSlice::from_slice(&bytes).map(|packet| packet.payload_ip_number());
    let error = ip::SliceError::IpHeaders(ip::HeadersError::Ipv4Ext(zero));
    assert_same(&rt, "IpSlice", number, Err(error));
    Ok(())
}

#[test]
fn first_bytes(rt: HostRuntime) -> Result<(), Fail> {
    let of_base = |error| ip::SliceError::IpHeaders(ip::HeadersError::Ip(error));
    let rows: [(&[u8], ip::SliceError); 5] = [
        (
            &[],
            ip::SliceError::Len(len_error(1, 0, LenSource::Slice, Layer::IpHeader)),
        ),
        (
            &[0x44],
            of_base(ip::HeaderError::Ipv4HeaderLengthSmallerThanHeader { ihl: 4 }),
        ),
        (
            &[0x10],
            of_base(ip::HeaderError::UnsupportedIpVersion { version_number: 1 }),
        ),
        (
            &[0x45],
            ip::SliceError::Len(len_error(20, 1, LenSource::Slice, Layer::Ipv4Header)),
        ),
        (
            &[0x60],
            ip::SliceError::Len(len_error(40, 1, LenSource::Slice, Layer::Ipv6Header)),
        ),
    ];
    for (bytes, error) in rows {
        match IpSlice::from_slice(bytes) {
            Ok(_) => assert_that(&rt, bytes, false),
            Err(e) => assert_same(&rt, bytes, e, error),
        }
    }
    let short = len_error(20, 1, LenSource::Slice, Layer::Ipv4Header);
    assert!(rt; Ipv4Slice::from_slice(&[0x44]) == Err(ipv4::SliceError::Len(short)));
    Ok(())
}

#[test]
fn base_headers(rt: HostRuntime) -> Result<(), Fail> {
    let alloc = rt.alloc();
    let bytes = ipv4_bytes(alloc, 0x46, 28, [0, 0], 6, &[1, 1, 1, 0, 5, 6, 7, 8])?;
    let header = Ipv4HeaderSlice::from_slice(&bytes)
        .ok()
        .expect(&rt, "a header");
    assert_same(&rt, "IPv4 bytes", Some(header.slice()), bytes.get(..24));
    assert_same(&rt, "total length", header.total_len(), 28);
    assert_same(&rt, "protocol", header.protocol(), IpNumber(6));
    assert!(rt; header.source_addr() == Ipv4Addr::new(10, 0, 0, 1));
    assert!(rt; header.destination_addr() == Ipv4Addr::new(10, 0, 0, 2));
    let bytes = ipv6_bytes(alloc, 0x102, 6, &[])?;
    let header = Ipv6HeaderSlice::from_slice(&bytes)
        .ok()
        .expect(&rt, "a header");
    assert_bytes(&rt, "IPv6 bytes", header.slice(), &bytes);
    assert_same(&rt, "payload length", header.payload_length(), 0x102);
    assert_same(&rt, "next header", header.next_header(), IpNumber(6));
    assert!(rt; header.source_addr() == Ipv6Addr::new(0x2001, 0xdb8, 0, 0, 0, 0, 0, 1));
    assert!(rt; header.destination_addr() == Ipv6Addr::new(0x2001, 0xdb8, 0, 0, 0, 0, 0, 2));
    assert_same(&rt, "IPv4 length", Ipv4Header::MIN_LEN, 20);
    assert_same(&rt, "IPv6 length", Ipv6Header::LEN, 40);
    let wrong = ipv4::HeaderSliceError::Content(ipv4::HeaderError::UnexpectedVersion {
        version_number: 6,
    });
    assert!(rt; Ipv4HeaderSlice::from_slice(&bytes) == Err(wrong));
    let low = ipv4_bytes(alloc, 0x44, 20, [0, 0], 17, &[])?;
    let wrong = ipv4::HeaderError::HeaderLengthSmallerThanHeader { ihl: 4 };
    assert!(rt; Ipv4HeaderSlice::from_slice(&low) == Err(ipv4::HeaderSliceError::Content(wrong)));
    let other = ipv4_bytes(alloc, 0x45, 40, [0, 0], 17, &[0; 20])?;
    let wrong = ipv6::HeaderSliceError::Content(ipv6::HeaderError::UnexpectedVersion {
        version_number: 4,
    });
    assert!(rt; Ipv6HeaderSlice::from_slice(&other) == Err(wrong));
    Ok(())
}

#[test]
fn addresses(rt: HostRuntime) -> Result<(), Fail> {
    let bytes = ipv4_bytes(rt.alloc(), 0x45, 20, [0, 0], 17, &[])?;
    let packet = Ipv4Slice::from_slice(&bytes).ok().expect(&rt, "a packet");
    let packet = IpSlice::from(packet);
    assert!(rt; packet.source_addr() == IpAddr::V4(Ipv4Addr::new(10, 0, 0, 1)));
    assert!(rt; packet.destination_addr() == IpAddr::V4(Ipv4Addr::new(10, 0, 0, 2)));
    let bytes = ipv6_bytes(rt.alloc(), 0, 59, &[])?;
    let packet = Ipv6Slice::from_slice(&bytes).ok().expect(&rt, "a packet");
    let none = IpNumber::IPV6_NO_NEXT_HEADER;
    assert_same(&rt, "payload number", packet.payload_ip_number(), none);
    assert!(rt; !packet.is_payload_fragmented());
    let packet = IpSlice::from(packet);
    let address = |last| IpAddr::V6(Ipv6Addr::new(0x2001, 0xdb8, 0, 0, 0, 0, 0, last));
    assert!(rt; packet.source_addr() == address(1));
    assert!(rt; packet.destination_addr() == address(2));
    Ok(())
}
