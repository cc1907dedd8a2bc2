//! Frames, worked out by hand from IEEE 802.1Q, section 9.6, RFC 791, section 3.1, RFC 826 and pcap-filter(7).
use crate::checks::assert_same;
use crate::samples::{ipv4_bytes, ipv6_bytes};
use ip_filter::{Filter, Frame};
use std::process::Abort;
use std::test::Fail;

/// An Ethernet frame of 100 bytes without a tag, of IPv4.
const PLAIN: Frame = Frame {
    wire_len: 100,
    ether_type: Some(0x0800),
    version: Some(4),
    outer_vlan: None,
    inner_vlan: None,
};

/// What a formula says of a packet alone, of its frame, and of the frame without a packet.
type Row<'a> = (&'a str, bool, bool, bool);

fn check(rt: &impl Abort, name: &str, frame: &Frame, packet: &[u8], rows: &[Row<'_>]) {
    for (text, alone, framed, empty) in rows {
        let found = Filter::parse(text.as_bytes()).map(|filter| {
            (
                filter.matches(packet),
                filter.matches_frame(frame, packet),
                filter.matches_other_frame(frame),
            )
        });
        assert_same(rt, (name, text), found, Ok((*alone, *framed, *empty)));
    }
}

#[test]
fn lengths_on_the_wire(rt: HostRuntime) -> Result<(), Fail> {
    let packet = ipv4_bytes(
        rt.alloc(),
        0x45,
        28,
        [0, 0],
        17,
        &[0, 53, 0, 53, 0, 8, 0, 0],
    )?;
    let rows = [
        ("less 100", true, true, true),
        ("less 99", true, false, false),
        ("less 28", true, false, false),
        ("less 27", false, false, false),
        ("greater 100", false, true, true),
        ("greater 101", false, false, false),
        ("greater 28 and udp", true, true, false),
        ("not greater 29 or header 60", true, false, false),
    ];
    check(&rt, "a length", &PLAIN, packet.as_slice(), &rows);
    let rows = [
        ("greater 0", false, true, true),
        ("less 100 and truncated", false, true, false),
    ];
    check(&rt, "no byte", &PLAIN, &[], &rows);
    Ok(())
}

#[test]
fn tags(rt: HostRuntime) -> Result<(), Fail> {
    let packet = ipv6_bytes(rt.alloc(), 8, 60, &[59, 0, 5, 2, 0, 0, 1, 0])?;
    let tagged = Frame {
        ether_type: Some(0x86dd),
        version: Some(6),
        outer_vlan: Some(100),
        inner_vlan: Some(0),
        ..PLAIN
    };
    let rows = [
        ("vlan", false, true, true),
        ("vlan 100 and vlan 0", false, true, true),
        ("vlan 1 or vlan 4095", false, false, false),
        ("vlan and option 5", false, true, false),
        ("option 5 and not vlan 7 and vlan 0x64", false, true, false),
        ("arp or mismatched", false, false, false),
        ("not vlan and header 60", true, false, false),
    ];
    check(&rt, "two tags", &tagged, packet.as_slice(), &rows);
    let request = Frame {
        ether_type: Some(0x0806),
        version: None,
        ..PLAIN
    };
    let rows = [
        ("arp", false, true, true),
        ("vlan or mismatched", false, false, false),
        ("not fault and arp", false, true, true),
    ];
    check(&rt, "a request", &request, packet.as_slice(), &rows);
    Ok(())
}

#[test]
fn announced_versions(rt: HostRuntime) -> Result<(), Fail> {
    let packet = ipv6_bytes(rt.alloc(), 8, 60, &[59, 0, 5, 2, 0, 0, 1, 0])?;
    let rows = [
        ("mismatched", false, true, false),
        ("mismatched and vlan", false, false, false),
        ("arp", false, false, false),
    ];
    check(&rt, "IPv4", &PLAIN, packet.as_slice(), &rows);
    let other = Frame {
        ether_type: None,
        version: Some(6),
        ..PLAIN
    };
    let rows = [("mismatched", false, true, false)];
    check(&rt, "the first byte alone", &other, &[0x4f], &rows);
    let rows = [("mismatched", false, false, false)];
    check(&rt, "no version", &other, &[0x5f], &rows);
    check(&rt, "no byte", &other, &[], &rows);
    Ok(())
}
