//! Tests: frames written by hand from the standards.
use ip_frames::{FrameEnd, FrameFields, ProtocolNumber, find_ip, find_ip_after};
use std::process::Abort;

/// Checks where the headers of a frame end, at what, and after which number.
fn assert_found(
    rt: &impl Abort,
    link_type: u32,
    frame: &[u8],
    offset: usize,
    end: FrameEnd,
    number: Option<ProtocolNumber>,
) {
    let found = find_ip(link_type, frame).expect(rt, "the link type is supported");
    assert!(rt;
        found.offset == offset,
        "{} for {offset} of {link_type}",
        found.offset
    );
    assert!(rt;
        found.end == end,
        "{:?} for {end:?} of {link_type}",
        found.end
    );
    assert!(rt;
        found.number == number,
        "{:?} for {number:?} of {link_type}",
        found.number
    );
}

/// Checks that IP begins after the headers of a frame, which are all its bytes.
fn assert_ip(rt: &impl Abort, link_type: u32, headers: &[u8], number: ProtocolNumber) {
    assert_found(
        rt,
        link_type,
        headers,
        headers.len(),
        FrameEnd::Ip,
        Some(number),
    );
}

const IPV4: ProtocolNumber = ProtocolNumber::EtherType(0x0800);

const IPV6: ProtocolNumber = ProtocolNumber::EtherType(0x86dd);

#[test]
fn ethernet(rt: HostRuntime) {
    let ipv4 = *b"\x02\0\0\0\0\x01\x02\0\0\0\0\x02\x08\0";
    let ipv6 = *b"\x02\0\0\0\0\x01\x02\0\0\0\0\x02\x86\xdd";
    let arp = *b"\x02\0\0\0\0\x01\x02\0\0\0\0\x02\x08\x06";
    let stp = *b"\x01\x80\xc2\0\0\0\x02\0\0\0\0\x02\0\x26\x42\x42\x03\0\0";
    let snap = *b"\x02\0\0\0\0\x01\x02\0\0\0\0\x02\x05\xdc\xaa\xaa\x03\0\0\0\x86\xdd";
    let stack = *b"\x02\0\0\0\0\x01\x02\0\0\0\0\x02\x88\x47\0\x01\0\x40\0\x01\x01\x40\x60";
    assert_ip(&rt, 1, &ipv4, IPV4);
    assert_ip(&rt, 1, &ipv6, IPV6);
    assert_found(
        &rt,
        1,
        &arp,
        14,
        FrameEnd::NotIp,
        Some(ProtocolNumber::EtherType(0x0806)),
    );
    assert_found(
        &rt,
        1,
        &arp[..13],
        0,
        FrameEnd::Truncated { needed: 14 },
        None,
    );
    assert_found(
        &rt,
        1,
        &stp,
        14,
        FrameEnd::NotIp,
        Some(ProtocolNumber::Llc(0x42)),
    );
    assert_ip(&rt, 1, &snap, IPV6);
    assert_found(
        &rt,
        1,
        &stack,
        22,
        FrameEnd::Ip,
        Some(ProtocolNumber::EtherType(0x8847)),
    );
    assert_found(
        &rt,
        1,
        &stack[..22],
        22,
        FrameEnd::Truncated { needed: 1 },
        Some(ProtocolNumber::EtherType(0x8847)),
    );
}

// VLAN 100 of the provider, VLAN 200 of the customer, and VLAN 300 in it.
#[test]
fn vlan_tags(rt: HostRuntime) {
    let frame =
        *b"\x02\0\0\0\0\x01\x02\0\0\0\0\x02\x88\xa8\0\x64\x81\0\xe0\xc8\x81\0\x01\x2c\x08\0";
    let found = find_ip(1, &frame).expect(&rt, "Ethernet");
    assert!(rt; found.offset == 26, "{}", found.offset);
    assert!(rt; found.vlans.count == 3, "{}", found.vlans.count);
    assert!(rt; found.vlans.first == 100, "{}", found.vlans.first);
    assert!(rt; found.vlans.second == 200, "{}", found.vlans.second);
    let cut = find_ip(1, &frame[..19]).expect(&rt, "Ethernet");
    assert!(rt; cut.offset == 18, "{}", cut.offset);
    assert!(rt; cut.vlans.count == 1, "{}", cut.vlans.count);
    assert!(rt; cut.vlans.first == 100, "{}", cut.vlans.first);
    assert!(rt; cut.vlans.second == 0, "{}", cut.vlans.second);
}

// A security tag with the identifier of its channel, and one that says that the frame is encrypted. A network service header with
// metadata of type 1 before IPv6, and one with the flag of packets for operation.
#[test]
fn tags_of_networks(rt: HostRuntime) {
    let secure =
        *b"\x02\0\0\0\0\x01\x02\0\0\0\0\x02\x88\xe5\x20\0\0\0\0\x01\x02\0\0\0\0\x01\0\x01\x86\xdd";
    let encrypted = *b"\x02\0\0\0\0\x01\x02\0\0\0\0\x02\x88\xe5\x0c\0\0\0\0\x01\x08\0";
    let service = *b"\x0f\xc6\x01\x02\0\0\x01\xff\0\0\0\0\0\0\0\0\0\0\0\0\0\0\0\0\x60";
    assert_ip(&rt, 1, &secure, IPV6);
    assert_found(
        &rt,
        1,
        &encrypted,
        14,
        FrameEnd::NotIp,
        Some(ProtocolNumber::EtherType(0x88e5)),
    );
    let found = find_ip_after(0x894f, &service);
    assert!(rt; found.offset == 24, "{}", found.offset);
    assert!(rt; found.end == FrameEnd::Ip, "{:?}", found.end);
    let operation = find_ip_after(0x894f, b"\x2f\xc2\x02\x01\0\0\x01\xff\x45");
    assert!(rt; operation.offset == 0, "{}", operation.offset);
    assert!(rt; operation.end == FrameEnd::NotIp, "{:?}", operation.end);
}

// Data to an access point, QoS data between two of them, a beacon, and protected data, also after radiotap with its flags.
#[test]
fn radio_networks(rt: HostRuntime) {
    let data =
        *b"\x08\x01\0\0\x02\0\0\0\0\x01\x02\0\0\0\0\x02\x02\0\0\0\0\x03\x10\0\xaa\xaa\x03\0\0\0\x08\0";
    let qos =
        *b"\x88\x03\0\0\x02\0\0\0\0\x01\x02\0\0\0\0\x02\x02\0\0\0\0\x03\x10\0\x02\0\0\0\0\x04\x05\0\xaa\xaa\x03\0\0\0\x86\xdd";
    let beacon = *b"\x80\0\0\0\xff\xff\xff\xff\xff\xff\x02\0\0\0\0\x01";
    let radiotap = *b"\0\0\x09\0\x02\0\0\0\x10\x08\x41\0\0";
    assert_ip(&rt, 105, &data, IPV4);
    assert_ip(&rt, 105, &qos, IPV6);
    assert_found(
        &rt,
        105,
        &beacon,
        0,
        FrameEnd::NotIp,
        Some(ProtocolNumber::Ieee80211(0x08)),
    );
    assert_found(
        &rt,
        127,
        &radiotap,
        9,
        FrameEnd::NotIp,
        Some(ProtocolNumber::Ieee80211(0x20)),
    );
}

#[test]
fn serial_lines(rt: HostRuntime) {
    assert_ip(&rt, 9, b"\xff\x03\0\x21", ProtocolNumber::Ppp(0x21));
    assert_ip(&rt, 9, b"\x57", ProtocolNumber::Ppp(0x57));
    assert_ip(
        &rt,
        51,
        b"\x11\0\0\x01\0\x40\0\x57",
        ProtocolNumber::Ppp(0x57),
    );
    assert_ip(&rt, 50, b"\x0f\0\x86\xdd", IPV6);
    assert_ip(&rt, 104, b"\x0f\0\x08\0", IPV4);
    assert_ip(&rt, 107, b"\x18\x41\x03\xcc", ProtocolNumber::Nlpid(0xcc));
    assert_ip(&rt, 107, b"\x18\x40\x40\x41\x03\0\x80\0\0\0\x08\0", IPV4);
    assert_found(
        &rt,
        107,
        b"\0\x01\x03\x08\0\x75",
        4,
        FrameEnd::NotIp,
        Some(ProtocolNumber::Nlpid(0x08)),
    );
    assert_found(
        &rt,
        51,
        b"\x11\x09\0\0\0\x40\0\x21",
        0,
        FrameEnd::NotIp,
        None,
    );
}

#[test]
fn systems(rt: HostRuntime) {
    assert_ip(&rt, 0, b"\x1e\0\0\0", ProtocolNumber::Family(30));
    assert_ip(&rt, 0, b"\0\0\0\x02", ProtocolNumber::Family(2));
    assert_found(
        &rt,
        0,
        b"\x07\0\0\0",
        4,
        FrameEnd::NotIp,
        Some(ProtocolNumber::Family(7)),
    );
    assert_ip(
        &rt,
        113,
        b"\0\0\0\x01\0\x06\x02\0\0\0\0\x01\0\0\x86\xdd",
        IPV6,
    );
    assert_ip(
        &rt,
        276,
        b"\x08\0\0\0\0\0\0\x01\0\x01\0\x06\x02\0\0\0\0\x01\0\0",
        IPV4,
    );
    assert_ip(
        &rt,
        239,
        b"\x0a\0\0\x01\x06\0\x0a\0x\0\0\0\x58\x02\x09\0",
        ProtocolNumber::Family(10),
    );
    assert_found(&rt, 101, b"\x45", 0, FrameEnd::Ip, None);
    assert!(rt; find_ip(147, b"\x45").is_none());
}

#[test]
fn after_an_ethertype(rt: HostRuntime) {
    let found = find_ip_after(0x8100, b"\0\x07\x86\xdd\x60");
    assert!(rt; found.offset == 4, "{}", found.offset);
    assert!(rt; found.number == Some(IPV6), "{:?}", found.number);
    let fields = FrameFields::of(found);
    assert!(rt; fields.version == 6, "{}", fields.version);
    assert!(rt; fields.number == 0x86dd, "{}", fields.number);
    assert!(rt; fields.number_kind == 1, "{}", fields.number_kind);
    assert!(rt; fields.end == 0, "{}", fields.end);
    assert!(rt; fields.first_vlan == 7, "{}", fields.first_vlan);
}
