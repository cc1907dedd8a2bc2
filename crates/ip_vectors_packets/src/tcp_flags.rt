//! Flags of TCP: what filters say of packets, worked out by hand from RFC 9293, section 3.1.
use crate::checks::assert_same;
use crate::samples::{ipv4_bytes, ipv6_bytes};
use ip_filter::Filter;
use std::process::Abort;
use std::test::Fail;

/// A segment from port 443 to port 50,000 with these flags.
fn segment(flags: u8) -> [u8; 20] {
    [
        0x01, 0xbb, 0xc3, 0x50, 0, 0, 0, 1, 0, 0, 0, 2, 0x50, flags, 0x10, 0, 0, 0, 0, 0,
    ]
}

/// Checks what a formula says of the packet.
fn check(rt: &impl Abort, name: &str, bytes: &[u8], text: &str, holds: bool) {
    let found = Filter::parse(text.as_bytes()).map(|filter| filter.matches(bytes));
    assert_same(rt, (name, text), found, Ok(holds));
}

#[test]
fn each_flag(rt: HostRuntime) -> Result<(), Fail> {
    let rows = [
        (0x01, "tcp-flags fin"),
        (0x02, "tcp-flags syn"),
        (0x04, "tcp-flags rst"),
        (0x08, "tcp-flags psh"),
        (0x10, "tcp-flags ack"),
        (0x20, "tcp-flags urg"),
        (0x40, "tcp-flags ece"),
        (0x80, "tcp-flags cwr"),
    ];
    for (bit, text) in &rows {
        let with = ipv6_bytes(rt.alloc(), 20, 6, &segment(*bit))?;
        check(&rt, "alone", with.as_slice(), text, true);
        let without = ipv6_bytes(rt.alloc(), 20, 6, &segment(255 - *bit))?;
        check(&rt, "all others", without.as_slice(), text, false);
    }
    Ok(())
}

#[test]
fn lists(rt: HostRuntime) -> Result<(), Fail> {
    let bytes = ipv6_bytes(rt.alloc(), 20, 6, &segment(0x12))?;
    let rows = [
        ("tcp-flags syn", true),
        ("tcp-flags ack,syn", true),
        ("tcp-flags syn,ack/ack,syn", true),
        ("tcp-flags ack/ack,fin,rst", true),
        ("tcp-flags syn,ack/fin,syn,rst,psh,ack,urg,ece,cwr", true),
        ("tcp-flags syn/syn,ack", false),
        ("tcp-flags syn/fin,syn,rst,psh,ack,urg,ece,cwr", false),
        ("tcp-flags syn,fin", false),
        ("tcp-flags fin/fin,syn", false),
        ("tcp-flags syn,urg/syn,urg,ack", false),
    ];
    for (text, holds) in &rows {
        check(&rt, "an answer", bytes.as_slice(), text, *holds);
    }
    Ok(())
}

#[test]
fn after_extension_headers(rt: HostRuntime) -> Result<(), Fail> {
    let alloc = rt.alloc();
    let text = "tcp-flags syn/syn,ack";
    let after = [
        6, 0, 1, 4, 0, 0, 0, 0, 0x01, 0xbb, 0xc3, 0x50, 0, 0, 0, 1, 0, 0, 0, 2, 0x50, 0x02, 0x10,
        0, 0, 0, 0, 0,
    ];
    let options = ipv6_bytes(alloc, 28, 60, &after)?;
    check(&rt, "options", options.as_slice(), text, true);
    let after = [
        6, 1, 0, 80, 0, 0, 1, 2, 0, 0, 0, 3, 0x01, 0xbb, 0xc3, 0x50, 0, 0, 0, 1, 0, 0, 0, 2, 0x50,
        0x02, 0x10, 0, 0, 0, 0, 0,
    ];
    let auth = ipv4_bytes(alloc, 0x45, 52, [0, 0], 51, &after)?;
    check(&rt, "authentication", auth.as_slice(), text, true);
    check(&rt, "the ports", auth.as_slice(), "tcp-flags fin", false);
    Ok(())
}

#[test]
fn of_fragments(rt: HostRuntime) -> Result<(), Fail> {
    let alloc = rt.alloc();
    let mut after = [0; 28];
    after[..8].copy_from_slice(&[6, 0, 0, 1, 0, 0, 0, 9]);
    after[8..].copy_from_slice(&segment(0x02));
    let first = ipv6_bytes(alloc, 28, 44, &after)?;
    check(&rt, "first", first.as_slice(), "tcp-flags syn", true);
    after[..8].copy_from_slice(&[6, 0, 0, 9, 0, 0, 0, 9]);
    let later = ipv6_bytes(alloc, 28, 44, &after)?;
    check(&rt, "middle", later.as_slice(), "tcp-flags syn", false);
    check(
        &rt,
        "middle",
        later.as_slice(),
        "tcp and not tcp-flags syn",
        true,
    );
    let last = ipv4_bytes(alloc, 0x45, 40, [0, 1], 6, &segment(0x02))?;
    check(&rt, "IPv4, last", last.as_slice(), "tcp-flags syn", false);
    Ok(())
}

#[test]
fn that_are_missing(rt: HostRuntime) -> Result<(), Fail> {
    let alloc = rt.alloc();
    let bytes = ipv6_bytes(alloc, 13, 6, &segment(0x02))?;
    check(&rt, "13 bytes", bytes.as_slice(), "tcp-flags syn", false);
    let bytes = ipv6_bytes(alloc, 14, 6, &segment(0x02))?;
    check(&rt, "14 bytes", bytes.as_slice(), "tcp-flags syn", true);
    for protocol in [17, 33, 58, 132] {
        let bytes = ipv6_bytes(alloc, 20, protocol, &segment(0x02))?;
        check(&rt, "others", bytes.as_slice(), "tcp-flags syn", false);
    }
    Ok(())
}
