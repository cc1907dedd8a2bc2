//! Packets whose base header states no length, worked out by hand from RFC 791, section 3.1, RFC 2675, section 2, and
//! RFC 8200, section 3.
use crate::checks::assert_same;
use crate::samples::{ipv4_bytes, ipv6_bytes};
use ip_filter::Filter;
use std::process::Abort;
use std::test::Fail;

/// Checks what each formula says of the packet.
fn check(rt: &impl Abort, name: &str, bytes: &[u8], rows: &[(&str, bool)]) {
    for (text, holds) in rows {
        let found = Filter::parse(text.as_bytes()).map(|filter| filter.matches(bytes));
        assert_same(rt, (name, text), found, Ok(*holds));
    }
}

#[test]
fn payload_length_of_0(rt: HostRuntime) -> Result<(), Fail> {
    let alloc = rt.alloc();
    let tcp = [
        0xc3, 0x50, 0, 80, 0, 0, 0, 1, 0, 0, 0, 0, 0x50, 2, 0, 0, 0, 0, 0, 0,
    ];
    let bytes = ipv6_bytes(alloc, 0, 6, &tcp)?;
    let rows = [
        ("no-length and tcp and dst port 80", true),
        ("length = 60", true),
        ("length < 60 or length > 60", false),
    ];
    check(&rt, "a segment", bytes.as_slice(), &rows);
    let bytes = ipv6_bytes(alloc, 20, 6, &tcp)?;
    let rows = [("no-length", false), ("length = 60", true)];
    check(&rt, "the same with its length", bytes.as_slice(), &rows);
    let bytes = ipv6_bytes(alloc, 0, 59, &[])?;
    let rows = [("no-length", false), ("length = 40", true)];
    check(&rt, "nothing there", bytes.as_slice(), &rows);
    let bytes = ipv6_bytes(alloc, 0, 60, &[59, 0, 1, 4, 0, 0, 0, 0])?;
    let rows = [("no-length", true), ("length = 48", true)];
    check(&rt, "a header alone", bytes.as_slice(), &rows);
    let jumbo = [17, 0, 0xc2, 4, 0, 1, 0, 0];
    let bytes = ipv6_bytes(alloc, 0, 0, &jumbo)?;
    let rows = [("no-length and option 194", true), ("length = 48", true)];
    check(&rt, "a jumbogram", bytes.as_slice(), &rows);
    check(
        &rt,
        "no header",
        &[],
        &[("no-length", false), ("length >= 0", false)],
    );
    Ok(())
}

#[test]
fn total_length_of_0(rt: HostRuntime) -> Result<(), Fail> {
    let alloc = rt.alloc();
    let bytes = ipv4_bytes(alloc, 0x45, 0, [0, 0], 17, &[0, 53, 0, 53, 0, 8, 0, 0])?;
    let rows = [("no-length", true), ("length = 28", true), ("udp", true)];
    check(&rt, "IPv4", bytes.as_slice(), &rows);
    let bytes = ipv4_bytes(alloc, 0x45, 28, [0, 0], 17, &[0, 53, 0, 53, 0, 8, 0, 0])?;
    let rows = [("no-length", false), ("length = 28", true)];
    check(&rt, "IPv4 with its length", bytes.as_slice(), &rows);
    let bytes = ipv4_bytes(alloc, 0x45, 0, [0, 0], 17, &[])?;
    check(
        &rt,
        "IPv4, nothing there",
        bytes.as_slice(),
        &[("no-length", false)],
    );
    Ok(())
}
