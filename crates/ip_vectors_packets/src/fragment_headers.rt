//! Several fragment headers: what filters say of packets, worked out by hand from RFC 8200, section 4.5, and RFC 791,
//! section 3.1.
use crate::checks::assert_same;
use crate::samples::{ipv4_bytes, ipv6_bytes};
use ip_filter::Filter;
use std::process::Abort;
use std::test::Fail;

/// Checks what each formula says of the packet.
fn check(rt: &impl Abort, name: &str, bytes: &[u8], rows: &[(&str, bool)]) {
    for (text, holds) in rows {
        let found = Filter::parse(text.as_bytes()).map(|filter| filter.matches(bytes));
        assert_same(rt, (name, text), found, Ok(*holds));
    }
}

#[test]
fn first_and_last(rt: HostRuntime) -> Result<(), Fail> {
    let headers = [
        44, 0, 0, 1, 0, 0, 0, 7, 17, 0, 3, 0x20, 0x12, 0x34, 0x56, 0x78,
    ];
    let bytes = ipv6_bytes(rt.alloc(), 16, 44, &headers)?;
    let rows = [
        ("fragment", true),
        ("first-fragment", true),
        ("later-fragment", true),
        ("id 7", true),
        ("id 0x12345678", true),
        ("id 0", false),
        ("port 0-65535", false),
    ];
    check(&rt, "first and last", bytes.as_slice(), &rows);
    Ok(())
}

#[test]
fn among_other_headers(rt: HostRuntime) -> Result<(), Fail> {
    let headers = [
        44, 0, 1, 4, 0, 0, 0, 0, 60, 0, 0, 0, 0, 0, 0, 7, 44, 0, 1, 4, 0, 0, 0, 0, 17, 0, 0, 9, 0,
        0, 0, 9,
    ];
    let bytes = ipv6_bytes(rt.alloc(), 32, 0, &headers)?;
    let rows = [
        ("fragment", true),
        ("first-fragment", false),
        ("later-fragment", true),
        ("id 7 and id 9", true),
        ("id 260", false),
    ];
    check(&rt, "atomic and middle", bytes.as_slice(), &rows);
    Ok(())
}

#[test]
fn atomic_alone(rt: HostRuntime) -> Result<(), Fail> {
    let headers = [44, 0, 0, 0, 0, 0, 0, 7, 59, 0, 0, 6, 0, 0, 0, 9];
    let bytes = ipv6_bytes(rt.alloc(), 16, 44, &headers)?;
    let rows = [
        ("fragment or first-fragment or later-fragment", false),
        ("id 7 and id 9", true),
        ("header frag", true),
    ];
    check(&rt, "two atomic ones", bytes.as_slice(), &rows);
    Ok(())
}

#[test]
fn payload_of_a_later_fragment(rt: HostRuntime) -> Result<(), Fail> {
    let headers = [44, 0, 0, 0x10, 0, 0, 0, 7, 59, 0, 0, 1, 0, 0, 0, 9];
    let bytes = ipv6_bytes(rt.alloc(), 16, 44, &headers)?;
    let rows = [
        ("later-fragment and id 7", true),
        ("first-fragment", false),
        ("id 9", false),
    ];
    check(&rt, "a later fragment", bytes.as_slice(), &rows);
    Ok(())
}

#[test]
fn of_ipv4(rt: HostRuntime) -> Result<(), Fail> {
    let alloc = rt.alloc();
    let header = [59, 0, 0, 9, 0, 0, 0, 7];
    let whole = ipv4_bytes(alloc, 0x45, 28, [0, 0], 44, &header)?;
    let rows = [("fragment", false), ("id 0", false), ("id 7", false)];
    check(&rt, "a whole packet", whole.as_slice(), &rows);
    let first = ipv4_bytes(alloc, 0x45, 28, [0x20, 0], 44, &header)?;
    let rows = [
        ("first-fragment", true),
        ("later-fragment", false),
        ("id 0", true),
        ("id 7", false),
    ];
    check(&rt, "a first fragment", first.as_slice(), &rows);
    let middle = ipv4_bytes(alloc, 0x45, 28, [0x20, 1], 51, &header)?;
    let rows = [
        ("first-fragment", false),
        ("later-fragment", true),
        ("id 0", true),
    ];
    check(&rt, "a middle fragment", middle.as_slice(), &rows);
    Ok(())
}
