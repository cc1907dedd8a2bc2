//! Routing headers: what filters say of packets, worked out by hand from RFC 8200, section 4.4.
use crate::checks::assert_same;
use crate::samples::{ipv4_bytes, ipv6_bytes};
use ip_filter::Filter;
use std::process::Abort;
use std::test::Fail;

/// Checks what each formula says of the packet.
fn check(rt: &impl Abort, name: &str, bytes: &[u8], rows: &[(&str, bool)]) {
    for (text, holds) in rows {
        let found = Filter::parse(text.as_bytes()).map(|filter| filter.matches(bytes));
        assert_same(rt, (name, text), found, Ok(*holds));
    }
}

#[test]
fn one_header(rt: HostRuntime) -> Result<(), Fail> {
    let header = [59, 0, 4, 3, 1, 0, 2, 0];
    let bytes = ipv6_bytes(rt.alloc(), 8, 43, &header)?;
    let rows = [
        ("routing-type 4", true),
        ("routing-type 3", false),
        ("routing-type 0", false),
        ("segments-left = 3", true),
        ("segments-left != 3", false),
        ("segments-left < 4", true),
        ("segments-left < 3", false),
        ("segments-left <= 3", true),
        ("segments-left > 2", true),
        ("segments-left > 3", false),
        ("segments-left >= 4", false),
        ("segments-left = 4", false),
    ];
    check(&rt, "one", bytes.as_slice(), &rows);
    Ok(())
}

#[test]
fn several_headers(rt: HostRuntime) -> Result<(), Fail> {
    let headers = [
        43, 0, 1, 4, 0, 0, 0, 0, 60, 0, 2, 1, 0, 0, 0, 0, 43, 0, 7, 9, 0, 0, 0, 0, 59, 0, 0, 5, 0,
        0, 0, 0,
    ];
    let bytes = ipv6_bytes(rt.alloc(), 32, 0, &headers)?;
    let rows = [
        ("routing-type 2", true),
        ("routing-type 0", true),
        ("routing-type 1 or routing-type 7", false),
        ("segments-left = 1", true),
        ("segments-left = 5", true),
        ("segments-left = 4 or segments-left = 9", false),
        ("segments-left < 5 and segments-left > 1", true),
        ("segments-left > 5", false),
        ("routing-type 2 and segments-left = 5", true),
    ];
    check(&rt, "several", bytes.as_slice(), &rows);
    Ok(())
}

#[test]
fn no_header(rt: HostRuntime) -> Result<(), Fail> {
    let alloc = rt.alloc();
    let rows = [
        ("routing-type 0", false),
        ("segments-left >= 0", false),
        ("not segments-left != 7", true),
    ];
    let options = ipv6_bytes(alloc, 8, 60, &[59, 0, 0, 5, 0, 0, 0, 0])?;
    check(&rt, "options", options.as_slice(), &rows);
    let truncated = ipv6_bytes(alloc, 16, 43, &[59, 1, 0, 5, 0, 0, 0, 0])?;
    check(&rt, "truncated", truncated.as_slice(), &rows);
    let ipv4 = ipv4_bytes(alloc, 0x45, 28, [0, 0], 43, &[59, 0, 0, 5, 0, 0, 0, 0])?;
    check(&rt, "IPv4", ipv4.as_slice(), &rows);
    let later = [43, 0, 0, 8, 0, 0, 0, 9, 59, 0, 0, 5, 0, 0, 0, 0];
    let fragment = ipv6_bytes(alloc, 16, 44, &later)?;
    check(&rt, "a later fragment", fragment.as_slice(), &rows);
    Ok(())
}
