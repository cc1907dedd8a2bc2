//! Options: what filters say of packets, worked out by hand from RFC 8200, sections 4.2, 4.3 and 4.6.
use crate::checks::assert_same;
use crate::samples::ipv6_bytes;
use ip_filter::Filter;
use std::process::Abort;
use std::test::Fail;

/// Checks what each formula says of the packet.
fn check(rt: &impl Abort, name: &str, bytes: &[u8], rows: &[(&str, bool)]) {
    for (text, holds) in rows {
        let found = Filter::parse(text.as_bytes()).map(|filter| filter.matches(bytes));
        assert_same(rt, (name, text), found, Ok(*holds));
    }
}

#[test]
fn router_alert(rt: HostRuntime) -> Result<(), Fail> {
    let header = [59, 0, 5, 2, 0, 0, 1, 0];
    let rows = [
        ("option 5", true),
        ("option 1", true),
        ("option 0", false),
        ("option 2", false),
        ("option 59", false),
    ];
    for number in [0, 60] {
        let bytes = ipv6_bytes(rt.alloc(), 8, number, &header)?;
        check(&rt, "router alert and PadN", bytes.as_slice(), &rows);
    }
    let routing = ipv6_bytes(rt.alloc(), 8, 43, &header)?;
    check(&rt, "routing", routing.as_slice(), &[("option 5", false)]);
    Ok(())
}

#[test]
fn pad1_has_no_length(rt: HostRuntime) -> Result<(), Fail> {
    let header = [59, 0, 0, 5, 0, 0, 30, 0];
    let bytes = ipv6_bytes(rt.alloc(), 8, 60, &header)?;
    let rows = [
        ("option 0", true),
        ("option 5", true),
        ("option 30", true),
        ("option 1", false),
    ];
    check(&rt, "between Pad1", bytes.as_slice(), &rows);
    let header = [59, 0, 1, 3, 0, 0, 0, 0];
    let bytes = ipv6_bytes(rt.alloc(), 8, 60, &header)?;
    let rows = [("option 0", true), ("option 1", true)];
    check(&rt, "Pad1 as the last byte", bytes.as_slice(), &rows);
    Ok(())
}

#[test]
fn values_are_no_options(rt: HostRuntime) -> Result<(), Fail> {
    let header = [59, 1, 30, 10, 5, 2, 0, 0, 7, 0, 0, 0, 0, 0, 8, 0];
    let bytes = ipv6_bytes(rt.alloc(), 16, 0, &header)?;
    let rows = [
        ("option 30", true),
        ("option 8", true),
        ("option 5", false),
        ("option 7", false),
        ("option 0", false),
        ("option 10", false),
    ];
    check(&rt, "a value", bytes.as_slice(), &rows);
    Ok(())
}

#[test]
fn malformed_options(rt: HostRuntime) -> Result<(), Fail> {
    let alloc = rt.alloc();
    let fits = ipv6_bytes(alloc, 8, 60, &[59, 0, 30, 4, 1, 2, 3, 4])?;
    check(&rt, "to the end", fits.as_slice(), &[("option 30", true)]);
    let rows = [
        ("option 30", false),
        ("option 5", false),
        ("option 0", false),
    ];
    let long = ipv6_bytes(alloc, 8, 60, &[59, 0, 30, 5, 5, 0, 0, 0])?;
    check(&rt, "past the end", long.as_slice(), &rows);
    let next = ipv6_bytes(
        alloc,
        16,
        0,
        &[60, 0, 31, 255, 0, 0, 5, 0, 59, 0, 6, 4, 0, 0, 5, 0],
    )?;
    check(&rt, "before another header", next.as_slice(), &rows);
    check(
        &rt,
        "the other header",
        next.as_slice(),
        &[("option 6", true)],
    );
    let short = ipv6_bytes(alloc, 8, 60, &[59, 0, 6, 3, 0, 0, 0, 30])?;
    check(&rt, "no length", short.as_slice(), &rows);
    check(&rt, "before it", short.as_slice(), &[("option 6", true)]);
    Ok(())
}

#[test]
fn each_header_is_asked(rt: HostRuntime) -> Result<(), Fail> {
    let headers = [
        60, 0, 1, 4, 0, 0, 0, 0, 43, 0, 5, 2, 0, 0, 0, 0, 60, 0, 7, 0, 0, 0, 0, 0, 59, 0, 194, 4,
        0, 0, 0, 0,
    ];
    let bytes = ipv6_bytes(rt.alloc(), 32, 0, &headers)?;
    let rows = [
        ("option 1 and option 5 and option 194", true),
        ("option 7", false),
    ];
    check(&rt, "four headers", bytes.as_slice(), &rows);
    let truncated = ipv6_bytes(rt.alloc(), 24, 60, &[59, 1, 5, 2, 0, 0, 0, 0])?;
    check(
        &rt,
        "truncated",
        truncated.as_slice(),
        &[("option 5", false)],
    );
    Ok(())
}

#[test]
fn several_options_of_two_headers(rt: HostRuntime) -> Result<(), Fail> {
    let headers = [
        60, 0, 5, 2, 0, 0, 1, 0, 59, 1, 130, 1, 9, 255, 2, 7, 7, 0, 64, 0, 127, 2, 0, 0,
    ];
    let bytes = ipv6_bytes(rt.alloc(), 24, 0, &headers)?;
    let rows = [
        ("option 5 and option 1 and option 130 and option 255", true),
        ("option 0 and option 64 and option 127", true),
        ("option 2 or option 7 or option 9 or option 59", false),
        ("option 63 or option 65 or option 128 or option 192", false),
        ("option 60 or option 126 or option 129 or option 254", false),
        ("not option 69 and option 130 and payload = 0", true),
        ("option 3 or headers = 2 and option 255", true),
    ];
    check(
        &rt,
        "hop-by-hop and destination options",
        bytes.as_slice(),
        &rows,
    );
    Ok(())
}
