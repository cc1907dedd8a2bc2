//! For each layer and each kind of fault that a filter's text can name, bytes of which it holds, worked out by hand from
//! RFC 791, RFC 4302 and RFC 8200; and the layers that are refused, since no header there can have the error.
use crate::checks::{assert_same, assert_that};
use crate::samples::{ipv4_bytes, ipv6_bytes};
use ip_filter::Filter;
use std::alloc::Global;
use std::process::Abort;
use std::test::Fail;

/// Checks that each formula holds of the bytes.
fn check(rt: &impl Abort, bytes: &[u8], texts: &[&str]) {
    for text in texts {
        let found = Filter::parse(text.as_bytes()).map(|filter| filter.matches(bytes));
        assert_same(rt, text, found, Ok(true));
    }
}

#[test]
fn base_headers(rt: HostRuntime) -> Result<(), Fail> {
    let alloc = rt.alloc();
    check(&rt, &[], &["truncated IP-header"]);
    check(&rt, &[0x45, 0], &["truncated IPv4-header"]);
    check(
        &rt,
        &[0x60, 0],
        &["truncated IPv6-header and not truncated IPv6-extension"],
    );
    check(&rt, &[0x50], &["fault unsupported-version IP-header"]);
    check(&rt, &[0x44], &["fault header-length IPv4-header"]);
    let bytes = ipv4_bytes(alloc, 0x45, 19, [0, 0], 17, &[])?;
    check(&rt, bytes.as_slice(), &["fault too-short IPv4-packet"]);
    Ok(())
}

#[test]
fn extension_headers(rt: HostRuntime) -> Result<(), Fail> {
    let rows = [
        ("hop-by-hop", 0),
        ("routing", 43),
        ("fragment", 44),
        ("authentication", 51),
        ("destination-options", 60),
    ];
    for (layer, number) in rows {
        let truncated = ipv6_bytes(rt.alloc(), 64, number, &[59, 1])?;
        check(&rt, truncated.as_slice(), &["truncated IPv6-extension"]);
        let faulty = ipv6_bytes(rt.alloc(), 2, number, &[59, 1])?;
        check(&rt, faulty.as_slice(), &["fault too-short IPv6-extension"]);
        let found = (
            holds_at(rt.alloc(), "truncated ", layer, truncated.as_slice())?,
            holds_at(rt.alloc(), "fault too-short ", layer, faulty.as_slice())?,
        );
        assert_same(&rt, layer, found, (true, true));
    }
    Ok(())
}

/// Returns whether the term and a layer hold of the bytes.
fn holds_at(alloc: Global, term: &str, layer: &str, bytes: &[u8]) -> Result<bool, Fail> {
    let mut text = Vec::new(alloc);
    text.extend_from_slice(term.as_bytes())?;
    text.extend_from_slice(layer.as_bytes())?;
    Ok(Filter::parse(text.as_slice()).is_ok_and(|filter| filter.matches(bytes)))
}

#[test]
fn faults_of_one_layer(rt: HostRuntime) -> Result<(), Fail> {
    let alloc = rt.alloc();
    let bytes = ipv6_bytes(
        alloc,
        16,
        60,
        &[0, 0, 1, 4, 0, 0, 0, 0, 59, 0, 1, 4, 0, 0, 0, 0],
    )?;
    let texts = [
        "fault not-at-start hop-by-hop",
        "fault not-at-start IPv6-extension",
    ];
    check(&rt, bytes.as_slice(), &texts);
    let auth = [59, 0, 0, 0, 0, 0, 0, 1, 0, 0, 0, 2];
    let bytes = ipv6_bytes(alloc, 12, 51, &auth)?;
    let texts = [
        "fault zero-length authentication",
        "fault zero-length IPv6-extension",
    ];
    check(&rt, bytes.as_slice(), &texts);
    let bytes = ipv4_bytes(alloc, 0x45, 32, [0, 0], 51, &auth)?;
    let texts = [
        "fault zero-length authentication",
        "not fault zero-length IPv6-extension",
    ];
    check(&rt, bytes.as_slice(), &texts);
    Ok(())
}

#[test]
fn layers_that_are_refused(rt: HostRuntime) {
    let texts = [
        "truncated IPv4-packet",
        "truncated IPv6-packet",
        "fault too-short IPv6-packet",
        "fault too-short IPv6-header",
        "fault too-short IP-header",
        "fault not-at-start routing",
        "fault zero-length hop-by-hop",
        "fault unsupported-version IPv4-header",
        "fault header-length IP-header",
    ];
    for text in texts {
        assert_that(&rt, text, Filter::parse(text.as_bytes()).is_err());
    }
}
