//! Headers linked, and written from their place in other bytes.
use crate::checks::{assert_bytes, assert_same};
use crate::spans::samples::span;
use ip_spans::{HeaderSpan, link_headers, parse_chain, write_headers};

/// Destination options, a fragment header and an authentication header, each with a byte that identifies it, and with
/// reserved bits set.
const THREE: [u8; 28] = [
    44, 0, 1, 1, 1, 1, 1, 1, 51, 0xff, 0x01, 0x0f, 2, 2, 2, 2, 17, 1, 0xff, 0xff, 3, 3, 3, 3, 0, 0,
    0, 4,
];

/// Returns the spans of the three headers, one after the other.
fn spans_of_three() -> [HeaderSpan; 3] {
    [span(0, 8, 60, 44), span(8, 8, 44, 51), span(16, 12, 51, 17)]
}

/// The bytes written for them: byte 1 and two bits of byte 3 of the fragment header are zero, and so are bytes 2 and
/// 3 of the authentication header.
const CLEARED: [u8; 28] = [
    44, 0, 1, 1, 1, 1, 1, 1, 51, 0, 0x01, 0x09, 2, 2, 2, 2, 17, 1, 0, 0, 3, 3, 3, 3, 0, 0, 0, 4,
];

#[test]
fn headers_as_they_lie(rt: HostRuntime) {
    let mut out = [9; 30];
    let len = write_headers(&THREE, &spans_of_three(), &mut out);
    assert_same(&rt, "length", len, Some(28));
    assert_same(&rt, "written", out.get(..28), Some(&CLEARED[..]));
    assert_same(&rt, "after", out.get(28..), Some(&[9, 9][..]));
    assert_same(&rt, "nothing", write_headers(&[], &[], &mut []), Some(0));
}

#[test]
fn headers_in_another_order(rt: HostRuntime) {
    let [options, fragment, auth] = spans_of_three();
    let mut spans = [auth, options, fragment];
    assert_same(&rt, "first number", link_headers(&mut spans, 6), 51);
    let linked = [span(16, 12, 51, 60), span(0, 8, 60, 44), span(8, 8, 44, 6)];
    assert_same(&rt, "links", spans, linked);
    let mut out = [9; 28];
    let len = write_headers(&THREE, &spans, &mut out);
    assert_same(&rt, "length", len, Some(28));
    assert_bytes(
        &rt,
        "authentication",
        &out[..12],
        &[60, 1, 0, 0, 3, 3, 3, 3, 0, 0, 0, 4],
    );
    assert_bytes(&rt, "options", &out[12..20], &CLEARED[..8]);
    assert_bytes(&rt, "fragment", &out[20..], &[6, 0, 0x01, 0x09, 2, 2, 2, 2]);
    let again = parse_chain(51, &out, &mut []);
    let end = (again.headers, again.len, again.next_header);
    assert_same(&rt, "parsed", end, (3, 28, 6));
}

#[test]
fn links_of_none_and_of_one(rt: HostRuntime) {
    assert_same(&rt, "none", link_headers(&mut [], 17), 17);
    let mut one = [span(0, 8, 43, 7)];
    assert_same(&rt, "one", link_headers(&mut one, 17), 43);
    assert_same(&rt, "link of one", one, [span(0, 8, 43, 17)]);
}

#[test]
fn room_for_what_is_written(rt: HostRuntime) {
    let mut out = [9; 28];
    let len = write_headers(&THREE, &spans_of_three(), &mut out[..27]);
    assert_same(&rt, "length", len, Some(28));
    assert_same(&rt, "no bytes written", out, [9; 28]);
    let len = write_headers(&THREE, &spans_of_three(), &mut []);
    assert_same(&rt, "no room", len, Some(28));
}

#[test]
fn spans_that_hold_no_header(rt: HostRuntime) {
    let rows = [
        ("longer than the header", span(0, 16, 60, 0)),
        ("shorter than the header", span(16, 11, 51, 0)),
        ("of no bytes", span(0, 0, 60, 0)),
        ("over the end", span(24, 8, 44, 0)),
        ("after the end", span(29, 8, 44, 0)),
        ("at the largest offset", span(usize::MAX, 8, 44, 0)),
        ("of no extension number", span(0, 8, 17, 0)),
        ("of another layout", span(0, 8, 51, 0)),
    ];
    for (name, wrong) in rows {
        let mut out = [9; 64];
        let [first, _, _] = spans_of_three();
        let len = write_headers(&THREE, &[first, wrong], &mut out);
        assert_same(&rt, name, len, None);
        assert_same(&rt, name, out, [9; 64]);
    }
}
