//! Errors as text.
use crate::checks::{assert_bytes, assert_same, assert_that};
use crate::spans::samples::NO_FAULT;
use ip_filter::Filter;
use ip_spans::{FaultFields, display_text, expected_text, fault_text};
use std::fmt::{Display, Formatter, Write};
use std::process::Abort;

const SHORT: FaultFields = FaultFields {
    required_len: 8,
    offset: 8,
    kind: 1,
    layer: 7,
    len_source: 1,
    ..NO_FAULT
};

const LARGEST: FaultFields = FaultFields {
    required_len: usize::MAX,
    len: usize::MAX,
    offset: usize::MAX,
    kind: 1,
    layer: 9,
    len_source: 3,
    ..NO_FAULT
};

/// Returns an error with only a kind and a value.
fn of_kind(kind: u8, value: u32) -> FaultFields {
    FaultFields {
        kind,
        value,
        ..NO_FAULT
    }
}

/// Returns each kind with its text.
fn rows() -> [(FaultFields, &'static str); 19] {
    [
        (NO_FAULT, ""),
        (
            SHORT,
            "not enough bytes for the extension header at offset 8: 8 needed, 0 there",
        ),
        (
            FaultFields {
                header: 10,
                ..SHORT
            },
            "not enough bytes for the routing header at offset 8: 8 needed, 0 there",
        ),
        (
            LARGEST,
            "not enough bytes for the destination options header at offset 18446744073709551615: 18446744073709551615 needed, 18446744073709551615 there by the payload length",
        ),
        (
            FaultFields {
                layer: 3,
                len_source: 2,
                ..LARGEST
            },
            "not enough bytes for the IPv4 packet at offset 18446744073709551615: 18446744073709551615 needed, 18446744073709551615 there by the total length",
        ),
        (
            FaultFields {
                header: 4,
                layer: 4,
                offset: 0,
                ..SHORT
            },
            "not enough bytes for the authentication header at offset 0: 8 needed, 0 there",
        ),
        (
            of_kind(2, 0),
            "the hop-by-hop options header doesn't follow the IPv6 header directly",
        ),
        (
            FaultFields {
                header: 8,
                offset: 48,
                ..of_kind(2, 0)
            },
            "the hop-by-hop options header at offset 48 doesn't follow the IPv6 header directly",
        ),
        (
            of_kind(3, 0),
            "the length field of the authentication header is 0",
        ),
        (
            FaultFields {
                offset: 20,
                ..of_kind(3, 0)
            },
            "the length field of the authentication header at offset 20 is 0",
        ),
        (
            FaultFields {
                header: 4,
                ..of_kind(3, 0)
            },
            "the length field of the authentication header at offset 0 is 0",
        ),
        (
            of_kind(4, 0),
            "the IP version is 0, where 4 or 6 is required",
        ),
        (
            of_kind(4, 15),
            "the IP version is 15, where 4 or 6 is required",
        ),
        (
            of_kind(4, 16),
            "the IP version is 16, where 4 or 6 is required",
        ),
        (
            of_kind(5, 4),
            "the internet header length of the IPv4 header is 4, where at least 5 is required",
        ),
        (
            of_kind(5, 20),
            "the internet header length of the IPv4 header is 20, where at least 5 is required",
        ),
        (
            of_kind(4, 255),
            "the IP version is 255, where 4 or 6 is required",
        ),
        (
            of_kind(5, 255),
            "the internet header length of the IPv4 header is 255, where at least 5 is required",
        ),
        (of_kind(6, 0), ""),
    ]
}

/// Checks that the text starts with these words and a zero, and that each byte after the zero is 1.
fn check_text(rt: &impl Abort, words: &str, text: &[u8; 256]) {
    let len = words.len();
    assert!(rt; len < text.len(), "{words}");
    assert_bytes(rt, words, &text[..len], words.as_bytes());
    assert_same(rt, words, text[len], 0);
    assert_that(rt, words, text[len + 1..].iter().all(|byte| *byte == 1));
}

#[test]
fn words_of_each_kind(rt: HostRuntime) {
    for (fault, words) in rows() {
        let len = words.len();
        let mut text = [1; 256];
        assert_same(&rt, words, fault_text(&fault, &mut text), len);
        check_text(&rt, words, &text);
    }
}

#[test]
fn room_for_words(rt: HostRuntime) {
    for (fault, words) in rows() {
        let len = words.len();
        let mut text = [1; 256];
        assert!(rt; len < text.len(), "{words}");
        assert_same(&rt, words, fault_text(&fault, &mut text[..len]), len);
        assert_that(&rt, words, text.iter().all(|byte| *byte == 1));
        assert_same(&rt, words, fault_text(&fault, &mut text[..=len]), len);
        check_text(&rt, words, &text);
    }
}

/// Returns the code of each layer, with the text if it needs bytes and its length is that of the slice.
fn layer_rows() -> [(u8, &'static str); 12] {
    [
        (
            1,
            "not enough bytes for the IP header at offset 40: 8 needed, 7 there",
        ),
        (
            2,
            "not enough bytes for the IPv4 header at offset 40: 8 needed, 7 there",
        ),
        (
            3,
            "not enough bytes for the IPv4 packet at offset 40: 8 needed, 7 there",
        ),
        (
            4,
            "not enough bytes for the authentication header at offset 40: 8 needed, 7 there",
        ),
        (
            5,
            "not enough bytes for the IPv6 header at offset 40: 8 needed, 7 there",
        ),
        (
            6,
            "not enough bytes for the IPv6 packet at offset 40: 8 needed, 7 there",
        ),
        (
            7,
            "not enough bytes for the extension header at offset 40: 8 needed, 7 there",
        ),
        (
            8,
            "not enough bytes for the hop-by-hop options header at offset 40: 8 needed, 7 there",
        ),
        (
            9,
            "not enough bytes for the destination options header at offset 40: 8 needed, 7 there",
        ),
        (
            10,
            "not enough bytes for the routing header at offset 40: 8 needed, 7 there",
        ),
        (
            11,
            "not enough bytes for the fragment header at offset 40: 8 needed, 7 there",
        ),
        (
            12,
            "not enough bytes for the ICMP message at offset 40: 8 needed, 7 there",
        ),
    ]
}

#[test]
fn words_of_each_layer(rt: HostRuntime) {
    let short = FaultFields {
        len: 7,
        offset: 40,
        ..SHORT
    };
    for (code, words) in layer_rows() {
        let mut text = [1; 256];
        let fault = FaultFields {
            layer: code,
            ..short
        };
        assert_same(&rt, words, fault_text(&fault, &mut text), words.len());
        check_text(&rt, words, &text);
        let mut text = [1; 256];
        let fault = FaultFields {
            header: code,
            ..short
        };
        assert_same(&rt, words, fault_text(&fault, &mut text), words.len());
        check_text(&rt, words, &text);
    }
}

#[test]
fn words_of_each_length_source(rt: HostRuntime) {
    let rows = [
        (
            1,
            "not enough bytes for the extension header at offset 8: 8 needed, 0 there",
        ),
        (
            2,
            "not enough bytes for the extension header at offset 8: 8 needed, 0 there by the total length",
        ),
        (
            3,
            "not enough bytes for the extension header at offset 8: 8 needed, 0 there by the payload length",
        ),
    ];
    for (len_source, words) in rows {
        let mut text = [1; 256];
        let fault = FaultFields {
            len_source,
            ..SHORT
        };
        assert_same(&rt, words, fault_text(&fault, &mut text), words.len());
        check_text(&rt, words, &text);
    }
}

/// Checks that the error has an empty text.
fn check_empty(rt: &impl Abort, fault: &FaultFields) {
    let mut text = [1; 2];
    assert_same(rt, *fault, fault_text(fault, &mut text), 0);
    assert_same(rt, *fault, text, [0, 1]);
}

#[test]
fn kinds_that_are_none(rt: HostRuntime) {
    for kind in 6..=255u8 {
        check_empty(&rt, &FaultFields { kind, ..SHORT });
    }
}

/// Checks that an error in a layer with this code has an empty text, also if it is in a routing header.
fn check_layer_is_none(rt: &impl Abort, code: u8) {
    let of_layer = FaultFields {
        layer: code,
        ..SHORT
    };
    check_empty(rt, &of_layer);
    check_empty(
        rt,
        &FaultFields {
            header: 10,
            ..of_layer
        },
    );
}

#[test]
fn layers_that_are_none(rt: HostRuntime) {
    check_layer_is_none(&rt, 0);
    for code in 13..=255u8 {
        check_layer_is_none(&rt, code);
        check_empty(
            &rt,
            &FaultFields {
                header: code,
                ..SHORT
            },
        );
    }
}

#[test]
fn length_sources_that_are_none(rt: HostRuntime) {
    check_empty(
        &rt,
        &FaultFields {
            len_source: 0,
            ..SHORT
        },
    );
    for len_source in 4..=255u8 {
        check_empty(
            &rt,
            &FaultFields {
                len_source,
                ..SHORT
            },
        );
    }
}

#[test]
fn values_that_are_none(rt: HostRuntime) {
    for value in [256, 260, 261, 65536, u32::MAX] {
        check_empty(&rt, &of_kind(4, value));
        check_empty(&rt, &of_kind(5, value));
    }
}

/// Returns what the text of a filter needs, by its code, with its words.
fn expected_rows() -> [(u8, &'static str); 22] {
    [
        (1, "a term, `not` or `(`"),
        (2, "`and`, `or` or the end"),
        (3, "`and`, `or` or `)`"),
        (4, "4 or 6"),
        (
            5,
            "0 (`hop-by-hop`), 43 (`routing`), 44 (`fragment`), 51 (`authentication`), 60 (`destination-options`), or `leads-to N` in place of `header N`",
        ),
        (6, "a number from 0 to 255 or the name of a protocol"),
        (7, "`=`, `!=`, `<`, `<=`, `>` or `>=`"),
        (8, "a number from 0 to 18446744073709551615"),
        (9, "a number from 0 to 4294967295"),
        (10, "an address or a prefix"),
        (11, "no more than 64 terms"),
        (12, "no more than 16 levels of parentheses"),
        (13, "a number from 0 to 255"),
        (14, "an address, a prefix or `port`"),
        (15, "an address"),
        (16, "a port or a range of ports, as 1024-65535"),
        (
            17,
            "`fin`, `syn`, `rst`, `psh`, `ack`, `urg`, `ece` or `cwr`, or a list as syn,ack or syn/syn,ack",
        ),
        (
            18,
            "a number from 0 to 255 or the name of a type, as icmp-echo",
        ),
        (
            19,
            "a number from 0 to 255 or the name of a type, as icmp6-echo",
        ),
        (20, "`src`"),
        (21, "`dst`"),
        (22, "a mask that begins with its ones, as 255.255.255.0"),
    ]
}

#[test]
fn words_of_what_is_expected(rt: HostRuntime) {
    for (code, words) in expected_rows() {
        let mut text = [1; 256];
        assert_same(&rt, words, expected_text(code, &mut text), words.len());
        check_text(&rt, words, &text);
    }
}

#[test]
fn codes_of_nothing_expected(rt: HostRuntime) {
    let mut text = [1; 2];
    assert_same(&rt, 0, expected_text(0, &mut text), 0);
    assert_same(&rt, 0, text, [0, 1]);
    for code in 27..=255u8 {
        let mut text = [1; 2];
        assert_same(&rt, code, expected_text(code, &mut text), 0);
        assert_same(&rt, code, text, [0, 1]);
    }
}

#[test]
fn words_of_filter_errors(rt: HostRuntime) {
    let rows = [
        ("", "expected a term, `not` or `(` at byte 0"),
        (
            "fragment fault",
            "expected `and`, `or` or the end at byte 9",
        ),
        ("version 5", "expected 4 or 6 at byte 8"),
        (
            "payload > 18446744073709551616",
            "expected a number from 0 to 18446744073709551615 at byte 10",
        ),
        (
            "(((((((((((((((((fragment)))))))))))))))))",
            "expected no more than 16 levels of parentheses at byte 16",
        ),
    ];
    for (filter, words) in rows {
        let mut text = [1; 256];
        let error = Filter::parse(filter.as_bytes()).err();
        assert_same(&rt, words, display_text(&error, &mut text), words.len());
        check_text(&rt, words, &text);
    }
}

/// A text of so many letters x, which are written one by one.
struct Letters(usize);

impl Display for Letters {
    fn fmt<W: Write>(&self, f: &mut Formatter<W>) -> std::fmt::Result {
        for _ in 0..self.0 {
            f.write_str("x")?;
        }
        Ok(())
    }
}

/// Checks that the text is 255 letters x and a zero.
fn check_letters(rt: &impl Abort, text: &[u8; 256]) {
    let letters = &text[..255];
    assert_that(rt, "255 bytes", letters.iter().all(|byte| *byte == b'x'));
    assert_same(rt, "255 bytes", text[255], 0);
}

#[test]
fn words_of_255_and_256_bytes(rt: HostRuntime) {
    let mut text = [1; 256];
    let len = display_text(&Some(Letters(255)), &mut text);
    assert_same(&rt, "255 bytes", len, 255);
    check_letters(&rt, &text);
    let mut text = [1; 256];
    let len = display_text(&Some(Letters(256)), &mut text);
    assert_same(&rt, "256 bytes", len, 0);
    check_text(&rt, "", &text);
}
