//! Chains, and steps along them.
use crate::checks::assert_same;
use crate::spans::samples::{NO_FAULT, STAYS, span};
use ip_spans::{
    AuthFields, ChainCursor, ChainParts, FaultFields, FragmentFields, HeaderSpan, auth_fields,
    fragment_fields, parse_chain, parse_ipv4_chain,
};

/// Hop-by-hop options, destination options, routing, fragment, authentication and destination options.
const SIX: [u8; 52] = [
    60, 0, 0, 0, 0, 0, 0, 0, 43, 0, 0, 0, 0, 0, 0, 0, 44, 0, 0, 0, 0, 0, 0, 0, 51, 0, 0, 0, 0, 0,
    0, 0, 60, 1, 0, 0, 0, 0, 0, 0, 0, 0, 0, 0, 17, 0, 0, 0, 0, 0, 0, 0,
];

/// Returns the spans of the headers of `SIX`.
fn spans_of_six() -> [HeaderSpan; 6] {
    [
        span(0, 8, 0, 60),
        span(8, 8, 60, 43),
        span(16, 8, 43, 44),
        span(24, 8, 44, 51),
        span(32, 12, 51, 60),
        span(44, 8, 60, 17),
    ]
}

/// Returns the error of too few bytes in the slice: the header's layer, the layer that needs them, the number needed,
/// the number present, and the offset.
fn short(header: u8, layer: u8, required_len: usize, len: usize, offset: usize) -> FaultFields {
    FaultFields {
        required_len,
        len,
        offset,
        kind: 1,
        header,
        layer,
        len_source: 1,
        value: 0,
    }
}

/// Returns the error in the header of a layer at this offset.
fn content(header: u8, kind: u8, offset: usize) -> FaultFields {
    FaultFields {
        kind,
        offset,
        header,
        ..NO_FAULT
    }
}

/// Returns the number of headers, their length, and the number that follows them.
fn end_of(chain: &ChainParts) -> (usize, usize, u32) {
    (chain.headers, chain.len, chain.next_header)
}

#[test]
fn six_headers_in_arrays_of_each_length(rt: HostRuntime) {
    for room in 0..=8usize {
        let mut spans = [STAYS; 8];
        let chain = parse_chain(0, &SIX, &mut spans[..room]);
        assert_same(&rt, room, chain.headers, 6);
        assert_same(&rt, room, chain.len, 52);
        let put = room.min(6);
        assert_same(&rt, room, spans.get(..put), spans_of_six().get(..put));
        assert_same(&rt, room, spans.get(put..), [STAYS; 8].get(put..));
    }
}

#[test]
fn truncated_chains(rt: HostRuntime) {
    for len in 0..=52usize {
        let (headers, whole, next_header, fault) = match len {
            0..8 => (0, 0, 0, short(8, 7, 8, len, 0)),
            8..16 => (1, 8, 60, short(9, 7, 8, len - 8, 8)),
            16..24 => (2, 16, 43, short(10, 7, 8, len - 16, 16)),
            24..32 => (3, 24, 44, short(11, 11, 8, len - 24, 24)),
            32..44 => (4, 32, 51, short(4, 4, 12, len - 32, 32)),
            44..52 => (5, 44, 60, short(9, 7, 8, len - 44, 44)),
            _ => (6, 52, 17, NO_FAULT),
        };
        let wanted = ChainParts {
            headers,
            len: whole,
            fault,
            next_header,
            fragmented: 0,
        };
        assert_same(&rt, len, parse_chain(0, &SIX[..len], &mut []), wanted);
    }
}

#[test]
fn what_headers_say_is_wrong(rt: HostRuntime) {
    let again = parse_chain(0, &[0, 0, 0, 0, 0, 0, 0, 0], &mut []);
    assert_same(&rt, "twice", end_of(&again), (1, 8, 0));
    assert_same(&rt, "twice, fault", again.fault, content(8, 2, 8));
    let zero = parse_chain(51, &[17, 0, 0, 0, 0, 0, 0, 0, 0, 0, 0, 0], &mut []);
    assert_same(&rt, "zero length", end_of(&zero), (0, 0, 51));
    assert_same(&rt, "zero length, fault", zero.fault, content(4, 3, 0));
}

#[test]
fn a_fragment(rt: HostRuntime) {
    let chain = parse_chain(44, &[17, 0, 0, 0xe1, 1, 2, 3, 4], &mut []);
    let found = (chain.headers, chain.next_header, chain.fragmented);
    assert_same(&rt, "fragment", found, (1, 17, 1));
    let atomic = parse_chain(44, &[17, 0, 0, 6, 1, 2, 3, 4], &mut []);
    let found = (atomic.headers, atomic.next_header, atomic.fragmented);
    assert_same(&rt, "atomic fragment", found, (1, 17, 0));
}

#[test]
fn steps_along_six_headers(rt: HostRuntime) {
    let mut cursor = ChainCursor {
        offset: 0,
        number: 0,
    };
    for wanted in spans_of_six() {
        assert_same(&rt, wanted.offset, cursor.fault(&SIX), NO_FAULT);
        assert_same(&rt, wanted.offset, cursor.next_header(&SIX), Some(wanted));
    }
    let end = ChainCursor {
        offset: 52,
        number: 17,
    };
    for step in 0..3u32 {
        assert_same(&rt, step, cursor.next_header(&SIX), None);
        assert_same(&rt, step, cursor, end);
        assert_same(&rt, step, cursor.fault(&SIX), NO_FAULT);
    }
}

#[test]
fn cursors_from_anywhere(rt: HostRuntime) {
    let rows = [
        ("after the bytes", 53, 44, short(11, 11, 8, 0, 53)),
        (
            "at the largest offset",
            usize::MAX,
            60,
            short(9, 7, 8, 0, usize::MAX),
        ),
        ("hop by hop options later", 8, 0, content(8, 2, 8)),
        ("no extension number", 8, 17, NO_FAULT),
        (
            "an authentication header of no length",
            40,
            51,
            content(4, 3, 40),
        ),
    ];
    for (name, offset, number, fault) in rows {
        let mut cursor = ChainCursor { offset, number };
        assert_same(&rt, name, cursor.next_header(&SIX), None);
        assert_same(&rt, name, cursor.fault(&SIX), fault);
        assert_same(&rt, name, (cursor.offset, cursor.number), (offset, number));
    }
}

#[test]
fn chains_of_ipv4(rt: HostRuntime) {
    let mut spans = [STAYS; 2];
    let bytes = [51, 1, 0, 0, 0, 0, 0, 0, 0, 0, 0, 0, 0x11, 0x01];
    let chain = parse_ipv4_chain(51, &bytes, &mut spans);
    assert_same(&rt, "chain", end_of(&chain), (1, 12, 51));
    assert_same(&rt, "chain, fault", chain.fault, NO_FAULT);
    assert_same(&rt, "chain, fragmented", chain.fragmented, 0);
    assert_same(&rt, "spans", spans, [span(0, 12, 51, 51), STAYS]);
    let chain = parse_ipv4_chain(51, &bytes, &mut []);
    assert_same(&rt, "no room", chain.headers, 1);
    let none = parse_ipv4_chain(60, &bytes, &mut spans);
    assert_same(&rt, "no extension number", end_of(&none), (0, 0, 60));
    assert_same(&rt, "no extension number, fault", none.fault, NO_FAULT);
    let zero = parse_ipv4_chain(51, &[17, 0, 0, 0, 0, 0, 0, 0, 0, 0, 0, 0], &mut spans);
    assert_same(&rt, "zero length", zero.fault, content(4, 3, 0));
    let truncated = parse_ipv4_chain(51, &bytes[..11], &mut spans);
    assert_same(&rt, "truncated", truncated.fault, short(4, 4, 12, 11, 0));
}

#[test]
fn fields_of_single_headers(rt: HostRuntime) {
    let fragment = [17, 0, 0, 0xe1, 1, 2, 3, 4, 9];
    let wanted = FragmentFields {
        identification: 0x0102_0304,
        fragment_offset: 224,
        more_fragments: 1,
        next_header: 17,
    };
    assert_same(&rt, "fragment", fragment_fields(&fragment), Some(wanted));
    let truncated = fragment_fields(&fragment[..7]);
    assert_same(&rt, "truncated fragment", truncated, None);
    let auth = [17, 1, 0xff, 0xff, 0, 0, 0, 1, 0, 0, 0, 2];
    let wanted = AuthFields {
        len: 12,
        spi: 1,
        sequence_number: 2,
        next_header: 17,
    };
    assert_same(&rt, "authentication", auth_fields(&auth), Some(wanted));
    let truncated = auth_fields(&auth[..11]);
    assert_same(&rt, "truncated authentication", truncated, None);
    let zero = auth_fields(&[17, 0, 0, 0, 0, 0, 0, 0, 0, 0, 0, 0]);
    assert_same(&rt, "zero length", zero, None);
}
