//! What is in headers: options of RFC 8200, section 4.2, with types of IANA's list, and addresses of routing headers.
use crate::checks::assert_same;
use ip_spans::{OptionCursor, OptionSpan, RoutingFields, routing_address, routing_fields};

/// Returns the option at this offset: its type, the length of its data, and what its type says.
fn option(
    offset: usize,
    option_type: u8,
    data_len: usize,
    if_unknown: u8,
    may_change: u8,
) -> Option<OptionSpan> {
    let header_len = if option_type == 0 { 1 } else { 2 };
    Some(OptionSpan {
        offset,
        data_offset: offset.saturating_add(header_len),
        data_len,
        option_type,
        if_unknown,
        may_change,
    })
}

#[test]
fn options_of_a_header(rt: HostRuntime) {
    // Pad1, router alert (RFC 2711), the RPL option (RFC 6553), Jumbo Payload (RFC 2675), PadN; then another header
    let bytes = [
        59, 2, 0, 5, 2, 0, 0, 0x63, 4, 0, 0, 0, 0, 0xc2, 4, 0, 1, 0, 0, 1, 3, 0, 0, 0, 1, 9,
    ];
    let mut cursor = OptionCursor { offset: 2, end: 24 };
    let wanted = [
        option(2, 0, 0, 0, 0),
        option(3, 5, 2, 0, 0),
        option(7, 0x63, 4, 1, 1),
        option(13, 0xc2, 4, 3, 0),
        option(19, 1, 3, 0, 0),
        None,
        None,
    ];
    for option in wanted {
        assert_same(&rt, cursor.offset, cursor.next_option(&bytes), option);
    }
    assert_same(
        &rt,
        "end",
        cursor,
        OptionCursor {
            offset: 24,
            end: 24,
        },
    );
}

#[test]
fn malformed_options(rt: HostRuntime) {
    // PadN, and endpoint identification, whose data would end a byte after the header
    let bytes = [59, 0, 1, 0, 0x8a, 3, 0, 0, 0x8a, 0, 0, 0];
    let mut cursor = OptionCursor { offset: 2, end: 8 };
    assert_same(
        &rt,
        "PadN",
        cursor.next_option(&bytes),
        option(2, 1, 0, 0, 0),
    );
    assert_same(&rt, "past the end", cursor.next_option(&bytes), None);
    assert_same(&rt, "at it", cursor.offset, 4);
    let mut whole = OptionCursor { offset: 4, end: 9 };
    let wanted = option(4, 0x8a, 3, 2, 0);
    assert_same(&rt, "a byte more", whole.next_option(&bytes), wanted);
    let mut last = OptionCursor { offset: 7, end: 8 };
    assert_same(
        &rt,
        "Pad1 at the end",
        last.next_option(&bytes),
        option(7, 0, 0, 0, 0),
    );
    let mut alone = OptionCursor { offset: 4, end: 5 };
    assert_same(&rt, "a type alone", alone.next_option(&bytes), None);
    for (offset, end) in [(8, 8), (9, 8), (12, usize::MAX), (usize::MAX, 8)] {
        let mut cursor = OptionCursor { offset, end };
        assert_same(&rt, offset, cursor.next_option(&bytes), None);
        assert_same(&rt, offset, cursor, OptionCursor { offset, end });
    }
}

/// An address of the documentation prefix, and a destination address.
const ADDRESS: [u8; 16] = [0x20, 1, 0xd, 0xb8, 0, 0, 0, 0, 1, 2, 3, 4, 5, 6, 7, 8];

const DESTINATION: [u8; 16] = [0x20, 1, 0xd, 0xb8, 9, 9, 9, 9, 9, 9, 9, 9, 9, 9, 9, 9];

/// Returns the fields of a routing header with 59 as next header.
fn fields(
    len: usize,
    routing_type: u8,
    segments_left: u8,
    addresses: usize,
    address_len: usize,
    last_address_len: usize,
) -> Option<RoutingFields> {
    Some(RoutingFields {
        len,
        addresses,
        address_len,
        last_address_len,
        routing_type,
        segments_left,
        next_header: 59,
    })
}

#[test]
fn home_address(rt: HostRuntime) {
    let mut bytes = [0; 24];
    bytes[..4].copy_from_slice(&[59, 2, 2, 1]);
    bytes[8..].copy_from_slice(&ADDRESS);
    let wanted = fields(24, 2, 1, 1, 16, 16);
    assert_same(&rt, "fields", routing_fields(&bytes), wanted);
    let found = routing_address(&bytes, 0, &DESTINATION);
    assert_same(&rt, "the address", found, Some(ADDRESS));
    assert_same(
        &rt,
        "no other",
        routing_address(&bytes, 1, &DESTINATION),
        None,
    );
    assert_same(&rt, "a byte less", routing_fields(&bytes[..23]), None);
    bytes[3] = 9;
    let wanted = fields(24, 2, 9, 1, 16, 16);
    assert_same(&rt, "9 segments left", routing_fields(&bytes), wanted);
}

#[test]
fn segment_list(rt: HostRuntime) {
    let mut bytes = [0; 48];
    bytes[..5].copy_from_slice(&[59, 5, 4, 0, 1]);
    bytes[24..40].copy_from_slice(&ADDRESS);
    let wanted = fields(48, 4, 0, 2, 16, 16);
    assert_same(&rt, "two, and a TLV", routing_fields(&bytes), wanted);
    let found = routing_address(&bytes, 1, &DESTINATION);
    assert_same(&rt, "the second", found, Some(ADDRESS));
    bytes[4] = 2;
    let wanted = fields(48, 4, 0, 0, 0, 0);
    assert_same(&rt, "three don't fit", routing_fields(&bytes), wanted);
    assert_same(&rt, "none", routing_address(&bytes, 0, &DESTINATION), None);
}

#[test]
fn source_route(rt: HostRuntime) {
    let mut bytes = [0; 24];
    bytes[..6].copy_from_slice(&[59, 2, 3, 2, 0x8a, 0x20]);
    bytes[8..16].copy_from_slice(&ADDRESS[8..]);
    bytes[16..22].copy_from_slice(&ADDRESS[10..]);
    let wanted = fields(24, 3, 2, 2, 8, 6);
    assert_same(&rt, "two, and padding", routing_fields(&bytes), wanted);
    let first = [0x20, 1, 0xd, 0xb8, 9, 9, 9, 9, 1, 2, 3, 4, 5, 6, 7, 8];
    let found = routing_address(&bytes, 0, &DESTINATION);
    assert_same(&rt, "8 bytes left out", found, Some(first));
    let second = [0x20, 1, 0xd, 0xb8, 9, 9, 9, 9, 9, 9, 3, 4, 5, 6, 7, 8];
    let found = routing_address(&bytes, 1, &DESTINATION);
    assert_same(&rt, "10 bytes left out", found, Some(second));
    bytes[5] = 0x10;
    let wanted = fields(24, 3, 2, 0, 0, 0);
    assert_same(&rt, "a byte too many", routing_fields(&bytes), wanted);
    bytes[2] = 5;
    let wanted = fields(24, 5, 2, 0, 0, 0);
    assert_same(&rt, "another type", routing_fields(&bytes), wanted);
}
