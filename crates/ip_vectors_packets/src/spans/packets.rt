//! Packets.
use crate::checks::assert_same;
use crate::spans::samples::{NO_FAULT, STAYS, span};
use ip_spans::{
    FaultFields, HeaderSpan, PacketParts, PayloadSpan, find_payload, find_payload_lax,
    parse_packet, parse_packet_lax,
};
use std::alloc::{AllocError, Global};
use std::process::Abort;
use std::test::Fail;

/// Returns the payload in a packet's parts.
fn payload_of(packet: &PacketParts) -> PayloadSpan {
    PayloadSpan {
        base_len: packet.base_len,
        offset: packet.payload_offset,
        len: packet.payload_len,
        version: packet.version,
        number: packet.payload_number,
        fragmented: packet.fragmented,
        len_source: packet.len_source,
    }
}

/// Returns an IPv6 packet with these bytes after its base header.
fn ipv6_bytes(
    alloc: Global,
    payload_length: u8,
    next_header: u8,
    after: &[u8],
) -> Result<Vec<u8>, AllocError> {
    let mut bytes = Vec::from_array(alloc, [0x60, 0, 0, 0, 0, payload_length, next_header, 64])?;
    bytes.extend_from_slice(&[0; 32])?;
    bytes.extend_from_slice(after)?;
    Ok(bytes)
}

/// Returns the error of too few bytes for a layer in a packet: the number needed, the number present by which source,
/// and the offset.
fn short(layer: u8, required_len: usize, len: usize, len_source: u8, offset: usize) -> FaultFields {
    FaultFields {
        required_len,
        len,
        offset,
        kind: 1,
        layer,
        len_source,
        ..NO_FAULT
    }
}

/// Checks the payload of an accepted packet.
fn check_payload(rt: &impl Abort, bytes: &[u8], wanted: &PacketParts) {
    assert_same(rt, "payload", find_payload(bytes), Ok(payload_of(wanted)));
}

/// Checks the parts and the payload of a packet that the lax calls accept.
fn check_lax(rt: &impl Abort, bytes: &[u8], wanted: &PacketParts) {
    let parts = parse_packet_lax(bytes, &mut []);
    assert_same(rt, "lax parts", parts, Ok(*wanted));
    let payload = find_payload_lax(bytes);
    assert_same(rt, "lax payload", payload, Ok(payload_of(wanted)));
}

#[test]
fn a_packet_with_two_headers(rt: HostRuntime) -> Result<(), Fail> {
    let after = [
        44, 0, 0, 0, 0, 0, 0, 0, 17, 0, 0, 1, 0, 0, 0, 0, 1, 2, 3, 4, 5, 6, 7, 8,
    ];
    let bytes = ipv6_bytes(rt.alloc(), 23, 60, &after)?;
    let wanted = PacketParts {
        base_len: 40,
        headers: 2,
        payload_offset: 56,
        payload_len: 7,
        version: 6,
        payload_number: 17,
        fragmented: 1,
        len_source: 3,
    };
    let mut spans = [STAYS; 3];
    assert_same(&rt, "parts", parse_packet(&bytes, &mut spans), Ok(wanted));
    let stored = [span(40, 8, 60, 44), span(48, 8, 44, 17), STAYS];
    assert_same(&rt, "spans", spans, stored);
    check_payload(&rt, &bytes, &wanted);
    check_lax(&rt, &bytes, &wanted);
    Ok(())
}

#[test]
fn an_ipv4_packet_with_an_authentication_header(rt: HostRuntime) -> Result<(), Fail> {
    let mut bytes = Vec::from_array(rt.alloc(), [0x46, 0, 0, 38, 0, 0, 0x20, 0, 64, 51, 0, 0])?;
    bytes.extend_from_slice(&[0; 12])?;
    bytes.extend_from_slice(&[6, 1, 0, 0, 0, 0, 0, 0, 0, 0, 0, 0, 1, 2, 3])?;
    let wanted = PacketParts {
        base_len: 24,
        headers: 1,
        payload_offset: 36,
        payload_len: 2,
        version: 4,
        payload_number: 6,
        fragmented: 1,
        len_source: 2,
    };
    let mut spans = [STAYS; 1];
    assert_same(&rt, "parts", parse_packet(&bytes, &mut spans), Ok(wanted));
    assert_same(&rt, "spans", spans, [span(24, 12, 51, 6)]);
    check_payload(&rt, &bytes, &wanted);
    check_lax(&rt, &bytes, &wanted);
    Ok(())
}

/// Checks that the bytes are refused with this error, and that nothing is stored in the array.
fn is_refused(rt: &impl Abort, name: &str, bytes: &[u8], fault: FaultFields) {
    let mut spans = [STAYS; 2];
    assert_same(rt, name, parse_packet(bytes, &mut spans), Err(fault));
    assert_same(rt, name, spans, [STAYS; 2]);
    assert_same(rt, name, parse_packet_lax(bytes, &mut spans), Err(fault));
    assert_same(rt, name, spans, [STAYS; 2]);
    assert_same(rt, name, find_payload(bytes), Err(fault));
    assert_same(rt, name, find_payload_lax(bytes), Err(fault));
}

#[test]
fn no_base_header(rt: HostRuntime) {
    let version = FaultFields {
        kind: 4,
        value: 1,
        ..NO_FAULT
    };
    let header_length = FaultFields {
        kind: 5,
        value: 4,
        ..NO_FAULT
    };
    is_refused(&rt, "empty", &[], short(1, 1, 0, 1, 0));
    is_refused(&rt, "version 1", &[0x10], version);
    is_refused(&rt, "header length 4", &[0x44], header_length);
    is_refused(&rt, "span short", &[0x60, 0], short(5, 40, 2, 1, 0));
}

#[test]
fn extension_headers_that_are_none(rt: HostRuntime) -> Result<(), Fail> {
    let half = ipv6_bytes(rt.alloc(), 4, 60, &[17; 8])?;
    is_refused(&rt, "half a header", &half, short(7, 8, 4, 3, 40));
    let later = FaultFields {
        kind: 2,
        ..NO_FAULT
    };
    let twice = ipv6_bytes(rt.alloc(), 8, 0, &[0; 8])?;
    is_refused(&rt, "hop by hop options twice", &twice, later);
    Ok(())
}

#[test]
fn a_truncated_packet(rt: HostRuntime) -> Result<(), Fail> {
    let bytes = ipv6_bytes(rt.alloc(), 100, 60, &[17, 0, 0, 0, 0, 0, 0, 0, 1, 2, 3])?;
    let accepted = PacketParts {
        base_len: 40,
        headers: 1,
        payload_offset: 48,
        payload_len: 3,
        version: 6,
        payload_number: 17,
        fragmented: 0,
        len_source: 1,
    };
    let refused = short(6, 140, 51, 1, 0);
    assert_same(&rt, "parts", parse_packet(&bytes, &mut []), Err(refused));
    assert_same(&rt, "payload", find_payload(&bytes), Err(refused));
    check_lax(&rt, &bytes, &accepted);
    let short_auth = ipv6_bytes(rt.alloc(), 100, 51, &[17, 1, 0, 0, 0, 0, 0, 0, 0, 0, 0])?;
    let fault = short(4, 12, 11, 1, 40);
    let parts = parse_packet_lax(&short_auth, &mut []);
    assert_same(&rt, "truncated header", parts, Err(fault));
    let payload = find_payload_lax(&short_auth);
    assert_same(&rt, "truncated header, payload", payload, Err(fault));
    Ok(())
}
