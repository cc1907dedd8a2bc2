//! Whole packets dissected: each part of each row is worked out by hand from RFC 791, RFC 4302 and RFC 8200.
use crate::checks::assert_same;
use crate::plain_summary::plain_summary;
use crate::samples::{ipv4_bytes, ipv6_bytes, len_error_at};
use etherparse_ip::LenSource;
use etherparse_ip::err::ip::{HeadersError, SliceError};
use etherparse_ip::err::{Layer, LenError, ip_auth, ipv6_exts};
use ip_dissect::{BaseHeader, End, Fragment, FragmentKind, dissect};
use std::process::Abort;
use std::test::Fail;

/// The parts of a packet as numbers: the length of the base header, the stated length, the length of the extension
/// headers, the next header, the length of the payload, how many bytes are missing, and the length of the padding.
type Numbers = (usize, Option<usize>, usize, u8, usize, usize, usize);

/// Returns the bytes of a base header.
fn base_bytes<'a>(base: &Option<BaseHeader<'a>>) -> &'a [u8] {
    match base {
        Some(BaseHeader::Ipv4(header)) => header.slice(),
        Some(BaseHeader::Ipv6(header)) => header.slice(),
        None => &[],
    }
}

/// Dissects the packet and compares its parts with these. Base header, extension headers, payload and padding follow
/// one another.
fn check(
    rt: &impl Abort,
    name: &str,
    bytes: &[u8],
    numbers: Numbers,
    fragment: Option<Fragment>,
    end: &End,
) {
    let (base, stated_len, extensions, next_header, payload, missing, padding) = numbers;
    let found = dissect(bytes);
    let after_base = base.saturating_add(extensions);
    let after_headers = after_base.saturating_add(payload);
    assert_same(rt, name, Some(base_bytes(&found.base)), bytes.get(..base));
    assert_same(rt, name, found.stated_len, stated_len);
    let wanted = bytes.get(base..after_base);
    assert_same(rt, name, Some(found.extensions), wanted);
    assert_same(rt, name, found.next_header.0, next_header);
    let wanted = bytes.get(after_base..after_headers);
    assert_same(rt, name, Some(found.payload), wanted);
    assert_same(rt, name, found.missing, missing);
    assert_same(rt, name, found.padding.len(), padding);
    assert_same(rt, name, Some(found.padding), bytes.get(after_headers..));
    assert_same(rt, name, found.fragment, fragment);
    assert_same(rt, name, &found.end, end);
    let is_plain = extensions == 0 && fragment.is_none() && *end == End::Payload;
    let wanted = if is_plain { Some(numbers) } else { None };
    assert_same(rt, name, plain_numbers(bytes), wanted);
}

/// Returns the parts of a packet without extension headers that is no fragment, by its summary.
fn plain_numbers(bytes: &[u8]) -> Option<Numbers> {
    let summary = plain_summary(bytes)?;
    Some((
        summary.base_len,
        summary.stated_len,
        summary.extensions_len,
        summary.next_header.0,
        summary.payload_len,
        summary.missing,
        summary.padding_len,
    ))
}

/// Returns a fragment.
fn fragment(identification: u32, offset: u16, kind: FragmentKind) -> Option<Fragment> {
    Some(Fragment {
        identification,
        offset,
        kind,
    })
}

/// Returns the end at a header of which some bytes aren't here.
fn truncated(error: LenError, header: Option<Layer>) -> End {
    End::Truncated { error, header }
}

/// Returns the end at a header that doesn't fit the packet.
fn too_long(error: LenError, header: Option<Layer>) -> End {
    let error = SliceError::Len(error);
    End::Fault { error, header }
}

#[test]
fn ipv6_payloads(rt: HostRuntime) -> Result<(), Fail> {
    let alloc = rt.alloc();
    let rows = [
        (
            "8 bytes of UDP and 3 bytes of padding",
            ipv6_bytes(alloc, 8, 17, &[1, 2, 3, 4, 5, 6, 7, 8, 9, 10, 11])?,
            (40, Some(48), 0, 17, 8, 0, 3),
        ),
        (
            "no payload length: all bytes belong to the packet",
            ipv6_bytes(alloc, 0, 17, &[1, 2, 3, 4, 5, 6, 7, 8, 9, 10, 11])?,
            (40, None, 0, 17, 11, 0, 0),
        ),
        (
            "8 of 20 bytes are here",
            ipv6_bytes(alloc, 20, 17, &[1, 2, 3, 4, 5, 6, 7, 8])?,
            (40, Some(60), 0, 17, 8, 12, 0),
        ),
    ];
    for (name, bytes, numbers) in &rows {
        check(&rt, name, bytes, *numbers, None, &End::Payload);
    }
    Ok(())
}

#[test]
fn ipv6_fragments(rt: HostRuntime) -> Result<(), Fail> {
    let alloc = rt.alloc();
    let atomic = [17, 0, 0, 0, 0, 0, 0, 9, 1, 2, 3, 4];
    let first = [60, 0, 0, 1, 0, 0, 0, 9, 17, 0, 1, 4, 0, 0, 0, 0];
    let middle = [
        60, 0, 0x05, 0xc9, 0, 0, 0, 7, 0xde, 0xad, 0xbe, 0xef, 1, 2, 3, 4,
    ];
    let last = [60, 0, 0x00, 0x08, 0, 0, 1, 0];
    let rows = [
        (
            "an atomic fragment",
            ipv6_bytes(alloc, 12, 44, &atomic)?,
            (40, Some(52), 8, 17, 4, 0, 0),
            fragment(9, 0, FragmentKind::Atomic),
            End::Payload,
        ),
        (
            "a first fragment, with destination options after its header",
            ipv6_bytes(alloc, 16, 44, &first)?,
            (40, Some(56), 16, 17, 0, 0, 0),
            fragment(9, 0, FragmentKind::First),
            End::Payload,
        ),
        (
            "a middle fragment at 8 * 185 bytes, whose payload is not destination options",
            ipv6_bytes(alloc, 16, 44, &middle)?,
            (40, Some(56), 8, 60, 8, 0, 0),
            fragment(7, 1480, FragmentKind::Middle),
            End::LaterFragment,
        ),
        (
            "a last fragment at 8 * 1 bytes",
            ipv6_bytes(alloc, 8, 44, &last)?,
            (40, Some(48), 8, 60, 0, 0, 0),
            fragment(256, 8, FragmentKind::Last),
            End::LaterFragment,
        ),
    ];
    for (name, bytes, numbers, fragment, end) in &rows {
        check(&rt, name, bytes, *numbers, *fragment, end);
    }
    Ok(())
}

#[test]
fn ipv6_truncated_headers(rt: HostRuntime) -> Result<(), Fail> {
    let alloc = rt.alloc();
    let slice = LenSource::Slice;
    let options = len_error_at(16, 8, slice, Layer::Ipv6ExtHeader, 40);
    let fragment = len_error_at(8, 3, slice, Layer::Ipv6FragHeader, 40);
    let base = len_error_at(40, 39, slice, Layer::Ipv6Header, 0);
    let routing = len_error_at(24, 2, slice, Layer::Ipv6ExtHeader, 40);
    let first = len_error_at(8, 1, slice, Layer::Ipv6ExtHeader, 40);
    let auth = len_error_at(16, 2, slice, Layer::IpAuthHeader, 40);
    let rows = [
        (
            "16 bytes of options, of which 8 are here",
            ipv6_bytes(alloc, 16, 60, &[17, 1, 2, 3, 4, 5, 6, 7])?,
            (40, Some(56), 0, 60, 8, 8, 0),
            truncated(options, Some(Layer::Ipv6DestOptionsHeader)),
        ),
        (
            "no payload length: 3 bytes of a fragment header",
            ipv6_bytes(alloc, 0, 44, &[17, 0, 1])?,
            (40, None, 0, 44, 3, 0, 0),
            truncated(fragment, Some(Layer::Ipv6FragHeader)),
        ),
        (
            "the length of a routing header of 24 bytes",
            ipv6_bytes(alloc, 24, 43, &[17, 2])?,
            (40, Some(64), 0, 43, 2, 22, 0),
            truncated(routing, Some(Layer::Ipv6RouteHeader)),
        ),
        (
            "a routing header without its length",
            ipv6_bytes(alloc, 8, 43, &[17])?,
            (40, Some(48), 0, 43, 1, 7, 0),
            truncated(first, Some(Layer::Ipv6RouteHeader)),
        ),
        (
            "the length of an authentication header of 16 bytes",
            ipv6_bytes(alloc, 16, 51, &[17, 2])?,
            (40, Some(56), 0, 51, 2, 14, 0),
            truncated(auth, Some(Layer::IpAuthHeader)),
        ),
        (
            "39 bytes of a base header",
            Vec::from_array(alloc, [0x60; 39])?,
            (0, None, 0, 59, 0, 0, 39),
            truncated(base, None),
        ),
    ];
    for (name, bytes, numbers, end) in &rows {
        check(&rt, name, bytes, *numbers, None, end);
    }
    Ok(())
}

#[test]
fn ipv6_faults(rt: HostRuntime) -> Result<(), Fail> {
    let alloc = rt.alloc();
    let stated = LenSource::Ipv6HeaderPayloadLen;
    let options = len_error_at(16, 8, stated, Layer::Ipv6ExtHeader, 40);
    let routing = len_error_at(24, 16, stated, Layer::Ipv6ExtHeader, 40);
    let long = len_error_at(2048, 24, stated, Layer::Ipv6ExtHeader, 40);
    let later_options = [0, 0, 1, 4, 0, 0, 0, 0, 17, 0, 1, 4, 5, 6, 7, 8];
    let not_at_start = ipv6_exts::HeaderError::HopByHopNotAtStart;
    let zero = ipv6_exts::HeaderError::IpAuth(ip_auth::HeaderError::ZeroPayloadLen);
    let rows = [
        (
            "a routing header of 2,048 bytes in a payload of 24, of which 4 are here",
            ipv6_bytes(alloc, 24, 43, &[6, 255, 0, 0])?,
            (40, Some(64), 0, 43, 4, 20, 0),
            too_long(long, Some(Layer::Ipv6RouteHeader)),
        ),
        (
            "the length of an authentication header, which is 0",
            ipv6_bytes(alloc, 12, 51, &[17, 0])?,
            (40, Some(52), 0, 51, 2, 10, 0),
            End::Fault {
                error: SliceError::IpHeaders(HeadersError::Ipv6Ext(zero)),
                header: Some(Layer::IpAuthHeader),
            },
        ),
        (
            "16 bytes of options in a payload of 8",
            ipv6_bytes(alloc, 8, 60, &[17, 1, 2, 3, 4, 5, 6, 7])?,
            (40, Some(48), 0, 60, 8, 0, 0),
            too_long(options, Some(Layer::Ipv6DestOptionsHeader)),
        ),
        (
            "a routing header of 24 bytes in a payload of 16, of which 9 are here",
            ipv6_bytes(alloc, 16, 43, &[17, 2, 0, 1, 3, 4, 5, 6, 7])?,
            (40, Some(56), 0, 43, 9, 7, 0),
            too_long(routing, Some(Layer::Ipv6RouteHeader)),
        ),
        (
            "hop-by-hop options after destination options",
            ipv6_bytes(alloc, 16, 60, &later_options)?,
            (40, Some(56), 8, 0, 8, 0, 0),
            End::Fault {
                error: SliceError::IpHeaders(HeadersError::Ipv6Ext(not_at_start)),
                header: Some(Layer::Ipv6HopByHopHeader),
            },
        ),
    ];
    for (name, bytes, numbers, end) in &rows {
        check(&rt, name, bytes, *numbers, None, end);
    }
    Ok(())
}

#[test]
fn ipv4_payloads_and_fragments(rt: HostRuntime) -> Result<(), Fail> {
    let alloc = rt.alloc();
    let auth = [17, 1, 2, 3, 4, 5, 6, 7, 8, 9, 10, 11, 12, 13, 14];
    let rows = [
        (
            "an authentication header, 2 bytes of payload and 1 of padding",
            ipv4_bytes(alloc, 0x45, 34, [0x40, 0], 51, &auth)?,
            (20, Some(34), 12, 17, 2, 0, 1),
            None,
            End::Payload,
        ),
        (
            "a first fragment",
            ipv4_bytes(alloc, 0x45, 24, [0x20, 0], 17, &[1, 2, 3, 4])?,
            (20, Some(24), 0, 17, 4, 0, 0),
            fragment(0, 0, FragmentKind::First),
            End::Payload,
        ),
        (
            "a last fragment at 8 * 2 bytes, whose payload is not an authentication header",
            ipv4_bytes(alloc, 0x45, 35, [0, 2], 51, &auth)?,
            (20, Some(35), 0, 51, 15, 0, 0),
            fragment(0, 16, FragmentKind::Last),
            End::LaterFragment,
        ),
        (
            "a middle fragment at 8 * 8191 bytes, with no total length",
            ipv4_bytes(alloc, 0x45, 0, [0x3f, 0xff], 17, &[1, 2, 3, 4])?,
            (20, None, 0, 17, 4, 0, 0),
            fragment(0, 65528, FragmentKind::Middle),
            End::LaterFragment,
        ),
    ];
    for (name, bytes, numbers, fragment, end) in &rows {
        check(&rt, name, bytes, *numbers, *fragment, end);
    }
    Ok(())
}

#[test]
fn ipv4_headers_that_are_not_whole(rt: HostRuntime) -> Result<(), Fail> {
    let alloc = rt.alloc();
    let stated = LenSource::Ipv4HeaderTotalLen;
    let auth = [17, 1, 2, 3, 4, 5, 6, 7, 8, 9, 10, 11];
    let total = len_error_at(20, 19, stated, Layer::Ipv4Packet, 0);
    let base = len_error_at(20, 4, LenSource::Slice, Layer::Ipv4Header, 0);
    let auth_here = len_error_at(12, 4, LenSource::Slice, Layer::IpAuthHeader, 20);
    let auth_stated = len_error_at(12, 4, stated, Layer::IpAuthHeader, 20);
    let long = len_error_at(1028, 12, stated, Layer::IpAuthHeader, 20);
    let zero_length = [17, 0, 1, 2, 3, 4, 5, 6, 7, 8, 9, 10];
    let zero_here = ip_auth::HeaderError::ZeroPayloadLen;
    let zero = ip_auth::HeaderError::ZeroPayloadLen;
    let rows = [
        (
            "a total length below the header",
            ipv4_bytes(alloc, 0x45, 19, [0, 0], 17, &[1, 2, 3, 4])?,
            (20, Some(19), 0, 17, 0, 0, 4),
            too_long(total, None),
        ),
        (
            "a total length below the header, of which 4 bytes are here",
            Vec::from_array(alloc, [0x45, 0, 0, 19])?,
            (0, None, 0, 59, 0, 0, 4),
            truncated(base, None),
        ),
        (
            "an authentication header of 12 bytes, of which 4 are here",
            ipv4_bytes(alloc, 0x45, 32, [0, 0], 51, &[17, 1, 2, 3])?,
            (20, Some(32), 0, 51, 4, 8, 0),
            truncated(auth_here, None),
        ),
        (
            "an authentication header in a packet with room for 4 bytes",
            ipv4_bytes(alloc, 0x45, 24, [0, 0], 51, &auth)?,
            (20, Some(24), 0, 51, 4, 0, 8),
            too_long(auth_stated, None),
        ),
        (
            "an authentication header of 1,028 bytes in a packet of 32, of which 22 are here",
            ipv4_bytes(alloc, 0x45, 32, [0, 0], 51, &[17, 255])?,
            (20, Some(32), 0, 51, 2, 10, 0),
            too_long(long, None),
        ),
        (
            "the length of an authentication header, which is 0",
            ipv4_bytes(alloc, 0x45, 32, [0, 0], 51, &[17, 0])?,
            (20, Some(32), 0, 51, 2, 10, 0),
            End::Fault {
                error: SliceError::IpHeaders(HeadersError::Ipv4Ext(zero_here)),
                header: None,
            },
        ),
        (
            "an authentication header of length 0",
            ipv4_bytes(alloc, 0x45, 32, [0, 0], 51, &zero_length)?,
            (20, Some(32), 0, 51, 12, 0, 0),
            End::Fault {
                error: SliceError::IpHeaders(HeadersError::Ipv4Ext(zero)),
                header: None,
            },
        ),
    ];
    for (name, bytes, numbers, end) in &rows {
        check(&rt, name, bytes, *numbers, None, end);
    }
    Ok(())
}
