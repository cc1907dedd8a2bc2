//! Packets with wrong length fields.
use crate::checks::{assert_bytes, assert_same, assert_that};
use crate::samples::{ipv4_bytes, ipv6_bytes, len_error, len_error_at};
use etherparse_ip::err::{Layer, LenError, ip, ipv4, ipv6};
use etherparse_ip::{IpNumber, IpSlice, Ipv4Slice, Ipv6Slice, LenSource};
use std::process::Abort;
use std::test::Fail;

/// Checks that both slices refuse the packet with this length error.
fn check_refused(rt: &impl Abort, name: &str, bytes: &[u8], error: &LenError) -> Result<(), Fail> {
    let refused = Ipv4Slice::from_slice(bytes).map(|packet| packet.payload_ip_number());
    let wanted = ipv4::SliceError::Len(error.clone()?);
    assert_same(rt, name, refused, Err(wanted));
    let refused = IpSlice::from_slice(bytes).map(|packet| packet.payload_ip_number());
    let wanted = ip::SliceError::Len(error.clone()?);
    assert_same(rt, name, refused, Err(wanted));
    Ok(())
}

#[test]
fn ipv4_lengths_that_lie(rt: HostRuntime) -> Result<(), Fail> {
    let alloc = rt.alloc();
    let slice = LenSource::Slice;
    let stated = LenSource::Ipv4HeaderTotalLen;
    let auth = [17, 1, 0, 0, 0, 0, 0, 0, 0, 0, 0, 0];
    let rows = [
        (
            "total length below the header",
            ipv4_bytes(alloc, 0x45, 19, [0, 0], 17, &[])?,
            len_error(20, 19, stated, Layer::Ipv4Packet),
        ),
        (
            "total length of 65535 over 20 bytes",
            ipv4_bytes(alloc, 0x45, 65535, [0, 0], 17, &[])?,
            len_error(65535, 20, slice, Layer::Ipv4Packet),
        ),
        (
            "a header of 60 bytes over 59",
            ipv4_bytes(alloc, 0x4f, 60, [0, 0], 17, &[0; 39])?,
            len_error(60, 59, slice, Layer::Ipv4Header),
        ),
        (
            "an authentication header that the total length truncates",
            ipv4_bytes(alloc, 0x45, 24, [0, 0], 51, &auth)?,
            len_error_at(12, 4, stated, Layer::IpAuthHeader, 20),
        ),
        (
            "zeros that the total length truncates",
            ipv4_bytes(alloc, 0x45, 24, [0, 0], 51, &[0; 12])?,
            len_error_at(12, 4, stated, Layer::IpAuthHeader, 20),
        ),
    ];
    for (name, bytes, error) in &rows {
        check_refused(&rt, name, bytes, error)?;
    }
    Ok(())
}

#[test]
fn ipv6_lengths_that_lie(rt: HostRuntime) -> Result<(), Fail> {
    let alloc = rt.alloc();
    let long = ipv6_bytes(alloc, 65535, 17, &[1, 2, 3, 4, 5, 6, 7, 8])?;
    let strict = Ipv6Slice::from_slice(&long).map(|packet| packet.payload_ip_number());
    let error = len_error(65575, 48, LenSource::Slice, Layer::Ipv6Packet);
    assert_same(&rt, "strict", strict, Err(ipv6::SliceError::Len(error)));
    match Ipv6Slice::from_slice_lax(&long) {
        Ok(packet) => {
            let payload = packet.payload();
            assert_bytes(&rt, "payload", payload.payload, &[1, 2, 3, 4, 5, 6, 7, 8]);
            assert_same(&rt, "length source", payload.len_source, LenSource::Slice);
            assert_same(&rt, "number", payload.ip_number, IpNumber(17));
        }
        Err(_) => assert_that(&rt, "a packet that is truncated short", false),
    }
    let truncated = ipv6_bytes(alloc, 4, 60, &[17, 0, 0, 0, 0, 0, 0, 0])?;
    let error = len_error_at(
        8,
        4,
        LenSource::Ipv6HeaderPayloadLen,
        Layer::Ipv6ExtHeader,
        40,
    );
    for parsed in [
        Ipv6Slice::from_slice(&truncated),
        Ipv6Slice::from_slice_lax(&truncated),
    ] {
        let refused = parsed.map(|packet| packet.payload_ip_number());
        let wanted = ipv6::SliceError::Len(error.clone()?);
        assert_same(&rt, "truncated", refused, Err(wanted));
    }
    Ok(())
}
