//! Owned headers: parsed, built, changed and written.
use crate::checks::{assert_bytes, assert_same, assert_that};
use crate::header_slices::missing;
use arrayvec::ArrayVec;
use ip_base::err::{Layer, LenError};
use ip_base::{IpFragOffset, IpNumber};
use ip_ext_chains::Ipv6Extensions;
use ip_ext_headers::err::ip_auth::{HeaderError, HeaderSliceError, IcvLenError};
use ip_ext_headers::err::ipv6_exts::ExtPayloadLenError;
use ip_ext_headers::{
    IPv6AuthenticationHeader, IpAuthHeader, IpAuthHeaderSlice, IpAuthenticationHeader,
    IpAuthenticationHeaderSlice, Ipv6FragmentHeader, Ipv6FragmentHeaderSlice, Ipv6RawExtHeader,
    Ipv6RawExtHeaderSlice, Ipv6RawExtensionHeader, Ipv6RawExtensionHeaderSlice,
    clear_reserved_bits,
};
use std::alloc::{AllocError, Global};
use std::test::Fail;

/// Returns bytes that differ from place to place, with the length byte, and with 1 and 2 from `end` on.
fn bytes_with(length: u8, end: usize) -> [u8; 2050] {
    let mut bytes = [0u8; 2050];
    for (i, byte) in bytes.iter_mut().enumerate() {
        *byte = (i % 251) as u8;
    }
    bytes[1] = length;
    if end < 2049 {
        bytes[end] = 1;
        bytes[end + 1] = 2;
    }
    bytes
}

/// Returns whether the struct and the slice of the uniform format (RFC 6564) refuse the bytes with this error.
fn is_raw_refused(bytes: &[u8], fault: &LenError) -> bool {
    let header = Ipv6RawExtHeader::from_slice(bytes);
    let slice = Ipv6RawExtHeaderSlice::from_slice(bytes);
    matches!(header, Err(e) if e == *fault) && matches!(slice, Err(e) if e == *fault)
}

/// Returns whether every truncation of a header in the uniform format (RFC 6564) is refused.
fn are_truncated_raw_refused(bytes: &[u8]) -> bool {
    let mut refused = true;
    for kept in 0..bytes.len() {
        let required = if kept < 8 { 8 } else { bytes.len() };
        let fault = missing(required, kept, Layer::Ipv6ExtHeader);
        refused = refused && is_raw_refused(&bytes[..kept], &fault);
    }
    refused
}

/// Returns whether the struct has the fields of the bytes, and is written as these bytes.
fn is_raw_header_of(header: &Ipv6RawExtHeader, bytes: &[u8]) -> bool {
    bytes.len() >= 2
        && header.next_header == IpNumber(bytes[0])
        && header.payload() == &bytes[2..]
        && header.header_len() == bytes.len()
        && header.to_bytes().as_slice() == bytes
}

/// Returns the bytes that the header appends.
fn raw_written(header: &Ipv6RawExtHeader, alloc: Global) -> Result<Vec<u8>, AllocError> {
    let mut out = Vec::new(alloc);
    header.write(&mut out)?;
    Ok(out)
}

/// Returns whether the slice agrees with the struct, and its copy with it.
fn is_raw_slice_of(slice: &Ipv6RawExtHeaderSlice<'_>, header: &Ipv6RawExtHeader) -> bool {
    slice.next_header() == header.next_header
        && slice.payload() == header.payload()
        && slice.slice() == header.to_bytes().as_slice()
        && slice.to_header() == *header
        && matches!(slice.clone(), Ok(copy) if copy == *slice)
}

#[test]
fn raw_headers_truncated_everywhere(rt: HostRuntime) -> Result<(), Fail> {
    // The payloads of lengths 2 to 7 have 22 to 62 bytes: longer than one block of 16, and copied in such blocks.
    for length in [0u8, 1, 2, 3, 4, 5, 6, 7, 8, 17, 254, 255] {
        let end = (8 * (usize::from(length) + 1)).min(2048);
        let bytes = bytes_with(length, end);
        assert_that(&rt, length, are_truncated_raw_refused(&bytes[..end]));
        let (header, rest) = Ipv6RawExtHeader::from_slice(&bytes[..end + 2])?;
        assert_that(&rt, length, rest == [1, 2].as_slice());
        assert_that(&rt, length, is_raw_header_of(&header, &bytes[..end]));
        let written = raw_written(&header, rt.alloc())?;
        assert_bytes(&rt, length, &written, &bytes[..end]);
        assert_that(&rt, length, header.clone()? == header);
        let slice = Ipv6RawExtHeaderSlice::from_slice(&bytes)?;
        assert_that(&rt, length, is_raw_slice_of(&slice, &header));
        let mut replaced = Ipv6RawExtHeader::new_raw(IpNumber(9), &[9; 22])?;
        slice.copy_to(&mut replaced);
        assert_that(&rt, length, replaced == header);
    }
    Ok(())
}

/// Returns whether the struct and the slice of authentication headers refuse the bytes with this error.
fn is_auth_refused(bytes: &[u8], fault: &HeaderSliceError) -> bool {
    let header = IpAuthHeader::from_slice(bytes);
    let slice = IpAuthHeaderSlice::from_slice(bytes);
    matches!(header, Err(e) if e == *fault) && matches!(slice, Err(e) if e == *fault)
}

/// Returns whether every truncation of an authentication header is refused.
fn are_truncated_auth_refused(bytes: &[u8]) -> bool {
    let mut refused = true;
    for kept in 0..bytes.len() {
        let required = if kept < 12 { 12 } else { bytes.len() };
        let fault = HeaderSliceError::Len(missing(required, kept, Layer::IpAuthHeader));
        refused = refused && is_auth_refused(&bytes[..kept], &fault);
    }
    refused
}

/// Returns whether the struct has the fields of the bytes, which count up from 0 except for the length, and is
/// written as these bytes with reserved bytes zero.
fn is_auth_header_of(header: &IpAuthHeader, bytes: &[u8]) -> bool {
    let written = header.to_bytes();
    bytes.len() >= 12
        && header.next_header == IpNumber(0)
        && header.spi == 0x0405_0607
        && header.sequence_number == 0x0809_0a0b
        && header.raw_icv() == &bytes[12..]
        && header.header_len() == bytes.len()
        && written.len() == bytes.len()
        && written.as_slice().starts_with(&[0, bytes[1], 0, 0])
        && written.as_slice().ends_with(&bytes[4..])
}

/// Returns the bytes that the header appends.
fn auth_written(header: &IpAuthHeader, alloc: Global) -> Result<Vec<u8>, AllocError> {
    let mut out = Vec::new(alloc);
    header.write(&mut out)?;
    Ok(out)
}

/// Returns whether the slice agrees with the struct, and its copy with it.
fn is_auth_slice_of(slice: &IpAuthHeaderSlice<'_>, header: &IpAuthHeader) -> bool {
    slice.next_header() == header.next_header
        && slice.spi() == header.spi
        && slice.sequence_number() == header.sequence_number
        && slice.raw_icv() == header.raw_icv()
        && slice.slice().len() == header.header_len()
        && slice.to_header() == *header
        && matches!(slice.clone(), Ok(copy) if copy == *slice)
}

#[test]
fn authentication_headers_truncated_everywhere(rt: HostRuntime) -> Result<(), Fail> {
    // The check values of lengths 5 to 16 have 16 to 60 bytes, and are copied in blocks of 16.
    for length in [1u8, 2, 3, 4, 5, 6, 8, 9, 12, 15, 16, 17, 18, 254, 255] {
        let end = (4 * (usize::from(length) + 2)).min(1028);
        let bytes = bytes_with(length, end);
        assert_that(&rt, length, are_truncated_auth_refused(&bytes[..end]));
        let (header, rest) = IpAuthHeader::from_slice(&bytes[..end + 2])?;
        assert_that(&rt, length, rest == [1, 2].as_slice());
        assert_that(&rt, length, is_auth_header_of(&header, &bytes[..end]));
        let written = auth_written(&header, rt.alloc())?;
        assert_bytes(&rt, length, &written, &header.to_bytes());
        assert_that(&rt, length, header.clone()? == header);
        let slice = IpAuthHeaderSlice::from_slice(&bytes)?;
        assert_that(&rt, length, is_auth_slice_of(&slice, &header));
        let mut replaced = IpAuthHeader::new(IpNumber(9), 9, 9, &[9; 24])?;
        slice.copy_to(&mut replaced);
        assert_that(&rt, length, replaced == header);
    }
    let zero = HeaderSliceError::Content(HeaderError::ZeroPayloadLen);
    assert!(rt; is_auth_refused(&bytes_with(0, 8), &zero));
    Ok(())
}

#[test]
fn made_and_written(rt: HostRuntime) -> Result<(), Fail> {
    let mut out = Vec::new(rt.alloc());
    let auth = IpAuthHeader::new(IpNumber(17), 1, 2, &[9, 8, 7, 6])?;
    auth.write(&mut out)?;
    let expected = [17, 2, 0, 0, 0, 0, 0, 1, 0, 0, 0, 2, 9, 8, 7, 6];
    assert_bytes(&rt, "authentication", &out, &expected);
    assert_bytes(&rt, "authentication", &auth.to_bytes(), &expected);
    let mut out = Vec::new(rt.alloc());
    let raw = Ipv6RawExtHeader::new_raw(IpNumber(17), &[1, 2, 3, 4, 5, 6])?;
    raw.write(&mut out)?;
    assert_bytes(&rt, "raw", &out, &[17, 0, 1, 2, 3, 4, 5, 6]);
    Ok(())
}

#[test]
fn fragment_headers_made_and_written(rt: HostRuntime) -> Result<(), Fail> {
    let rows = [
        (
            "largest offset",
            0x1fff,
            false,
            0,
            [17, 0, 255, 248, 0, 0, 0, 0],
        ),
        (
            "offset and flag",
            1,
            true,
            0x0102_0304,
            [17, 0, 0, 9, 1, 2, 3, 4],
        ),
    ];
    for (name, offset, more, identification, expected) in rows {
        let mut out = Vec::new(rt.alloc());
        let offset = IpFragOffset::try_new(offset)?;
        let header = Ipv6FragmentHeader::new(IpNumber(17), offset, more, identification);
        assert_same(&rt, name, header.to_bytes(), expected);
        header.write(&mut out)?;
        assert_bytes(&rt, name, &out, &expected);
        let (read, rest) = Ipv6FragmentHeader::from_slice(&expected)?;
        assert_that(&rt, name, read == header && rest.is_empty());
    }
    Ok(())
}

#[test]
fn reserved_bits_are_read_over_and_written_as_zero(rt: HostRuntime) -> Result<(), Fail> {
    let bytes = [17, 0xff, 0, 0xe1, 1, 2, 3, 4, 5];
    let (header, rest) = Ipv6FragmentHeader::from_slice(&bytes)?;
    assert_bytes(&rt, "rest", rest, &[5]);
    assert_same(&rt, "next header", header.next_header.0, 17);
    assert_same(&rt, "offset", header.fragment_offset.value(), 28);
    assert!(rt; header.more_fragments && header.is_fragmenting_payload());
    assert_same(&rt, "identification", header.identification, 0x0102_0304);
    let written = [17, 0, 0, 0xe1, 1, 2, 3, 4];
    assert_same(&rt, "written", header.to_bytes(), written);
    assert!(rt; header.clone()? == header);
    assert!(rt; Ipv6FragmentHeaderSlice::from_slice(&bytes)?.to_header() == header);
    for kept in 0..8usize {
        match Ipv6FragmentHeader::from_slice(&bytes[..kept]) {
            Ok(_) => assert_that(&rt, kept, false),
            Err(e) => assert_same(&rt, kept, e, missing(8, kept, Layer::Ipv6FragHeader)),
        }
    }
    let (header, _) = Ipv6FragmentHeader::from_slice(&[17, 0, 0, 6, 1, 2, 3, 4])?;
    assert!(rt; !header.is_fragmenting_payload());
    let written = [17, 0, 0, 0, 1, 2, 3, 4];
    assert_same(&rt, "no offset", header.to_bytes(), written);
    Ok(())
}

#[test]
fn reserved_bits_are_cleared(rt: HostRuntime) {
    let auth = [17, 1, 0xab, 0xcd, 1, 2, 3, 4, 5, 6, 7, 8];
    let rows: [(u8, &[u8], &[u8]); 6] = [
        (
            44,
            &[17, 0xff, 0xab, 0xff, 1, 2, 3, 4],
            &[17, 0, 0xab, 0xf9, 1, 2, 3, 4],
        ),
        (44, &[17, 0, 0, 6, 1, 2, 3, 4], &[17, 0, 0, 0, 1, 2, 3, 4]),
        (51, &auth, &[17, 1, 0, 0, 1, 2, 3, 4, 5, 6, 7, 8]),
        (
            60,
            &[17, 0, 1, 4, 0xff, 0xff, 0xff, 0xff],
            &[17, 0, 1, 4, 0xff, 0xff, 0xff, 0xff],
        ),
        (44, &[17, 0xff, 0xff], &[17, 0xff, 0xff]),
        (51, &[], &[]),
    ];
    for (number, bytes, wanted) in rows {
        let mut header = [0; 12];
        let header = &mut header[..bytes.len().min(12)];
        header.copy_from_slice(&bytes[..bytes.len().min(12)]);
        clear_reserved_bits(IpNumber(number), header);
        assert_bytes(&rt, number, header, wanted);
    }
}

#[test]
fn fragmenting_or_not(rt: HostRuntime) -> Result<(), Fail> {
    for (offset, more, fragments) in [(0, false, false), (0, true, true), (1, false, true)] {
        let offset = IpFragOffset::try_new(offset)?;
        let header = Ipv6FragmentHeader::new(IpNumber(17), offset, more, 123);
        assert_same(&rt, more, header.is_fragmenting_payload(), fragments);
        let mut exts = Ipv6Extensions::default();
        assert!(rt; !exts.is_fragmenting_payload());
        exts.fragment = Some(header);
        assert_same(&rt, more, exts.is_fragmenting_payload(), fragments);
    }
    Ok(())
}

#[test]
fn refused_lengths(rt: HostRuntime) -> Result<(), Fail> {
    let bytes = [1u8; 2047];
    let kept = [9, 8, 7, 6, 5, 4, 3, 2, 15, 14, 13, 12, 11, 10];
    let mut auth = IpAuthHeader::new(IpNumber(17), 1, 2, &kept[..8])?;
    let rows = [
        (&bytes[..3], IcvLenError::Unaligned(3)),
        (&bytes[..1017], IcvLenError::TooBig(1017)),
    ];
    for (icv, fault) in rows {
        assert!(rt; matches!(IpAuthHeader::new(IpNumber(17), 1, 2, icv), Err(e) if e == fault));
        assert_same(&rt, icv.len(), auth.set_raw_icv(icv), Err(fault));
        assert_bytes(&rt, icv.len(), auth.raw_icv(), &kept[..8]);
    }
    let mut raw = Ipv6RawExtHeader::new_raw(IpNumber(17), &kept)?;
    let rows = [
        (&bytes[..5], ExtPayloadLenError::TooSmall(5)),
        (&bytes[..7], ExtPayloadLenError::Unaligned(7)),
        (&bytes[..2047], ExtPayloadLenError::TooBig(2047)),
    ];
    for (payload, fault) in rows {
        assert!(rt;
            matches!(Ipv6RawExtHeader::new_raw(IpNumber(17), payload), Err(e) if e == fault)
        );
        assert_same(&rt, payload.len(), raw.set_payload(payload), Err(fault));
        assert_bytes(&rt, payload.len(), raw.payload(), &kept);
    }
    Ok(())
}

#[test]
fn shorter_bytes_replace_longer(rt: HostRuntime) -> Result<(), Fail> {
    let mut auth = IpAuthHeader::new(IpNumber(17), 1, 2, &[1, 2, 3, 4, 5, 6, 7, 8])?;
    auth.set_raw_icv(&[9, 8, 7, 6])?;
    let other = IpAuthHeader::new(IpNumber(17), 1, 2, &[9, 8, 7, 6])?;
    assert!(rt; auth == other);
    assert_bytes(&rt, "authentication", &auth.to_bytes(), &other.to_bytes());
    let mut raw = Ipv6RawExtHeader::new_raw(IpNumber(17), &[1; 14])?;
    raw.set_payload(&[2; 6])?;
    let other = Ipv6RawExtHeader::new_raw(IpNumber(17), &[2; 6])?;
    assert!(rt; raw == other);
    assert_bytes(&rt, "raw", &raw.to_bytes(), &other.to_bytes());
    raw.next_header = IpNumber(6);
    assert!(rt; raw != other);
    assert_bytes(&rt, "changed", &raw.to_bytes(), &[6, 0, 2, 2, 2, 2, 2, 2]);
    Ok(())
}

#[test]
fn written_into_reserved_room(rt: HostRuntime) -> Result<(), Fail> {
    let raw = Ipv6RawExtHeader::new_raw(
        IpNumber(44),
        &[1, 2, 3, 4, 5, 6, 7, 8, 9, 10, 11, 12, 13, 14],
    )?;
    let fragment = Ipv6FragmentHeader::new(IpNumber(51), IpFragOffset::try_new(1)?, true, 3);
    let auth = IpAuthHeader::new(IpNumber(17), 1, 2, &[9, 8, 7, 6])?;
    let mut out = Vec::new(rt.alloc());
    out.reserve(raw.header_len() + fragment.header_len() + auth.header_len())?;
    raw.write_reserved(&mut out);
    fragment.write_reserved(&mut out);
    auth.write_reserved(&mut out);
    let expected = [
        44, 1, 1, 2, 3, 4, 5, 6, 7, 8, 9, 10, 11, 12, 13, 14, 51, 0, 0, 9, 0, 0, 0, 3, 17, 2, 0, 0,
        0, 0, 0, 1, 0, 0, 0, 2, 9, 8, 7, 6,
    ];
    assert_bytes(&rt, "written", &out, &expected);
    Ok(())
}

#[test]
fn defaults_names_and_numbers(rt: HostRuntime) -> Result<(), Fail> {
    let raw: Ipv6RawExtensionHeader = Ipv6RawExtHeader::default();
    let bytes: ArrayVec<u8, 2048> = raw.to_bytes();
    assert_bytes(&rt, "raw", &bytes, &[255, 0, 0, 0, 0, 0, 0, 0]);
    let slice: Ipv6RawExtensionHeaderSlice = Ipv6RawExtHeaderSlice::from_slice(bytes.as_slice())?;
    assert!(rt; slice.to_header() == raw);
    let auth: IpAuthenticationHeader = IpAuthHeader::default();
    let again: IPv6AuthenticationHeader = IpAuthHeader::new(IpNumber(255), 0, 0, &[])?;
    assert!(rt; auth == again);
    let bytes: ArrayVec<u8, 1028> = auth.to_bytes();
    let expected = [255, 1, 0, 0, 0, 0, 0, 0, 0, 0, 0, 0];
    assert_bytes(&rt, "authentication", &bytes, &expected);
    let slice: IpAuthenticationHeaderSlice = IpAuthHeaderSlice::from_slice(bytes.as_slice())?;
    assert!(rt; slice.to_header() == auth);
    for number in 0..=255u8 {
        let expected = matches!(number, 0 | 43 | 60 | 135 | 139 | 140);
        let is_raw = Ipv6RawExtHeader::header_type_supported(IpNumber(number));
        assert_same(&rt, number, is_raw, expected);
    }
    Ok(())
}

/// Debug texts name the fields of an owned header, of which the first is the payload or the check value as a list. Of a
/// longer one that was there before, nothing is printed.
#[test]
fn debug_texts_of_owned_headers(rt: HostRuntime) -> Result<(), Fail> {
    let number = IpNumber(43);
    let mut raw = Ipv6RawExtHeader::new_raw(number, &[0; 14])?;
    raw.set_payload(&[1, 2, 3, 4, 5, 6])?;
    let got = format!(in rt.alloc(); "{raw:?}")?;
    let expected = format!(in rt.alloc();
        "Ipv6RawExtHeader {{ payload: [1, 2, 3, 4, 5, 6], next_header: {number:?} }}"
    )?;
    assert_same(&rt, "uniform format", got.as_str(), expected.as_str());
    let mut auth = IpAuthHeader::new(number, 7, 8, &[9; 8])?;
    auth.set_raw_icv(&[9, 10, 11, 12])?;
    let got = format!(in rt.alloc(); "{auth:?}")?;
    let expected = format!(in rt.alloc();
        "IpAuthHeader {{ raw_icv: [9, 10, 11, 12], spi: 7, sequence_number: 8, next_header: {number:?} }}"
    )?;
    assert_same(&rt, "authentication", got.as_str(), expected.as_str());
    auth.set_raw_icv(&[])?;
    let got = format!(in rt.alloc(); "{auth:#?}")?;
    let expected = format!(in rt.alloc();
        "IpAuthHeader {{\n    raw_icv: [],\n    spi: 7,\n    sequence_number: 8,\n    next_header: {number:#?},\n}}"
    )?;
    assert_same(
        &rt,
        "without a check value",
        got.as_str(),
        expected.as_str(),
    );
    Ok(())
}

/// The text of a raw header on several lines, as Rust's derive prints these fields.
const RAW_ON_LINES: &str = "Ipv6RawExtHeader {
    payload: [
        1,
        2,
        3,
        4,
        5,
        6,
    ],
    next_header: 17,
}";

#[test]
fn debug_texts_on_several_lines(rt: HostRuntime) -> Result<(), Fail> {
    let mut raw = Ipv6RawExtHeader::new_raw(IpNumber(17), &[1, 2, 3, 4, 5, 6])?;
    let got = format!(in rt.alloc(); "{raw:#?}")?;
    assert_same(&rt, "6 bytes", got.as_str(), RAW_ON_LINES);
    raw.set_payload(&[200; 62])?;
    raw.set_payload(&[1, 2, 3, 4, 5, 6])?;
    let got = format!(in rt.alloc(); "{raw:#?}")?;
    assert_same(&rt, "6 bytes after 62", got.as_str(), RAW_ON_LINES);
    Ok(())
}
