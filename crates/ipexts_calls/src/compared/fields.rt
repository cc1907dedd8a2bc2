//! The parts of single headers and the bytes written for them, in C structs.
use crate::digests::chains::{layer_code, len_source_code};
use ip_ext_chains::IpNumber;
use ip_ext_chains::err::{LenError, ip_auth};
use ip_ext_headers::err::ip_auth::IcvLenError;
use ip_ext_headers::err::ipv6_exts::ExtPayloadLenError;
use ip_ext_headers::{
    IpAuthHeader, IpAuthHeaderSlice, Ipv6FragmentHeader, Ipv6FragmentHeaderSlice, Ipv6RawExtHeader,
    Ipv6RawExtHeaderSlice,
};
use std::alloc::Global;

/// A header or the error. A field that the header's kind lacks is 0.
#[repr(C)]
#[derive(Clone, Copy)]
pub struct IpextsHeader {
    /// 0: none; 1: too few bytes; 2: an authentication header's length field is 0; 3 to 5: a payload or check value
    /// is too small, too big, not a multiple of its unit.
    pub fault: u8,
    pub source: u8,
    pub layer: u8,
    pub next_header: u8,
    /// 1: more fragments; 2: the payload is fragmented.
    pub flags: u8,
    /// The security parameters index, or the identification.
    pub number: u32,
    /// The sequence number, or the fragment offset.
    pub second_number: u32,
    pub required_len: usize,
    pub found_len: usize,
    pub offset: usize,
    pub header_len: usize,
    /// The length of the payload or of the check value, in bytes.
    pub payload_len: usize,
    pub rest_len: usize,
    /// The number of bytes that `to_bytes` returned.
    pub spelled_len: usize,
    /// The number of bytes that `write` appended.
    pub written_len: usize,
}

/// An empty header.
const NOTHING: IpextsHeader = IpextsHeader {
    fault: 0,
    source: 0,
    layer: 0,
    next_header: 0,
    flags: 0,
    number: 0,
    second_number: 0,
    required_len: 0,
    found_len: 0,
    offset: 0,
    header_len: 0,
    payload_len: 0,
    rest_len: 0,
    spelled_len: 0,
    written_len: 0,
};

/// Copies as many bytes as fit.
fn copy_front(from: &[u8], to: &mut [u8]) {
    let len = from.len().min(to.len());
    to[..len].copy_from_slice(&from[..len]);
}

/// Returns a length error.
fn too_few(fault: &LenError) -> IpextsHeader {
    IpextsHeader {
        fault: 1,
        source: len_source_code(&fault.len_source),
        layer: layer_code(&fault.layer),
        required_len: fault.required_len,
        found_len: fault.len,
        offset: fault.layer_start_offset,
        ..NOTHING
    }
}

/// Returns an authentication header's error.
fn no_auth(fault: &ip_auth::HeaderSliceError) -> IpextsHeader {
    match fault {
        ip_auth::HeaderSliceError::Len(fault) => too_few(fault),
        ip_auth::HeaderSliceError::Content(ip_auth::HeaderError::ZeroPayloadLen) => IpextsHeader {
            fault: 2,
            ..NOTHING
        },
    }
}

/// Returns the error of a wrong length from the caller.
fn refused(fault: u8, found_len: usize) -> IpextsHeader {
    IpextsHeader {
        fault,
        found_len,
        ..NOTHING
    }
}

/// Returns the two flags of a fragment header.
fn flags(more_fragments: bool, is_fragmenting: bool) -> u8 {
    u8::from(more_fragments) | (u8::from(is_fragmenting) << 1)
}

/// Parses a borrowed header in the uniform format (RFC 6564).
#[unsafe(no_mangle)]
pub extern "C" fn ipexts_raw_borrowed_fields(
    bytes: &[u8],
    payload: &mut [u8],
    out: &mut IpextsHeader,
) {
    *out = match Ipv6RawExtHeaderSlice::from_slice(bytes) {
        Ok(header) => {
            copy_front(header.payload(), payload);
            IpextsHeader {
                next_header: header.next_header().0,
                header_len: header.slice().len(),
                payload_len: header.payload().len(),
                ..NOTHING
            }
        }
        Err(fault) => too_few(&fault),
    };
}

/// Parses a borrowed authentication header.
#[unsafe(no_mangle)]
pub extern "C" fn ipexts_auth_borrowed_fields(
    bytes: &[u8],
    icv: &mut [u8],
    out: &mut IpextsHeader,
) {
    *out = match IpAuthHeaderSlice::from_slice(bytes) {
        Ok(header) => {
            copy_front(header.raw_icv(), icv);
            IpextsHeader {
                next_header: header.next_header().0,
                number: header.spi(),
                second_number: header.sequence_number(),
                header_len: header.slice().len(),
                payload_len: header.raw_icv().len(),
                ..NOTHING
            }
        }
        Err(fault) => no_auth(&fault),
    };
}

/// Parses a borrowed fragment header.
#[unsafe(no_mangle)]
pub extern "C" fn ipexts_fragment_borrowed_fields(bytes: &[u8], out: &mut IpextsHeader) {
    *out = match Ipv6FragmentHeaderSlice::from_slice(bytes) {
        Ok(header) => IpextsHeader {
            next_header: header.next_header().0,
            flags: flags(header.more_fragments(), header.is_fragmenting_payload()),
            number: header.identification(),
            second_number: u32::from(header.fragment_offset().value()),
            header_len: header.slice().len(),
            ..NOTHING
        },
        Err(fault) => too_few(&fault),
    };
}

/// Returns the parts of an owned header in the uniform format (RFC 6564), and the bytes of `to_bytes` and `write`.
fn raw_parts(
    alloc: Global,
    header: &Ipv6RawExtHeader,
    rest_len: usize,
    payload: &mut [u8],
    spelled: &mut [u8],
    written: &mut [u8],
) -> IpextsHeader {
    let bytes = header.to_bytes();
    let mut appended = Vec::new(alloc);
    let _ = header.write(&mut appended);
    copy_front(header.payload(), payload);
    copy_front(bytes.as_slice(), spelled);
    copy_front(appended.as_slice(), written);
    IpextsHeader {
        next_header: header.next_header.0,
        header_len: header.header_len(),
        payload_len: header.payload().len(),
        rest_len,
        spelled_len: bytes.len(),
        written_len: appended.len(),
        ..NOTHING
    }
}

/// Returns the parts of an owned authentication header, and the bytes of `to_bytes` and `write`.
fn auth_parts(
    alloc: Global,
    header: &IpAuthHeader,
    rest_len: usize,
    icv: &mut [u8],
    spelled: &mut [u8],
    written: &mut [u8],
) -> IpextsHeader {
    let bytes = header.to_bytes();
    let mut appended = Vec::new(alloc);
    let _ = header.write(&mut appended);
    copy_front(header.raw_icv(), icv);
    copy_front(bytes.as_slice(), spelled);
    copy_front(appended.as_slice(), written);
    IpextsHeader {
        next_header: header.next_header.0,
        number: header.spi,
        second_number: header.sequence_number,
        header_len: header.header_len(),
        payload_len: header.raw_icv().len(),
        rest_len,
        spelled_len: bytes.len(),
        written_len: appended.len(),
        ..NOTHING
    }
}

/// Parses an owned header in the uniform format (RFC 6564).
#[unsafe(no_mangle)]
pub extern "C" fn ipexts_raw_owned_fields(
    alloc: Global,
    bytes: &[u8],
    payload: &mut [u8],
    spelled: &mut [u8],
    written: &mut [u8],
    out: &mut IpextsHeader,
) {
    *out = match Ipv6RawExtHeader::from_slice(bytes) {
        Ok((header, rest)) => raw_parts(alloc, &header, rest.len(), payload, spelled, written),
        Err(fault) => too_few(&fault),
    };
}

/// Parses an owned authentication header.
#[unsafe(no_mangle)]
pub extern "C" fn ipexts_auth_owned_fields(
    alloc: Global,
    bytes: &[u8],
    icv: &mut [u8],
    spelled: &mut [u8],
    written: &mut [u8],
    out: &mut IpextsHeader,
) {
    *out = match IpAuthHeader::from_slice(bytes) {
        Ok((header, rest)) => auth_parts(alloc, &header, rest.len(), icv, spelled, written),
        Err(fault) => no_auth(&fault),
    };
}

/// Parses an owned fragment header.
#[unsafe(no_mangle)]
pub extern "C" fn ipexts_fragment_owned_fields(
    alloc: Global,
    bytes: &[u8],
    spelled: &mut [u8],
    written: &mut [u8],
    out: &mut IpextsHeader,
) {
    *out = match Ipv6FragmentHeader::from_slice(bytes) {
        Ok((header, rest)) => {
            let mut appended = Vec::new(alloc);
            let _ = header.write(&mut appended);
            copy_front(&header.to_bytes(), spelled);
            copy_front(appended.as_slice(), written);
            IpextsHeader {
                next_header: header.next_header.0,
                flags: flags(header.more_fragments, header.is_fragmenting_payload()),
                number: header.identification,
                second_number: u32::from(header.fragment_offset.value()),
                header_len: header.header_len(),
                rest_len: rest.len(),
                spelled_len: 8,
                written_len: appended.len(),
                ..NOTHING
            }
        }
        Err(fault) => too_few(&fault),
    };
}

/// Builds a header in the uniform format (RFC 6564) from its parts.
#[unsafe(no_mangle)]
pub extern "C" fn ipexts_raw_new(
    alloc: Global,
    next_header: u8,
    payload: &[u8],
    kept: &mut [u8],
    spelled: &mut [u8],
    written: &mut [u8],
    out: &mut IpextsHeader,
) {
    *out = match Ipv6RawExtHeader::new_raw(IpNumber(next_header), payload) {
        Ok(header) => raw_parts(alloc, &header, 0, kept, spelled, written),
        Err(ExtPayloadLenError::TooSmall(len)) => refused(3, len),
        Err(ExtPayloadLenError::TooBig(len)) => refused(4, len),
        Err(ExtPayloadLenError::Unaligned(len)) => refused(5, len),
    };
}

/// Builds an authentication header from its parts.
#[unsafe(no_mangle)]
pub extern "C" fn ipexts_auth_new(
    alloc: Global,
    next_header: u8,
    spi: u32,
    sequence_number: u32,
    raw_icv: &[u8],
    kept: &mut [u8],
    spelled: &mut [u8],
    written: &mut [u8],
    out: &mut IpextsHeader,
) {
    *out = match IpAuthHeader::new(IpNumber(next_header), spi, sequence_number, raw_icv) {
        Ok(header) => auth_parts(alloc, &header, 0, kept, spelled, written),
        Err(IcvLenError::TooBig(len)) => refused(4, len),
        Err(IcvLenError::Unaligned(len)) => refused(5, len),
    };
}
