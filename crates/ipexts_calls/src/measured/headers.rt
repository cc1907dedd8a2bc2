//! Single headers, borrowed and owned, and their bytes. `at` chooses the bytes that are read, so that the compiler
//! can't omit any.
use crate::digests::chains::{
    of_auth, of_auth_fault, of_bytes, of_fragment, of_len_error, of_raw, with,
};
use crate::digests::owned::{byte_at, of_owned_auth, of_owned_fragment, of_owned_raw, of_written};
use ip_ext_chains::IpNumber;
use ip_ext_headers::{
    IpAuthHeader, IpAuthHeaderSlice, Ipv6FragmentHeader, Ipv6FragmentHeaderSlice, Ipv6RawExtHeader,
    Ipv6RawExtHeaderSlice,
};
use std::alloc::Global;

/// Returns the digest of every part of a borrowed header in the uniform format (RFC 6564).
#[inline(never)]
fn of_borrowed_raw(header: &Ipv6RawExtHeaderSlice<'_>, at: usize) -> u64 {
    with(of_raw(header), byte_at(header.payload(), at))
}

/// Returns the digest of every part of a borrowed authentication header.
#[inline(never)]
fn of_borrowed_auth(header: &IpAuthHeaderSlice<'_>, at: usize) -> u64 {
    with(of_auth(header), byte_at(header.raw_icv(), at))
}

/// Returns the digest of every part of a borrowed fragment header.
#[inline(never)]
fn of_borrowed_fragment(header: &Ipv6FragmentHeaderSlice<'_>) -> u64 {
    of_fragment(header)
}

/// Parses a borrowed header in the uniform format (RFC 6564).
#[unsafe(no_mangle)]
pub extern "C" fn ipexts_raw_borrowed(bytes: &[u8], at: usize) -> u64 {
    match Ipv6RawExtHeaderSlice::from_slice(bytes) {
        Ok(header) => of_borrowed_raw(&header, at),
        Err(fault) => of_len_error(&fault),
    }
}

/// Parses an owned header in the uniform format (RFC 6564).
#[unsafe(no_mangle)]
pub extern "C" fn ipexts_raw_owned(bytes: &[u8], at: usize) -> u64 {
    match Ipv6RawExtHeader::from_slice(bytes) {
        Ok((header, rest)) => with(of_owned_raw(&header, at), of_bytes(rest)),
        Err(fault) => of_len_error(&fault),
    }
}

/// Parses a borrowed authentication header.
#[unsafe(no_mangle)]
pub extern "C" fn ipexts_auth_borrowed(bytes: &[u8], at: usize) -> u64 {
    match IpAuthHeaderSlice::from_slice(bytes) {
        Ok(header) => of_borrowed_auth(&header, at),
        Err(fault) => of_auth_fault(&fault),
    }
}

/// Parses an owned authentication header.
#[unsafe(no_mangle)]
pub extern "C" fn ipexts_auth_owned(bytes: &[u8], at: usize) -> u64 {
    match IpAuthHeader::from_slice(bytes) {
        Ok((header, rest)) => with(of_owned_auth(&header, at), of_bytes(rest)),
        Err(fault) => of_auth_fault(&fault),
    }
}

/// Parses a borrowed fragment header.
#[unsafe(no_mangle)]
pub extern "C" fn ipexts_fragment_borrowed(bytes: &[u8], _at: usize) -> u64 {
    match Ipv6FragmentHeaderSlice::from_slice(bytes) {
        Ok(header) => of_borrowed_fragment(&header),
        Err(fault) => of_len_error(&fault),
    }
}

/// Parses an owned fragment header.
#[unsafe(no_mangle)]
pub extern "C" fn ipexts_fragment_owned(bytes: &[u8], _at: usize) -> u64 {
    match Ipv6FragmentHeader::from_slice(bytes) {
        Ok((header, rest)) => with(of_owned_fragment(&header), of_bytes(rest)),
        Err(fault) => of_len_error(&fault),
    }
}

/// Builds the bytes of an owned header in the uniform format (RFC 6564) `times` times, each time with another next
/// header.
#[unsafe(no_mangle)]
pub extern "C" fn ipexts_raw_to_bytes(bytes: &[u8], at: usize, times: u32) -> u64 {
    let Ok((mut header, _)) = Ipv6RawExtHeader::from_slice(bytes) else {
        return 0;
    };
    let mut sum = 0;
    for time in 0..times {
        header.next_header = IpNumber((time % 256) as u8);
        sum = with(sum, of_written(header.to_bytes().as_slice(), at));
    }
    sum
}

/// Builds the bytes of an owned authentication header `times` times, each time with another next header.
#[unsafe(no_mangle)]
pub extern "C" fn ipexts_auth_to_bytes(bytes: &[u8], at: usize, times: u32) -> u64 {
    let Ok((mut header, _)) = IpAuthHeader::from_slice(bytes) else {
        return 0;
    };
    let mut sum = 0;
    for time in 0..times {
        header.next_header = IpNumber((time % 256) as u8);
        sum = with(sum, of_written(header.to_bytes().as_slice(), at));
    }
    sum
}

/// Builds the bytes of an owned fragment header `times` times, each time with another next header.
#[unsafe(no_mangle)]
pub extern "C" fn ipexts_fragment_to_bytes(bytes: &[u8], at: usize, times: u32) -> u64 {
    let Ok((mut header, _)) = Ipv6FragmentHeader::from_slice(bytes) else {
        return 0;
    };
    let mut sum = 0;
    for time in 0..times {
        header.next_header = IpNumber((time % 256) as u8);
        sum = with(sum, of_written(&header.to_bytes(), at));
    }
    sum
}

/// Writes an owned header in the uniform format (RFC 6564) `times` times into an emptied vector, each time with
/// another next header.
#[unsafe(no_mangle)]
pub extern "C" fn ipexts_raw_write(alloc: Global, bytes: &[u8], at: usize, times: u32) -> u64 {
    let Ok((mut header, _)) = Ipv6RawExtHeader::from_slice(bytes) else {
        return 0;
    };
    let mut out = Vec::new(alloc);
    let mut sum = 0;
    for time in 0..times {
        header.next_header = IpNumber((time % 256) as u8);
        out.clear();
        if header.write(&mut out).is_err() {
            return 0;
        }
        sum = with(sum, of_written(out.as_slice(), at));
    }
    sum
}

/// Writes an owned authentication header `times` times into an emptied vector, each time with another next header.
#[unsafe(no_mangle)]
pub extern "C" fn ipexts_auth_write(alloc: Global, bytes: &[u8], at: usize, times: u32) -> u64 {
    let Ok((mut header, _)) = IpAuthHeader::from_slice(bytes) else {
        return 0;
    };
    let mut out = Vec::new(alloc);
    let mut sum = 0;
    for time in 0..times {
        header.next_header = IpNumber((time % 256) as u8);
        out.clear();
        if header.write(&mut out).is_err() {
            return 0;
        }
        sum = with(sum, of_written(out.as_slice(), at));
    }
    sum
}

/// Writes an owned fragment header `times` times into an emptied vector, each time with another next header.
#[unsafe(no_mangle)]
pub extern "C" fn ipexts_fragment_write(alloc: Global, bytes: &[u8], at: usize, times: u32) -> u64 {
    let Ok((mut header, _)) = Ipv6FragmentHeader::from_slice(bytes) else {
        return 0;
    };
    let mut out = Vec::new(alloc);
    let mut sum = 0;
    for time in 0..times {
        header.next_header = IpNumber((time % 256) as u8);
        out.clear();
        if header.write(&mut out).is_err() {
            return 0;
        }
        sum = with(sum, of_written(out.as_slice(), at));
    }
    sum
}

/// Parses a borrowed header in the uniform format (RFC 6564); a filter reads its next header and its length.
#[unsafe(no_mangle)]
pub extern "C" fn ipexts_raw_filter(bytes: &[u8], _at: usize) -> u64 {
    match Ipv6RawExtHeaderSlice::from_slice(bytes) {
        Ok(header) => with(
            header.slice().len() as u64,
            u64::from(header.next_header().0),
        ),
        Err(_) => 0,
    }
}

/// Parses a borrowed authentication header; a filter reads its next header and its length.
#[unsafe(no_mangle)]
pub extern "C" fn ipexts_auth_filter(bytes: &[u8], _at: usize) -> u64 {
    match IpAuthHeaderSlice::from_slice(bytes) {
        Ok(header) => with(
            header.slice().len() as u64,
            u64::from(header.next_header().0),
        ),
        Err(_) => 0,
    }
}

/// Parses a borrowed fragment header; a filter reads its next header and whether it fragments the payload.
#[unsafe(no_mangle)]
pub extern "C" fn ipexts_fragment_filter(bytes: &[u8], _at: usize) -> u64 {
    match Ipv6FragmentHeaderSlice::from_slice(bytes) {
        Ok(header) => with(
            u64::from(header.is_fragmenting_payload()),
            u64::from(header.next_header().0),
        ),
        Err(_) => 0,
    }
}
