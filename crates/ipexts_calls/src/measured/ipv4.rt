//! IPv4 extension headers, borrowed and owned, and their bytes.
use crate::digests::chains::{of_auth, of_auth_fault, of_bytes, with};
use crate::digests::owned::{of_owned_auth, of_written};
use ip_ext_chains::err::ip_auth::HeaderSliceError;
use ip_ext_chains::{IpNumber, Ipv4Extensions, Ipv4ExtensionsSlice, ip_number};
use std::alloc::Global;

/// Returns the digest of every part of a borrowed result.
#[inline(never)]
fn of_slices(
    headers: &Ipv4ExtensionsSlice<'_>,
    number: IpNumber,
    rest: &[u8],
    fault: &Option<HeaderSliceError>,
) -> u64 {
    let header = match &headers.auth {
        Some(header) => of_auth(header),
        None => 1,
    };
    with(header, of_end(number, rest, fault))
}

/// Returns the digest of every part of an owned result; of the check value, its first and last byte.
#[inline(never)]
fn of_headers(
    headers: &Ipv4Extensions,
    number: IpNumber,
    rest: &[u8],
    fault: &Option<HeaderSliceError>,
) -> u64 {
    let header = match &headers.auth {
        Some(header) => of_owned_auth(header, header.raw_icv().len().saturating_sub(1)),
        None => 1,
    };
    with(header, of_end(number, rest, fault))
}

/// Returns the digest of the end of a chain.
fn of_end(number: IpNumber, rest: &[u8], fault: &Option<HeaderSliceError>) -> u64 {
    let end = with(u64::from(number.0), of_bytes(rest));
    match fault {
        Some(fault) => with(end, of_auth_fault(fault)),
        None => end,
    }
}

/// Runs the borrowing lax parse.
#[unsafe(no_mangle)]
pub extern "C" fn ipexts_ipv4_lax(start: u8, bytes: &[u8]) -> u64 {
    let (headers, number, rest, fault) = Ipv4ExtensionsSlice::from_slice_lax(
        IpNumber(start),
        bytes,
    );
    of_slices(&headers, number, rest, &fault)
}

/// Runs the borrowing strict parse.
#[unsafe(no_mangle)]
pub extern "C" fn ipexts_ipv4_strict(start: u8, bytes: &[u8]) -> u64 {
    match Ipv4ExtensionsSlice::from_slice(IpNumber(start), bytes) {
        Ok((headers, number, rest)) => of_slices(&headers, number, rest, &None),
        Err(fault) => of_auth_fault(&fault),
    }
}

/// Runs the borrowing lax parse; a filter reads the payload's place.
#[unsafe(no_mangle)]
pub extern "C" fn ipexts_ipv4_filter(start: u8, bytes: &[u8]) -> u64 {
    let (_, number, rest, fault) = Ipv4ExtensionsSlice::from_slice_lax(IpNumber(start), bytes);
    let place = with(u64::from(number.0), rest.len() as u64);
    with(u64::from(fault.is_none()), place)
}

/// Runs the owned lax parse.
#[unsafe(no_mangle)]
pub extern "C" fn ipexts_ipv4_owned_lax(start: u8, bytes: &[u8]) -> u64 {
    let (headers, number, rest, fault) = Ipv4Extensions::from_slice_lax(IpNumber(start), bytes);
    of_headers(&headers, number, rest, &fault)
}

/// Runs the owned strict parse.
#[unsafe(no_mangle)]
pub extern "C" fn ipexts_ipv4_owned_strict(start: u8, bytes: &[u8]) -> u64 {
    match Ipv4Extensions::from_slice(IpNumber(start), bytes) {
        Ok((headers, number, rest)) => of_headers(&headers, number, rest, &None),
        Err(fault) => of_auth_fault(&fault),
    }
}

/// Links, walks and writes headers `times` times into an emptied vector, each time before another number.
#[unsafe(no_mangle)]
pub extern "C" fn ipexts_ipv4_write(alloc: Global, bytes: &[u8], at: usize, times: u32) -> u64 {
    let (mut headers, _, _, _) = Ipv4Extensions::from_slice_lax(ip_number::AUTH, bytes);
    let mut out = Vec::new(alloc);
    let mut sum = 0;
    for time in 0..times {
        let first = headers.set_next_headers(IpNumber((time % 256) as u8));
        let leads = match headers.next_header(first) {
            Ok(number) => u64::from(number.0),
            Err(_) => 256,
        };
        out.clear();
        if headers.write(&mut out, first).is_err() {
            return 0;
        }
        sum = with(with(sum, leads), of_written(out.as_slice(), at));
    }
    sum
}
