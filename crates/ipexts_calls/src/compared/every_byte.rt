//! Digests in which every byte of a result counts; those of `digests` use a length and the first byte.
use crate::digests::chains::{layer_code, of_auth, of_fault, of_header, of_strict_fault, with};
use crate::digests::packets::{of_ip_fault, of_ipv4_fault, of_ipv6_fault};
use crate::digests::structs::of_answer;
use crate::measured::structs::{over_runs, walk};
use etherparse_ip::{IpPayloadSlice, IpSlice, Ipv4Slice, Ipv6Slice};
use ip_ext_chains::{
    IpNumber, Ipv4Extensions, Ipv4ExtensionsSlice, Ipv6ExtensionSlice, Ipv6Extensions,
    Ipv6ExtensionsCursor, Ipv6ExtensionsSlice, Ipv6RawExtHeader,
};
use std::alloc::Global;

/// The value of a refused write, or of a header that isn't there.
const REFUSED: u64 = 256;

/// Returns the digest `sum` extended by all these bytes.
pub fn with_bytes(sum: u64, bytes: &[u8]) -> u64 {
    let mut sum = with(sum, bytes.len() as u64);
    for byte in bytes {
        sum = sum.wrapping_mul(65_599).wrapping_add(u64::from(*byte));
    }
    sum
}

/// Returns the digest extended by a header's parts and bytes.
fn with_header(sum: u64, header: &Ipv6ExtensionSlice<'_>) -> u64 {
    let fields = with(sum, of_header(header));
    match header {
        Ipv6ExtensionSlice::HopByHop(header) => {
            with_bytes(with_bytes(fields, header.slice()), header.payload())
        }
        Ipv6ExtensionSlice::Routing(header) => {
            with_bytes(with_bytes(fields, header.slice()), header.payload())
        }
        Ipv6ExtensionSlice::DestinationOptions(header) => {
            with_bytes(with_bytes(fields, header.slice()), header.payload())
        }
        Ipv6ExtensionSlice::Fragment(header) => with_bytes(fields, header.slice()),
        Ipv6ExtensionSlice::Authentication(header) => {
            with_bytes(with_bytes(fields, header.slice()), header.raw_icv())
        }
    }
}

/// Returns the digest of a chain, what follows it, and its headers one by one.
fn of_chain(headers: Ipv6ExtensionsSlice<'_>, number: IpNumber, rest: &[u8]) -> u64 {
    let mut sum = with_bytes(u64::from(number.0), headers.slice());
    sum = with_bytes(sum, rest);
    for header in headers {
        sum = with_header(sum, &header);
    }
    sum
}

/// Runs the lax parse.
#[unsafe(no_mangle)]
pub extern "C" fn ipexts_lax_bytes(start: u8, bytes: &[u8]) -> u64 {
    let (headers, number, rest, _) = Ipv6ExtensionsSlice::from_slice_lax(IpNumber(start), bytes);
    of_chain(headers, number, rest)
}

/// Runs the strict parse.
#[unsafe(no_mangle)]
pub extern "C" fn ipexts_strict_bytes(start: u8, bytes: &[u8]) -> u64 {
    match Ipv6ExtensionsSlice::from_slice(IpNumber(start), bytes) {
        Ok((headers, number, rest)) => of_chain(headers, number, rest),
        Err(fault) => of_strict_fault(&fault),
    }
}

/// Runs the cursor to its end.
#[unsafe(no_mangle)]
pub extern "C" fn ipexts_cursor_bytes(start: u8, bytes: &[u8]) -> u64 {
    let mut headers = Ipv6ExtensionsCursor::new(IpNumber(start), bytes);
    let mut sum: u64 = 0;
    'headers: while let Some(header) = headers.next() {
        sum = with_header(sum, &header);
    }
    let Some((number, rest, fault)) = headers.end() else {
        return sum;
    };
    let place = with_bytes(with(sum, u64::from(number.0)), rest);
    match &fault {
        Some((fault, layer)) => with(with(place, of_fault(fault)), u64::from(layer_code(layer))),
        None => place,
    }
}

/// Returns the digest extended by the payload of an optional header in the uniform format (RFC 6564).
fn with_payload(sum: u64, header: &Option<Ipv6RawExtHeader>) -> u64 {
    match header {
        Some(header) => with_bytes(sum, header.payload()),
        None => with(sum, REFUSED),
    }
}

/// Returns the digest extended by the bytes that a struct holds.
#[inline(never)]
pub fn with_held(sum: u64, exts: &Ipv6Extensions) -> u64 {
    let options = with_payload(sum, &exts.hop_by_hop_options);
    let options = with_payload(options, &exts.destination_options);
    let routing = match &exts.routing {
        Some(headers) => with_payload(
            with_bytes(options, headers.routing.payload()),
            &headers.final_destination_options,
        ),
        None => options,
    };
    match &exts.auth {
        Some(header) => with_bytes(routing, header.raw_icv()),
        None => routing,
    }
}

/// Returns the digest extended by the struct as written from a number, and the number to which it leads.
fn with_written(alloc: Global, sum: u64, exts: &Ipv6Extensions, start: IpNumber) -> u64 {
    let sum = with(with(sum, walk(exts, start)), exts.header_len() as u64);
    let mut out = Vec::new(alloc);
    match exts.write(&mut out, start) {
        Ok(()) => with_bytes(sum, out.as_slice()),
        Err(_) => with(sum, REFUSED),
    }
}

/// Runs the lax parse into a struct, and writes the struct.
#[unsafe(no_mangle)]
pub extern "C" fn ipexts_struct_bytes(alloc: Global, start: u8, bytes: &[u8]) -> u64 {
    let (exts, number, rest, _) = Ipv6Extensions::from_slice_lax(IpNumber(start), bytes);
    let held = with_held(of_answer(&exts, number, rest), &exts);
    with_written(alloc, with_bytes(held, rest), &exts, IpNumber(start))
}

/// Runs the lax parse into a struct, links the struct before the number `last`, and writes it.
#[unsafe(no_mangle)]
pub extern "C" fn ipexts_struct_linked_bytes(
    alloc: Global,
    start: u8,
    last: u8,
    bytes: &[u8],
) -> u64 {
    let (mut exts, _, _, _) = Ipv6Extensions::from_slice_lax(IpNumber(start), bytes);
    let first = exts.set_next_headers(IpNumber(last));
    with_written(alloc, u64::from(first.0), &exts, first)
}

/// Runs over the runs of a chain, and what follows the last.
#[unsafe(no_mangle)]
pub extern "C" fn ipexts_runs_bytes(start: u8, bytes: &[u8]) -> u64 {
    over_runs(IpNumber(start), bytes, true)
}

/// Runs the borrowing and the owned lax IPv4 parse, and writes the owned headers.
#[unsafe(no_mangle)]
pub extern "C" fn ipexts_ipv4_bytes(alloc: Global, start: u8, bytes: &[u8]) -> u64 {
    let (headers, number, rest, _) = Ipv4ExtensionsSlice::from_slice_lax(IpNumber(start), bytes);
    let sum = with_bytes(u64::from(number.0), rest);
    let sum = match &headers.auth {
        Some(header) => with_bytes(with_bytes(sum, header.slice()), header.raw_icv()),
        None => sum,
    };
    let (headers, number, rest, _) = Ipv4Extensions::from_slice_lax(IpNumber(start), bytes);
    let sum = with_bytes(with(sum, u64::from(number.0)), rest);
    let sum = match &headers.auth {
        Some(header) => with_bytes(sum, header.raw_icv()),
        None => sum,
    };
    let mut out = Vec::new(alloc);
    match headers.write(&mut out, IpNumber(start)) {
        Ok(()) => with_bytes(sum, out.as_slice()),
        Err(_) => with(sum, REFUSED),
    }
}

/// Returns the digest extended by a payload.
fn with_payload_of(sum: u64, payload: &IpPayloadSlice<'_>) -> u64 {
    with_bytes(with(sum, u64::from(payload.ip_number.0)), payload.payload)
}

/// Returns the digest of the parts of an IPv4 packet.
fn of_ipv4(packet: &Ipv4Slice<'_>) -> u64 {
    let header = packet.header();
    let sum = with_bytes(
        with_bytes(4, header.slice()),
        &header.source_addr().octets(),
    );
    let sum = with_bytes(sum, &header.destination_addr().octets());
    let exts = match &packet.extensions().auth {
        Some(header) => with(with_bytes(sum, header.slice()), of_auth(header)),
        None => sum,
    };
    with_payload_of(exts, packet.payload())
}

/// Returns the digest of the parts of an IPv6 packet.
fn of_ipv6(packet: &Ipv6Slice<'_>) -> u64 {
    let header = packet.header();
    let sum = with_bytes(
        with_bytes(6, header.slice()),
        &header.source_addr().octets(),
    );
    let sum = with_bytes(sum, &header.destination_addr().octets());
    with_payload_of(
        with_bytes(sum, packet.extensions().slice()),
        packet.payload(),
    )
}

/// Parses a packet of either IP version.
#[unsafe(no_mangle)]
pub extern "C" fn ipexts_ip_bytes(packet: &[u8]) -> u64 {
    match IpSlice::from_slice(packet) {
        Ok(IpSlice::Ipv4(packet)) => of_ipv4(&packet),
        Ok(IpSlice::Ipv6(packet)) => of_ipv6(&packet),
        Err(fault) => of_ip_fault(&fault),
    }
}

/// Parses an IPv4 packet.
#[unsafe(no_mangle)]
pub extern "C" fn ipexts_ipv4_slice_bytes(packet: &[u8]) -> u64 {
    match Ipv4Slice::from_slice(packet) {
        Ok(packet) => of_ipv4(&packet),
        Err(fault) => of_ipv4_fault(&fault),
    }
}

/// Parses an IPv6 packet.
#[unsafe(no_mangle)]
pub extern "C" fn ipexts_ipv6_slice_bytes(packet: &[u8]) -> u64 {
    match Ipv6Slice::from_slice(packet) {
        Ok(packet) => of_ipv6(&packet),
        Err(fault) => of_ipv6_fault(&fault),
    }
}

/// Parses an IPv6 packet, truncated or not.
#[unsafe(no_mangle)]
pub extern "C" fn ipexts_ipv6_slice_lax_bytes(packet: &[u8]) -> u64 {
    match Ipv6Slice::from_slice_lax(packet) {
        Ok(packet) => of_ipv6(&packet),
        Err(fault) => of_ipv6_fault(&fault),
    }
}
