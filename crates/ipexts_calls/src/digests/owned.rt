//! Owned headers and written bytes. `at` chooses the bytes that are read, so that the compiler can't omit any.
use crate::digests::chains::{of_bytes, with};
use ip_ext_headers::{IpAuthHeader, Ipv6FragmentHeader, Ipv6RawExtHeader};

/// Returns one of the bytes, at a place known only at run time.
pub fn byte_at(bytes: &[u8], at: usize) -> u64 {
    match bytes.get(at) {
        Some(byte) => u64::from(*byte),
        None => 256,
    }
}

/// Returns the digest of written bytes: their number, the first, and one chosen at run time.
#[inline(never)]
pub fn of_written(bytes: &[u8], at: usize) -> u64 {
    with(of_bytes(bytes), byte_at(bytes, at))
}

/// Returns the digest of every part of an owned header in the uniform format (RFC 6564).
#[inline(never)]
pub fn of_owned_raw(header: &Ipv6RawExtHeader, at: usize) -> u64 {
    let payload = header.payload();
    let fields = with(u64::from(header.next_header.0), of_bytes(payload));
    with(fields, byte_at(payload, at))
}

/// Returns the digest of every part of an owned authentication header.
#[inline(never)]
pub fn of_owned_auth(header: &IpAuthHeader, at: usize) -> u64 {
    let numbers = with(u64::from(header.spi), u64::from(header.sequence_number));
    let fields = with(numbers, u64::from(header.next_header.0));
    let icv = header.raw_icv();
    with(with(fields, of_bytes(icv)), byte_at(icv, at))
}

/// Returns the digest of every part of an owned fragment header.
#[inline(never)]
pub fn of_owned_fragment(header: &Ipv6FragmentHeader) -> u64 {
    let offset = u64::from(header.fragment_offset.value());
    let flags = with(u64::from(header.more_fragments), offset);
    let fields = with(flags, u64::from(header.identification));
    with(fields, u64::from(header.next_header.0))
}
