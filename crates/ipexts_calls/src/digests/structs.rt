//! The contents of a struct of six places.
use crate::digests::chains::{of_bytes, with};
use ip_ext_chains::{IpAuthHeader, IpNumber, Ipv6Extensions, Ipv6FragmentHeader, Ipv6RawExtHeader};

/// Returns the digest of every part of a struct, the number to which its chain leads and the bytes after it.
#[inline(never)]
pub fn of_answer(exts: &Ipv6Extensions, number: IpNumber, rest: &[u8]) -> u64 {
    with(with(of_exts(exts), u64::from(number.0)), of_bytes(rest))
}

/// Returns the digest of every part of a struct.
pub fn of_exts(exts: &Ipv6Extensions) -> u64 {
    let options = with(
        of_raw(&exts.hop_by_hop_options),
        of_raw(&exts.destination_options),
    );
    let routing = match &exts.routing {
        Some(headers) => with(
            of_raw_header(&headers.routing),
            of_raw(&headers.final_destination_options),
        ),
        None => 0,
    };
    let fragment = match &exts.fragment {
        Some(header) => of_fragment(header),
        None => 0,
    };
    let auth = match &exts.auth {
        Some(header) => of_auth(header),
        None => 0,
    };
    with(with(options, routing), with(fragment, auth))
}

/// Returns the digest of every part of an optional header in the uniform format (RFC 6564).
fn of_raw(header: &Option<Ipv6RawExtHeader>) -> u64 {
    match header {
        Some(header) => of_raw_header(header),
        None => 0,
    }
}

/// Returns the digest of every part of a header in the uniform format (RFC 6564).
fn of_raw_header(header: &Ipv6RawExtHeader) -> u64 {
    with(u64::from(header.next_header.0), of_bytes(header.payload()))
}

/// Returns the digest of every part of a fragment header.
fn of_fragment(header: &Ipv6FragmentHeader) -> u64 {
    let offset = u64::from(header.fragment_offset.value());
    let flags = with(u64::from(header.more_fragments), offset);
    let fields = with(flags, u64::from(header.identification));
    with(u64::from(header.next_header.0), fields)
}

/// Returns the digest of every part of an authentication header.
fn of_auth(header: &IpAuthHeader) -> u64 {
    let numbers = with(u64::from(header.spi), u64::from(header.sequence_number));
    let fields = with(numbers, of_bytes(header.raw_icv()));
    with(u64::from(header.next_header.0), fields)
}
