//! A digest of a dissection in which every byte of the result counts.
use crate::compared::every_byte::with_bytes;
use crate::digests::chains::{layer_code, of_len_error, with};
use crate::digests::packets::of_ip_fault;
use ip_codes::kind_code_of;
use ip_dissect::{Dissection, End, Fragment, dissect};

/// The value of a part that isn't there.
const NONE: u64 = 256;

/// Dissects the packet at the start of any bytes.
#[unsafe(no_mangle)]
pub extern "C" fn ipexts_dissect_bytes(packet: &[u8]) -> u64 {
    let packet = dissect(packet);
    let sum = match &packet.base {
        Some(base) => with_bytes(u64::from(base.version()), base.slice()),
        None => NONE,
    };
    let sum = match packet.stated_len {
        Some(len) => with(sum, len as u64),
        None => with(sum, NONE),
    };
    let sum = with_fragment(with_headers(sum, &packet), packet.fragment);
    let sum = with_bytes(with(sum, u64::from(packet.next_header.0)), packet.payload);
    let sum = with_bytes(with(sum, packet.missing as u64), packet.padding);
    with_end(sum, &packet.end)
}

/// Returns the digest extended by the number and the bytes of each extension header.
fn with_headers(sum: u64, packet: &Dissection<'_>) -> u64 {
    let mut sum = with_bytes(with(sum, packet.header_count as u64), packet.extensions);
    if let Some(headers) = packet.ipv6_extensions() {
        for header in headers {
            sum = with_bytes(with(sum, u64::from(header.number().0)), header.slice());
        }
    }
    if let Some(header) = packet.ipv4_authentication() {
        sum = with_bytes(with(sum, 51), header.slice());
    }
    sum
}

/// Returns the digest extended by which fragment the packet is.
fn with_fragment(sum: u64, fragment: Option<Fragment>) -> u64 {
    let Some(fragment) = fragment else {
        return with(sum, NONE);
    };
    let kind = u64::from(kind_code_of(fragment.kind));
    let place = with(
        u64::from(fragment.identification),
        u64::from(fragment.offset),
    );
    with(with(sum, place), kind)
}

/// Returns the digest extended by why the headers end, and by the IPv6 extension header that an error is in.
fn with_end(sum: u64, end: &End) -> u64 {
    let (sum, header) = match end {
        End::Payload => return with(sum, 1),
        End::LaterFragment => return with(sum, 2),
        End::Truncated { error, header } => (with(with(sum, 3), of_len_error(error)), header),
        End::Fault { error, header } => (with(with(sum, 4), of_ip_fault(error)), header),
    };
    match header {
        Some(layer) => with(sum, u64::from(layer_code(layer))),
        None => with(sum, NONE),
    }
}
