//! Whole packets: base header, extension headers and payload; all of it is read, or the parts that a filter needs.
use crate::digests::chains::with;
use crate::digests::packets::{of_ip, of_ip_fault, of_ipv4, of_ipv4_fault, of_ipv6, of_ipv6_fault};
use etherparse_ip::{IpPayloadSlice, IpSlice, Ipv4Slice, Ipv6Slice};

/// A way to parse a packet.
pub trait Packet {
    /// Returns a digest of the packet at the start of the bytes.
    fn digest(bytes: &[u8]) -> u64;
}

/// A packet of either IP version, with all of it read.
pub struct Ip;

/// A packet of either IP version; a filter reads the payload's number, whether it is a fragment, and its length.
pub struct IpFilter;

/// An IPv4 packet, with all of it read.
pub struct Ipv4;

/// An IPv4 packet, with the parts read that a filter needs.
pub struct Ipv4Filter;

/// An IPv6 packet, with all of it read.
pub struct Ipv6;

/// An IPv6 packet, with the parts read that a filter needs.
pub struct Ipv6Filter;

/// An IPv6 packet, truncated or not, with all of it read.
pub struct Ipv6Lax;

/// An IPv6 packet, truncated or not, with the parts read that a filter needs.
pub struct Ipv6LaxFilter;

/// The digest of an error if only a filter reads it.
pub const NO_PACKET: u64 = 2;

impl Packet for Ip {
    fn digest(bytes: &[u8]) -> u64 {
        match IpSlice::from_slice(bytes) {
            Ok(packet) => of_ip(&packet),
            Err(fault) => of_ip_fault(&fault),
        }
    }
}

impl Packet for IpFilter {
    fn digest(bytes: &[u8]) -> u64 {
        match IpSlice::from_slice(bytes) {
            Ok(packet) => of_place(packet.payload()),
            Err(_) => NO_PACKET,
        }
    }
}

impl Packet for Ipv4 {
    fn digest(bytes: &[u8]) -> u64 {
        match Ipv4Slice::from_slice(bytes) {
            Ok(packet) => of_ipv4(&packet),
            Err(fault) => of_ipv4_fault(&fault),
        }
    }
}

impl Packet for Ipv4Filter {
    fn digest(bytes: &[u8]) -> u64 {
        match Ipv4Slice::from_slice(bytes) {
            Ok(packet) => of_place(packet.payload()),
            Err(_) => NO_PACKET,
        }
    }
}

impl Packet for Ipv6 {
    fn digest(bytes: &[u8]) -> u64 {
        match Ipv6Slice::from_slice(bytes) {
            Ok(packet) => of_ipv6(&packet),
            Err(fault) => of_ipv6_fault(&fault),
        }
    }
}

impl Packet for Ipv6Filter {
    fn digest(bytes: &[u8]) -> u64 {
        match Ipv6Slice::from_slice(bytes) {
            Ok(packet) => of_place(packet.payload()),
            Err(_) => NO_PACKET,
        }
    }
}

impl Packet for Ipv6Lax {
    fn digest(bytes: &[u8]) -> u64 {
        match Ipv6Slice::from_slice_lax(bytes) {
            Ok(packet) => of_ipv6(&packet),
            Err(fault) => of_ipv6_fault(&fault),
        }
    }
}

impl Packet for Ipv6LaxFilter {
    fn digest(bytes: &[u8]) -> u64 {
        match Ipv6Slice::from_slice_lax(bytes) {
            Ok(packet) => of_place(packet.payload()),
            Err(_) => NO_PACKET,
        }
    }
}

/// Returns the digest of the parts of a payload that a filter needs.
#[inline(always)]
fn of_place(payload: &IpPayloadSlice<'_>) -> u64 {
    with(
        with(
            u64::from(payload.fragmented),
            u64::from(payload.ip_number.0),
        ),
        payload.payload.len() as u64,
    )
}

/// Parses each packet, up to the first that isn't one. The packets follow one another, and end at `ends`.
pub fn over_each<P: Packet>(packets: &[u8], ends: &[usize]) -> u64 {
    let mut start = 0;
    let mut sum = 0;
    for end in ends {
        let Some(packet) = packets.get(start..*end) else {
            break;
        };
        sum = with(sum, P::digest(packet));
        start = *end;
    }
    sum
}

/// Parses a packet of either IP version; reads all of it.
#[unsafe(no_mangle)]
pub extern "C" fn ipexts_ip(packet: &[u8]) -> u64 {
    Ip::digest(packet)
}

/// Parses a packet of either IP version; reads the parts that a filter needs.
#[unsafe(no_mangle)]
pub extern "C" fn ipexts_ip_filter(packet: &[u8]) -> u64 {
    IpFilter::digest(packet)
}

/// Parses an IPv4 packet; reads all of it.
#[unsafe(no_mangle)]
pub extern "C" fn ipexts_ipv4_slice(packet: &[u8]) -> u64 {
    Ipv4::digest(packet)
}

/// Parses an IPv4 packet; reads the parts that a filter needs.
#[unsafe(no_mangle)]
pub extern "C" fn ipexts_ipv4_slice_filter(packet: &[u8]) -> u64 {
    Ipv4Filter::digest(packet)
}

/// Parses an IPv6 packet; reads all of it.
#[unsafe(no_mangle)]
pub extern "C" fn ipexts_ipv6_slice(packet: &[u8]) -> u64 {
    Ipv6::digest(packet)
}

/// Parses an IPv6 packet; reads the parts that a filter needs.
#[unsafe(no_mangle)]
pub extern "C" fn ipexts_ipv6_slice_filter(packet: &[u8]) -> u64 {
    Ipv6Filter::digest(packet)
}

/// Parses an IPv6 packet, truncated or not; reads all of it.
#[unsafe(no_mangle)]
pub extern "C" fn ipexts_ipv6_slice_lax(packet: &[u8]) -> u64 {
    Ipv6Lax::digest(packet)
}

/// Parses an IPv6 packet, truncated or not; reads the parts that a filter needs.
#[unsafe(no_mangle)]
pub extern "C" fn ipexts_ipv6_slice_lax_filter(packet: &[u8]) -> u64 {
    Ipv6LaxFilter::digest(packet)
}

/// Parses packets of either IP version; reads all of each.
#[unsafe(no_mangle)]
pub extern "C" fn ipexts_ip_packets(packets: &[u8], ends: &[usize]) -> u64 {
    over_each::<Ip>(packets, ends)
}

/// Parses packets of either IP version; reads the parts that a filter needs.
#[unsafe(no_mangle)]
pub extern "C" fn ipexts_ip_filter_packets(packets: &[u8], ends: &[usize]) -> u64 {
    over_each::<IpFilter>(packets, ends)
}

/// Parses IPv4 packets; reads all of each.
#[unsafe(no_mangle)]
pub extern "C" fn ipexts_ipv4_slice_packets(packets: &[u8], ends: &[usize]) -> u64 {
    over_each::<Ipv4>(packets, ends)
}

/// Parses IPv4 packets; reads the parts that a filter needs.
#[unsafe(no_mangle)]
pub extern "C" fn ipexts_ipv4_slice_filter_packets(packets: &[u8], ends: &[usize]) -> u64 {
    over_each::<Ipv4Filter>(packets, ends)
}

/// Parses IPv6 packets; reads all of each.
#[unsafe(no_mangle)]
pub extern "C" fn ipexts_ipv6_slice_packets(packets: &[u8], ends: &[usize]) -> u64 {
    over_each::<Ipv6>(packets, ends)
}

/// Parses IPv6 packets; reads the parts that a filter needs.
#[unsafe(no_mangle)]
pub extern "C" fn ipexts_ipv6_slice_filter_packets(packets: &[u8], ends: &[usize]) -> u64 {
    over_each::<Ipv6Filter>(packets, ends)
}

/// Parses IPv6 packets, truncated or not; reads all of each.
#[unsafe(no_mangle)]
pub extern "C" fn ipexts_ipv6_slice_lax_packets(packets: &[u8], ends: &[usize]) -> u64 {
    over_each::<Ipv6Lax>(packets, ends)
}

/// Parses IPv6 packets, truncated or not; reads the parts that a filter needs.
#[unsafe(no_mangle)]
pub extern "C" fn ipexts_ipv6_slice_lax_filter_packets(packets: &[u8], ends: &[usize]) -> u64 {
    over_each::<Ipv6LaxFilter>(packets, ends)
}
