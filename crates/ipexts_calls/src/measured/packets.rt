//! Loops over IPv6 packets that follow one another in a buffer.
use crate::digests::chains::with;
use crate::measured::parses::{
    CursorFragment, CursorKinds, Lax, LaxFilter, LaxFragment, LaxHeaders, LaxHeadersFilter,
    LaxKinds, Parse, Strict, StrictFilter,
};
use crate::measured::reads::{StructRead, StructReadLimited};
use crate::measured::structs::{LaxStruct, StrictStruct};
use ip_ext_chains::IpNumber;

/// The offset of an IPv6 header's next header field (RFC 8200, section 3).
const NEXT_HEADER_AT: usize = 6;

/// The length of an IPv6 header, in bytes.
const IPV6_HEADER_LEN: usize = 40;

/// Parses what follows the IPv6 header of each packet, up to the first packet without one. The packets end at `ends`.
fn over_packets<P: Parse>(packets: &[u8], ends: &[usize]) -> u64 {
    let mut start = 0;
    let mut sum = 0;
    for end in ends {
        let Some(packet) = packets.get(start..*end) else {
            break;
        };
        if packet.len() < IPV6_HEADER_LEN {
            break;
        }
        let number = IpNumber(packet[NEXT_HEADER_AT]);
        sum = with(sum, P::digest(number, &packet[IPV6_HEADER_LEN..]));
        start = *end;
    }
    sum
}

/// Runs the lax parse of each packet; reads all of its result.
#[unsafe(no_mangle)]
pub extern "C" fn ipexts_lax_packets(packets: &[u8], ends: &[usize]) -> u64 {
    over_packets::<Lax>(packets, ends)
}

/// Runs the lax parse of each packet and its iterator; reads every header.
#[unsafe(no_mangle)]
pub extern "C" fn ipexts_lax_headers_packets(packets: &[u8], ends: &[usize]) -> u64 {
    over_packets::<LaxHeaders>(packets, ends)
}

/// Runs the strict parse of each packet; reads all of its result.
#[unsafe(no_mangle)]
pub extern "C" fn ipexts_strict_packets(packets: &[u8], ends: &[usize]) -> u64 {
    over_packets::<Strict>(packets, ends)
}

/// Runs the lax parse of each packet; reads the parts that a filter needs.
#[unsafe(no_mangle)]
pub extern "C" fn ipexts_lax_filter_packets(packets: &[u8], ends: &[usize]) -> u64 {
    over_packets::<LaxFilter>(packets, ends)
}

/// Runs the lax parse of each packet and its iterator; reads the parts that a filter needs.
#[unsafe(no_mangle)]
pub extern "C" fn ipexts_lax_headers_filter_packets(packets: &[u8], ends: &[usize]) -> u64 {
    over_packets::<LaxHeadersFilter>(packets, ends)
}

/// Runs the strict parse of each packet; reads the parts that a filter needs.
#[unsafe(no_mangle)]
pub extern "C" fn ipexts_strict_filter_packets(packets: &[u8], ends: &[usize]) -> u64 {
    over_packets::<StrictFilter>(packets, ends)
}

/// Runs the lax parse of each packet into a struct; reads all of it.
#[unsafe(no_mangle)]
pub extern "C" fn ipexts_lax_struct_packets(packets: &[u8], ends: &[usize]) -> u64 {
    over_packets::<LaxStruct>(packets, ends)
}

/// Runs the strict parse of each packet into a struct; reads all of it.
#[unsafe(no_mangle)]
pub extern "C" fn ipexts_strict_struct_packets(packets: &[u8], ends: &[usize]) -> u64 {
    over_packets::<StrictStruct>(packets, ends)
}

/// Runs a cursor over each packet; reads its headers by kind.
#[unsafe(no_mangle)]
pub extern "C" fn ipexts_cursor_kinds_packets(packets: &[u8], ends: &[usize]) -> u64 {
    over_packets::<CursorKinds>(packets, ends)
}

/// Runs the lax parse of each packet and its iterator; reads the headers by kind.
#[unsafe(no_mangle)]
pub extern "C" fn ipexts_lax_kinds_packets(packets: &[u8], ends: &[usize]) -> u64 {
    over_packets::<LaxKinds>(packets, ends)
}

/// Runs a cursor over each packet, up to the first fragment header.
#[unsafe(no_mangle)]
pub extern "C" fn ipexts_cursor_fragment_packets(packets: &[u8], ends: &[usize]) -> u64 {
    over_packets::<CursorFragment>(packets, ends)
}

/// Runs the lax parse of each packet and its iterator, up to the first fragment header.
#[unsafe(no_mangle)]
pub extern "C" fn ipexts_lax_fragment_packets(packets: &[u8], ends: &[usize]) -> u64 {
    over_packets::<LaxFragment>(packets, ends)
}

/// Reads each packet into a struct; reads all of it.
#[unsafe(no_mangle)]
pub extern "C" fn ipexts_struct_read_packets(packets: &[u8], ends: &[usize]) -> u64 {
    over_packets::<StructRead>(packets, ends)
}

/// Reads each packet into a struct within a limit; reads all of it.
#[unsafe(no_mangle)]
pub extern "C" fn ipexts_struct_read_limited_packets(packets: &[u8], ends: &[usize]) -> u64 {
    over_packets::<StructReadLimited>(packets, ends)
}
