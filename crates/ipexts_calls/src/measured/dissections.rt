//! Whole packets dissected, and their payload found: the parts are read that a filter needs.
use crate::digests::chains::with;
use crate::measured::whole_packets::{NO_PACKET, Packet, over_each};
use ip_dissect::{Dissection, End, dissect, summarize_packet};
use ip_spans::find_payload;

/// A packet, dissected with its errors.
pub struct Dissected;

/// A packet, dissected without its errors.
pub struct Summarized;

/// A packet whose payload is found.
pub struct Found;

impl Packet for Dissected {
    fn digest(bytes: &[u8]) -> u64 {
        Dissected::of(&dissect(bytes))
    }
}

impl Dissected {
    /// Returns the digest of the parts that a filter needs.
    #[inline(always)]
    pub fn of(packet: &Dissection<'_>) -> u64 {
        match packet.end {
            End::Payload | End::LaterFragment if packet.missing == 0 => of_place(
                u64::from(packet.next_header.0),
                packet.extensions.len(),
                packet.payload.len(),
            ),
            _ => NO_PACKET,
        }
    }
}

impl Packet for Summarized {
    fn digest(bytes: &[u8]) -> u64 {
        match summarize_packet(bytes) {
            Some(packet) if packet.missing == 0 => of_place(
                u64::from(packet.next_header.0),
                packet.extensions_len,
                packet.payload_len,
            ),
            _ => NO_PACKET,
        }
    }
}

impl Packet for Found {
    fn digest(bytes: &[u8]) -> u64 {
        match find_payload(bytes) {
            Ok(payload) => of_place(
                u64::from(payload.number),
                payload.offset.wrapping_sub(payload.base_len),
                payload.len,
            ),
            Err(_) => NO_PACKET,
        }
    }
}

/// Returns the digest of a payload's number and of the lengths of the extension headers and of the payload.
#[inline(always)]
fn of_place(number: u64, extensions_len: usize, payload_len: usize) -> u64 {
    with(with(number, extensions_len as u64), payload_len as u64)
}

/// Dissects packets with their errors; reads the parts that a filter needs.
#[unsafe(no_mangle)]
pub extern "C" fn ipexts_dissect_packets(packets: &[u8], ends: &[usize]) -> u64 {
    over_each::<Dissected>(packets, ends)
}

/// Dissects packets without their errors; reads the parts that a filter needs.
#[unsafe(no_mangle)]
pub extern "C" fn ipexts_summarize_packets(packets: &[u8], ends: &[usize]) -> u64 {
    over_each::<Summarized>(packets, ends)
}

/// Finds the payload of each packet; reads the parts that a filter needs.
#[unsafe(no_mangle)]
pub extern "C" fn ipexts_find_payload_packets(packets: &[u8], ends: &[usize]) -> u64 {
    over_each::<Found>(packets, ends)
}
