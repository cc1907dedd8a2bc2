//! A program parses packets: as a whole, their chains alone with each header, as a dissection and as a summary.
use crate::digest::Digest;
use crate::errors::{add_fault, add_layer, add_packet_error, add_truncated};
use crate::packets::{Packet, mixed, with_headers};
use crate::random::{Random, Weyl};
use anyhow::Result;
use etherparse_ip::IpSlice;
use ip_base::IpNumber;
use ip_dissect::{Dissection, End, Summary, dissect, summarize_packet};
use ip_ext_slices::Ipv6ExtensionsSlice;
use std::alloc::Global;

/// The packets of the pool that are like those of a capture.
const MIXED: usize = 3072;

/// The packets of the pool with 1 to 4 extension headers.
const WITH_HEADERS: usize = 1024;

/// Adds the payload of the packet, or that there is an error.
#[inline(always)]
pub fn add_packet(digest: &mut Digest, bytes: &[u8]) {
    match IpSlice::from_slice(bytes) {
        Ok(packet) => {
            let payload = packet.payload();
            let number = usize::from(payload.ip_number.0);
            let is_fragment = usize::from(payload.fragmented);
            digest.add_four([payload.payload.len(), number, is_fragment, 0]);
        }
        Err(error) => add_packet_error(digest, &error),
    }
}

/// Adds the longest chain and each of its headers.
#[inline(always)]
pub fn add_chain(digest: &mut Digest, start: u8, bytes: &[u8]) {
    let (chain, number, rest, fault) = Ipv6ExtensionsSlice::from_slice_lax(IpNumber(start), bytes);
    for header in chain {
        digest.add_four([header.slice().len(), usize::from(header.number().0), 0, 0]);
    }
    digest.add_four([rest.len(), usize::from(number.0), 0, 0]);
    add_fault(digest, &fault);
}

/// Adds why the headers end.
#[inline(always)]
fn add_end(digest: &mut Digest, end: &End) {
    match end {
        End::Payload => digest.add(0),
        End::LaterFragment => digest.add(1),
        End::Truncated { error, header } => add_truncated(digest, error, header),
        End::Fault { error, header } => {
            add_packet_error(digest, error);
            add_layer(digest, header);
        }
    }
}

/// Adds the parts of a dissection.
#[inline(always)]
pub fn add_dissection(digest: &mut Digest, packet: &Dissection<'_>) {
    digest.add_four([
        packet.payload.len(),
        usize::from(packet.next_header.0),
        packet.extensions.len(),
        packet.header_count,
    ]);
    digest.add_four([
        packet.missing,
        packet.padding.len(),
        usize::from(packet.fragment.is_some()),
        0,
    ]);
    add_end(digest, &packet.end);
}

/// Adds the lengths of a summary.
#[inline(always)]
pub fn add_summary(digest: &mut Digest, summary: &Option<Summary>) {
    match summary {
        Some(summary) => {
            let number = usize::from(summary.next_header.0);
            let is_later = usize::from(summary.is_later_fragment);
            digest.add_four([
                summary.payload_len,
                number,
                summary.extensions_len,
                is_later,
            ]);
            digest.add_len(summary.header_count);
        }
        None => digest.add(256),
    }
}

/// Parses each packet in each way.
#[inline(never)]
fn pass(packets: &mut [Packet], weyl: &mut Weyl, digest: &mut Digest) {
    for packet in packets {
        packet.vary(weyl);
        let bytes = packet.bytes();
        add_packet(digest, bytes);
        add_dissection(digest, &dissect(bytes));
        add_summary(digest, &summarize_packet(bytes));
        if packet.base_len == 40 {
            let (start, rest) = packet.after_base();
            add_chain(digest, start, rest);
        }
    }
}

/// Parses the packets of the pool in so many rounds.
pub fn run(alloc: Global, seed: u64, rounds: u64) -> Result<Digest> {
    let mut random = Random::new(seed);
    let mut packets = mixed(alloc, MIXED, &mut random)?;
    let mut others = with_headers(alloc, WITH_HEADERS, &mut random)?;
    let mut weyl = Weyl::new(seed);
    let mut digest = Digest::new();
    for _ in 0..rounds {
        pass(packets.as_mut_slice(), &mut weyl, &mut digest);
        pass(others.as_mut_slice(), &mut weyl, &mut digest);
    }
    Ok(digest)
}
