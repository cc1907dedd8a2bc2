//! A probe counts a capture in parts, and merges them.
use crate::digest::Digest;
use crate::packets::{Packet, mixed};
use crate::random::{Random, Weyl};
use anyhow::Result;
use ip_statistics::Statistics;
use std::alloc::Global;

/// The packets of the pool.
const PACKETS: usize = 4096;

/// The packets of a part.
const PART: usize = 512;

/// Counts the packets of a part.
#[inline(never)]
fn count(packets: &mut [Packet], weyl: &mut Weyl, part: &mut Statistics) {
    for packet in packets {
        packet.vary(weyl);
        part.count_packet(packet.bytes());
    }
}

/// Counts the packets part by part, and merges the parts.
fn pass(packets: &mut [Packet], weyl: &mut Weyl, whole: &mut Statistics) {
    let mut part = Statistics::new();
    for packets in packets.chunks_mut(PART) {
        count(packets, weyl, &mut part);
        whole.merge(&part);
        part.clear();
    }
}

/// Adds each of the counts.
fn add_counts(digest: &mut Digest, counts: &[u64]) {
    for count in counts {
        digest.add(*count);
    }
}

/// Adds every count of the statistics.
pub fn add_statistics(digest: &mut Digest, all: &Statistics) {
    add_counts(
        digest,
        &[
            all.packets,
            all.without_header,
            all.ipv4,
            all.ipv6,
            all.at_payload,
            all.at_later_fragment,
            all.at_truncated_header,
            all.at_fault,
            all.atomic_fragments,
            all.first_fragments,
            all.middle_fragments,
            all.last_fragments,
            all.incomplete,
            all.payload_bytes,
        ],
    );
    add_counts(digest, &all.chain_headers);
    add_counts(digest, &all.chain_bytes);
    add_counts(digest, &all.headers);
    add_counts(digest, &all.payload_numbers);
    add_counts(digest, &all.later_fragment_numbers);
    add_counts(digest, &all.truncated_headers);
    add_counts(digest, &all.faults);
}

/// Counts the packets of the pool in so many rounds.
pub fn run(alloc: Global, seed: u64, rounds: u64) -> Result<Digest> {
    let mut random = Random::new(seed);
    let mut packets = mixed(alloc, PACKETS, &mut random)?;
    let mut whole = Statistics::new();
    let mut weyl = Weyl::new(seed);
    for _ in 0..rounds {
        pass(packets.as_mut_slice(), &mut weyl, &mut whole);
    }
    let mut digest = Digest::new();
    add_statistics(&mut digest, &whole);
    Ok(digest)
}
