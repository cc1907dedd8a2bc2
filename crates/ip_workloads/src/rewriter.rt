//! A border takes extension headers out of packets, inserts one, sets reserved bits to zero, and replaces payloads.
use crate::digest::Digest;
use crate::packets::{Packet, ipv4, with_headers};
use crate::parse::add_summary;
use crate::random::{Random, Weyl};
use anyhow::Result;
use ip_base::{IpNumber, ip_number};
use ip_dissect::summarize_packet;
use ip_rewrite::{
    Authentication, RewriteError, Rewritten, Which, clear_reserved_bits, remove_header,
    with_header, with_payload,
};
use std::alloc::{AllocError, Global};

/// The packets of the pool with 1 to 4 extension headers.
const WITH_HEADERS: usize = 768;

/// The IPv4 packets of the pool, with an authentication header.
const IPV4: usize = 256;

/// Destination options: padding of 6 bytes.
const OPTIONS: [u8; 8] = [59, 0, 1, 4, 0, 0, 0, 0];

/// A payload: a UDP header without data.
const PAYLOAD: [u8; 8] = [0x30, 0x39, 0, 53, 0, 8, 0, 0];

/// Makes the packets of the pool.
fn pool(alloc: Global, random: &mut Random) -> Result<Vec<Packet>, AllocError> {
    let mut packets = with_headers(alloc, WITH_HEADERS, random)?;
    for _ in 0..IPV4 {
        packets.push(ipv4(alloc, true, random)?)?;
    }
    Ok(packets)
}

/// Adds the headers of the packet that was written, its length, and whether checksums hold, or the error.
#[inline(always)]
fn add_rewritten(
    digest: &mut Digest,
    outcome: &Result<Rewritten, RewriteError>,
    headers_len: usize,
    out: &[u8],
) {
    match outcome {
        Ok(rewritten) => {
            digest.add_bytes(&out[..headers_len.min(rewritten.len).min(out.len())]);
            digest.add_len(rewritten.len);
            digest.add_bool(rewritten.keeps_checksums);
        }
        Err(_) => digest.add(256),
    }
}

/// Rewrites a packet in each way.
#[inline(never)]
pub fn rewrite(packet: &Packet, index: usize, out: &mut [u8], digest: &mut Digest) {
    let bytes = packet.bytes();
    let headers_len = packet.base_len.saturating_add(packet.chain_len);
    add_summary(digest, &summarize_packet(bytes));
    let kept = remove_header(bytes, Which::Index(index), Authentication::Invalid, out);
    add_rewritten(digest, &kept, headers_len, out);
    let number = ip_number::IPV6_DEST_OPTIONS;
    let inserted = with_header(bytes, number, &OPTIONS, index, Authentication::Invalid, out);
    add_rewritten(digest, &inserted, headers_len, out);
    let zeroed = clear_reserved_bits(bytes, Authentication::Invalid, out);
    add_rewritten(digest, &zeroed, headers_len, out);
    let replaced = with_payload(bytes, IpNumber(17), &PAYLOAD, Authentication::Invalid, out);
    add_rewritten(digest, &replaced, headers_len, out);
}

/// Rewrites each packet of the pool.
fn pass(packets: &mut [Packet], weyl: &mut Weyl, out: &mut [u8], digest: &mut Digest) {
    for packet in packets {
        packet.vary(weyl);
        let index = (weyl.next() >> 62) as usize;
        rewrite(packet, index, out, digest);
    }
}

/// Rewrites the packets of the pool in so many rounds.
pub fn run(alloc: Global, seed: u64, rounds: u64) -> Result<Digest> {
    let mut random = Random::new(seed);
    let mut packets = pool(alloc, &mut random)?;
    let mut weyl = Weyl::new(seed);
    let mut out = [0; 2048];
    let mut digest = Digest::new();
    for _ in 0..rounds {
        pass(packets.as_mut_slice(), &mut weyl, &mut out, &mut digest);
    }
    Ok(digest)
}
