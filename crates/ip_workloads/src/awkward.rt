//! What an attacker sends: headers that are truncated or faulty, chains of thousands of headers, all six places
//! occupied, lines that are refused at their end.
use crate::chains::{Chain, HOP_BY_HOP, Lengths, chain_of, many_numbers, numbers};
use crate::digest::Digest;
use crate::errors::add_chain_error;
use crate::filter::parsed;
use crate::lines::{Lines, add_answers};
use crate::packets::{Packet, ipv6};
use crate::parse::{add_chain, add_dissection, add_packet, add_summary};
use crate::random::{Random, Weyl};
use crate::rewrite::{read, rewrite, rewrite_runs};
use crate::statistics::add_statistics;
use anyhow::Result;
use ip_base::IpNumber;
use ip_dissect::{dissect, summarize_packet};
use ip_ext_chains::Ipv6Extensions;
use ip_filter::Filter;
use ip_statistics::Statistics;
use std::alloc::{AllocError, Global};

/// The packets of the pool of which most have an error.
const PACKETS: usize = 512;

/// The chains of the pool with all six places occupied.
const FULL: usize = 32;

/// The packets of the pool with a long chain, and how many headers each has.
const LONG: usize = 2;

const LONG_HEADERS: usize = 2048;

/// The headers of the chain that is split into structs.
const RUNS_HEADERS: usize = 256;

/// The lines of the pool that are refused at their last digit; as many are empty.
const BAD_LINES: usize = 64;

/// The inputs, and what they are counted in.
#[derive(Drop)]
struct Pool {
    packets: Vec<Packet>,
    long: Vec<Packet>,
    full: Vec<Chain>,
    many: Chain,
    lines: Lines,
    filter: Filter,
    counts: Statistics,
}

/// Makes an IPv6 packet with 1 to 4 headers: two in three have an error in or after them.
fn faulty(alloc: Global, random: &mut Random) -> Result<Packet, AllocError> {
    let mut numbers = numbers(alloc, 1 + random.below(4), random)?;
    let kind = random.below(3);
    if kind == 0 {
        numbers.push(HOP_BY_HOP)?;
    }
    let mut packet = ipv6(alloc, numbers.as_slice(), Lengths::Usual, random)?;
    if kind == 1 {
        // The stated length ends in the last header.
        let len = (packet.chain_len.min(2048).saturating_sub(4)) as u16;
        let [high, low] = len.to_be_bytes();
        let bytes = packet.bytes.as_mut_slice();
        if bytes.len() > 5 {
            bytes[4] = high;
            bytes[5] = low;
        }
    }
    Ok(packet)
}

impl Pool {
    fn new(alloc: Global, filter: Filter, random: &mut Random) -> Result<Pool, AllocError> {
        let many = many_numbers(alloc, RUNS_HEADERS, random)?;
        let mut pool = Pool {
            packets: Vec::new(alloc),
            long: Vec::new(alloc),
            full: Vec::new(alloc),
            many: chain_of(alloc, many.as_slice(), Lengths::Least, random)?,
            lines: bad_lines(alloc, random)?,
            filter,
            counts: Statistics::new(),
        };
        for _ in 0..PACKETS {
            pool.packets.push(faulty(alloc, random)?)?;
        }
        for _ in 0..LONG {
            let numbers = many_numbers(alloc, LONG_HEADERS, random)?;
            pool.long
                .push(ipv6(alloc, numbers.as_slice(), Lengths::Least, random)?)?;
        }
        for _ in 0..FULL {
            let numbers = numbers(alloc, 6, random)?;
            pool.full.push(chain_of(alloc, numbers.as_slice(), Lengths::Usual, random)?)?;
        }
        Ok(pool)
    }
}

/// Makes lines whose last digit is none, and empty lines.
fn bad_lines(alloc: Global, random: &mut Random) -> Result<Lines, AllocError> {
    let mut lines = Lines::new(alloc);
    for _ in 0..BAD_LINES {
        let numbers = numbers(alloc, 1 + random.below(4), random)?;
        let chain = chain_of(alloc, numbers.as_slice(), Lengths::Usual, random)?;
        lines.push_chain(alloc, "exts6", &chain)?;
        let _ = lines.text.pop();
        let _ = lines.text.pop();
        lines.text.extend_from_slice(b"g\n\n")?;
    }
    Ok(lines)
}

/// Passes a packet to each call that takes one.
#[inline(never)]
fn add_all(packet: &Packet, filter: &Filter, counts: &mut Statistics, digest: &mut Digest) {
    let bytes = packet.bytes();
    digest.add_bool(filter.matches(bytes));
    counts.count_packet(bytes);
    add_packet(digest, bytes);
    add_dissection(digest, &dissect(bytes));
    add_summary(digest, &summarize_packet(bytes));
    let (start, rest) = packet.after_base();
    add_chain(digest, start, rest);
}

/// Parses a chain into a struct strictly: whole, without its last byte, and its first bytes alone.
#[inline(never)]
fn add_strict(chain: &Chain, digest: &mut Digest) {
    let bytes = chain.bytes.as_slice();
    for len in [bytes.len(), chain.len.saturating_sub(1), 7] {
        let bytes = &bytes[..len.min(bytes.len())];
        match Ipv6Extensions::from_slice(IpNumber(chain.start), bytes) {
            Ok((exts, number, rest)) => {
                digest.add_len(exts.header_len());
                digest.add(u64::from(number.0));
                digest.add_len(rest.len());
            }
            Err(error) => add_chain_error(digest, &error),
        }
    }
}

/// Passes the packets to the calls; one in three is truncated in its headers.
fn pass_packets(pool: &mut Pool, weyl: &mut Weyl, random: &mut Random, digest: &mut Digest) {
    for (index, packet) in pool.packets.iter_mut().enumerate() {
        packet.vary(weyl);
        if index % 3 == 0 {
            let len = random.below(packet.chain_len.max(1)).saturating_add(41);
            packet.truncate(len);
        }
        add_all(packet, &pool.filter, &mut pool.counts, digest);
    }
    for packet in pool.long.iter_mut() {
        packet.vary(weyl);
        add_all(packet, &pool.filter, &mut pool.counts, digest);
    }
}

/// Passes the chains and the lines to the calls.
fn pass_chains(
    alloc: Global,
    pool: &mut Pool,
    out: &mut Vec<u8>,
    random: &mut Random,
    digest: &mut Digest,
) {
    for chain in pool.full.iter_mut() {
        chain.vary(random);
        add_strict(chain, digest);
        rewrite(chain, 6, out, digest);
        read(chain, 17, out, digest);
    }
    pool.many.vary(random);
    rewrite_runs(&pool.many, out, digest);
    pool.lines.vary(random);
    add_answers(alloc, &pool.lines, out, digest);
}

/// Passes the inputs of the pool to the calls in so many rounds.
pub fn run(alloc: Global, seed: u64, rounds: u64) -> Result<Digest> {
    let mut random = Random::new(seed);
    let filter = parsed("(header 51 or headers > 100) and not truncated")?;
    let mut pool = Pool::new(alloc, filter, &mut random)?;
    let mut out = Vec::new(alloc);
    let mut weyl = Weyl::new(seed);
    let mut digest = Digest::new();
    for _ in 0..rounds {
        pass_packets(&mut pool, &mut weyl, &mut random, &mut digest);
        pass_chains(alloc, &mut pool, &mut out, &mut random, &mut digest);
    }
    add_statistics(&mut digest, &pool.counts);
    Ok(digest)
}
