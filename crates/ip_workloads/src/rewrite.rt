//! A rewriter reads chains, links their headers to another payload, and writes them.
use crate::chains::{
    AUTHENTICATION, Chain, Lengths, chain_of, many_numbers, numbers, payload_number,
};
use crate::digest::Digest;
use crate::errors::{add_fault, add_read_error};
use crate::random::Random;
use anyhow::Result;
use ip_base::IpNumber;
use ip_ext_chains::{Ipv4Extensions, Ipv6Extensions, Ipv6ExtensionsRuns};
use std::alloc::{AllocError, Global};

/// The chains of the pool with 1 to 4 headers, of which one in 64 has options of 2 KB.
const SHORT: usize = 512;

/// The IPv4 chains of the pool.
const IPV4: usize = 256;

/// The chains of the pool that need several structs.
const LONG: usize = 4;

/// The headers of a long chain.
const LONG_HEADERS: usize = 24;

/// Chains to rewrite.
#[derive(Drop)]
struct Pool {
    short: Vec<Chain>,
    ipv4: Vec<Chain>,
    long: Vec<Chain>,
}

impl Pool {
    fn new(alloc: Global, random: &mut Random) -> Result<Pool, AllocError> {
        let mut pool = Pool {
            short: Vec::new(alloc),
            ipv4: Vec::new(alloc),
            long: Vec::new(alloc),
        };
        for index in 0..SHORT {
            let lengths = if index % 64 == 0 {
                Lengths::Long
            } else {
                Lengths::Usual
            };
            let numbers = numbers(alloc, 1 + random.below(4), random)?;
            pool.short
                .push(chain_of(alloc, numbers.as_slice(), lengths, random)?)?;
        }
        for _ in 0..IPV4 {
            pool.ipv4.push(chain_of(alloc, &[AUTHENTICATION], Lengths::Usual, random)?)?;
        }
        for _ in 0..LONG {
            let numbers = many_numbers(alloc, LONG_HEADERS, random)?;
            pool.long.push(chain_of(alloc, numbers.as_slice(), Lengths::Usual, random)?)?;
        }
        Ok(pool)
    }
}

/// Links the headers to the payload and writes them.
#[inline(always)]
fn write(exts: &mut Ipv6Extensions, last: u8, out: &mut Vec<u8>, digest: &mut Digest) {
    let first = exts.set_next_headers(IpNumber(last));
    out.clear();
    digest.add_bool(exts.write(out, first).is_ok());
    digest.add_bytes(out.as_slice());
}

/// Parses a chain, and writes it with another payload.
#[inline(never)]
pub fn rewrite(chain: &Chain, last: u8, out: &mut Vec<u8>, digest: &mut Digest) {
    let (mut exts, number, rest, fault) = Ipv6Extensions::from_slice_lax(
        IpNumber(chain.start),
        chain.bytes.as_slice(),
    );
    digest.add(u64::from(number.0));
    digest.add_len(rest.len());
    add_fault(digest, &fault);
    write(&mut exts, last, out, digest);
}

/// Reads a chain from a stream, and writes it with another payload.
#[inline(never)]
pub fn read(chain: &Chain, last: u8, out: &mut Vec<u8>, digest: &mut Digest) {
    let mut reader = chain.bytes.as_slice();
    match Ipv6Extensions::read(&mut reader, IpNumber(chain.start)) {
        Ok((mut exts, number)) => {
            digest.add(u64::from(number.0));
            write(&mut exts, last, out, digest);
        }
        Err(error) => add_read_error(digest, &error),
    }
    digest.add_len(reader.len());
}

/// Parses a long chain into structs, and writes each of them.
#[inline(never)]
pub fn rewrite_runs(chain: &Chain, out: &mut Vec<u8>, digest: &mut Digest) {
    let mut runs = Ipv6ExtensionsRuns::new(IpNumber(chain.start), chain.bytes.as_slice());
    out.clear();
    let mut number = runs.next_number();
    while let Some(exts) = runs.next() {
        digest.add_bool(exts.write(out, number).is_ok());
        number = runs.next_number();
    }
    digest.add(u64::from(number.0));
    digest.add_bytes(out.as_slice());
}

/// Parses an IPv4 chain, and writes it with another payload.
#[inline(never)]
fn rewrite_ipv4(chain: &Chain, last: u8, out: &mut Vec<u8>, digest: &mut Digest) {
    let (mut exts, number, rest, fault) = Ipv4Extensions::from_slice_lax(
        IpNumber(chain.start),
        chain.bytes.as_slice(),
    );
    digest.add(u64::from(number.0));
    digest.add_len(rest.len());
    digest.add_bool(fault.is_some());
    let first = exts.set_next_headers(IpNumber(last));
    out.clear();
    digest.add_bool(exts.write(out, first).is_ok());
    digest.add_bytes(out.as_slice());
}

/// Reads an IPv4 chain from a stream, and writes it.
#[inline(never)]
fn read_ipv4(chain: &Chain, out: &mut Vec<u8>, digest: &mut Digest) {
    let mut reader = chain.bytes.as_slice();
    match Ipv4Extensions::read(&mut reader, IpNumber(chain.start)) {
        Ok((exts, number)) => {
            digest.add(u64::from(number.0));
            out.clear();
            digest.add_bool(exts.write(out, IpNumber(chain.start)).is_ok());
            digest.add_bytes(out.as_slice());
        }
        Err(_) => digest.add(256),
    }
}

/// Rewrites each chain of the pool; every fourth is read from a stream.
fn pass(pool: &mut Pool, out: &mut Vec<u8>, random: &mut Random, digest: &mut Digest) {
    for (index, chain) in pool.short.iter_mut().enumerate() {
        chain.vary(random);
        let last = payload_number(random);
        if index % 4 == 3 {
            read(chain, last, out, digest);
        } else {
            rewrite(chain, last, out, digest);
        }
    }
    for (index, chain) in pool.ipv4.iter_mut().enumerate() {
        chain.vary(random);
        if index % 4 == 3 {
            read_ipv4(chain, out, digest);
        } else {
            rewrite_ipv4(chain, payload_number(random), out, digest);
        }
    }
    for chain in pool.long.iter_mut() {
        chain.vary(random);
        rewrite_runs(chain, out, digest);
    }
}

/// Rewrites the chains of the pool in so many rounds.
pub fn run(alloc: Global, seed: u64, rounds: u64) -> Result<Digest> {
    let mut random = Random::new(seed);
    let mut pool = Pool::new(alloc, &mut random)?;
    let mut out = Vec::new(alloc);
    let mut digest = Digest::new();
    for _ in 0..rounds {
        pass(&mut pool, &mut out, &mut random, &mut digest);
    }
    Ok(digest)
}
