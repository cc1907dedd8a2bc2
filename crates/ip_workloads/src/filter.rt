//! A filter picks packets out of a capture.
use crate::digest::Digest;
use crate::packets::{Packet, mixed};
use crate::random::{Random, Weyl};
use anyhow::{Result, bail};
use ip_filter::Filter;
use std::alloc::Global;

/// The packets of the pool.
const PACKETS: usize = 4096;

/// Formulas of 1, 3 and 10 terms.
const TEXTS: [&str; 3] = [
    "header 44",
    "net 10.0.0.0/8 and not (fragment or fault)",
    "(src 10.0.0.0/8 or dst 192.168.0.0/16 or net 2001:db8::/32 or net fe80::/10) \
     and not (header 43 or spi 256) and (headers <= 2 or payload > 1000) \
     and not (fault or later-fragment)",
];

/// Parses a filter of the program's own.
pub fn parsed(text: &str) -> Result<Filter> {
    match Filter::parse(text.as_bytes()) {
        Ok(filter) => Ok(filter),
        Err(_) => bail!("not a filter: {text}"),
    }
}

/// Adds which of the three filters match each packet.
#[inline(never)]
fn pass(
    packets: &mut [Packet],
    one: &Filter,
    three: &Filter,
    ten: &Filter,
    weyl: &mut Weyl,
    digest: &mut Digest,
) {
    for packet in packets {
        packet.vary(weyl);
        let bytes = packet.bytes();
        let first = u64::from(one.matches(bytes));
        let second = u64::from(three.matches(bytes));
        let third = u64::from(ten.matches(bytes));
        digest.add(first | second << 1 | third << 2);
    }
}

/// Filters the packets of the pool in so many rounds.
pub fn run(alloc: Global, seed: u64, rounds: u64) -> Result<Digest> {
    let mut random = Random::new(seed);
    let mut packets = mixed(alloc, PACKETS, &mut random)?;
    let one = parsed(TEXTS[0])?;
    let three = parsed(TEXTS[1])?;
    let ten = parsed(TEXTS[2])?;
    let mut weyl = Weyl::new(seed);
    let mut digest = Digest::new();
    for _ in 0..rounds {
        pass(
            packets.as_mut_slice(),
            &one,
            &three,
            &ten,
            &mut weyl,
            &mut digest,
        );
    }
    Ok(digest)
}
