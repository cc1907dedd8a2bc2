//! Lines with requests are answered.
use crate::chains::{AUTHENTICATION, Chain, Lengths, chain_of, many_numbers, numbers, put};
use crate::digest::Digest;
use crate::packets::{Packet, ipv4, ipv6};
use crate::random::Random;
use anyhow::Result;
use ipexts_tool::run as answer;
use std::alloc::{AllocError, Global};

/// The lines of the pool.
const LINES: usize = 1024;

/// One in so many lines is long.
const LONG: usize = 256;

/// The most bytes of a packet that a line has.
const PACKET_LEN: usize = 120;

const DIGITS: &[u8; 16] = b"0123456789abcdef";

/// Lines, and where other digits may stand in each.
#[derive(Drop)]
pub struct Lines {
    pub text: Vec<u8>,
    digits: Vec<usize>,
}

/// Returns the two digits of a byte.
fn digits_of(byte: u8) -> [u8; 2] {
    [
        DIGITS[usize::from(byte >> 4)],
        DIGITS[usize::from(byte & 15)],
    ]
}

impl Lines {
    pub fn new(alloc: Global) -> Lines {
        Lines {
            text: Vec::new(alloc),
            digits: Vec::new(alloc),
        }
    }

    /// Adds a line of this form, whose byte at `free` may have any value, like the next three.
    fn push(&mut self, form: &str, bytes: &[u8], free: usize) -> Result<(), AllocError> {
        self.text.extend_from_slice(form.as_bytes())?;
        self.digits
            .push(self.text.len().saturating_add(free.saturating_mul(2)))?;
        for byte in bytes {
            self.text.extend_from_slice(&digits_of(*byte))?;
        }
        self.text.extend_from_slice(b"\n")
    }

    /// Adds a line with a chain.
    pub fn push_chain(
        &mut self,
        alloc: Global,
        form: &str,
        chain: &Chain,
    ) -> Result<(), AllocError> {
        let number = chain.start;
        let form = format!(in alloc; "{form} {number} ")?;
        self.push(form.as_str(), chain.bytes.as_slice(), 4)
    }

    /// Adds a line with the first bytes of a packet.
    fn push_packet(&mut self, form: &str, packet: &Packet) -> Result<(), AllocError> {
        let bytes = packet.bytes();
        let free = if packet.base_len == 40 { 12 } else { 16 };
        self.push(form, &bytes[..PACKET_LEN.min(bytes.len())], free)
    }

    /// Writes other digits into each line.
    pub fn vary(&mut self, random: &mut Random) {
        for at in self.digits.iter() {
            let [a, b, c, d, ..] = random.bytes();
            let text = self.text.as_mut_slice();
            put(text, *at, &digits_of(a));
            put(text, at.saturating_add(2), &digits_of(b));
            put(text, at.saturating_add(4), &digits_of(c));
            put(text, at.saturating_add(6), &digits_of(d));
        }
    }
}

/// Adds a line with a chain of 1 to 4 headers, in one of four forms.
fn push_short(
    lines: &mut Lines,
    alloc: Global,
    form: usize,
    random: &mut Random,
) -> Result<(), AllocError> {
    let numbers = numbers(alloc, 1 + random.below(4), random)?;
    let chain = chain_of(alloc, numbers.as_slice(), Lengths::Usual, random)?;
    match form {
        0 => lines.push_chain(alloc, "exts6", &chain),
        1 => lines.push_chain(alloc, "rewrite6", &chain),
        2 => lines.push_chain(alloc, "rewriteall6", &chain),
        _ => {
            let chain = chain_of(alloc, &[AUTHENTICATION], Lengths::Usual, random)?;
            lines.push_chain(alloc, "exts4", &chain)
        }
    }
}

/// Adds a line with a packet, in one of two forms.
fn push_packet(
    lines: &mut Lines,
    alloc: Global,
    form: usize,
    random: &mut Random,
) -> Result<(), AllocError> {
    let packet = if random.percent(50) {
        ipv4(alloc, random.percent(10), random)?
    } else {
        let numbers = numbers(alloc, random.below(3), random)?;
        ipv6(alloc, numbers.as_slice(), Lengths::Usual, random)?
    };
    match form {
        4 => lines.push_packet("packet ", &packet),
        _ => lines.push_packet("dissect ", &packet),
    }
}

/// Adds a line of some 5 KB.
fn push_long(lines: &mut Lines, alloc: Global, random: &mut Random) -> Result<(), AllocError> {
    let numbers = many_numbers(alloc, 180, random)?;
    let chain = chain_of(alloc, numbers.as_slice(), Lengths::Usual, random)?;
    lines.push_chain(alloc, "exts6", &chain)
}

/// Makes the lines of the pool.
fn pool(alloc: Global, random: &mut Random) -> Result<Lines, AllocError> {
    let mut lines = Lines::new(alloc);
    for index in 0..LINES {
        match index % 6 {
            _ if index % LONG == 0 => push_long(&mut lines, alloc, random)?,
            form if form < 4 => push_short(&mut lines, alloc, form, random)?,
            form => push_packet(&mut lines, alloc, form, random)?,
        }
    }
    Ok(lines)
}

/// Answers the lines, and adds the answers.
pub fn add_answers(alloc: Global, lines: &Lines, out: &mut Vec<u8>, digest: &mut Digest) {
    out.clear();
    let mut input = lines.text.as_slice();
    digest.add_bool(answer(alloc, &mut input, out).is_ok());
    digest.add_bytes(out.as_slice());
}

/// Answers the lines of the pool in so many rounds.
pub fn run(alloc: Global, seed: u64, rounds: u64) -> Result<Digest> {
    let mut random = Random::new(seed);
    let mut lines = pool(alloc, &mut random)?;
    let mut out = Vec::new(alloc);
    let mut digest = Digest::new();
    for _ in 0..rounds {
        lines.vary(&mut random);
        add_answers(alloc, &lines, &mut out, &mut digest);
    }
    Ok(digest)
}
