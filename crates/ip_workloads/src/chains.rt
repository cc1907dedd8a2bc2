//! Chains of extension headers.
use crate::random::Random;
use std::alloc::{AllocError, Global};

pub const HOP_BY_HOP: u8 = 0;

pub const TCP: u8 = 6;

pub const UDP: u8 = 17;

pub const ROUTING: u8 = 43;

pub const FRAGMENT: u8 = 44;

pub const AUTHENTICATION: u8 = 51;

pub const DESTINATION_OPTIONS: u8 = 60;

/// The numbers of the six places, in order.
const PLACES: [u8; 6] = [
    HOP_BY_HOP,
    DESTINATION_OPTIONS,
    ROUTING,
    FRAGMENT,
    AUTHENTICATION,
    DESTINATION_OPTIONS,
];

/// A chain: its start number, its bytes, and some bytes after it.
#[derive(Drop)]
pub struct Chain {
    pub start: u8,
    pub bytes: Vec<u8>,
    /// The length of the headers in bytes.
    pub len: usize,
}

impl Chain {
    /// Writes other options into the first header, and other bytes after the chain.
    pub fn vary(&mut self, random: &mut Random) {
        let [a, b, c, d, e, f, g, h] = random.bytes();
        put(self.bytes.as_mut_slice(), 4, &[a, b, c, d]);
        put(self.bytes.as_mut_slice(), self.len, &[e, f, g, h]);
    }
}

/// Writes the bytes at an offset, if there is room for them.
#[inline(always)]
pub fn put(bytes: &mut [u8], at: usize, value: &[u8]) {
    if at <= bytes.len() && value.len() <= bytes.len() - at {
        bytes[at..at + value.len()].copy_from_slice(value);
    }
}

/// Returns a number of an upper-layer protocol.
pub fn payload_number(random: &mut Random) -> u8 {
    match random.below(10) {
        0..5 => TCP,
        5..9 => UDP,
        _ => 58,
    }
}

/// Returns the numbers of so many headers, a subset of the six places in order.
pub fn numbers(alloc: Global, count: usize, random: &mut Random) -> Result<Vec<u8>, AllocError> {
    let mut numbers = Vec::new(alloc);
    let mut left = count.min(6);
    for (index, number) in PLACES.iter().enumerate() {
        let places = 6 - index.min(5);
        if left > 0 && random.below(places) < left {
            numbers.push(*number)?;
            left -= 1;
        }
    }
    Ok(numbers)
}

/// Returns random numbers of headers that may follow any header.
pub fn many_numbers(
    alloc: Global,
    count: usize,
    random: &mut Random,
) -> Result<Vec<u8>, AllocError> {
    let mut numbers = Vec::new(alloc);
    for _ in 0..count {
        numbers.push(match random.below(3) {
            0 => ROUTING,
            1 => FRAGMENT,
            _ => DESTINATION_OPTIONS,
        })?;
    }
    Ok(numbers)
}

/// How long headers are.
#[derive(Clone, Copy)]
pub enum Lengths {
    /// 8 to 40 bytes, as in traffic.
    Usual,
    /// The least of each number: 8 bytes, and 12 for an authentication header.
    Least,
    /// Options of 2 KB, and otherwise as in traffic.
    Long,
}

/// Returns the length field of a header of this number.
fn length_field(number: u8, lengths: Lengths, random: &mut Random) -> u8 {
    match (lengths, number) {
        (_, FRAGMENT) => 0,
        (Lengths::Least, AUTHENTICATION) => 1,
        (Lengths::Least, _) => 0,
        (_, AUTHENTICATION) => 4 + (random.below(3) / 2) as u8,
        (Lengths::Long, HOP_BY_HOP | DESTINATION_OPTIONS) => 255,
        (_, ROUTING) => [0, 2, 2, 4][random.below(4)],
        _ => [0, 0, 1, 2][random.below(4)],
    }
}

/// Returns the length in bytes of a header with this length field.
fn header_len(number: u8, field: u8) -> usize {
    match number {
        AUTHENTICATION => 4 * (usize::from(field) + 2),
        FRAGMENT => 8,
        _ => 8 * (usize::from(field) + 1),
    }
}

/// Appends headers of these numbers, linked to one another and to `last`. Fragment headers have offset 0.
pub fn push_chain(
    out: &mut Vec<u8>,
    numbers: &[u8],
    last: u8,
    lengths: Lengths,
    random: &mut Random,
) -> Result<(), AllocError> {
    for (index, number) in numbers.iter().enumerate() {
        let next = match numbers.get(index.saturating_add(1)) {
            Some(next) => *next,
            None => last,
        };
        let field = length_field(*number, lengths, random);
        let [a, b, c, d, e, f, g, h] = random.bytes();
        match *number {
            FRAGMENT => out.extend_from_slice(&[next, 0, 0, a & 1, c, d, e, f])?,
            _ => {
                let len = out.len().saturating_add(header_len(*number, field));
                out.extend_from_slice(&[next, field, a, b, c, d, e, f])?;
                out.resize(len, g ^ h)?;
            }
        }
    }
    Ok(())
}

/// Returns a chain of headers of these numbers, followed by 16 bytes.
pub fn chain_of(
    alloc: Global,
    numbers: &[u8],
    lengths: Lengths,
    random: &mut Random,
) -> Result<Chain, AllocError> {
    let last = payload_number(random);
    let mut bytes = Vec::new(alloc);
    push_chain(&mut bytes, numbers, last, lengths, random)?;
    let len = bytes.len();
    bytes.resize(len.saturating_add(16), 0)?;
    let start = match numbers.first() {
        Some(first) => *first,
        None => last,
    };
    Ok(Chain { start, bytes, len })
}
