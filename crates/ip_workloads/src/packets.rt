//! Packets of either IP version.
use crate::chains::{AUTHENTICATION, Lengths, UDP, numbers, payload_number, push_chain, put};
use crate::random::{Random, Weyl};
use std::alloc::{AllocError, Global};

/// A packet as it was captured.
#[derive(Drop)]
pub struct Packet {
    pub bytes: Vec<u8>,
    /// How many of its bytes were captured.
    captured: usize,
    /// The length of the base header.
    pub base_len: usize,
    /// The length of the extension headers.
    pub chain_len: usize,
    /// Where eight bytes of the addresses lie, what they are, and which of their bits vary.
    at: usize,
    addresses: u64,
    varying: u64,
    /// Which bits of the number of bytes vary that the snap length cuts off.
    cut: usize,
}

impl Packet {
    /// Returns a packet with these bytes. One in sixteen is cut by the snap length, after its headers.
    fn new(bytes: Vec<u8>, base_len: usize, chain_len: usize, random: &mut Random) -> Packet {
        let [a, b, c, d, e, f, g, h] = random.bytes();
        let (at, addresses, varying) = if base_len == 40 {
            (16, [a, b, c, d, e, f, g, h], 0xffff_ffff_ffff_ffff)
        } else {
            let source = if a < 128 { 10 } else { c };
            let destination = if b < 64 { 192 } else { d };
            (
                12,
                [source, e, 0, 0, destination, 168, 0, 0],
                0xffff_0000_ffff_0000,
            )
        };
        let payload_len = bytes
            .len()
            .saturating_sub(base_len.saturating_add(chain_len));
        let cut = if random.below(16) == 0 && payload_len > 127 {
            127
        } else {
            0
        };
        Packet {
            captured: bytes.len(),
            bytes,
            base_len,
            chain_len,
            at,
            addresses: u64::from_le_bytes(addresses),
            varying,
            cut,
        }
    }

    /// Returns the captured bytes.
    #[inline(always)]
    pub fn bytes(&self) -> &[u8] {
        let bytes = self.bytes.as_slice();
        &bytes[..self.captured.min(bytes.len())]
    }

    /// Returns the number after an IPv6 base header, and the captured bytes after it.
    #[inline(always)]
    pub fn after_base(&self) -> (u8, &[u8]) {
        let bytes = self.bytes();
        if bytes.len() < 40 {
            return (UDP, &[]);
        }
        (bytes[6], &bytes[40..])
    }

    /// Writes other addresses, and moves the snap length.
    #[inline(always)]
    pub fn vary(&mut self, weyl: &mut Weyl) {
        let value = weyl.next();
        let addresses = self.addresses ^ (value & self.varying);
        put(self.bytes.as_mut_slice(), self.at, &addresses.to_le_bytes());
        self.captured = self
            .bytes
            .len()
            .saturating_sub((value >> 57) as usize & self.cut);
    }

    /// Truncates the packet to so many bytes.
    pub fn truncate(&mut self, len: usize) {
        self.captured = len.min(self.bytes.len());
    }
}

/// Returns the length of a payload: many are short, some fill the packet.
fn payload_len(random: &mut Random) -> usize {
    match random.below(100) {
        0..55 => 20 + random.below(80),
        55..80 => 400 + random.below(200),
        _ => 1200 + random.below(200),
    }
}

/// Returns flags and fragment offset of an IPv4 packet, of which two in a hundred are fragments.
fn fragment_field(random: &mut Random) -> [u8; 2] {
    match random.below(200) {
        0 => [0x20, 0],
        1..3 => [0x20, 185],
        3 => [0x01, 114],
        _ => [0x40, 0],
    }
}

/// Returns the two bytes of a length field.
fn length_bytes(len: usize) -> [u8; 2] {
    let len = (len.min(65535)) as u16;
    len.to_be_bytes()
}

/// Makes an IPv4 packet, with or without an authentication header.
pub fn ipv4(
    alloc: Global,
    is_authenticated: bool,
    random: &mut Random,
) -> Result<Packet, AllocError> {
    let mut chain = Vec::new(alloc);
    let mut number = payload_number(random);
    if is_authenticated {
        push_chain(
            &mut chain,
            &[AUTHENTICATION],
            number,
            Lengths::Usual,
            random,
        )?;
        number = AUTHENTICATION;
    }
    let total_len = chain
        .len()
        .saturating_add(20)
        .saturating_add(payload_len(random));
    let [high, low] = length_bytes(total_len);
    let [flags, offset] = fragment_field(random);
    let mut bytes = Vec::new(alloc);
    bytes.extend_from_slice(&[0x45, 0, high, low, 0, 0, flags, offset, 64, number, 0, 0])?;
    bytes.resize(20, 0)?;
    bytes.extend_from_slice(chain.as_slice())?;
    bytes.resize(total_len, 0)?;
    Ok(Packet::new(bytes, 20, chain.len(), random))
}

/// Makes an IPv6 packet with extension headers of these numbers.
pub fn ipv6(
    alloc: Global,
    numbers: &[u8],
    lengths: Lengths,
    random: &mut Random,
) -> Result<Packet, AllocError> {
    let payload = payload_number(random);
    let mut chain = Vec::new(alloc);
    push_chain(&mut chain, numbers, payload, lengths, random)?;
    let len = chain.len().saturating_add(payload_len(random));
    let [high, low] = length_bytes(len);
    let first = match numbers.first() {
        Some(first) => *first,
        None => payload,
    };
    let mut bytes = Vec::new(alloc);
    bytes.extend_from_slice(&[0x60, 0, 0, 0, high, low, first, 64])?;
    let prefix = if random.percent(50) {
        [0x20, 0x01, 0x0d, 0xb8]
    } else {
        [0xfe, 0x80, 0, 0]
    };
    bytes.extend_from_slice(&prefix)?;
    bytes.resize(24, 0)?;
    bytes.extend_from_slice(&[0x20, 0x01, 0x0d, 0xb8])?;
    bytes.resize(40, 1)?;
    bytes.extend_from_slice(chain.as_slice())?;
    let total_len = len.saturating_add(40);
    bytes.resize(total_len, 0)?;
    Ok(Packet::new(bytes, 40, chain.len(), random))
}

/// Makes packets like those of a capture: both versions, 97 in 100 without extension headers.
pub fn mixed(alloc: Global, count: usize, random: &mut Random) -> Result<Vec<Packet>, AllocError> {
    let mut packets = Vec::new(alloc);
    for _ in 0..count {
        let has_headers = random.percent(3);
        let packet = if random.percent(50) {
            ipv4(alloc, has_headers, random)?
        } else {
            let count = if has_headers { 1 + random.below(4) } else { 0 };
            let numbers = numbers(alloc, count, random)?;
            ipv6(alloc, numbers.as_slice(), Lengths::Usual, random)?
        };
        packets.push(packet)?;
    }
    Ok(packets)
}

/// Makes IPv6 packets with 1 to 4 extension headers.
pub fn with_headers(
    alloc: Global,
    count: usize,
    random: &mut Random,
) -> Result<Vec<Packet>, AllocError> {
    let mut packets = Vec::new(alloc);
    for _ in 0..count {
        let numbers = numbers(alloc, 1 + random.below(4), random)?;
        packets.push(ipv6(alloc, numbers.as_slice(), Lengths::Usual, random)?)?;
    }
    Ok(packets)
}
