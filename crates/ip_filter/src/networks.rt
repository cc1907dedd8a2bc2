//! Networks, as a filter's text writes them.
ghost use Rattle.std.specs.Prelude.{◌≡◌, ◌≤◌, ℕ, take, drop, IfSome, IfNone};
ghost use Rattle.ip_filter.specs.declared.network.Network.{Network as TheNetwork};
ghost use Rattle.ip_filter.specs.declared.network.Network.TheVariants as is;
ghost use Rattle.std.specs.Option.{option_and_then};
ghost use Rattle.ip_filter.specs.Numbers.{number_up_to, prefix_bits, ipv4_front, dot_index, third_number, front_of, front_bits, front_network, mask_of, IsNetworkText, IsNetworkOrFront, IsFrontText, IsMaskText, IsHostText};

use crate::Network;
use crate::numbers::{index_of, parse_byte, parse_number};
use std::net::{Ipv4Addr, Ipv6Addr};

/// Returns the network that the word writes: an address, and a slash and a number of bits or nothing.
pub(crate) fn parse_network(word: &[u8]) -> Option<Network>
    ensures some { IfSome result (IsNetworkText word.now) }
    ensures none { IfNone result ((n : TheNetwork) → IsNetworkText word.now n → ⊥) }
{
    let slash = index_of(word, b'/');
    let (address, after) = (&word[..slash], &word[slash..]);
    if let Ok(address) = Ipv4Addr::parse_ascii(address) {
        return match parse_prefix_len(after, 32) {
            Some(len) => Some(Network::Ipv4 {
                address: address.to_bits(),
                len,
            }),
            None => None,
        };
    }
    let Ok(address) = Ipv6Addr::parse_ascii(address) else {
        return None;
    };
    match parse_prefix_len(after, 128) {
        Some(len) => Some(Network::Ipv6 {
            address: address.to_bits(),
            len,
        }),
        None => None,
    }
}

/// Returns the network that the word writes, or else that of the addresses that begin with its numbers, as those of 192.168.
pub(crate) fn parse_network_or_front(word: &[u8]) -> Option<Network>
    ensures some { IfSome result (IsNetworkOrFront word.now) }
    ensures none { IfNone result ((n : TheNetwork) → IsNetworkOrFront word.now n → ⊥) }
{
    match parse_network(word) {
        Some(network) => Some(network),
        None => parse_front_network(word),
    }
}

/// Returns the network of the addresses that begin with the numbers of the word, before a slash and a number of bits or nothing.
fn parse_front_network(word: &[u8]) -> Option<Network>
    ensures { result ≡ front_network word.now }
{
    let slash = index_of(word, b'/');
    let (address, bits) = parse_front(&word[..slash])?;
    let len = parse_front_bits(bits, &word[slash..])?;
    Some(Network::Ipv4 { address, len })
}

/// Returns the number of bits that the bytes after the front of an address state: its `bits` if there are none.
fn parse_front_bits(bits: u8, after: &[u8]) -> Option<u8>
    ensures { result ≡ front_bits bits after.now }
{
    match after {
        [] => Some(bits),
        [_, digits @ ..] => match parse_number(digits, 32) {
            Some(len) => Some(len as u8),
            None => None,
        },
    }
}

/// Returns the front of an address that the word writes, and how many bits it has.
fn parse_front(word: &[u8]) -> Option<(u32, u8)>
    ensures { result ≡ front_of word.now }
{
    let dot = index_of(word, b'.');
    let first = parse_byte(&word[..dot])?;
    match &word[dot..] {
        [] => Some((ipv4_front(first, 0, 0), 8)),
        [_, rest @ ..] => parse_second_number(first, rest),
    }
}

/// Returns the front of an address after its first number and a dot.
fn parse_second_number(first: u8, word: &[u8]) -> Option<(u32, u8)>
    ensures { result ≡ option_and_then (λ b. third_number first b (drop (dot_index word.now) word.now))
        (number_up_to 255 (take (dot_index word.now) word.now)) }
{
    let dot = index_of(word, b'.');
    let second = parse_byte(&word[..dot])?;
    match &word[dot..] {
        [] => Some((ipv4_front(first, second, 0), 16)),
        [_, rest @ ..] => match parse_byte(rest) {
            Some(third) => Some((ipv4_front(first, second, third), 24)),
            None => None,
        },
    }
}

/// Returns the address that begins with these numbers and ends with zeros.
fn ipv4_front(first: u8, second: u8, third: u8) -> u32
    ensures { result ≡ ipv4_front first second third }
{
    u32::from(first) * 16_777_216 + u32::from(second) * 65_536 + u32::from(third) * 256
}

/// Returns the IPv4 address that the text writes or begins, as that of 192.168. It has no slash.
pub(crate) fn parse_front_address(text: &[u8]) -> Option<u32>
    ensures some { IfSome result (IsFrontText text.now) }
    ensures none { IfNone result ((a : ℕ) → IsFrontText text.now a → ⊥) }
{
    if index_of(text, b'/') < text.len() {
        return None;
    }
    match parse_network_or_front(text) {
        Some(network) => match ipv4_address(network) {
            Some(address) => Some(address),
            None => None,
        },
        None => None,
    }
}

/// Returns the address of a network of IPv4 addresses.
fn ipv4_address(network: Network) -> Option<u32>
    ensures some { IfSome result (λ a. (len : ℕ) × (network ≡ is.Ipv4 a len)) }
    ensures none { IfNone result ((a len : ℕ) → network ≡ is.Ipv4 a len → ⊥) }
{
    match network {
        Network::Ipv4 { address, .. } => Some(address),
        Network::Ipv6 { .. } => None,
    }
}

/// Returns how many ones the mask has that the word writes as an address, if no zero precedes a one.
pub(crate) fn parse_mask(word: &[u8]) -> Option<u8>
    ensures some { IfSome result (IsMaskText word.now) }
    ensures none { IfNone result ((len : ℕ) → IsMaskText word.now len → ⊥) }
{
    match parse_front_address(word) {
        Some(mask) => match mask_len(mask) {
            Some(len) => Some(len),
            None => None,
        },
        None => None,
    }
}

/// Returns how many ones the mask has, if no zero precedes a one.
fn mask_len(mask: u32) -> Option<u8>
    ensures some { IfSome result (λ len. (len ≤ 32) × (mask ≡ mask_of len)) }
    ensures none { IfNone result ((len : ℕ) → len ≤ 32 → mask ≡ mask_of len → ⊥) }
{
    'lengths: for len in 0..33 {
        if mask == mask_of(len) {
            return Some(len);
        }
    }
    None
}

/// Returns the mask of `len` ones.
fn mask_of(len: u8) -> u32
    requires { len ≤ 32 }
    ensures { result ≡ mask_of len }
{
    ((1u64 << 32) - (1u64 << (32 - len))) as u32
}

/// Returns the network of the address that the word writes, which has no slash.
pub(crate) fn parse_host(word: &[u8]) -> Option<Network>
    ensures some { IfSome result (IsHostText word.now) }
    ensures none { IfNone result ((n : TheNetwork) → IsHostText word.now n → ⊥) }
{
    if index_of(word, b'/') < word.len() {
        return None;
    }
    parse_network(word)
}

/// Returns the number of bits that the bytes after an address state: all `bits` if there are none.
fn parse_prefix_len(after: &[u8], bits: u8) -> Option<u8>
    ensures { result ≡ prefix_bits bits after.now }
{
    match after {
        [] => Some(bits),
        [_, digits @ ..] => match parse_number(digits, u64::from(bits)) {
            Some(len) => Some(len as u8),
            None => None,
        },
    }
}
