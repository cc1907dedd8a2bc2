//! Numbers, names and ports, as a filter's text writes them.
ghost use Rattle.std.specs.Prelude.{◌≡◌, ◌≤◌, ◌-◌, ◌^◌, length, true};
ghost use Rattle.ip_filter.specs.Numbers.{numeral, limited, number_up_to, version_named, header_called, header_numbered, header_named, upper_layer_of, protocol_of, ports_of, comparison_of, fault_kind_of, index_of};

use crate::{Comparison, FaultKind, Ports};
use ip_base::{IpNumber, ip_number};

/// Returns the number that the digits write, or `None` if they aren't digits or it doesn't fit 64 bits.
#[tactic(auto, using(crate::proofs::NumberLemmas::all_digits, crate::proofs::NumberLemmas::overflow_mul, crate::proofs::NumberLemmas::overflow_add))]
fn parse_digits(digits: &[u8], radix: u32) -> Option<u64>
    requires low { 2 ≤ radix }
    requires high { radix ≤ 16 }
    ensures { result ≡ limited (2 ^ 64 - 1) (numeral radix digits.now) }
{
    if digits.is_empty() {
        return None;
    }
    let mut number = 0u64;
    'digits: for byte in digits {
        let digit = char::from(*byte).to_digit(radix)?;
        number = number
            .checked_mul(u64::from(radix))?
            .checked_add(u64::from(digit))?;
    }
    Some(number)
}

/// Returns the number that the word writes, if it is at most `most`.
pub(crate) fn parse_number(word: &[u8], most: u64) -> Option<u64>
    ensures { result ≡ number_up_to most word.now }
{
    let number = match word {
        [b'0', b'x', digits @ ..] => parse_digits(digits, 16)?,
        [b'0', _, ..] => return None,
        _ => parse_digits(word, 10)?,
    };
    if number <= most { Some(number) } else { None }
}

/// Returns the IP version that the word writes.
pub(crate) fn parse_version(word: &[u8]) -> Option<u8>
    ensures { result ≡ version_named word.now }
{
    if word == b"4".as_slice() {
        return Some(4);
    }
    if word == b"6".as_slice() {
        return Some(6);
    }
    None
}

/// Returns the number of the extension header that the word names or whose number it writes.
pub(crate) fn parse_header(word: &[u8]) -> Option<u8>
    ensures { result ≡ header_named word.now }
{
    match parse_header_name(word) {
        Some(number) => Some(number),
        None => header_numbered(parse_byte(word)?),
    }
}

/// Returns the number, if an extension header of a packet can have it.
pub(crate) fn header_numbered(number: u8) -> Option<u8>
    ensures { result ≡ header_numbered number }
{
    match IpNumber(number) {
        ip_number::IPV6_HOP_BY_HOP
        | ip_number::IPV6_ROUTE
        | ip_number::IPV6_FRAG
        | ip_number::AUTH
        | ip_number::IPV6_DEST_OPTIONS => Some(number),
        _ => None,
    }
}

/// Returns the number of the extension header that the word names.
fn parse_header_name(word: &[u8]) -> Option<u8>
    ensures { result ≡ header_called word.now }
{
    if word == b"hop-by-hop".as_slice() || word == b"hopopt".as_slice() {
        return Some(0);
    }
    if word == b"routing".as_slice() || word == b"route".as_slice() {
        return Some(43);
    }
    if word == b"fragment".as_slice() || word == b"frag".as_slice() {
        return Some(44);
    }
    if word == b"authentication".as_slice() || word == b"ah".as_slice() {
        return Some(51);
    }
    if word == b"destination-options".as_slice() || word == b"dstopts".as_slice() {
        return Some(60);
    }
    None
}

/// Returns the number that the word writes, if it is at most 255.
pub(crate) fn parse_byte(word: &[u8]) -> Option<u8>
    ensures { result ≡ number_up_to 255 word.now }
{
    match parse_number(word, 255) {
        Some(number) => Some(number as u8),
        None => None,
    }
}

/// Returns the number of the upper-layer protocol that the word names, or that of no next header.
pub(crate) fn parse_upper_layer(word: &[u8]) -> Option<u8>
    ensures { result ≡ upper_layer_of word.now }
{
    if word == b"icmp".as_slice() {
        return Some(1);
    }
    if word == b"tcp".as_slice() {
        return Some(6);
    }
    if word == b"udp".as_slice() {
        return Some(17);
    }
    if word == b"dccp".as_slice() {
        return Some(33);
    }
    if word == b"gre".as_slice() {
        return Some(47);
    }
    if word == b"esp".as_slice() {
        return Some(50);
    }
    if word == b"icmp6".as_slice() {
        return Some(58);
    }
    if word == b"no-next".as_slice() {
        return Some(59);
    }
    if word == b"sctp".as_slice() {
        return Some(132);
    }
    if word == b"udp-lite".as_slice() {
        return Some(136);
    }
    None
}

/// Returns the number of the protocol or extension header that the word names.
pub(crate) fn parse_protocol(word: &[u8]) -> Option<u8>
    ensures { result ≡ protocol_of word.now }
{
    if let Some(number) = parse_upper_layer(word) {
        return Some(number);
    }
    match parse_header_name(word) {
        Some(number) => Some(number),
        None => parse_byte(word),
    }
}

/// Returns the ports that the word writes: one, or a range with a hyphen between the lowest and the highest.
pub(crate) fn parse_ports(word: &[u8]) -> Option<Ports>
    ensures { result ≡ ports_of word.now }
{
    let hyphen = index_of(word, b'-');
    let first = parse_port(&word[..hyphen])?;
    let last = match &word[hyphen..] {
        [] => first,
        [_, last @ ..] => parse_port(last)?,
    };
    if first <= last {
        Some(Ports { first, last })
    } else {
        None
    }
}

/// Returns the port that the word writes.
fn parse_port(word: &[u8]) -> Option<u16>
    ensures { result ≡ number_up_to 65535 word.now }
{
    match parse_number(word, 65535) {
        Some(port) => Some(port as u16),
        None => None,
    }
}

/// Returns the number that the word writes, if it fits 32 bits.
pub(crate) fn parse_long(word: &[u8]) -> Option<u32>
    ensures { result ≡ number_up_to 4294967295 word.now }
{
    match parse_number(word, 4_294_967_295) {
        Some(number) => Some(number as u32),
        None => None,
    }
}

/// Returns the index of the first such byte, or the length of the word.
#[tactic(auto, using(crate::proofs::IndexLemmas::byte_later, crate::proofs::IndexLemmas::byte_here, crate::proofs::IndexLemmas::no_byte))]
pub(crate) fn index_of(word: &[u8], byte: u8) -> usize
    ensures index { result ≡ index_of byte word.now }
    ensures within { result ≤ length word.now }
{
    'bytes: for i in 0..word.len() {
        if word[i] == byte {
            return i;
        }
    }
    word.len()
}

/// Returns the comparison that the word writes.
pub(crate) fn parse_comparison(word: &[u8]) -> Option<Comparison>
    ensures { result ≡ comparison_of word.now }
{
    match word {
        b"=" | b"==" => Some(Comparison::Equal),
        b"!=" => Some(Comparison::NotEqual),
        b"<" => Some(Comparison::Less),
        b"<=" => Some(Comparison::AtMost),
        b">" => Some(Comparison::Greater),
        b">=" => Some(Comparison::AtLeast),
        _ => None,
    }
}

/// Returns the kind of fault that the word names.
pub(crate) fn parse_fault_kind(word: &[u8]) -> Option<FaultKind>
    ensures { result ≡ fault_kind_of word.now }
{
    if word == b"too-short".as_slice() {
        return Some(FaultKind::TooShort);
    }
    if word == b"not-at-start".as_slice() {
        return Some(FaultKind::HopByHopNotAtStart);
    }
    if word == b"zero-length".as_slice() {
        return Some(FaultKind::ZeroPayloadLen);
    }
    if word == b"unsupported-version".as_slice() {
        return Some(FaultKind::UnsupportedIpVersion);
    }
    if word == b"header-length".as_slice() {
        return Some(FaultKind::Ipv4HeaderLength);
    }
    None
}
