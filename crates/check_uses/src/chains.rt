//! Callers of chains.
ghost use Rattle.std.specs.Prelude.{◌≡◌, ◌==◌, ◌↔◌, List, length, take, true, false, IsTrue, IfOk, IfSome, IfNone};
ghost use Rattle.std.specs.Option.{option_map};
ghost use Rattle.std.specs.List.{find};
ghost use Rattle.ip_spec.specs.Numbers.{FRAGMENT};
ghost use Rattle.ip_spec.specs.Chain.{ExtHeader, IsNext, IsEnd, bytes_of, has_fragmenting, leads_to};
ghost use Rattle.ip_spec.specs.Parse.{rest_after};
ghost use Rattle.ip_spec.specs.Demand.{AtMost, IsLongestUnder};
ghost use Rattle.ip_ext_slices.specs.Longest.{longest_chain};
ghost use Rattle.ip_ext_slices.specs.Ipv6ExtensionSlice.{header_of};
ghost use Rattle.ip_ext_slices.specs.Ipv6ExtensionsSlice.{bytes};

use ip_base::{IpNumber, ip_number};
use ip_ext_chains::{Ipv6ExtensionSlice, Ipv6ExtensionsCursor, Ipv6ExtensionsSlice};
use ip_ext_slices::header_len_at;
use std::alloc::{AllocError, Global};

/// Returns how many extension headers are at the start of the bytes.
pub fn count_headers(start: IpNumber, packet: &[u8]) -> usize
    ensures { result ≡ length (longest_chain start.0 packet.now) }
{
    let (headers, _, _, _) = Ipv6ExtensionsSlice::from_slice_lax(start, packet);
    headers.into_iter().count()
}

/// Returns the payload after the extension headers and its protocol number, unless it is a fragment.
pub fn whole_payload(start: IpNumber, packet: &[u8]) -> Option<(IpNumber, &[u8])>
    ensures number { IfSome result (λ found.
        found.0.0 ≡ leads_to start.0 (longest_chain start.0 packet.now)) }
    ensures payload { IfSome result (λ found. found.1.now ≡ rest_after (longest_chain start.0 packet.now) packet.now) }
    ensures whole { IfSome result (λ _.
        has_fragmenting (longest_chain start.0 packet.now) ≡ false) }
{
    match Ipv6ExtensionsSlice::from_slice(start, packet) {
        Ok((headers, number, payload)) if !headers.is_fragmenting_payload() => {
            Some((number, payload))
        }
        _ => None,
    }
}

/// Returns whether a capture of the first `snap` bytes of a packet keeps all its extension headers: then a parse of
/// these bytes returns the same headers.
pub fn keeps_all_headers(start: IpNumber, packet: &[u8], snap: usize) -> bool
    ensures { IsTrue result
        ↔ (longest_chain start.0 (take snap packet.now) ≡ longest_chain start.0 packet.now) }
{
    let (headers, _, _, _) = Ipv6ExtensionsSlice::from_slice_lax(start, packet);
    headers.slice().len() <= snap
}

/// Returns whether a packet's payload is UDP and not a fragment.
pub fn is_whole_udp(start: IpNumber, packet: &[u8]) -> bool {
    match Ipv6ExtensionsSlice::from_slice(start, packet) {
        Ok((headers, number, _)) => number == ip_number::UDP && !headers.is_fragmenting_payload(),
        Err(_) => false,
    }
}

/// Returns the headers joined, in new memory.
pub fn joined(alloc: Global, headers: Ipv6ExtensionsSlice<'_>) -> Result<Vec<u8>, AllocError>
    ensures { IfOk result (λ copy. copy.items ≡ bytes headers.entry) }
{
    let mut copy = Vec::new(alloc);
    for header in headers {
        copy.extend_from_slice(header.slice())?;
    }
    Ok(copy)
}

/// Returns the length in bytes of the first `k` headers of the chain, or of all if there are fewer.
#[tactic(auto, using(crate::proofs::FirstLemmas::one_consumed))]
pub fn first_headers(k: usize, start: IpNumber, packet: &[u8]) -> usize
    ensures first { result ≡ length (bytes_of (take k (longest_chain start.0 packet.now))) }
    ensures under { (c : List ExtHeader) → IsLongestUnder (AtMost k) start.0 packet.now c
        → result ≡ length (bytes_of c) }
{
    let (headers, _, _, _) = Ipv6ExtensionsSlice::from_slice_lax(start, packet);
    let mut headers = headers.into_iter();
    let mut len = 0;
    'headers: for _ in 0..k {
        let Some(header) = headers.next() else {
            return len;
        };
        len += header.slice().len();
    }
    len
}

/// Returns the first fragment header. What follows it isn't parsed.
pub fn first_fragment(start: IpNumber, packet: &[u8]) -> Option<Ipv6ExtensionSlice<'_>>
    ensures { option_map header_of result
        ≡ find (λ h. h.number == FRAGMENT) (longest_chain start.0 packet.now) }
{
    for header in Ipv6ExtensionsCursor::new(start, packet) {
        if header.number() == ip_number::IPV6_FRAG {
            return Some(header);
        }
    }
    None
}

/// Returns the number of extension headers at the start of the bytes, with the number and the bytes after them, in
/// one pass.
pub fn count_and_payload(start: IpNumber, packet: &[u8]) -> (usize, IpNumber, &[u8])
    ensures count { result.0 ≡ length (longest_chain start.0 packet.now) }
    ensures number { result.1.0 ≡ leads_to start.0 (longest_chain start.0 packet.now) }
    ensures payload { result.2.now ≡ rest_after (longest_chain start.0 packet.now) packet.now }
{
    let mut headers = Ipv6ExtensionsCursor::new(start, packet);
    let mut count: usize = 0;
    'headers: while let Some(_) = headers.next() {
        count += 1;
    }
    match headers.end() {
        Some((number, payload, _)) => (count, number, payload),
        None => unreachable!(),
    }
}

/// Returns the number of extension headers at the start of the bytes, in one pass.
pub fn count_in_one_pass(start: IpNumber, packet: &[u8]) -> usize
    ensures { result ≡ length (longest_chain start.0 packet.now) }
{
    Ipv6ExtensionsCursor::new(start, packet).count()
}

/// Returns the bytes of the header of this number at the start of a packet's extension headers, which no header
/// precedes; `None` if the chain ends there.
pub fn first_header(number: IpNumber, packet: &[u8]) -> Option<&[u8]>
    ensures header { IfSome result (λ h. IsNext true number.0 packet.now
        record { number = number.0; bytes = h.now }) }
    ensures end { IfNone result (IsEnd true number.0 packet.now) }
{
    let len = header_len_at(true, number, packet)?;
    Some(&packet[..len])
}
