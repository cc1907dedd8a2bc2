//! Callers of `ip_dissect`.
ghost use Rattle.std.specs.Prelude.{◌≡◌, ℕ, List, length, false, is_some, not, IfSome};
ghost use Rattle.ip_spec.specs.Chain.{is_empty};
ghost use Rattle.etherparse_ip.specs.Packet.{Parts, IsIpv6Packet};
ghost use Rattle.ip_dissect.specs.Dissection.{HasParts, dissected, version_of, base_of};
ghost use Rattle.ip_dissect.specs.LaterDemand.{has_later};
ghost use Rattle.ip_dissect.specs.Summary.{is_plain};
ghost use Rattle.ip_dissect.specs.declared.end.End.TheVariants.{Payload};

use crate::agreement_laws::parsed_packets_have_these_parts;
use etherparse_ip::IpNumber;
use ip_dissect::{Dissection, End, Packet, PacketStart, PacketVisitor, Visited, dissect};

/// Returns the protocol number of the payload, if it starts here: the headers before it are whole, and the packet is
/// not a later fragment.
pub fn upper_layer(packet: &Dissection<'_>) -> Option<IpNumber>
    ensures end { (s : List ℕ) → HasParts (dissected s) packet.now
        → IfSome result (λ _. (dissected s).end ≡ Payload) }
    ensures number { (s : List ℕ) → HasParts (dissected s) packet.now
        → IfSome result (λ n. n.0 ≡ (dissected s).number) }
{
    match packet.end {
        End::Payload => Some(packet.next_header),
        _ => None,
    }
}

/// A visitor that returns the payload's protocol number and its length in bytes, if the packet is plain.
#[derive(Drop)]
struct PlainPayload;

impl<'a> PacketVisitor<'a> for PlainPayload {
    type Plain = (IpNumber, usize);

    type Slow = ();

    ghost plain = { λ old s new x.
        (x.0.0 ≡ (dissected s).number) × (x.1 ≡ length (dissected s).payload) };

    ghost slow = { λ old s new _. new ≡ old };

    fn visit_plain(&mut self, packet: Packet<'a>) -> (IpNumber, usize) {
        (packet.summary.next_header, packet.summary.payload_len)
    }

    fn visit_slow(&mut self, _start: PacketStart<'a>) {}
}

/// Returns the payload's protocol number and its length in bytes, if the packet has no extension headers, is no
/// fragment, and its headers are whole.
pub fn plain_payload(bytes: &[u8]) -> Option<(IpNumber, usize)>
    ensures plain { is_some result ≡ is_plain (dissected bytes.now) }
    ensures number { IfSome result (λ x. x.0.0 ≡ (dissected bytes.now).number) }
    ensures len { IfSome result (λ x. x.1 ≡ length (dissected bytes.now).payload) }
{
    match Packet::visit(bytes, &mut PlainPayload) {
        Visited::Plain(payload) => Some(payload),
        Visited::Slow(()) => None,
    }
}

/// Returns whether an IPv4 packet has an authentication header.
pub fn is_authenticated(packet: &Dissection<'_>) -> bool
    ensures { version_of packet.now ≡ 4 → (s : List ℕ) → HasParts (dissected s) packet.now
        → result ≡ not (is_empty (dissected s).headers) }
{
    packet.ipv4_authentication().is_some()
}

/// Returns whether the packet has extension headers.
pub fn has_headers(packet: &Dissection<'_>) -> bool
    ensures { (s : List ℕ) → HasParts (dissected s) packet.now
        → result ≡ not (is_empty (dissected s).headers) }
{
    packet.header_count > 0
}

/// Dissects the packet at the start of `bytes`. Of an IPv6 packet that `IpSlice::from_slice` parses it has the same parts,
/// unless the packet is a later fragment.
pub fn dissect_parsed(bytes: &[u8]) -> Dissection<'_>
    ensures base { (p : Parts) → IsIpv6Packet bytes.now p → has_later p.headers ≡ false
        → base_of result ≡ p.base }
    ensures headers { (p : Parts) → IsIpv6Packet bytes.now p → has_later p.headers ≡ false
        → result.header_count ≡ length p.headers }
    ensures payload { (p : Parts) → IsIpv6Packet bytes.now p → has_later p.headers ≡ false
        → result.payload.now ≡ p.payload }
    ensures number { (p : Parts) → IsIpv6Packet bytes.now p → has_later p.headers ≡ false
        → result.next_header.0 ≡ p.number }
{
    parsed_packets_have_these_parts();
    dissect(bytes)
}
