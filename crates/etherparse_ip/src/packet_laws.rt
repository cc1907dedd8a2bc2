//! Laws of packets, proved as the contracts of calls.
ghost use Rattle.std.specs.Prelude.{◌≡◌, ℕ, List};
ghost use Rattle.ip_base.specs.Ipv4Header.{version};
ghost use Rattle.etherparse_ip.specs.Packet.{Parts, IsIpv4Packet, IsIpv6Packet};
ghost use Rattle.etherparse_ip.specs.PartsIn.{ipv4_parts_in, ipv6_parts_in};

/// Proves that bytes start with at most one packet, of the version in their first byte, and computes its parts.
#[tactic(auto, using(crate::proofs::OnePacketLemmas::ipv4_version, crate::proofs::OnePacketLemmas::ipv6_version, crate::proofs::OnePacketLemmas::ipv4_parts_are, crate::proofs::OnePacketLemmas::ipv6_parts_are))]
pub fn one_packet()
    ensures version_4 { (s : List ℕ) (p : Parts) → IsIpv4Packet s p → version s ≡ 4 }
    ensures version_6 { (s : List ℕ) (p : Parts) → IsIpv6Packet s p → version s ≡ 6 }
    ensures ipv4 { (s : List ℕ) (p : Parts) → IsIpv4Packet s p → p ≡ ipv4_parts_in s }
    ensures ipv6 { (s : List ℕ) (p : Parts) → IsIpv6Packet s p → p ≡ ipv6_parts_in s }
{}
