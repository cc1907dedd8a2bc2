//! Two laws on how dissections of `ip_dissect` and the strict parse of packets, `IpSlice::from_slice` of `etherparse_ip`,
//! agree. They say nothing about later fragments: the parse continues after their fragment header, and `dissect` stops
//! there. Bytes that don't start with a whole base header have an error in both.
ghost use Rattle.std.specs.Prelude.{◌≡◌, ◌↔◌, Some, None, IsSome, false};
ghost use Rattle.ip_base.specs.Ipv4Header.{ipv4_fragment_offset};
ghost use Rattle.etherparse_ip.specs.Packet.{IsIpv4Packet, IsIpv6Packet};
ghost use Rattle.etherparse_ip.specs.PacketFault.{ip_fault};
ghost use Rattle.ip_dissect.specs.LaterDemand.{has_later};
ghost use Rattle.ip_dissect.specs.End.{base_end};
ghost use Rattle.ip_dissect.specs.Dissection.{dissected};
ghost use Rattle.check_uses.specs.Agreement.{Agree};
ghost use Rattle.ip_dissect.specs.declared.end.End.TheVariants.{Payload};

/// Proves that a packet that `IpSlice::from_slice` parses has the parts of its dissection, unless it is a later
/// fragment.
pub fn parsed_packets_have_these_parts()
    ensures ipv4 { (s p : _) → IsIpv4Packet s p → ipv4_fragment_offset p.base ≡ 0 → Agree s p }
    ensures ipv6 { (s p : _) → IsIpv6Packet s p → has_later p.headers ≡ false → Agree s p }
{}

/// Proves which packets `IpSlice::from_slice` parses: those whose dissection ends at the payload with nothing missing
/// and, for IPv4, a total length that isn't 0. Of later fragments it says nothing, since that parser continues after
/// their fragment header.
pub fn parsed_packets_end_at_their_payload()
    ensures no_packet { (s e : _) → base_end s ≡ Some e → IsSome (ip_fault s) }
    ensures ipv4 { (s : _) → (dissected s).version ≡ 4
        → ipv4_fragment_offset (dissected s).base ≡ 0
        → (ip_fault s ≡ None) ↔ (((dissected s).end ≡ Payload) × ((dissected s).missing ≡ 0)
        × IsSome (dissected s).stated) }
    ensures ipv6 { (s : _) → (dissected s).version ≡ 6
        → has_later (dissected s).headers ≡ false
        → (ip_fault s ≡ None) ↔ (((dissected s).end ≡ Payload) × ((dissected s).missing ≡ 0)) }
{}
