//! Laws of the fragments of a packet, proved as the contract of a call.
ghost use Rattle.std.specs.Prelude.{◌≡◌, ◌≤◌, ◌+◌, ◌++◌, ℕ, List, Ok, Some, length, drop, true, false};
ghost use Rattle.std.specs.List.{list_any};
ghost use Rattle.ip_base.specs.Ipv4Header.{total_len, version};
ghost use Rattle.ip_base.specs.Ipv6Header.{payload_length};
ghost use Rattle.ip_dissect.specs.Dissection.{dissected};
ghost use Rattle.ip_dissect.specs.End.{has_error};
ghost use Rattle.ip_reassembly.specs.Fragment.{Fragment, is_same};
ghost use Rattle.ip_reassembly.specs.Split.{IsSplit};
ghost use Rattle.ip_defragmenter.specs.FragmentOf.{FragmentParts, packet_fragment};
ghost use Rattle.ip_defragmenter.specs.Memory.{own_refusal, piece_of};
ghost use Rattle.ip_defragmenter.specs.Sent.{IsSentIpv4, IsSentIpv6};
ghost use Rattle.ip_defragmenter_laws.specs.Ipv4.{IsIpv4Fragment, IsIpv4Part, ipv4_fragment_bytes, ipv4_key, ipv4_payload};
ghost use Rattle.ip_defragmenter_laws.specs.Ipv6.{IsIpv6Fragment, IsIpv6Part, ipv6_fragment_bytes, ipv6_key};
ghost use Rattle.ip_defragmenter_laws.specs.Piece.{piece_from};
ghost use Rattle.ip_spec.specs.Chain.{ExtHeader};

/// Proves that the bytes that fragmentation makes of a packet are fragments of it, also with padding after them.
pub fn made_fragments_are_fragments()
    ensures ipv4 { (s options padding : List ℕ) (start end : ℕ) → IsSentIpv4 s → IsIpv4Part s options start end
        → (start ≡ 0 → has_error (dissected (ipv4_fragment_bytes s options start end ++ padding)).end ≡ false)
        → IsIpv4Fragment s (piece_from (ipv4_payload s) start end) (ipv4_fragment_bytes s options start end ++ padding) }
    ensures ipv6 { (s padding : List ℕ) (n link id start end : ℕ) (c : List ExtHeader) → IsSentIpv6 s n link
        → IsIpv6Part s n link id start end c
        → (start ≡ 0 → has_error (dissected (ipv6_fragment_bytes s n link id start end ++ padding)).end ≡ false)
        → IsIpv6Fragment s n link id (piece_from (drop n s) start end) (ipv6_fragment_bytes s n link id start end ++ padding) }
{}

/// Proves that a fragment of a packet is read as one: with the packet's key and the piece of its payload, and that it isn't
/// refused by itself.
pub fn fragments_are_read()
    ensures ipv4 { (s : List ℕ) (pieces : List Fragment) (p : Fragment) (f : List ℕ) → IsSentIpv4 s
        → IsSplit (ipv4_payload s) pieces → list_any (is_same p) pieces ≡ true → IsIpv4Fragment s p f
        → (r : FragmentParts) × (packet_fragment (dissected f) ≡ Ok (Some r)) × (r.key ≡ ipv4_key s) × (piece_of r ≡ p)
        × (own_refusal r ≡ None) }
    ensures ipv6 { (s : List ℕ) (n link id : ℕ) (pieces : List Fragment) (p : Fragment) (f : List ℕ) → IsSentIpv6 s n link
        → n ≤ 4096 → IsSplit (drop n s) pieces → list_any (is_same p) pieces ≡ true → IsIpv6Fragment s n link id p f
        → (r : FragmentParts) × (packet_fragment (dissected f) ≡ Ok (Some r)) × (r.key ≡ ipv6_key s id) × (piece_of r ≡ p)
        × (own_refusal r ≡ None) }
{}

/// Proves that a packet that is read as a fragment has all bytes that its length field states.
pub fn read_fragments_are_complete()
    ensures ipv4 { (s : List ℕ) (f : FragmentParts) → version s ≡ 4 → packet_fragment (dissected s) ≡ Ok (Some f)
        → total_len s ≤ length s }
    ensures ipv6 { (s : List ℕ) (f : FragmentParts) → version s ≡ 6 → packet_fragment (dissected s) ≡ Ok (Some f)
        → 40 + payload_length s ≤ length s }
{}
