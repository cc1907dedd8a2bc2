//! Laws of packets that are sent in fragments, proved as the contract of a call.
ghost use Rattle.std.specs.Prelude.{◌≡◌, ◌≤◌, ℕ, List, drop, slice_index, Some, true};
ghost use Rattle.ip_base.specs.Ipv4Header.{ipv4_header_len};
ghost use Rattle.ip_defragmenter.specs.Whole.{are_headers, whole_packet};
ghost use Rattle.ip_defragmenter.specs.Ecn.{is_congested, marked, point_of, whole_point};
ghost use Rattle.ip_defragmenter.specs.Sent.{IsSentIpv4, IsSentIpv6, ipv4_first, ipv6_first};

/// Proves that the packet made whole is the packet that was sent, byte by byte, if the headers of the first fragment are
/// those of the packet with what fragmentation changes in them (RFC 791, section 3.2; RFC 8200, section 4.5).
pub fn whole_packet_is_the_one_sent()
    ensures ipv4 { (s : List ℕ) (t x link number : ℕ) → IsSentIpv4 s
        → whole_packet (ipv4_first s t x) link number (drop (ipv4_header_len s) s) ≡ s }
    ensures ipv6 { (s : List ℕ) (n link t : ℕ) → IsSentIpv6 s n link
        → whole_packet (ipv6_first s n link t) link (slice_index s link) (drop n s) ≡ s }
{}

/// Proves that a whole packet has the ECN code point that its fragments' code points give, with the headers of the first one
/// (RFC 3168, section 5.3).
pub fn whole_packets_have_their_code_point()
    ensures { (headers payload points : List ℕ) (link number point : ℕ) → are_headers headers link ≡ true → 6 ≤ link
        → whole_point (point_of headers) points ≡ Some point
        → point_of (whole_packet (marked (is_congested points) headers) link number payload) ≡ point }
{}
