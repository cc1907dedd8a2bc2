//! Laws of the fragments of packets that are rewritten, proved as the contract of a call.
ghost use Rattle.std.specs.Prelude.{◌≡◌, ◌≤◌, ◌+◌, ◌++◌, ℕ, List, None, length, drop, false};
ghost use Rattle.ip_spec.specs.Chain.{ExtHeader, bytes_of};
ghost use Rattle.ip_spec.specs.Encoding.{AreBytes, cleared_chain};
ghost use Rattle.ip_spec.specs.Numbers.{FRAGMENT};
ghost use Rattle.ip_dissect.specs.Dissection.{dissected};
ghost use Rattle.ip_defragmenter.specs.Sent.{IsSentIpv6};
ghost use Rattle.ip_defragmenter.specs.Split.{link_after};
ghost use Rattle.ip_rewrite.specs.Clearing.{clearing_fault};
ghost use Rattle.ip_rewrite.specs.Insertion.{inserted, insertion_fault};
ghost use Rattle.ip_rewrite.specs.Rewritten.{rewritten};
ghost use Rattle.ip_rewrite.specs.Selection.{kept};
ghost use Rattle.ip_rewrite.specs.Without.{without, without_fault};
ghost use Rattle.ip_rewrite.specs.declared.which.Authentication.{Authentication};
ghost use Rattle.ip_rewrite.specs.declared.which.Which.{Which};
ghost use Rattle.ip_defragmenter_laws.specs.Ipv6.{IsIpv6Fragment, IsIpv6Part, ipv6_fragment_bytes};
ghost use Rattle.ip_defragmenter_laws.specs.Piece.{piece_from};

/// Proves that a packet that is fragmented after the extension headers `c` can be rewritten before or after that, if all headers
/// that are selected are among `c`: a fragment without them is the same fragment of the packet without them. So with the laws
/// of `ip_defragmenter_laws` the fragments without these headers make the packet without them whole. A header that is no fragment
/// header can be inserted before or after fragmentation, too, if the packet isn't too long for its length field then, and
/// reserved bits can be cleared if none is 1 in the fragmented part.
pub fn fragments_are_rewritten_as_their_packet()
    ensures bytes { (s : List ℕ) (n link id start end : ℕ) (c : List ExtHeader) (w : Which) (a : Authentication) (room : ℕ)
        → IsSentIpv6 s n link → IsIpv6Part s n link id start end c
        → kept w (dissected s).headers ≡ kept w c ++ drop (length c) (dissected s).headers
        → without_fault w a (dissected (ipv6_fragment_bytes s n link id start end)) room ≡ None
        → without w (dissected (ipv6_fragment_bytes s n link id start end))
        ≡ ipv6_fragment_bytes (without w (dissected s)) (40 + length (bytes_of (kept w c))) (link_after 40 (kept w c)) id start end }
    ensures inserted { (s : List ℕ) (n link id start end : ℕ) (c : List ExtHeader) (i : ℕ) (h : ExtHeader) (a : Authentication) (room : ℕ)
        → IsSentIpv6 s n link → IsIpv6Part s n link id start end c
        → let p = dissected s in let q = dissected (ipv6_fragment_bytes s n link id start end) in insertion_fault a i h q room ≡ None
        → rewritten q (inserted i h q.headers) q.number q.payload
        ≡ ipv6_fragment_bytes (rewritten p (inserted i h p.headers) p.number p.payload)
        (40 + length (bytes_of (inserted i h c))) (link_after 40 (inserted i h c)) id start end }
    ensures cleared { (s : List ℕ) (n link id start end : ℕ) (c : List ExtHeader) (a : Authentication) (room : ℕ)
        → IsSentIpv6 s n link → IsIpv6Part s n link id start end c
        → let p = dissected s in let q = dissected (ipv6_fragment_bytes s n link id start end) in
        cleared_chain p.headers ≡ cleared_chain c ++ drop (length c) p.headers → clearing_fault a q room ≡ None
        → rewritten q (cleared_chain q.headers) q.number q.payload
        ≡ ipv6_fragment_bytes (rewritten p (cleared_chain p.headers) p.number p.payload) n link id start end }
    ensures sent { (s : List ℕ) (n link id start end : ℕ) (c : List ExtHeader) (w : Which) (a : Authentication) (room : ℕ)
        → IsSentIpv6 s n link → IsIpv6Part s n link id start end c
        → kept w (dissected s).headers ≡ kept w c ++ drop (length c) (dissected s).headers
        → without_fault w a (dissected (ipv6_fragment_bytes s n link id start end)) room ≡ None
        → IsSentIpv6 (without w (dissected s)) (40 + length (bytes_of (kept w c))) (link_after 40 (kept w c))
        × (drop (40 + length (bytes_of (kept w c))) (without w (dissected s)) ≡ drop n s) }
    ensures fragment { (s : List ℕ) (n link id start end : ℕ) (c : List ExtHeader) (w : Which) (a : Authentication) (room : ℕ)
        → IsSentIpv6 s n link → IsIpv6Part s n link id start end c
        → kept w (dissected s).headers ≡ kept w c ++ drop (length c) (dissected s).headers
        → without_fault w a (dissected (ipv6_fragment_bytes s n link id start end)) room ≡ None
        → IsIpv6Fragment (without w (dissected s)) (40 + length (bytes_of (kept w c))) (link_after 40 (kept w c)) id
        (piece_from (drop n s) start end) (without w (dissected (ipv6_fragment_bytes s n link id start end))) }
    ensures inserted_sent { (s : List ℕ) (n link id start end : ℕ) (c : List ExtHeader) (i : ℕ) (h : ExtHeader) (a : Authentication) (room : ℕ)
        → IsSentIpv6 s n link → IsIpv6Part s n link id start end c → AreBytes h.bytes → (h.number ≡ FRAGMENT → ⊥)
        → length s + length h.bytes ≤ 65575 → let p = dissected s in
        insertion_fault a i h (dissected (ipv6_fragment_bytes s n link id start end)) room ≡ None
        → IsSentIpv6 (rewritten p (inserted i h p.headers) p.number p.payload) (40 + length (bytes_of (inserted i h c))) (link_after 40 (inserted i h c))
        × (drop (40 + length (bytes_of (inserted i h c))) (rewritten p (inserted i h p.headers) p.number p.payload) ≡ drop n s) }
    ensures inserted_fragment { (s : List ℕ) (n link id start end : ℕ) (c : List ExtHeader) (i : ℕ) (h : ExtHeader) (a : Authentication) (room : ℕ)
        → IsSentIpv6 s n link → IsIpv6Part s n link id start end c → AreBytes h.bytes → (h.number ≡ FRAGMENT → ⊥)
        → length s + length h.bytes ≤ 65575 → let p = dissected s in let q = dissected (ipv6_fragment_bytes s n link id start end) in
        insertion_fault a i h q room ≡ None
        → IsIpv6Fragment (rewritten p (inserted i h p.headers) p.number p.payload) (40 + length (bytes_of (inserted i h c))) (link_after 40 (inserted i h c)) id
        (piece_from (drop n s) start end) (rewritten q (inserted i h q.headers) q.number q.payload) }
    ensures cleared_sent { (s : List ℕ) (n link id start end : ℕ) (c : List ExtHeader) (a : Authentication) (room : ℕ)
        → IsSentIpv6 s n link → IsIpv6Part s n link id start end c → let p = dissected s in
        cleared_chain p.headers ≡ cleared_chain c ++ drop (length c) p.headers
        → clearing_fault a (dissected (ipv6_fragment_bytes s n link id start end)) room ≡ None
        → IsSentIpv6 (rewritten p (cleared_chain p.headers) p.number p.payload) n link
        × (drop n (rewritten p (cleared_chain p.headers) p.number p.payload) ≡ drop n s) }
    ensures cleared_fragment { (s : List ℕ) (n link id start end : ℕ) (c : List ExtHeader) (a : Authentication) (room : ℕ)
        → IsSentIpv6 s n link → IsIpv6Part s n link id start end c
        → let p = dissected s in let q = dissected (ipv6_fragment_bytes s n link id start end) in
        cleared_chain p.headers ≡ cleared_chain c ++ drop (length c) p.headers → clearing_fault a q room ≡ None
        → IsIpv6Fragment (rewritten p (cleared_chain p.headers) p.number p.payload) n link id
        (piece_from (drop n s) start end) (rewritten q (cleared_chain q.headers) q.number q.payload) }
{}
