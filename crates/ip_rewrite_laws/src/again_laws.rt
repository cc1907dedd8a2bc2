//! The law of packets that are rewritten twice, proved as the contract of a call.
ghost use Rattle.std.specs.Prelude.{◌≡◌, ℕ, List, None, false};
ghost use Rattle.ip_spec.specs.Chain.{ExtHeader};
ghost use Rattle.ip_spec.specs.Encoding.{cleared_chain};
ghost use Rattle.ip_dissect.specs.Dissection.{DissectedParts, dissected};
ghost use Rattle.ip_rewrite.specs.Headers.{linked_headers};
ghost use Rattle.ip_rewrite.specs.Insertion.{inserted};
ghost use Rattle.ip_rewrite.specs.Jumbogram.{is_unstated};
ghost use Rattle.ip_rewrite.specs.Order.{in_order};
ghost use Rattle.ip_rewrite.specs.Rewritten.{rewritten_parts, room_fault};
ghost use Rattle.ip_rewrite.specs.Selection.{kept};
ghost use Rattle.ip_rewrite.specs.Without.{packet_fault};
ghost use Rattle.ip_rewrite.specs.declared.which.Which.{Which};
ghost use Rattle.ip_rewrite_laws.specs.Stating.{StateAlike};

/// Proves that of a packet that is rewritten twice, the first rewriting leaves no trace: it is the packet that is rewritten
/// once, the second way, if the packet in the middle states its length in the same place. After a rewriting that is accepted,
/// a packet that states its length in its length field still does. Changes of such a packet one after another, each of the
/// headers that the one before linked anew, are the changes made at once.
pub fn first_rewriting_leaves_no_trace()
    ensures again { (p : DissectedParts) (c d : List ExtHeader) (m n : ℕ) (q y : List ℕ)
        → let r = rewritten_parts p c m q in StateAlike p r → rewritten_parts r d n y ≡ rewritten_parts p d n y }
    ensures stated { (s : List ℕ) (c : List ExtHeader) (m : ℕ) (q : List ℕ) (room : ℕ)
        → let p = dissected s in packet_fault p ≡ None → is_unstated p ≡ false → room_fault p c q room ≡ None
        → is_unstated (rewritten_parts p c m q) ≡ false }
    ensures linked { (p : DissectedParts) (c d e : List ExtHeader) (m n : ℕ) (q y : List ℕ)
        → let r = rewritten_parts p c m q in is_unstated p ≡ false → is_unstated r ≡ false
        → linked_headers n d ≡ linked_headers n e → rewritten_parts r d n y ≡ rewritten_parts p e n y }
    ensures without { (p : DissectedParts) (c : List ExtHeader) (m n : ℕ) (q y : List ℕ) (w : Which)
        → let r = rewritten_parts p c m q in is_unstated p ≡ false → is_unstated r ≡ false
        → rewritten_parts r (kept w r.headers) n y ≡ rewritten_parts p (kept w c) n y }
    ensures inserted { (p : DissectedParts) (c : List ExtHeader) (m n : ℕ) (q y : List ℕ) (i : ℕ) (h : ExtHeader)
        → let r = rewritten_parts p c m q in is_unstated p ≡ false → is_unstated r ≡ false
        → rewritten_parts r (inserted i h r.headers) n y ≡ rewritten_parts p (inserted i h c) n y }
    ensures cleared { (p : DissectedParts) (c : List ExtHeader) (m n : ℕ) (q y : List ℕ)
        → let r = rewritten_parts p c m q in is_unstated p ≡ false → is_unstated r ≡ false
        → rewritten_parts r (cleared_chain r.headers) n y ≡ rewritten_parts p (cleared_chain c) n y }
    ensures ordered { (p : DissectedParts) (c : List ExtHeader) (m n : ℕ) (q y : List ℕ)
        → let r = rewritten_parts p c m q in is_unstated p ≡ false → is_unstated r ≡ false
        → rewritten_parts r (in_order r.headers) n y ≡ rewritten_parts p (in_order c) n y }
    ensures payload { (p : DissectedParts) (c : List ExtHeader) (m n : ℕ) (q y : List ℕ)
        → let r = rewritten_parts p c m q in is_unstated p ≡ false → is_unstated r ≡ false
        → rewritten_parts r r.headers n y ≡ rewritten_parts p c n y }
{}
