//! Laws of filters, proved as the contracts of calls.
ghost use Rattle.std.specs.Prelude.{◌≡◌, ◌≤◌, ℕ, List, Some, length, take, true};
ghost use Rattle.ip_base.specs.declared.err.layer.Layer.{Layer};
ghost use Rattle.ip_base.specs.declared.err.layer.Layer.TheVariants.{Ipv6ExtHeader};
ghost use Rattle.ip_codes.specs.EndLayer.{end_layer};
ghost use Rattle.ip_dissect.specs.Dissection.{dissected};
ghost use Rattle.ip_filter.specs.Layers.{can_be_truncated, can_be_faulty};
ghost use Rattle.ip_filter.specs.Truth.{holds, fault_in, is_truncated};
ghost use Rattle.ip_filter.specs.declared.term.FaultKind.{FaultKind};
ghost use Rattle.ip_filter.specs.Formula.{Formula, truth};

/// Proves that a formula doesn't depend on what follows the packet: bytes `s` and `t` that are equal up to offset `k`
/// meet the same formulas if `s` starts with a whole base header, and neither that header nor the length that it states
/// extends beyond `k`.
pub fn bytes_after_the_packet_change_nothing()
    ensures { (s t : List ℕ) (k n : ℕ) (f : Formula) → (dissected s).stated ≡ Some n → n ≤ k
        → length (dissected s).base ≤ k → k ≤ length s → k ≤ length t → take k t ≡ take k s
        → truth f (λ x. holds x (dissected t)) ≡ truth f (λ x. holds x (dissected s)) }
{}

/// Proves which layers a header of a packet can be in that is truncated or faulty. It is in the layer of one kind of
/// header, never in `Ipv6ExtHeader`, which stands for several.
#[tactic(auto, using(crate::proofs::LayerLemmas::truncated_layer, crate::proofs::LayerLemmas::faulty_layer, crate::proofs::LayerLemmas::single_layer))]
pub fn errors_lie_in_their_layers()
    ensures truncated { (s : List ℕ) (l : Layer) → is_truncated (dissected s).end ≡ true
        → end_layer (dissected s).end ≡ Some l → can_be_truncated l ≡ true }
    ensures faulty { (s : List ℕ) (k : FaultKind) (l : Layer) → fault_in (dissected s).end ≡ Some k
        → end_layer (dissected s).end ≡ Some l → can_be_faulty k l ≡ true }
    ensures single { (s : List ℕ) → end_layer (dissected s).end ≡ Some Ipv6ExtHeader → ⊥ }
{}
