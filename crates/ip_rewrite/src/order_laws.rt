//! Laws of the recommended order, proved as the contract of a call.
ghost use Rattle.std.specs.Prelude.{◌≡◌, true, IsPermutation};
ghost use Rattle.ip_spec.specs.Chain.{ExtHeader};
ghost use Rattle.ip_rewrite.specs.Headers.{linked_headers};
ghost use Rattle.ip_rewrite.specs.Insertion.{inserted};
ghost use Rattle.ip_rewrite.specs.Order.{in_order, is_in_order, recommended_index};

/// Proves that headers put in order are the same headers and are in order, which linking doesn't change, that headers in
/// order stay as they are, and that one more at the index that is recommended leaves them in order.
pub fn headers_are_put_in_order()
    ensures permutation { (c : _) → IsPermutation c (in_order c) }
    ensures ordered { (c : _) → is_in_order (in_order c) ≡ true }
    ensures linked { (c m : _) → is_in_order (linked_headers m c) ≡ is_in_order c }
    ensures inserted { (h : ExtHeader) (c : _) → is_in_order c ≡ true
        → is_in_order (inserted (recommended_index h.number c) h c) ≡ true }
    ensures same { (c : _) → is_in_order c ≡ true → in_order c ≡ c }
{}
