//! Laws of longest chains under a demand, proved as the contracts of calls.
ghost use Rattle.std.specs.Prelude.{◌≡◌, ◌<◌, ◌↔◌, IsSome, [], ◌∷◌, ◌++◌, length, take, map};
ghost use Rattle.ip_spec.specs.LongestOf.{OnlyOne};
ghost use Rattle.ip_spec.specs.Header.{IsExtensionNumber, IsLaterNumber};
ghost use Rattle.ip_spec.specs.Chain.{IsEnd, ExtHeader, IsLongestChain, IsNext, leads_to, headers_within, is_empty};
ghost use Rattle.ip_spec.specs.Demand.{IsDemand, KeepsBeginning, IsLongestUnder, IsEndUnder, Passes, NoDemand, AtMost, AtMostOneOf};
ghost use Rattle.ip_spec.specs.Parse.{rest_after};
ghost use Rattle.ip_spec.specs.Fits.{Fits, FitsPlaces, IsOccupied};
ghost use Rattle.ip_spec.specs.Places.{header_in, next_place};

/// Proves that bytes have exactly one longest chain from each number under each demand.
pub fn one_longest_chain_under_a_demand()
    ensures some { (q : _) → IsDemand (Passes q) → (n s : _) → (c : _) × IsLongestUnder (Passes q) n s c }
    ensures only { (q : _) → IsDemand (Passes q) → (n s : _) → OnlyOne (IsLongestUnder (Passes q) n s) }
{}

/// Proves that a demand keeps exactly the longest chain under it, of the longest chain.
pub fn demand_keeps_its_longest_chain()
    ensures longest { (q : _) → IsDemand (Passes q) → (n s d c : _) → IsLongestChain n s d
        → IsLongestUnder (Passes q) n s c → KeepsBeginning (Passes q) d c }
    ensures only { (q : _) → IsDemand (Passes q) → (n s d c : _) → IsLongestChain n s d
        → KeepsBeginning (Passes q) d c → IsLongestUnder (Passes q) n s c }
{}

/// Proves that no header that still meets the demand follows a longest chain under it.
pub fn longest_chain_under_a_demand_ends()
    ensures { (q : _) → IsDemand (Passes q) → (n s c : _) → IsLongestUnder (Passes q) n s c
        → IsEndUnder (Passes q) c (leads_to n c) (rest_after c s) }
{}

/// Proves that the longest chain of truncated bytes is the headers of the whole's longest chain that lie within them.
pub fn shorter_bytes_keep_whole_headers()
    ensures { (q : _) → IsDemand (Passes q) → (n j s d c : _) → IsLongestUnder (Passes q) n s d
        → IsLongestUnder (Passes q) n (take j s) c → c ≡ headers_within j d }
{}

/// Proves that four predicates are demands.
pub fn demands()
    ensures none { IsDemand NoDemand }
    ensures at_most { (k : _) → IsDemand (AtMost k) }
    ensures at_most_one_of { (m : _) → IsDemand (AtMostOneOf m) }
    ensures fits_places { IsDemand FitsPlaces }
{}

/// Proves that the longest chain under no demand is the longest chain, and under that of at most k headers its first
/// k.
#[tactic(auto, using(crate::proofs::UnderLemmas::longest_under_none, crate::proofs::UnderLemmas::longest_without, crate::proofs::DemandKinds::longest_at_most))]
pub fn longest_chains_under_demands()
    ensures none { (n s c : _) → IsLongestUnder NoDemand n s c ↔ IsLongestChain n s c }
    ensures at_most { (k n s d : _) → IsLongestChain n s d → IsLongestUnder (AtMost k) n s (take k d) }
{}

/// Proves that exactly one longest chain fits six places.
pub fn one_longest_fitting_chain()
    ensures some { (n s : _) → (c : _) × IsLongestUnder FitsPlaces n s c }
    ensures only { (n s : _) → OnlyOne (IsLongestUnder FitsPlaces n s) }
    ensures kept { (n s d c : _) → IsLongestChain n s d → IsLongestUnder FitsPlaces n s c
        → KeepsBeginning FitsPlaces d c }
{}

/// Proves that no header follows the longest chain that fits six places, unless the place of its number is occupied.
#[tactic(auto, using(crate::proofs::FitsLemmas::fitting_ends))]
pub fn fitting_chain_ends()
    ensures { (n s c : _) → IsLongestUnder FitsPlaces n s c
        → (IsOccupied (leads_to n c) c → ⊥) → IsEnd (is_empty c) (leads_to n c) (rest_after c s) }
{}

/// Proves that it is shorter than the longest chain if and only if a header follows whose place is occupied.
#[tactic(auto, using(crate::proofs::FitsLemmas::occupied_where_shorter, crate::proofs::FitsLemmas::shorter_where_next))]
pub fn fitting_chain_stops_where_occupied()
    ensures shorter { (n s d c : _) → IsLongestChain n s d → IsLongestUnder FitsPlaces n s c
        → length c < length d → IsOccupied (leads_to n c) c }
    ensures next { (n s d c : _) → IsLongestChain n s d → IsLongestUnder FitsPlaces n s c
        → (h : _) → IsNext (is_empty c) (leads_to n c) (rest_after c s) h → length c < length d }
{}

/// Proves that the numbers of a chain decide whether it fits six places.
pub fn chain_fits_by_its_numbers()
    ensures { (c : _) → FitsPlaces c ↔ Fits (λ n. n) (map (λ h. h.number) c) }
{}

/// Proves that one more extension header fits if and only if its number has a free place.
#[tactic(auto, using(crate::proofs::PlaceLemmas::fits_where_next))]
pub fn next_header_fits()
    ensures { (c : _) (h : ExtHeader) → FitsPlaces c → IsExtensionNumber h.number
        → FitsPlaces (c ++ h ∷ []) ↔ IsSome (next_place (λ p. header_in p c) h.number) }
{}

/// Proves that the place of a number is occupied after a chain that fits if and only if the number is that of a later
/// header and no header of that number fits.
pub fn occupied_numbers()
    ensures { (m c : _) → FitsPlaces c → IsOccupied m c
        ↔ (IsLaterNumber m × ((h : ExtHeader) → h.number ≡ m → FitsPlaces (c ++ h ∷ []) → ⊥)) }
{}
