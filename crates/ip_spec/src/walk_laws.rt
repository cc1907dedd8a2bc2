//! Laws of walks over six places, proved as the contracts of calls.
ghost use Rattle.std.specs.Prelude.{◌≡◌, ◌<◌, ◌↔◌, ◌++◌, length, Ok};
ghost use Rattle.ip_spec.specs.LongestOf.{IsLongestOf, OnlyOne};
ghost use Rattle.ip_spec.specs.Header.{IsExtensionNumber};
ghost use Rattle.ip_spec.specs.Encoding.{AreBytes, cleared_chain};
ghost use Rattle.ip_spec.specs.Chain.{leads_to, bytes_of};
ghost use Rattle.ip_spec.specs.Demand.{IsLongestUnder};
ghost use Rattle.ip_spec.specs.Fits.{FitsPlaces, IsOccupied};
ghost use Rattle.ip_spec.specs.Places.{places};
ghost use Rattle.ip_spec.specs.Walk.{IsValueOf, IsSpelling, IsReachable, IsWalkAnswer};
ghost use Rattle.ip_spec.specs.Parse.{IsParsed};
ghost use Rattle.ip_spec.specs.Links.{first_number, linked};
ghost use Rattle.ip_spec.specs.Encodable.{IsEncodable, placed_len};

/// Proves that a value whose headers can all be written reaches exactly one chain from each number, and that its walk
/// has exactly one result.
pub fn one_walk_answer()
    ensures some_reach { (v : _) → IsEncodable v → (f : _) → (c : _) × IsLongestOf (IsReachable v f) c }
    ensures only_reach { (v f : _) → OnlyOne (IsLongestOf (IsReachable v f)) }
    ensures some_answer { (v : _) → IsEncodable v → (f : _) → (a : _) × IsWalkAnswer v f a }
    ensures only_answer { (v f : _) → OnlyOne (IsWalkAnswer v f) }
{}

/// Proves that a walk leads to a number if and only if the value is parsed from some bytes with that number and
/// nothing else left, and if and only if a chain that leads there encodes it.
pub fn walk_leads_where_the_value_is_parsed()
    ensures read { (v : _) → IsEncodable v → (f m : _)
        → IsWalkAnswer v f (Ok m) ↔ ((s : _) × IsParsed FitsPlaces (λ c. IsValueOf c v) f m.0 s) }
    ensures spelled { (v f m : _) → IsWalkAnswer v f (Ok m)
        → (c : _) × IsSpelling v f c × (leads_to f c ≡ m.0) }
    ensures spelling { (v f c : _) → IsSpelling v f c
        → IsWalkAnswer v f (Ok (record { 0 = leads_to f c })) }
{}

/// Proves that at most one chain encodes a value from a number, and that equal bytes encode equal values only.
pub fn one_spelling()
    ensures only { (v f : _) → OnlyOne (IsSpelling v f) }
    ensures alike { (v w f c d : _) → IsSpelling v f c → IsSpelling w f d
        → (bytes_of c ≡ bytes_of d) ↔ ((p : _) → v p ≡ w p) }
    ensures len { (v f c : _) → IsSpelling v f c → length (bytes_of c) ≡ placed_len v }
{}

/// Proves that the chain that encodes a value is parsed from its bytes, whatever follows them, unless it leads to an
/// extension number whose place is free.
pub fn spelled_bytes_are_parsed()
    ensures { (v f c r : _) → IsSpelling v f c
        → (IsExtensionNumber (leads_to f c) → IsOccupied (leads_to f c) c)
        → IsLongestUnder FitsPlaces f (bytes_of c ++ r) c }
{}

/// Proves that the encoding of a parsed value is the parsed chain with its reserved bits set to zero.
pub fn spelling_clears_what_was_parsed()
    ensures { (v f s c d : _) → IsLongestUnder FitsPlaces f s c → AreBytes (bytes_of c)
        → IsValueOf c v → IsSpelling v f d → d ≡ cleared_chain c }
{}

/// Proves that a walk over linked headers reaches their end.
#[tactic(auto, using(crate::proofs::LinkLemmas::linked_leads))]
pub fn linked_headers_are_walked()
    ensures { (v m : _) → m < 256 → IsEncodable v
        → IsWalkAnswer (linked v m) (first_number v places m) (Ok (record { 0 = m })) }
{}
