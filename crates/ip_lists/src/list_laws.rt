//! Laws of lists, each proved as the contract of a call.
ghost use Rattle.std.specs.Prelude.{◌≡◌, ◌≢◌, ℕ, ◌<◌, ◌∷◌, List, length, All, AllPairs, Contains};
ghost use Rattle.ip_lists.specs.Lists.{AreInverse, IsAlone, IsList};

/// Proves that a place of arrays that agree is the head of one list. It has no member twice, and so has fewer members than
/// there are places.
pub fn each_head_has_one_list()
    ensures some { (next previous : List ℕ) (h : ℕ) → AreInverse next previous → h < length next → (xs : List ℕ) × IsList next h xs }
    ensures only { (next : List ℕ) (h : ℕ) (xs ys : List ℕ) → IsList next h xs → IsList next h ys → xs ≡ ys }
    ensures distinct { (next : List ℕ) (h : ℕ) (xs : List ℕ) → IsList next h xs → AllPairs (λ x y. x ≢ y) xs }
    ensures without_head { (next : List ℕ) (h : ℕ) (xs : List ℕ) → IsList next h xs → ¬ Contains xs h }
    ensures within { (next : List ℕ) (h : ℕ) (xs : List ℕ) → IsList next h xs → All (λ p. p < length next) (h ∷ xs) }
    ensures few { (next : List ℕ) (h : ℕ) (xs : List ℕ) → IsList next h xs → length xs < length next }
{}

/// Proves that the lists of two heads share no member, unless one head is in the other's list, and that a place which leads
/// to itself is in no list.
pub fn lists_are_apart()
    ensures heads { (next : List ℕ) (h k : ℕ) (xs ys : List ℕ) → IsList next h xs → IsList next k ys
        → h ≢ k → ¬ Contains xs k → ¬ Contains ys h → (p : ℕ) → Contains xs p → ¬ Contains ys p }
    ensures alone { (next previous : List ℕ) (h p : ℕ) (xs : List ℕ) → IsList next h xs → IsAlone next previous p
        → h ≢ p → ¬ Contains xs p }
{}
