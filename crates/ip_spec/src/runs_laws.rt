//! Laws of runs, proved as the contracts of calls.
ghost use Rattle.std.specs.Prelude.{◌≡◌, ◌+◌, ◌/◌, ◌≤◌, [], ◌∷◌, length};
ghost use Rattle.std.specs.List.{flat_map, AllByRecursion};
ghost use Rattle.ip_spec.specs.LongestOf.{OnlyOne};
ghost use Rattle.ip_spec.specs.Chain.{IsChain, IsLongestChain, leads_to, bytes_of};
ghost use Rattle.ip_spec.specs.Demand.{IsLongestUnder};
ghost use Rattle.ip_spec.specs.Parse.{rest_after};
ghost use Rattle.ip_spec.specs.Fits.{FitsPlaces, IsOccupied};
ghost use Rattle.ip_spec.specs.Encoding.{cleared_chain};
ghost use Rattle.ip_spec.specs.Runs.{AreRuns, AreChains, joined, how_many};

/// Proves that headers and the number to which they lead have exactly one list of runs.
pub fn one_list_of_runs()
    ensures some { (m c : _) → (ps : _) × AreRuns m c ps }
    ensures only { (m c : _) → OnlyOne (AreRuns m c) }
{}

/// Proves that the runs are the fewest: any other list of pieces that fit six places and join to the same headers has
/// at least as many nonempty pieces.
#[tactic(auto, using(crate::proofs::RunsLemmas::fewest_runs))]
pub fn fewest_runs()
    ensures { (m c ps qs : _) → AreRuns m c ps → joined qs ≡ c → AllByRecursion FitsPlaces qs
        → how_many ps ≤ how_many qs }
{}

/// Proves that there is a run, and at most one per 8 bytes and one more.
#[tactic(auto, using(crate::proofs::RunsLemmas::some_run, crate::proofs::RunsLemmas::runs_bound))]
pub fn runs_count()
    ensures least { (m c ps : _) → AreRuns m c ps → 1 ≤ length ps }
    ensures most { (n s c ps : _) → IsLongestChain n s c → AreRuns (leads_to n c) c ps
        → length ps ≤ length s / 8 + 1 }
{}

/// Proves that no header is lost: the runs joined are the headers, and the runs written one after the other are the
/// headers written. Each run of a chain is a chain, from the number to which the run before it leads.
#[tactic(auto, using(crate::proofs::RunsLemmas::runs_joined, crate::proofs::RunsLemmas::runs_written, crate::proofs::RunsLemmas::runs_chains))]
pub fn runs_keep_each_header()
    ensures joined { (m c ps : _) → AreRuns m c ps → joined ps ≡ c }
    ensures written { (m c ps : _) → AreRuns m c ps
        → flat_map (λ p. bytes_of (cleared_chain p)) ps ≡ bytes_of (cleared_chain c) }
    ensures chains { (n m c ps : _) → IsChain n c → AreRuns m c ps → AreChains n ps }
{}

/// Proves that the first run of a longest chain is the longest chain that fits six places. If the place of the number
/// to which it leads is free, it is the only run; otherwise the others are the runs of the longest chain after it.
pub fn runs_are_longest_fitting_chains()
    ensures first { (n s c p ps : _) → IsLongestChain n s c → AreRuns (leads_to n c) c (p ∷ ps)
        → IsLongestUnder FitsPlaces n s p }
    ensures last { (n s c p : _) → IsLongestChain n s c → AreRuns (leads_to n c) c (p ∷ [])
        → IsOccupied (leads_to n p) p → ⊥ }
    ensures others { (n s c p q ps : _) → IsLongestChain n s c
        → AreRuns (leads_to n c) c (p ∷ q ∷ ps)
        → IsOccupied (leads_to n p) p × ((d : _) × IsLongestChain (leads_to n p) (rest_after p s) d
        × AreRuns (leads_to (leads_to n p) d) d (q ∷ ps)) }
{}
