//! A law of merged statistics, proved as the contract of a call.
ghost use Rattle.std.specs.Prelude.{◌≡◌, ℕ, List, ◌++◌, IsPermutation};
ghost use Rattle.ip_statistics.specs.Statistics.{merged, nothing};
ghost use Rattle.ip_statistics.specs.Lists.{statistics_of, Merges, packets_in, merged_in};
ghost use Rattle.ip_statistics.specs.declared.statistics.Statistics.{Statistics};

/// Proves that packets may be counted apart: however a list of packets is split, and in whatever order the parts are
/// counted and merged, the result is the statistics of the list.
pub fn merges_are_the_statistics_of_all()
    ensures associative { (a b c : Statistics) → merged (merged a b) c ≡ merged a (merged b c) }
    ensures commutative { (a b : Statistics) → merged a b ≡ merged b a }
    ensures neutral { (packets : List (List ℕ))
        → merged (statistics_of packets) nothing ≡ statistics_of packets }
    ensures split { (xs ys : List (List ℕ))
        → statistics_of (xs ++ ys) ≡ merged (statistics_of xs) (statistics_of ys) }
    ensures order { (xs ys : List (List ℕ))
        → IsPermutation xs ys → statistics_of xs ≡ statistics_of ys }
    ensures all { (m : Merges) (xs : List (List ℕ))
        → IsPermutation xs (packets_in m) → merged_in m ≡ statistics_of xs }
{}
