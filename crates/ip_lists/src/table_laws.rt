//! Laws of tables, each proved as the contract of a call.
ghost use Rattle.std.specs.Prelude.{◌≡◌, ◌≢◌, ◌↔◌, ℕ, List, AllPairs, Contains};
ghost use Rattle.ip_lists.specs.Table.{IsTable, in_bucket};
ghost use Rattle.ip_lists.specs.declared.table.Table.{Table};

/// Proves that each place of a table is free or in use but not both, and that one in use is once in the chain of its bucket
/// and in no other chain.
pub fn each_place_is_free_or_in_one_chain()
    ensures apart { (table : Table) (free used : List ℕ) (bucket_of : ℕ → ℕ) → IsTable table free used bucket_of
        → (p : ℕ) → Contains free p → ¬ Contains used p }
    ensures distinct { (table : Table) (free used : List ℕ) (bucket_of : ℕ → ℕ) → IsTable table free used bucket_of
        → AllPairs (λ p q. p ≢ q) free × AllPairs (λ p q. p ≢ q) used }
    ensures chains { (bucket_of : ℕ → ℕ) (b p : ℕ) (used : List ℕ)
        → Contains (in_bucket bucket_of b used) p ↔ (Contains used p × (bucket_of p ≡ b)) }
{}

/// Proves that a table has one list of free places, one of those in use, and one bucket for each of the latter. The buckets of
/// free places don't matter.
pub fn each_table_has_one_meaning()
    ensures only { (table : Table) (free used other_free other_used : List ℕ) (bucket_of other : ℕ → ℕ) → IsTable table free used bucket_of
        → IsTable table other_free other_used other
        → (other_free ≡ free) × (other_used ≡ used) × ((p : ℕ) → Contains used p → other p ≡ bucket_of p) }
    ensures buckets { (table : Table) (free used : List ℕ) (bucket_of other : ℕ → ℕ) → IsTable table free used bucket_of
        → ((p : ℕ) → Contains used p → other p ≡ bucket_of p) → IsTable table free used other }
{}
