//! A law of longest chains that fit six places, proved as the contract of a call.
ghost use Rattle.std.specs.Prelude.{ℕ, List, IsSome};
ghost use Rattle.ip_spec.specs.Header.{IsExtensionNumber};
ghost use Rattle.ip_spec.specs.Chain.{ExtHeader, leads_to};
ghost use Rattle.ip_spec.specs.Demand.{IsLongestUnder};
ghost use Rattle.ip_spec.specs.Fits.{FitsPlaces, IsOccupied};
ghost use Rattle.ip_spec.specs.Parse.{fault_after};
ghost use Rattle.ip_ext_chains.specs.Fitting.{fitting_faults};

/// Proves that the longest chain that fits six places has an error if it leads to an extension header's number whose
/// place is free.
pub fn free_extension_number_left_has_fault()
    ensures { (n : ℕ) (s : List ℕ) (c : List ExtHeader) → IsLongestUnder FitsPlaces n s c
        → IsExtensionNumber (leads_to n c) → (IsOccupied (leads_to n c) c → ⊥)
        → IsSome (fault_after fitting_faults c n s) }
{}
