//! A law of longest chains, proved as the contract of a call.
ghost use Rattle.std.specs.Prelude.{ℕ, List, IsSome};
ghost use Rattle.ip_base.specs.declared.len_source.LenSource.TheVariants.{Slice};
ghost use Rattle.ip_spec.specs.Header.{IsExtensionNumber};
ghost use Rattle.ip_spec.specs.Parse.{fault_after};
ghost use Rattle.ip_spec.specs.Chain.{ExtHeader, IsLongestChain, leads_to};
ghost use Rattle.ip_ext_slices.specs.ChainFault.{chain_faults};

/// Proves that a longest chain that leads to an extension header's number has an error there.
#[tactic(auto, using(ip_spec::proofs::ChainLemmas::longest_ends, crate::proofs::FaultLemmas::fault_at_end))]
pub fn extension_number_left_has_fault()
    ensures { (n : ℕ) (s : List ℕ) (c : List ExtHeader) → IsLongestChain n s c
        → IsExtensionNumber (leads_to n c)
        → IsSome (fault_after (chain_faults Slice) c n s) }
{}
