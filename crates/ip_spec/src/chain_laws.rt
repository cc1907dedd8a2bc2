//! Laws of longest chains, proved as the contracts of calls.
ghost use Rattle.ip_spec.specs.LongestOf.{OnlyOne};
ghost use Rattle.ip_spec.specs.Chain.{IsLongestChain, IsEnd, is_empty, leads_to};
ghost use Rattle.ip_spec.specs.Parse.{rest_after};

/// Proves that bytes have exactly one longest chain from each number.
#[tactic(auto, using(crate::proofs::ChainLemmas::some_longest, crate::proofs::ChainLemmas::one_longest))]
pub fn one_longest_chain()
    ensures some { (n s : _) → (c : _) × IsLongestChain n s c }
    ensures only { (n s : _) → OnlyOne (IsLongestChain n s) }
{}

/// Proves that no header follows a longest chain.
#[tactic(auto, using(crate::proofs::ChainLemmas::longest_ends))]
pub fn longest_chain_ends()
    ensures { (n s c : _) → IsLongestChain n s c
        → IsEnd (is_empty c) (leads_to n c) (rest_after c s) }
{}
