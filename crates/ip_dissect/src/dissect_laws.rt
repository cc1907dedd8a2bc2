//! Laws of chains up to a later fragment and of truncated bytes, proved as the contracts of calls.
ghost use Rattle.std.specs.Prelude.{◌≡◌, ◌-◌, ℕ, List, length, take};
ghost use Rattle.ip_spec.specs.Chain.{ExtHeader, headers_within};
ghost use Rattle.ip_spec.specs.Demand.{IsDemand, IsLongestUnder};
ghost use Rattle.ip_dissect.specs.LaterDemand.{NothingAfterLater};
ghost use Rattle.ip_dissect.specs.Later.{chain_to_later};
ghost use Rattle.ip_dissect.specs.Extent.{ipv4_chain, ipv6_chain};

/// Proves that bytes have exactly one longest chain in which nothing follows a later fragment's header.
pub fn one_chain_to_a_later_fragment()
    ensures demand { IsDemand NothingAfterLater }
    ensures some { (n : ℕ) (s : List ℕ) → IsLongestUnder NothingAfterLater n s (chain_to_later n s) }
    ensures only { (n : ℕ) (s : List ℕ) (c : List ExtHeader)
        → IsLongestUnder NothingAfterLater n s c → c ≡ chain_to_later n s }
{}

/// Proves that of bytes truncated after `j`, the extension headers are those that lie wholly within them.
pub fn truncated_bytes_keep_whole_headers()
    ensures ipv4 { (j : ℕ) (b s : List ℕ)
        → ipv4_chain b (take j s) ≡ headers_within (j - length b) (ipv4_chain b s) }
    ensures ipv6 { (j : ℕ) (b s : List ℕ)
        → ipv6_chain b (take j s) ≡ headers_within (j - length b) (ipv6_chain b s) }
{}
