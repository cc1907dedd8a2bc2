//! A law of routing headers, proved as the contract of a call.
ghost use Rattle.std.specs.Prelude.{◌≡◌, ◌<◌, ℕ, List, slice_index};
ghost use Rattle.ip_header_contents.specs.Routing.{IsLayout};
ghost use Rattle.ip_header_contents.specs.declared.routing_layout.AddressLayout.{AddressLayout};

/// Proves that the addresses of a header lie in one way at most.
#[tactic(auto, using(crate::proofs::RoutingLemmas::one_layout))]
pub fn addresses_lie_in_one_way()
    ensures { (b : List ℕ) (x y : AddressLayout) → slice_index b 4 < 256
        → IsLayout b x → IsLayout b y → x ≡ y }
{}
