//! Which headers are changed, and what may become of an authentication header.
ghost use Rattle.std.specs.Prelude.{◌≡◌};
ghost use Rattle.ip_spec.specs.Chain.{ExtHeader};
ghost use Rattle.ip_rewrite.specs.Selection.{has_number, selects};

use ip_base::{IpNumber, ip_number};

/// A set of numbers of extension headers. By default it is empty.
#[derive(Clone, Copy, Debug, Default, PartialEq, Eq)]
pub struct HeaderSet {
    /// Hop-by-hop options, 0.
    pub hop_by_hop: bool,
    /// Routing headers, 43.
    pub routing: bool,
    /// Fragment headers, 44.
    pub fragment: bool,
    /// Authentication headers, 51.
    pub authentication: bool,
    /// Destination options, 60.
    pub destination_options: bool,
}

impl HeaderSet {
    /// Returns whether the number is in the set.
    #[inline(always)]
    pub fn contains(&self, number: IpNumber) -> bool
        ensures { result ≡ has_number self.now number.0 }
    {
        number == ip_number::IPV6_HOP_BY_HOP && self.hop_by_hop
            || number == ip_number::IPV6_ROUTE && self.routing
            || number == ip_number::IPV6_FRAG && self.fragment
            || number == ip_number::AUTH && self.authentication
            || number == ip_number::IPV6_DEST_OPTIONS && self.destination_options
    }
}

/// Which extension headers of a packet are selected.
#[derive(Clone, Copy, Debug, PartialEq, Eq)]
pub enum Which {
    /// The header with this index in the chain, from 0.
    Index(usize),
    /// All headers with this number.
    Number(IpNumber),
    /// All headers with one of these numbers.
    Headers(HeaderSet),
}

impl Which {
    /// Returns whether the header with this number and index is selected.
    #[inline(always)]
    pub fn selects(&self, number: IpNumber, index: usize) -> bool
        ensures { (h : ExtHeader) → h.number ≡ number.0 → result ≡ selects self.now index h }
    {
        match self {
            Which::Index(selected) => index == *selected,
            Which::Number(selected) => number == *selected,
            Which::Headers(selected) => selected.contains(number),
        }
    }
}

/// What may become of an authentication header, which covers the whole packet (RFC 4302, section 3.3.3), except for the
/// fragment header of an atomic fragment before it (section 3.3.4).
#[derive(Clone, Copy, Debug, PartialEq, Eq)]
pub enum Authentication {
    /// A packet that keeps one isn't changed where the header covers it.
    Valid,
    /// It is kept, and its check value doesn't hold for the changed packet.
    Invalid,
}
