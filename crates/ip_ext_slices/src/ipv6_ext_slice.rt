//! One header of an IPv6 chain, borrowed.
ghost use Rattle.std.specs.Prelude.{◌≡◌, ◌==◌, ◌&&◌};
ghost use Rattle.ip_spec.specs.Header.{IsHeader};
ghost use Rattle.ip_spec.specs.Numbers.{FRAGMENT};
ghost use Rattle.ip_spec.specs.Fields.{next_header, is_fragmenting};

use ip_base::{IpNumber, ip_number};
use ip_ext_headers::{IpAuthHeaderSlice, Ipv6FragmentHeaderSlice, Ipv6RawExtHeaderSlice};

/// One header of an IPv6 chain, borrowed from the caller's bytes. Two are equal if their variants and their bytes
/// are.
#[derive(Clone, Debug, Drop)]
pub enum Ipv6ExtensionSlice<'a> {
    /// Hop-by-hop options (RFC 8200, section 4.3).
    HopByHop(Ipv6RawExtHeaderSlice<'a>),
    /// A routing header (RFC 8200, section 4.4).
    Routing(Ipv6RawExtHeaderSlice<'a>),
    /// A fragment header (RFC 8200, section 4.5).
    Fragment(Ipv6FragmentHeaderSlice<'a>),
    /// Destination options (RFC 8200, section 4.6).
    DestinationOptions(Ipv6RawExtHeaderSlice<'a>),
    /// An authentication header (RFC 4302, section 2).
    Authentication(IpAuthHeaderSlice<'a>),
}

impl<'a> Ipv6ExtensionSlice<'a> {
    ghost use Rattle.ip_ext_slices.specs.Ipv6ExtensionSlice.{header_of};

    /// Returns the header's own number.
    pub fn number(&self) -> IpNumber
        ensures { result.0 ≡ (header_of self.now).number }
    {
        match self {
            Ipv6ExtensionSlice::HopByHop(_) => ip_number::IPV6_HOP_BY_HOP,
            Ipv6ExtensionSlice::Routing(_) => ip_number::IPV6_ROUTE,
            Ipv6ExtensionSlice::Fragment(_) => ip_number::IPV6_FRAG,
            Ipv6ExtensionSlice::DestinationOptions(_) => ip_number::IPV6_DEST_OPTIONS,
            Ipv6ExtensionSlice::Authentication(_) => ip_number::AUTH,
        }
    }

    /// Returns the header's bytes, exactly one header of its number.
    pub fn slice(&self) -> &'a [u8]
        ensures bytes { result.now ≡ (header_of self.now).bytes }
        ensures header { IsHeader (header_of self.now).number result.now }
    {
        match self {
            Ipv6ExtensionSlice::HopByHop(header)
            | Ipv6ExtensionSlice::Routing(header)
            | Ipv6ExtensionSlice::DestinationOptions(header) => header.slice(),
            Ipv6ExtensionSlice::Fragment(header) => header.slice(),
            Ipv6ExtensionSlice::Authentication(header) => header.slice(),
        }
    }

    /// Returns the next header field.
    pub fn next_header(&self) -> IpNumber
        ensures { result.0 ≡ next_header (header_of self.now).bytes }
    {
        match self {
            Ipv6ExtensionSlice::HopByHop(header)
            | Ipv6ExtensionSlice::Routing(header)
            | Ipv6ExtensionSlice::DestinationOptions(header) => header.next_header(),
            Ipv6ExtensionSlice::Fragment(header) => header.next_header(),
            Ipv6ExtensionSlice::Authentication(header) => header.next_header(),
        }
    }

    /// Returns whether this is a fragment header that fragments the payload.
    pub(crate) fn is_fragmenting_payload(&self) -> bool
        ensures { result ≡ (((header_of self.now).number == FRAGMENT)
            && is_fragmenting (header_of self.now).bytes) }
    {
        match self {
            Ipv6ExtensionSlice::Fragment(header) => header.is_fragmenting_payload(),
            _ => false,
        }
    }
}

impl PartialEq for Ipv6ExtensionSlice<'_> {
    ghost use Rattle.std.specs.Prelude.{◌↔◌, IsTrue};
    ghost use Rattle.std.specs.Cmp.Rules.{comparing};
    ghost use Rattle.std.proofs.Common.{rules};
    ghost use Rattle.ip_ext_slices.specs.Ipv6ExtensionSlice.{header_of, same_header};

    ghost eq = { same_header };

    ghost laws = { Prim.search (comparing, rules) };

    fn eq(&self, other: &Self) -> bool
        ensures answer { result ≡ same_header self.now other.now }
        ensures same { IsTrue result ↔ (header_of self.now ≡ header_of other.now) }
    {
        self.number() == other.number() && self.slice() == other.slice()
    }
}

impl Eq for Ipv6ExtensionSlice<'_> {
    ghost use Rattle.std.specs.Cmp.Rules.{comparing};
    ghost use Rattle.std.proofs.Common.{rules};

    ghost laws = { Prim.search (comparing, rules) };
}
