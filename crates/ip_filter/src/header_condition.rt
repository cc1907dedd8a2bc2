//! What tests ask of single extension headers.
ghost use Rattle.std.specs.Prelude.{◌≡◌, ◌==◌, ◌&&◌, ℕ, List};
ghost use Rattle.std.specs.List.{list_any};
ghost use Rattle.ip_ext_slices.specs.Longest.{longest_chain};
ghost use Rattle.ip_ext_slices.specs.Ipv6ExtensionSlice.{header_of};
ghost use Rattle.ip_dissect.specs.Dissection.{dissected};
ghost use Rattle.ip_filter.specs.Flags.{any_flag};
ghost use Rattle.ip_filter.specs.Truth.{compares, says_fragment};
ghost use Rattle.ip_filter.specs.HeaderFields.{has_spi, has_routing_type, has_segments_left};
ghost use Rattle.ip_filter.specs.HeaderConditions.{is_asked, meets_condition};

use crate::Comparison;
use crate::flags::mask;
use ip_base::IpNumber;
use ip_ext_slices::{Ipv6ExtensionSlice, Ipv6ExtensionsCursor};
use ip_header_contents::{routing_type, segments_left};

/// A condition on one extension header.
#[derive(Clone, Copy)]
pub(crate) enum HeaderCondition {
    /// An authentication header with this security parameters index.
    SecurityParameters(u64),
    /// A routing header of this type.
    RoutingType(u64),
    /// A routing header whose segments left compare so.
    SegmentsLeft(Comparison, u64),
    /// A fragment header with this identification.
    Identification(u64),
}

impl HeaderCondition {
    /// Returns the flags of the headers that can meet the condition.
    #[inline(always)]
    pub(crate) fn mask(self) -> u64
        ensures { (s : List ℕ) → any_flag 64 result (dissected s)
            ≡ list_any (λ h. is_asked self h.number) (dissected s).headers }
    {
        match self {
            HeaderCondition::SecurityParameters(_) => mask::AUTHENTICATION,
            HeaderCondition::RoutingType(_) => mask::ROUTING,
            HeaderCondition::SegmentsLeft(_, _) => mask::ROUTING,
            HeaderCondition::Identification(_) => mask::FRAGMENT,
        }
    }

    /// Returns whether the header meets the condition.
    fn is_met_by(self, header: &Ipv6ExtensionSlice<'_>) -> bool
        ensures { result ≡ meets_condition self (header_of header.now) }
    {
        match self {
            HeaderCondition::SecurityParameters(spi) => has_spi(header, spi),
            HeaderCondition::RoutingType(number) => has_routing_type(header, number),
            HeaderCondition::SegmentsLeft(comparison, number) => {
                has_segments_left(header, comparison, number)
            }
            HeaderCondition::Identification(number) => has_identification(header, number),
        }
    }
}

/// Returns whether a header of the longest chain meets the condition.
pub(crate) fn any_header(first: IpNumber, bytes: &[u8], condition: HeaderCondition) -> bool
    ensures { result ≡ list_any (meets_condition condition) (longest_chain first.0 bytes.now) }
{
    'headers: for header in Ipv6ExtensionsCursor::new(first, bytes) {
        if condition.is_met_by(&header) {
            return true;
        }
    }
    false
}

/// Returns whether the header is an authentication header with the security parameters index.
fn has_spi(header: &Ipv6ExtensionSlice<'_>, spi: u64) -> bool
    ensures { result ≡ has_spi spi (header_of header.now) }
{
    match header {
        Ipv6ExtensionSlice::Authentication(header) => u64::from(header.spi()) == spi,
        _ => false,
    }
}

/// Returns whether the header is a fragment header with the identification.
fn has_identification(header: &Ipv6ExtensionSlice<'_>, number: u64) -> bool
    ensures { result ≡ says_fragment (λ x. x.identification == number) (header_of header.now) }
{
    match header {
        Ipv6ExtensionSlice::Fragment(header) => u64::from(header.identification()) == number,
        _ => false,
    }
}

/// Returns whether the header is a routing header of this type.
fn has_routing_type(header: &Ipv6ExtensionSlice<'_>, number: u64) -> bool
    ensures { result ≡ has_routing_type number (header_of header.now) }
{
    match header {
        Ipv6ExtensionSlice::Routing(header) => u64::from(routing_type(header)) == number,
        _ => false,
    }
}

/// Returns whether the header is a routing header whose segments left compare so.
fn has_segments_left(header: &Ipv6ExtensionSlice<'_>, comparison: Comparison, number: u64) -> bool
    ensures { result ≡ has_segments_left (λ n. compares comparison n number) (header_of header.now) }
{
    match header {
        Ipv6ExtensionSlice::Routing(header) => {
            comparison.holds(u64::from(segments_left(header)), number)
        }
        _ => false,
    }
}
