//! The extension headers after an IPv4 base header.
ghost use Rattle.std.specs.Prelude.{◌≡◌, ◌==◌, ◌&&◌, is_some, length};
ghost use Rattle.ip_spec.specs.Chain.{leads_to};
ghost use Rattle.ip_spec.specs.Parse.{rest_after, fault_after};
ghost use Rattle.ip_base.specs.Ipv4Header.{protocol, ipv4_fragment_offset};
ghost use Rattle.ip_base.specs.Ipv4HeaderSlice.{bytes};
ghost use Rattle.ip_base.specs.declared.len_source.LenSource.TheVariants.{Slice};
ghost use Rattle.ip_ext_slices.specs.Ipv4Fault.{ipv4_faults};
ghost use Rattle.ip_dissect.specs.Extent.{ipv4_chain_in};

use crate::HeaderVisitor;
use crate::fields::ipv4_offset;
use ip_base::{IpNumber, Ipv4HeaderSlice, ip_number};
use ip_ext_slices::authentication_header_at;

/// How many extension headers there are, the number that follows them, the bytes after them, and whether an error
/// follows.
#[derive(Clone, Copy, Debug)]
pub(crate) struct Ipv4Rest<'a> {
    pub(crate) header_count: usize,
    pub(crate) number: IpNumber,
    pub(crate) rest: &'a [u8],
    pub(crate) has_error: bool,
}

/// Parses the extension headers in the bytes after this base header. A later fragment has none.
#[inline(always)]
pub(crate) fn ipv4_chain<'a, V: HeaderVisitor>(
    base: Ipv4HeaderSlice<'_>,
    after_base: &'a [u8],
    visitor: &mut V,
) -> Ipv4Rest<'a>
    ensures count { result.header_count ≡ length (ipv4_chain_in (bytes base.entry) after_base.now) }
    ensures number { result.number.0
        ≡ leads_to (protocol (bytes base.entry)) (ipv4_chain_in (bytes base.entry) after_base.now) }
    ensures rest { result.rest.now
        ≡ rest_after (ipv4_chain_in (bytes base.entry) after_base.now) after_base.now }
    ensures error { result.has_error ≡ ((ipv4_fragment_offset (bytes base.entry) == 0)
        && is_some (fault_after (ipv4_faults Slice) (ipv4_chain_in (bytes base.entry) after_base.now)
        (protocol (bytes base.entry)) after_base.now)) }
    ensures visited { V.visited visitor.old (length (bytes base.entry))
        (ipv4_chain_in (bytes base.entry) after_base.now) visitor.new }
{
    let none = Ipv4Rest {
        header_count: 0,
        number: base.protocol(),
        rest: after_base,
        has_error: false,
    };
    // the number first, since no branch can predict the offsets of fragments
    if base.protocol() != ip_number::AUTH || ipv4_offset(base) != 0 {
        return none;
    }
    match authentication_header_at(base.protocol(), after_base) {
        Ok(None) => none,
        Ok(Some(header)) => {
            let slice = header.slice();
            visitor.visit(ip_number::AUTH, slice, 0, base.slice().len());
            Ipv4Rest {
                header_count: 1,
                number: header.next_header(),
                rest: &after_base[slice.len()..],
                has_error: false,
            }
        }
        Err(_) => Ipv4Rest {
            has_error: true,
            ..none
        },
    }
}
