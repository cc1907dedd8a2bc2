//! The fields and the addresses of routing headers.
ghost use Rattle.std.specs.Prelude.{◌≡◌, ℕ, List, IfSome, IfNone};
ghost use Rattle.ip_base.specs.Prefix.{IsPrefix};
ghost use Rattle.ip_spec.specs.Header.{IsRawHeader};
ghost use Rattle.ip_ext_headers.specs.Ipv6RawExtHeaderSlice.{bytes};
ghost use Rattle.ip_spans.specs.RoutingFields.{AreAddresses, StartsWithRoutingHeader, IsRoutingAddress, HasNoAddress};

use ip_ext_headers::Ipv6RawExtHeaderSlice;
use ip_header_contents::{
    AddressLayout, RoutingAddresses, address_layout, routing_type, segments_left,
};

/// The fields of a routing header (RFC 8200, section 4.4). There are addresses if its type is 2 (RFC 6275, section 6.4), 3
/// (RFC 6554, section 3) or 4 (RFC 8754, section 2) and its fields fit its length.
#[repr(C)]
#[derive(Clone, Copy, Debug, PartialEq, Eq)]
pub struct RoutingFields {
    /// The header's length in bytes.
    pub len: usize,
    /// The number of addresses.
    pub addresses: usize,
    /// The number of bytes of each address but the last one that are in the header: 16, or fewer in type 3.
    pub address_len: usize,
    /// The number of bytes of the last address that are in the header.
    pub last_address_len: usize,
    /// The routing type.
    pub routing_type: u8,
    /// The number of nodes that are still to be visited.
    pub segments_left: u8,
    /// The next header field.
    pub next_header: u8,
}

/// Returns the fields of the routing header at the start of `bytes`, or `None` if there are fewer bytes than it has.
pub fn routing_fields(bytes: &[u8]) -> Option<RoutingFields>
    ensures some { IfSome result (λ x. StartsWithRoutingHeader bytes.now x) }
    ensures none { IfNone result ((b : List ℕ) → IsRawHeader b → IsPrefix b bytes.now → ⊥) }
{
    let Ok(header) = Ipv6RawExtHeaderSlice::from_slice(bytes) else {
        return None;
    };
    let layout = layout_or_none(&header);
    Some(RoutingFields {
        len: header.slice().len(),
        addresses: layout.count,
        address_len: layout.len,
        last_address_len: layout.last_len,
        routing_type: routing_type(&header),
        segments_left: segments_left(&header),
        next_header: header.next_header().0,
    })
}

/// Returns where the addresses of the header are; zeros if there are none.
fn layout_or_none(header: &Ipv6RawExtHeaderSlice<'_>) -> AddressLayout
    ensures { AreAddresses (bytes header.now) result }
{
    match address_layout(header) {
        Some(layout) => layout,
        None => AddressLayout {
            count: 0,
            len: 0,
            last_len: 0,
        },
    }
}

/// Returns the address with this index of the routing header at the start of `bytes`, or `None` if there is none. Bytes at
/// its start that the header leaves out are those of `destination`, the IPv6 destination address.
pub fn routing_address(bytes: &[u8], index: usize, destination: &[u8; 16]) -> Option<[u8; 16]>
    ensures some { IfSome result (λ a. IsRoutingAddress bytes.now index destination.now a) }
    ensures none { IfNone result (HasNoAddress bytes.now index) }
{
    let Ok(header) = Ipv6RawExtHeaderSlice::from_slice(bytes) else {
        return None;
    };
    let Some(addresses) = RoutingAddresses::of(&header) else {
        return None;
    };
    match addresses.get(index) {
        Some(address) => Some(address.expanded(destination)),
        None => None,
    }
}
