//! An iterator over the addresses of a routing header.
ghost use Rattle.std.specs.Prelude.{◌≡◌, ◌+◌, ◌<◌, ◌≤◌, length};
ghost use Rattle.ip_header_contents.specs.Routing.{addresses_len};

use crate::routing_layout::{AddressLayout, address_layout};
use ip_ext_headers::Ipv6RawExtHeaderSlice;

/// An address of a routing header, as it is in the header: its last bytes. All 16 are there except in a routing header of
/// type 3, which leaves out the first ones if they are those of the IPv6 destination address (RFC 6554, section 3).
#[derive(Clone, Copy, Debug)]
pub struct RoutingAddress<'a> {
    suffix: &'a [u8],
    pub ghost most: { length suffix.now ≤ 16 },
}

impl<'a> RoutingAddress<'a> {
    ghost use Rattle.ip_header_contents.specs.Routing.{expanded};
    ghost use Rattle.ip_header_contents.specs.RoutingAddresses.{last_bytes};

    /// Returns the last bytes of the address, up to 16.
    #[inline(always)]
    pub fn suffix(&self) -> &'a [u8]
        ensures bytes { result.now ≡ last_bytes self.now }
        ensures most { length result.now ≤ 16 }
    {
        self.suffix
    }

    /// Returns the address, whose first bytes are those of the packet's IPv6 destination address if they were left out.
    #[inline(always)]
    pub fn expanded(&self, destination: &[u8; 16]) -> [u8; 16]
        ensures { result ≡ expanded destination.now (last_bytes self.now) }
    {
        let mut address = *destination;
        let start = 16 - self.suffix.len();
        address[start..].copy_from_slice(self.suffix);
        address
    }
}

/// The addresses of a routing header, once and in order, and `None` from then on.
#[derive(Clone, Copy, Debug)]
pub struct RoutingAddresses<'a> {
    header: &'a [u8],
    layout: AddressLayout,
    index: usize,
    pub ghost some: { 1 ≤ layout.count },
    pub ghost len: { layout.len ≤ 16 },
    pub ghost last_len: { layout.last_len ≤ 16 },
    pub ghost within: { 8 + addresses_len layout ≤ length header.now },
    pub ghost index_within: { index ≤ layout.count },
}

impl<'a> RoutingAddresses<'a> {
    ghost use Rattle.std.specs.Prelude.{IfSome, IfNone};
    ghost use Rattle.ip_ext_headers.specs.Ipv6RawExtHeaderSlice.{bytes};
    ghost use Rattle.ip_header_contents.specs.declared.routing_layout.AddressLayout.{AddressLayout};
    ghost use Rattle.ip_header_contents.specs.Routing.{IsLayout, address};
    ghost use Rattle.ip_header_contents.specs.RoutingAddresses.{last_bytes, routing_bytes, layout, address_index};

    /// Returns the addresses of a routing header of type 2 (RFC 6275, section 6.4), 3 (RFC 6554, section 3) or 4
    /// (RFC 8754, section 2). Returns `None` for any other type, or if the fields of the header don't fit its length.
    pub fn of(header: &Ipv6RawExtHeaderSlice<'a>) -> Option<RoutingAddresses<'a>>
        ensures header { IfSome result (λ x. routing_bytes x ≡ bytes header.now) }
        ensures layout { IfSome result (λ x. IsLayout (bytes header.now) (layout x)) }
        ensures index { IfSome result (λ x. address_index x ≡ 0) }
        ensures none { IfNone result ((x : AddressLayout) → IsLayout (bytes header.now) x → ⊥) }
    {
        match address_layout(header) {
            Some(layout) => Some(RoutingAddresses {
                header: header.slice(),
                layout,
                index: 0,
            }),
            None => None,
        }
    }

    /// Returns where the addresses are.
    #[inline(always)]
    pub fn layout(&self) -> AddressLayout
        ensures { result ≡ layout self.now }
    {
        self.layout
    }

    /// Returns the address with this index, or `None` if there are fewer.
    #[inline(always)]
    pub fn get(&self, index: usize) -> Option<RoutingAddress<'a>>
        ensures some { IfSome result (λ a. last_bytes a ≡ address (layout self.now) (routing_bytes self.now) index) }
        ensures within { IfSome result (λ _. index < (layout self.now).count) }
        ensures none { IfNone result ((layout self.now).count ≤ index) }
    {
        if index >= self.layout.count {
            return None;
        }
        let len = if index + 1 == self.layout.count {
            self.layout.last_len
        } else {
            self.layout.len
        };
        let start = 8 + index * self.layout.len;
        Some(RoutingAddress {
            suffix: &self.header[start..start + len],
        })
    }
}

impl<'a> Iterator for RoutingAddresses<'a> {
    type Item = RoutingAddress<'a>;

    ghost use Rattle.std.specs.Iterator.{item_count};
    ghost use Rattle.ip_header_contents.specs.RoutingAddresses.{addresses_left, GivesAddress};

    ghost next_gives = { GivesAddress };

    ghost remaining = { item_count addresses_left };

    #[inline(always)]
    fn next(&mut self) -> Option<RoutingAddress<'a>> {
        let Some(address) = self.get(self.index) else {
            return None;
        };
        self.index += 1;
        Some(address)
    }
}
