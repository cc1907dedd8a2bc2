//! Callers of the contents of headers.
ghost use Rattle.std.specs.Prelude.{◌≡◌, ◌+◌, ◌-◌, ◌<◌, ◌≤◌, ◌⊎◌, drop, length, not, nat_lt, IfSome, IfNone};
ghost use Rattle.std.specs.List.{list_any};
ghost use Rattle.ip_ext_headers.specs.Ipv6RawExtHeaderSlice.{bytes};
ghost use Rattle.ip_header_contents.specs.Options.{options_in, options_len};
ghost use Rattle.ip_header_contents.specs.Routing.{IsLayout, segments_left, address, addresses_from, expanded};
ghost use Rattle.ip_header_contents.specs.declared.routing_layout.AddressLayout.{AddressLayout};

use ip_ext_headers::Ipv6RawExtHeaderSlice;
use ip_header_contents::{HeaderOptions, RoutingAddresses, UnknownOption, segments_left};

/// Returns whether the header has an option for which a node that doesn't know it discards the packet.
pub fn may_be_discarded(header: &Ipv6RawExtHeaderSlice<'_>) -> bool
    ensures { result ≡ list_any (λ o. not (nat_lt o.option_type 64))
        (options_in (drop 2 (bytes header.now))) }
{
    'options: for option in HeaderOptions::of(header) {
        match option.if_unknown() {
            UnknownOption::Skip => {}
            _ => return true,
        }
    }
    false
}

/// Returns the offset of the header's malformed option, in bytes from the start of the header, if there is one: its options end
/// there.
pub fn malformed_option(header: &Ipv6RawExtHeaderSlice<'_>) -> Option<usize>
    ensures some { IfSome result (λ k. k ≡ 2 + options_len (options_in (drop 2 (bytes header.now)))) }
    ensures within { IfSome result (λ k. k < length (bytes header.now)) }
    ensures none { IfNone result (2 + options_len (options_in (drop 2 (bytes header.now)))
        ≡ length (bytes header.now)) }
{
    let mut options = HeaderOptions::of(header);
    'options: while let Some(_) = options.next() {}
    options.malformed()
}

/// Returns the address of a routing header whose index is the number of segments left, if there is one: in a header of type
/// 4 that of the active segment (RFC 8754, section 4.1).
pub fn address_at_segments_left(
    header: &Ipv6RawExtHeaderSlice<'_>,
    destination: &[u8; 16],
) -> Option<[u8; 16]>
    ensures some { IfSome result (λ a. (x : AddressLayout) × IsLayout (bytes header.now) x
        × (segments_left (bytes header.now) < x.count) × (a ≡ expanded destination.now
        (address x (bytes header.now) (segments_left (bytes header.now))))) }
    ensures none { IfNone result (((x : AddressLayout) → IsLayout (bytes header.now) x → ⊥)
        ⊎ ((x : AddressLayout) × IsLayout (bytes header.now) x
        × (x.count ≤ segments_left (bytes header.now)))) }
{
    let Some(addresses) = RoutingAddresses::of(header) else {
        return None;
    };
    match addresses.get(usize::from(segments_left(header))) {
        Some(address) => Some(address.expanded(destination)),
        None => None,
    }
}

/// Returns whether an address of a routing header lacks its first bytes, if the header has addresses.
pub fn has_compressed_address(header: &Ipv6RawExtHeaderSlice<'_>) -> Option<bool>
    ensures { IfSome result (λ found. (x : AddressLayout) × IsLayout (bytes header.now) x × (found
        ≡ list_any (λ a. nat_lt (length a) 16) (addresses_from x (bytes header.now) 0 x.count))) }
{
    let addresses = RoutingAddresses::of(header)?;
    'addresses: for address in addresses {
        if address.suffix().len() < 16 {
            return Some(true);
        }
    }
    Some(false)
}

/// Returns the last address of a routing header, if there is one. The header and the layout are the same after all addresses
/// were returned.
pub fn last_address(header: &Ipv6RawExtHeaderSlice<'_>, destination: &[u8; 16]) -> Option<[u8; 16]>
    ensures some { IfSome result (λ a. (x : AddressLayout) × IsLayout (bytes header.now) x
        × (a ≡ expanded destination.now (address x (bytes header.now) (x.count - 1)))) }
    ensures none { IfNone result ((x : AddressLayout) → IsLayout (bytes header.now) x → ⊥) }
{
    let mut addresses = RoutingAddresses::of(header)?;
    'addresses: while let Some(_) = addresses.next() {}
    let last = addresses.get(addresses.layout().count - 1)?;
    Some(last.expanded(destination))
}
