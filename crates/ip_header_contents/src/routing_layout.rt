//! Where the addresses of a routing header are.
ghost use Rattle.std.specs.Prelude.{◌≡◌, ◌≤◌, length, IfSome, IfNone};
ghost use Rattle.ip_ext_headers.specs.Ipv6RawExtHeaderSlice.{bytes};
ghost use Rattle.ip_header_contents.specs.Routing.{routing_type, segments_left};
ghost use Rattle.ip_header_contents.specs.Routing.{IsLayout, IsCompressedLayout, IsSegmentLayout};
ghost use Rattle.ip_header_contents.specs.declared.routing_layout.AddressLayout.{AddressLayout};

use ip_ext_headers::Ipv6RawExtHeaderSlice;

/// Returns the type of a routing header (RFC 8200, section 4.4).
#[inline(always)]
pub fn routing_type(header: &Ipv6RawExtHeaderSlice<'_>) -> u8
    ensures { result ≡ routing_type (bytes header.now) }
{
    header.slice()[2]
}

/// Returns how many segments a routing header has left: the nodes that are still to be visited (RFC 8200, section 4.4).
#[inline(always)]
pub fn segments_left(header: &Ipv6RawExtHeaderSlice<'_>) -> u8
    ensures { result ≡ segments_left (bytes header.now) }
{
    header.slice()[3]
}

/// Where the addresses of a routing header are: one after another, from offset 8 on.
#[derive(Clone, Copy, Debug, PartialEq, Eq)]
pub struct AddressLayout {
    /// The number of addresses.
    pub count: usize,
    /// The length of each address but the last one, in bytes.
    pub len: usize,
    /// The length of the last address in bytes.
    pub last_len: usize,
}

/// Returns where the addresses of a routing header are. Returns `None` if its type isn't 2 (RFC 6275, section 6.4),
/// 3 (RFC 6554, section 3) or 4 (RFC 8754, section 2), or if its fields don't fit its length.
pub fn address_layout(header: &Ipv6RawExtHeaderSlice<'_>) -> Option<AddressLayout>
    ensures some { IfSome result (λ x. IsLayout (bytes header.now) x) }
    ensures none { IfNone result ((x : AddressLayout) → IsLayout (bytes header.now) x → ⊥) }
{
    let bytes = header.slice();
    match bytes[2] {
        2 if bytes.len() == 24 => Some(AddressLayout {
            count: 1,
            len: 16,
            last_len: 16,
        }),
        3 => compressed_layout(bytes),
        4 => segment_layout(bytes),
        _ => None,
    }
}

/// Returns where the addresses of a routing header of type 3 are.
fn compressed_layout(bytes: &[u8]) -> Option<AddressLayout>
    requires { 8 ≤ length bytes.now }
    ensures some { IfSome result (λ x. IsCompressedLayout bytes.now x) }
    ensures none { IfNone result ((x : AddressLayout) → IsCompressedLayout bytes.now x → ⊥) }
{
    let len = 16 - usize::from(bytes[4] / 16);
    let last_len = 16 - usize::from(bytes[4] % 16);
    let padding = usize::from(bytes[5] / 16);
    let left = bytes.len() - 8;
    if left < last_len + padding {
        return None;
    }
    let left = left - last_len - padding;
    if left % len != 0 {
        return None;
    }
    Some(AddressLayout {
        count: left / len + 1,
        len,
        last_len,
    })
}

/// Returns where the addresses of a routing header of type 4 are.
fn segment_layout(bytes: &[u8]) -> Option<AddressLayout>
    requires { 8 ≤ length bytes.now }
    ensures some { IfSome result (λ x. IsSegmentLayout bytes.now x) }
    ensures none { IfNone result ((x : AddressLayout) → IsSegmentLayout bytes.now x → ⊥) }
{
    let last = usize::from(bytes[4]);
    if bytes.len() - 8 < 16 * last + 16 {
        return None;
    }
    Some(AddressLayout {
        count: last + 1,
        len: 16,
        last_len: 16,
    })
}
