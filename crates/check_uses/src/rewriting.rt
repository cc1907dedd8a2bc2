//! Callers of the calls that write packets with other extension headers.
ghost use Rattle.std.specs.Prelude.{◌≡◌, ◌↔◌, take, IfOk, IfSome, IfNone, IsTrue, OnErr, None};
ghost use Rattle.ip_spec.specs.Encoding.{cleared_chain};
ghost use Rattle.ip_dissect.specs.Dissection.{dissected};
ghost use Rattle.ip_rewrite.specs.Order.{in_order};

use ip_base::ip_number;
use ip_rewrite::{
    Authentication, HeaderSet, Request, RewriteError, Which, clear_reserved_bits,
    has_reserved_bits, in_order, is_in_order, recommended_index, remove_header, rewrite,
    with_header,
};

/// Writes the packet without its first extension header to `out`, unless an authentication header covers it, and returns its
/// length in bytes. What follows the headers is the same.
pub fn without_first(packet: &[u8], out: &mut [u8]) -> Option<usize>
    ensures number { IfSome result (λ len. (dissected (take len out.new)).number ≡ (dissected packet.now).number) }
    ensures payload { IfSome result (λ len. (dissected (take len out.new)).payload ≡ (dissected packet.now).payload) }
    ensures stays { IfNone result (out.new ≡ out.old) }
{
    match remove_header(packet, Which::Index(0), Authentication::Valid, out) {
        Ok(written) => Some(written.len),
        Err(_) => None,
    }
}

/// Writes the packet with reserved bits zero to `out`, and returns its length in bytes. Its payload is the same.
pub fn with_zero_bits(packet: &[u8], out: &mut [u8]) -> Option<usize>
    ensures payload { IfSome result (λ len. (dissected (take len out.new)).payload ≡ (dissected packet.now).payload) }
    ensures stays { IfNone result (out.new ≡ out.old) }
{
    match clear_reserved_bits(packet, Authentication::Valid, out) {
        Ok(written) => Some(written.len),
        Err(_) => None,
    }
}

/// Writes the packet with destination options, at the place that RFC 8200, section 4.1, recommends, to `out`, and returns its
/// length in bytes. Its payload is the same, and transport checksums hold as before.
pub fn with_options(packet: &[u8], options: &[u8], out: &mut [u8]) -> Option<usize>
    ensures payload { IfSome result (λ len. (dissected (take len out.new)).payload ≡ (dissected packet.now).payload) }
    ensures stays { IfNone result (out.new ≡ out.old) }
{
    let number = ip_number::IPV6_DEST_OPTIONS;
    let index = recommended_index(packet, number);
    match with_header(packet, number, options, index, Authentication::Valid, out) {
        Ok(written) => Some(written.len),
        Err(_) => None,
    }
}

/// Writes the packet with its headers in the recommended order to `out`, and returns its length in bytes, which is that of the
/// packet. Its payload is the same.
pub fn ordered(packet: &[u8], out: &mut [u8]) -> Option<usize>
    ensures payload { IfSome result (λ len. (dissected (take len out.new)).payload ≡ (dissected packet.now).payload) }
    ensures stays { IfNone result (out.new ≡ out.old) }
{
    match in_order(packet, Authentication::Valid, out) {
        Ok(written) => Some(written.len),
        Err(_) => None,
    }
}

/// Returns whether neither `clear_reserved_bits` nor `in_order` would change an extension header of the packet.
pub fn is_normal(packet: &[u8]) -> bool
    ensures { let c = (dissected packet.now).headers in
        IsTrue result ↔ ((cleared_chain c ≡ c) × (in_order c ≡ c)) }
{
    !has_reserved_bits(packet) && is_in_order(packet)
}

/// Writes the packet without hop-by-hop options and routing headers, and with the others cleared and in order, to `out`, and
/// returns its length in bytes, or `None` if it is so already. Its payload is the same.
pub fn normalized(packet: &[u8], out: &mut [u8]) -> Result<Option<usize>, RewriteError>
    ensures payload { IfOk result (λ o. IfSome o (λ len.
        (dissected (take len out.new)).payload ≡ (dissected packet.now).payload)) }
    ensures unchanged { IfOk result (λ o. o ≡ None → out.new ≡ out.old) }
    ensures stays { OnErr result (out.new ≡ out.old) }
{
    let without = HeaderSet {
        hop_by_hop: true,
        routing: true,
        ..HeaderSet::default()
    };
    let request = Request {
        without: Which::Headers(without),
        clears: true,
        orders: true,
        authentication: Authentication::Valid,
    };
    match rewrite(packet, request, out)? {
        Some(written) => Ok(Some(written.len)),
        None => Ok(None),
    }
}
