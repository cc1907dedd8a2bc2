//! Jumbograms: IPv6 packets whose length is stated in an option (RFC 2675).
ghost use Rattle.std.specs.Prelude.{◌≡◌, ◌≤◌, ◌+◌, ◌++◌, ◌∷◌, ℕ, List, None, length, drop, refl, IfSome};
ghost use Rattle.std.specs.Result.{result_err};
ghost use Rattle.ip_spec.specs.Header.{IsHeader};
ghost use Rattle.ip_spec.specs.Chain.{ExtHeader, bytes_of};
ghost use Rattle.ip_header_contents.specs.Options.{option_bytes, options_in};
ghost use Rattle.ip_dissect.specs.Dissection.{dissected};
ghost use Rattle.ip_rewrite.specs.Jumbogram.{jumbo_payload, only_jumbo_payload, stating_offset, jumbo_offset, stating_at};
ghost use Rattle.ip_rewrite.specs.Rewritten.{joined, jumbo_fault, unstated_fault};
ghost use Rattle.ip_rewrite.specs.Writing.{HasOption};

use crate::RewriteError;
use crate::buffer::put_at;
use ip_base::{IpNumber, ip_number};
use ip_dissect::{HeaderVisitor, Packet};
use ip_header_contents::option_at;

/// The type of the jumbo payload option (RFC 2675, section 2).
const JUMBO_PAYLOAD: u8 = 0xc2;

/// Where the first header states the length of a packet.
#[derive(Clone, Copy, Debug)]
struct Jumbo {
    /// How many bytes follow the base header.
    len: usize,
    /// The offset of the option in the first header, if that states this length.
    offset: Option<usize>,
}

impl HeaderVisitor for Jumbo {
    ghost visited = { λ old k c new. (new.len ≡ old.len)
        × (old.offset ≡ None → new.offset ≡ stating_offset old.len c) };

    ghost none = { λ v k. (refl, λ is. is) };

    #[inline(always)]
    fn visit(&mut self, number: IpNumber, header: &[u8], index: usize, _offset: usize) {
        if index == 0 && number == ip_number::IPV6_HOP_BY_HOP {
            self.offset = offset_stating(header, self.len);
        }
    }
}

/// Returns the jumbo payload option that states a length (RFC 2675, section 2).
#[inline(always)]
fn jumbo_payload(len: usize) -> [u8; 6]
    ensures { result ≡ option_bytes (jumbo_payload len) }
{
    [
        JUMBO_PAYLOAD,
        4,
        (len / 0x100_0000 % 256) as u8,
        (len / 0x1_0000 % 256) as u8,
        (len / 256 % 256) as u8,
        (len % 256) as u8,
    ]
}

/// Returns the offset of the only jumbo payload option of a header with hop-by-hop options.
fn only_jumbo_payload(header: &[u8]) -> Option<usize>
    requires { 2 ≤ length header.now }
    ensures only { result ≡ only_jumbo_payload 2 (options_in (drop 2 header.now)) }
    ensures within { IfSome result (λ k. k ≤ length header.now) }
{
    let mut found = None;
    let mut offset = 2;
    'options: while let Some(option) = option_at(&header[offset..]) {
        if option.option_type == JUMBO_PAYLOAD {
            if found.is_some() {
                return None;
            }
            found = Some(offset);
        }
        offset += option.encoded_len();
    }
    found
}

/// Returns the offset of the jumbo payload option of a header with hop-by-hop options, if that states this length.
fn offset_stating(header: &[u8], len: usize) -> Option<usize>
    requires { IsHeader 0 header.now }
    ensures { (h : ExtHeader) (c : List ExtHeader) → h.number ≡ 0 → h.bytes ≡ header.now
        → result ≡ stating_offset len (h ∷ c) }
{
    let offset = only_jumbo_payload(header)?;
    let stating = jumbo_payload(len);
    if header[offset..].starts_with(&stating) {
        Some(offset)
    } else {
        None
    }
}

/// Returns the offset of the jumbo payload option in the first header of a packet, if the packet is a jumbogram.
#[cold]
#[inline(never)]
pub(crate) fn jumbo_offset(packet: &Packet<'_>) -> Option<usize>
    ensures { result ≡ jumbo_offset (dissected packet.now.bytes.now) }
{
    let summary = &packet.summary;
    let len = summary.extensions_len + summary.payload_len;
    if summary.stated_len.is_some() || summary.fragment.is_some() {
        return None;
    }
    if len <= 0xffff || len >= 0x1_0000_0000 {
        return None;
    }
    let mut jumbo = Jumbo { len, offset: None };
    Packet::walk(packet.bytes, &mut jumbo);
    jumbo.offset
}

/// Returns why a change can't be made after which a jumbogram would be none, if `ends` is true.
#[inline(always)]
pub(crate) fn test_jumbogram(packet: &Packet<'_>, ends: bool) -> Result<(), RewriteError>
    ensures { result_err result ≡ jumbo_fault ends (dissected packet.now.bytes.now) }
{
    if ends && packet.summary.stated_len.is_none() && jumbo_offset(packet).is_some() {
        return Err(RewriteError::NotAJumbogram);
    }
    Ok(())
}

/// Returns why a packet whose length field is 0 can't have `len` bytes after its base header.
#[cold]
#[inline(never)]
pub(crate) fn test_unstated(packet: &Packet<'_>, len: usize) -> Result<(), RewriteError>
    ensures { result_err result ≡ unstated_fault (dissected packet.now.bytes.now) len }
{
    let summary = &packet.summary;
    if jumbo_offset(packet).is_none() {
        if len == summary.extensions_len + summary.payload_len {
            return Ok(());
        }
        return Err(RewriteError::NoLength);
    }
    if len <= 0xffff {
        return Err(RewriteError::NotAJumbogram);
    }
    if len >= 0x1_0000_0000 {
        return Err(RewriteError::TooLong);
    }
    Ok(())
}

/// States the length of a jumbogram in its option, at the front of a buffer: `len` bytes follow its base header.
#[cold]
#[inline(never)]
pub(crate) fn state_jumbo(packet: &Packet<'_>, len: usize, out: &mut [u8])
    ensures { (c : List ExtHeader) (m : ℕ) (q rest : List ℕ) → let p = dissected packet.now.bytes.now in
        HasOption (jumbo_offset p) c → len ≡ length (bytes_of c) + length q
        → out.old ≡ joined p c m q ++ rest
        → out.new ≡ joined p (stating_at (jumbo_offset p) len c) m q ++ rest }
{
    if let Some(offset) = jumbo_offset(packet) {
        let option = jumbo_payload(len);
        put_at(out, packet.summary.base_len + offset, &option);
    }
}
