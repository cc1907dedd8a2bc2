//! Packets whose reserved bits are cleared.
ghost use Rattle.std.specs.Prelude.{◌≡◌, ◌≤◌, ◌<◌, ◌+◌, ◌++◌, ◌==◌, ◌||◌, ◌↔◌, ℕ, List, length, drop, take, true, false, IfOk, OnErr};
ghost use Rattle.std.specs.List.{list_any};
ghost use Rattle.std.specs.Result.{result_err};
ghost use Rattle.std.proofs.Common.{rules};
ghost use Rattle.ip_spec.specs.Header.{IsHeader};
ghost use Rattle.ip_spec.specs.Chain.{ExtHeader};
ghost use Rattle.ip_spec.specs.Encoding.{cleared_header, cleared_chain};
ghost use Rattle.ip_dissect.specs.Dissection.{DissectedParts, dissected};
ghost use Rattle.ip_dissect.specs.Fragment.{fragments};
ghost use Rattle.ip_rewrite.specs.Rewritten.{rewritten, rewritten_len, rewritten_parts};
ghost use Rattle.ip_rewrite.specs.Without.{is_authentication, is_ipv4_fragment};
ghost use Rattle.ip_rewrite.specs.Clearing.{has_reserved, reserved_fragmented, reserved_covered, reserved_fault, clearing_fault};

use crate::header::fragments;
use crate::rewriting::write_requested;
use crate::{Authentication, Request, RewriteError, Rewritten};
use ip_base::{IpNumber, ip_number};
use ip_dissect::{HeaderVisitor, Packet};

/// What was seen of the reserved bits of a packet's headers.
#[derive(Clone, Copy, Debug, Default)]
pub(crate) struct Reserved {
    /// There is an authentication header.
    has_authentication: bool,
    /// What follows is fragmented.
    is_fragmented: bool,
    /// Some bit is 1.
    pub(crate) is_set: bool,
    /// Some bit is 1 in a header that is fragmented.
    is_set_fragmented: bool,
    /// Some bit is 1 in a header that an authentication header covers.
    is_set_covered: bool,
}

impl HeaderVisitor for Reserved {
    ghost visited = { λ old k c new.
        (new.has_authentication ≡ (old.has_authentication || list_any is_authentication c))
        × (new.is_fragmented ≡ (old.is_fragmented || list_any fragments c))
        × (new.is_set ≡ (old.is_set || list_any has_reserved c))
        × (new.is_set_fragmented ≡ (old.is_set_fragmented || reserved_fragmented old.is_fragmented c))
        × (new.is_set_covered ≡ (old.is_set_covered || reserved_covered old.has_authentication c)) };

    ghost none = { λ v k. Prim.search rules };

    #[inline(always)]
    fn visit(&mut self, number: IpNumber, header: &[u8], _index: usize, _offset: usize) {
        let is_set = has_reserved(number, header);
        self.has_authentication |= number == ip_number::AUTH;
        self.is_set |= is_set;
        self.is_set_fragmented |= self.is_fragmented & is_set;
        self.is_set_covered |= self.has_authentication & is_set;
        self.is_fragmented |= fragments(number, header);
    }
}

/// Returns whether a reserved bit of a header is 1.
#[inline(always)]
fn has_reserved(number: IpNumber, header: &[u8]) -> bool
    requires { IsHeader number.0 header.now }
    ensures { (h : ExtHeader) → h ≡ record { number = number.0; bytes = header.now }
        → result ≡ has_reserved h }
{
    if number == ip_number::IPV6_FRAG {
        return header[1] != 0 || header[3] & 0xf9 != header[3];
    }
    number == ip_number::AUTH && (header[2] != 0 || header[3] != 0)
}

/// Clears the reserved bits of a header at the start of bytes (RFC 8200, section 4.5; RFC 4302, section 2.3).
#[inline(always)]
fn clear(number: IpNumber, bytes: &mut [u8])
    requires { 4 ≤ length bytes.old }
    ensures { bytes.new ≡ cleared_header number.0 bytes.old }
{
    if number == ip_number::IPV6_FRAG {
        bytes[1] = 0;
        bytes[3] &= 0xf9;
    } else if number == ip_number::AUTH {
        bytes[2] = 0;
        bytes[3] = 0;
    }
}

/// Clears the reserved bits of the header of this number at an offset of a buffer.
#[inline(always)]
pub(crate) fn clear_at(number: IpNumber, offset: usize, out: &mut [u8])
    ensures { (f b r : List ℕ) → IsHeader number.0 b → offset ≡ length f → out.old ≡ f ++ b ++ r
        → out.new ≡ f ++ cleared_header number.0 b ++ r }
{
    if out.len().saturating_sub(offset) >= 4 {
        let (_, rest) = out.split_at_mut(offset);
        clear(number, rest);
    }
}

/// Returns why the reserved bits can't be cleared.
#[inline(always)]
pub(crate) fn test_reserved(
    is_fragment: bool,
    reserved: &Reserved,
    authentication: Authentication,
) -> Result<(), RewriteError>
    ensures { (p : DissectedParts) → is_fragment ≡ is_ipv4_fragment p
        → reserved.now.is_set ≡ list_any has_reserved p.headers
        → reserved.now.is_set_fragmented ≡ reserved_fragmented false p.headers
        → reserved.now.is_set_covered ≡ reserved_covered false p.headers
        → result_err result ≡ reserved_fault authentication p }
{
    if is_fragment & reserved.is_set | reserved.is_set_fragmented {
        return Err(RewriteError::Fragmented);
    }
    if reserved.is_set_covered && authentication == Authentication::Valid {
        return Err(RewriteError::Authenticated);
    }
    Ok(())
}

/// Returns whether a reserved bit of an extension header is 1 (RFC 8200, section 4.5; RFC 4302, section 2.3): whether
/// `clear_reserved_bits` would change a header. If the headers end with an error, those before it count.
#[tactic(auto, using(crate::proofs::ReservedLemmas::unchanged))]
pub fn has_reserved_bits(packet: &[u8]) -> bool
    ensures found { result ≡ list_any has_reserved (dissected packet.now).headers }
    ensures unchanged { let c = (dissected packet.now).headers in result ≡ false ↔ (cleared_chain c ≡ c) }
{
    let mut reserved = Reserved::default();
    Packet::walk(packet, &mut reserved);
    reserved.is_set
}

/// Writes a packet to the front of `out` with the reserved bits of its extension headers set to zero (RFC 8200,
/// section 4.5; RFC 4302, section 2.3), and nothing else changed.
#[tactic(auto, using(crate::proofs::ClearingLemmas::cleared_len))]
pub fn clear_reserved_bits(
    packet: &[u8],
    authentication: Authentication,
    out: &mut [u8],
) -> Result<Rewritten, RewriteError>
    ensures fault { result_err result
        ≡ clearing_fault authentication (dissected packet.now) (length out.old) }
    ensures len { IfOk result (λ r. let p = dissected packet.now in
        r.len ≡ rewritten_len p (cleared_chain p.headers) p.payload) }
    ensures checksums { IfOk result (λ r. r.keeps_checksums ≡ true) }
    ensures written { IfOk result (λ r. let p = dissected packet.now in
        out.new ≡ rewritten p (cleared_chain p.headers) p.number p.payload ++ drop r.len out.old) }
    ensures dissects { IfOk result (λ r. let p = dissected packet.now in
        dissected (take r.len out.new) ≡ rewritten_parts p (cleared_chain p.headers) p.number p.payload) }
    ensures stays { OnErr result (out.new ≡ out.old) }
{
    write_requested(packet, Request::clearing(authentication), out)
}
