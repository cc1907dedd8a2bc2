//! A fragment header (RFC 8200, section 4.5), borrowed.
ghost use Rattle.std.specs.Prelude.{◌≡◌, ℕ, List, IfOk, IfErr, length};
ghost use Rattle.ip_base.specs.Prefix.{IsPrefix};
ghost use Rattle.ip_spec.specs.Header.{IsFragmentHeader};
ghost use Rattle.ip_spec.specs.Fields.{next_header, is_fragmenting, fragment_fields};

use crate::Ipv6FragmentHeader;
use crate::fragment_bits::{unpack_flag, unpack_offset};
use ip_base::err::{Layer, LenError};
use ip_base::{IpFragOffset, IpNumber};
use std::alloc::AllocError;

/// An IPv6 fragment header (RFC 8200, section 4.5), borrowed from the caller's bytes. Two are equal if their bytes
/// are.
#[derive(Debug, Drop)]
pub struct Ipv6FragmentHeaderSlice<'a> {
    slice: &'a [u8],
    pub ghost header: { IsFragmentHeader slice.now },
}

impl<'a> Ipv6FragmentHeaderSlice<'a> {
    ghost use Rattle.ip_base.specs.declared.len_source.LenSource.TheVariants.{Slice};
    ghost use Rattle.ip_ext_headers.specs.HeaderFault.{fragment_fault};
    ghost use Rattle.ip_ext_headers.specs.Ipv6FragmentHeaderSlice.{bytes};

    /// Parses the header at the start of `slice`. Returns an error if there are fewer than 8 bytes.
    pub fn from_slice(slice: &'a [u8]) -> Result<Ipv6FragmentHeaderSlice<'a>, LenError>
        ensures prefix { IfOk result (λ h. IsPrefix (bytes h) slice.now) }
        ensures header { IfOk result (λ h. IsFragmentHeader (bytes h)) }
        ensures none { IfErr result (λ _. (b : List ℕ)
            → IsFragmentHeader b → IsPrefix b slice.now → ⊥) }
        ensures fault { IfErr result (λ e.
            fragment_fault Slice (length slice.now) 0 slice.now ≡ Some e) }
    {
        if slice.len() < 8 {
            return Err(LenError::slice_too_short(slice, Layer::Ipv6FragHeader, 8));
        }
        Ok(Ipv6FragmentHeaderSlice { slice: &slice[..8] })
    }

    /// Returns the header's 8 bytes.
    pub fn slice(&self) -> &'a [u8]
        ensures bytes { result.now ≡ bytes self.now }
        ensures header { IsFragmentHeader result.now }
    {
        self.slice
    }

    /// Returns the next header field.
    pub fn next_header(&self) -> IpNumber
        ensures { result.0 ≡ next_header (bytes self.now) }
    {
        IpNumber(self.slice[0])
    }

    /// Returns the fragment offset, in units of 8 bytes.
    pub fn fragment_offset(&self) -> IpFragOffset
        ensures { result ≡ (fragment_fields (bytes self.now)).fragment_offset }
    {
        unpack_offset(self.slice[2], self.slice[3])
    }

    /// Returns whether more fragments follow.
    pub fn more_fragments(&self) -> bool
        ensures { result ≡ (fragment_fields (bytes self.now)).more_fragments }
    {
        unpack_flag(self.slice[3])
    }

    /// Returns the identification, equal in all fragments of a packet.
    pub fn identification(&self) -> u32
        ensures { result ≡ (fragment_fields (bytes self.now)).identification }
    {
        u32::from_be_bytes([self.slice[4], self.slice[5], self.slice[6], self.slice[7]])
    }

    /// Returns whether the packet is a fragment: more fragments follow, or the fragment offset isn't 0.
    pub fn is_fragmenting_payload(&self) -> bool
        ensures { result ≡ is_fragmenting (bytes self.now) }
    {
        // Written without a branch: in a flood of fragments a branch on the flag couldn't be predicted.
        self.more_fragments() | (self.fragment_offset().value() != 0)
    }

    /// Returns the header as an owned value.
    pub fn to_header(&self) -> Ipv6FragmentHeader
        ensures { result ≡ fragment_fields (bytes self.now) }
    {
        Ipv6FragmentHeader {
            next_header: self.next_header(),
            fragment_offset: self.fragment_offset(),
            more_fragments: self.more_fragments(),
            identification: self.identification(),
        }
    }
}

impl<'a> Clone for Ipv6FragmentHeaderSlice<'a> {
    ghost use Rattle.std.specs.Prelude.{⊤};
    ghost use Rattle.ip_ext_headers.specs.Ipv6FragmentHeaderSlice.{bytes};

    ghost is_clone = { λ h copy. bytes copy ≡ bytes h };

    ghost is_infallible = { λ _. ⊤ };

    fn clone(&self) -> Result<Ipv6FragmentHeaderSlice<'a>, AllocError> {
        Ok(Ipv6FragmentHeaderSlice { slice: self.slice })
    }
}

impl PartialEq for Ipv6FragmentHeaderSlice<'_> {
    ghost use Rattle.std.specs.Prelude.{◌↔◌, IsTrue, nat_eq};
    ghost use Rattle.std.specs.Ordering.{on};
    ghost use Rattle.std.specs.Cmp.Lexicographic.{pointwise};
    ghost use Rattle.std.specs.Cmp.Rules.{comparing};
    ghost use Rattle.std.proofs.Common.{rules};
    ghost use Rattle.ip_ext_headers.specs.Ipv6FragmentHeaderSlice.{bytes};

    ghost eq = { on bytes (pointwise nat_eq) };

    ghost laws = { Prim.search (comparing, rules) };

    fn eq(&self, other: &Self) -> bool
        ensures answer { result ≡ on bytes (pointwise nat_eq) self.now other.now }
        ensures same { IsTrue result ↔ (bytes self.now ≡ bytes other.now) }
    {
        self.slice == other.slice
    }
}

impl Eq for Ipv6FragmentHeaderSlice<'_> {
    ghost use Rattle.std.specs.Cmp.Rules.{comparing};
    ghost use Rattle.std.proofs.Common.{rules};

    ghost laws = { Prim.search (comparing, rules) };
}
