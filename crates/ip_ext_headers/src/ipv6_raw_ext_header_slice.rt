//! A header in the uniform format (RFC 6564), borrowed.
ghost use Rattle.std.specs.Prelude.{◌≡◌, ◌≤◌, ◌↔◌, ◌⊎◌, ℕ, List, length, IfOk, IfErr, IsTrue};
ghost use Rattle.ip_spec.specs.Numbers.{HOP_BY_HOP, ROUTING, DESTINATION_OPTIONS};
ghost use Rattle.ip_base.specs.Prefix.{IsPrefix};
ghost use Rattle.ip_spec.specs.Header.{IsRawHeader};
ghost use Rattle.ip_spec.specs.Fields.{next_header, raw_fields};

use crate::Ipv6RawExtHeader;
use ip_base::err::{Layer, LenError};
use ip_base::{IpNumber, ip_number};
use std::alloc::AllocError;

/// The name of this type in earlier versions of the interface.
#[deprecated(note = "use `Ipv6RawExtHeaderSlice`")]
pub type Ipv6RawExtensionHeaderSlice<'a> = Ipv6RawExtHeaderSlice<'a>;

/// An IPv6 header in the uniform format (RFC 6564): hop-by-hop options, routing or destination options (RFC 8200,
/// sections 4.3, 4.4, 4.6), borrowed from the caller's bytes. Two are equal if their bytes are.
#[derive(Debug, Drop)]
pub struct Ipv6RawExtHeaderSlice<'a> {
    slice: &'a [u8],
    pub ghost header: { IsRawHeader slice.now },
    pub ghost few: { length slice.now ≤ 2048 },
}

impl<'a> Ipv6RawExtHeaderSlice<'a> {
    ghost use Rattle.ip_base.specs.declared.len_source.LenSource.TheVariants.{Slice};
    ghost use Rattle.ip_ext_headers.specs.HeaderFault.{raw_fault};
    ghost use Rattle.ip_ext_headers.specs.Ipv6RawExtHeaderSlice.{bytes};

    /// Returns whether headers of this number have the uniform format: hop-by-hop options, routing, destination
    /// options, mobility, Host Identity Protocol and Shim6.
    pub fn header_type_supported(next_header: IpNumber) -> bool
        ensures { IsTrue result ↔ ((next_header.0 ≡ HOP_BY_HOP) ⊎ ((next_header.0 ≡ ROUTING)
            ⊎ ((next_header.0 ≡ DESTINATION_OPTIONS) ⊎ ((next_header.0 ≡ 135)
            ⊎ ((next_header.0 ≡ 139) ⊎ (next_header.0 ≡ 140)))))) }
    {
        matches!(
            next_header,
            ip_number::IPV6_HOP_BY_HOP
                | ip_number::IPV6_ROUTE
                | ip_number::IPV6_DEST_OPTIONS
                | ip_number::MOBILITY
                | ip_number::HIP
                | ip_number::SHIM6
        )
    }

    /// Parses the header at the start of `slice`. Returns an error if there are fewer than 8 bytes, or fewer than the
    /// header's own length.
    pub fn from_slice(slice: &'a [u8]) -> Result<Ipv6RawExtHeaderSlice<'a>, LenError>
        ensures prefix { IfOk result (λ h. IsPrefix (bytes h) slice.now) }
        ensures header { IfOk result (λ h. IsRawHeader (bytes h)) }
        ensures none { IfErr result (λ _. (b : List ℕ) → IsRawHeader b → IsPrefix b slice.now → ⊥) }
        ensures fault { IfErr result (λ e.
            raw_fault Slice (length slice.now) 0 slice.now ≡ Some e) }
    {
        if slice.len() < 8 {
            return Err(LenError::slice_too_short(slice, Layer::Ipv6ExtHeader, 8));
        }
        let len = (usize::from(slice[1]) + 1) * 8;
        if slice.len() < len {
            return Err(LenError::slice_too_short(slice, Layer::Ipv6ExtHeader, len));
        }
        Ok(Ipv6RawExtHeaderSlice {
            slice: &slice[..len],
        })
    }

    /// Returns the header's bytes, 8 to 2048.
    pub fn slice(&self) -> &'a [u8]
        ensures bytes { result.now ≡ bytes self.now }
        ensures header { IsRawHeader result.now }
        ensures few { length result.now ≤ 2048 }
    {
        self.slice
    }

    /// Returns the next header field.
    pub fn next_header(&self) -> IpNumber
        ensures { result.0 ≡ next_header (bytes self.now) }
    {
        IpNumber(self.slice[0])
    }

    /// Returns the bytes after the next header and length fields, 6 to 2046.
    pub fn payload(&self) -> &'a [u8]
        ensures { result.now ≡ (raw_fields (bytes self.now)).payload }
    {
        &self.slice[2..]
    }

    /// Returns the header as an owned value.
    pub fn to_header(&self) -> Ipv6RawExtHeader
        ensures { result ≡ raw_fields (bytes self.now) }
    {
        Ipv6RawExtHeader::with_payload(self.next_header(), self.payload())
    }

    /// Sets `header` to this header, in its place. A larger value that contains it, such as six places, isn't moved, as
    /// it is if the header of `to_header` is assigned.
    #[inline(always)]
    pub fn copy_to(&self, header: &mut Ipv6RawExtHeader)
        ensures { header.new ≡ raw_fields (bytes self.now) }
    {
        header.next_header = self.next_header();
        header.set_in_place(self.payload());
    }
}

impl<'a> Clone for Ipv6RawExtHeaderSlice<'a> {
    ghost use Rattle.std.specs.Prelude.{⊤};
    ghost use Rattle.ip_ext_headers.specs.Ipv6RawExtHeaderSlice.{bytes};

    ghost is_clone = { λ h copy. bytes copy ≡ bytes h };

    ghost is_infallible = { λ _. ⊤ };

    fn clone(&self) -> Result<Ipv6RawExtHeaderSlice<'a>, AllocError> {
        Ok(Ipv6RawExtHeaderSlice { slice: self.slice })
    }
}

impl PartialEq for Ipv6RawExtHeaderSlice<'_> {
    ghost use Rattle.std.specs.Prelude.{◌↔◌, IsTrue, nat_eq};
    ghost use Rattle.std.specs.Ordering.{on};
    ghost use Rattle.std.specs.Cmp.Lexicographic.{pointwise};
    ghost use Rattle.std.specs.Cmp.Rules.{comparing};
    ghost use Rattle.std.proofs.Common.{rules};
    ghost use Rattle.ip_ext_headers.specs.Ipv6RawExtHeaderSlice.{bytes};

    ghost eq = { on bytes (pointwise nat_eq) };

    ghost laws = { Prim.search (comparing, rules) };

    fn eq(&self, other: &Self) -> bool
        ensures answer { result ≡ on bytes (pointwise nat_eq) self.now other.now }
        ensures same { IsTrue result ↔ (bytes self.now ≡ bytes other.now) }
    {
        self.slice == other.slice
    }
}

impl Eq for Ipv6RawExtHeaderSlice<'_> {
    ghost use Rattle.std.specs.Cmp.Rules.{comparing};
    ghost use Rattle.std.proofs.Common.{rules};

    ghost laws = { Prim.search (comparing, rules) };
}
