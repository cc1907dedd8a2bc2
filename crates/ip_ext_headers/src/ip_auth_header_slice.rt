//! An authentication header (RFC 4302, section 2), borrowed.
ghost use Rattle.std.specs.Prelude.{◌≡◌, ◌≤◌, ℕ, List, length, IfOk, IfErr};
ghost use Rattle.ip_base.specs.Prefix.{IsPrefix};
ghost use Rattle.ip_spec.specs.Header.{IsAuthHeader};
ghost use Rattle.ip_spec.specs.Fields.{next_header, auth_fields};

use crate::IpAuthHeader;
use crate::auth_parts::AuthParts;
use crate::err::ip_auth::{HeaderError, HeaderSliceError};
use ip_base::IpNumber;
use ip_base::err::{Layer, LenError};

/// The name of this type in earlier versions of the interface.
#[deprecated(note = "use `IpAuthHeaderSlice`")]
pub type IpAuthenticationHeaderSlice<'a> = IpAuthHeaderSlice<'a>;

/// An authentication header (RFC 4302, section 2), borrowed from the caller's bytes. Two are equal if their bytes
/// are.
#[derive(Clone, Copy, Debug)]
pub struct IpAuthHeaderSlice<'a> {
    slice: &'a [u8],
    pub ghost header: { IsAuthHeader slice.now },
    pub ghost few: { length slice.now ≤ 1028 },
}

impl<'a> IpAuthHeaderSlice<'a> {
    ghost use Rattle.ip_base.specs.declared.len_source.LenSource.TheVariants.{Slice};
    ghost use Rattle.ip_ext_headers.specs.HeaderFault.{auth_fault};
    ghost use Rattle.ip_ext_headers.specs.IpAuthHeaderSlice.{bytes};

    /// Parses the header at the start of `slice`. Returns an error, in this order, if there are fewer than 12 bytes,
    /// if the payload length field is 0, or if there are fewer bytes than the header's own length.
    pub fn from_slice(slice: &'a [u8]) -> Result<IpAuthHeaderSlice<'a>, HeaderSliceError>
        ensures prefix { IfOk result (λ h. IsPrefix (bytes h) slice.now) }
        ensures header { IfOk result (λ h. IsAuthHeader (bytes h)) }
        ensures none { IfErr result (λ _. (b : List ℕ)
            → IsAuthHeader b → IsPrefix b slice.now → ⊥) }
        ensures fault { IfErr result (λ e.
            auth_fault Slice (length slice.now) 0 slice.now ≡ Some e) }
    {
        if slice.len() < 12 {
            return Err(HeaderSliceError::Len(LenError::slice_too_short(
                slice,
                Layer::IpAuthHeader,
                12,
            )));
        }
        if slice[1] == 0 {
            return Err(HeaderSliceError::Content(HeaderError::ZeroPayloadLen));
        }
        let len = (usize::from(slice[1]) + 2) * 4;
        if slice.len() < len {
            return Err(HeaderSliceError::Len(LenError::slice_too_short(
                slice,
                Layer::IpAuthHeader,
                len,
            )));
        }
        Ok(IpAuthHeaderSlice {
            slice: &slice[..len],
        })
    }

    /// Returns the header's bytes, 12 to 1028.
    pub fn slice(&self) -> &'a [u8]
        ensures bytes { result.now ≡ bytes self.now }
        ensures header { IsAuthHeader result.now }
        ensures few { length result.now ≤ 1028 }
    {
        self.slice
    }

    /// Returns the next header field.
    pub fn next_header(&self) -> IpNumber
        ensures { result.0 ≡ next_header (bytes self.now) }
    {
        IpNumber(self.slice[0])
    }

    /// Returns the security parameters index, by which the receiver identifies the security association.
    pub fn spi(&self) -> u32
        ensures { result ≡ (auth_fields (bytes self.now)).spi }
    {
        u32::from_be_bytes([self.slice[4], self.slice[5], self.slice[6], self.slice[7]])
    }

    /// Returns the sender's packet counter.
    pub fn sequence_number(&self) -> u32
        ensures { result ≡ (auth_fields (bytes self.now)).sequence_number }
    {
        u32::from_be_bytes([self.slice[8], self.slice[9], self.slice[10], self.slice[11]])
    }

    /// Returns the integrity check value with its padding, 0 to 1016 bytes.
    pub fn raw_icv(&self) -> &'a [u8]
        ensures { result.now ≡ (auth_fields (bytes self.now)).raw_icv }
    {
        &self.slice[12..]
    }

    /// Returns the header as an owned value.
    pub fn to_header(&self) -> IpAuthHeader
        ensures { result ≡ auth_fields (bytes self.now) }
    {
        IpAuthHeader::of_parts(AuthParts {
            next_header: self.next_header(),
            spi: self.spi(),
            sequence_number: self.sequence_number(),
            raw_icv: self.raw_icv(),
        })
    }

    /// Sets `header` to this header, in its place. A larger value that contains it isn't moved.
    #[inline(always)]
    pub fn copy_to(&self, header: &mut IpAuthHeader)
        ensures { header.new ≡ auth_fields (bytes self.now) }
    {
        header.next_header = self.next_header();
        header.spi = self.spi();
        header.sequence_number = self.sequence_number();
        header.set_in_place(self.raw_icv());
    }
}

impl PartialEq for IpAuthHeaderSlice<'_> {
    ghost use Rattle.std.specs.Prelude.{◌↔◌, IsTrue, nat_eq};
    ghost use Rattle.std.specs.Ordering.{on};
    ghost use Rattle.std.specs.Cmp.Lexicographic.{pointwise};
    ghost use Rattle.std.specs.Cmp.Rules.{comparing};
    ghost use Rattle.std.proofs.Common.{rules};
    ghost use Rattle.ip_ext_headers.specs.IpAuthHeaderSlice.{bytes};

    ghost eq = { on bytes (pointwise nat_eq) };

    ghost laws = { Prim.search (comparing, rules) };

    fn eq(&self, other: &Self) -> bool
        ensures answer { result ≡ on bytes (pointwise nat_eq) self.now other.now }
        ensures same { IsTrue result ↔ (bytes self.now ≡ bytes other.now) }
    {
        self.slice == other.slice
    }
}

impl Eq for IpAuthHeaderSlice<'_> {
    ghost use Rattle.std.specs.Cmp.Rules.{comparing};
    ghost use Rattle.std.proofs.Common.{rules};

    ghost laws = { Prim.search (comparing, rules) };
}
