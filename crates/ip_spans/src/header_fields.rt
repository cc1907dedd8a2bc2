//! The fields of single headers.
ghost use Rattle.std.specs.Prelude.{ℕ, List, IfSome, IfNone};
ghost use Rattle.ip_base.specs.Prefix.{IsPrefix};
ghost use Rattle.ip_spec.specs.Header.{IsFragmentHeader, IsAuthHeader};
ghost use Rattle.ip_spans.specs.HeaderFields.{BeginsWithFragmentHeader, BeginsWithAuthHeader};

use ip_ext_headers::{IpAuthHeaderSlice, Ipv6FragmentHeaderSlice};

/// The fields of a fragment header (RFC 8200, section 4.5).
#[repr(C)]
#[derive(Clone, Copy, Debug, PartialEq, Eq)]
pub struct FragmentFields {
    /// The identification, equal in all fragments of a packet.
    pub identification: u32,
    /// Where the fragment lies in the payload, in bytes.
    pub fragment_offset: u32,
    /// 1 if more fragments follow, otherwise 0.
    pub more_fragments: u8,
    /// The next header field.
    pub next_header: u8,
}

/// Returns the fields of the fragment header at the start of `bytes`, or `None` if there are fewer than 8 bytes.
#[inline(always)]
pub fn fragment_fields(bytes: &[u8]) -> Option<FragmentFields>
    ensures some { IfSome result (BeginsWithFragmentHeader bytes.now) }
    ensures none { IfNone result ((b : List ℕ)
        → IsFragmentHeader b → IsPrefix b bytes.now → ⊥) }
{
    let header = Ipv6FragmentHeaderSlice::from_slice(bytes).ok()?;
    Some(FragmentFields {
        identification: header.identification(),
        fragment_offset: 8 * u32::from(header.fragment_offset().value()),
        more_fragments: u8::from(header.more_fragments()),
        next_header: header.next_header().0,
    })
}

/// The fields of an authentication header (RFC 4302, section 2). Its integrity check value, with padding, is the
/// header's bytes from offset 12 on.
#[repr(C)]
#[derive(Clone, Copy, Debug, PartialEq, Eq)]
pub struct AuthFields {
    /// The header's length in bytes.
    pub len: usize,
    /// The security parameters index, by which the receiver identifies the security association.
    pub spi: u32,
    /// The sender's packet counter.
    pub sequence_number: u32,
    /// The next header field.
    pub next_header: u8,
}

/// Returns the fields of the authentication header at the start of `bytes`, or `None` if there is none.
#[inline(always)]
pub fn auth_fields(bytes: &[u8]) -> Option<AuthFields>
    ensures some { IfSome result (BeginsWithAuthHeader bytes.now) }
    ensures none { IfNone result ((b : List ℕ)
        → IsAuthHeader b → IsPrefix b bytes.now → ⊥) }
{
    let header = IpAuthHeaderSlice::from_slice(bytes).ok()?;
    Some(AuthFields {
        len: header.slice().len(),
        spi: header.spi(),
        sequence_number: header.sequence_number(),
        next_header: header.next_header().0,
    })
}
