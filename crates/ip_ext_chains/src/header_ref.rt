//! A header in its place.
ghost use Rattle.std.specs.Prelude.{◌≡◌, ◌≤◌, ◌+◌, vec_len, vec_capacity};
ghost use Rattle.ip_spec.specs.Encoding.{AppendsOne, IsRawEncoding, IsAuthEncoding};
ghost use Rattle.ip_spec.specs.Encodable.{fields_len};
ghost use Rattle.ip_spec.specs.Fields.{raw_len, auth_len};
ghost use Rattle.ip_spec.specs.WalkStep.{next_of, IsEncodingOf};
ghost use Rattle.ip_ext_chains.specs.HeaderRef.{fields_of_ref};

use ip_base::IpNumber;
use ip_ext_headers::{IpAuthHeader, Ipv6FragmentHeader, Ipv6RawExtHeader};
use std::alloc::Allocator;

/// A header in one of the three formats.
#[derive(Clone, Copy)]
pub(crate) enum HeaderRef<'a> {
    Raw(&'a Ipv6RawExtHeader),
    Fragment(&'a Ipv6FragmentHeader),
    Authentication(&'a IpAuthHeader),
}

impl<'a> HeaderRef<'a> {
    /// Returns the next header field.
    #[inline(always)]
    pub(crate) fn next_header(&self) -> IpNumber
        ensures { result.0 ≡ next_of (fields_of_ref self.now) }
    {
        match self {
            HeaderRef::Raw(header) => header.next_header,
            HeaderRef::Fragment(header) => header.next_header,
            HeaderRef::Authentication(header) => header.next_header,
        }
    }

    /// Appends the header's bytes. The vector must have room for them.
    #[inline(always)]
    pub(crate) fn append<A: Allocator>(&self, out: &mut Vec<u8, A>)
        requires room { vec_len out.old + fields_len (fields_of_ref self.now) ≤ vec_capacity out.old }
        ensures appended { AppendsOne (IsEncodingOf (fields_of_ref self.now)) out.old.items out.new.items }
        ensures len { vec_len out.new ≡ vec_len out.old + fields_len (fields_of_ref self.now) }
        ensures capacity { vec_capacity out.old ≤ vec_capacity out.new }
    {
        match self {
            // The shortest headers are appended without a call.
            HeaderRef::Raw(header) if header.header_len() == Ipv6RawExtHeader::MIN_LEN => {
                header.write_reserved(out)
            }
            HeaderRef::Raw(header) => append_raw(header, out),
            HeaderRef::Fragment(header) => header.write_reserved(out),
            HeaderRef::Authentication(header) if header.header_len() == IpAuthHeader::MIN_LEN => {
                header.write_reserved(out)
            }
            HeaderRef::Authentication(header) => append_auth(header, out),
        }
    }
}

/// Appends the header's bytes. It and `append_auth` are kept out of line, so that six places that are written aren't moved
/// (docs/DECISIONS.md, "Moves of large values").
#[inline(never)]
fn append_raw<A: Allocator>(header: &Ipv6RawExtHeader, out: &mut Vec<u8, A>)
    requires room { vec_len out.old + raw_len header.now ≤ vec_capacity out.old }
    ensures appended { AppendsOne (IsRawEncoding header.now) out.old.items out.new.items }
    ensures len { vec_len out.new ≡ vec_len out.old + raw_len header.now }
    ensures capacity { vec_capacity out.old ≤ vec_capacity out.new }
{
    header.write_reserved(out);
}

/// Appends the header's bytes.
#[inline(never)]
fn append_auth<A: Allocator>(header: &IpAuthHeader, out: &mut Vec<u8, A>)
    requires room { vec_len out.old + auth_len header.now ≤ vec_capacity out.old }
    ensures appended { AppendsOne (IsAuthEncoding header.now) out.old.items out.new.items }
    ensures len { vec_len out.new ≡ vec_len out.old + auth_len header.now }
    ensures capacity { vec_capacity out.old ≤ vec_capacity out.new }
{
    header.write_reserved(out);
}
