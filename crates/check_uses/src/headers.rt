//! Callers of the owned headers.
ghost use Rattle.std.specs.Prelude.{◌≡◌, ◌≤◌, ◌+◌, ℕ, List, IsTrue, IsOk, OnOk, OnErr, vec_len, vec_capacity};
ghost use Rattle.ip_spec.specs.Fields.{raw_len, auth_len};
ghost use Rattle.ip_spec.specs.Encoding.{AppendsOne, IsRawEncoding, IsAuthEncoding};

use arrayvec::ArrayVec;
use ip_base::{IpFragOffset, IpNumber};
use ip_ext_headers::{IpAuthHeader, Ipv6FragmentHeader, Ipv6RawExtHeader};
use ip_spec::{one_decoding, one_encoding};
use std::alloc::AllocError;

/// Appends the header with another next header number. The header itself is unchanged.
pub fn write_before(
    header: &Ipv6RawExtHeader,
    next: IpNumber,
    out: &mut Vec<u8>,
) -> Result<(), AllocError>
    ensures { OnOk result (AppendsOne
        (IsRawEncoding (record header.now { next_header = next.0 })) out.old.items out.new.items) }
{
    let mut copy = header.clone()?;
    copy.next_header = next;
    copy.write(out)
}

/// Appends the header of a fragment, before a payload of the number `next`.
pub fn write_fragment_header(
    next: IpNumber,
    offset: IpFragOffset,
    is_last: bool,
    identification: u32,
    out: &mut Vec<u8>,
) -> Result<(), AllocError> {
    let header = Ipv6FragmentHeader::new(next, offset, !is_last, identification);
    header.write(out)
}

/// Sets the next header of each of the three headers.
pub fn relinked(
    raw: &mut Ipv6RawExtHeader,
    fragment: &mut Ipv6FragmentHeader,
    auth: &mut IpAuthHeader,
    next: IpNumber,
)
    ensures raw { raw.new ≡ record raw.old { next_header = next.0 } }
    ensures fragment { fragment.new ≡ record fragment.old { next_header = next.0 } }
    ensures auth { auth.new ≡ record auth.old { next_header = next.0 } }
{
    raw.next_header = next;
    fragment.next_header = next;
    auth.next_header = next;
}

/// Appends the three headers, one after the other, into reserved room. It can't fail.
pub fn write_three(
    raw: &Ipv6RawExtHeader,
    fragment: &Ipv6FragmentHeader,
    auth: &IpAuthHeader,
    out: &mut Vec<u8>,
) -> Result<(), AllocError>
    requires { vec_len out.old + raw_len raw.now + 8 + auth_len auth.now ≤ vec_capacity out.old }
    ensures { IsOk result }
{
    raw.write(out)?;
    fragment.write(out)?;
    auth.write(out)
}

/// Appends both headers. Reserves room for both at once, so that it fails before anything is written or not at all.
pub fn write_both(
    raw: &Ipv6RawExtHeader,
    auth: &IpAuthHeader,
    out: &mut Vec<u8>,
) -> Result<(), AllocError>
    ensures ok { OnOk result ((m : List ℕ)
        × AppendsOne (IsRawEncoding raw.now) out.old.items m
        × AppendsOne (IsAuthEncoding auth.now) m out.new.items) }
    ensures len { OnOk result
        (vec_len out.new ≡ vec_len out.old + raw_len raw.now + auth_len auth.now) }
    ensures err { OnErr result (out.new.items ≡ out.old.items) }
{
    out.reserve(raw.header_len() + auth.header_len())?;
    raw.write_reserved(out);
    auth.write_reserved(out);
    Ok(())
}

/// Returns whether the header's bytes are parsed as the header, with nothing left.
pub fn is_read_back(header: &IpAuthHeader) -> bool
    ensures { IsTrue result }
{
    one_decoding();
    let bytes = header.to_bytes();
    match IpAuthHeader::from_slice(bytes.as_slice()) {
        Ok((again, rest)) => again == *header && rest.is_empty(),
        Err(_) => false,
    }
}

/// Returns the bytes of two equal headers, which are equal too.
pub fn equal_bytes_of_raw(
    a: &Ipv6RawExtHeader,
    b: &Ipv6RawExtHeader,
) -> (ArrayVec<u8, 2048>, ArrayVec<u8, 2048>)
    requires { a.now ≡ b.now }
    ensures { result.0.items ≡ result.1.items }
{
    one_encoding();
    (a.to_bytes(), b.to_bytes())
}

/// Returns the bytes of two equal fragment headers, which are equal too.
pub fn equal_bytes_of_fragment(a: &Ipv6FragmentHeader, b: &Ipv6FragmentHeader) -> ([u8; 8], [u8; 8])
    requires { a.now ≡ b.now }
    ensures { result.0 ≡ result.1 }
{
    one_encoding();
    (a.to_bytes(), b.to_bytes())
}

/// Returns the bytes of two equal authentication headers, which are equal too.
pub fn equal_bytes_of_auth(
    a: &IpAuthHeader,
    b: &IpAuthHeader,
) -> (ArrayVec<u8, 1028>, ArrayVec<u8, 1028>)
    requires { a.now ≡ b.now }
    ensures { result.0.items ≡ result.1.items }
{
    one_encoding();
    (a.to_bytes(), b.to_bytes())
}
