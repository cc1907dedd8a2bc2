//! An IPv6 header (RFC 8200, section 3), borrowed.
ghost use Rattle.std.specs.Prelude.{◌≡◌, ◌≤◌, length, IfOk};
ghost use Rattle.std.specs.Result.{result_err};
ghost use Rattle.std.specs.Net.Addr.{ipv6_octets};
ghost use Rattle.ip_base.specs.Prefix.{IsPrefix};
ghost use Rattle.ip_base.specs.Ipv4Header.{version};
ghost use Rattle.ip_base.specs.Ipv6Header.{IsIpv6Header, ipv6_header_fault};
ghost use Rattle.ip_base.specs.Ipv6Header.{payload_length, ipv6_next_header};
ghost use Rattle.ip_base.specs.Ipv6Header.{ipv6_source_octets, ipv6_destination_octets};
ghost use Rattle.ip_base.specs.BaseHeaderFields.{ipv6_traffic_class, ipv6_flow_label, ipv6_hop_limit};

use crate::err::ipv6::{HeaderError, HeaderSliceError};
use crate::err::{Layer, LenError};
use crate::{IpNumber, Ipv6Header};
use std::net::Ipv6Addr;

/// The IPv6 base header (RFC 8200, section 3), borrowed from the caller's bytes. Two are equal if their bytes are.
#[derive(Clone, Copy, Debug)]
pub struct Ipv6HeaderSlice<'a> {
    slice: &'a [u8],
    pub ghost header: { IsIpv6Header slice.now },
}

impl<'a> Ipv6HeaderSlice<'a> {
    ghost use Rattle.ip_base.specs.Ipv6HeaderSlice.{bytes};

    /// Parses the header at the start of `slice`. Returns an error if there are fewer than 40 bytes, otherwise if the
    /// version isn't 6.
    pub fn from_slice(slice: &'a [u8]) -> Result<Ipv6HeaderSlice<'a>, HeaderSliceError>
        ensures prefix { IfOk result (λ h. IsPrefix (bytes h) slice.now) }
        ensures header { IfOk result (λ h. IsIpv6Header (bytes h)) }
        ensures fault { result_err result ≡ ipv6_header_fault slice.now }
    {
        if slice.len() < Ipv6Header::LEN {
            return Err(HeaderSliceError::Len(LenError::slice_too_short(
                slice,
                Layer::Ipv6Header,
                Ipv6Header::LEN,
            )));
        }
        let version_number = slice[0] >> 4;
        if version_number != 6 {
            return Err(HeaderSliceError::Content(HeaderError::UnexpectedVersion {
                version_number,
            }));
        }
        Ok(Self::first(slice, Ipv6Header::LEN))
    }

    /// Returns the first `len` bytes as a header.
    #[inline(always)]
    fn first(slice: &'a [u8], len: usize) -> Ipv6HeaderSlice<'a>
        requires len { len ≡ 40 }
        requires enough { len ≤ length slice.now }
        requires version { version slice.now ≡ 6 }
        ensures prefix { IsPrefix (bytes result) slice.now }
        ensures header { IsIpv6Header (bytes result) }
    {
        Ipv6HeaderSlice {
            slice: &slice[..len],
        }
    }

    /// Returns the header's 40 bytes.
    pub fn slice(&self) -> &'a [u8]
        ensures bytes { result.now ≡ bytes self.now }
        ensures header { IsIpv6Header result.now }
    {
        self.slice
    }

    /// Returns the traffic class.
    pub fn traffic_class(&self) -> u8
        ensures { result ≡ ipv6_traffic_class (bytes self.now) }
    {
        self.slice[0] % 16 * 16 + self.slice[1] / 16
    }

    /// Returns the flow label, of 20 bits.
    pub fn flow_label(&self) -> u32
        ensures { result ≡ ipv6_flow_label (bytes self.now) }
    {
        u32::from(self.slice[1] % 16) * 65536
            + u32::from(self.slice[2]) * 256
            + u32::from(self.slice[3])
    }

    /// Returns the hop limit.
    pub fn hop_limit(&self) -> u8
        ensures { result ≡ ipv6_hop_limit (bytes self.now) }
    {
        self.slice[7]
    }

    /// Returns the number of bytes that follow the header in the packet; also 0 in a jumbogram, which is longer than
    /// the field can express (RFC 2675).
    pub fn payload_length(&self) -> u16
        ensures { result ≡ payload_length (bytes self.now) }
    {
        u16::from_be_bytes([self.slice[4], self.slice[5]])
    }

    /// Returns the next header field.
    pub fn next_header(&self) -> IpNumber
        ensures { result.0 ≡ ipv6_next_header (bytes self.now) }
    {
        IpNumber(self.slice[6])
    }

    /// Returns the bytes of the source address.
    pub fn source(&self) -> [u8; 16]
        ensures { result ≡ ipv6_source_octets (bytes self.now) }
    {
        array(&self.slice[8..24])
    }

    /// Returns the bytes of the destination address.
    pub fn destination(&self) -> [u8; 16]
        ensures { result ≡ ipv6_destination_octets (bytes self.now) }
    {
        array(&self.slice[24..40])
    }

    /// Returns the source address.
    pub fn source_addr(&self) -> Ipv6Addr
        ensures { ipv6_octets result ≡ ipv6_source_octets (bytes self.now) }
    {
        address(&self.source())
    }

    /// Returns the destination address: the final receiver's, or that of the next node of a routing header (RFC 8200,
    /// section 4.4).
    pub fn destination_addr(&self) -> Ipv6Addr
        ensures { ipv6_octets result ≡ ipv6_destination_octets (bytes self.now) }
    {
        address(&self.destination())
    }
}

/// Returns the address of 16 octets.
fn address(octets: &[u8]) -> Ipv6Addr
    requires { length octets.now ≡ 16 }
    ensures { ipv6_octets result ≡ octets.now }
{
    Ipv6Addr::from_octets(array(octets))
}

/// Returns 16 bytes as an array.
fn array(bytes: &[u8]) -> [u8; 16]
    requires { length bytes.now ≡ 16 }
    ensures { result ≡ bytes.now }
{
    match <[u8; 16]>::try_from(bytes) {
        Ok(bytes) => bytes,
        Err(_) => unreachable!(),
    }
}

impl PartialEq for Ipv6HeaderSlice<'_> {
    ghost use Rattle.std.specs.Prelude.{◌↔◌, IsTrue, nat_eq};
    ghost use Rattle.std.specs.Ordering.{on};
    ghost use Rattle.std.specs.Cmp.Lexicographic.{pointwise};
    ghost use Rattle.std.specs.Cmp.Rules.{comparing};
    ghost use Rattle.std.proofs.Common.{rules};
    ghost use Rattle.ip_base.specs.Ipv6HeaderSlice.{bytes};

    ghost eq = { on bytes (pointwise nat_eq) };

    ghost laws = { Prim.search (comparing, rules) };

    fn eq(&self, other: &Self) -> bool
        ensures answer { result ≡ on bytes (pointwise nat_eq) self.now other.now }
        ensures same { IsTrue result ↔ (bytes self.now ≡ bytes other.now) }
    {
        self.slice == other.slice
    }
}

impl Eq for Ipv6HeaderSlice<'_> {
    ghost use Rattle.std.specs.Cmp.Rules.{comparing};
    ghost use Rattle.std.proofs.Common.{rules};

    ghost laws = { Prim.search (comparing, rules) };
}
