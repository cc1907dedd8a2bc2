//! An IPv4 header (RFC 791, section 3.1), borrowed.
ghost use Rattle.std.specs.Prelude.{◌≡◌, ◌≤◌, length, IfOk};
ghost use Rattle.std.specs.Result.{result_err};
ghost use Rattle.std.specs.Net.Addr.{ipv4_octets};
ghost use Rattle.ip_base.specs.Prefix.{IsPrefix};
ghost use Rattle.ip_base.specs.Ipv4Header.{IsIpv4Header, ipv4_header_fault};
ghost use Rattle.ip_base.specs.Ipv4Header.{total_len, is_ipv4_fragmenting, protocol};
ghost use Rattle.ip_base.specs.Ipv4Header.{ipv4_source_octets, ipv4_destination_octets};
ghost use Rattle.ip_base.specs.Ipv4Header.{ipv4_more_fragments, ipv4_fragment_offset};
ghost use Rattle.ip_base.specs.BaseHeaderFields.{ipv4_dscp, ipv4_ecn, ipv4_identification, ipv4_dont_fragment};
ghost use Rattle.ip_base.specs.BaseHeaderFields.{ipv4_ttl, ipv4_checksum, ipv4_options};

use crate::err::ipv4::{HeaderError, HeaderSliceError};
use crate::err::{Layer, LenError};
use crate::{IpFragOffset, IpNumber, Ipv4Header};
use std::net::Ipv4Addr;

/// The IPv4 base header with its options (RFC 791, section 3.1), borrowed from the caller's bytes. Two are equal if
/// their bytes are.
#[derive(Clone, Copy, Debug)]
pub struct Ipv4HeaderSlice<'a> {
    slice: &'a [u8],
    pub ghost header: { IsIpv4Header slice.now },
    pub ghost few: { length slice.now ≤ 60 },
}

impl<'a> Ipv4HeaderSlice<'a> {
    ghost use Rattle.ip_base.specs.Ipv4HeaderSlice.{bytes};

    /// Parses the header at the start of `slice`. Returns an error, in this order, if there are fewer than 20 bytes,
    /// if the version isn't 4, if the internet header length is below 5, or if there are fewer bytes than that
    /// length.
    pub fn from_slice(slice: &'a [u8]) -> Result<Ipv4HeaderSlice<'a>, HeaderSliceError>
        ensures prefix { IfOk result (λ h. IsPrefix (bytes h) slice.now) }
        ensures header { IfOk result (λ h. IsIpv4Header (bytes h)) }
        ensures fault { result_err result ≡ ipv4_header_fault slice.now }
    {
        if slice.len() < Ipv4Header::MIN_LEN {
            return Err(HeaderSliceError::Len(LenError::slice_too_short(
                slice,
                Layer::Ipv4Header,
                Ipv4Header::MIN_LEN,
            )));
        }
        let version_number = slice[0] >> 4;
        if version_number != 4 {
            return Err(HeaderSliceError::Content(HeaderError::UnexpectedVersion {
                version_number,
            }));
        }
        let ihl = slice[0] & 0b1111;
        if ihl < 5 {
            return Err(HeaderSliceError::Content(HeaderError::HeaderLengthSmallerThanHeader {
                ihl,
            }));
        }
        let len = usize::from(ihl) * 4;
        if slice.len() < len {
            return Err(HeaderSliceError::Len(LenError::slice_too_short(
                slice,
                Layer::Ipv4Header,
                len,
            )));
        }
        Ok(Ipv4HeaderSlice {
            slice: &slice[..len],
        })
    }

    /// Returns the header's bytes with its options, 20 to 60.
    pub fn slice(&self) -> &'a [u8]
        ensures bytes { result.now ≡ bytes self.now }
        ensures header { IsIpv4Header result.now }
        ensures few { length result.now ≤ 60 }
    {
        self.slice
    }

    /// Returns the differentiated services code point, of 6 bits (RFC 2474).
    pub fn dcp(&self) -> u8
        ensures { result ≡ ipv4_dscp (bytes self.now) }
    {
        self.slice[1] / 4
    }

    /// Returns the bits of explicit congestion notification, 0 to 3 (RFC 3168).
    pub fn ecn(&self) -> u8
        ensures { result ≡ ipv4_ecn (bytes self.now) }
    {
        self.slice[1] % 4
    }

    /// Returns the number that all fragments of a packet share.
    pub fn identification(&self) -> u16
        ensures { result ≡ ipv4_identification (bytes self.now) }
    {
        u16::from_be_bytes([self.slice[4], self.slice[5]])
    }

    /// Returns whether the packet may not be fragmented.
    pub fn dont_fragment(&self) -> bool
        ensures { result ≡ ipv4_dont_fragment (bytes self.now) }
    {
        self.slice[6] & 0b0100_0000 != 0
    }

    /// Returns whether more fragments follow.
    pub fn more_fragments(&self) -> bool
        ensures { result ≡ ipv4_more_fragments (bytes self.now) }
    {
        self.slice[6] & 0b0010_0000 != 0
    }

    /// Returns where the fragment's data starts in the payload, in units of 8 bytes.
    pub fn fragments_offset(&self) -> IpFragOffset
        ensures { result ≡ ipv4_fragment_offset (bytes self.now) }
    {
        let units = u16::from(self.slice[6] & 0b0001_1111) * 256 + u16::from(self.slice[7]);
        IpFragOffset::try_new(units).unwrap()
    }

    /// Returns the time to live, in hops.
    pub fn ttl(&self) -> u8
        ensures { result ≡ ipv4_ttl (bytes self.now) }
    {
        self.slice[8]
    }

    /// Returns the header's checksum as it is written, which isn't checked.
    pub fn header_checksum(&self) -> u16
        ensures { result ≡ ipv4_checksum (bytes self.now) }
    {
        u16::from_be_bytes([self.slice[10], self.slice[11]])
    }

    /// Returns the options with their padding, 0 to 40 bytes.
    pub fn options(&self) -> &'a [u8]
        ensures { result.now ≡ ipv4_options (bytes self.now) }
    {
        &self.slice[20..]
    }

    /// Returns the packet's length in bytes, header included.
    pub fn total_len(&self) -> u16
        ensures { result ≡ total_len (bytes self.now) }
    {
        u16::from_be_bytes([self.slice[2], self.slice[3]])
    }

    /// Returns the protocol number of what follows the header.
    pub fn protocol(&self) -> IpNumber
        ensures { result.0 ≡ protocol (bytes self.now) }
    {
        IpNumber(self.slice[9])
    }

    /// Returns whether the packet is a fragment: more fragments follow, or the fragment offset isn't 0.
    pub fn is_fragmenting_payload(&self) -> bool
        ensures { result ≡ is_ipv4_fragmenting (bytes self.now) }
    {
        let more_fragments = self.slice[6] & 0b0010_0000 != 0;
        let offset = u16::from_be_bytes([self.slice[6] & 0b0001_1111, self.slice[7]]);
        more_fragments | (offset != 0)
    }

    /// Returns the bytes of the source address.
    pub fn source(&self) -> [u8; 4]
        ensures { result ≡ ipv4_source_octets (bytes self.now) }
    {
        [
            self.slice[12],
            self.slice[13],
            self.slice[14],
            self.slice[15],
        ]
    }

    /// Returns the bytes of the destination address.
    pub fn destination(&self) -> [u8; 4]
        ensures { result ≡ ipv4_destination_octets (bytes self.now) }
    {
        [
            self.slice[16],
            self.slice[17],
            self.slice[18],
            self.slice[19],
        ]
    }

    /// Returns the source address.
    pub fn source_addr(&self) -> Ipv4Addr
        ensures { ipv4_octets result ≡ ipv4_source_octets (bytes self.now) }
    {
        let [a, b, c, d] = self.source();
        Ipv4Addr::new(a, b, c, d)
    }

    /// Returns the destination address.
    pub fn destination_addr(&self) -> Ipv4Addr
        ensures { ipv4_octets result ≡ ipv4_destination_octets (bytes self.now) }
    {
        let [a, b, c, d] = self.destination();
        Ipv4Addr::new(a, b, c, d)
    }
}

impl PartialEq for Ipv4HeaderSlice<'_> {
    ghost use Rattle.std.specs.Prelude.{◌↔◌, IsTrue, nat_eq};
    ghost use Rattle.std.specs.Ordering.{on};
    ghost use Rattle.std.specs.Cmp.Lexicographic.{pointwise};
    ghost use Rattle.std.specs.Cmp.Rules.{comparing};
    ghost use Rattle.std.proofs.Common.{rules};
    ghost use Rattle.ip_base.specs.Ipv4HeaderSlice.{bytes};

    ghost eq = { on bytes (pointwise nat_eq) };

    ghost laws = { Prim.search (comparing, rules) };

    fn eq(&self, other: &Self) -> bool
        ensures answer { result ≡ on bytes (pointwise nat_eq) self.now other.now }
        ensures same { IsTrue result ↔ (bytes self.now ≡ bytes other.now) }
    {
        self.slice == other.slice
    }
}

impl Eq for Ipv4HeaderSlice<'_> {
    ghost use Rattle.std.specs.Cmp.Rules.{comparing};
    ghost use Rattle.std.proofs.Common.{rules};

    ghost laws = { Prim.search (comparing, rules) };
}
