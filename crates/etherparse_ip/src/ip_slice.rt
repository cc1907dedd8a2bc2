//! A packet of either version, borrowed.
ghost use Rattle.std.specs.Prelude.{◌≡◌, ◌≤◌, ◌↔◌, length, Some, None, IsOk, IfOk};
ghost use Rattle.std.specs.Option.{option_map};
ghost use Rattle.std.specs.Result.{result_err};
ghost use Rattle.std.specs.Net.Addr.{is_ipv4};
ghost use Rattle.ip_base.specs.Ipv4Header.{version};
ghost use Rattle.etherparse_ip.specs.PacketFault.{ip_fault_of_ipv4, ip_fault_of_ipv6, ip_fault};
ghost use Rattle.etherparse_ip.specs.PacketFault.{ipv4_fault, ipv6_fault};

use crate::err::ip::{HeaderError, HeadersError, SliceError};
use crate::err::{Layer, LenError, ip_auth, ipv6_exts};
use crate::{Ipv4Slice, Ipv6Slice};
use ip_base::{IpNumber, IpPayloadSlice, Ipv4HeaderSlice, Ipv6Header, Ipv6HeaderSlice};
use std::net::IpAddr;

/// A packet of either IP version.
#[derive(Clone, Debug, Drop)]
pub enum IpSlice<'a> {
    /// An IPv4 packet.
    Ipv4(Ipv4Slice<'a>),
    /// An IPv6 packet.
    Ipv6(Ipv6Slice<'a>),
}

impl<'a> IpSlice<'a> {
    ghost use Rattle.etherparse_ip.specs.IpSlice.{ip_parts, IsIpPacket, ipv4_of, ipv6_of};
    ghost use Rattle.etherparse_ip.specs.IpSlice.{ip_octets, is_of_ipv4, source_octets, destination_octets};

    /// Parses the packet at the start of the slice, of the version in its first byte, as `Ipv4Slice::from_slice` or
    /// `Ipv6Slice::from_slice` does.
    ///
    /// Returns an error, in this order, if the slice is empty, if the version is neither 4 nor 6, for IPv4 if the
    /// internet header length is below 5 or if there are fewer bytes than it states, and otherwise the error of the
    /// version's `from_slice`.
    #[inline(always)]
    pub fn from_slice(slice: &'a [u8]) -> Result<IpSlice<'a>, SliceError>
        ensures packet { IfOk result (λ x. IsIpPacket slice.now x) }
        ensures fault { result_err result ≡ ip_fault slice.now }
        ensures ipv4 { version slice.now ≡ 4 → (IsOk result ↔ (ipv4_fault slice.now ≡ None)) }
        ensures ipv6 { version slice.now ≡ 6 → (IsOk result ↔ (ipv6_fault slice.now ≡ None)) }
    {
        if slice.is_empty() {
            return Err(SliceError::Len(LenError::slice_too_short(slice, Layer::IpHeader, 1)));
        }
        match slice[0] >> 4 {
            4 => Self::from_ipv4(slice),
            6 => Self::from_ipv6(slice),
            version_number => Err(SliceError::IpHeaders(HeadersError::Ip(
                HeaderError::UnsupportedIpVersion { version_number },
            ))),
        }
    }

    /// Parses a slice whose first byte has version 4.
    #[inline(always)]
    fn from_ipv4(slice: &'a [u8]) -> Result<IpSlice<'a>, SliceError>
        requires some { 1 ≤ length slice.now }
        requires version { version slice.now ≡ 4 }
        ensures packet { IfOk result (λ x. IsIpPacket slice.now x) }
        ensures fault { result_err result ≡ ip_fault_of_ipv4 slice.now }
        ensures strict { IsOk result ↔ (ipv4_fault slice.now ≡ None) }
    {
        let ihl = slice[0] & 0b1111;
        if ihl < 5 {
            return Err(SliceError::IpHeaders(HeadersError::Ip(
                HeaderError::Ipv4HeaderLengthSmallerThanHeader { ihl },
            )));
        }
        let header_len = usize::from(ihl) * 4;
        if slice.len() < header_len {
            return Err(SliceError::Len(LenError::slice_too_short(
                slice,
                Layer::Ipv4Header,
                header_len,
            )));
        }
        let Ok(header) = Ipv4HeaderSlice::from_slice(slice) else {
            unreachable!();
        };
        match Ipv4Slice::after_base(header, slice) {
            Ok(packet) => Ok(IpSlice::Ipv4(packet)),
            Err(ip_auth::HeaderSliceError::Len(e)) => Err(SliceError::Len(e)),
            Err(ip_auth::HeaderSliceError::Content(e)) => {
                Err(SliceError::IpHeaders(HeadersError::Ipv4Ext(e)))
            }
        }
    }

    /// Parses a slice whose first byte has version 6.
    #[inline(always)]
    fn from_ipv6(slice: &'a [u8]) -> Result<IpSlice<'a>, SliceError>
        requires some { 1 ≤ length slice.now }
        requires version { version slice.now ≡ 6 }
        ensures packet { IfOk result (λ x. IsIpPacket slice.now x) }
        ensures fault { result_err result ≡ ip_fault_of_ipv6 slice.now }
        ensures strict { IsOk result ↔ (ipv6_fault slice.now ≡ None) }
    {
        if slice.len() < Ipv6Header::LEN {
            return Err(SliceError::Len(LenError::slice_too_short(
                slice,
                Layer::Ipv6Header,
                Ipv6Header::LEN,
            )));
        }
        let Ok(header) = Ipv6HeaderSlice::from_slice(slice) else {
            unreachable!();
        };
        match Ipv6Slice::after_base(header, slice) {
            Ok(packet) => Ok(IpSlice::Ipv6(packet)),
            Err(ipv6_exts::HeaderSliceError::Len(e)) => Err(SliceError::Len(e)),
            Err(ipv6_exts::HeaderSliceError::Content(e)) => {
                Err(SliceError::IpHeaders(HeadersError::Ipv6Ext(e)))
            }
        }
    }

    /// Returns the packet, if it is IPv4.
    pub fn ipv4(&self) -> Option<&Ipv4Slice<'_>>
        ensures { option_map (λ x. x.now) result ≡ ipv4_of self.now }
    {
        match self {
            IpSlice::Ipv4(packet) => Some(packet),
            IpSlice::Ipv6(_) => None,
        }
    }

    /// Returns the packet, if it is IPv6.
    pub fn ipv6(&self) -> Option<&Ipv6Slice<'_>>
        ensures { option_map (λ x. x.now) result ≡ ipv6_of self.now }
    {
        match self {
            IpSlice::Ipv4(_) => None,
            IpSlice::Ipv6(packet) => Some(packet),
        }
    }

    /// Returns whether the payload is a fragment.
    pub fn is_fragmenting_payload(&self) -> bool
        ensures { result ≡ (ip_parts self.now).fragmented }
    {
        match self {
            IpSlice::Ipv4(packet) => packet.is_payload_fragmented(),
            IpSlice::Ipv6(packet) => packet.is_payload_fragmented(),
        }
    }

    /// Returns the source address.
    pub fn source_addr(&self) -> IpAddr
        ensures version { is_ipv4 result ≡ is_of_ipv4 self.now }
        ensures octets { ip_octets result ≡ source_octets self.now }
    {
        match self {
            IpSlice::Ipv4(packet) => IpAddr::V4(packet.header().source_addr()),
            IpSlice::Ipv6(packet) => IpAddr::V6(packet.header().source_addr()),
        }
    }

    /// Returns the destination address: the final receiver's, or that of the next node of a routing header (RFC 8200,
    /// section 4.4).
    pub fn destination_addr(&self) -> IpAddr
        ensures version { is_ipv4 result ≡ is_of_ipv4 self.now }
        ensures octets { ip_octets result ≡ destination_octets self.now }
    {
        match self {
            IpSlice::Ipv4(packet) => IpAddr::V4(packet.header().destination_addr()),
            IpSlice::Ipv6(packet) => IpAddr::V6(packet.header().destination_addr()),
        }
    }

    /// Returns the payload after the extension headers.
    pub fn payload(&self) -> &IpPayloadSlice<'a>
        ensures bytes { result.now.payload.now ≡ (ip_parts self.now).payload }
        ensures number { result.now.ip_number.0 ≡ (ip_parts self.now).number }
        ensures fragmented { result.now.fragmented ≡ (ip_parts self.now).fragmented }
        ensures source { result.now.len_source ≡ (ip_parts self.now).source }
    {
        match self {
            IpSlice::Ipv4(packet) => packet.payload(),
            IpSlice::Ipv6(packet) => packet.payload(),
        }
    }

    /// Returns the payload's protocol number.
    pub fn payload_ip_number(&self) -> IpNumber
        ensures { result.0 ≡ (ip_parts self.now).number }
    {
        match self {
            IpSlice::Ipv4(packet) => packet.payload_ip_number(),
            IpSlice::Ipv6(packet) => packet.payload_ip_number(),
        }
    }
}

impl PartialEq for IpSlice<'_> {
    ghost use Rattle.std.specs.Prelude.{◌↔◌, IsTrue};
    ghost use Rattle.std.specs.Cmp.{partial_equiv_from_equiv};
    ghost use Rattle.etherparse_ip.specs.PacketEqual.{packet_equal, packet_equivalence};
    ghost use Rattle.etherparse_ip.specs.IpSlice.{AreSame};

    ghost eq = { packet_equal };

    ghost laws = { partial_equiv_from_equiv packet_equivalence };

    #[tactic(auto, using(crate::proofs::PacketEqualLemmas::same_packets))]
    fn eq(&self, other: &Self) -> bool
        ensures answer { result ≡ packet_equal self.now other.now }
        ensures same { IsTrue result ↔ AreSame self.now other.now }
    {
        match (self, other) {
            (IpSlice::Ipv4(a), IpSlice::Ipv4(b)) => a == b,
            (IpSlice::Ipv6(a), IpSlice::Ipv6(b)) => a == b,
            _ => false,
        }
    }
}

impl Eq for IpSlice<'_> {
    ghost use Rattle.etherparse_ip.specs.PacketEqual.{packet_equivalence};

    ghost laws = { packet_equivalence };
}

impl<'a> From<Ipv4Slice<'a>> for IpSlice<'a> {
    ghost use Rattle.etherparse_ip.specs.IpSlice.{ipv4_of};

    ghost from_gives = { λ x packet. ipv4_of packet ≡ Some x };

    fn from(packet: Ipv4Slice<'a>) -> IpSlice<'a> {
        IpSlice::Ipv4(packet)
    }
}

impl<'a> From<Ipv6Slice<'a>> for IpSlice<'a> {
    ghost use Rattle.etherparse_ip.specs.IpSlice.{ipv6_of};

    ghost from_gives = { λ x packet. ipv6_of packet ≡ Some x };

    fn from(packet: Ipv6Slice<'a>) -> IpSlice<'a> {
        IpSlice::Ipv6(packet)
    }
}
