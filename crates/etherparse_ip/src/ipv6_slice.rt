//! An IPv6 packet, borrowed.
ghost use Rattle.std.specs.Prelude.{◌≡◌, ◌≤◌, ◌+◌, None, IfOk, length};
ghost use Rattle.std.specs.Result.{result_err};
ghost use Rattle.ip_base.specs.Ipv6Header.{payload_length, ipv6_header_fault};
ghost use Rattle.ip_base.specs.Ipv6HeaderSlice.{bytes};
ghost use Rattle.ip_base.specs.Prefix.{IsPrefix};
ghost use Rattle.ip_ext_slices.specs.ChainFault.{ExtsOffsetFits, exts_in_packet};
ghost use Rattle.ip_ext_slices.specs.Ipv6ExtensionsSlice.{headers_in};
ghost use Rattle.etherparse_ip.specs.Packet.{IsIpv6Packet};
ghost use Rattle.etherparse_ip.specs.PacketFault.{ipv6_chain_fault, ipv6_fault_after, ipv6_fault, ipv6_lax_fault};

use crate::err::ipv6::{HeaderSliceError, SliceError};
use crate::err::{Layer, LenError, ipv6_exts};
use crate::len_sources::ipv6_front;
use ip_base::{IpNumber, IpPayloadSlice, Ipv6Header, Ipv6HeaderSlice, LenSource};
use ip_ext_slices::Ipv6ExtensionsSlice;

/// An IPv6 packet (RFC 8200): its base header, extension headers and payload, borrowed from the caller's bytes. Two
/// are equal if all their parts are.
#[derive(Clone, Debug, Drop)]
pub struct Ipv6Slice<'a> {
    header: Ipv6HeaderSlice<'a>,
    exts: Ipv6ExtensionsSlice<'a>,
    payload: IpPayloadSlice<'a>,
}

impl<'a> Ipv6Slice<'a> {
    ghost use Rattle.etherparse_ip.specs.Ipv6Slice.{ipv6_parts};

    /// Parses the packet at the start of the slice. The payload ends where the payload length says; bytes after it
    /// are ignored. If the payload length is 0 and bytes follow the base header, as in a jumbogram (RFC 2675), all of
    /// them belong to the packet.
    ///
    /// Returns an error, in this order, if the base header is malformed or truncated, if there are fewer bytes than
    /// the payload length states, or if an extension header is malformed or truncated. The offset of an extension
    /// header's error counts from the start of the slice. Its length source is the source of the packet's length:
    /// `LenSource::Slice` if the payload length is 0 and bytes follow the base header, otherwise
    /// `LenSource::Ipv6HeaderPayloadLen`.
    #[inline(always)]
    #[tactic(auto, using(crate::proofs::FaultLemmas::lax_accepts_strict))]
    pub fn from_slice(slice: &'a [u8]) -> Result<Ipv6Slice<'a>, SliceError>
        ensures packet { IfOk result (λ x. IsIpv6Packet slice.now (ipv6_parts x)) }
        ensures fault { result_err result ≡ ipv6_fault slice.now }
        ensures lax { IfOk result (λ _. ipv6_lax_fault slice.now ≡ None) }
    {
        let header = match Ipv6HeaderSlice::from_slice(slice) {
            Ok(header) => header,
            Err(HeaderSliceError::Len(e)) => return Err(SliceError::Len(e)),
            Err(HeaderSliceError::Content(e)) => return Err(SliceError::Header(e)),
        };
        match Self::after_base(header, slice) {
            Ok(packet) => Ok(packet),
            Err(ipv6_exts::HeaderSliceError::Len(e)) => Err(SliceError::Len(e)),
            Err(ipv6_exts::HeaderSliceError::Content(e)) => Err(SliceError::Exts(e)),
        }
    }

    /// Parses the packet as `from_slice` does, but accepts a truncated one: if there are fewer bytes than the payload
    /// length states, all of them belong to the packet. The payload's `len_source` says whether it ends where the
    /// slice does.
    ///
    /// The result differs from that of `from_slice` only for a slice that starts with a valid base header and has
    /// fewer bytes than the payload length states. The length source of an error in the extension headers is the
    /// source of the packet's length.
    #[inline(always)]
    pub fn from_slice_lax(slice: &'a [u8]) -> Result<Ipv6Slice<'a>, SliceError>
        ensures packet { IfOk result (λ x. IsIpv6Packet slice.now (ipv6_parts x)) }
        ensures fault { result_err result ≡ ipv6_lax_fault slice.now }
        ensures strict { (ipv6_header_fault slice.now ≡ None
            → 40 + payload_length slice.now ≤ length slice.now)
            → result_err result ≡ ipv6_fault slice.now }
    {
        let header = match Ipv6HeaderSlice::from_slice(slice) {
            Ok(header) => header,
            Err(HeaderSliceError::Len(e)) => return Err(SliceError::Len(e)),
            Err(HeaderSliceError::Content(e)) => return Err(SliceError::Header(e)),
        };
        match Self::parse(header, slice) {
            Ok(packet) => Ok(packet),
            Err(ipv6_exts::HeaderSliceError::Len(e)) => Err(SliceError::Len(e)),
            Err(ipv6_exts::HeaderSliceError::Content(e)) => Err(SliceError::Exts(e)),
        }
    }

    /// Parses the packet at the start of the slice with this base header. The packet has the length that it states.
    #[inline(always)]
    #[tactic(auto, using(crate::proofs::PartsLemmas::strict_fault_of_chain, crate::proofs::PartsLemmas::stated_of_base))]
    pub(crate) fn after_base(
        header: Ipv6HeaderSlice<'a>,
        slice: &'a [u8],
    ) -> Result<Ipv6Slice<'a>, ipv6_exts::HeaderSliceError>
        requires { IsPrefix (bytes header) slice.now }
        ensures packet { IfOk result (λ x. IsIpv6Packet slice.now (ipv6_parts x)) }
        ensures fault { result_err result ≡ ipv6_fault_after slice.now }
    {
        let payload_length = header.payload_length();
        let required_len = Ipv6Header::LEN + usize::from(payload_length);
        if slice.len() < required_len {
            return Err(ipv6_exts::HeaderSliceError::Len(LenError::slice_too_short(
                slice,
                Layer::Ipv6Packet,
                required_len,
            )));
        }
        Self::parse(header, slice)
    }

    /// Parses the packet at the start of the slice with this base header, truncated or not.
    #[inline(always)]
    #[tactic(auto, using(crate::proofs::PartsLemmas::ipv6_after_fault, crate::proofs::PartsLemmas::after_base_length, crate::proofs::FaultLemmas::chain_fault_fits))]
    fn parse(
        header: Ipv6HeaderSlice<'a>,
        slice: &'a [u8],
    ) -> Result<Ipv6Slice<'a>, ipv6_exts::HeaderSliceError>
        requires { IsPrefix (bytes header) slice.now }
        ensures packet { IfOk result (λ x. IsIpv6Packet slice.now (ipv6_parts x)) }
        ensures fault { result_err result ≡ ipv6_chain_fault slice.now }
    {
        let payload_length = header.payload_length();
        let (front, len_source) = ipv6_front(payload_length, slice);
        let header_len = header.slice().len();
        let after = front.split_at(header_len).1;
        match Ipv6ExtensionsSlice::from_slice(header.next_header(), after) {
            Ok((exts, ip_number, payload)) => {
                let fragmented = exts.is_fragmenting_payload();
                Ok(Ipv6Slice {
                    header,
                    exts,
                    payload: IpPayloadSlice {
                        ip_number,
                        fragmented,
                        len_source,
                        payload,
                    },
                })
            }
            Err(e) => Err(in_packet(e, len_source, header_len)),
        }
    }

    /// Returns the base header.
    pub fn header(&self) -> Ipv6HeaderSlice<'a>
        ensures { bytes result ≡ (ipv6_parts self.now).base }
    {
        self.header
    }

    /// Returns the extension headers.
    pub fn extensions(&self) -> &Ipv6ExtensionsSlice<'a>
        ensures { headers_in result.now ≡ (ipv6_parts self.now).headers }
    {
        &self.exts
    }

    /// Returns the payload after the extension headers.
    pub fn payload(&self) -> &IpPayloadSlice<'a>
        ensures bytes { result.now.payload.now ≡ (ipv6_parts self.now).payload }
        ensures number { result.now.ip_number.0 ≡ (ipv6_parts self.now).number }
        ensures fragmented { result.now.fragmented ≡ (ipv6_parts self.now).fragmented }
        ensures source { result.now.len_source ≡ (ipv6_parts self.now).source }
    {
        &self.payload
    }

    /// Returns the payload's protocol number: the next header of the last extension header, or of the base header if
    /// there is none.
    pub fn payload_ip_number(&self) -> IpNumber
        ensures { result.0 ≡ (ipv6_parts self.now).number }
    {
        self.payload.ip_number
    }

    /// Returns whether the payload is a fragment: some fragment header of the chain fragments it.
    pub fn is_payload_fragmented(&self) -> bool
        ensures { result ≡ (ipv6_parts self.now).fragmented }
    {
        self.payload.fragmented
    }
}

impl PartialEq for Ipv6Slice<'_> {
    ghost use Rattle.std.specs.Prelude.{◌↔◌, IsTrue};
    ghost use Rattle.std.specs.Cmp.{partial_equiv_from_equiv};
    ghost use Rattle.etherparse_ip.specs.PacketEqual.{ipv6_packet_equal, ipv6_packet_equivalence};
    ghost use Rattle.etherparse_ip.specs.Ipv6Slice.{ipv6_parts};

    ghost eq = { ipv6_packet_equal };

    ghost laws = { partial_equiv_from_equiv ipv6_packet_equivalence };

    fn eq(&self, other: &Self) -> bool
        ensures answer { result ≡ ipv6_packet_equal self.now other.now }
        ensures same { IsTrue result ↔ (ipv6_parts self.now ≡ ipv6_parts other.now) }
    {
        self.header == other.header && self.exts == other.exts && self.payload == other.payload
    }
}

impl Eq for Ipv6Slice<'_> {
    ghost use Rattle.etherparse_ip.specs.PacketEqual.{ipv6_packet_equivalence};

    ghost laws = { ipv6_packet_equivalence };
}

/// Returns the extension headers' error with its offset counted from the packet's start.
#[inline(always)]
fn in_packet(
    error: ipv6_exts::HeaderSliceError,
    len_source: LenSource,
    header_len: usize,
) -> ipv6_exts::HeaderSliceError
    requires { ExtsOffsetFits error header_len }
    ensures { result ≡ exts_in_packet len_source header_len error }
{
    match error {
        ipv6_exts::HeaderSliceError::Len(e) => ipv6_exts::HeaderSliceError::Len(LenError {
            len_source,
            ..e.add_offset(header_len)
        }),
        ipv6_exts::HeaderSliceError::Content(e) => ipv6_exts::HeaderSliceError::Content(e),
    }
}
