//! An IPv4 packet, borrowed.
ghost use Rattle.std.specs.Prelude.{◌≡◌, IfOk};
ghost use Rattle.std.specs.Result.{result_err};
ghost use Rattle.ip_base.specs.Ipv4HeaderSlice.{bytes};
ghost use Rattle.ip_base.specs.Prefix.{IsPrefix};
ghost use Rattle.ip_ext_headers.specs.HeaderFault.{AuthOffsetFits, auth_in_packet};
ghost use Rattle.ip_ext_chains.specs.Ipv4ExtensionsSlice.{headers_in};
ghost use Rattle.etherparse_ip.specs.LenSources.{ipv4_len_source};
ghost use Rattle.etherparse_ip.specs.Packet.{IsIpv4Packet};
ghost use Rattle.etherparse_ip.specs.PacketFault.{ipv4_fault_after, ipv4_fault};

use crate::err::ipv4::{HeaderSliceError, SliceError};
use crate::err::{Layer, LenError, ip_auth};
use ip_base::{IpNumber, IpPayloadSlice, Ipv4HeaderSlice, LenSource};
use ip_ext_chains::Ipv4ExtensionsSlice;

/// An IPv4 packet (RFC 791): its base header, extension headers and payload, borrowed from the caller's bytes. Two
/// are equal if all their parts are.
#[derive(Clone, Debug, Drop)]
pub struct Ipv4Slice<'a> {
    header: Ipv4HeaderSlice<'a>,
    exts: Ipv4ExtensionsSlice<'a>,
    payload: IpPayloadSlice<'a>,
}

impl<'a> Ipv4Slice<'a> {
    ghost use Rattle.etherparse_ip.specs.Ipv4Slice.{ipv4_parts};

    /// Parses the packet at the start of the slice. The payload ends where the total length says; bytes after it are
    /// ignored.
    ///
    /// Returns an error, in this order, if the base header is malformed or truncated, if the total length is below
    /// the base header's length, if there are fewer bytes than the total length, or if an extension header is
    /// malformed or truncated. The offset of an extension header's error counts from the start of the slice, and its
    /// length source is `LenSource::Ipv4HeaderTotalLen`.
    #[inline(always)]
    pub fn from_slice(slice: &'a [u8]) -> Result<Ipv4Slice<'a>, SliceError>
        ensures packet { IfOk result (λ x. IsIpv4Packet slice.now (ipv4_parts x)) }
        ensures fault { result_err result ≡ ipv4_fault slice.now }
    {
        let header = match Ipv4HeaderSlice::from_slice(slice) {
            Ok(header) => header,
            Err(HeaderSliceError::Len(e)) => return Err(SliceError::Len(e)),
            Err(HeaderSliceError::Content(e)) => return Err(SliceError::Header(e)),
        };
        match Self::after_base(header, slice) {
            Ok(packet) => Ok(packet),
            Err(ip_auth::HeaderSliceError::Len(e)) => Err(SliceError::Len(e)),
            Err(ip_auth::HeaderSliceError::Content(e)) => Err(SliceError::Exts(e)),
        }
    }

    /// Parses the packet at the start of the slice with this base header.
    #[inline(always)]
    #[tactic(auto, using(crate::proofs::PartsLemmas::ipv4_after_fault))]
    pub(crate) fn after_base(
        header: Ipv4HeaderSlice<'a>,
        slice: &'a [u8],
    ) -> Result<Ipv4Slice<'a>, ip_auth::HeaderSliceError>
        requires { IsPrefix (bytes header) slice.now }
        ensures packet { IfOk result (λ x. IsIpv4Packet slice.now (ipv4_parts x)) }
        ensures fault { result_err result ≡ ipv4_fault_after slice.now }
    {
        let header_len = header.slice().len();
        let total_len = usize::from(header.total_len());
        if total_len < header_len {
            return Err(ip_auth::HeaderSliceError::Len(LenError {
                required_len: header_len,
                layer_start_offset: 0,
                len_source: LenSource::Ipv4HeaderTotalLen,
                layer: Layer::Ipv4Packet,
                len: total_len,
            }));
        }
        if slice.len() < total_len {
            return Err(ip_auth::HeaderSliceError::Len(LenError::slice_too_short(
                slice,
                Layer::Ipv4Packet,
                total_len,
            )));
        }
        let front = &slice[..total_len];
        let fragmented = header.is_fragmenting_payload();
        let after = front.split_at(header_len).1;
        match Ipv4ExtensionsSlice::from_slice(header.protocol(), after) {
            Ok((exts, ip_number, payload)) => Ok(Ipv4Slice {
                header,
                exts,
                payload: IpPayloadSlice {
                    ip_number,
                    fragmented,
                    len_source: LenSource::Ipv4HeaderTotalLen,
                    payload,
                },
            }),
            Err(e) => Err(in_packet(e, header_len)),
        }
    }

    /// Returns the base header with its options.
    pub fn header(&self) -> Ipv4HeaderSlice<'_>
        ensures { bytes result ≡ (ipv4_parts self.now).base }
    {
        self.header
    }

    /// Returns the extension headers: an authentication header, or none.
    pub fn extensions(&self) -> Ipv4ExtensionsSlice<'_>
        ensures { headers_in result ≡ (ipv4_parts self.now).headers }
    {
        self.exts
    }

    /// Returns the payload after the extension headers.
    pub fn payload(&self) -> &IpPayloadSlice<'a>
        ensures bytes { result.now.payload.now ≡ (ipv4_parts self.now).payload }
        ensures number { result.now.ip_number.0 ≡ (ipv4_parts self.now).number }
        ensures fragmented { result.now.fragmented ≡ (ipv4_parts self.now).fragmented }
        ensures source { result.now.len_source ≡ (ipv4_parts self.now).source }
    {
        &self.payload
    }

    /// Returns the payload's protocol number: the authentication header's next header, or the base header's protocol
    /// if there is none.
    pub fn payload_ip_number(&self) -> IpNumber
        ensures { result.0 ≡ (ipv4_parts self.now).number }
    {
        self.payload.ip_number
    }

    /// Returns whether the payload is a fragment, by the base header.
    pub fn is_payload_fragmented(&self) -> bool
        ensures { result ≡ (ipv4_parts self.now).fragmented }
    {
        self.payload.fragmented
    }
}

impl PartialEq for Ipv4Slice<'_> {
    ghost use Rattle.std.specs.Prelude.{◌↔◌, IsTrue};
    ghost use Rattle.std.specs.Cmp.{partial_equiv_from_equiv};
    ghost use Rattle.etherparse_ip.specs.PacketEqual.{ipv4_packet_equal, ipv4_packet_equivalence};
    ghost use Rattle.etherparse_ip.specs.Ipv4Slice.{ipv4_parts};

    ghost eq = { ipv4_packet_equal };

    ghost laws = { partial_equiv_from_equiv ipv4_packet_equivalence };

    fn eq(&self, other: &Self) -> bool
        ensures answer { result ≡ ipv4_packet_equal self.now other.now }
        ensures same { IsTrue result ↔ (ipv4_parts self.now ≡ ipv4_parts other.now) }
    {
        self.header == other.header && self.exts == other.exts && self.payload == other.payload
    }
}

impl Eq for Ipv4Slice<'_> {
    ghost use Rattle.etherparse_ip.specs.PacketEqual.{ipv4_packet_equivalence};

    ghost laws = { ipv4_packet_equivalence };
}

/// Returns the extension headers' error with its offset counted from the packet's start.
#[inline(always)]
fn in_packet(error: ip_auth::HeaderSliceError, header_len: usize) -> ip_auth::HeaderSliceError
    requires { AuthOffsetFits error header_len }
    ensures { result ≡ auth_in_packet ipv4_len_source header_len error }
{
    match error {
        ip_auth::HeaderSliceError::Len(e) => ip_auth::HeaderSliceError::Len(LenError {
            len_source: LenSource::Ipv4HeaderTotalLen,
            ..e.add_offset(header_len)
        }),
        ip_auth::HeaderSliceError::Content(e) => ip_auth::HeaderSliceError::Content(e),
    }
}
